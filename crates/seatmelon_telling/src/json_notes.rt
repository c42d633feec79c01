//! What was passed over, and times of capture, as JSON.
ghost use Rattle.std.specs.Prelude.{◌≡◌, IfErr};
ghost use Rattle.rasta_pcap.specs.Fault.{write_failed};

use crate::json::write_count;
use crate::json_places::{write_number_if, write_sighting_if, write_time_if};
use crate::notes::{Longest, silences_told};
use rasta_pcap::{Fault, Sink};
use seatmelon_account::Account;
use seatmelon_reading::{LastRecord, Noticed, PassedOver, Sighting};
use seatmelon_text::json::write_long;
use seatmelon_text::{tell, write_words};

/// Writes how many records hold no packet of the recorded channels, by why.
pub fn write_passed_over<W: Sink>(writer: &mut W, passed: PassedOver) -> Result<(), Fault>
    ensures err { IfErr result (λ f. f ≡ write_failed) }
{
    write_words(writer, ",\"passed_over\":{\"left_out\":")?;
    write_long(writer, passed.left_out)?;
    write_count(writer, "not_udp", passed.not_udp)?;
    write_count(writer, "tagged", passed.tagged)?;
    write_count(writer, "elsewhere", passed.elsewhere)?;
    write_count(writer, "unreadable", passed.unreadable)?;
    write_words(writer, "}")
}

// Writes of how many records something is noted, and the first of them.
fn write_noticed<W: Sink>(writer: &mut W, key: &'static str, noticed: Noticed) -> Result<(), Fault>
    ensures err { IfErr result (λ f. f ≡ write_failed) }
{
    tell!(writer, "\"", key, "\":{\"records\":")?;
    write_long(writer, noticed.count)?;
    write_words(writer, ",\"first\":")?;
    write_number_if(writer, noticed.first)?;
    write_words(writer, "},")
}

// Writes how long a silence is, and from which packet on, as an object that is yet to be ended.
fn begin_silence<W: Sink>(writer: &mut W, nanoseconds: u64, from: &Sighting) -> Result<(), Fault>
    ensures err { IfErr result (λ f. f ≡ write_failed) }
{
    write_words(writer, "{\"nanoseconds\":")?;
    write_long(writer, nanoseconds)?;
    write_words(writer, ",\"from\":")?;
    write_sighting_if(writer, Some(from))
}

// Writes the last record of what is judged, which is on no channel.
fn write_last<W: Sink>(writer: &mut W, last: LastRecord) -> Result<(), Fault>
    ensures err { IfErr result (λ f. f ≡ write_failed) }
{
    tell!(writer, "{\"record\":", last.number, ",\"time\":")?;
    write_time_if(writer, last.time)?;
    write_words(writer, ",\"channel\":null}")
}

// Writes the longest silence of an end, or null.
fn write_silence<W: Sink>(writer: &mut W, longest: Option<Longest>) -> Result<(), Fault>
    ensures err { IfErr result (λ f. f ≡ write_failed) }
{
    match longest {
        Some(Longest::Between(silence)) => {
            begin_silence(writer, silence.nanoseconds(), &silence.before)?;
            write_words(writer, ",\"to\":")?;
            write_sighting_if(writer, Some(&silence.after))?;
            write_words(writer, ",\"is_to_end\":false}")
        }
        Some(Longest::ToEnd(silence)) => {
            begin_silence(writer, silence.nanoseconds(), &silence.before)?;
            write_words(writer, ",\"to\":")?;
            write_last(writer, silence.end)?;
            write_words(writer, ",\"is_to_end\":true}")
        }
        None => write_words(writer, "null"),
    }
}

// Writes how many packets have no time, if some have none.
fn write_untimed<W: Sink>(writer: &mut W, count: u64) -> Result<(), Fault>
    ensures err { IfErr result (λ f. f ≡ write_failed) }
{
    if count == 0 {
        return Ok(());
    }
    write_words(writer, "\"packets_without_time\":")?;
    write_long(writer, count)?;
    write_words(writer, ",")
}

/// Writes what is noted of the times of capture.
pub fn write_times<W: Sink>(writer: &mut W, account: &Account<'_>) -> Result<(), Fault>
    ensures err { IfErr result (λ f. f ≡ write_failed) }
{
    let times = &account.reading.notes.times;
    let [client, server] = silences_told(account);
    write_words(writer, ",\"times\":{")?;
    write_noticed(writer, "falling", times.falling)?;
    write_noticed(writer, "overlong_fractions", times.overlong)?;
    write_untimed(writer, account.untimed)?;
    write_words(writer, "\"longest_silence\":{\"client\":")?;
    write_silence(writer, client)?;
    write_words(writer, ",\"server\":")?;
    write_silence(writer, server)?;
    write_words(writer, "}}")
}
