//! What is told of the packets of a connection, as JSON.
ghost use Rattle.std.specs.Prelude.{◌≡◌, IfErr};
ghost use Rattle.rasta_pcap.specs.Fault.{write_failed};

use rasta_pcap::{Fault, MAX_RECORDS, Sink};
use seatmelon_audit::{Course, Disconnection, Facts, Stamp};
use seatmelon_text::json::write_long;
use seatmelon_text::{tell, write_words};

/// How JSON spells whether something is so.
pub fn truth(is_so: bool) -> &'static str {
    if is_so { "true" } else { "false" }
}

// Writes a number, or null.
fn write_number_if<W: Sink>(writer: &mut W, number: Option<u32>) -> Result<(), Fault>
    ensures err { IfErr result (λ f. f ≡ write_failed) }
{
    match number {
        Some(number) => tell!(writer, number),
        None => write_words(writer, "null"),
    }
}

// Writes the window in a file of so many records, up to the last one of it that was read, or null where none is recorded.
fn write_window<W: Sink>(writer: &mut W, facts: &Facts, records: u32) -> Result<(), Fault>
    ensures err { IfErr result (λ f. f ≡ write_failed) }
{
    if facts.first_record <= 1 && facts.last_record >= MAX_RECORDS {
        return write_words(writer, ",\"window\":null");
    }
    let last = if records < facts.first_record {
        None
    } else {
        Some(records.min(facts.last_record))
    };
    tell!(
        writer,
        ",\"window\":{\"first_record\":",
        facts.first_record,
        ",\"last_record\":"
    )?;
    write_number_if(writer, last)?;
    write_words(writer, "}")
}

// Writes number and time of a record under this key, or null.
fn write_stamp<W: Sink>(
    writer: &mut W,
    key: &'static str,
    stamp: Option<Stamp>,
) -> Result<(), Fault>
    ensures err { IfErr result (λ f. f ≡ write_failed) }
{
    tell!(writer, ",\"", key, "\":")?;
    match stamp {
        Some(stamp) => tell!(
            writer,
            "{\"record\":",
            stamp.record,
            ",\"time\":\"",
            stamp.time,
            " UTC\"}"
        ),
        None => write_words(writer, "null"),
    }
}

// Writes the record and the time of a disconnection request, or nulls.
fn write_ending_stamp<W: Sink>(writer: &mut W, stamp: Option<Stamp>) -> Result<(), Fault>
    ensures err { IfErr result (λ f. f ≡ write_failed) }
{
    match stamp {
        Some(stamp) => tell!(
            writer,
            ",\"record\":",
            stamp.record,
            ",\"time\":\"",
            stamp.time,
            " UTC\""
        ),
        None => write_words(writer, ",\"record\":null,\"time\":null"),
    }
}

// Writes a disconnection request of a course, and what crossed behind it.
fn write_ending<W: Sink>(
    writer: &mut W,
    course: &Course,
    ending: &Disconnection,
    stamp: Option<Stamp>,
) -> Result<(), Fault>
    ensures err { IfErr result (λ f. f ≡ write_failed) }
{
    tell!(
        writer,
        "{\"end\":\"",
        ending.side,
        "\",\"reason\":",
        ending.reason,
        ",\"detail\":",
        ending.detail
    )?;
    write_ending_stamp(writer, stamp)?;
    write_words(writer, ",\"new_pdus_behind\":")?;
    write_long(writer, course.further)?;
    write_words(writer, ",\"late_copies_behind\":")?;
    write_long(writer, course.repeated)?;
    write_words(writer, "}")
}

// Writes how a connection ended, or null.
fn write_ending_if<W: Sink>(writer: &mut W, facts: &Facts) -> Result<(), Fault>
    ensures err { IfErr result (λ f. f ≡ write_failed) }
{
    write_words(writer, ",\"disconnection\":")?;
    let Some(course) = facts.course else {
        return write_words(writer, "null");
    };
    match course.ending {
        Some(ending) => write_ending(writer, &course, &ending, facts.ending),
        None => write_words(writer, "null"),
    }
}

// Writes whether the first packet opens the connection, or null where there is none.
fn write_opening<W: Sink>(writer: &mut W, opens: Option<bool>) -> Result<(), Fault>
    ensures err { IfErr result (λ f. f ≡ write_failed) }
{
    let words = opens.map_or("null", truth);
    tell!(writer, ",\"begins_with_opening\":", words)
}

/// Writes what is told of a connection in a file of so many records: its window, the record before which a quiet point is
/// recorded, its first and last packet, whether the first one opens it, and how it ended.
pub fn write_facts<W: Sink>(writer: &mut W, facts: &Facts, records: u32) -> Result<(), Fault>
    ensures err { IfErr result (λ f. f ≡ write_failed) }
{
    write_window(writer, facts, records)?;
    write_words(writer, ",\"quiet_point\":")?;
    write_number_if(writer, facts.quiet_record)?;
    write_stamp(writer, "first", facts.span.first)?;
    write_stamp(writer, "last", facts.span.last)?;
    write_opening(writer, facts.opens)?;
    write_ending_if(writer, facts)?;
    write_stamp(writer, "another_opening", facts.reopening)
}
