//! The text on what was passed over, and on times of capture.
ghost use Rattle.std.specs.Prelude.{◌≡◌, IfErr};
ghost use Rattle.rasta_pcap.specs.Fault.{write_failed};

use rasta_pcap::{Fault, Side, Sink};
use seatmelon_account::{Account, EndSilences};
use seatmelon_reading::{LastSilence, Noticed, Silence};
use seatmelon_text::{Part, tell, write_words};

// Writes how many records were passed over for one reason, if there are any.
fn write_reason<W: Sink>(writer: &mut W, reason: &'static str, count: u64) -> Result<(), Fault>
    ensures err { IfErr result (λ f. f ≡ write_failed) }
{
    if count == 0 {
        return Ok(());
    }
    tell!(writer, "    ", reason, ": ", count, "\n")
}

/// Writes how many records were passed over, and why.
pub fn write_passed_over<W: Sink>(writer: &mut W, account: &Account<'_>) -> Result<(), Fault>
    ensures err { IfErr result (λ f. f ≡ write_failed) }
{
    let passed = account.reading.notes.passed;
    tell!(writer, "  records passed over: ", passed.total(), "\n")?;
    write_reason(writer, "left out", passed.left_out)?;
    write_reason(writer, "not IPv4 or UDP", passed.not_udp)?;
    write_reason(writer, "other addresses or ports", passed.elsewhere)?;
    write_reason(
        writer,
        "behind two VLAN tags or 802.1ad, on recorded addresses",
        passed.tagged,
    )?;
    write_reason(
        writer,
        "between recorded hosts, but cut, in fragments or damaged",
        passed.unreadable,
    )
}

/// The longest silence of an end.
#[derive(Clone, Copy)]
pub enum Longest {
    /// Between two signs of life.
    Between(Silence),

    /// From the last one to the end of what is judged.
    ToEnd(LastSilence),
}

// The longest silence of an end, if there is one.
fn longest_of(silences: &EndSilences) -> Option<Longest> {
    match (silences.longest, silences.to_end) {
        (Some(longest), Some(to_end)) if longest.nanoseconds() < to_end.nanoseconds() => {
            Some(Longest::ToEnd(to_end))
        }
        (Some(longest), _) => Some(Longest::Between(longest)),
        (None, Some(to_end)) if to_end.nanoseconds() > 0 => Some(Longest::ToEnd(to_end)),
        (None, _) => None,
    }
}

// Writes how long the silence of an end is.
fn write_length<W: Sink>(writer: &mut W, end: Side, nanoseconds: u64) -> Result<(), Fault>
    ensures err { IfErr result (λ f. f ≡ write_failed) }
{
    tell!(
        writer,
        "  longest silence of the ",
        end,
        ": ",
        Part::Milliseconds(nanoseconds),
        " ms, "
    )
}

// Writes the silence of an end that lasts to the end of what is judged.
fn write_to_end<W: Sink>(
    writer: &mut W,
    account: &Account<'_>,
    silence: &LastSilence,
) -> Result<(), Fault>
    ensures err { IfErr result (λ f. f ≡ write_failed) }
{
    let whole = if account.window.is_some() {
        " to the end of the window, record "
    } else {
        " to the end of the capture, record "
    };
    tell!(
        writer,
        "from record ",
        silence.before.record,
        whole,
        silence.end.number,
        "\n"
    )
}

// Writes the longest silence of an end, if it gave more than one sign of life, or none to the end.
fn write_silence<W: Sink>(
    writer: &mut W,
    account: &Account<'_>,
    end: Side,
    longest: Option<Longest>,
) -> Result<(), Fault>
    ensures err { IfErr result (λ f. f ≡ write_failed) }
{
    match longest {
        Some(Longest::Between(silence)) => {
            write_length(writer, end, silence.nanoseconds())?;
            tell!(
                writer,
                "between records ",
                silence.before.record,
                " and ",
                silence.after.record,
                "\n"
            )
        }
        Some(Longest::ToEnd(silence)) => {
            write_length(writer, end, silence.nanoseconds())?;
            write_to_end(writer, account, &silence)
        }
        None => Ok(()),
    }
}

// Writes of how many records something is noted, and the first of them, if there are any.
fn write_noticed<W: Sink>(writer: &mut W, what: &'static str, noticed: Noticed) -> Result<(), Fault>
    ensures err { IfErr result (λ f. f ≡ write_failed) }
{
    match noticed.first {
        Some(first) => tell!(
            writer,
            "  ",
            what,
            ": ",
            noticed.count,
            ", the first is record ",
            first,
            "\n"
        ),
        None => Ok(()),
    }
}

/// The longest silence of the client and of the server. None is told where packets have no time: a longer one may be
/// beside these.
pub fn silences_told(account: &Account<'_>) -> [Option<Longest>; 2] {
    let [client, server] = &account.silences;
    if account.untimed > 0 {
        [None, None]
    } else {
        [longest_of(client), longest_of(server)]
    }
}

// Whether something is noted of the times of capture.
fn is_any_noted(account: &Account<'_>) -> bool {
    let times = &account.reading.notes.times;
    let [client, server] = silences_told(account);
    client.is_some()
        || server.is_some()
        || account.untimed > 0
        || times.falling.count > 0
        || times.overlong.count > 0
}

// Writes how many packets have no time, if some have none.
fn write_untimed<W: Sink>(writer: &mut W, count: u64) -> Result<(), Fault>
    ensures err { IfErr result (λ f. f ≡ write_failed) }
{
    if count == 0 {
        return Ok(());
    }
    tell!(
        writer,
        "  packets of the connection without a time: ",
        count,
        ", so that no silence is told\n"
    )
}

/// Writes what is noted of the times of capture.
pub fn write_times<W: Sink>(writer: &mut W, account: &Account<'_>) -> Result<(), Fault>
    ensures err { IfErr result (λ f. f ≡ write_failed) }
{
    let times = &account.reading.notes.times;
    let [client, server] = silences_told(account);
    if !is_any_noted(account) {
        return Ok(());
    }
    write_words(writer, "Times of capture, which no verdict reads:\n")?;
    write_silence(writer, account, Side::Client, client)?;
    write_silence(writer, account, Side::Server, server)?;
    write_untimed(writer, account.untimed)?;
    write_noticed(
        writer,
        "records captured before the one that stands before them",
        times.falling,
    )?;
    write_noticed(
        writer,
        "records whose fraction of a second isn't below one",
        times.overlong,
    )
}
