//! Why a connection has no quiet point behind a record, in words.
ghost use Rattle.rasta_pcap.specs.Devices.{AsWritten};

use crate::channel::End;
use crate::connection::Connection;
use crate::quiet::{LastSent, QuietPoints, Reason, RuledOut};
use rasta_pcap::{Fault, Sink};
use seatmelon_text::tell;

// What a point lacks at the end of the capture.
#[derive(Clone, Copy)]
enum Lack {
    // After this record both ends are at rest, but behind it this one sends nothing.
    Confirmation { point: u32, end: End },

    // This end sent nothing.
    AnyPdu(End),

    // The retransmission request of this end, in this record, has no response.
    Response { end: End, record: u32 },

    // What this end sent last shows no rest.
    Rest { end: End, last: LastSent },
}

// Why an end isn't at rest.
fn lack_of(quiet: &QuietPoints, end: End) -> Option<Lack> {
    let progress = quiet.progress(end);
    let Some(last) = progress.last else {
        return Some(Lack::AnyPdu(end));
    };
    if let Some(record) = progress.asked {
        return Some(Lack::Response { end, record });
    }
    match progress.at_rest() {
        Some(_) => None,
        None => Some(Lack::Rest { end, last }),
    }
}

// What the earliest point lacks, or why there is none.
fn lack_in(quiet: &QuietPoints) -> Option<Lack> {
    let Some(candidate) = quiet.candidates().first() else {
        return lack_of(quiet, End::First).or(lack_of(quiet, End::Second));
    };
    let end = if candidate.awaits(End::First) {
        End::First
    } else {
        End::Second
    };
    Some(Lack::Confirmation {
        point: candidate.point.record,
        end,
    })
}

fn name_of_end(end: End, is_first_client: bool) -> &'static str {
    match (end, is_first_client) {
        (End::First, true) | (End::Second, false) => "client",
        (End::First, false) | (End::Second, true) => "server",
    }
}

fn write_lack<W: Sink>(writer: &mut W, lack: Lack, is_first_client: bool) -> Result<(), Fault>
    ensures written { AsWritten W.failure_count result writer.old writer.new }
{
    match lack {
        Lack::Confirmation { point, end } => tell!(
            writer,
            "# After record ",
            point,
            " both ends are at rest, but behind it the ",
            name_of_end(end, is_first_client),
            " sends nothing.\n"
        ),
        Lack::AnyPdu(end) => {
            let name = name_of_end(end, is_first_client);
            tell!(writer, "# From there on the ", name, " sends nothing.\n")
        }
        Lack::Response { end, record } => tell!(
            writer,
            "# The retransmission request of the ",
            name_of_end(end, is_first_client),
            " in record ",
            record,
            " has no response.\n"
        ),
        Lack::Rest { end, last } => tell!(
            writer,
            "# What the ",
            name_of_end(end, is_first_client),
            " sends last, in record ",
            last.stamp.record,
            ", is of the type ",
            last.kind.name(),
            ", and not heartbeat, data or retransmission request.\n"
        ),
    }
}

// Writes which point was ruled out last, and why.
fn write_ruled_out<W: Sink>(writer: &mut W, ruled_out: RuledOut) -> Result<(), Fault>
    ensures written { AsWritten W.failure_count result writer.old writer.new }
{
    tell!(
        writer,
        "# The point after record ",
        ruled_out.point,
        " is ruled out by record ",
        ruled_out.record
    )?;
    match ruled_out.reason {
        Reason::ConfirmsNothing => tell!(
            writer,
            ", which does not confirm the other end's last PDU before it.\n"
        ),
        Reason::RespondsToEarlier => tell!(
            writer,
            ", a retransmission response to what was asked for before it.\n"
        ),
        Reason::Repeats { first } => tell!(
            writer,
            ", which has the number of the packet in record ",
            first,
            ".\n"
        ),
        Reason::Late => tell!(writer, ", whose number comes late.\n"),
    }
}

/// Writes that the connection has no quiet point behind a record, and why, as comments.
pub fn write_no_point<W: Sink>(
    writer: &mut W,
    connection: &Connection,
    quiet: &QuietPoints,
    is_first_client: bool,
) -> Result<(), Fault>
    ensures written { AsWritten W.failure_count result writer.old writer.new }
{
    tell!(
        writer,
        "# The connection in the records ",
        connection.first_record(),
        " to ",
        connection.last_record(),
        " of a capture shows no quiet point behind record ",
        quiet.from().unwrap_or(0),
        ".\n"
    )?;
    if let Some(lack) = lack_in(quiet) {
        write_lack(writer, lack, is_first_client)?;
    }
    match quiet.last_ruled_out() {
        Some(ruled_out) => write_ruled_out(writer, ruled_out),
        None => Ok(()),
    }
}
