//! The quiet points of a draft.
ghost use Rattle.rasta_pcap.specs.Devices.{AsWritten};

use crate::quiet::{LastData, LastSent, Point, QuietPoints};
use rasta_pcap::{Fault, Sink};
use seatmelon_text::{numbered, parts, tell, write_parts, write_parts_if};

// What stands before the record of an end's last PDU.
const SEEN_IN: &str = " } # its last PDU is in record ";

// How many points are proposed.
const MOST_POINTS: u64 = 11;

// Writes what is known of an end at a point, after some words.
fn write_end<W: Sink>(
    writer: &mut W,
    before: &'static str,
    name: &'static str,
    last: LastSent,
) -> Result<(), Fault>
    ensures written { AsWritten W.failure_count result writer.old writer.new }
{
    tell!(
        writer,
        before,
        "quiet.",
        name,
        " = { next_sn = ",
        last.sn.wrapping_add(1),
        ", clock = ",
        last.stamp.ts
    )?;
    let seen = last.stamp.record;
    let (data, words) = match last.data {
        Some(LastData::Sent(data)) => (data, ", its last data in record "),
        Some(LastData::Confirmed(data)) => (data, "; an older time stamp is confirmed in record "),
        None => {
            let rest = parts![SEEN_IN, seen, "\n"];
            return write_parts(writer, &rest);
        }
    };
    tell!(
        writer,
        ", handed_ts = ",
        data.ts,
        SEEN_IN,
        seen,
        words,
        data.record,
        "\n"
    )
}

// Writes both ends at a point, each after some words.
fn write_ends<W: Sink>(
    writer: &mut W,
    before: &'static str,
    point: &Point,
    is_first_client: bool,
) -> Result<(), Fault>
    ensures written { AsWritten W.failure_count result writer.old writer.new }
{
    if is_first_client {
        write_end(writer, before, "client", point.first)?;
        write_end(writer, before, "server", point.second)
    } else {
        write_end(writer, before, "client", point.second)?;
        write_end(writer, before, "server", point.first)
    }
}

// Writes why a quiet point is proposed: no opening was captured, or only packets from a record on are looked at.
fn write_cause<W: Sink>(writer: &mut W, from: Option<u32>) -> Result<(), Fault>
    ensures written { AsWritten W.failure_count result writer.old writer.new }
{
    match from {
        Some(from) => tell!(
            writer,
            "\n# Packets before record ",
            from,
            " are not looked at, but for copies."
        ),
        None => tell!(writer, "\n# No opening was captured."),
    }
}

// Writes the point that the draft proposes.
fn write_proposal<W: Sink>(
    writer: &mut W,
    point: &Point,
    from: Option<u32>,
    is_first_client: bool,
) -> Result<(), Fault>
    ensures written { AsWritten W.failure_count result writer.old writer.new }
{
    write_cause(writer, from)?;
    tell!(
        writer,
        " After record ",
        point.record,
        " both ends seem to be up and to owe each other nothing: a quiet point.\n",
        "# It is a premise of every answer: only the engineering data or a log can confirm it.\n"
    )?;
    write_ends(writer, "", point, is_first_client)
}

// Writes another point, as a comment.
fn write_alternative<W: Sink>(
    writer: &mut W,
    point: &Point,
    is_first_client: bool,
) -> Result<(), Fault>
    ensures written { AsWritten W.failure_count result writer.old writer.new }
{
    let next = u64::from(point.record).saturating_add(1);
    write_parts(
        writer,
        &numbered("\n# Another quiet point:\n# first_record = ", next),
    )?;
    write_ends(writer, "# ", point, is_first_client)
}

/// Writes the quiet points: the first one as keys, and others as comments.
pub fn write_quiet_points<W: Sink>(
    writer: &mut W,
    quiet: &QuietPoints,
    is_first_client: bool,
) -> Result<(), Fault>
    ensures written { AsWritten W.failure_count result writer.old writer.new }
{
    let mut written = 0u64;
    for candidate in quiet.candidates() {
        if candidate.is_found() && written < MOST_POINTS {
            if written == 0 {
                write_proposal(writer, &candidate.point, quiet.from(), is_first_client)?;
            } else {
                write_alternative(writer, &candidate.point, is_first_client)?;
            }
            written = written.saturating_add(1);
        }
    }
    let none = parts![
        "\n# No opening was captured. An audit needs a quiet point, from the engineering data or a log.\n"
    ];
    write_parts_if(writer, written == 0, &none)
}
