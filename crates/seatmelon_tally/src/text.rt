//! An audit of many connections in words.
ghost use Rattle.std.specs.Prelude.{◌≡◌, IfErr};
ghost use Rattle.rasta_pcap.specs.Fault.{write_failed};

use crate::counts::{Counts, is_cut};
use rasta_pcap::{CaptureTime, Fault, Side, Sink};
use seatmelon_audit::{
    Answer, Audit, Before, Conveyed, Explained, Refusal, Share, ShownOf, Subject,
};
use seatmelon_capture::{write_fault, write_link_types};
use seatmelon_pcapng::Format;
use seatmelon_text::{tell, write_words};

// What so many are called.
fn named(count: u64, one: &'static str, many: &'static str) -> &'static str {
    if count == 1 { one } else { many }
}

// Writes how many messages of an end were surely taken, of how many that it sent.
fn write_conveyed<W: Sink>(
    writer: &mut W,
    sender: Side,
    conveyed: Conveyed,
    behind: &'static str,
) -> Result<(), Fault>
    ensures err { IfErr result (λ f. f ≡ write_failed) }
{
    tell!(
        writer,
        "; ",
        sender,
        " to ",
        sender.other(),
        ": ",
        conveyed.taken,
        " of ",
        conveyed.sent,
        behind
    )
}

// Writes how many messages of both ends were surely taken, of packets that are explained, and ends the line.
fn write_messages<W: Sink>(writer: &mut W, explained: &Explained) -> Result<(), Fault>
    ensures err { IfErr result (λ f. f ≡ write_failed) }
{
    let messages = named(
        explained.client.sent,
        " message surely taken",
        " messages surely taken",
    );
    write_conveyed(writer, Side::Client, explained.client, messages)?;
    write_conveyed(writer, Side::Server, explained.server, "\n")
}

// Writes what is counted of a connection that is explained.
fn write_explained<W: Sink>(writer: &mut W, explained: &Explained) -> Result<(), Fault>
    ensures err { IfErr result (λ f. f ≡ write_failed) }
{
    let packets = explained.packets;
    tell!(
        writer,
        "explained, ",
        packets,
        named(packets, " packet", " packets")
    )?;
    write_messages(writer, explained)
}

// Writes when a record was captured, if it was read whole.
fn write_time_if<W: Sink>(writer: &mut W, time: Option<CaptureTime>) -> Result<(), Fault>
    ensures err { IfErr result (λ f. f ≡ write_failed) }
{
    match time {
        Some(time) => tell!(writer, ", ", time, " UTC"),
        None => Ok(()),
    }
}

// Writes the record that a refusal names, if it names one.
fn write_subject_if<W: Sink>(writer: &mut W, subject: Option<Subject>) -> Result<(), Fault>
    ensures err { IfErr result (λ f. f ≡ write_failed) }
{
    match subject {
        Some(subject) => {
            tell!(writer, ", record ", subject.record)?;
            write_time_if(writer, subject.time)
        }
        None => Ok(()),
    }
}

// Writes the end that a refusal speaks of, if it speaks of one.
fn write_end_if<W: Sink>(writer: &mut W, end: Option<Side>) -> Result<(), Fault>
    ensures err { IfErr result (λ f. f ≡ write_failed) }
{
    match end {
        Some(end) => tell!(writer, ", ", end),
        None => Ok(()),
    }
}

// Writes how many captured messages of an end were surely taken, of how many.
fn write_share<W: Sink>(
    writer: &mut W,
    sender: Side,
    share: Share,
    behind: &'static str,
) -> Result<(), Fault>
    ensures err { IfErr result (λ f. f ≡ write_failed) }
{
    tell!(
        writer,
        "; ",
        sender,
        " to ",
        sender.other(),
        ": ",
        share.taken,
        " of ",
        share.captured,
        behind
    )
}

// Writes on how many packets counts rest: on all of the window, or on those before the first that doesn't fit.
fn write_basis<W: Sink>(writer: &mut W, shown: &ShownOf) -> Result<(), Fault>
    ensures err { IfErr result (λ f. f ≡ write_failed) }
{
    let packets = u64::from(shown.counts.packets);
    let before = if shown.unfit.is_some() {
        ", by the first "
    } else {
        ", by "
    };
    tell!(
        writer,
        before,
        packets,
        named(packets, " packet", " packets"),
        ", whatever was missed"
    )
}

// Writes what was surely taken by the packets alone, where that is told.
fn write_shown_if<W: Sink>(writer: &mut W, shown: &Option<ShownOf>) -> Result<(), Fault>
    ensures err { IfErr result (λ f. f ≡ write_failed) }
{
    let Some(shown) = shown else {
        return Ok(());
    };
    let messages = named(
        shown.counts.client.captured,
        " captured message surely taken",
        " captured messages surely taken",
    );
    write_share(writer, Side::Client, shown.counts.client, messages)?;
    write_share(writer, Side::Server, shown.counts.server, "")?;
    write_basis(writer, shown)
}

// Writes whether what crossed before a refusal is explained, if anything did.
fn write_before_if<W: Sink>(writer: &mut W, before: &Before) -> Result<(), Fault>
    ensures err { IfErr result (λ f. f ≡ write_failed) }
{
    match before {
        Before::Nothing => Ok(()),
        Before::Explained(explained) => {
            let packets = explained.packets;
            let words = named(
                packets,
                " packet before it is explained",
                " packets before it are explained",
            );
            tell!(writer, "; the ", packets, words)
        }
        Before::Unexplained { packets, fault } => {
            let words = named(
                *packets,
                " packet before it isn't explained by itself (",
                " packets before it aren't explained by themselves (",
            );
            tell!(
                writer,
                "; the ",
                *packets,
                words,
                fault.number,
                " ",
                fault.name(),
                ")"
            )
        }
    }
}

// Writes number and name of the fault of a refusal, and the record and the end that it names.
fn write_reason<W: Sink>(
    writer: &mut W,
    before: &'static str,
    refusal: &Refusal,
) -> Result<(), Fault>
    ensures err { IfErr result (λ f. f ≡ write_failed) }
{
    let fault = refusal.fault;
    tell!(writer, before, fault.number, " ", fault.name())?;
    write_subject_if(writer, refusal.subject)?;
    write_end_if(writer, fault.end)
}

// Writes why a connection is refused, whether what crossed before is explained, and what its packets show alone.
fn write_refusal<W: Sink>(
    writer: &mut W,
    refusal: &Refusal,
    before: &Before,
    shown: &Option<ShownOf>,
) -> Result<(), Fault>
    ensures err { IfErr result (λ f. f ≡ write_failed) }
{
    write_reason(writer, "refused by ", refusal)?;
    write_before_if(writer, before)?;
    write_shown_if(writer, shown)?;
    write_words(writer, "\n")
}

// Writes where a connection is cut, and what is counted of it up to there.
fn write_cut<W: Sink>(writer: &mut W, refusal: &Refusal, explained: &Explained) -> Result<(), Fault>
    ensures err { IfErr result (λ f. f ≡ write_failed) }
{
    write_reason(writer, "cut at ", refusal)?;
    let packets = explained.packets;
    let words = named(
        packets,
        " packet up to there is explained",
        " packets up to there are explained",
    );
    tell!(writer, "; the ", packets, words)?;
    write_messages(writer, explained)
}

// Writes what becomes of the connection of this name, as a line, in a file that ends in this fault.
fn write_answer<W: Sink>(
    writer: &mut W,
    name: &str,
    answer: &Answer,
    fault: Option<Fault>,
) -> Result<(), Fault>
    ensures err { IfErr result (λ f. f ≡ write_failed) }
{
    tell!(writer, name, ": ")?;
    let is_cut = is_cut(fault, answer);
    match answer {
        Answer::NoPackets => write_words(writer, "no packets\n"),
        Answer::Refused {
            refusal,
            before: Before::Explained(explained),
            ..
        } if is_cut => write_cut(writer, refusal, explained),
        Answer::Refused {
            refusal,
            before,
            shown,
        } => write_refusal(writer, refusal, before, shown),
        Answer::Explained(explained) => write_explained(writer, explained),
        Answer::OutOfMemory => write_words(writer, "out of memory\n"),
    }
}

// Writes what the fault of a file in this format says, as a line, if it isn't whole.
fn write_fault_if<W: Sink>(
    writer: &mut W,
    fault: Option<Fault>,
    format: Format,
) -> Result<(), Fault>
    ensures err { IfErr result (λ f. f ≡ write_failed) }
{
    match fault {
        Some(fault) => write_fault(writer, fault, format),
        None => Ok(()),
    }
}

// Writes how many connections have become what; what none has become is left out.
fn write_kinds<W: Sink>(writer: &mut W, counts: &Counts) -> Result<(), Fault>
    ensures err { IfErr result (λ f. f ≡ write_failed) }
{
    let mut before = ": ";
    for (count, kind) in [
        (counts.explained, " explained"),
        (counts.cut, " cut"),
        (counts.refused, " refused"),
        (counts.without_packets, " without packets"),
        (counts.out_of_memory, " out of memory"),
    ] {
        if count > 0 {
            tell!(writer, before, count, kind)?;
            before = ", ";
        }
    }
    Ok(())
}

// Writes how many connections, packets and records there are, as a line.
fn write_counts<W: Sink>(writer: &mut W, audit: &Audit) -> Result<(), Fault>
    ensures err { IfErr result (λ f. f ≡ write_failed) }
{
    let connections = audit.connections.len() as u64;
    let counts = Counts::of(audit);
    let packets = u64::from(counts.packets);
    let others = u64::from(audit.others);
    tell!(
        writer,
        connections,
        named(connections, " connection", " connections")
    )?;
    write_kinds(writer, &counts)?;
    tell!(
        writer,
        "; ",
        packets,
        named(packets, " packet", " packets"),
        "; ",
        others,
        named(others, " record", " records"),
        " of none of these connections\n"
    )
}

/// Writes an audit in words: a line for each connection, with its name, in their order; which link types interfaces of the
/// file have, if its format tells any beside that of Ethernet; what the fault of the file says, if it isn't whole; and how
/// many there are of each kind. The names stand in the order of the connections.
pub fn write_audit<W: Sink>(
    writer: &mut W,
    names: &[String],
    audit: &Audit,
    format: Format,
) -> Result<(), Fault>
    ensures err { IfErr result (λ f. f ≡ write_failed) }
{
    for (name, connection) in names.iter().zip(audit.connections.iter()) {
        write_answer(writer, name.as_str(), &connection.answer, audit.fault)?;
    }
    write_link_types(writer, format)?;
    write_fault_if(writer, audit.fault, format)?;
    write_counts(writer, audit)
}
