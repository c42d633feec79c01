//! The text on a refused capture.
ghost use Rattle.std.specs.Prelude.{◌≡◌, IfErr};
ghost use Rattle.rasta_pcap.specs.Fault.{write_failed};

use crate::before_fault::write_before;
use crate::blocks::{block_refused, meaning_of_block};
use crate::causes::write_causes;
use crate::code_lengths::write_code_lengths;
use crate::fault_words::words_of;
use crate::frames::{write_link_type, write_snapshot};
use crate::gap::write_gap;
use crate::layout::write_payload_due;
use crate::middle::{write_middle, write_middle_messages};
use crate::packet_text::{write_codes, write_datagram, write_differences, write_pdu};
use crate::page::{write_judged, write_place, write_sighting, write_without};
use crate::rule::write_rule;
use crate::supposed::{write_supposed, write_supposed_messages};
use crate::words::{fits_none, hint_of, meaning_in};
use rasta_pcap::{CaptureTime, Fault, Sink};
use seatmelon_account::{
    Account, Crossed, Extent, FirstCopy, NamedPacket, Refusal, RefusedEntry, RefusedPacket,
    Subject, Trouble,
};
use seatmelon_packets::Fits;
use seatmelon_pcapng::Format;
use seatmelon_reading::{CodeCount, Sighting};
use seatmelon_text::{tell, write_parts, write_words};

// Writes what a fault means.
fn write_meaning<W: Sink>(writer: &mut W, account: &Account<'_>, fault: Fault) -> Result<(), Fault>
    ensures err { IfErr result (λ f. f ≡ write_failed) }
{
    match block_refused(account, fault) {
        Some(block) => write_parts(writer, &meaning_of_block(block)),
        None => write_words(writer, meaning_in(fault, account.reading.header)),
    }
}

// Writes number, name and meaning of a fault.
fn write_fault<W: Sink>(writer: &mut W, account: &Account<'_>, fault: Fault) -> Result<(), Fault>
    ensures err { IfErr result (λ f. f ≡ write_failed) }
{
    let header = account.reading.header;
    tell!(writer, "refused by ", fault.number, " ", fault.name())?;
    write_without(writer, account.inputs.without)?;
    write_words(writer, ":\n  ")?;
    write_meaning(writer, account, fault)?;
    write_link_type(writer, fault, header)?;
    write_words(writer, "\n")?;
    write_snapshot(writer, fault, header)
}

// Writes what may be the cause of a fault, first what is conspicuous, and what to look at next.
fn write_hint<W: Sink>(
    writer: &mut W,
    account: &Account<'_>,
    refusal: &Refusal<'_>,
) -> Result<(), Fault>
    ensures err { IfErr result (λ f. f ≡ write_failed) }
{
    let hint = hint_of(account, refusal);
    write_words(writer, "\nmay be the cause:\n")?;
    write_causes(writer, account, refusal, ["  ", "  ", "\n"])?;
    tell!(
        writer,
        "  ",
        hint.cause,
        "\nlook next at:\n  ",
        hint.next_step,
        "\n"
    )
}

// Writes where the first copy of a packet stands, and in which bytes the packet differs from it.
fn write_first_copy<W: Sink>(
    writer: &mut W,
    datagram: &[u8],
    first: Option<&FirstCopy<'_>>,
) -> Result<(), Fault>
    ensures err { IfErr result (λ f. f ≡ write_failed) }
{
    let Some(first) = first else {
        return write_words(writer, "  no other packet of this end has its number\n");
    };
    write_words(writer, "  another packet with its number: ")?;
    write_sighting(writer, &first.sighting)?;
    write_words(writer, "\n")?;
    write_differences(writer, datagram, first)
}

// Writes a number that is due, as a line.
fn write_due<W: Sink>(writer: &mut W, what: &str, due: u64) -> Result<(), Fault>
    ensures err { IfErr result (λ f. f ≡ write_failed) }
{
    tell!(writer, "  ", what, " due: ", due, "\n")
}

// Writes the ids that are due.
fn write_ids<W: Sink>(writer: &mut W, receiver: u32, sender: u32) -> Result<(), Fault>
    ensures err { IfErr result (λ f. f ≡ write_failed) }
{
    write_due(writer, "receiver", u64::from(receiver))?;
    write_due(writer, "sender", u64::from(sender))
}

// Writes which types there are, and which one was found.
fn write_type_due<W: Sink>(writer: &mut W, found: u16) -> Result<(), Fault>
    ensures err { IfErr result (λ f. f ≡ write_failed) }
{
    tell!(
        writer,
        "  type due: 6200, 6201, 6212, 6213, 6216, 6220, 6240 or 6241",
        "\n  type found: ",
        found,
        "\n"
    )
}

// Writes the fewest bytes that are due.
fn write_least<W: Sink>(writer: &mut W, least: u64) -> Result<(), Fault>
    ensures err { IfErr result (λ f. f ≡ write_failed) }
{
    tell!(writer, "  bytes of the datagram due: ", least, " or more\n")
}

// Writes what is wrong with a packet.
fn write_trouble<W: Sink>(
    writer: &mut W,
    packets: &[Sighting],
    fault: Fault,
    datagram: &[u8],
    trouble: &Trouble<'_>,
) -> Result<(), Fault>
    ensures err { IfErr result (λ f. f ≡ write_failed) }
{
    write_words(writer, "what is wrong with it:\n")?;
    match trouble {
        Trouble::Code(codes, first) => {
            if let Some(codes) = codes {
                write_codes(writer, codes)?;
            }
            write_first_copy(writer, datagram, first.as_ref())
        }
        Trouble::Copy(first) => write_first_copy(writer, datagram, first.as_ref()),
        Trouble::Gap(Some(gap)) => write_gap(writer, packets, gap),
        Trouble::Gap(None) => Ok(()),
        Trouble::Ids { receiver, sender } => write_ids(writer, *receiver, *sender),
        Trouble::Length(due) => write_due(writer, "length field", *due),
        Trouble::TooShort(least) => write_least(writer, *least),
        Trouble::SafetyLength(due) => write_due(writer, "length field of the safety layer", *due),
        Trouble::Type(found) => write_type_due(writer, *found),
        Trouble::Payload(layout) => write_payload_due(writer, layout),
        Trouble::Other => tell!(writer, "  ", words_of(fault.number).meaning, "\n"),
    }
}

// Writes which lengths of the codes the first packet fits, where they may be wrong.
fn write_lengths<W: Sink>(writer: &mut W, lengths: Option<Fits>) -> Result<(), Fault>
    ensures err { IfErr result (λ f. f ≡ write_failed) }
{
    let Some(fits) = lengths else {
        return Ok(());
    };
    tell!(
        writer,
        "  lengths that it fits: check code ",
        fits.check_length,
        ", safety code"
    )?;
    write_code_lengths(writer, &fits, " ", " or ")?;
    write_words(writer, "\n")
}

// Writes that no safety code fits the start words, where that is so.
fn write_misfits<W: Sink>(writer: &mut W, codes: CodeCount) -> Result<(), Fault>
    ensures err { IfErr result (λ f. f ≡ write_failed) }
{
    tell!(
        writer,
        "  none of the ",
        codes.judged,
        " codes fits the recorded start words\n"
    )
}

// Writes the packet of a refused record.
fn write_packet<W: Sink>(
    writer: &mut W,
    packets: &[Sighting],
    refusal: &Refusal<'_>,
    packet: &RefusedPacket<'_>,
    codes: CodeCount,
) -> Result<(), Fault>
    ensures err { IfErr result (λ f. f ≡ write_failed) }
{
    tell!(
        writer,
        ", channel ",
        packet.channel,
        ", from the ",
        packet.sender,
        "\n"
    )?;
    write_datagram(writer, packet.datagram)?;
    write_trouble(
        writer,
        packets,
        refusal.fault,
        packet.datagram,
        &packet.trouble,
    )?;
    write_lengths(writer, packet.lengths)?;
    if fits_none(packet, codes) {
        write_misfits(writer, codes)?;
    }
    Ok(())
}

// Writes a packet that crossed.
fn write_crossed<W: Sink>(
    writer: &mut W,
    packets: &[Sighting],
    crossed: &Crossed<'_>,
) -> Result<(), Fault>
    ensures err { IfErr result (λ f. f ≡ write_failed) }
{
    let Some(pdu) = &crossed.pdu else {
        write_words(writer, "the packet that it names is in ")?;
        return write_place(writer, packets, crossed.place);
    };
    tell!(writer, "the ", crossed.side, "'s PDU in ")?;
    write_place(writer, packets, crossed.place)?;
    write_pdu(writer, pdu)
}

// Writes the packet of which the refusal of an entry speaks.
fn write_named<W: Sink>(
    writer: &mut W,
    packets: &[Sighting],
    packet: &NamedPacket<'_>,
) -> Result<(), Fault>
    ensures err { IfErr result (λ f. f ≡ write_failed) }
{
    match packet {
        NamedPacket::Unmade(Some(crossed)) => {
            write_words(writer, "no entry before it makes ")?;
            write_crossed(writer, packets, crossed)
        }
        NamedPacket::Named(Some(crossed)) => write_crossed(writer, packets, crossed),
        NamedPacket::Named(None) => {
            write_words(writer, "no packet has the number that it takes\n")
        }
        NamedPacket::Unmade(None) | NamedPacket::NoEntry => Ok(()),
    }
}

// Writes a refused entry.
fn write_entry<W: Sink>(
    writer: &mut W,
    packets: &[Sighting],
    entry: &RefusedEntry<'_>,
) -> Result<(), Fault>
    ensures err { IfErr result (λ f. f ≡ write_failed) }
{
    tell!(
        writer,
        "\nentry ",
        entry.number,
        " of the ",
        entry.side,
        "'s script, line ",
        entry.line,
        " of the certificate\n"
    )?;
    write_named(writer, packets, &entry.packet)
}

// Writes a refused record.
fn write_record<W: Sink>(
    writer: &mut W,
    packets: &[Sighting],
    refusal: &Refusal<'_>,
    packet: Option<&RefusedPacket<'_>>,
    codes: CodeCount,
) -> Result<(), Fault>
    ensures err { IfErr result (λ f. f ≡ write_failed) }
{
    match packet {
        Some(packet) => write_packet(writer, packets, refusal, packet, codes),
        None => write_words(writer, "\n"),
    }
}

// Whether the record that a fault names was read whole, so that it has no time where none is known.
fn is_read(fault: Fault) -> bool {
    !matches!(
        fault.number,
        Fault::CUT_RECORD | Fault::TOO_MANY | Fault::RECORD_TOO_LONG
    )
}

// Writes when a refused record was captured, after a comma, if it was read whole.
fn write_time<W: Sink>(
    writer: &mut W,
    format: Format,
    fault: Fault,
    time: Option<CaptureTime>,
) -> Result<(), Fault>
    ensures err { IfErr result (λ f. f ≡ write_failed) }
{
    match time {
        Some(time) => tell!(writer, ", ", time, " UTC"),
        None if format.is_pcapng() && is_read(fault) => write_words(writer, ", no time"),
        None => Ok(()),
    }
}

// Writes what a refusal speaks of.
fn write_subject<W: Sink>(
    writer: &mut W,
    account: &Account<'_>,
    refusal: &Refusal<'_>,
) -> Result<(), Fault>
    ensures err { IfErr result (λ f. f ≡ write_failed) }
{
    let packets = account.packets();
    match &refusal.subject {
        Subject::Header => Ok(()),
        Subject::Record {
            record,
            time,
            packet,
            codes,
        } => {
            tell!(writer, "\nrecord ", *record)?;
            write_time(writer, account.reading.format, refusal.fault, *time)?;
            write_record(writer, packets, refusal, packet.as_ref(), *codes)
        }
        Subject::Line(line) => { tell!(writer, "\nline ", *line, " of the certificate\n") }
        Subject::Unexplained { packet, rule, .. } => {
            write_words(writer, "\n")?;
            if let Some(packet) = packet {
                write_crossed(writer, packets, packet)?;
            }
            match rule {
                Some(rule) => write_rule(writer, packets, rule),
                None => Ok(()),
            }
        }
        Subject::Entry(entry) => write_entry(writer, packets, entry),
    }
}

/// Writes the text on a refused capture.
pub fn write_refusal<W: Sink>(
    writer: &mut W,
    account: &Account<'_>,
    refusal: &Refusal<'_>,
    extent: &Extent,
) -> Result<(), Fault>
    ensures err { IfErr result (λ f. f ≡ write_failed) }
{
    write_fault(writer, account, refusal.fault)?;
    write_subject(writer, account, refusal)?;
    write_hint(writer, account, refusal)?;
    write_before(writer, account)?;
    write_middle(writer, account)?;
    write_supposed(writer, account)?;
    write_judged(writer, account)?;
    write_middle_messages(writer, account, extent)?;
    write_supposed_messages(writer, account, extent)
}
