//! What is told of a refusal, as JSON.
ghost use Rattle.std.specs.Prelude.{◌≡◌, IfErr};
ghost use Rattle.rasta_pcap.specs.Fault.{write_failed};

use crate::blocks::{block_refused, meaning_of_block};
use crate::causes::write_causes;
use crate::frames::{write_link_type_json, write_snapshot_json};
use crate::json_packet::{write_crossed_if, write_lengths_if, write_packet_if, write_trouble_if};
use crate::json_places::{write_long_if, write_number_if, write_time_if};
use crate::rule::sentence;
use crate::words::{hint_of, meaning_in};
use rasta_pcap::{CaptureTime, Fault, Sink};
use seatmelon_account::{
    Account, BrokenRule, Crossed, Deadline, NamedPacket, Refusal, RefusedEntry, RefusedPacket,
    Subject,
};
use seatmelon_reading::{CodeCount, Sighting};
use seatmelon_text::json::{write_long, write_sentence};
use seatmelon_text::{Part, tell, write_parts, write_words};

// Writes what a fault means, and which block of a pcapng file it speaks of, if it does.
fn write_meaning<W: Sink>(writer: &mut W, account: &Account<'_>, fault: Fault) -> Result<(), Fault>
    ensures err { IfErr result (λ f. f ≡ write_failed) }
{
    let Some(block) = block_refused(account, fault) else {
        return write_sentence(writer, meaning_in(fault, account.reading.header));
    };
    write_words(writer, "\"")?;
    write_parts(writer, &meaning_of_block(block))?;
    write_words(writer, "\",\"block\":{\"offset\":")?;
    write_long(writer, block.at)?;
    tell!(writer, ",\"reason\":\"", block.reason.words(), "\"}")
}

// Writes a fault, and what to do about it.
fn write_fault<W: Sink>(
    writer: &mut W,
    account: &Account<'_>,
    refusal: &Refusal<'_>,
) -> Result<(), Fault>
    ensures err { IfErr result (λ f. f ≡ write_failed) }
{
    let (fault, header) = (refusal.fault, account.reading.header);
    let hint = hint_of(account, refusal);
    tell!(
        writer,
        ",\"fault\":{\"number\":",
        fault.number,
        ",\"name\":\"",
        fault.name(),
        "\",\"meaning\":"
    )?;
    write_meaning(writer, account, fault)?;
    write_words(writer, ",\"conspicuous\":[")?;
    write_causes(writer, account, refusal, ["\"", ",\"", "\""])?;
    write_words(writer, "],\"cause\":")?;
    write_sentence(writer, hint.cause)?;
    write_words(writer, ",\"next_step\":")?;
    write_sentence(writer, hint.next_step)?;
    write_words(writer, "}")?;
    write_link_type_json(writer, fault, header)?;
    write_snapshot_json(writer, fault, header)
}

// Writes how many safety codes could be judged from the refused packet on, and how many of them are right.
fn write_codes<W: Sink>(writer: &mut W, codes: CodeCount) -> Result<(), Fault>
    ensures err { IfErr result (λ f. f ≡ write_failed) }
{
    write_words(writer, ",\"codes_judged\":")?;
    write_long(writer, codes.judged)?;
    write_words(writer, ",\"codes_fitting\":")?;
    write_long(writer, codes.fitting)
}

// Writes the refused record, its packet and what is wrong with it.
fn write_record<W: Sink>(
    writer: &mut W,
    packets: &[Sighting],
    record: u32,
    time: Option<CaptureTime>,
    packet: Option<&RefusedPacket<'_>>,
    codes: CodeCount,
) -> Result<(), Fault>
    ensures err { IfErr result (λ f. f ≡ write_failed) }
{
    tell!(writer, ",\"record\":{\"record\":", record, ",\"time\":")?;
    write_time_if(writer, time)?;
    write_words(writer, "},\"packet\":")?;
    write_packet_if(writer, packet)?;
    write_words(writer, ",\"trouble\":")?;
    write_trouble_if(writer, packets, packet)?;
    write_words(writer, ",\"lengths_fitting\":")?;
    write_lengths_if(writer, packet.and_then(|packet| packet.lengths))?;
    write_codes(writer, codes)
}

// Writes that there is no refused record.
fn write_no_record<W: Sink>(writer: &mut W) -> Result<(), Fault>
    ensures err { IfErr result (λ f. f ≡ write_failed) }
{
    write_words(
        writer,
        ",\"record\":null,\"packet\":null,\"trouble\":null,\"lengths_fitting\":null,\"codes_judged\":null,\"codes_fitting\":null",
    )
}

// Writes the refused record, if there is one.
fn write_record_if<W: Sink>(
    writer: &mut W,
    packets: &[Sighting],
    subject: &Subject<'_>,
) -> Result<(), Fault>
    ensures err { IfErr result (λ f. f ≡ write_failed) }
{
    match subject {
        Subject::Record {
            record,
            time,
            packet,
            codes,
        } => write_record(writer, packets, *record, *time, packet.as_ref(), *codes),
        _ => write_no_record(writer),
    }
}

// Writes the refused line of a certificate, if there is one.
fn write_line_if<W: Sink>(writer: &mut W, subject: &Subject<'_>) -> Result<(), Fault>
    ensures err { IfErr result (λ f. f ≡ write_failed) }
{
    let line = match subject {
        Subject::Line(line) => Some(*line),
        _ => None,
    };
    write_words(writer, ",\"line\":")?;
    write_number_if(writer, line)
}

// Writes a refused entry.
fn write_entry<W: Sink>(writer: &mut W, entry: &RefusedEntry<'_>) -> Result<(), Fault>
    ensures err { IfErr result (λ f. f ≡ write_failed) }
{
    tell!(
        writer,
        ",\"entry\":{\"number\":",
        entry.number,
        ",\"end\":\"",
        entry.side,
        "\",\"line\":"
    )?;
    write_long(writer, entry.line)?;
    write_words(writer, "}")
}

// Writes the refused entry, if there is one.
fn write_entry_if<W: Sink>(writer: &mut W, subject: &Subject<'_>) -> Result<(), Fault>
    ensures err { IfErr result (λ f. f ≡ write_failed) }
{
    match subject {
        Subject::Entry(entry) => write_entry(writer, entry),
        _ => write_words(writer, ",\"entry\":null"),
    }
}

// The packet of which a refusal speaks, if it speaks of one that crossed.
fn crossed_in<'s, 'a>(subject: &'s Subject<'a>) -> Option<&'s Crossed<'a>> {
    match subject {
        Subject::Unexplained { packet, .. } => packet.as_ref(),
        Subject::Entry(entry) => match &entry.packet {
            NamedPacket::Unmade(packet) | NamedPacket::Named(packet) => packet.as_ref(),
            NamedPacket::NoEntry => None,
        },
        _ => None,
    }
}

// The rule that refuses a packet, if one was found.
fn rule_in<'s, 'a>(subject: &'s Subject<'a>) -> Option<&'s BrokenRule<'a>> {
    match subject {
        Subject::Unexplained { rule, .. } => rule.as_ref(),
        _ => None,
    }
}

// Writes the deadline that a PDU misses, and what it comes from, or null.
fn write_deadline_if<W: Sink>(writer: &mut W, deadline: Option<&Deadline>) -> Result<(), Fault>
    ensures err { IfErr result (λ f. f ≡ write_failed) }
{
    let Some(deadline) = deadline else {
        return write_words(writer, "null");
    };
    write_words(writer, "{\"clock\":")?;
    write_long(writer, deadline.clock)?;
    write_words(writer, ",\"confirmed_time\":")?;
    write_long_if(writer, deadline.confirmed_time)?;
    tell!(
        writer,
        ",\"t_max\":",
        deadline.t_max,
        ",\"slack\":",
        deadline.slack,
        ",\"deadline\":"
    )?;
    write_long_if(writer, deadline.deadline)?;
    write_words(writer, "}")
}

// Writes a rule that refuses a PDU, or null.
fn write_rule_if<W: Sink>(
    writer: &mut W,
    packets: &[Sighting],
    rule: Option<&BrokenRule<'_>>,
) -> Result<(), Fault>
    ensures err { IfErr result (λ f. f ≡ write_failed) }
{
    let Some(rule) = rule else {
        return write_words(writer, "null");
    };
    write_words(writer, "{\"words\":\"")?;
    write_parts(writer, &sentence(rule))?;
    write_words(writer, "\",\"number_due\":")?;
    write_number_if(writer, rule.sn_due)?;
    write_words(writer, ",\"number_found\":")?;
    write_number_if(writer, rule.found.map(|(_, number)| number))?;
    write_words(writer, ",\"peer_pdu\":")?;
    write_crossed_if(writer, packets, rule.peer_pdu.as_ref())?;
    write_words(writer, ",\"deadline\":")?;
    write_deadline_if(writer, rule.deadline.as_ref())?;
    write_words(writer, "}")
}

/// Writes what is told of a refusal, behind the verdict.
pub fn write_refusal<W: Sink>(
    writer: &mut W,
    account: &Account<'_>,
    refusal: &Refusal<'_>,
) -> Result<(), Fault>
    ensures err { IfErr result (λ f. f ≡ write_failed) }
{
    let subject = &refusal.subject;
    let packets = account.packets();
    write_fault(writer, account, refusal)?;
    write_record_if(writer, packets, subject)?;
    write_line_if(writer, subject)?;
    write_entry_if(writer, subject)?;
    write_words(writer, ",\"pdu\":")?;
    write_crossed_if(writer, packets, crossed_in(subject))?;
    write_words(writer, ",\"rule\":")?;
    write_rule_if(writer, packets, rule_in(subject))
}
