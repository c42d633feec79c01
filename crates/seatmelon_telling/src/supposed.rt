//! The text on what is supposed of a refused capture.
ghost use Rattle.std.specs.Prelude.{◌≡◌, IfErr};
ghost use Rattle.rasta_pcap.specs.Fault.{write_failed};

use crate::explained::{further_premises, write_premise, write_start};
use crate::messages::write_messages;
use crate::page::place_of;
use rasta_pcap::{Fault, Sink};
use rasta_pdu::Kind;
use seatmelon_account::{Account, Direction, Extent, Hypothesis};
use seatmelon_reading::Sighting;
use seatmelon_suppose::{Filled, Filling, Gap, Supposed, Supposition, Tried};
use seatmelon_text::{tell, write_parts, write_words};

const SAYS: &str = "
What the supposition says:
  Under each of these fillings some run of two ends that keep the rules, over a network that loses,
  repeats, delays and reorders packets, sends exactly these packets and the supposed ones past the
  tap, in this order.
  In every such run the far end handed up each message that is listed as surely taken, once and in
  order, before the packet that is its proof crossed the tap.
What it doesn't say:
  that the tap missed a PDU: the capture as it is is refused, and others may fill the gap too.
  A message that is listed as not shown may have been taken all the same.
What it rests on:
";

/// The premises on what reached the tap.
pub const MISSED: &str =
    "The tap missed exactly the supposed PDUs, as one of these fillings has them.";

pub const REACHED_ELSE: &str = "\
Whatever else an end sent reached the tap, in the order in which it was sent, and the capture has
  all of it, in that order.";

const NOTHING_TRIED: &str = "
nothing is supposed: more PDUs are missing than may be supposed, or number and SN don't skip alike
";

const NOTHING_FOUND: &str = "
no filling of the gaps was found with which the rules can explain all packets
";

/// The place of a captured packet.
pub fn place_at(place: usize) -> u32 {
    u32::try_from(place).unwrap_or(u32::MAX)
}

// The ending of a plural.
fn plural(count: usize) -> &'static str {
    if count == 1 { "" } else { "s" }
}

// Writes whose PDU is supposed, with its numbers, and just before which packet.
fn write_front<W: Sink>(writer: &mut W, packets: &[Sighting], pdu: &Supposed) -> Result<(), Fault>
    ensures err { IfErr result (λ f. f ≡ write_failed) }
{
    tell!(
        writer,
        "  from the ",
        pdu.sender,
        ", redundancy number ",
        pdu.fields.number,
        ", SN ",
        pdu.fields.sn,
        ", just before "
    )?;
    write_parts(writer, &place_of(packets, place_at(pdu.before)))
}

// What is told of the messages of a supposed PDU of this type.
fn messages_of(kind: Kind) -> &'static str {
    if kind.is(Kind::Data) || kind.is(Kind::RetransmittedData) {
        ", its messages not known"
    } else {
        ""
    }
}

// The PDU of a filling with the sender and the number of this one.
fn same_in<'a>(filling: &'a Filling, pdu: &Supposed) -> Option<&'a Supposed> {
    filling.pdus.iter().find(|other| other.sender == pdu.sender
        && other.fields.number == pdu.fields.number)
}

// Whether a filling says of a PDU what this one does.
fn says_same(filling: &Filling, pdu: &Supposed) -> bool {
    match same_in(filling, pdu) {
        Some(other) => other.fields == pdu.fields,
        None => false,
    }
}

// Whether one of these fillings says of a PDU what this one does.
fn is_told(fillings: &[Filling], pdu: &Supposed) -> bool {
    fillings.iter().any(|filling| says_same(filling, pdu))
}

// Writes which fillings say this of a PDU, where there are several of each.
fn write_owners<W: Sink>(writer: &mut W, fillings: &[Filling], pdu: &Supposed) -> Result<(), Fault>
    ensures err { IfErr result (λ f. f ≡ write_failed) }
{
    let mut before = "; filling ";
    for (number, filling) in fillings.iter().enumerate() {
        if fillings.len() > 1 && filling.pdus.len() > 1 && says_same(filling, pdu) {
            tell!(writer, before, number as u64 + 1)?;
            before = ", ";
        }
    }
    write_words(writer, "\n")
}

// Writes what else a supposed PDU says, and in which fillings.
fn write_values<W: Sink>(writer: &mut W, fillings: &[Filling], pdu: &Supposed) -> Result<(), Fault>
    ensures err { IfErr result (λ f. f ≡ write_failed) }
{
    let number = pdu.fields.kind.number();
    tell!(
        writer,
        "    ",
        number,
        ", ",
        pdu.fields.kind.name(),
        messages_of(pdu.fields.kind),
        ", for example CS ",
        pdu.fields.cs,
        ", TS "
    )?;
    tell!(writer, pdu.fields.ts, ", CTS ", pdu.fields.cts)?;
    write_owners(writer, fillings, pdu)
}

// What was tried in a gap, where a PDU is the first one that is missing there.
fn tried_for<'a>(gaps: &'a [Filled], pdu: &Supposed) -> Option<&'a Filled> {
    gaps.iter().find(|filled| filled.gap.sender == pdu.sender
        && filled.gap.before.number.wrapping_add(1) == pdu.fields.number)
}

// Whether one of these fillings has this type for a PDU.
fn has_kind(fillings: &[Filling], pdu: &Supposed) -> bool {
    fillings.iter().any(|filling| match same_in(filling, pdu) {
        Some(other) => other.fields.kind.is(pdu.fields.kind),
        None => false,
    })
}

// How many types the fillings have for a PDU.
fn count_kinds(fillings: &[Filling], pdu: &Supposed) -> u64 {
    let mut count = 0u64;
    for (number, filling) in fillings.iter().enumerate() {
        if let Some(other) = same_in(filling, pdu) {
            if !has_kind(&fillings[..number], other) {
                count = count.saturating_add(1);
            }
        }
    }
    count
}

// Writes how many of the types that were tried for the first missing PDU of a gap fit.
fn write_fit<W: Sink>(
    writer: &mut W,
    supposition: &Supposition,
    pdu: &Supposed,
) -> Result<(), Fault>
    ensures err { IfErr result (λ f. f ≡ write_failed) }
{
    let Some(filled) = tried_for(&supposition.gaps, pdu) else {
        return Ok(());
    };
    tell!(
        writer,
        "    types that fit: ",
        count_kinds(&supposition.fillings, pdu),
        " of ",
        filled.tried.len() as u64,
        " that were tried\n"
    )
}

// Writes what the fillings say of a supposed PDU, each once.
fn write_pdu<W: Sink>(
    writer: &mut W,
    packets: &[Sighting],
    supposition: &Supposition,
    pdu: &Supposed,
) -> Result<(), Fault>
    ensures err { IfErr result (λ f. f ≡ write_failed) }
{
    let fillings = supposition.fillings.as_slice();
    write_front(writer, packets, pdu)?;
    write_fit(writer, supposition, pdu)?;
    for (number, filling) in fillings.iter().enumerate() {
        if let Some(other) = same_in(filling, pdu) {
            if !is_told(&fillings[..number], other) {
                write_values(writer, fillings, other)?;
            }
        }
    }
    Ok(())
}

// Writes how many messages of an end were surely taken under each filling.
fn write_taken<W: Sink>(
    writer: &mut W,
    direction: &Direction<'_>,
    fillings: usize,
) -> Result<(), Fault>
    ensures err { IfErr result (λ f. f ≡ write_failed) }
{
    tell!(
        writer,
        direction.sender,
        " to ",
        direction.sender.other(),
        ": ",
        direction.taken,
        " of ",
        direction.messages.len() as u64,
        " captured messages surely taken"
    )?;
    if fillings > 1 {
        tell!(
            writer,
            " under each of these ",
            fillings as u64,
            " fillings, and under these alone\n"
        )
    } else {
        write_words(writer, " under this filling, and under this alone\n")
    }
}

// Writes what the supposition says, and what it rests on.
fn write_meaning<W: Sink>(writer: &mut W, hypothesis: &Hypothesis<'_>) -> Result<(), Fault>
    ensures err { IfErr result (λ f. f ≡ write_failed) }
{
    write_words(writer, SAYS)?;
    write_premise(writer, MISSED)?;
    write_premise(writer, REACHED_ELSE)?;
    for words in further_premises(hypothesis.has_code) {
        write_premise(writer, words)?;
    }
    write_start(writer, &hypothesis.start)
}

// Writes with which PDUs the packets are explained, and what is surely taken then.
fn write_fillings<W: Sink>(
    writer: &mut W,
    account: &Account<'_>,
    hypothesis: &Hypothesis<'_>,
    first: &Filling,
) -> Result<(), Fault>
    ensures err { IfErr result (λ f. f ≡ write_failed) }
{
    let fillings = hypothesis.supposition.fillings.as_slice();
    let count = first.pdus.len();
    tell!(
        writer,
        "\nexplained with ",
        count as u64,
        " supposed PDU",
        plural(count),
        ", as a hypothesis: if the tap missed what follows, the rules can explain all packets\n"
    )?;
    for pdu in &first.pdus {
        write_pdu(writer, account.packets(), &hypothesis.supposition, pdu)?;
    }
    write_taken(writer, &hypothesis.client, fillings.len())?;
    write_taken(writer, &hypothesis.server, fillings.len())?;
    write_meaning(writer, hypothesis)
}

// Writes how far a way to fill a gap leads.
fn write_tried<W: Sink>(writer: &mut W, packets: &[Sighting], tried: &Tried) -> Result<(), Fault>
    ensures err { IfErr result (λ f. f ≡ write_failed) }
{
    let number = tried.kind.number();
    tell!(
        writer,
        "    ",
        number,
        ", ",
        tried.kind.name(),
        ": explains all packets before "
    )?;
    write_parts(writer, &place_of(packets, place_at(tried.reach)))
}

// Writes which PDUs are missing in a gap.
fn write_missing<W: Sink>(writer: &mut W, packets: &[Sighting], gap: &Gap) -> Result<(), Fault>
    ensures err { IfErr result (λ f. f ≡ write_failed) }
{
    tell!(
        writer,
        "  from the ",
        gap.sender,
        ", ",
        gap.missing,
        " missing, before "
    )?;
    write_parts(writer, &place_of(packets, place_at(gap.place)))
}

// Writes how far each type leads in each gap.
fn write_in_vain<W: Sink>(
    writer: &mut W,
    packets: &[Sighting],
    gaps: &[Filled],
) -> Result<(), Fault>
    ensures err { IfErr result (λ f. f ≡ write_failed) }
{
    write_words(
        writer,
        if gaps.is_empty() {
            NOTHING_TRIED
        } else {
            NOTHING_FOUND
        },
    )?;
    for filled in gaps {
        write_missing(writer, packets, &filled.gap)?;
        for tried in &filled.tried {
            write_tried(writer, packets, tried)?;
        }
    }
    Ok(())
}

/// Writes what is supposed of a refused capture, if anything is.
pub fn write_supposed<W: Sink>(writer: &mut W, account: &Account<'_>) -> Result<(), Fault>
    ensures err { IfErr result (λ f. f ≡ write_failed) }
{
    let Some(hypothesis) = &account.hypothesis else {
        return Ok(());
    };
    match hypothesis.supposition.fillings.first() {
        Some(first) => write_fillings(writer, account, hypothesis, first),
        None => write_in_vain(writer, account.packets(), &hypothesis.supposition.gaps),
    }
}

/// Writes the messages of a supposition, so much of them.
pub fn write_supposed_messages<W: Sink>(
    writer: &mut W,
    account: &Account<'_>,
    extent: &Extent,
) -> Result<(), Fault>
    ensures err { IfErr result (λ f. f ≡ write_failed) }
{
    let Some(hypothesis) = &account.hypothesis else {
        return Ok(());
    };
    match extent.messages {
        Some(selection) if !hypothesis.supposition.fillings.is_empty() => write_messages(
            writer,
            account,
            &hypothesis.client,
            &hypothesis.server,
            selection,
            extent.is_whole,
        ),
        _ => Ok(()),
    }
}
