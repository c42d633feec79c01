//! The text on the rule that refuses a PDU.
ghost use Rattle.std.specs.Prelude.{◌≡◌, IfErr};
ghost use Rattle.rasta_pcap.specs.Fault.{write_failed};

use crate::fault_words::words_of;
use crate::page::write_place;
use rasta_build::Rule;
use rasta_end::Phase;
use rasta_pcap::{Fault, Side, Sink};
use rasta_pdu::Pdu;
use seatmelon_account::{BrokenRule, Crossed, Deadline};
use seatmelon_reading::Sighting;
use seatmelon_text::{Part, parts, tell, write_parts, write_words};

const NONE: Part<'static> = Part::Words("");

// What is wrong with a PDU that confirms something of this peer by its CS.
fn confirming(rule: Rule, cs: u32, peer: Side) -> [Part<'static>; 5] {
    let peer = Part::End(peer);
    let (middle, end, after) = match rule {
        Rule::PeerIsSilent => (" confirms a PDU of the ", peer, ", and none crosses"),
        Rule::ConfirmsNone => (" is the SN of no PDU of the ", peer, " in the window"),
        Rule::ConfirmsLater { .. } => (" confirms a PDU of the ", peer, " that crosses later"),
        Rule::ConfirmsEarlier { confirmed } => (
            " confirms less than was confirmed before: SN ",
            Part::Number(u64::from(confirmed)),
            "",
        ),
        Rule::NoResponse => (
            " confirms PDUs of the ",
            peer,
            " after a retransmission request, but no response to it",
        ),
        Rule::TakesEarlier { .. } => (
            " confirms a PDU of the ",
            peer,
            " that comes before one that was taken",
        ),
        _ => (
            " confirms a PDU of the ",
            peer,
            " that this end can't accept",
        ),
    };
    let cs = Part::Number(u64::from(cs));
    parts!["CS ", cs, middle, end, after]
}

// How an end stands in a phase, and what it may send, in place of a PDU that it may not.
fn standing_in(phase: Phase, side: Side) -> &'static str {
    match (phase, side) {
        (Phase::Closed, _) => " is closed: only a connection request may come first",
        (Phase::Down, _) => " waits for a connection request, and may send nothing before it",
        (Phase::Start, Side::Client) => {
            " is opening: before it takes the connection response it may send only a disconnection request"
        }
        (Phase::Start, Side::Server) => {
            " is opening: it may send one connection response, and else only a disconnection request"
        }
        (Phase::Up, _) => {
            " is connected: it may send what it owes, or else data, a heartbeat or a disconnection request"
        }
        (Phase::RetrReq, _) => {
            " asks for a retransmission: it may send what it owes, or else data, a heartbeat or a disconnection request"
        }
        (Phase::RetrRun, _) => {
            " takes a retransmission: it may send what it owes, or else data, a heartbeat or a disconnection request"
        }
    }
}

// What a rule says of a PDU and of what its peer sent.
fn sentence_on(rule: Rule, pdu: &Pdu<'_>, peer: Side) -> [Part<'static>; 5] {
    let (before, name, between, after) = match rule {
        Rule::TakeRefused { fault, .. } => (
            "it wants a PDU of the ",
            Part::End(peer),
            " to be taken before, but ",
            words_of(fault).meaning,
        ),
        Rule::NothingToAnswer => (
            "no retransmission request of the ",
            Part::End(peer),
            " is left that crossed before and can be answered",
            "",
        ),
        Rule::NothingToAskFor => (
            "no PDU of the ",
            Part::End(peer),
            " is left that crossed before and makes this end request a retransmission",
            "",
        ),
        Rule::NothingToResend => ("no data is left that is to be sent again", NONE, "", ""),
        Rule::ClockTooLarge => (
            "TS ",
            Part::Number(u64::from(pdu.ts())),
            " wants a clock of 2^64 or more",
            "",
        ),
        Rule::MakeRefused {
            fault: Fault::NOT_ALLOWED,
            phase,
        } => (
            "the ",
            Part::End(peer.other()),
            standing_in(phase, peer.other()),
            "",
        ),
        Rule::MakeRefused { fault, .. } | Rule::Deadline { fault, .. } => {
            (words_of(fault).meaning, NONE, "", "")
        }
        _ => return confirming(rule, pdu.cs(), peer),
    };
    parts![before, name, between, after, NONE]
}

/// What a rule says of the PDU that it refuses.
pub fn sentence(broken: &BrokenRule<'_>) -> [Part<'static>; 5] {
    sentence_on(broken.rule, &broken.pdu, broken.peer)
}

// Writes which PDU of the peer a rule speaks of, or which set the deadline, if there is one.
fn write_named<W: Sink>(
    writer: &mut W,
    packets: &[Sighting],
    broken: &BrokenRule<'_>,
) -> Result<(), Fault>
    ensures err { IfErr result (λ f. f ≡ write_failed) }
{
    let Some(
        Crossed {
            place,
            pdu: Some(pdu),
            ..
        },
    ) = &broken.peer_pdu
    else {
        return Ok(());
    };
    let name = if broken.deadline.is_some() {
        "  the PDU that set the deadline: SN "
    } else {
        "  that PDU: SN "
    };
    tell!(writer, name, pdu.sn(), ", ")?;
    write_place(writer, packets, *place)
}

// Writes a number that is due or found, as a line.
fn write_number<W: Sink>(
    writer: &mut W,
    name: &'static str,
    what: &'static str,
    number: u32,
) -> Result<(), Fault>
    ensures err { IfErr result (λ f. f ≡ write_failed) }
{
    tell!(writer, "  ", name, what, number, "\n")
}

// Writes the numbers that are due and found.
fn write_numbers<W: Sink>(writer: &mut W, broken: &BrokenRule<'_>) -> Result<(), Fault>
    ensures err { IfErr result (λ f. f ≡ write_failed) }
{
    if let Some(sn) = broken.sn_due {
        write_number(writer, "SN", " due: ", sn)?;
    }
    match broken.found {
        Some((name, number)) => write_number(writer, name, " found: ", number),
        None => Ok(()),
    }
}

// Writes a moment of a clock that may lie before its 0, as a line.
fn write_moment<W: Sink>(writer: &mut W, name: &str, moment: Option<u64>) -> Result<(), Fault>
    ensures err { IfErr result (λ f. f ≡ write_failed) }
{
    match moment {
        Some(moment) => tell!(writer, "  ", name, ": ", moment, "\n"),
        None => Ok(()),
    }
}

// Writes the deadline that a PDU misses, and what it comes from.
fn write_deadline<W: Sink>(writer: &mut W, deadline: &Deadline) -> Result<(), Fault>
    ensures err { IfErr result (λ f. f ≡ write_failed) }
{
    write_moment(writer, "clock", Some(deadline.clock))?;
    write_moment(writer, "confirmed time", deadline.confirmed_time)?;
    tell!(
        writer,
        "  T_max: ",
        deadline.t_max,
        ", slack: ",
        deadline.slack,
        "\n"
    )?;
    write_moment(writer, "deadline", deadline.deadline)
}

/// Writes the rule that refuses a PDU.
pub fn write_rule<W: Sink>(
    writer: &mut W,
    packets: &[Sighting],
    broken: &BrokenRule<'_>,
) -> Result<(), Fault>
    ensures err { IfErr result (λ f. f ≡ write_failed) }
{
    write_words(
        writer,
        "the rule that it breaks, found by a second pass, on which the verdict doesn't rest:\n  ",
    )?;
    write_parts(writer, &sentence(broken))?;
    write_words(writer, "\n")?;
    write_named(writer, packets, broken)?;
    write_numbers(writer, broken)?;
    match &broken.deadline {
        Some(deadline) => write_deadline(writer, deadline),
        None => Ok(()),
    }
}
