//! The rule that refuses a PDU, found by a walk beside the verdict.
ghost use Rattle.std.specs.Prelude.{◌≡◌, IfSome, None};
ghost use Rattle.rasta_check.specs.Capture.Crossing.{IsCrossing, sent_by};
ghost use Rattle.rasta_build.specs.Stopping.{IsMet};
ghost use Rattle.seatmelon_account.specs.Crossed.{pdu_at};
ghost use Rattle.seatmelon_account.specs.Rules.{IsBroken, IsDeadlineOf, TellsDeadline, TellsRule, deadline_by};

use crate::crossed::{Crossed, first_with, pdu_at};
use rasta_build::{Confirmation, Obstacle, Rule};
use rasta_check::{SentList, SpanList, Store};
use rasta_pcap::{Fault, Side};
use rasta_pdu::{Params, Pdu};

/// The deadline that a PDU misses: milliseconds of the clock of its end.
#[derive(Clone, Copy)]
pub struct Deadline {
    /// At which it is made.
    pub clock: u64,

    /// That the CTS of the other end's PDU confirms; none where the quiet point has the deadline, or where it lies
    /// before 0.
    pub confirmed_time: Option<u64>,

    pub t_max: u16,
    pub slack: u16,

    /// None where it lies before 0, or isn't known.
    pub deadline: Option<u64>,
}

/// A rule that refuses a PDU.
#[derive(Drop)]
pub struct BrokenRule<'a> {
    pub rule: Rule,

    /// The PDU that it refuses.
    pub pdu: Pdu<'a>,

    /// The end to which that PDU was sent.
    pub peer: Side,

    /// The SN that was due in place of the one found, where the rule speaks of it.
    pub sn_due: Option<u32>,

    /// The number of the PDU that the rule speaks of, with its name.
    pub found: Option<(&'static str, u32)>,

    /// The deadline that it misses, where the rule speaks of one.
    pub deadline: Option<Deadline>,

    /// The PDU of the peer that the rule speaks of, or that set the deadline.
    pub peer_pdu: Option<Crossed<'a>>,
}

// The redundancy number of the peer's PDU that a rule speaks of.
fn number_in(rule: Rule) -> Option<u32> {
    match rule {
        Rule::ConfirmsLater { number }
        | Rule::TakesEarlier { number }
        | Rule::TakeRefused { number, .. }
        | Rule::NotAccepted { number } => Some(number),
        Rule::Deadline { confirmed, .. } => Some(confirmed?.number),
        _ => None,
    }
}

// The deadline of an end: T_max after what was confirmed, or that of the quiet point.
fn deadline_at(params: &Params, side: Side, confirmed: Option<Confirmation>) -> Option<u64>
    ensures { TellsDeadline (deadline_by params.now side confirmed) result }
{
    match confirmed {
        Some(confirmed) => confirmed.time?.checked_add(u64::from(params.t_max())),
        None => params.quiet()?.of(side).deadline,
    }
}

// The deadline that a PDU misses, where a rule speaks of one.
fn deadline_of(params: &Params, met: &Obstacle) -> Option<Deadline>
    ensures { IsDeadlineOf params.now met.now.side met.now.rule result }
{
    let Rule::Deadline {
        clock,
        confirmed,
        ..
    } = met.rule
    else {
        return None;
    };
    Some(Deadline {
        clock,
        confirmed_time: confirmed.and_then(|confirmed| confirmed.time),
        t_max: params.t_max(),
        slack: params.slack(),
        deadline: deadline_at(params, met.side, confirmed),
    })
}

// The SN that is due at a place; none where the first PDU of an end may have any.
fn sn_at(params: &Params, list: &SpanList<'_>, side: Side, place: u32) -> Option<u32> {
    if let Some(before) = list.at_place(place)?.checked_sub(1) {
        let (_, pdu) = list.get(before)?;
        return Some(pdu.sn().wrapping_add(1));
    }
    let quiet = params.quiet()?;
    match side {
        Side::Client => Some(quiet.client.next_sn),
        Side::Server => Some(quiet.server.next_sn),
    }
}

// The SN that is due in place of the one found, where a rule speaks of it.
fn sn_due(params: &Params, list: &SpanList<'_>, met: &Obstacle) -> Option<u32> {
    match met.rule {
        Rule::MakeRefused {
            fault: Fault::SEQUENCE_NUMBER,
            ..
        } => sn_at(params, list, met.side, met.place),
        _ => None,
    }
}

// The number of a PDU that a rule speaks of, with its name.
fn found_in(rule: Rule, pdu: &Pdu<'_>) -> Option<(&'static str, u32)> {
    match rule {
        Rule::Deadline { .. } => Some(("TS", pdu.ts())),
        Rule::MakeRefused { fault, .. } => match fault {
            Fault::SEQUENCE_NUMBER => Some(("SN", pdu.sn())),
            Fault::CONFIRMED_NUMBER => Some(("CS", pdu.cs())),
            Fault::CONFIRMED_TIME => Some(("CTS", pdu.cts())),
            _ => None,
        },
        _ => None,
    }
}

// What is told of the rule that a walk met.
fn broken_rule<'a>(store: &'a Store, met: &Obstacle) -> Option<BrokenRule<'a>>
    ensures broken { IfSome result (IsBroken store.now met.now) }
    ensures none { result ≡ None → pdu_at (sent_by store.now met.now.side) met.now.place ≡ None }
{
    let list = store.list_of(met.side);
    let pdu = pdu_at(&list, met.place)?;
    let peer = met.side.other();
    let found = found_in(met.rule, &pdu);
    Some(BrokenRule {
        rule: met.rule,
        pdu,
        peer,
        sn_due: sn_due(&store.params(), &list, met),
        found,
        deadline: deadline_of(&store.params(), met),
        peer_pdu: number_in(met.rule).and_then(|number| first_with(store, peer, number)),
    })
}

/// What is told of what a walk met.
pub fn rule_met<'a>(store: &'a Store, met: Option<Obstacle>) -> Option<BrokenRule<'a>>
    requires crossed { IsCrossing store.now }
    requires met { IsMet store.now.params store.now.client store.now.server met }
    ensures { TellsRule store.now result }
{
    match met {
        Some(met) => broken_rule(store, &met),
        None => None,
    }
}
