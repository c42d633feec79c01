//! What two sent lists show, worked out as it is defined: plainly, and slowly.
ghost use Rattle.std.specs.Prelude.{◌≡◌, ◌≤◌, ◌+◌, ◌++◌, ◌∷◌, [], List, length, map, cond, None, IfOk, OnOk, option_to_list, slice_get, take};
ghost use Rattle.rasta_pdu.specs.Pdu.{SafetyPdu, value_of, is_kind};
ghost use Rattle.rasta_pdu.specs.declared.kind.Kind.TheVariants.{ConnectionRequest, RetransmissionRequest};
ghost use Rattle.rasta_end.specs.State;
ghost use Rattle.rasta_end.specs.Starts;
ghost use Rattle.rasta_end.specs.Starts.{start_of};
ghost use Rattle.rasta_end.specs.Units;
ghost use Rattle.rasta_check.specs.Model.Taken;
ghost use Rattle.rasta_check.specs.Model.Taken.{pdus_of, pdus_made};
ghost use Rattle.trials_plain.specs.Plain.{AreAtMost, copies_of, copy_of, pdus, safety_of, units_of};

use rasta_pdu::{Body, Kind, Params, Pdu, QuietEnd, Side};
use std::alloc::{AllocError, Global};

/// The first copy of a PDU: the place of its packet, counted from 0, and the PDU.
#[derive(Clone, Copy)]
pub struct FirstCopy<'a> {
    pub place: u32,
    pub pdu: Pdu<'a>,
}

/// A unit that was surely taken: its data PDU, the place of that, and the place of the first PDU of the
/// peer that shows it.
#[derive(Clone, Copy)]
pub struct TakenUnit<'a> {
    pub pdu: Pdu<'a>,
    pub data_place: u32,
    pub proof_place: u32,
}

// A PDU that a side made. That of a quiet point has no datagram.
#[derive(Clone, Copy)]
struct MadePdu<'a> {
    kind: Kind,
    sn: u32,
    cs: u32,
    ts: u32,
    cts: u32,
    body: Body<&'a [u8]>,
}

// ---- what a side made

fn wrapped(clock: u64) -> u32
    ensures { result ≡ State.wrapped clock }
{
    (clock % (1 << 32)) as u32
}

fn sn_before(sn: u32) -> u32
    ensures { result ≡ Starts.sn_before sn }
{
    sn.wrapping_sub(1)
}

fn quiet_pdu(own: QuietEnd, other: QuietEnd) -> MadePdu<'static>
    ensures { safety_of result ≡ Starts.quiet_pdu own other }
{
    MadePdu {
        kind: Kind::Heartbeat,
        sn: sn_before(own.next_sn),
        cs: sn_before(other.next_sn),
        ts: wrapped(own.clock),
        cts: wrapped(other.clock),
        body: Body::Empty,
    }
}

fn quiet_of(params: &Params, side: Side) -> Option<MadePdu<'static>>
    ensures { pdus (option_to_list result) ≡ pdus_made (start_of params.now side).made }
{
    match params.quiet() {
        None => None,
        Some(quiet) => Some(quiet_pdu(quiet.of(side), quiet.of(side.other()))),
    }
}

fn first_made<'a>(
    alloc: Global,
    params: &Params,
    side: Side,
) -> Result<Vec<MadePdu<'a>>, AllocError>
    ensures { IfOk result (λ made. pdus made.items ≡ pdus_made (start_of params.now side).made) }
{
    let mut made = Vec::new(alloc);
    if let Some(first) = quiet_of(params, side) {
        made.push(first)?;
    }
    Ok(made)
}

fn made_pdu<'a>(pdu: &Pdu<'a>) -> MadePdu<'a>
    ensures { safety_of result ≡ (value_of pdu.now).safety }
{
    MadePdu {
        kind: pdu.kind(),
        sn: pdu.sn(),
        cs: pdu.cs(),
        ts: pdu.ts(),
        cts: pdu.cts(),
        body: pdu.body(),
    }
}

// The quiet PDU, where a run begins with one, and then the sent list.
fn all_made<'a>(
    alloc: Global,
    params: &Params,
    side: Side,
    sent: &[FirstCopy<'a>],
) -> Result<Vec<MadePdu<'a>>, AllocError>
    ensures { IfOk result (λ made. pdus made.items ≡ Taken.all_made params.now side (copies_of sent.now)) }
{
    let mut made = first_made(alloc, params, side)?;
    for copy in sent {
        made.push(made_pdu(&copy.pdu))?;
    }
    Ok(made)
}

// ---- over what one side made and the list that its peer sent

// The first position with this SN.
fn position_with(own: &[MadePdu], sn: u32) -> Option<usize>
    ensures { result ≡ Taken.position_with (pdus own.now) sn }
{
    for (position, pdu) in own.iter().enumerate() {
        if pdu.sn == sn {
            return Some(position);
        }
    }
    None
}

// The position that a PDU of the peer asks for.
fn asked_position(own: &[MadePdu], pdu: &Pdu) -> Option<usize>
    ensures { result ≡ cond (is_kind RetransmissionRequest (value_of pdu.now).safety.kind) (Taken.position_with (pdus own.now) (value_of pdu.now).safety.cs) None }
{
    if pdu.kind().is(Kind::RetransmissionRequest) {
        position_with(own, pdu.cs())
    } else {
        None
    }
}

fn push_some(asks: &mut Vec<usize>, position: Option<usize>) -> Result<(), AllocError>
    ensures { OnOk result (asks.new.items ≡ asks.old.items ++ option_to_list position) }
{
    if let Some(position) = position {
        asks.push(position)?;
    }
    Ok(())
}

// The positions that the peer's retransmission requests confirm.
fn asked_positions(
    alloc: Global,
    own: &[MadePdu],
    peer: &[FirstCopy],
) -> Result<Vec<usize>, AllocError>
    ensures { IfOk result (λ asks. asks.items ≡ Taken.asked_positions (pdus own.now) (pdus_of (copies_of peer.now))) }
{
    let mut asks = Vec::new(alloc);
    for copy in peer {
        push_some(&mut asks, asked_position(own, &copy.pdu))?;
    }
    Ok(asks)
}

fn last_of(units: &[usize]) -> usize
    ensures { result ≡ Units.last_of units.now }
{
    match units.len() {
        0 => 0,
        len => units[len - 1],
    }
}

fn units_at(units: &[usize], position: Option<usize>) -> usize
    ensures { result ≡ Units.units_at units.now position }
{
    match position {
        Some(position) => units.get(position).copied().unwrap_or(0),
        None => 0,
    }
}

fn ask_at(asks: &[usize], responses: usize) -> Option<usize>
    ensures { result ≡ slice_get asks.now responses }
{
    asks.get(responses).copied()
}

// The units conveyed through the position after these.
fn units_after(asks: &[usize], units: &[usize], responses: usize, kind: Kind) -> usize
    requires { AreAtMost (length units.now) units.now }
    ensures value { result ≡ Units.units_after asks.now units.now responses kind }
    ensures bound { result ≤ length units.now + 1 }
{
    if units.is_empty() {
        return 0;
    }
    match kind {
        Kind::RetransmissionResponse => units_at(units, ask_at(asks, responses)),
        Kind::Data => last_of(units) + 1,
        Kind::RetransmittedData => last_of(units) + 1,
        _ => last_of(units),
    }
}

// The units conveyed through each position.
fn units_along(alloc: Global, own: &[MadePdu], peer: &[FirstCopy]) -> Result<Vec<usize>, AllocError>
    ensures { IfOk result (λ units. units.items ≡ Taken.units_along (pdus own.now) (pdus_of (copies_of peer.now))) }
{
    let asks = asked_positions(alloc, own, peer)?;
    let mut units = Vec::new(alloc);
    let mut responses = 0;
    for pdu in own {
        units.push(units_after(asks.as_slice(), units.as_slice(), responses, pdu.kind))?;
        responses += usize::from(pdu.kind.is(Kind::RetransmissionResponse));
    }
    Ok(units)
}

// The position that a PDU of the peer confirms; a connection request confirms none.
fn confirmed_position(own: &[MadePdu], pdu: &Pdu) -> Option<usize>
    ensures { result ≡ cond (is_kind ConnectionRequest (value_of pdu.now).safety.kind) None (Taken.position_with (pdus own.now) (value_of pdu.now).safety.cs) }
{
    if pdu.kind().is(Kind::ConnectionRequest) {
        None
    } else {
        position_with(own, pdu.cs())
    }
}

// The units conveyed through that position.
fn units_shown(own: &[MadePdu], units: &[usize], pdu: &Pdu) -> usize
    ensures { (peer : List SafetyPdu) → units.now ≡ Taken.units_along (pdus own.now) peer → result ≡ Taken.units_shown (pdus own.now) peer (value_of pdu.now).safety }
{
    units_at(units, confirmed_position(own, pdu))
}

// How many units the peer surely took.
fn units_taken(own: &[MadePdu], units: &[usize], peer: &[FirstCopy]) -> usize
    requires { units.now ≡ Taken.units_along (pdus own.now) (pdus_of (copies_of peer.now)) }
    ensures { result ≡ Taken.units_taken (pdus own.now) (pdus_of (copies_of peer.now)) }
{
    let mut most = 0;
    for copy in peer {
        most = most.max(units_shown(own, units, &copy.pdu));
    }
    most
}

// The place of the first PDU of the peer that shows more than so many units.
fn proof_place(own: &[MadePdu], units: &[usize], peer: &[FirstCopy], unit: usize) -> u32
    requires { units.now ≡ Taken.units_along (pdus own.now) (pdus_of (copies_of peer.now)) }
    ensures { result ≡ Taken.proof_place (pdus own.now) (pdus_of (copies_of peer.now)) unit (copies_of peer.now) }
{
    for copy in peer {
        if unit < units_shown(own, units, &copy.pdu) {
            return copy.place;
        }
    }
    0
}

// Appends a data PDU, and nothing else.
fn push_data<'a>(copies: &mut Vec<FirstCopy<'a>>, copy: &FirstCopy<'a>) -> Result<(), AllocError>
    ensures { OnOk result (copies_of copies.new.items ≡ copies_of copies.old.items ++ Taken.data_copies (copy_of copy.now ∷ [])) }
{
    if copy.pdu.kind().is(Kind::Data) {
        copies.push(*copy)?;
    }
    Ok(())
}

fn data_copies<'a>(alloc: Global, sent: &[FirstCopy<'a>]) -> Result<Vec<FirstCopy<'a>>, AllocError>
    ensures { IfOk result (λ copies. copies_of copies.items ≡ Taken.data_copies (copies_of sent.now)) }
{
    let mut copies = Vec::new(alloc);
    for copy in sent {
        push_data(&mut copies, copy)?;
    }
    Ok(copies)
}

// The first so many, or all where there are fewer.
fn first_of<'c, 'a>(copies: &'c [FirstCopy<'a>], count: usize) -> &'c [FirstCopy<'a>]
    ensures { copies_of result.now ≡ take count (copies_of copies.now) }
{
    &copies[..count.min(copies.len())]
}

// The units of these data PDUs.
fn units_from<'a>(
    alloc: Global,
    own: &[MadePdu],
    units: &[usize],
    peer: &[FirstCopy],
    data_pdus: &[FirstCopy<'a>],
) -> Result<Vec<TakenUnit<'a>>, AllocError>
    requires { units.now ≡ Taken.units_along (pdus own.now) (pdus_of (copies_of peer.now)) }
    ensures { IfOk result (λ taken. units_of taken.items ≡ Taken.units_from (pdus own.now) (copies_of peer.now) 0 (copies_of data_pdus.now)) }
{
    let mut taken = Vec::new(alloc);
    for (unit, copy) in data_pdus.iter().enumerate() {
        let proof_place = proof_place(own, units, peer, unit);
        taken.push(TakenUnit {
            pdu: copy.pdu,
            data_place: copy.place,
            proof_place,
        })?;
    }
    Ok(taken)
}

/// The units conveyed through each position of what a side made, the quiet PDU too, by what the
/// retransmission requests of its peer confirm. The only error is out of memory.
pub fn units_conveyed(
    alloc: Global,
    params: &Params,
    side: Side,
    own: &[FirstCopy],
    peer: &[FirstCopy],
) -> Result<Vec<usize>, AllocError>
    ensures { IfOk result (λ units. units.items ≡ Taken.units_along (Taken.all_made params.now side (copies_of own.now)) (pdus_of (copies_of peer.now))) }
{
    let made = all_made(alloc, params, side, own)?;
    units_along(alloc, made.as_slice(), peer)
}

/// The units of a side that its peer surely took, by both sent lists. The only error is out of memory.
pub fn surely_taken<'a>(
    alloc: Global,
    params: &Params,
    side: Side,
    own: &[FirstCopy<'a>],
    peer: &[FirstCopy],
) -> Result<Vec<TakenUnit<'a>>, AllocError>
    ensures { IfOk result (λ taken. units_of taken.items ≡ Taken.surely_taken params.now side (copies_of own.now) (copies_of peer.now)) }
{
    let all = all_made(alloc, params, side, own)?;
    let made = all.as_slice();
    let conveyed = units_along(alloc, made, peer)?;
    let units = conveyed.as_slice();
    let data_pdus = data_copies(alloc, own)?;
    let listed = first_of(data_pdus.as_slice(), units_taken(made, units, peer));
    units_from(alloc, made, units, peer, listed)
}
