//! What crosses around a gap.
use crate::filling::origin_at;
use crate::gap::{Gap, fields_of};
use crate::mending::Mended;
use crate::supposed::Fields;
use rasta_check::{SentList, SpanList};
use rasta_pcap::Side;
use rasta_pdu::{Kind, Params, Pdu, decode};
use seatmelon_reading::Taped;
use std::alloc::{AllocError, Global};

// How many packets behind a gap are looked at, and how many PDUs of an end before it.
const AHEAD: usize = 2000;

const BACK: u32 = 2000;

// How many units, requests, resent units and accepted PDUs are tried.
const MOST_UNITS: usize = 8;

const MOST_REQUESTS: usize = 2;

const MOST_ACCEPTED: usize = 8;

/// A PDU, and the place of its first copy among the captured packets.
#[derive(Clone, Copy)]
pub struct Placed {
    pub place: usize,
    pub fields: Fields,
}

/// What crosses around a gap.
#[derive(Drop)]
pub struct Scene {
    /// For each missing PDU the place of the first packet that shows it.
    pub shown: Vec<usize>,

    /// The last PDUs of the peer before the first of these, up to the one that the PDU before the gap confirms, the latest
    /// first.
    pub accepted: Vec<Fields>,

    /// The last requests of the peer there, the latest first.
    pub requests: Vec<Fields>,

    /// A time that the peer confirms, and that no PDU of the sender has: it may be that of a missing one.
    pub echo: Option<u32>,

    /// The places of the sender's units before the gap, the latest first.
    pub units: Vec<usize>,

    /// The numbers of those of them that may be sent again in the gap, the likeliest first.
    pub again: Vec<usize>,

    /// The places of retransmitted data of the sender behind the gap.
    pub resent: Vec<usize>,
}

// How far a number is ahead of another.
fn ahead_by(number: u32, of: u32) -> u32 {
    number.wrapping_sub(of)
}

// The PDUs of the peer behind the one before the gap, the latest first.
fn peers_between(
    alloc: Global,
    gap: &Gap,
    origins: &[Option<usize>],
    peer: &SpanList<'_>,
) -> Result<Vec<Placed>, AllocError> {
    let mut found = Vec::new(alloc);
    let count = peer.len();
    for back in 1..=count.min(BACK) {
        let Some((crossed_at, pdu)) = peer.get(count - back) else {
            break;
        };
        if crossed_at < gap.crossed_at {
            break;
        }
        if let Some(place) = origin_at(origins, crossed_at) {
            found.push(Placed {
                place,
                fields: fields_of(&pdu),
            })?;
        }
    }
    Ok(found)
}

// The place of the first of these packets that confirms the missing PDU of this number, or one behind it, or else that of
// the packet behind the gap. The latest come first.
fn shown_at(gap: &Gap, peers: &[Placed], number: u32) -> usize {
    let sn = gap.before.sn.wrapping_add(1).wrapping_add(number);
    let mut place = gap.place;
    for one in peers {
        if ahead_by(one.fields.cs, sn) < gap.missing.wrapping_sub(number) {
            place = one.place;
        }
    }
    place
}

// The same of each missing PDU; the first one crossed no later than the packet that isn't explained without it.
fn shown_places(
    alloc: Global,
    gap: &Gap,
    peers: &[Placed],
    unexplained: usize,
) -> Result<Vec<usize>, AllocError> {
    let mut places = Vec::new(alloc);
    places.push(shown_at(gap, peers, 0).min(unexplained))?;
    for number in 1..gap.missing {
        places.push(shown_at(gap, peers, number))?;
    }
    Ok(places)
}

// The last PDUs of the peer before a place, up to the one of this SN.
fn accepted_before(
    alloc: Global,
    origins: &[Option<usize>],
    peer: &SpanList<'_>,
    place: usize,
    sn: u32,
) -> Result<Vec<Fields>, AllocError> {
    let mut found = Vec::new(alloc);
    let count = peer.len();
    for back in 1..=count.min(BACK) {
        let Some((crossed_at, pdu)) = peer.get(count - back) else {
            break;
        };
        if origin_at(origins, crossed_at).is_some_and(|at| at < place) {
            found.push(fields_of(&pdu))?;
        }
        if pdu.sn() == sn || found.len() >= MOST_ACCEPTED {
            break;
        }
    }
    Ok(found)
}

// The requests of the peer before a place that a PDU in the gap may answer.
fn requests_before(
    alloc: Global,
    origins: &[Option<usize>],
    peer: &SpanList<'_>,
    place: usize,
) -> Result<Vec<Fields>, AllocError> {
    let mut found = Vec::new(alloc);
    let count = peer.len();
    for back in 1..=count.min(BACK) {
        let Some((crossed_at, pdu)) = peer.get(count - back) else {
            break;
        };
        let fields = fields_of(&pdu);
        let is_before = origin_at(origins, crossed_at).is_some_and(|at| at < place);
        if is_before && fields.kind == Kind::RetransmissionRequest {
            found.push(fields)?;
        }
        if found.len() >= MOST_REQUESTS {
            break;
        }
    }
    Ok(found)
}

// Whether a PDU of the sender that crossed has this time.
fn has_time(own: &SpanList<'_>, ts: u32) -> bool {
    let count = own.len();
    for back in 1..=count.min(BACK) {
        match own.get(count - back) {
            Some((_, pdu)) if pdu.ts() == ts => return true,
            Some(_) => {}
            None => break,
        }
    }
    false
}

// The times and the confirmed times of packets from a place on, by their sender.
#[derive(Drop)]
struct Ahead {
    times: Vec<u32>,
    confirmed: Vec<u32>,
    resent: Vec<usize>,
}

// What is behind the gap.
fn look_ahead(
    alloc: Global,
    params: &Params,
    packets: &[Taped],
    gap: &Gap,
) -> Result<Ahead, AllocError> {
    let mut ahead = Ahead {
        times: Vec::new(alloc),
        confirmed: Vec::new(alloc),
        resent: Vec::new(alloc),
    };
    for (place, taped) in packets.iter().enumerate().skip(gap.place).take(AHEAD) {
        let Ok(pdu) = decode(params, taped.sender, &taped.datagram) else {
            break;
        };
        if taped.sender == gap.sender {
            ahead.times.push(pdu.ts())?;
            if pdu.kind() == Kind::RetransmittedData && ahead.resent.len() < MOST_UNITS {
                ahead.resent.push(place)?;
            }
        } else {
            ahead.confirmed.push(pdu.cts())?;
        }
    }
    Ok(ahead)
}

// A time between those of the PDUs around the gap that the peer confirms, and that no PDU of the sender has.
fn echo_of(gap: &Gap, own: &SpanList<'_>, peers: &[Placed], ahead: &Ahead) -> Option<u32> {
    let most = ahead_by(gap.behind.ts, gap.before.ts);
    let is_echo = |ts: u32| {
        ahead_by(ts, gap.before.ts) <= most
            && ts != gap.before.ts
            && !ahead.times.contains(&ts)
            && !has_time(own, ts)
    };
    for one in peers.iter().rev() {
        if is_echo(one.fields.cts) {
            return Some(one.fields.cts);
        }
    }
    ahead.confirmed.iter().copied().find(|ts| is_echo(*ts))
}

// The places of the sender's units before the gap, the latest first.
fn units_before(
    alloc: Global,
    origins: &[Option<usize>],
    own: &SpanList<'_>,
) -> Result<Vec<usize>, AllocError> {
    let mut units = Vec::new(alloc);
    let count = own.len();
    for back in 1..=count.min(BACK) {
        let Some((crossed_at, pdu)) = own.get(count - back) else {
            break;
        };
        if pdu.kind() == Kind::Data {
            if let Some(place) = origin_at(origins, crossed_at) {
                units.push(place)?;
            }
        }
    }
    Ok(units)
}

// Whether a PDU sends these data again.
fn is_again(pdu: &Pdu<'_>, unit: &Pdu<'_>) -> bool {
    pdu.kind() == Kind::RetransmittedData && pdu.body() == unit.body()
}

// The PDU of a captured packet.
fn pdu_at<'a>(params: &Params, packets: &'a [Taped], place: usize) -> Option<Pdu<'a>> {
    let taped = packets.get(place)?;
    decode(params, taped.sender, &taped.datagram).ok()
}

// Adds the number of a unit that isn't there yet, if there are so many units, and room for it.
fn add_below(numbers: &mut Vec<usize>, number: usize, count: usize) -> Result<(), AllocError> {
    if number < count && numbers.len() < MOST_UNITS && !numbers.contains(&number) {
        numbers.push(number)?;
    }
    Ok(())
}

// The numbers of the units that may be sent again in a gap: the one behind what the PDU before the gap sends again, those
// before what the PDU behind it does, and the latest ones.
fn again_in(
    alloc: Global,
    params: &Params,
    packets: &[Taped],
    gap: &Gap,
    units: &[usize],
    last: &Pdu<'_>,
) -> Result<Vec<usize>, AllocError> {
    let mut numbers = Vec::new(alloc);
    let missing = gap.missing as usize;
    let behind = pdu_at(params, packets, gap.place);
    for (number, place) in units.iter().enumerate() {
        let Some(unit) = pdu_at(params, packets, *place) else {
            continue;
        };
        if number > 0 && is_again(last, &unit) {
            add_below(&mut numbers, number.saturating_sub(1), units.len())?;
        }
        if behind.is_some_and(|pdu| is_again(&pdu, &unit)) {
            add_below(&mut numbers, number.saturating_add(missing), units.len())?;
        }
    }
    for number in 0..MOST_UNITS {
        add_below(&mut numbers, number, units.len())?;
    }
    Ok(numbers)
}

/// What crosses around a gap, where so much crossed before it, and the packet at a place isn't explained.
pub fn scene_of(
    alloc: Global,
    params: &Params,
    packets: &[Taped],
    mended: &Mended,
    gap: &Gap,
    unexplained: usize,
) -> Result<Scene, AllocError> {
    let Mended { store, origins, .. } = mended;
    let peer = store.list_of(gap.sender.other());
    let own = store.list_of(gap.sender);
    let peers = peers_between(alloc, gap, origins, &peer)?;
    let ahead = look_ahead(alloc, params, packets, gap)?;
    let shown = shown_places(alloc, gap, &peers, unexplained)?;
    let place = shown.first().copied().unwrap_or(gap.place);
    let units = units_before(alloc, origins, &own)?;
    let again = match own.len().checked_sub(1).and_then(|last| own.get(last)) {
        Some((_, last)) => again_in(alloc, params, packets, gap, &units, &last)?,
        None => Vec::new(alloc),
    };
    Ok(Scene {
        shown,
        accepted: accepted_before(alloc, origins, &peer, place, gap.before.cs)?,
        requests: requests_before(alloc, origins, &peer, place)?,
        echo: echo_of(gap, &own, &peers, &ahead),
        units,
        again,
        resent: ahead.resent,
    })
}
