//! Working out what is listed of packets that begin anywhere: the captured data, and which of them
//! are shown to be surely taken.
ghost use Rattle.std.specs.Prelude.{◌≡◌, ◌+◌, ◌<◌, ◌≤◌, [], length, drop, slice_get, IfOk, IsTrue};
ghost use Rattle.std.specs.Prelude.{OnOk};
ghost use Rattle.std.specs.Option.{option_flatten};
ghost use Rattle.rasta_end.specs.State;
ghost use Rattle.rasta_check.specs.Internals.Listing.{with_proofs};
ghost use Rattle.rasta_check.specs.Model.Settled;
ghost use Rattle.rasta_check.specs.Internals.Conveyed;
ghost use Rattle.rasta_check.specs.Internals.Conveyed.{Rise, lag_with, first_lag, lags_of};
ghost use Rattle.rasta_check.specs.Internals.Conveyed.{conveyed_through, proofs_by, AreUnits};
ghost use Rattle.rasta_check.specs.Middle.Shown.{IsListing};

use crate::sights::{Confirmation, ShownUnit, Sight};
use rasta_pdu::Kind;
use std::alloc::{AllocError, Global};

// How many counts near one are looked at before a search.
const NEAR: usize = 4;

// ---- what lags behind

// Whether all units offered so far are conveyed through a PDU of this type.
fn is_settled(kind: Kind) -> bool
    ensures { result ≡ Settled.is_settled kind }
{
    !matches!(
        kind,
        Kind::RetransmissionResponse | Kind::DisconnectionRequest | Kind::RetransmittedData
    )
}

// How many units lag behind just before a PDU of this type, by how many do at it.
fn lag_before(kind: Kind, lag: Option<u32>) -> Option<u32>
    ensures { result ≡ Conveyed.lag_before kind lag }
{
    match kind {
        Kind::RetransmittedData => lag?.checked_add(1),
        Kind::DisconnectionRequest => None,
        _ => Some(0),
    }
}

// How many units lag behind at the SN with a key: as many as just before the next sight, where that
// has the very next SN.
fn lag_ahead(key: u32, next: Option<Sight>, lag: Option<u32>) -> Option<u32>
    ensures { result ≡ Conveyed.lag_ahead key next lag }
{
    match next {
        Some(next) if u64::from(next.key) == u64::from(key) + 1 => lag,
        _ => None,
    }
}

// How many units lag behind at a sight, by the next one and how many do just before that.
fn lag_at(sight: &Sight, next: Option<Sight>, lag: Option<u32>) -> Option<u32>
    ensures { result ≡ lag_with (Settled.is_settled sight.now.kind)
        (Conveyed.lag_ahead sight.now.key next lag) }
{
    if is_settled(sight.kind) {
        Some(0)
    } else {
        lag_ahead(sight.key, next, lag)
    }
}

// The sight at a position.
fn sight_at(sights: &[Sight], position: usize) -> Option<Sight>
    ensures { result ≡ slice_get sights.now position }
{
    sights.get(position).copied()
}

// How many units lag behind just before the sight at a position, by how many do before the next.
fn lag_from_next(sights: &[Sight], position: usize, lag: Option<u32>) -> Option<u32>
    requires lag { lag ≡ first_lag (drop (position + 1) sights.now) }
    requires within { position < length sights.now }
    ensures { result ≡ first_lag (drop position sights.now) }
{
    let sight = sight_at(sights, position)?;
    let next = sight_at(sights, position + 1);
    lag_before(sight.kind, lag_at(&sight, next, lag))
}

// How many units lag behind just before each sight, where that is settled.
fn lags(alloc: Global, sights: &[Sight]) -> Result<Vec<Option<u32>>, AllocError>
    ensures { IfOk result (λ lags. lags.items ≡ lags_of sights.now) }
{
    let mut lags = Vec::new(alloc);
    let mut lag = None;
    for position in (0..sights.len()).rev() {
        lag = lag_from_next(sights, position, lag);
        lags.push(lag)?;
    }
    lags.reverse();
    Ok(lags)
}

// ---- sights by their keys

// The key of an SN: how far it lies ahead of the base, modulo 2^32.
pub(crate) fn ahead_by(sn: u32, base: u32) -> u32
    ensures { result ≡ State.ahead_by sn base }
{
    sn.wrapping_sub(base)
}

// Whether the key of the last of so many sights, if there are any, is up to this one.
fn is_reached(sights: &[Sight], key: u32, count: usize) -> bool
    ensures within { IsTrue result → count ≤ length sights.now }
    ensures reached { IsTrue result → Rise sights.now → count ≤ Conveyed.up_to key sights.now }
{
    match count.checked_sub(1) {
        Some(last) => match sight_at(sights, last) {
            Some(sight) => sight.key <= key,
            None => false,
        },
        None => true,
    }
}

// Whether the key of the sight behind so many, if there is one, is above this one.
fn is_passed(sights: &[Sight], key: u32, count: usize) -> bool
    ensures { IsTrue result → Conveyed.up_to key sights.now ≤ count }
{
    match sight_at(sights, count) {
        Some(next) => key < next.key,
        None => true,
    }
}

// How many sights have keys up to this one, by a search among all of them.
fn search_up_to(sights: &[Sight], key: u32) -> usize
    ensures within { result ≤ length sights.now }
    ensures value { Rise sights.now → result ≡ Conveyed.up_to key sights.now }
{
    sights.partition_point(|sight| sight.key <= key)
}

// How many sights have keys up to this one. Mostly they are so many as are near, or a few more; that is looked at first,
// since each step of a search among all goes to another place in memory.
fn count_up_to(sights: &[Sight], key: u32, near: usize) -> usize
    ensures within { result ≤ length sights.now }
    ensures value { Rise sights.now → result ≡ Conveyed.up_to key sights.now }
{
    for step in 0..NEAR {
        let count = near.saturating_add(step);
        if is_reached(sights, key, count) && is_passed(sights, key, count) {
            return count;
        }
    }
    search_up_to(sights, key)
}

// The last of so many sights.
fn last_before(sights: &[Sight], count: usize) -> Option<Sight>
    ensures { result ≡ Conveyed.last_before count sights.now }
{
    let last = count.checked_sub(1)?;
    sight_at(sights, last)
}

// Whether a sight has this key, and a type that settles its SN.
fn is_settled_by(key: u32, sight: Option<Sight>) -> bool
    ensures { result ≡ Conveyed.is_settled_by key sight }
{
    match sight {
        Some(sight) => sight.key == key && is_settled(sight.kind),
        None => false,
    }
}

// The sights of data, in order.
fn data_among(alloc: Global, sights: &[Sight]) -> Result<Vec<Sight>, AllocError>
    ensures { IfOk result (λ data_sights. data_sights.items ≡ Conveyed.data_among sights.now) }
{
    sights
        .iter()
        .filter(|sight| sight.kind.is(Kind::Data))
        .copied()
        .collect(alloc)
}

// ---- what is conveyed

// How many sights, and how many of data, have keys up to one that is near. It only says where to look first.
#[derive(Clone, Copy)]
pub(crate) struct Near {
    sights: usize,
    data_sights: usize,
}

impl Near {
    // At the first sight.
    pub(crate) const START: Near = Near {
        sights: 0,
        data_sights: 0,
    };
}

// The sights of a side, with what tells how many data are conveyed through an SN.
#[derive(Drop)]
pub(crate) struct Conveyance<'a> {
    pub(crate) sights: &'a [Sight],
    // Those of data.
    data_sights: Vec<Sight>,
    // How many units lag behind just before each, where that is settled.
    lags: Vec<Option<u32>>,
    ghost data_is: { data_sights.items ≡ Conveyed.data_among sights.now },
    ghost lags_are: { lags.items ≡ lags_of sights.now },
}

impl<'a> Conveyance<'a> {
    pub(crate) fn of(alloc: Global, sights: &'a [Sight]) -> Result<Conveyance<'a>, AllocError>
        ensures { IfOk result (λ o. o.sights.now ≡ sights.now) }
    {
        Ok(Conveyance {
            sights,
            data_sights: data_among(alloc, sights)?,
            lags: lags(alloc, sights)?,
        })
    }

    // How many units lag behind just before the sight at a position.
    fn lag_before_sight(&self, position: usize) -> Option<u32>
        ensures { result ≡ option_flatten (slice_get (lags_of self.now.sights.now) position) }
    {
        *self.lags.get(position)?
    }

    // How many units lag behind at the SN with a key, where that is settled.
    pub(crate) fn lag_through(&self, key: u32, near: Near) -> Option<u32>
        ensures { Rise self.now.sights.now
            → result ≡ Conveyed.lag_through self.now.sights.now key }
    {
        let count = count_up_to(self.sights, key, near.sights);
        if is_settled_by(key, last_before(self.sights, count)) {
            Some(0)
        } else {
            lag_ahead(
                key,
                sight_at(self.sights, count),
                self.lag_before_sight(count),
            )
        }
    }

    // How many data were captured up to the SN with a key.
    pub(crate) fn data_up_to(&self, key: u32, near: Near) -> usize
        ensures { Rise self.now.sights.now
            → result ≡ Conveyed.up_to key (Conveyed.data_among self.now.sights.now) }
    {
        count_up_to(&self.data_sights, key, near.data_sights)
    }

    // How many of both have keys up to this one.
    fn near(&self, key: u32, last: Near) -> Near {
        Near {
            sights: count_up_to(self.sights, key, last.sights),
            data_sights: count_up_to(&self.data_sights, key, last.data_sights),
        }
    }

    // How many data are surely conveyed through the SN with a key.
    fn conveyed_through(&self, key: u32, near: Near) -> usize
        ensures { Rise self.now.sights.now → result ≡ conveyed_through self.now.sights.now key }
    {
        match self.lag_through(key, near) {
            Some(lag) => self.data_up_to(key, near).saturating_sub(lag as usize),
            None => 0,
        }
    }

    // The place of the first confirmation that shows them, data by data.
    fn proof_places(
        &self,
        alloc: Global,
        base: u32,
        confirmations: &[Confirmation],
    ) -> Result<Vec<u32>, AllocError>
        ensures { IfOk result (λ places. Rise self.now.sights.now
            → places.items ≡ proofs_by base self.now.sights.now [] confirmations.now) }
    {
        let mut places = Vec::new(alloc);
        let mut near = Near::START;
        for confirmation in confirmations {
            let key = ahead_by(confirmation.cs, base);
            near = self.near(key, near);
            let shown = self.conveyed_through(key, near);
            add_proofs(&mut places, shown, confirmation.place)?;
        }
        Ok(places)
    }
}

// The place is the proof of each further unit of so many.
fn add_proofs(places: &mut Vec<u32>, shown: usize, place: u32) -> Result<(), AllocError>
    ensures { OnOk result (places.new.items ≡ with_proofs places.old.items shown place) }
{
    if places.len() < shown {
        places.resize(shown, place)?;
    }
    Ok(())
}

// ---- the list

// The data, each with the place of its proof, where it has one.
fn units_with(
    alloc: Global,
    data_sights: &[Sight],
    places: &[u32],
) -> Result<Vec<ShownUnit>, AllocError>
    ensures { IfOk result (λ units. AreUnits data_sights.now places.now units.items) }
{
    let mut units = Vec::new(alloc);
    for (index, sight) in data_sights.iter().enumerate() {
        units.push(ShownUnit {
            data_place: sight.place,
            proof_place: places.get(index).copied(),
            messages: sight.messages,
        })?;
    }
    Ok(units)
}

/// The captured data, one for each SN and in the order of the SNs, each with the place of the first
/// PDU that shows it to be surely taken, where one does: the first ones have a proof, the others
/// none. The sights are those of one side, by how far their SNs lie ahead of the base; the
/// confirmations are those of its peer. The only error is out of memory.
pub(crate) fn shown_units(
    alloc: Global,
    base: u32,
    sights: &[Sight],
    confirmations: &[Confirmation],
) -> Result<Vec<ShownUnit>, AllocError>
    ensures { IfOk result (λ units. IsListing base sights.now confirmations.now units.items) }
{
    let conveyance = Conveyance::of(alloc, sights)?;
    let places = conveyance.proof_places(alloc, base, confirmations)?;
    units_with(alloc, &conveyance.data_sights, &places)
}
