//! What is kept of the captured PDUs of a side.
ghost use Rattle.std.specs.Prelude.{◌≡◌, ◌↔◌, ◌≤◌, ◌<◌, ◌^◌, ◌%◌, length, slice_get, Some, IsTrue, IfOk, IfErr, OnErr, vec_len, vec_capacity};
ghost use Rattle.rasta_check.specs.Capture.Lists.{copy_of};
ghost use Rattle.rasta_check.specs.declared.sights.Sight.{Sight};
ghost use Rattle.rasta_check.specs.Middle.Kept.{KeptPdus, is_opening, nothing_kept, offset_of};
ghost use Rattle.rasta_check.specs.Middle.Shown.{IsListing};
ghost use Rattle.rasta_check.specs.Middle.Resent.{IsResentListing};
ghost use Rattle.rasta_pdu.specs.Pdu.{messages_in, value_of};
ghost use Rattle.rasta_check.specs.Internals.Sighting.{AfterPdu, Agree, AfterSight, ConfirmationsWith, HasKey, HaveOrder, IsFinding, IsGap, IsNear, Repeats, base_of, first_ts_of, follows, follows_all, is_no_later_opening};

use crate::listing::shown_units;
use crate::resent::{ResentUnit, resent_units};
use crate::sights::{Confirmation, ShownUnit, Sight};
use rasta_pdu::{Kind, Pdu};
use std::alloc::{AllocError, Global};
use std::marker::Model;

// Of two SNs that lie less than half of their range from each other, it is known which is ahead.
const HALF_RANGE: u32 = 1 << 31;

// A PDU lies less than so many SNs behind each that was captured before it, so fewer sights than these move where one
// is inserted.
const MOST_BEHIND: u32 = 1 << 12;

// What was found of a sight among others.
#[derive(Clone, Copy)]
enum Finding {
    // One of them has its key, its type and as many messages.
    Copy,
    // None has its key, which belongs at this position.
    New(usize),
    // It can't be held together with them.
    Contradiction,
}

// Where the sight with this key stands, or where it belongs. Mostly it is the last.
fn position_of(sights: &[Sight], key: u32) -> Result<usize, usize>
    ensures found { IfOk result (λ i. (s : Sight)
        × (slice_get sights.now i ≡ Some s) × (s.key ≡ key)) }
    ensures gap { IfErr result (λ i. (i ≤ length sights.now)
        × (HaveOrder sights.now → IsGap sights.now key i)) }
{
    match sights.last() {
        Some(last) if last.key < key => Err(sights.len()),
        _ => sights.binary_search_by_key(&key, |sight| sight.key),
    }
}

// Whether this key lies less than half the range ahead of the first, and not too far behind the last.
fn is_near(sights: &[Sight], key: u32) -> bool
    ensures { IsTrue result ↔ IsNear sights.now key }
{
    let (Some(first), Some(last)) = (sights.first(), sights.last()) else {
        return true;
    };
    key.saturating_sub(first.key) < HALF_RANGE && last.key.saturating_sub(key) < MOST_BEHIND
}

// Whether a PDU of this type opens a connection.
fn is_opening(kind: Kind) -> bool
    ensures { result ≡ is_opening kind }
{
    matches!(kind, Kind::ConnectionRequest | Kind::ConnectionResponse)
}

// How far the SN of a PDU lies ahead of its redundancy number.
fn offset_of(pdu: &Pdu<'_>) -> u32
    ensures { result ≡ offset_of (value_of pdu.now) }
{
    pdu.sn().wrapping_sub(pdu.number())
}

// Whether a PDU opens no connection, or not later than at this TS.
fn is_no_later_opening(first_ts: u32, pdu: &Pdu<'_>) -> bool
    ensures { result ≡ is_no_later_opening first_ts (value_of pdu.now) }
{
    !is_opening(pdu.kind()) || first_ts.wrapping_sub(pdu.ts()) < HALF_RANGE
}

// Whether the SN of a PDU lies so far ahead of its redundancy number, and it opens no connection later than at this TS.
fn follows(offset: u32, first_ts: u32, pdu: &Pdu<'_>) -> bool
    ensures { result ≡ follows offset first_ts (value_of pdu.now) }
{
    offset_of(pdu) == offset && is_no_later_opening(first_ts, pdu)
}

// Whether two sights with one key can be those of one PDU.
fn agree(sight: &Sight, other: &Sight) -> bool
    ensures { IsTrue result ↔ Agree sight.now other.now }
{
    sight.kind.is(other.kind) && sight.messages == other.messages
}

// What another sight is to these.
fn find(sights: &[Sight], other: &Sight) -> Finding
    ensures { IsFinding sights.now other.now result }
{
    if !is_near(sights, other.key) {
        return Finding::Contradiction;
    }
    match position_of(sights, other.key) {
        Ok(index) => match sights.get(index) {
            Some(sight) if agree(sight, other) => Finding::Copy,
            _ => Finding::Contradiction,
        },
        Err(position) => Finding::New(position),
    }
}

// Whether the last of these has this CS.
fn repeats(confirmations: &[Confirmation], cs: u32) -> bool
    ensures { IsTrue result ↔ Repeats confirmations.now cs }
{
    match confirmations.last() {
        Some(last) => last.cs == cs,
        None => false,
    }
}

// Adds another sight, and answers whether it can be held together with these; where it can't, all
// stays as it was.
fn add_sight(sights: &mut Vec<Sight>, other: Sight) -> Result<bool, AllocError>
    ensures ok { IfOk result (λ held. AfterSight sights.old.items other held sights.new.items) }
    ensures err { OnErr result (sights.new.items ≡ sights.old.items) }
{
    match find(sights, &other) {
        Finding::Copy => Ok(true),
        Finding::New(position) => {
            sights.insert(position, other)?;
            Ok(true)
        }
        Finding::Contradiction => Ok(false),
    }
}

// Adds what the PDU at a place confirms, unless that repeats the last.
fn confirm(confirmations: &mut Vec<Confirmation>, place: u32, pdu: &Pdu<'_>)
    requires { vec_len confirmations.old < vec_capacity confirmations.old }
    ensures { ConfirmationsWith confirmations.old.items (copy_of (place, pdu.now))
        confirmations.new.items }
{
    let is_request = pdu.kind().is(Kind::ConnectionRequest);
    if !is_request && !repeats(confirmations, pdu.cs()) {
        confirmations.push_reserved(Confirmation {
            cs: pdu.cs(),
            place,
        });
    }
}

// How many messages a PDU has.
fn message_count(pdu: &Pdu<'_>) -> u16
    requires { length (messages_in (value_of pdu.now).safety.body) < 2 ^ 16 }
    ensures { result ≡ length (messages_in (value_of pdu.now).safety.body) }
{
    let mut count = 0;
    for _ in pdu.messages() {
        count += 1;
    }
    count
}

/// What is kept of the captured PDUs of a side.
#[derive(Drop)]
pub(crate) struct Seen {
    // Keys are counted from here. That of the first SN that was captured is half the range, so that
    // none comes round past 0.
    base: u32,
    // How far each SN lies ahead of the redundancy number, and the TS of the PDU that was captured first.
    offset: u32,
    first_ts: u32,
    // Their keys rise.
    sights: Vec<Sight>,
    confirmations: Vec<Confirmation>,
}

impl Model for Seen {
    ghost Value = { KeptPdus };

    ghost view = { λ s. record {
      base = s.base;
      offset = s.offset;
      first_ts = s.first_ts;
      sights = s.sights.items;
      confirmations = s.confirmations.items;
    } };
}

impl Seen {
    /// Nothing was captured of the side.
    pub(crate) fn new(alloc: Global) -> Seen
        ensures { result ≡ nothing_kept }
    {
        Seen {
            base: 0,
            offset: 0,
            first_ts: 0,
            sights: Vec::new(alloc),
            confirmations: Vec::new(alloc),
        }
    }

    // The base from which the keys are counted where a PDU with this SN is next.
    fn base_for(&self, sn: u32) -> u32
        ensures { result ≡ base_of self.now.sights self.now.base sn }
    {
        if self.sights.is_empty() {
            sn.wrapping_sub(HALF_RANGE)
        } else {
            self.base
        }
    }

    // The TS of the first PDU where one with this TS is next.
    fn first_ts_for(&self, ts: u32) -> u32
        ensures { result ≡ first_ts_of self.now.sights self.now.first_ts ts }
    {
        if self.sights.is_empty() {
            ts
        } else {
            self.first_ts
        }
    }

    // Whether the SN of a PDU lies as far ahead of its redundancy number as those before, if there are any, and it opens
    // no connection later than the first of them was made. Another connection would begin with it.
    fn is_followed_by(&self, pdu: &Pdu<'_>) -> bool
        ensures { result
            ≡ follows_all self.now.sights self.now.offset self.now.first_ts (value_of pdu.now) }
    {
        self.sights.is_empty() || follows(self.offset, self.first_ts, pdu)
    }

    /// Takes in the PDU at a place, and answers whether it can be held together with those before;
    /// where it can't, all stays as it was. The only error is out of memory.
    pub(crate) fn add(&mut self, place: u32, pdu: &Pdu<'_>) -> Result<bool, AllocError>
        requires few { length (messages_in (value_of pdu.now).safety.body) < 2 ^ 16 }
        ensures ok { IfOk result
            (λ held. AfterPdu self.old (copy_of (place, pdu.now)) held self.new) }
        ensures err { OnErr result (self.new ≡ self.old) }
    {
        if !self.is_followed_by(pdu) {
            return Ok(false);
        }
        let base = self.base_for(pdu.sn());
        let first_ts = self.first_ts_for(pdu.ts());
        let sight = Sight {
            key: pdu.sn().wrapping_sub(base),
            place,
            kind: pdu.kind(),
            messages: message_count(pdu),
        };
        self.confirmations.try_reserve(1)?;
        if !add_sight(&mut self.sights, sight)? {
            return Ok(false);
        }
        self.base = base;
        self.offset = offset_of(pdu);
        self.first_ts = first_ts;
        confirm(&mut self.confirmations, place, pdu);
        Ok(true)
    }

    /// The captured data of the side, each with the proof among what its peer confirms. The only
    /// error is out of memory.
    pub(crate) fn data(&self, alloc: Global, peer: &Seen) -> Result<Vec<ShownUnit>, AllocError>
        ensures { IfOk result (λ units.
            IsListing self.now.base self.now.sights peer.now.confirmations units.items) }
    {
        shown_units(alloc, self.base, &self.sights, &peer.confirmations)
    }

    /// The data that the side sent again and first sent before the captured packets begin, each
    /// with the proof among what its peer confirms. The only error is out of memory.
    pub(crate) fn resent(&self, alloc: Global, peer: &Seen) -> Result<Vec<ResentUnit>, AllocError>
        ensures { IfOk result (λ units.
            IsResentListing self.now.base self.now.sights peer.now.confirmations units.items) }
    {
        resent_units(alloc, self.base, &self.sights, &peer.confirmations)
    }
}
