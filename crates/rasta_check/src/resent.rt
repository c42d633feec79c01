//! Working out what is listed of packets that begin anywhere, beside their data: data that were
//! sent again, and first sent before the packets begin.
ghost use Rattle.std.specs.Prelude.{◌≡◌, false, [], filter_map, map, IfOk};
ghost use Rattle.rasta_check.specs.Internals.Conveyed.{Rise};
ghost use Rattle.rasta_check.specs.Internals.ResentUnits;
ghost use Rattle.rasta_check.specs.Middle.Resent.{IsResentListing};

use crate::listing::{Conveyance, Near, ahead_by};
use crate::sights::{Confirmation, Sight};
use rasta_pdu::Kind;
use std::alloc::{AllocError, Global};

// A unit that is listed lies less than so many SNs ahead of each captured PDU, so no more units than these go through
// the confirmations.
const MOST_AHEAD: u32 = 1 << 12;

/// Data that were sent again, less than 4,096 SNs ahead of each captured PDU of their side, and first sent before the
/// captured packets begin.
#[derive(Clone, Copy)]
pub struct ResentUnit {
    /// The place of the packet that sends them again, the first with its SN.
    pub place: u32,
    /// The place of the first packet that shows them to be surely taken, if one does.
    pub proof_place: Option<u32>,
    /// How many messages they are.
    pub messages: u16,
}

// ---- SNs

// An SN at which it is settled how many units lag behind.
#[derive(Clone, Copy)]
struct Standing {
    key: u32,
    // How many data were captured up to it.
    data_count: usize,
    // How many units lag behind.
    lag: u32,
}

impl Standing {
    // What is settled at the SN with a key.
    fn at(conveyance: &Conveyance, key: u32) -> Option<Standing>
        ensures { Rise conveyance.now.sights.now
            → result ≡ ResentUnits.standing conveyance.now.sights.now key }
    {
        let lag = conveyance.lag_through(key, Near::START)?;
        Some(Standing {
            key,
            data_count: conveyance.data_up_to(key, Near::START),
            lag,
        })
    }

    // Whether the unit that is sent again here was offered before all data that were captured: at
    // least so many lag behind.
    fn is_before_data(&self) -> bool
        ensures { result ≡ ResentUnits.is_before_data self.now }
    {
        self.data_count <= self.lag as usize
    }

    // Whether the unit that was sent again at an SN is conveyed through this one: no more units lag
    // behind here than did there and were captured in between.
    fn conveys(&self, resent: &Standing) -> bool
        ensures { result ≡ ResentUnits.conveys self.now resent.now }
    {
        resent.key <= self.key
            && u128::from(self.lag) + resent.data_count as u128
                <= u128::from(resent.lag) + self.data_count as u128
    }
}

// ---- units

// Whether a key lies near that of the first sight.
fn is_early(sights: &[Sight], key: u32) -> bool
    ensures { result ≡ ResentUnits.is_early sights.now key }
{
    match sights.first() {
        Some(first) => key.saturating_sub(first.key) < MOST_AHEAD,
        None => false,
    }
}

// Whether one of these is of retransmitted data.
fn has_resent(sights: &[Sight]) -> bool
    ensures { result ≡ false
        → filter_map (ResentUnits.resent_at sights.now) sights.now ≡ [] }
{
    for sight in sights {
        if sight.kind.is(Kind::RetransmittedData) {
            return true;
        }
    }
    false
}

// What is settled at a PDU of retransmitted data, near the first one, that were first sent before all captured data.
#[tactic(auto, unfolding(crate::specs::Internals::ResentUnits::first_sent_before))]
fn first_sent_before(conveyance: &Conveyance, sight: &Sight) -> Option<Standing>
    ensures { Rise conveyance.now.sights.now
        → result ≡ ResentUnits.first_sent_before conveyance.now.sights.now sight.now }
{
    if !sight.kind.is(Kind::RetransmittedData) || !is_early(conveyance.sights, sight.key) {
        return None;
    }
    let resent = Standing::at(conveyance, sight.key)?;
    if resent.is_before_data() {
        Some(resent)
    } else {
        None
    }
}

// A PDU of such data, with what is settled at it.
#[derive(Clone, Copy)]
struct Resent {
    sight: Sight,
    standing: Standing,
}

// Such a PDU, if the sight is that of one.
fn resent_at(conveyance: &Conveyance, sight: &Sight) -> Option<Resent>
    ensures { Rise conveyance.now.sights.now
        → result ≡ ResentUnits.resent_at conveyance.now.sights.now sight.now }
{
    let standing = first_sent_before(conveyance, sight)?;
    Some(Resent {
        sight: *sight,
        standing,
    })
}

// All such PDUs.
fn resent_among(alloc: Global, conveyance: &Conveyance) -> Result<Vec<Resent>, AllocError>
    ensures { IfOk result (λ found. Rise conveyance.now.sights.now
        → found.items ≡ filter_map (ResentUnits.resent_at conveyance.now.sights.now)
        conveyance.now.sights.now) }
{
    let mut found = Vec::new(alloc);
    for sight in conveyance.sights {
        if let Some(resent) = resent_at(conveyance, sight) {
            found.push(resent)?;
        }
    }
    Ok(found)
}

// ---- their proofs

// What is settled at a confirmed SN.
#[derive(Clone, Copy)]
struct Settlement {
    standing: Option<Standing>,
    // The place of the packet that confirms it.
    place: u32,
}

// What is settled at the SN of a confirmation.
fn settled_at(conveyance: &Conveyance, base: u32, confirmation: &Confirmation) -> Settlement
    ensures { Rise conveyance.now.sights.now
        → result ≡ ResentUnits.settled_at base conveyance.now.sights.now confirmation.now }
{
    Settlement {
        standing: Standing::at(conveyance, ahead_by(confirmation.cs, base)),
        place: confirmation.place,
    }
}

// What is settled at the SNs of all confirmations.
fn settlements(
    alloc: Global,
    conveyance: &Conveyance,
    base: u32,
    confirmations: &[Confirmation],
) -> Result<Vec<Settlement>, AllocError>
    ensures { IfOk result (λ settled. Rise conveyance.now.sights.now
        → settled.items ≡ map (ResentUnits.settled_at base conveyance.now.sights.now)
        confirmations.now) }
{
    let mut settled = Vec::new(alloc);
    for confirmation in confirmations {
        settled.push(settled_at(conveyance, base, confirmation))?;
    }
    Ok(settled)
}

// Whether the unit that was sent again is conveyed through an SN, by what is settled there.
fn is_conveyed(resent: &Standing, settled: Option<Standing>) -> bool
    ensures { result ≡ ResentUnits.is_conveyed resent.now settled }
{
    match settled {
        Some(later) => later.conveys(resent),
        None => false,
    }
}

// The place of the first confirmation that shows the unit that was sent again.
fn first_proof(settlements: &[Settlement], resent: &Standing) -> Option<u32>
    ensures { result ≡ ResentUnits.first_settled resent.now settlements.now }
{
    for settlement in settlements {
        if is_conveyed(resent, settlement.standing) {
            return Some(settlement.place);
        }
    }
    None
}

// ---- the list

// The unit of a PDU that sends such data again.
fn unit_by(settlements: &[Settlement], resent: &Resent) -> ResentUnit
    ensures { result ≡ ResentUnits.unit_by settlements.now resent.now }
{
    ResentUnit {
        place: resent.sight.place,
        proof_place: first_proof(settlements, &resent.standing),
        messages: resent.sight.messages,
    }
}

// The units of all such PDUs.
fn units_by(
    alloc: Global,
    settlements: &[Settlement],
    resent: &[Resent],
) -> Result<Vec<ResentUnit>, AllocError>
    ensures { IfOk result
        (λ units. units.items ≡ map (ResentUnits.unit_by settlements.now) resent.now) }
{
    let mut units = Vec::new(alloc);
    for resent in resent {
        units.push(unit_by(settlements, resent))?;
    }
    Ok(units)
}

/// The data that were sent again in captured PDUs and first sent before these begin, in the order
/// of the SNs, each with the place of the first PDU that shows it to be surely taken, where one
/// does. The sights are those of one side, by how far their SNs lie ahead of the base; the
/// confirmations are those of its peer. The only error is out of memory.
pub(crate) fn resent_units(
    alloc: Global,
    base: u32,
    sights: &[Sight],
    confirmations: &[Confirmation],
) -> Result<Vec<ResentUnit>, AllocError>
    ensures { IfOk result (λ units. IsResentListing base sights.now confirmations.now units.items) }
{
    // Mostly none are sent again, and then nothing needs to be worked out.
    if !has_resent(sights) {
        return Ok(Vec::new(alloc));
    }
    let conveyance = Conveyance::of(alloc, sights)?;
    let resent = resent_among(alloc, &conveyance)?;
    if resent.is_empty() {
        return Ok(Vec::new(alloc));
    }
    let settlements = settlements(alloc, &conveyance, base, confirmations)?;
    units_by(alloc, &settlements, &resent)
}
