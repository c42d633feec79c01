//! Looks for PDUs that the tap may have missed. Nothing rests on it: each filling that it finds is judged.
ghost use Rattle.std.specs.Prelude.{◌≡◌, IfErr};
ghost use Rattle.rasta_pcap.specs.Fault.{no_memory};

use crate::candidates::{KINDS, candidates};
use crate::filling::shown_at;
use crate::gap::{Gap, gap_at};
use crate::mending::{Mended, mend};
use crate::scene::{Scene, scene_of};
use crate::supposed::Supposed;
use rasta_build::propose_lists;
use rasta_pcap::Fault;
use rasta_pdu::{Kind, Params};
use seatmelon_reading::Taped;
use std::alloc::{AllocError, Global};

// How many packets behind a gap are tried first.
const TRIED_FIRST: usize = 500;

/// A way to fill a gap, and the place up to which the captured packets are explained with it.
#[derive(Drop)]
pub struct Tried {
    pub kind: Kind,
    pub reach: usize,
    pub pdus: Vec<Supposed>,
}

/// What fills a gap, for each type the best way.
#[derive(Drop)]
pub struct Filled {
    pub gap: Gap,
    pub tried: Vec<Tried>,
}

impl Filled {
    /// The way that leads farthest, the first of several.
    pub fn best(&self) -> Option<&Tried> {
        let mut best: Option<&Tried> = None;
        for one in &self.tried {
            match best {
                Some(other) if other.reach >= one.reach => {}
                _ => best = Some(one),
            }
        }
        best
    }

    /// Whether a way leads behind the gap and isn't the best.
    pub fn is_other(&self, way: &Tried) -> bool {
        let best = self.best().map(|best| best.kind);
        way.reach > self.gap.place && best != Some(way.kind)
    }
}

/// What a search comes to.
#[derive(Drop)]
pub struct Found {
    /// The gaps that were filled, in their order, and the one at last that was tried in vain, if there is one.
    pub gaps: Vec<Filled>,

    /// The PDUs of the best ways.
    pub pdus: Vec<Supposed>,

    /// Up to where everything is explained with them.
    pub reach: usize,

    /// The fault that stops it there; none where all is explained.
    pub stop: Option<Fault>,
}

// What is searched: the packets, by these parameters.
#[derive(Clone, Copy)]
struct Search<'a> {
    alloc: Global,
    params: &'a Params,
    packets: &'a [Taped],
}

// How far packets are explained: to a place, and the fault there.
#[derive(Clone, Copy)]
struct Reach {
    place: usize,
    fault: Option<Fault>,
}

impl Reach {
    // Whether packets are explained up to their end, or up to a fault of the capture.
    fn is_open(self) -> bool {
        match self.fault {
            Some(fault) => fault.number != Fault::NOT_FOUND,
            None => true,
        }
    }
}

// How far what crossed is explained; all of it is that of the packets before this place.
fn reach_of(
    alloc: Global,
    mended: &Mended,
    until: usize,
    stop: Option<Fault>,
) -> Result<Reach, Fault> {
    let Mended { store, origins, .. } = mended;
    let params = store.params();
    let outcome = propose_lists(
        alloc,
        &params,
        store.len(),
        &store.client(),
        &store.server(),
    );
    match outcome {
        Ok(_) => Ok(Reach {
            place: until,
            fault: stop,
        }),
        Err(fault) if fault.number == Fault::NO_MEMORY => Err(fault),
        Err(fault) => Ok(Reach {
            place: shown_at(origins, fault.place.saturating_sub(1)),
            fault: Some(fault),
        }),
    }
}

// These PDUs, and others behind them.
fn joined(
    alloc: Global,
    first: &[Supposed],
    others: &[Supposed],
) -> Result<Vec<Supposed>, AllocError> {
    let mut all = Vec::new(alloc);
    all.extend_from_slice(first)?;
    all.extend_from_slice(others)?;
    Ok(all)
}

impl Search<'_> {
    // What crosses below a place together with these, and how far that is explained.
    fn reach_below(self, supposed: &[Supposed], until: usize) -> Result<(Mended, Reach), Fault> {
        let until = until.min(self.packets.len());
        let first = &self.packets[..until];
        let mended = mend(self.alloc, self.params, self.packets, first, supposed)?;
        let (place, stop) = match mended.stop {
            Some(stop) => (stop.place, Some(stop.fault)),
            None => (until, None),
        };
        let reach = reach_of(self.alloc, &mended, place, stop)?;
        Ok((mended, reach))
    }

    // How far a way to fill a gap leads: the first packets behind it are tried before all.
    fn reach_with(self, chosen: &[Supposed], gap: &Gap, pdus: &[Supposed]) -> Result<Reach, Fault> {
        let all = joined(self.alloc, chosen, pdus)?;
        let near = gap.place.saturating_add(TRIED_FIRST);
        let (_, first) = self.reach_below(&all, near)?;
        if near >= self.packets.len() || !first.is_open() || first.place < near {
            return Ok(first);
        }
        let (_, whole) = self.reach_below(&all, self.packets.len())?;
        Ok(whole)
    }

    // The best way to fill a gap by PDUs of which the first is of this type.
    fn try_kind(
        self,
        chosen: &[Supposed],
        scene: &Scene,
        gap: &Gap,
        kind: Kind,
    ) -> Result<Option<Tried>, Fault> {
        let mut best: Option<Tried> = None;
        for pdus in candidates(self.alloc, gap, scene, kind)? {
            let reach = self.reach_with(chosen, gap, &pdus)?;
            let place = reach.place;
            let is_better = match &best {
                Some(tried) => place > tried.reach,
                None => true,
            };
            if is_better {
                best = Some(Tried {
                    kind,
                    reach: place,
                    pdus,
                });
            }
            if reach.is_open() {
                break;
            }
        }
        Ok(best)
    }

    // For each type the best way to fill a gap.
    fn try_all(self, chosen: &[Supposed], scene: &Scene, gap: &Gap) -> Result<Vec<Tried>, Fault> {
        let mut tried = Vec::new(self.alloc);
        for kind in KINDS {
            if let Some(way) = self.try_kind(chosen, scene, gap, kind)? {
                match tried.push(way) {
                    Ok(()) => {}
                    Err(error) => return Err(AllocError::from(error).into()),
                }
            }
        }
        Ok(tried)
    }

    // Fills the next gap behind what is chosen, in which at most so many PDUs may be missing, where packets are explained up
    // to the PDU before it; none where there is no such gap.
    fn fill(
        self,
        chosen: &[Supposed],
        mended: &Mended,
        reach: Reach,
        most: u32,
    ) -> Result<Option<Filled>, Fault> {
        let Some(gap) = gap_at(self.params, self.packets, mended, most) else {
            return Ok(None);
        };
        if reach.place <= shown_at(&mended.origins, gap.crossed_at) {
            return Ok(None);
        }
        let scene = scene_of(
            self.alloc,
            self.params,
            self.packets,
            mended,
            &gap,
            reach.place,
        )?;
        let tried = self.try_all(chosen, &scene, &gap)?;
        Ok(Some(Filled { gap, tried }))
    }

    // Tells how far packets are explained with what is found so far, and fills the next gap; whether there may be one more.
    fn fill_next(self, found: &mut Found, most: u32) -> Result<bool, Fault> {
        let (mended, reach) = self.reach_below(&found.pdus, self.packets.len())?;
        found.reach = reach.place;
        found.stop = reach.fault;
        let left = u32::try_from(found.pdus.len()).map_or(0, |chosen| most.saturating_sub(chosen));
        let Some(filled) = self.fill(&found.pdus, &mended, reach, left)? else {
            return Ok(false);
        };
        let is_chosen = choose(&mut found.pdus, &filled)?;
        match found.gaps.push(filled) {
            Ok(()) => Ok(is_chosen),
            Err(error) => Err(AllocError::from(error).into()),
        }
    }
}

// Chooses the best way to fill a gap, if one leads behind it.
fn choose(pdus: &mut Vec<Supposed>, filled: &Filled) -> Result<bool, AllocError> {
    match filled.best() {
        Some(best) if best.reach > filled.gap.place => {
            pdus.extend_from_slice(&best.pdus)?;
            Ok(true)
        }
        _ => Ok(false),
    }
}

/// Looks for at most so many PDUs that the tap may have missed, gap by gap. Refused by [`Fault::NO_MEMORY`] alone.
pub fn look_for(
    alloc: Global,
    params: &Params,
    packets: &[Taped],
    most: u32,
) -> Result<Found, Fault> {
    let search = Search {
        alloc,
        params,
        packets,
    };
    let mut found = Found {
        gaps: Vec::new(alloc),
        pdus: Vec::new(alloc),
        reach: 0,
        stop: None,
    };
    for _ in 0..=most {
        if !search.fill_next(&mut found, most)? {
            break;
        }
    }
    Ok(found)
}
