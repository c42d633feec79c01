//! What is supposed of a capture, as a hypothesis.
ghost use Rattle.std.specs.Prelude.{◌≡◌, ◌∷◌, ◌++◌, [], ℕ, List, map, IfErr, IfOk, OnOk};
ghost use Rattle.rasta_pcap.specs.Fault.{no_memory};
ghost use Rattle.rasta_pdu.specs.Params.{Parameters};
ghost use Rattle.seatmelon_reading.specs.Tapes.{NumberedPacket, taped_as};
ghost use Rattle.seatmelon_suppose.specs.Supposition.{AddsJudged, IsSupposition};

use crate::common::common;
use crate::filling::{Filling, Listed, judge_filling};
use crate::search::{Filled, Found, Tried, look_for};
use crate::sent::{SentMessage, sent_by};
use crate::supposed::Supposed;
use rasta_pcap::{Fault, Side};
use rasta_pdu::Params;
use seatmelon_reading::Taped;
use std::alloc::{AllocError, Global};

/// The messages of an end.
#[derive(Drop)]
pub struct Messages {
    /// All that it sent by the first filling, in order.
    pub sent: Vec<SentMessage>,

    /// The first ones of captured data, which were surely taken under each filling.
    pub taken: Vec<Listed>,
}

/// What is supposed of a capture.
#[derive(Drop)]
pub struct Supposition {
    /// The gaps that were filled, in their order, and the one at last that was tried in vain, if there is one.
    pub gaps: Vec<Filled>,

    /// The fillings with which all packets are explained, the best first; none where packets aren't.
    pub fillings: Vec<Filling>,

    pub client: Messages,
    pub server: Messages,

    /// Up to where packets are explained with the best ways to fill the gaps, and the fault that stops it there.
    pub reach: usize,
    pub stop: Option<Fault>,
}

// Adds a filling.
fn add(fillings: &mut Vec<Filling>, filling: Filling) -> Result<(), AllocError>
    ensures { OnOk result (fillings.new.items ≡ fillings.old.items ++ filling ∷ []) }
{
    match fillings.push(filling) {
        Ok(()) => Ok(()),
        Err(error) => Err(AllocError::from(error)),
    }
}

// The ways to fill the gaps of packets, by so many PDUs at most.
#[derive(Clone, Copy)]
struct Ways<'a> {
    alloc: Global,
    params: &'a Params,
    packets: &'a [Taped],
    most: u32,
    gaps: &'a [Filled],
}

impl Ways<'_> {
    // The PDUs of the best ways, but for one gap, which is filled by this way.
    fn pdus_with(self, number: usize, way: &Tried) -> Result<Vec<Supposed>, AllocError> {
        let mut pdus = Vec::new(self.alloc);
        for (at, gap) in self.gaps.iter().enumerate() {
            if at == number {
                pdus.extend_from_slice(&way.pdus)?;
            } else if let Some(best) = gap.best() {
                pdus.extend_from_slice(&best.pdus)?;
            }
        }
        Ok(pdus)
    }

    // Adds the filling in which a gap is filled by this way, if that isn't the best and packets are explained then.
    fn add_way(
        self,
        number: usize,
        gap: &Filled,
        way: &Tried,
        fillings: &mut Vec<Filling>,
    ) -> Result<(), Fault>
        ensures { OnOk result (AddsJudged self.entry.params.now (map taped_as self.entry.packets.now) self.entry.most
            fillings.old.items fillings.new.items) }
    {
        if !gap.is_other(way) {
            return Ok(());
        }
        let pdus = self.pdus_with(number, way)?;
        let Some(judged) = judge_filling(self.alloc, self.params, self.packets, self.most, pdus)?
        else {
            return Ok(());
        };
        add(fillings, judged.into_filling())?;
        Ok(())
    }

    // Adds the fillings in which a gap is filled by another way than the best.
    fn add_others(
        self,
        number: usize,
        gap: &Filled,
        fillings: &mut Vec<Filling>,
    ) -> Result<(), Fault>
        ensures { OnOk result (AddsJudged self.entry.params.now (map taped_as self.entry.packets.now) self.entry.most
            fillings.old.items fillings.new.items) }
    {
        for way in &gap.tried {
            self.add_way(number, gap, way, fillings)?;
        }
        Ok(())
    }

    // The fillings, of which this is the first.
    fn fillings(self, first: Filling) -> Result<Vec<Filling>, Fault>
        ensures { IfOk result (λ fillings. AddsJudged self.entry.params.now (map taped_as self.entry.packets.now) self.entry.most
            (first ∷ []) fillings.items) }
    {
        let mut fillings = Vec::new(self.alloc);
        add(&mut fillings, first)?;
        for (number, gap) in self.gaps.iter().enumerate() {
            self.add_others(number, gap, &mut fillings)?;
        }
        Ok(fillings)
    }
}

// Of no filling.
fn unfilled(alloc: Global, found: Found) -> Supposition
    ensures { (p : Parameters) (packets : List NumberedPacket) (most : ℕ) → IsSupposition p packets most result }
{
    let Found {
        gaps,
        reach,
        stop,
        ..
    } = found;
    Supposition {
        gaps,
        fillings: Vec::new(alloc),
        client: Messages {
            sent: Vec::new(alloc),
            taken: Vec::new(alloc),
        },
        server: Messages {
            sent: Vec::new(alloc),
            taken: Vec::new(alloc),
        },
        reach,
        stop,
    }
}

// What explains a capture if the tap missed at most so many PDUs.
fn supposed(
    alloc: Global,
    params: &Params,
    packets: &[Taped],
    most: u32,
) -> Result<Supposition, Fault>
    ensures { IfOk result (IsSupposition params.now (map taped_as packets.now) most) }
{
    let found = look_for(alloc, params, packets, most)?;
    if found.pdus.is_empty() {
        return Ok(unfilled(alloc, found));
    }
    let mut pdus = Vec::new(alloc);
    pdus.extend_from_slice(&found.pdus)?;
    let Some(first) = judge_filling(alloc, params, packets, most, pdus)? else {
        return Ok(unfilled(alloc, found));
    };
    let client_sent = sent_by(alloc, &first, Side::Client)?;
    let server_sent = sent_by(alloc, &first, Side::Server)?;
    let ways = Ways {
        alloc,
        params,
        packets,
        most,
        gaps: &found.gaps,
    };
    let fillings = ways.fillings(first.into_filling())?;
    let client = common(alloc, &fillings, Side::Client)?;
    let server = common(alloc, &fillings, Side::Server)?;
    Ok(Supposition {
        gaps: found.gaps,
        fillings,
        client: Messages {
            sent: client_sent,
            taken: client,
        },
        server: Messages {
            sent: server_sent,
            taken: server,
        },
        reach: found.reach,
        stop: found.stop,
    })
}

/// What explains a capture if the tap missed at most so many PDUs, as far as a search finds it. Refused by
/// [`Fault::NO_MEMORY`] alone.
pub fn suppose(
    alloc: Global,
    params: &Params,
    packets: &[Taped],
    most: u32,
) -> Result<Supposition, Fault>
    ensures supposed { IfOk result (IsSupposition params.now (map taped_as packets.now) most) }
    ensures err { IfErr result (λ f. f ≡ no_memory) }
{
    match supposed(alloc, params, packets, most) {
        Ok(supposition) => Ok(supposition),
        // Nothing else can fail.
        Err(_) => Err(Fault::no_memory()),
    }
}
