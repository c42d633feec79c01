//! What explains a capture together with supposed PDUs.
ghost use Rattle.std.specs.Prelude.{◌≡◌, ◌↔◌, ℕ, All, IsTrue, List, map, IfOk, IfSome, IfErr, OnOk};
ghost use Rattle.rasta_pcap.specs.Fault.{no_memory};
ghost use Rattle.rasta_check.specs.Verdict.Listed.{listed_of};
ghost use Rattle.rasta_pdu.specs.Params.{Parameters};
ghost use Rattle.seatmelon_reading.specs.Tapes.{NumberedPacket, taped_as};
ghost use Rattle.seatmelon_suppose.specs.Filling.{Adds, AreLists, IsFilling, IsInside, IsJudged, MayBeJudged, captured_messages, first_captured, origin_at, shown_at};

use crate::mending::{Mended, mend};
use crate::supposed::Supposed;
use rasta_build::propose_lists;
use rasta_cert::Certificate;
use rasta_check::{Store, Taken, check_store};
use rasta_pcap::Fault;
use rasta_pdu::Params;
use seatmelon_reading::Taped;
use std::alloc::{AllocError, Global};

/// A message of captured data that was surely taken.
#[derive(Clone, Copy)]
pub struct Listed {
    /// The place of the captured packet of its data.
    pub data: usize,

    /// The place of the captured packet that proves it, or of the one just behind a supposed PDU that does.
    pub proof: usize,
}

/// PDUs with which the packets are explained, and what is surely taken then.
#[derive(Drop)]
pub struct Filling {
    pub pdus: Vec<Supposed>,

    /// The messages of captured data that were surely taken, of those that the client sent and of those that the server sent.
    pub client: Vec<Listed>,
    pub server: Vec<Listed>,
}

/// A filling, and what crossed with it.
#[derive(Drop)]
pub struct Judged {
    pub filling: Filling,
    pub store: Store,

    /// Where each packet that crossed was captured; none of a supposed PDU.
    pub origins: Vec<Option<usize>>,
}

impl Judged {
    /// The filling alone.
    pub fn into_filling(self) -> Filling
        ensures same { result ≡ self.filling }
        ensures judged { (p : Parameters) (packets : List NumberedPacket) (most : ℕ) → IsJudged p packets most self
            → IsFilling p packets most result }
    {
        let Judged { filling, .. } = self;
        filling
    }
}

/// Where the packet at a place among all that crossed was captured; none of a supposed PDU.
pub fn origin_at(origins: &[Option<usize>], place: u32) -> Option<usize>
    ensures { result ≡ origin_at origins.now place }
{
    *origins.get(place as usize)?
}

// The first of these places; 0 where there is none.
fn first_captured(origins: &[Option<usize>]) -> usize
    ensures { result ≡ first_captured origins.now }
{
    for origin in origins {
        if let Some(place) = origin {
            return *place;
        }
    }
    0
}

/// Where the packet at a place was captured, or else the next captured one; 0 where none is behind it.
pub fn shown_at(origins: &[Option<usize>], place: u32) -> usize
    ensures { result ≡ shown_at origins.now place }
{
    let passed = origins.len().min(place as usize);
    first_captured(&origins[passed..])
}

// Adds a message that was surely taken, if its data was captured.
fn add_captured(
    listed: &mut Vec<Listed>,
    origins: &[Option<usize>],
    taken: &Taken<'_>,
) -> Result<(), AllocError>
    ensures { OnOk result (Adds origins.now taken.now listed.old.items listed.new.items) }
{
    if let Some(data) = origin_at(origins, taken.data_index) {
        let proof = shown_at(origins, taken.proof_index);
        listed.push(Listed { data, proof })?;
    }
    Ok(())
}

// The messages of captured data among those that were surely taken.
fn captured_among(
    alloc: Global,
    origins: &[Option<usize>],
    taken: &[Taken<'_>],
) -> Result<Vec<Listed>, AllocError>
    ensures { IfOk result (λ listed. listed.items ≡ captured_messages origins.now (map listed_of taken.now)) }
{
    let mut listed = Vec::new(alloc);
    for one in taken {
        add_captured(&mut listed, origins, one)?;
    }
    Ok(listed)
}

// The scripts that are proposed for what crossed, if any are.
fn proposed(alloc: Global, store: &Store) -> Result<Option<Certificate>, Fault>
    ensures err { IfErr result (λ f. f ≡ no_memory) }
{
    let params = store.params();
    match propose_lists(
        alloc,
        &params,
        store.len(),
        &store.client(),
        &store.server(),
    ) {
        Ok(certificate) => Ok(Some(certificate)),
        Err(fault) if fault.number == Fault::NO_MEMORY => Err(Fault::no_memory()),
        Err(_) => Ok(None),
    }
}

// What is surely taken of the messages of the client and of the server, where scripts explain what crossed.
#[derive(Drop)]
struct Lists {
    client: Vec<Listed>,
    server: Vec<Listed>,
}

fn checked(
    alloc: Global,
    mended: &Mended,
    certificate: &Certificate,
) -> Result<Option<Lists>, Fault>
    ensures { IfOk result (λ lists. IfSome lists (AreLists mended.now.store mended.now.origins.items)) }
{
    let params = mended.store.params();
    let report = match check_store(alloc, &params, &mended.store, certificate) {
        Ok(report) => report,
        Err(fault) if fault.number == Fault::NO_MEMORY => return Err(fault),
        Err(_) => return Ok(None),
    };
    Ok(Some(Lists {
        client: captured_among(alloc, &mended.origins, report.server_taken.as_slice())?,
        server: captured_among(alloc, &mended.origins, report.client_taken.as_slice())?,
    }))
}

// Whether each PDU is supposed before a captured packet.
fn are_inside(packets: &[Taped], pdus: &[Supposed]) -> bool
    ensures { IsTrue result ↔ All (IsInside (map taped_as packets.now)) pdus.now }
{
    pdus.iter().all(|supposed| supposed.before < packets.len())
}

// Whether so many PDUs at most are supposed, each before a captured packet.
fn may_be_judged(packets: &[Taped], most: u32, pdus: &[Supposed]) -> bool
    ensures { IsTrue result ↔ MayBeJudged (map taped_as packets.now) most pdus.now }
{
    pdus.len() <= most as usize && are_inside(packets, pdus)
}

/// What is surely taken where these PDUs were missed, so many at most, if the packets are explained together with them.
/// Refused by [`Fault::NO_MEMORY`] alone.
pub fn judge_filling(
    alloc: Global,
    params: &Params,
    packets: &[Taped],
    most: u32,
    pdus: Vec<Supposed>,
) -> Result<Option<Judged>, Fault>
    ensures { IfOk result (λ judged. IfSome judged (IsJudged params.now (map taped_as packets.now) most)) }
{
    if !may_be_judged(packets, most, &pdus) {
        return Ok(None);
    }
    let mended = mend(alloc, params, packets, packets, &pdus)?;
    if mended.stop.is_some() {
        return Ok(None);
    }
    let Some(certificate) = proposed(alloc, &mended.store)? else {
        return Ok(None);
    };
    let Some(lists) = checked(alloc, &mended, &certificate)? else {
        return Ok(None);
    };
    let Mended { store, origins, .. } = mended;
    let Lists { client, server } = lists;
    let filling = Filling {
        pdus,
        client,
        server,
    };
    Ok(Some(Judged {
        filling,
        store,
        origins,
    }))
}
