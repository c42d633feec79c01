//! Working out what a report lists: the messages that an end surely took of its peer.
ghost use Rattle.std.specs.Prelude.{◌≡◌, ◌++◌, ◌∷◌, [], List, length, map, slice_get, IfOk, OnOk};
ghost use Rattle.rasta_pdu.specs.Pdu.{value_of, messages_in};
ghost use Rattle.rasta_check.specs.Capture.SentLists.{FirstCopy};
ghost use Rattle.rasta_check.specs.Capture.Lists.{copy_of};
ghost use Rattle.rasta_check.specs.Verdict.Listed.{messages_of_unit, messages_taken, listed_of, numbered_from};
ghost use Rattle.rasta_check.specs.Internals.Listing.{listed_with, proofs_from, proved_units, shown_by, with_proofs};

use crate::report::{Taken, TakenList};
use crate::sent_list::SentList;
use rasta_end::End;
use rasta_pdu::{Kind, Pdu};
use std::alloc::{AllocError, Global};

// How many units a PDU of the peer shows; a connection request shows none.
fn units_shown(end: &End, pdu: &Pdu) -> usize
    ensures { result ≡ shown_by end.now.state (value_of pdu.now).safety }
{
    match pdu.kind() {
        Kind::ConnectionRequest => 0,
        _ => end.units_confirmed(pdu.cs()),
    }
}

// The place is the proof of each further unit of so many.
fn add_proofs(places: &mut Vec<u32>, shown: usize, place: u32) -> Result<(), AllocError>
    ensures { OnOk result (places.new.items ≡ with_proofs places.old.items shown place) }
{
    if places.len() < shown {
        places.resize(shown, place)?;
    }
    Ok(())
}

/// The places of the PDUs of the peer that prove the units of an end, unit by unit. The only error is out of memory.
pub(crate) fn proof_places<'a, S: SentList<'a>>(
    alloc: Global,
    end: &End,
    peer: &S,
) -> Result<Vec<u32>, AllocError>
    ensures { IfOk result (λ places. places.items ≡ proofs_from end.now.state [] (S.content peer.now)) }
{
    let mut places = Vec::new(alloc);
    for position in 0..peer.len() {
        if let Some((place, pdu)) = peer.get(position) {
            add_proofs(&mut places, units_shown(end, &pdu), place)?;
        }
    }
    Ok(places)
}

// Lists the messages of a unit.
fn add_messages<'a>(
    items: &mut Vec<Taken<'a>>,
    pdu: &Pdu<'a>,
    data_index: u32,
    proof_index: u32,
) -> Result<(), AllocError>
    ensures { OnOk result (map listed_of items.new.items ≡ map listed_of items.old.items
        ++ numbered_from (length items.old.items)
        (messages_of_unit (record { messages = messages_in (value_of pdu.now).safety.body; data_place = data_index; proof_place = proof_index }))) }
{
    for bytes in pdu.messages() {
        items.push(Taken {
            message: items.len() as u64,
            data_index,
            proof_index,
            bytes,
        })?;
    }
    Ok(())
}

// The place of the proof of a unit.
fn proof_at(proofs: &[u32], unit: usize) -> Option<u32>
    ensures { result ≡ slice_get proofs.now unit }
{
    proofs.get(unit).copied()
}

// Lists the unit of a first copy, where it is a data PDU that has a proof. Answers the number of the next.
#[tactic(auto, using(crate::proofs::Verdict::ListSteps::other_copy, crate::proofs::Verdict::ListSteps::unproved_copy))]
fn add_unit<'a>(
    items: &mut Vec<Taken<'a>>,
    place: u32,
    pdu: &Pdu<'a>,
    proofs: &[u32],
    unit: usize,
) -> Result<usize, AllocError>
    ensures { IfOk result (λ next. (copies : List FirstCopy)
        → map listed_of items.new.items ++ numbered_from (length items.new.items) (messages_taken (proved_units proofs.now next copies))
        ≡ map listed_of items.old.items ++ numbered_from (length items.old.items) (messages_taken (proved_units proofs.now unit (copy_of (place, pdu.now) ∷ copies)))) }
{
    if !pdu.kind().is(Kind::Data) {
        return Ok(unit);
    }
    match proof_at(proofs, unit) {
        Some(proof) => {
            add_messages(items, pdu, place, proof)?;
            Ok(unit + 1)
        }
        None => Ok(unit),
    }
}

// The messages of the units that have a proof, in order.
#[tactic(auto, using(crate::proofs::Verdict::ListSteps::units_left, crate::proofs::Verdict::ListSteps::units_end, crate::proofs::Verdict::ListSteps::listing_ends, crate::proofs::Lists::none_within))]
fn messages_with<'a, S: SentList<'a>>(
    alloc: Global,
    own: &S,
    proofs: &[u32],
) -> Result<Vec<Taken<'a>>, AllocError>
    ensures { IfOk result (λ items. map listed_of items.items ≡ numbered_from 0 (messages_taken (proved_units proofs.now 0 (S.content own.now)))) }
{
    let mut items = Vec::new(alloc);
    let mut unit = 0;
    for position in 0..own.len() {
        if let Some((place, pdu)) = own.get(position) {
            unit = add_unit(&mut items, place, &pdu, proofs, unit)?;
        }
    }
    Ok(items)
}

/// The messages of an end that its peer surely took, by the places of their proofs. The only error is out of memory.
pub(crate) fn taken_list<'a, S: SentList<'a>>(
    alloc: Global,
    own: &S,
    proofs: &[u32],
) -> Result<TakenList<'a>, AllocError>
    ensures { IfOk result (λ l. l ≡ listed_with proofs.now (S.content own.now)) }
{
    let items = messages_with(alloc, own, proofs)?;
    Ok(TakenList::of(items))
}
