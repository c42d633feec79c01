//! What is surely taken under every filling.
ghost use Rattle.std.specs.Prelude.{◌≡◌, ◌≤◌, ◌⊎◌, ◌∷◌, IfOk};
ghost use Rattle.seatmelon_suppose.specs.Common.{IsCommon, IsInBoth, listed_by};

use crate::filling::{Filling, Listed};
use rasta_pcap::Side;
use std::alloc::{AllocError, Global};

// The messages of an end that are listed under a filling.
fn listed_by(filling: &Filling, sender: Side) -> &[Listed]
    ensures { result.now ≡ listed_by sender filling.now }
{
    match sender {
        Side::Client => &filling.client,
        Side::Server => &filling.server,
    }
}

// A message that two lists have, with the later of its proofs.
fn later(one: Listed, two: Listed) -> Listed
    ensures data { result.data ≡ one.data }
    ensures first { one.proof ≤ result.proof }
    ensures second { two.proof ≤ result.proof }
    ensures either { (result.proof ≡ one.proof) ⊎ (result.proof ≡ two.proof) }
{
    Listed {
        data: one.data,
        proof: one.proof.max(two.proof),
    }
}

// The first messages of both lists, as far as they are the same, each with the later of its proofs.
fn both(alloc: Global, first: &[Listed], other: &[Listed]) -> Result<Vec<Listed>, AllocError>
    ensures { IfOk result (λ both. IsInBoth first.now other.now both.items) }
{
    let mut both = Vec::new(alloc);
    for place in 0..first.len().min(other.len()) {
        let one = first[place];
        let two = other[place];
        if one.data != two.data {
            return Ok(both);
        }
        both.push(later(one, two))?;
    }
    Ok(both)
}

// The same of these fillings, which are one at least.
fn common_to(
    alloc: Global,
    first: &Filling,
    others: &[Filling],
    sender: Side,
) -> Result<Vec<Listed>, AllocError>
    ensures { IfOk result (λ told. IsCommon sender (first.now ∷ others.now) told.items) }
{
    let listed = listed_by(first, sender);
    let mut told = both(alloc, listed, listed)?;
    for filling in others {
        told = both(alloc, &told, listed_by(filling, sender))?;
    }
    Ok(told)
}

/// The first messages of captured data of an end that were surely taken, as far as they are the same under each of these
/// fillings, each with the latest of its proofs; none without a filling.
pub fn common(alloc: Global, fillings: &[Filling], sender: Side) -> Result<Vec<Listed>, AllocError>
    ensures { IfOk result (λ told. IsCommon sender fillings.now told.items) }
{
    match fillings.split_first() {
        Some((first, others)) => common_to(alloc, first, others, sender),
        None => Ok(Vec::new(alloc)),
    }
}
