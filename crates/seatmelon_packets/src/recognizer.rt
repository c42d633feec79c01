//! What is found out of datagrams, of which copies follow each other.
ghost use Rattle.std.specs.Prelude.{◌≡◌, ◌<◌, ◌≤◌, ◌^◌, length, true};
ghost use Rattle.seatmelon_packets.specs.Features.{check_length_in, check_length_of, features_by, hash_of};

use crate::lengths::{Fits, NO_FITS, Trials};
use rasta_pdu::LastDatagram;
use rasta_pdu::fields::u16_at;
use rasta_pdu::layout::{PAYLOAD_AT, SAFETY_AT};
use std::alloc::Global;
use std::hash::{DefaultHasher, Hasher};
use std::marker::Model;

/// What takes a while to find out of a datagram: how it fits each length of the safety code, and its hash, by which
/// copies are compared.
#[derive(Clone, Copy)]
pub struct Features {
    pub fits: Fits,

    /// Of all its bytes.
    pub hash: u64,
}

/// Finds the features of datagrams. A PDU crosses on several channels, mostly one copy right behind the other, whose
/// features needn't be found again.
#[derive(Drop)]
pub struct Recognizer {
    trials: Trials,
    last: LastDatagram,

    // Of the datagram that is kept.
    features: Features,
}

impl Model for Recognizer {
    ghost use Rattle.seatmelon_packets.specs.declared.lengths.Trials.{Trials};
    ghost use Rattle.seatmelon_packets.specs.Recognizing.{IsKept};

    ghost Value = { Trials };

    ghost view = { λ r. r.trials };

    ghost invariant = { IsKept };
}

// The length of the check code that is left after a safety PDU of this length, which is at most 65,535.
pub fn check_length_in(safety: usize, rest: usize) -> Option<u8>
    requires { safety < 2 ^ 16 }
    ensures { result ≡ check_length_in safety rest }
{
    match rest {
        rest if rest == safety => Some(0),
        rest if rest == safety + 2 => Some(2),
        rest if rest == safety + 4 => Some(4),
        _ => None,
    }
}

// The length of a datagram's check code.
fn check_length(datagram: &[u8]) -> Option<u8>
    requires { 36 ≤ length datagram.now }
    ensures { result ≡ check_length_of datagram.now }
{
    let safety = usize::from(u16_at(datagram, SAFETY_AT));
    check_length_in(safety, datagram.len() - SAFETY_AT)
}

fn hash_of(bytes: &[u8]) -> u64
    ensures { result ≡ hash_of bytes.now }
{
    let mut hasher = DefaultHasher::new();
    hasher.write(bytes);
    hasher.finish()
}

/// The features of a datagram, which is hashed only where a length fits; none where none does.
#[tactic(auto, unfolding(crate::specs::Features::features_by))]
pub fn features_by(trials: &Trials, bytes: &[u8]) -> Option<Features>
    ensures { result ≡ features_by trials.now bytes.now }
{
    if bytes.len() < PAYLOAD_AT {
        return None;
    }
    let fits = trials.fits_of(bytes, check_length(bytes)?);
    if !fits.any() {
        return None;
    }
    Some(Features {
        fits,
        hash: hash_of(bytes),
    })
}

impl Recognizer {
    /// Nothing was found yet.
    pub fn new(alloc: Global) -> Recognizer {
        Recognizer {
            trials: Trials::new(),
            last: LastDatagram::new(alloc),
            features: Features {
                fits: NO_FITS,
                hash: 0,
            },
        }
    }

    /// The features of a datagram, as [`features_by`] finds them.
    pub fn features_of(&mut self, bytes: &[u8]) -> Option<Features>
        ensures value { result ≡ features_by self.old bytes.now }
        ensures trials { self.new ≡ self.old }
    {
        if self.last.is(bytes) {
            return Some(self.features);
        }
        let features = features_by(&self.trials, bytes)?;
        if self.last.keep(bytes) {
            self.features = features;
        }
        Some(features)
    }
}
