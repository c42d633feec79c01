//! The datagram by which a copy is known.
ghost use Rattle.std.specs.Prelude.{◌≡◌, ◌≢◌, ◌⊎◌, ◌↔◌, [], IsTrue, true, false};

use crate::fields::u32_at;
use crate::layout::{NUMBER_AT, SAFETY_AT};
use std::alloc::Global;
use std::marker::Model;

/// One datagram, by which its copies are known: a PDU crosses on several channels, mostly one copy right behind the
/// other. A datagram is copied only where copies were met, so that nothing is spent where each comes once.
#[derive(Drop)]
pub struct LastDatagram {
    // None is kept where they are empty.
    bytes: Vec<u8>,

    // The redundancy number of the datagram that was offered last.
    met: u32,

    // Whether a copy came of the datagram before. It begins as true, so that the first one is kept.
    came_again: bool,
}

impl Model for LastDatagram {
    ghost use Rattle.std.specs.Prelude.{List, ℕ};

    ghost Value = { List ℕ };

    ghost view = { λ d. d.bytes.items };
}

// Whether these may be one datagram: a byte of the redundancy number tells a datagram from most others.
#[inline]
fn may_be_one(kept: &[u8], bytes: &[u8]) -> bool
    ensures { kept.now ≡ bytes.now → result ≡ true }
{
    kept.get(NUMBER_AT).copied() == bytes.get(NUMBER_AT).copied()
}

// Whether this is the datagram that is kept.
#[inline]
fn is_kept(kept: &[u8], bytes: &[u8]) -> bool
    ensures { IsTrue result ↔ ((kept.now ≢ []) × (kept.now ≡ bytes.now)) }
{
    may_be_one(kept, bytes) && !kept.is_empty() && kept == bytes
}

// The redundancy number; 0 where the datagram is too short for one.
#[inline]
fn number_of(bytes: &[u8]) -> u32 {
    if bytes.len() < SAFETY_AT {
        return 0;
    }
    u32_at(bytes, NUMBER_AT)
}

// Puts a copy in place of what was kept, and answers whether there was memory for it.
fn copy(kept: &mut Vec<u8>, bytes: &[u8]) -> bool
    ensures kept { result ≡ true → kept.new.items ≡ bytes.now }
    ensures no_memory { result ≡ false → kept.new.items ≡ [] }
{
    kept.clear();
    if kept.extend_from_slice(bytes).is_err() {
        kept.clear();
        return false;
    }
    true
}

impl LastDatagram {
    /// None is kept yet.
    pub fn new(alloc: Global) -> LastDatagram
        ensures { result ≡ [] }
    {
        LastDatagram {
            bytes: Vec::new(alloc),
            met: 0,
            came_again: true,
        }
    }

    /// Whether this is the datagram that is kept. An empty one never is.
    #[inline]
    pub fn is(&mut self, bytes: &[u8]) -> bool
        ensures value { IsTrue result ↔ ((self.old ≢ []) × (self.old ≡ bytes.now)) }
        ensures unchanged { self.new ≡ self.old }
    {
        let is_kept = is_kept(&self.bytes, bytes);
        self.came_again |= is_kept;
        is_kept
    }

    /// Offers a datagram that isn't the kept one, and answers whether it is kept now. It is where a copy came of the
    /// datagram offered before, or this one has the redundancy number of that; else it isn't copied.
    #[inline]
    pub fn keep(&mut self, bytes: &[u8]) -> bool
        ensures kept { result ≡ true → self.new ≡ bytes.now }
        ensures not_kept { result ≡ false → (self.new ≡ self.old) ⊎ (self.new ≡ []) }
    {
        let number = number_of(bytes);
        let is_same = number == self.met;
        let copies = self.came_again || is_same;
        self.came_again = is_same;
        self.met = number;
        if !copies {
            return false;
        }
        copy(&mut self.bytes, bytes)
    }
}
