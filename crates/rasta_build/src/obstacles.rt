//! What a pass over both sent lists can't get over.
ghost use Rattle.std.specs.Prelude.{◌≡◌};
ghost use Rattle.rasta_build.specs.Stopping.{fault_of_stop};

use crate::rules::Rule;
use rasta_pdu::{Fault, Side};

/// A first copy that no end makes where it crossed: its side, its place from 0, and the rule that refuses it.
#[derive(Clone, Copy, PartialEq, Eq)]
pub struct Obstacle {
    pub side: Side,
    pub place: u32,
    pub rule: Rule,
}

/// Why a pass can't go on.
#[derive(Drop)]
pub(crate) enum Stop {
    OutOfMemory,
    Blocked(Obstacle),
}

impl Stop {
    /// The fault by which nothing is proposed.
    pub(crate) fn fault(&self) -> Fault
        ensures { result ≡ fault_of_stop self.now }
    {
        match self {
            Stop::Blocked(met) => Fault::at(Fault::NOT_FOUND, met.place.saturating_add(1)),
            Stop::OutOfMemory => Fault::no_memory(),
        }
    }
}
