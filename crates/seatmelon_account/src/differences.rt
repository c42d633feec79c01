//! How a datagram differs from what is due.
ghost use Rattle.std.specs.Prelude.{◌≡◌, ◌++◌, List, length, take};
ghost use Rattle.seatmelon_account.specs.Differences.{difference_at, differing};
ghost use Rattle.seatmelon_account.specs.declared.differences.Difference.{Difference};
ghost use Rattle.seatmelon_account.specs.Troubles.{TellsCodes};

use arrayvec::ArrayVec;
use rasta_pdu::{Coded, Params, coded_in};

/// The safety code of a datagram, and the digest whose first bytes are due in its place.
#[derive(Clone, Copy)]
pub struct Codes<'a> {
    pub found: &'a [u8],
    digest: [u8; 16],
}

impl Codes<'_> {
    /// The code that is due.
    pub fn due(&self) -> &[u8]
        ensures { result.now ≡ take (length self.now.found.now) self.now.digest }
    {
        &self.digest[..self.found.len().min(self.digest.len())]
    }
}

/// The safety code that a datagram has, and the one that is due, if the datagram is long enough.
pub fn codes_in<'a>(params: &Params, datagram: &'a [u8]) -> Option<Codes<'a>>
    ensures { TellsCodes params.now datagram.now result }
{
    let Coded { covered, code } = coded_in(params, datagram)?;
    Some(Codes {
        found: code,
        digest: rasta_md4::digest(params.md4_start(), covered),
    })
}

// The most bytes that are told of those that differ.
const MOST_TOLD: usize = 16;

/// A byte in which a datagram differs from its first copy.
#[derive(Clone, Copy, Default)]
pub struct Difference {
    pub at: usize,
    pub byte: u8,
    pub first: u8,
}

/// In which bytes a datagram differs from its first copy, the first 16 of them.
pub type Differences = ArrayVec<Difference, MOST_TOLD>;

// Notes the bytes of both at a place, if they differ, and there is room.
fn note(told: &mut Differences, at: usize, byte: u8, first: u8)
    ensures { (all : List Difference) → told.old.items ≡ take 16 all → told.new.items ≡ take 16 (all ++ difference_at at byte first) }
{
    if byte == first {
        return;
    }
    if told.is_full() {
        return;
    }
    told.push(Difference { at, byte, first });
}

/// In which bytes a datagram differs from its first copy.
pub fn differences(datagram: &[u8], first: &[u8]) -> Differences
    ensures { result.items ≡ take 16 (differing 0 datagram.now first.now) }
{
    let mut differences = ArrayVec::new();
    for at in 0..datagram.len().min(first.len()) {
        note(&mut differences, at, datagram[at], first[at]);
    }
    differences
}
