//! A table of the places of a list.
ghost use Rattle.std.specs.Prelude.{◌≡◌, ℕ, ◌+◌, ◌<◌, ◌^◌, length, [], Some, OnOk, nat_eq, if◌then◌else◌};
ghost use Rattle.rasta_check.specs.Capture.Lists.{marked};

use std::alloc::{AllocError, Global};

/// The position that stands at each place, where one does.
#[derive(Drop)]
pub(crate) struct PlaceTable {
    // One more than the position at the place, or 0.
    marks: Vec<u32>,
}

impl PlaceTable {
    pub(crate) fn new(alloc: Global) -> PlaceTable
        ensures { result.marks.items ≡ [] }
    {
        PlaceTable {
            marks: Vec::new(alloc),
        }
    }

    // Makes room for a place, where nothing stands yet.
    pub(crate) fn reserve(&mut self, place: u32) -> Result<(), AllocError>
        ensures room { OnOk result (place < length self.new.marks.items) }
        ensures same { (q : ℕ) → marked self.new.marks.items q ≡ marked self.old.marks.items q }
    {
        let needed = place as usize + 1;
        if self.marks.len() < needed {
            self.marks.resize(needed, 0)?;
        }
        Ok(())
    }

    // Puts a position at a place.
    pub(crate) fn mark(&mut self, place: u32, position: u32)
        requires room { place < length self.old.marks.items }
        requires small { position + 1 < 2 ^ 32 }
        ensures { (q : ℕ) → marked self.new.marks.items q
            ≡ (if nat_eq q place then Some position else marked self.old.marks.items q) }
    {
        self.marks[place as usize] = position + 1;
    }

    // The position at a place.
    pub(crate) fn position(&self, place: u32) -> Option<u32>
        ensures { result ≡ marked self.now.marks.items place }
    {
        self.marks.get(place as usize)?.checked_sub(1)
    }
}
