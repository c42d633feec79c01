//! A sent list in a map.
ghost use Rattle.std.specs.Prelude.{◌≡◌, ◌+◌, ◌<◌, ◌^◌, [], ◌∷◌, ◌++◌, List, length, option_map, OnOk, OnErr};
ghost use Rattle.std.specs.Map.{keys_of};
ghost use Rattle.rasta_check.specs.Capture.SentLists.{FirstCopy};
ghost use Rattle.rasta_check.specs.Capture.PacketFaults.{copy_with};
ghost use Rattle.rasta_check.specs.Capture.Lists.{AreMarks, IsOrdered, copies_in, copy_of, numbers_of};

use crate::place_table::PlaceTable;
use crate::sent_list::{FirstCopy, SentList};
use indexmap::IndexMap;
use rasta_pdu::Pdu;
use std::alloc::{AllocError, Global};
use std::marker::Model;

/// A sent list as a map from redundancy number to first copy, in the order of crossing.
#[derive(Drop)]
pub struct MapList<'a> {
    copies: IndexMap<u32, FirstCopy<'a>>,
    places: PlaceTable,
}

impl<'a> Model for MapList<'a> {
    ghost Value = { List FirstCopy };

    ghost view = { λ l. copies_in l.copies.entries };

    ghost invariant = { λ l. (keys_of l.copies.entries ≡ numbers_of (copies_in l.copies.entries))
        × IsOrdered (copies_in l.copies.entries) × AreMarks (copies_in l.copies.entries) l.places.marks.items
        × (length l.copies.entries < 2 ^ 32) };
}

impl<'a> MapList<'a> {
    /// A list without members.
    pub fn new(alloc: Global) -> MapList<'a>
        ensures { result ≡ [] }
    {
        MapList {
            copies: IndexMap::new(alloc),
            places: PlaceTable::new(alloc),
        }
    }

    // The place of the first copy with a redundancy number.
    pub(crate) fn place_of(&self, number: u32) -> Option<u32>
        ensures { result ≡ option_map (λ (c : FirstCopy). c.place) (copy_with self.now number) }
    {
        match self.copies.get(&number) {
            Some(copy) => Some(copy.0),
            None => None,
        }
    }

    // Adds a first copy after the others. Without memory for it the list stays as it was.
    pub(crate) fn push(&mut self, place: u32, pdu: Pdu<'a>) -> Result<(), AllocError>
        requires ordered { IsOrdered (self.old ++ copy_of (place, pdu) ∷ []) }
        requires few { length self.old + 1 < 2 ^ 32 }
        ensures ok { OnOk result (self.new ≡ self.old ++ copy_of (place, pdu.entry) ∷ []) }
        ensures err { OnErr result (self.new ≡ self.old) }
    {
        let position = self.copies.len() as u32;
        self.places.reserve(place)?;
        let Ok(_) = self.copies.insert(pdu.number(), (place, pdu)) else {
            return Err(AllocError);
        };
        self.places.mark(place, position);
        Ok(())
    }
}

impl<'a> SentList<'a> for MapList<'a> {
    ghost content = { λ l. l };

    fn len(&self) -> u32 {
        self.copies.len() as u32
    }

    fn get(&self, position: u32) -> Option<FirstCopy<'a>> {
        let (_, copy) = self.copies.get_index(position as usize)?;
        Some(*copy)
    }

    fn position_of(&self, number: u32) -> Option<u32> {
        let position = self.copies.get_index_of(&number)?;
        Some(position as u32)
    }

    fn at_place(&self, place: u32) -> Option<u32> {
        self.places.position(place)
    }
}
