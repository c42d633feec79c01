//! A sent list in one vector.
ghost use Rattle.std.specs.Prelude.{◌≡◌, ◌+◌, ◌<◌, ◌^◌, [], ◌∷◌, ◌++◌, List, length, map, IfOk, OnOk, OnErr};
ghost use Rattle.rasta_check.specs.Capture.SentLists.{FirstCopy};
ghost use Rattle.rasta_check.specs.Capture.Lists.{AreMarks, IsOrdered, copy_of};

use crate::place_table::PlaceTable;
use crate::sent_list::{FirstCopy, SentList};
use rasta_pdu::Pdu;
use std::alloc::{AllocError, Global};
use std::marker::Model;

/// A sent list as a vector: the position of a number is its distance from the first number.
#[derive(Drop)]
pub struct DenseList<'a> {
    copies: Vec<FirstCopy<'a>>,
    places: PlaceTable,
}

impl<'a> Model for DenseList<'a> {
    ghost Value = { List FirstCopy };

    ghost view = { λ l. map copy_of l.copies.items };

    ghost invariant = { λ l. IsOrdered (map copy_of l.copies.items) × AreMarks (map copy_of l.copies.items) l.places.marks.items
        × (length l.copies.items < 2 ^ 32) };
}

impl<'a> DenseList<'a> {
    /// A list without members.
    pub fn new(alloc: Global) -> DenseList<'a>
        ensures { result ≡ [] }
    {
        DenseList {
            copies: Vec::new(alloc),
            places: PlaceTable::new(alloc),
        }
    }

    /// The members of any sent list.
    #[tactic(auto, using(crate::proofs::Capture::Positions::ordered_take, crate::proofs::Lists::one_more))]
    pub fn of<S: SentList<'a>>(alloc: Global, list: &S) -> Result<DenseList<'a>, AllocError>
        ensures { IfOk result (λ l. l ≡ S.content list.now) }
    {
        let mut dense = DenseList::new(alloc);
        for position in 0..list.len() {
            if let Some((place, pdu)) = list.get(position) {
                dense.push(place, pdu)?;
            }
        }
        Ok(dense)
    }

    // Adds a first copy after the others. Without memory for it the list stays as it was.
    pub(crate) fn push(&mut self, place: u32, pdu: Pdu<'a>) -> Result<(), AllocError>
        requires ordered { IsOrdered (self.old ++ copy_of (place, pdu) ∷ []) }
        requires few { length self.old + 1 < 2 ^ 32 }
        ensures ok { OnOk result (self.new ≡ self.old ++ copy_of (place, pdu.entry) ∷ []) }
        ensures err { OnErr result (self.new ≡ self.old) }
    {
        self.places.reserve(place)?;
        self.copies.try_reserve(1)?;
        self.places.mark(place, self.copies.len() as u32);
        self.copies.push_reserved((place, pdu));
        Ok(())
    }
}

impl<'a> SentList<'a> for DenseList<'a> {
    ghost content = { λ l. l };

    fn len(&self) -> u32 {
        self.copies.len() as u32
    }

    fn get(&self, position: u32) -> Option<FirstCopy<'a>> {
        self.copies.get(position as usize).copied()
    }

    #[tactic(auto, using(crate::proofs::Capture::Positions::near, crate::proofs::Capture::Positions::far))]
    fn position_of(&self, number: u32) -> Option<u32> {
        let (_, first) = self.get(0)?;
        let position = number.wrapping_sub(first.number());
        if position < self.len() {
            Some(position)
        } else {
            None
        }
    }

    fn at_place(&self, place: u32) -> Option<u32> {
        self.places.position(place)
    }
}
