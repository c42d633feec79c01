//! The list of PDUs that one side sent.
ghost use Rattle.std.specs.Prelude.{◌≡◌, List, length, slice_get, option_map};
ghost use Rattle.rasta_check.specs.Capture.SentLists.{FirstCopy};
ghost use Rattle.rasta_check.specs.Capture.Lists.{IsOrdered, copy_of, position_of_number, position_of_place};

use rasta_pdu::Pdu;

/// The first copy of a PDU: its place among the packets, counted from 0, and the PDU.
pub type FirstCopy<'a> = (u32, Pdu<'a>);

/// The first copies of the packets that one side sent, in the order in which they crossed: each has a
/// place among the packets, counted from 0, and a PDU, whose slices are slices of the capture or of a store.
///
/// Positions count from 0. Three laws hold: places rise, redundancy numbers rise by 1 modulo 2^32, and each
/// call is exact. No call takes memory.
pub trait SentList<'a> {
    /// The first copies.
    ghost content: { Self → List FirstCopy };

    /// How many there are.
    fn len(&self) -> u32
        ensures value { result ≡ length (content self.now) }
        ensures ordered { IsOrdered (content self.now) };

    /// The place and the PDU at a position.
    fn get(&self, position: u32) -> Option<FirstCopy<'a>>
        ensures value { option_map copy_of result ≡ slice_get (content self.now) position }
        ensures ordered { IsOrdered (content self.now) };

    /// The position of the PDU with a redundancy number.
    fn position_of(&self, number: u32) -> Option<u32>
        ensures value { result ≡ position_of_number (content self.now) number }
        ensures ordered { IsOrdered (content self.now) };

    /// The position of the PDU at a place.
    fn at_place(&self, place: u32) -> Option<u32>
        ensures value { result ≡ position_of_place (content self.now) place }
        ensures ordered { IsOrdered (content self.now) };
}
