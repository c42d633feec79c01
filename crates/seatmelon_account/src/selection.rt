//! Which messages a text tells.
ghost use Rattle.std.specs.Prelude.{◌≡◌};
ghost use Rattle.seatmelon_account.specs.Selection.{has_record, is_chosen, is_of_record, is_proved_in, is_within};

use crate::messages::Message;
use seatmelon_reading::Sighting;

/// The messages that are told: those that meet each condition.
#[derive(Clone, Copy, Debug, PartialEq, Eq)]
pub struct Selection {
    /// From this number to that one.
    pub numbers: Option<(u64, u64)>,

    /// Not shown to be taken.
    pub not_shown: bool,

    /// Whose data or proof is the packet of this record.
    pub of_record: Option<u32>,
}

/// How much a text tells.
#[derive(Clone, Copy, Debug, PartialEq, Eq)]
pub struct Extent {
    /// The messages; none where the text stops before them.
    pub messages: Option<Selection>,

    /// Whether long messages are told whole.
    pub is_whole: bool,
}

// Whether the packet at a place is that of a record.
fn is_of(packets: &[Sighting], place: u32, number: u32) -> bool
    ensures { result ≡ is_of_record packets.now place number }
{
    match packets.get(place as usize) {
        Some(sighting) => sighting.record == number,
        None => false,
    }
}

// Whether a number lies within these, both included.
fn is_within(numbers: Option<(u64, u64)>, number: u64) -> bool
    ensures { result ≡ is_within numbers number }
{
    match numbers {
        Some((first, last)) => first <= number && number <= last,
        None => true,
    }
}

// Whether the proof of a message is the packet of a record.
fn is_proved_in(packets: &[Sighting], proof: Option<u32>, number: u32) -> bool
    ensures { result ≡ is_proved_in packets.now proof number }
{
    match proof {
        Some(place) => is_of(packets, place, number),
        None => false,
    }
}

// Whether the data or the proof of a message is the packet of the record that is asked for, if one is.
fn has_record(of_record: Option<u32>, packets: &[Sighting], message: &Message<'_>) -> bool
    ensures { result ≡ has_record of_record packets.now message.now }
{
    match of_record {
        Some(number) => {
            is_of(packets, message.data, number) || is_proved_in(packets, message.proof, number)
        }
        None => true,
    }
}

impl Selection {
    /// All messages.
    pub const ALL: Selection = Selection {
        numbers: None,
        not_shown: false,
        of_record: None,
    };

    /// Whether a message is told; `packets` are those of the connection, by place.
    pub fn chooses(&self, packets: &[Sighting], message: &Message<'_>) -> bool
        ensures { result ≡ is_chosen self.now packets.now message.now }
    {
        is_within(self.numbers, message.number)
            && !(self.not_shown && message.proof.is_some())
            && has_record(self.of_record, packets, message)
    }
}

impl Extent {
    /// All messages, of which long ones are cut.
    pub const ALL: Extent = Extent {
        messages: Some(Selection::ALL),
        is_whole: false,
    };
}
