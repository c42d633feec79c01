//! How many captured messages were surely taken.
ghost use Rattle.std.specs.Prelude.{◌≡◌};
ghost use Rattle.seatmelon_middle.specs.Counts.{counts_in, messages_captured, messages_taken, share_in};

use rasta_check::{ShownLists, ShownUnit};

/// Of the messages of captured data of an end.
#[derive(Clone, Copy, Debug, PartialEq, Eq)]
pub struct Share {
    /// How many there are.
    pub captured: u64,

    /// How many of them the other end surely took: the first ones.
    pub taken: u64,
}

/// Of both ends.
#[derive(Clone, Copy, Debug, PartialEq, Eq)]
pub struct ShownCounts {
    /// How many packets they rest on.
    pub packets: u32,
    pub client: Share,
    pub server: Share,
}

/// How many messages these data have.
pub fn count_captured(units: &[ShownUnit]) -> u64
    ensures { result ≡ messages_captured units.now }
{
    let mut count = 0u64;
    for unit in units {
        count = count.saturating_add(u64::from(unit.messages));
    }
    count
}

// How many messages those units have that have a proof.
fn count_taken(units: &[ShownUnit]) -> u64
    ensures { result ≡ messages_taken units.now }
{
    let mut count = 0u64;
    for unit in units {
        if unit.proof_place.is_some() {
            count = count.saturating_add(u64::from(unit.messages));
        }
    }
    count
}

// The messages of an end.
fn share_of(units: &[ShownUnit]) -> Share
    ensures { result ≡ share_in units.now }
{
    Share {
        captured: count_captured(units),
        taken: count_taken(units),
    }
}

impl ShownCounts {
    /// What packets show of both ends, by their lists.
    pub fn of(lists: &ShownLists) -> ShownCounts
        ensures { result ≡ counts_in lists.now }
    {
        ShownCounts {
            packets: lists.packets,
            client: share_of(&lists.client),
            server: share_of(&lists.server),
        }
    }
}
