//! A sent list in a store.
ghost use Rattle.std.specs.Prelude.{◌≡◌, List};
ghost use Rattle.rasta_check.specs.Capture.SentLists.{FirstCopy};
ghost use Rattle.rasta_check.specs.Capture.Crossing.{sent_by};

use crate::packet_store::Store;
use crate::sent_list::{FirstCopy, SentList};
use rasta_pcap::Side;
use std::marker::Model;

/// A side's sent list in a [`Store`], whose PDUs are read where they are asked for.
///
/// The position of a number is its distance from the first number.
#[derive(Drop)]
pub struct SpanList<'a> {
    store: &'a Store,
    side: Side,
}

impl<'a> Model for SpanList<'a> {
    ghost Value = { List FirstCopy };

    ghost view = { λ l. sent_by l.store.now l.side };
}

impl<'a> SpanList<'a> {
    // The list of a side.
    pub(crate) fn new(store: &'a Store, side: Side) -> SpanList<'a>
        ensures { result ≡ sent_by store.entry.now side }
    {
        SpanList { store, side }
    }
}

impl<'a> SentList<'a> for SpanList<'a> {
    ghost content = { λ l. l };

    fn len(&self) -> u32 {
        self.store.count(self.side)
    }

    fn get(&self, position: u32) -> Option<FirstCopy<'a>> {
        self.store.get(self.side, position)
    }

    fn position_of(&self, number: u32) -> Option<u32> {
        self.store.position_of(self.side, number)
    }

    fn at_place(&self, place: u32) -> Option<u32> {
        self.store.at_place(self.side, place)
    }
}
