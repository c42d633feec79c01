//! The report on a capture that two scripts explain.
ghost use Rattle.std.specs.Prelude.{◌≡◌, map};
ghost use Rattle.rasta_check.specs.Verdict.Listed.{listed_of};

use std::marker::Model;

/// A message that was surely taken.
#[derive(Clone, Copy)]
pub struct Taken<'a> {
    /// Its number in the list, from 0.
    pub message: u64,
    /// The place of the first copy of its data PDU among the packets, from 0.
    pub data_index: u32,
    /// The place of the first PDU of the taking end that proves it.
    pub proof_index: u32,
    /// Its bytes, a slice of that data PDU in the capture.
    pub bytes: &'a [u8],
}

/// Messages that were surely taken, in the order in which they were handed up.
#[derive(Drop)]
pub struct TakenList<'a> {
    items: Vec<Taken<'a>>,
}

impl<'a> Model for TakenList<'a> {
    ghost use Rattle.std.specs.Prelude.{List, map};
    ghost use Rattle.rasta_check.specs.Verdict.Listed.{ListedMessage, listed_of};

    ghost Value = { List ListedMessage };

    ghost view = { λ l. map listed_of l.items.items };
}

impl<'a> TakenList<'a> {
    pub(crate) fn of(items: Vec<Taken<'a>>) -> TakenList<'a>
        ensures { result ≡ map listed_of items.entry.items }
    {
        TakenList { items }
    }

    /// The messages.
    pub fn as_slice(&self) -> &[Taken<'a>]
        ensures { map listed_of result.now ≡ self.now }
    {
        self.items.as_slice()
    }
}

/// What a certificate explains: how many packets crossed, and which messages each end surely took of
/// those that its peer sent.
#[derive(Drop)]
pub struct Report<'a> {
    pub packets: u32,
    pub client_taken: TakenList<'a>,
    pub server_taken: TakenList<'a>,
}
