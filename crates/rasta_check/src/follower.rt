//! One script, followed entry by entry.
ghost use Rattle.std.specs.Prelude.{◌≡◌, ◌⊎◌, ◌==◌, ℕ, false, length, suc, ◌+◌, ◌*◌, ◌<◌, ◌≤◌, ◌^◌, Some, None, Ok, Err, OnOk, IfOk, IfErr, MatchResult};
ghost use Rattle.rasta_pcap.specs.Fault.{fault_of_end, no_memory, make_missing};
ghost use Rattle.rasta_pdu.specs.Pdu.{value_of};
ghost use Rattle.rasta_end.specs.TakeRule.{take_fault, after_take};
ghost use Rattle.rasta_end.specs.MakeRule.{make_fault, after_make};
ghost use Rattle.rasta_end.specs.Starts.{start_of};
ghost use Rattle.rasta_check.specs.Script.Following.{at_start};
ghost use Rattle.rasta_check.specs.Internals.Checking;
ghost use Rattle.rasta_check.specs.Internals.Checking.{cursor_unless, next_cursor, take_entry, make_entry, taken_there, made_there, moved_to, IsRefusedFollow};

use crate::sent_list::{FirstCopy, SentList};
use rasta_cert::Entry;
use rasta_end::{End, Why};
use rasta_pcap::{Fault, Side};
use rasta_pdu::{Params, Pdu};
use std::alloc::{AllocError, Global};
use std::marker::Model;

/// An end that follows its script.
#[derive(Drop)]
pub(crate) struct Follower<'a> {
    side: Side,
    // The number of the next entry, from 1.
    entry: u32,
    level: u64,
    made_count: u64,
    passed: u64,
    end: End<'a>,
}

impl<'a> Model for Follower<'a> {
    ghost use Rattle.std.specs.Prelude.{◌≤◌, ◌*◌, ◌^◌};
    ghost use Rattle.rasta_check.specs.Internals.Checking.{Followed};

    ghost Value = { Followed };

    ghost view = { λ f. record {
      params = f.end.params;
      side = f.side;
      entry = f.entry;
      cursor = record { level = f.level; made_count = f.made_count; passed = f.passed; state = f.end.state };
    } };

    ghost invariant = { λ f. (f.end.state.accepted ≤ f.entry * 2 ^ 32) × (f.made_count ≤ f.entry) };
}

impl<'a> Follower<'a> {
    // The fault of this number, of the next entry.
    fn fault(&self, number: u8) -> Fault
        ensures { result ≡ fault_of_end number self.now.entry self.now.side }
    {
        Fault::of_end(number, self.entry, self.side)
    }

    // A fault of the end, at the next entry; out of memory names none.
    fn placed(&self, fault: Fault) -> Fault
        ensures of_end { (number : ℕ) (side : _) → fault ≡ fault_of_end number 0 side → result ≡ fault_of_end number self.now.entry self.now.side }
        ensures memory { fault ≡ no_memory → result ≡ no_memory }
    {
        if fault.end.is_some() {
            self.fault(fault.number)
        } else {
            fault
        }
    }

    // The PDU that an entry takes, with its position, or the number of the fault that comes before those
    // of the end.
    fn takeable<S: SentList<'a>>(
        &self,
        packets: u32,
        peer: &S,
        slot: u32,
        number: u32,
    ) -> Result<FirstCopy<'a>, u8>
        ensures { MatchResult result
            (λ r. take_entry self.now.params packets (S.content peer.now) self.now.cursor slot number
            ≡ cursor_unless (take_fault self.now.params self.now.cursor.state self.now.cursor.state.clock)
            (taken_there self.now.cursor slot r.0 (after_take self.now.params self.now.cursor.state (value_of r.1).safety)))
            (λ n. take_entry self.now.params packets (S.content peer.now) self.now.cursor slot number ≡ Err n) }
    {
        if u64::from(slot) < self.level || packets < slot {
            return Err(Fault::SLOT_ORDER);
        }
        let Some(position) = peer.position_of(number) else {
            return Err(Fault::NOT_YET_CROSSED);
        };
        let Some((place, pdu)) = peer.get(position) else {
            return Err(Fault::NOT_YET_CROSSED);
        };
        if place >= slot {
            Err(Fault::NOT_YET_CROSSED)
        } else if u64::from(position) < self.passed {
            Err(Fault::NOT_RISING)
        } else {
            Ok((position, pdu))
        }
    }

    // Takes the PDU of an entry.
    fn take<S: SentList<'a>>(
        &mut self,
        packets: u32,
        peer: &S,
        slot: u32,
        number: u32,
    ) -> Result<(), Fault>
        requires few { self.old.entry ≤ 4000000 }
        ensures ok { OnOk result
            ((take_entry self.old.params packets (S.content peer.now) self.old.cursor slot number ≡ Ok self.new.cursor) × (self.new ≡ moved_to self.old self.new.cursor)) }
        ensures err { IfErr result (IsRefusedFollow self.old (take_entry self.old.params packets (S.content peer.now) self.old.cursor slot number)) }
    {
        let (position, pdu) = match self.takeable(packets, peer, slot, number) {
            Ok(found) => found,
            Err(fault) => return Err(self.fault(fault)),
        };
        if let Err(fault) = self.end.take(&pdu) {
            return Err(self.placed(fault));
        }
        self.level = u64::from(slot);
        self.passed = u64::from(position) + 1;
        self.entry += 1;
        Ok(())
    }

    // The PDU that an entry makes, or the number of the fault that comes before those of the end.
    fn makeable<S: SentList<'a>>(&self, own: &S, index: u32) -> Result<Pdu<'a>, u8>
        ensures { (clock : ℕ) (why : _) → MatchResult result
            (λ pdu. make_entry self.now.params (S.content own.now) self.now.cursor index clock why
            ≡ cursor_unless (make_fault self.now.params self.now.cursor.state (value_of pdu).safety clock why)
            (made_there self.now.cursor index (after_make self.now.cursor.state (value_of pdu).safety clock why)))
            (λ n. make_entry self.now.params (S.content own.now) self.now.cursor index clock why ≡ Err n) }
    {
        if u64::from(index) < self.level {
            return Err(Fault::SLOT_ORDER);
        }
        let Some(position) = own.at_place(index) else {
            return Err(Fault::NOT_FIRST_COPY);
        };
        if u64::from(position) != self.made_count {
            return Err(Fault::MAKE_MISSING);
        }
        match own.get(position) {
            Some((_, pdu)) => Ok(pdu),
            None => Err(Fault::NOT_FIRST_COPY),
        }
    }

    // Makes the PDU of an entry.
    fn make<S: SentList<'a>>(
        &mut self,
        own: &S,
        index: u32,
        clock: u64,
        why: Why,
    ) -> Result<(), Fault>
        requires few { self.old.entry ≤ 4000000 }
        ensures ok { OnOk result
            ((make_entry self.old.params (S.content own.now) self.old.cursor index clock why ≡ Ok self.new.cursor) × (self.new ≡ moved_to self.old self.new.cursor)) }
        ensures err { IfErr result (IsRefusedFollow self.old (make_entry self.old.params (S.content own.now) self.old.cursor index clock why)) }
    {
        let pdu = match self.makeable(own, index) {
            Ok(pdu) => pdu,
            Err(fault) => return Err(self.fault(fault)),
        };
        if let Err(fault) = self.end.make(&pdu, clock, why) {
            return Err(self.placed(fault));
        }
        self.level = u64::from(index) + 1;
        self.made_count += 1;
        self.entry += 1;
        Ok(())
    }

    // Follows one entry.
    #[tactic(auto, unfolding(crate::specs::Internals::Checking::next_cursor))]
    fn next<S: SentList<'a>>(
        &mut self,
        packets: u32,
        own: &S,
        peer: &S,
        entry: Entry,
    ) -> Result<(), Fault>
        requires few { self.old.entry ≤ 4000000 }
        ensures ok { OnOk result
            ((next_cursor self.old.params packets (S.content own.now) (S.content peer.now) self.old.cursor entry ≡ Ok self.new.cursor) × (self.new ≡ moved_to self.old self.new.cursor)) }
        ensures err { IfErr result (IsRefusedFollow self.old (next_cursor self.old.params packets (S.content own.now) (S.content peer.now) self.old.cursor entry)) }
    {
        match entry {
            Entry::Take { slot, number } => self.take(packets, peer, slot, number),
            Entry::Make { index, clock, why } => self.make(own, index, clock, why),
        }
    }

    // At the start of a script, with room for so many PDUs made and handed up.
    fn start(
        alloc: Global,
        params: &Params,
        side: Side,
        made: u32,
        handed: u32,
    ) -> Result<Follower<'a>, AllocError>
        ensures { IfOk result (λ f. f ≡ record { params = params.now; side = side; entry = 1; cursor = at_start (start_of params.now side) }) }
    {
        let mut end = End::start(alloc, params, side);
        end.reserve(made as usize, handed as usize)?;
        Ok(Follower {
            side,
            entry: 1,
            level: 0,
            made_count: 0,
            passed: 0,
            end,
        })
    }

    // After the last entry: the whole sent list has to be made.
    fn finish<S: SentList<'a>>(self, own: &S) -> Result<End<'a>, Fault>
        ensures { MatchResult result
            (λ e. (e ≡ record { params = self.entry.params; state = self.entry.cursor.state }) × (self.entry.cursor.made_count ≡ length (S.content own.now)))
            (λ f. (f ≡ fault_of_end make_missing self.entry.entry self.entry.side) × ((self.entry.cursor.made_count == length (S.content own.now)) ≡ false)) }
    {
        if self.made_count == u64::from(own.len()) {
            Ok(self.end)
        } else {
            Err(self.fault(Fault::MAKE_MISSING))
        }
    }
}

/// The end that a script leads to, or the first fault with the number of its entry and the side.
pub(crate) fn follow<'a, S: SentList<'a>>(
    alloc: Global,
    params: &Params,
    side: Side,
    packets: u32,
    own: &S,
    peer: &S,
    script: &[Entry],
) -> Result<End<'a>, Fault>
    requires few { length script.now ≤ 4000000 }
    ensures { MatchResult result
        (λ e. (e.params ≡ params.now) × (Checking.follow params.now side packets (S.content own.now) (S.content peer.now) script.now ≡ Ok e.state))
        (λ f. (Checking.follow params.now side packets (S.content own.now) (S.content peer.now) script.now ≡ Err f) ⊎ (f ≡ no_memory)) }
{
    let mut follower = Follower::start(alloc, params, side, own.len(), peer.len())?;
    for entry in script {
        follower.next(packets, own, peer, *entry)?;
    }
    follower.finish(own)
}
