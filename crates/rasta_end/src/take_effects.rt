//! What a PDU that is taken changes, one thing at a time.
ghost use Rattle.std.specs.Prelude.{◌≡◌, ◌≤◌, ◌<◌, ◌+◌, ◌^◌, ◌∷◌, ◌++◌, [], length, OnOk, OnErr};
ghost use Rattle.rasta_pdu.specs.Pdu.{value_of};
ghost use Rattle.rasta_end.specs.State.{kinds};
ghost use Rattle.rasta_end.specs.TakeRule;
ghost use Rattle.rasta_end.specs.Units.{responses_in};
ghost use Rattle.rasta_end.specs.Kept.{owed_list};
ghost use Rattle.rasta_end.specs.Judged.{responses_owed};

use crate::deadline::deadline_from;
use crate::end::End;
use crate::owed::Owes;
use crate::phase::Phase;
use rasta_pdu::Pdu;
use std::alloc::AllocError;

impl<'a> End<'a> {
    pub(crate) fn note_accepted(&mut self, position: u64, pdu: &Pdu<'a>)
        requires { position + 1 < 2 ^ 64 }
        ensures { self.new ≡ record self.old { state = TakeRule.note_accepted position self.old.state (value_of pdu.now).safety } }
    {
        self.accepted = position + 1;
        self.last_sn = pdu.sn();
        self.last_ts = pdu.ts();
    }

    pub(crate) fn note_time(&mut self, pdu: &Pdu<'a>)
        ensures { self.new ≡ record self.old { state = TakeRule.note_time self.old.params self.old.state (value_of pdu.now).safety } }
    {
        if pdu.kind().is_timed() {
            self.timed_ts = Some(pdu.ts());
            self.deadline = Some(deadline_from(&self.params, self.clock, pdu.cts()));
        }
    }

    pub(crate) fn confirm(&mut self, position: usize)
        requires { position ≤ length self.old.state.made }
        ensures { self.new ≡ record self.old { state = TakeRule.confirm position self.old.state } }
    {
        self.confirmed = position;
    }

    pub(crate) fn enter(&mut self, phase: Phase)
        ensures state { self.new ≡ record self.old { state = TakeRule.enter phase self.old.state } }
        ensures responses { responses_in (kinds self.old.state.made) ≤ length self.old.state.asks }
    {
        self.phase = phase;
    }

    pub(crate) fn owe(&mut self, owes: Owes)
        requires units { owes.unit + owes.units ≤ self.old.state.offered }
        requires responses { responses_in (kinds self.old.state.made) + responses_owed owes.reply ≤ length self.old.state.asks }
        ensures { self.new ≡ record self.old { state = TakeRule.owe (owed_list owes) self.old.state } }
    {
        self.owes = owes;
    }

    pub(crate) fn note_ask(&mut self, position: usize) -> Result<(), AllocError>
        ensures ok { OnOk result (self.new ≡ record self.old { state = record self.old.state { asks = self.old.state.asks ++ position ∷ [] } }) }
        ensures responses { responses_in (kinds self.old.state.made) ≤ length self.old.state.asks }
        ensures err { OnErr result (self.new ≡ self.old) }
    {
        self.own.ask(position)
    }

    pub(crate) fn hand_up(&mut self, position: u64, pdu: &Pdu<'a>) -> Result<(), AllocError>
        ensures ok { OnOk result (self.new ≡ record self.old { state = TakeRule.hand_up position self.old.state (value_of pdu.now).safety }) }
        ensures err { OnErr result (self.new ≡ self.old) }
    {
        self.handed_positions.try_reserve(1)?;
        if self.handed.push(*pdu).is_err() {
            return Err(AllocError);
        }
        self.handed_positions.push_reserved(position);
        self.handed_ts = Some(pdu.ts());
        Ok(())
    }

    /// An end owes at most a reply, the units that it offered, and a request. For proofs alone.
    pub(crate) fn owes_few(&self)
        ensures { length self.now.state.owed ≤ self.now.state.offered + 2 }
    {
        self.owes.are_few();
    }
}
