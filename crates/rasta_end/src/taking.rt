//! What an end takes.
ghost use Rattle.std.specs.Prelude.{◌≡◌, ◌≤◌, ◌<◌, ◌+◌, ◌^◌, ◌++◌, ◌∷◌, [], length, true, false, if◌then◌else◌, Some, None, OnOk, OnErr, IfErr, IfSome};
ghost use Rattle.rasta_pdu.specs.Pdu.{value_of};
ghost use Rattle.rasta_pdu.specs.Pdu as pdus;
ghost use Rattle.rasta_end.specs.State.{is_owing};
ghost use Rattle.rasta_end.specs.TakeRule;
ghost use Rattle.rasta_end.specs.TakeRule.{take_row, wants_valid, effect, IsTakeRefusal};
ghost use Rattle.rasta_end.specs.Kept.{owed_list, owed_request};
ghost use Rattle.rasta_end.specs.declared.owed.Owed.TheVariants.{RetransmissionResponse as OweRetransmissionResponse, RetransmissionRequest as OweRetransmissionRequest};
ghost use Rattle.rasta_end.specs.declared.phase.Phase.TheVariants.{RetrReq};
ghost use Rattle.rasta_end.specs.declared.take_row.TakeRow.TheVariants.{Opened, Answered, FirstHeartbeat, InSequence, ResentInSequence, Gap, GapInRetransmission, Resumed, Requested, RequestedAhead, RequestedWhileAsking, Disconnected};

use crate::deadline::is_past;
use crate::end::End;
use crate::owed::{Owed, Owes};
use crate::phase::Phase;
use crate::take_row::{Standing, TakeRow};
use rasta_pdu::{Fault, Pdu};
use std::alloc::AllocError;

impl<'a> End<'a> {
    // The row of the take table that applies.
    fn take_row(&self, pdu: &Pdu<'a>) -> Option<TakeRow>
        ensures value { result ≡ take_row self.now.params self.now.state (value_of pdu.now).safety }
        ensures valid { IfSome result (λ row. wants_valid row ≡ true → TakeRule.is_valid self.now.state (value_of pdu.now).safety ≡ true) }
    {
        let standing = Standing {
            next: self.is_in(pdu),
            ahead: self.is_ahead(pdu),
            valid: self.is_valid(pdu),
        };
        TakeRow::of(self.side, self.phase, pdu.kind(), standing)
    }

    fn accept(&mut self, pdu: &Pdu<'a>)
        requires valid { TakeRule.is_valid self.old.state (value_of pdu.now).safety ≡ true }
        requires room { self.old.state.accepted < 2 ^ 63 }
        ensures { self.new ≡ record self.old { state = TakeRule.accept self.old.params self.old.state (value_of pdu.now).safety } }
    {
        let position = self.accepted + u64::from(self.steps_past_next(pdu));
        let confirmed = self.position_confirmed(pdu);
        self.note_accepted(position, pdu);
        self.confirm(confirmed);
        self.note_time(pdu);
    }

    // The burst that a request owes which confirms this position, and then perhaps a request.
    fn burst(&self, position: usize, request: bool) -> Owes
        ensures list { owed_list result ≡ TakeRule.burst self.now.state position ++ owed_request request }
        ensures units { result.unit + result.units ≤ self.now.state.offered }
        ensures reply { result.reply ≡ Some OweRetransmissionResponse }
    {
        let unit = self.own.units_through(position).min(self.offered);
        Owes {
            reply: Some(Owed::RetransmissionResponse),
            unit,
            units: self.offered - unit,
            request,
        }
    }

    fn opened(&mut self, pdu: &Pdu<'a>)
        ensures { self.new ≡ record self.old { state = effect self.old.params Opened self.old.state (value_of pdu.now).safety } }
    {
        self.note_accepted(0, pdu);
        self.enter(Phase::Start);
        self.owe(Owes::reply(Owed::ConnectionResponse));
    }

    fn answered(&mut self, pdu: &Pdu<'a>)
        requires valid { TakeRule.is_valid self.old.state (value_of pdu.now).safety ≡ true }
        ensures { self.new ≡ record self.old { state = effect self.old.params Answered self.old.state (value_of pdu.now).safety } }
    {
        let confirmed = self.position_confirmed(pdu);
        self.note_accepted(0, pdu);
        self.confirm(confirmed);
        self.enter(Phase::Up);
        self.owe(Owes::reply(Owed::FirstHeartbeat));
    }

    fn gap(&mut self)
        ensures { self.new ≡ record self.old { state = TakeRule.owe (OweRetransmissionRequest ∷ []) (TakeRule.enter RetrReq self.old.state) } }
    {
        self.enter(Phase::RetrReq);
        self.owe(Owes::reply(Owed::RetransmissionRequest));
    }

    fn in_sequence(&mut self, pdu: &Pdu<'a>) -> Result<(), AllocError>
        requires valid { TakeRule.is_valid self.old.state (value_of pdu.now).safety ≡ true }
        requires room { self.old.state.accepted < 2 ^ 63 }
        ensures ok { OnOk result (self.new ≡ record self.old { state = effect self.old.params InSequence self.old.state (value_of pdu.now).safety }) }
        ensures err { OnErr result (self.new ≡ self.old) }
        ensures grows { OnErr result (pdus.carries_unit (value_of pdu.now).safety.kind ≡ true) }
    {
        if pdu.kind().carries_unit() {
            self.hand_up(self.accepted, pdu)?;
        }
        self.accept(pdu);
        self.enter(Phase::Up);
        Ok(())
    }

    fn resent_in_sequence(&mut self, pdu: &Pdu<'a>) -> Result<(), AllocError>
        requires valid { TakeRule.is_valid self.old.state (value_of pdu.now).safety ≡ true }
        requires room { self.old.state.accepted < 2 ^ 63 }
        ensures ok { OnOk result (self.new ≡ record self.old { state = effect self.old.params ResentInSequence self.old.state (value_of pdu.now).safety }) }
        ensures err { OnErr result (self.new ≡ self.old) }
        ensures grows { OnErr result (pdus.carries_unit (value_of pdu.now).safety.kind ≡ true) }
    {
        if pdu.kind().carries_unit() {
            self.hand_up(self.accepted, pdu)?;
        }
        self.accept(pdu);
        Ok(())
    }

    fn requested(&mut self, pdu: &Pdu<'a>) -> Result<(), AllocError>
        requires valid { TakeRule.is_valid self.old.state (value_of pdu.now).safety ≡ true }
        requires room { self.old.state.accepted < 2 ^ 63 }
        ensures ok { OnOk result (self.new ≡ record self.old { state = effect self.old.params Requested self.old.state (value_of pdu.now).safety }) }
        ensures err { OnErr result (self.new ≡ self.old) }
    {
        let position = self.position_confirmed(pdu);
        let burst = self.burst(position, false);
        self.note_ask(position)?;
        self.accept(pdu);
        self.owe(burst);
        Ok(())
    }

    fn requested_ahead(&mut self, pdu: &Pdu<'a>) -> Result<(), AllocError>
        requires valid { TakeRule.is_valid self.old.state (value_of pdu.now).safety ≡ true }
        ensures ok { OnOk result (self.new ≡ record self.old { state = effect self.old.params RequestedAhead self.old.state (value_of pdu.now).safety }) }
        ensures err { OnErr result (self.new ≡ self.old) }
    {
        let position = self.position_confirmed(pdu);
        let burst = self.burst(position, true);
        self.note_ask(position)?;
        self.confirm(position);
        self.enter(Phase::RetrReq);
        self.owe(burst);
        Ok(())
    }

    fn requested_again(&mut self, pdu: &Pdu<'a>) -> Result<(), AllocError>
        requires valid { TakeRule.is_valid self.old.state (value_of pdu.now).safety ≡ true }
        ensures ok { OnOk result (self.new ≡ record self.old { state = effect self.old.params RequestedWhileAsking self.old.state (value_of pdu.now).safety }) }
        ensures err { OnErr result (self.new ≡ self.old) }
    {
        let position = self.position_confirmed(pdu);
        let burst = self.burst(position, false);
        self.note_ask(position)?;
        self.confirm(position);
        self.owe(burst);
        Ok(())
    }

    fn accept_and_enter(&mut self, pdu: &Pdu<'a>, phase: Phase)
        requires valid { TakeRule.is_valid self.old.state (value_of pdu.now).safety ≡ true }
        requires room { self.old.state.accepted < 2 ^ 63 }
        ensures { self.new ≡ record self.old { state = TakeRule.enter phase (TakeRule.accept self.old.params self.old.state (value_of pdu.now).safety) } }
    {
        self.accept(pdu);
        self.enter(phase);
    }

    // What a row of the table does.
    fn follow(&mut self, row: TakeRow, pdu: &Pdu<'a>) -> Result<(), AllocError>
        requires valid { wants_valid row ≡ true → TakeRule.is_valid self.old.state (value_of pdu.now).safety ≡ true }
        requires room { self.old.state.accepted < 2 ^ 63 }
        ensures ok { OnOk result (self.new ≡ record self.old { state = effect self.old.params row self.old.state (value_of pdu.now).safety }) }
        ensures err { OnErr result (self.new ≡ self.old) }
        ensures grows { OnErr result (TakeRule.adds_to_a_list (Some row) (value_of pdu.now).safety.kind ≡ true) }
    {
        match row {
            TakeRow::Opened => self.opened(pdu),
            TakeRow::Answered => self.answered(pdu),
            TakeRow::FirstHeartbeat => self.accept_and_enter(pdu, Phase::Up),
            TakeRow::InSequence => return self.in_sequence(pdu),
            TakeRow::ResentInSequence => return self.resent_in_sequence(pdu),
            TakeRow::Gap => self.gap(),
            TakeRow::GapInRetransmission => self.gap(),
            TakeRow::Resumed => self.accept_and_enter(pdu, Phase::RetrRun),
            TakeRow::Requested => return self.requested(pdu),
            TakeRow::RequestedAhead => return self.requested_ahead(pdu),
            TakeRow::RequestedWhileAsking => return self.requested_again(pdu),
            TakeRow::Disconnected => self.enter(Phase::Closed),
        }
        Ok(())
    }

    /// The fault for which nothing may be taken at this moment (whole milliseconds), the first in the
    /// order of [`End::take`]; none where the end is closed.
    pub fn take_fault(&self, moment: u64) -> Option<u8>
        ensures { result ≡ TakeRule.take_fault self.now.params self.now.state moment }
    {
        if self.phase.is_closed() {
            return None;
        }
        if self.owes.is_some() {
            return Some(Fault::REPLY_OWED);
        }
        if is_past(&self.params, self.deadline, moment) {
            return Some(Fault::PAST_DEADLINE);
        }
        None
    }

    fn try_take(&mut self, pdu: &Pdu<'a>) -> Result<(), Fault>
        requires { self.old.state.accepted < 2 ^ 63 }
        ensures ok { OnOk result ((TakeRule.take_fault self.old.params self.old.state self.old.state.clock ≡ None) × (self.new ≡ record self.old { state = TakeRule.after_take self.old.params self.old.state (value_of pdu.now).safety })) }
        ensures err { IfErr result (λ fault. (self.new ≡ self.old) × IsTakeRefusal self.old.params self.old.state (value_of pdu.now).safety fault) }
    {
        if let Some(number) = self.take_fault(self.clock) {
            return Err(Fault::of_end(number, 0, self.side));
        }
        let Some(row) = self.take_row(pdu) else {
            return Ok(());
        };
        self.follow(row, pdu)?;
        Ok(())
    }

    /// Takes a PDU of the other side, by the row of the take table that applies; nothing changes where
    /// none does, or where the end is closed. The moment is the clock of the end's last make.
    ///
    /// Refused, in this order, by [`Fault::REPLY_OWED`], [`Fault::PAST_DEADLINE`] (both with place 0 and
    /// this end) and [`Fault::NO_MEMORY`]; the end is then as before.
    pub fn take(&mut self, pdu: &Pdu<'a>) -> Result<(), Fault>
        requires { self.old.state.accepted < 2 ^ 63 }
        ensures ok { OnOk result ((TakeRule.take_fault self.old.params self.old.state self.old.state.clock ≡ None) × (self.new ≡ record self.old { state = TakeRule.after_take self.old.params self.old.state (value_of pdu.now).safety })) }
        ensures err { IfErr result (λ fault. (self.new ≡ self.old) × IsTakeRefusal self.old.params self.old.state (value_of pdu.now).safety fault) }
        ensures owed { length self.new.state.owed ≤ self.new.state.offered + 2 }
    {
        let taken = self.try_take(pdu);
        self.owes_few();
        taken
    }
}
