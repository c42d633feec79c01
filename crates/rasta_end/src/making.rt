//! What an end makes.
ghost use Rattle.std.specs.Prelude.{◌≡◌, ◌≤◌, ◌<◌, ◌+◌, ◌^◌, ◌++◌, ◌∷◌, [], ◌&&◌, not, length, true, false, Some, None, OnOk, OnErr, IfErr, IfSome};
ghost use Rattle.rasta_pdu.specs.Pdu.{value_of};
ghost use Rattle.rasta_end.specs.State;
ghost use Rattle.rasta_end.specs.MakeRule;
ghost use Rattle.rasta_end.specs.MakeRule.{row_of, IsMakeRefusal};
ghost use Rattle.rasta_end.specs.Units.{responses_after};
ghost use Rattle.rasta_end.specs.Kept.{owed_list};
ghost use Rattle.rasta_end.specs.Judged.{responses_owed, responses_paid};

use crate::deadline::{is_early, is_past};
use crate::end::End;
use crate::made_pdus::content;
use crate::make_row::{MakeRow, is_client};
use crate::owed::{Demand, Owes};
use crate::phase::Phase;
use crate::why::Why;
use rasta_pdu::{Body, Fault, Kind, Pdu};
use std::alloc::AllocError;

// The reason of a disconnection request, else 0.
fn reason<'a>(pdu: &Pdu<'a>) -> u16
    ensures { result ≡ State.reason_of (value_of pdu.now).safety.body }
{
    match pdu.body() {
        Body::Bye { reason, .. } => reason,
        _ => 0,
    }
}

fn is_expired(why: Why) -> bool
    ensures { result ≡ MakeRule.is_expired why }
{
    matches!(why, Why::Expired)
}

// The number of the unit that a PDU of this row carries.
fn unit_of(row: MakeRow, offered: usize) -> Option<usize>
    ensures { result ≡ MakeRule.unit_of row offered }
{
    match row {
        MakeRow::Resends(unit) => Some(unit as usize),
        MakeRow::Offers => Some(offered),
        _ => None,
    }
}

fn phase_after(row: MakeRow, phase: Phase) -> Phase
    ensures { result ≡ MakeRule.phase_after row phase }
{
    match row {
        MakeRow::Opens => Phase::Start,
        MakeRow::Leaves => Phase::Closed,
        MakeRow::TimesOut => Phase::Closed,
        _ => phase,
    }
}

fn offered_after(row: MakeRow, offered: usize) -> usize
    requires { offered + 1 < 2 ^ 64 }
    ensures value { result ≡ MakeRule.offered_after row offered }
    ensures least { offered ≤ result }
    ensures most { result ≤ offered + 1 }
{
    match row {
        MakeRow::Offers => offered + 1,
        _ => offered,
    }
}

fn owes_after(row: MakeRow, owes: Owes) -> Owes
    requires room { owes.unit + owes.units < 2 ^ 64 }
    requires allowed { MakeRule.is_refused_row (Some row) (owed_list owes) ≡ false }
    requires owing { MakeRule.is_owing_else (Some row) (owed_list owes) ≡ false }
    ensures pays { responses_paid row + responses_owed result.reply ≤ responses_owed owes.reply }
    ensures list { owed_list result ≡ MakeRule.owed_after row (owed_list owes) }
    ensures units { result.unit + result.units ≤ owes.unit + owes.units }
{
    match row {
        MakeRow::Answers => owes.without_first(),
        MakeRow::StartsBeating => owes.without_first(),
        MakeRow::Resumes => owes.without_first(),
        MakeRow::Resends(_) => owes.without_first(),
        MakeRow::Requests => owes.without_first(),
        MakeRow::Leaves => Owes::nothing(),
        MakeRow::TimesOut => Owes::nothing(),
        _ => owes,
    }
}

impl<'a> End<'a> {
    fn make_row(&self, pdu: &Pdu<'a>, why: Why) -> Option<MakeRow>
        ensures value { result ≡ row_of self.now.state (value_of pdu.now).safety why }
        ensures pays { IfSome result (λ row. responses_after 0 (value_of pdu.now).safety.kind ≤ responses_paid row) }
    {
        MakeRow::of(self.side, self.phase, reason(pdu), why, pdu.kind())
    }

    fn has_ended(&self) -> bool
        ensures { result ≡ MakeRule.has_ended self.now.state }
    {
        self.phase.is_closed() && (!is_client(self.side) || self.own.len() > 0)
    }

    fn is_refused_row(&self, row: Option<MakeRow>) -> bool
        ensures { result ≡ MakeRule.is_refused_row row self.now.state.owed }
    {
        match row {
            None => true,
            Some(row) => self.owes.lacks(Demand::of(row)),
        }
    }

    // Mostly nothing is owed, which is asked first.
    fn is_owing_else(&self, row: Option<MakeRow>) -> bool
        ensures { result ≡ MakeRule.is_owing_else row self.now.state.owed }
    {
        match row {
            None => false,
            Some(_) if !self.owes.is_some() => false,
            Some(row) => self.owes.owes_else(Demand::of(row)),
        }
    }

    fn is_next_sn(&self, sn: u32) -> bool
        ensures { result ≡ MakeRule.is_next_sn self.now.state.made sn }
    {
        match self.own.len() {
            0 => true,
            len => sn == self.own.sn_at(len),
        }
    }

    fn is_judged(&self, kind: Kind) -> bool
        ensures { result ≡ MakeRule.is_judged self.now.state kind }
    {
        let gives_up = kind.is(Kind::DisconnectionRequest)
            && (self.accepted == 0 && (is_client(self.side) && self.phase.is_start()));
        !kind.is(Kind::ConnectionRequest) && !gives_up
    }

    fn confirms_last(&self, cs: u32) -> bool
        ensures { result ≡ MakeRule.confirms_last self.now.state cs }
    {
        self.accepted != 0 && cs == self.last_sn
    }

    fn confirms_a_time(&self, cts: u32) -> bool
        ensures { result ≡ MakeRule.confirms_a_time self.now.state cts }
    {
        (self.accepted != 0 && cts == self.last_ts)
            || self.timed_ts == Some(cts)
            || self.handed_ts == Some(cts)
    }

    fn differs(&self, row: Option<MakeRow>, pdu: &Pdu<'a>) -> bool
        ensures { result ≡ MakeRule.differs self.now.state.made row (State.content_of (value_of pdu.now).safety.body) }
    {
        match row {
            Some(MakeRow::Resends(unit)) => match self.own.content(unit) {
                Some(unit) => unit != content(pdu),
                None => true,
            },
            _ => false,
        }
    }

    fn make_fault(&self, row: Option<MakeRow>, pdu: &Pdu<'a>, clock: u64, why: Why) -> Option<u8>
        requires row { row ≡ row_of self.now.state (value_of pdu.now).safety why }
        ensures value { result ≡ MakeRule.make_fault self.now.params self.now.state (value_of pdu.now).safety clock why }
        ensures allowed { result ≡ None → MakeRule.is_refused_row (row_of self.now.state (value_of pdu.now).safety why) self.now.state.owed ≡ false }
        ensures owing { result ≡ None → MakeRule.is_owing_else (row_of self.now.state (value_of pdu.now).safety why) self.now.state.owed ≡ false }
    {
        let is_judged = self.is_judged(pdu.kind());
        if self.has_ended() {
            Some(Fault::CLOSED)
        } else if self.is_refused_row(row) {
            Some(Fault::NOT_ALLOWED)
        } else if self.is_owing_else(row) {
            Some(Fault::REPLY_OWED)
        } else if !self.is_next_sn(pdu.sn()) {
            Some(Fault::SEQUENCE_NUMBER)
        } else if u64::from(pdu.ts()) != clock % (1 << 32) {
            Some(Fault::CLOCK_DIFFERS)
        } else if clock < self.clock {
            Some(Fault::CLOCK_FALLS)
        } else if !is_expired(why) && is_past(&self.params, self.deadline, clock) {
            Some(Fault::PAST_DEADLINE)
        } else if is_expired(why) && is_early(&self.params, self.deadline, clock) {
            Some(Fault::TOO_EARLY_TIMEOUT)
        } else if is_judged && !self.confirms_last(pdu.cs()) {
            Some(Fault::CONFIRMED_NUMBER)
        } else if is_judged && !self.confirms_a_time(pdu.cts()) {
            Some(Fault::CONFIRMED_TIME)
        } else if self.differs(row, pdu) {
            Some(Fault::RESEND_DIFFERS)
        } else {
            None
        }
    }

    fn record_make(&mut self, row: MakeRow, pdu: &Pdu<'a>, clock: u64) -> Result<(), AllocError>
        requires allowed { MakeRule.is_refused_row (Some row) self.old.state.owed ≡ false }
        requires owing { MakeRule.is_owing_else (Some row) self.old.state.owed ≡ false }
        requires pays { responses_after 0 (value_of pdu.now).safety.kind ≤ responses_paid row }
        ensures ok { OnOk result (self.new ≡ record self.old { state = MakeRule.after_make_by (Some row) self.old.state (value_of pdu.now).safety clock }) }
        ensures err { OnErr result (self.new ≡ self.old) }
    {
        self.own.push(pdu, unit_of(row, self.offered))?;
        self.phase = phase_after(row, self.phase);
        self.offered = offered_after(row, self.offered);
        self.owes = owes_after(row, self.owes);
        self.clock = clock;
        Ok(())
    }

    fn try_make(&mut self, pdu: &Pdu<'a>, clock: u64, why: Why) -> Result<(), Fault>
        ensures ok { OnOk result ((MakeRule.make_fault self.old.params self.old.state (value_of pdu.now).safety clock why ≡ None) × (self.new ≡ record self.old { state = MakeRule.after_make self.old.state (value_of pdu.now).safety clock why })) }
        ensures err { IfErr result (λ fault. (self.new ≡ self.old) × IsMakeRefusal self.old.params self.old.state (value_of pdu.now).safety clock why fault) }
    {
        let row = self.make_row(pdu, why);
        if let Some(number) = self.make_fault(row, pdu, clock, why) {
            return Err(Fault::of_end(number, 0, self.side));
        }
        let Some(row) = row else {
            return Err(Fault::of_end(Fault::NOT_ALLOWED, 0, self.side));
        };
        self.record_make(row, pdu, clock)?;
        Ok(())
    }

    /// Makes a PDU of this side at this clock (whole milliseconds) for this reason, by the row of the
    /// make table.
    ///
    /// Refused, in this order, by [`Fault::CLOSED`], [`Fault::NOT_ALLOWED`], [`Fault::REPLY_OWED`],
    /// [`Fault::SEQUENCE_NUMBER`], [`Fault::CLOCK_DIFFERS`], [`Fault::CLOCK_FALLS`],
    /// [`Fault::PAST_DEADLINE`], [`Fault::TOO_EARLY_TIMEOUT`], [`Fault::CONFIRMED_NUMBER`],
    /// [`Fault::CONFIRMED_TIME`], [`Fault::RESEND_DIFFERS`] (all with place 0 and this end) and
    /// [`Fault::NO_MEMORY`]; the end is then as before.
    pub fn make(&mut self, pdu: &Pdu<'a>, clock: u64, why: Why) -> Result<(), Fault>
        ensures ok { OnOk result ((MakeRule.make_fault self.old.params self.old.state (value_of pdu.now).safety clock why ≡ None) × (self.new ≡ record self.old { state = MakeRule.after_make self.old.state (value_of pdu.now).safety clock why })) }
        ensures err { IfErr result (λ fault. (self.new ≡ self.old) × IsMakeRefusal self.old.params self.old.state (value_of pdu.now).safety clock why fault) }
        ensures owed { length self.new.state.owed ≤ self.new.state.offered + 2 }
    {
        let made = self.try_make(pdu, clock, why);
        self.owes_few();
        made
    }
}
