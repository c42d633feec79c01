//! The script of one end, found packet by packet.
ghost use Rattle.std.specs.Prelude.{◌≡◌, ◌^◌, ◌≤◌, ◌-◌, ℕ, length, [], ◌+◌, ◌<◌, Some, None, OnOk, IfErr};
ghost use Rattle.rasta_pdu.specs.Pdu.{value_of};
ghost use Rattle.rasta_end.specs.State;
ghost use Rattle.rasta_end.specs.State.{is_retr_req};
ghost use Rattle.rasta_end.specs.TakeRule.{take_fault, after_take};
ghost use Rattle.rasta_build.specs.Built;
ghost use Rattle.rasta_build.specs.Built.{built_at_start, progress_of};
ghost use Rattle.rasta_build.specs.Choices;
ghost use Rattle.rasta_build.specs.Choices.{is_unanswered, next_unit, why_of};
ghost use Rattle.rasta_build.specs.Explaining;
ghost use Rattle.rasta_build.specs.Explaining.{take_step, accept_step, accept_from, try_step, take_step_by, make_step};

use crate::clock::clock_from;
use crate::halt::Halt;
use crate::peer::Peer;
use crate::rules::{Confirmation, Rule};
use crate::stuck::Stuck;
use rasta_cert::Entry;
use rasta_check::SentList;
use rasta_end::{End, Phase, Why};
use rasta_pdu::{Body, Fault, Kind, Params, Pdu, Side};
use std::alloc::Global;
use std::marker::Model;

/// The reason of a disconnection request by which an end says that nothing came in time.
const TIMEOUT: u16 = 4;

/// An end, with the entries that led it so far.
#[derive(Drop)]
pub(crate) struct ScriptBuilder<'a> {
    side: Side,
    end: End<'a>,
    peer: Peer,
    script: Vec<Entry>,
    // Of the last make.
    clock: u64,
    // The least position that may still be taken.
    next_take: u64,
    // How many requests are owed after the burst that is owed: 0 or 1.
    trail: usize,
    // What sets the deadline; none where the quiet point does, or nothing. A contract doesn't see it.
    confirmed: Option<Confirmation>,
}

impl<'a> Model for ScriptBuilder<'a> {
    ghost use Rattle.rasta_build.specs.Built.{Built};

    ghost Value = { Built };

    ghost view = { λ b. record {
      side = b.side;
      end = b.end;
      peer = b.peer;
      script = b.script.items;
      clock = b.clock;
      next_take = b.next_take;
      trail = b.trail;
    } };
}

// How far an end has come: a take that changes none of it has no effect.
#[derive(Clone, Copy, PartialEq, Eq)]
struct Progress {
    accepted: u64,
    owed: usize,
    phase: Phase,
}

// Whether a PDU of the peer, ahead of what was accepted, can be what an end answers or asks for.
fn is_trigger(made: Kind, taken: Kind) -> bool
    ensures { result ≡ Choices.is_trigger made taken }
{
    match made {
        Kind::RetransmissionResponse => matches!(taken, Kind::RetransmissionRequest),
        Kind::RetransmissionRequest => {
            matches!(
                taken,
                Kind::Heartbeat | Kind::Data | Kind::RetransmittedData
            )
        }
        _ => false,
    }
}

// Whether a PDU of this type is made only where it is owed.
fn wants_trigger(made: Kind) -> bool
    ensures { result ≡ Choices.wants_trigger made }
{
    matches!(
        made,
        Kind::RetransmissionResponse | Kind::RetransmissionRequest
    )
}

// Why an end makes this disconnection request.
fn why_ended<'a>(pdu: &Pdu<'a>) -> Why
    ensures { result ≡ Choices.why_ended (State.reason_of (value_of pdu.now).safety.body) }
{
    match pdu.body() {
        Body::Bye {
            reason: TIMEOUT,
            ..
        } => Why::Expired,
        _ => Why::Bye,
    }
}

impl<'a> ScriptBuilder<'a> {
    pub(crate) fn new(alloc: Global, params: &Params, side: Side) -> ScriptBuilder<'a>
        ensures { result ≡ built_at_start params.now side }
    {
        let (clock, next_take) = match params.quiet() {
            Some(quiet) => (quiet.of(side).clock, 1),
            None => (0, 0),
        };
        ScriptBuilder {
            side,
            end: End::start(alloc, params, side),
            peer: Peer::of(params, side),
            script: Vec::new(alloc),
            clock,
            next_take,
            trail: 0,
            confirmed: None,
        }
    }

    /// The script.
    pub(crate) fn into_script(self) -> Vec<Entry>
        ensures { result.items ≡ self.entry.script }
    {
        self.script
    }

    /// Goes on with what explains a first copy of this end, at this place.
    pub(crate) fn explain<S: SentList<'a>>(
        &mut self,
        params: &Params,
        peer: &S,
        place: u32,
        pdu: &Pdu<'a>,
    ) -> Result<(), Halt>
        requires params { self.old.end.params ≡ params.now }
        requires accepted { self.old.end.state.accepted < 2 ^ 62 }
        ensures ok { OnOk result (Explaining.explain (S.content peer.now) place (value_of pdu.now).safety self.old ≡ Some self.new) }
        ensures err { IfErr result (λ stuck. stuck ≡ Stuck.Unexplained → Explaining.explain (S.content peer.now) place (value_of pdu.now).safety self.old ≡ None) }
    {
        self.take_for(params, peer, place, pdu)?;
        self.make(params, place, pdu)
    }

    // Takes what must have been taken before the end makes this PDU.
    fn take_for<S: SentList<'a>>(
        &mut self,
        params: &Params,
        peer: &S,
        place: u32,
        pdu: &Pdu<'a>,
    ) -> Result<(), Halt>
        requires params { self.old.end.params ≡ params.now }
        requires accepted { self.old.end.state.accepted < 2 ^ 62 }
        ensures ok { OnOk result (take_step_by (Choices.has_to_take self.old.side self.old.end.state (value_of pdu.now).safety.kind) (S.content peer.now) place (value_of pdu.now).safety self.old ≡ Some self.new) }
        ensures err { IfErr result (λ stuck. stuck ≡ Stuck.Unexplained → take_step_by (Choices.has_to_take self.old.side self.old.end.state (value_of pdu.now).safety.kind) (S.content peer.now) place (value_of pdu.now).safety self.old ≡ None) }
        ensures params { OnOk result (self.new.end.params ≡ self.old.end.params) }
    {
        if !self.has_to_take(pdu) {
            return Ok(());
        }
        self.accept_through(peer, place, pdu.cs())?;
        self.take_trigger(params, peer, place, pdu.kind())
    }

    // Whether the PDU tells what was accepted before it. While something is owed nothing can be taken,
    // and the CS of an opening says nothing.
    fn has_to_take(&self, pdu: &Pdu<'a>) -> bool
        ensures { result ≡ Choices.has_to_take self.now.side self.now.end.state (value_of pdu.now).safety.kind }
    {
        if self.end.owed() > 0 {
            return false;
        }
        match pdu.kind() {
            Kind::ConnectionRequest => false,
            Kind::DisconnectionRequest => !self.is_opening(),
            _ => true,
        }
    }

    // Whether this is a client that has accepted nothing.
    fn is_opening(&self) -> bool
        ensures { result ≡ is_unanswered self.now.side self.now.end.state }
    {
        matches!(self.side, Side::Client)
            && matches!(self.end.phase(), Phase::Start)
            && self.end.accepted() == 0
    }

    // Accepts what the peer sent, through the position that a CS names.
    fn accept_through<S: SentList<'a>>(&mut self, peer: &S, place: u32, cs: u32) -> Result<(), Halt>
        requires { self.old.end.state.accepted < 2 ^ 62 }
        ensures ok { OnOk result (Explaining.accept_through (S.content peer.now) place self.old (Choices.position_named self.old.peer.quiet_sn (S.content peer.now) cs) ≡ Some self.new) }
        ensures err { IfErr result (λ stuck. stuck ≡ Stuck.Unexplained → Explaining.accept_through (S.content peer.now) place self.old (Choices.position_named self.old.peer.quiet_sn (S.content peer.now) cs) ≡ None) }
        ensures params { OnOk result (self.new.end.params ≡ self.old.end.params) }
        ensures accepted { OnOk result (self.new.end.state.accepted < 2 ^ 62) }
    {
        let Some(last) = self.peer.position_named(peer, cs) else {
            return Err(Halt::by(Rule::PeerIsSilent));
        };
        let next = self.end.accepted();
        let bound = u64::from(last) + 1;
        if bound == next {
            return Ok(());
        }
        if bound < next || !self.peer.has_crossed(peer, u64::from(last), place) {
            return Err(Halt::by(self.why_unconfirmed(peer, cs, last)));
        }
        let Some(first) = self.first_acceptable(peer, next, bound) else {
            return Err(Halt::by(Rule::NoResponse));
        };
        self.accept_range(peer, place, first, bound)
    }

    // Why a CS that names this position can't be confirmed: it comes before what is accepted, or hasn't crossed.
    fn why_unconfirmed<S: SentList<'a>>(&self, peer: &S, cs: u32, last: u32) -> Rule {
        let bound = u64::from(last) + 1;
        match (
            self.end.accepted().checked_sub(bound),
            self.peer.get(peer, u64::from(last)),
        ) {
            (Some(passed), _) => Rule::ConfirmsEarlier {
                confirmed: cs.wrapping_add((passed % (1 << 32)) as u32),
            },
            (None, Some((_, pdu))) => Rule::ConfirmsLater {
                number: pdu.number(),
            },
            (None, None) => Rule::ConfirmsNone,
        }
    }

    // The first position to be accepted, from one on and before another: an end that waits for a
    // retransmission accepts the last response among them first.
    fn first_acceptable<S: SentList<'a>>(&self, peer: &S, next: u64, bound: u64) -> Option<u64>
        ensures { result ≡ Explaining.first_acceptable (is_retr_req self.now.end.state.phase) self.now.peer.quiet_sn (S.content peer.now) next (bound - next) }
    {
        if matches!(self.end.phase(), Phase::RetrReq) {
            self.peer.last_response(peer, next, bound)
        } else {
            Some(next)
        }
    }

    // Accepts each PDU from one position on and before another.
    fn accept_range<S: SentList<'a>>(
        &mut self,
        peer: &S,
        slot: u32,
        first: u64,
        bound: u64,
    ) -> Result<(), Halt>
        requires accepted { self.old.end.state.accepted < 2 ^ 62 }
        requires few { bound < 2 ^ 33 }
        ensures ok { OnOk result (accept_from (S.content peer.now) slot first (bound - first) self.old ≡ Some self.new) }
        ensures err { IfErr result (λ stuck. stuck ≡ Stuck.Unexplained → accept_from (S.content peer.now) slot first (bound - first) self.old ≡ None) }
        ensures params { OnOk result (self.new.end.params ≡ self.old.end.params) }
        ensures accepted { OnOk result (self.new.end.state.accepted < 2 ^ 62) }
    {
        for position in first..bound {
            self.accept_at(peer, slot, position)?;
        }
        Ok(())
    }

    // Takes the PDU at a position, which has to be accepted.
    fn accept_at<S: SentList<'a>>(&mut self, peer: &S, slot: u32, position: u64) -> Result<(), Halt>
        requires { self.old.end.state.accepted < 2 ^ 62 }
        ensures ok { OnOk result (accept_step (S.content peer.now) slot position self.old ≡ Some self.new) }
        ensures err { IfErr result (λ stuck. stuck ≡ Stuck.Unexplained → accept_step (S.content peer.now) slot position self.old ≡ None) }
    {
        let Some((_, pdu)) = self.peer.get(peer, position) else {
            return Err(Halt::by(Rule::ConfirmsNone));
        };
        self.take(slot, position, &pdu)?;
        match self.end.accepted().checked_sub(1) {
            Some(last) if last == position => {
                self.note_confirmed(&pdu);
                Ok(())
            }
            _ => Err(Halt::by(Rule::NotAccepted {
                number: pdu.number(),
            })),
        }
    }

    // Notes what sets the deadline, where an accepted PDU of this kind does.
    fn note_confirmed(&mut self, pdu: &Pdu<'a>)
        ensures { self.new ≡ self.old }
    {
        if matches!(
            pdu.kind(),
            Kind::Heartbeat | Kind::Data | Kind::RetransmittedData
        ) {
            let age = ((self.clock % (1 << 32)) as u32).wrapping_sub(pdu.cts());
            self.confirmed = Some(Confirmation {
                number: pdu.number(),
                time: self.clock.checked_sub(u64::from(age)),
            });
        }
    }

    // Takes what makes an end answer or ask, if its next PDU says that it did: the first PDU ahead of what
    // was accepted that does.
    fn take_trigger<S: SentList<'a>>(
        &mut self,
        params: &Params,
        peer: &S,
        place: u32,
        made: Kind,
    ) -> Result<(), Halt>
        requires params { self.old.end.params ≡ params.now }
        requires accepted { self.old.end.state.accepted < 2 ^ 62 }
        ensures ok { OnOk result (Explaining.take_trigger (S.content peer.now) place made self.old ≡ Some self.new) }
        ensures err { IfErr result (λ stuck. stuck ≡ Stuck.Unexplained → Explaining.take_trigger (S.content peer.now) place made self.old ≡ None) }
        ensures params { OnOk result (self.new.end.params ≡ self.old.end.params) }
    {
        if self.end.owed() > 0 || !wants_trigger(made) {
            return Ok(());
        }
        let accepted = self.end.accepted();
        let first = (accepted + 1).max(self.next_take);
        let bound = accepted + 1 + 10 * u64::from(params.n_sendmax());
        self.scan(peer, place, made, first, bound)
    }

    // Of the PDUs from one position on and before another, takes the first that makes something owed.
    fn scan<S: SentList<'a>>(
        &mut self,
        peer: &S,
        place: u32,
        made: Kind,
        first: u64,
        bound: u64,
    ) -> Result<(), Halt>
        requires accepted { self.old.end.state.accepted < 2 ^ 62 }
        requires few { bound ≤ first + 2 ^ 20 }
        ensures ok { OnOk result (Explaining.scan (S.content peer.now) place made first (bound - first) self.old ≡ Some self.new) }
        ensures err { IfErr result (λ stuck. stuck ≡ Stuck.Unexplained → Explaining.scan (S.content peer.now) place made first (bound - first) self.old ≡ None) }
        ensures params { OnOk result (self.new.end.params ≡ self.old.end.params) }
    {
        for position in first..bound {
            self.try_at(peer, place, position, made)?;
            if self.end.owed() > 0 {
                return Ok(());
            }
        }
        Err(Halt::by(Rule::nothing_for(made)))
    }

    // Takes the PDU at a position, which has to have crossed, where it can be what the end answers or asks
    // for.
    fn try_at<S: SentList<'a>>(
        &mut self,
        peer: &S,
        slot: u32,
        position: u64,
        made: Kind,
    ) -> Result<(), Halt>
        requires { self.old.end.state.accepted < 2 ^ 63 }
        ensures ok { OnOk result (try_step (S.content peer.now) slot made position self.old ≡ Some self.new) }
        ensures err { IfErr result (λ stuck. stuck ≡ Stuck.Unexplained → try_step (S.content peer.now) slot made position self.old ≡ None) }
    {
        match self.peer.get(peer, position) {
            Some((crossed_at, pdu)) if crossed_at < slot => {
                self.try_trigger(slot, position, made, &pdu)
            }
            _ => Err(Halt::by(Rule::nothing_for(made))),
        }
    }

    // Takes a PDU of the peer where it can be what the end answers or asks for.
    fn try_trigger(
        &mut self,
        slot: u32,
        position: u64,
        made: Kind,
        pdu: &Pdu<'a>,
    ) -> Result<(), Halt>
        requires { self.old.end.state.accepted < 2 ^ 63 }
        ensures ok { OnOk result (Explaining.try_at (Choices.is_trigger made (value_of pdu.now).safety.kind) slot position (value_of pdu.now) self.old ≡ Some self.new) }
        ensures err { IfErr result (λ stuck. stuck ≡ Stuck.Unexplained → Explaining.try_at (Choices.is_trigger made (value_of pdu.now).safety.kind) slot position (value_of pdu.now) self.old ≡ None) }
    {
        if is_trigger(made, pdu.kind()) {
            self.take(slot, position, pdu)
        } else {
            Ok(())
        }
    }

    fn progress(&self) -> Progress
        ensures { result ≡ progress_of self.now.end.state }
    {
        Progress {
            accepted: self.end.accepted(),
            owed: self.end.owed(),
            phase: self.end.phase(),
        }
    }

    // Leads the end by the take of a PDU.
    fn lead(&mut self, pdu: &Pdu<'a>) -> Result<(), Halt>
        requires { self.old.end.state.accepted < 2 ^ 63 }
        ensures ok { OnOk result ((take_fault self.old.end.params self.old.end.state self.old.end.state.clock ≡ None) × (self.new ≡ Built.lead (after_take self.old.end.params self.old.end.state (value_of pdu.now).safety) self.old)) }
        ensures err { IfErr result (λ stuck. stuck ≡ Stuck.Unexplained → (fault : ℕ) × (take_fault self.old.end.params self.old.end.state self.old.end.state.clock ≡ Some fault)) }
    {
        match self.end.take(pdu) {
            Ok(()) => Ok(()),
            Err(fault) => Err(Halt::of(
                Stuck::from(fault),
                Rule::TakeRefused {
                    number: pdu.number(),
                    fault: fault.number,
                },
            )),
        }
    }

    // Notes a take that had an effect.
    fn note_take(
        &mut self,
        before: Progress,
        slot: u32,
        position: u64,
        pdu: &Pdu<'a>,
    ) -> Result<(), Halt>
        ensures ok { OnOk result (self.new ≡ Built.note_take before slot position (value_of pdu.now) self.old) }
        ensures err { IfErr result (λ stuck. stuck ≡ Stuck.NoMemory) }
    {
        let answers = matches!(pdu.kind(), Kind::RetransmissionRequest)
            && self.end.accepted() == before.accepted
            && matches!(before.phase, Phase::Up | Phase::RetrRun);
        self.trail = usize::from(answers);
        self.next_take = position.saturating_add(1);
        self.note(Entry::Take {
            slot,
            number: pdu.number(),
        })
    }

    // Takes a PDU that may still be taken. It is no entry of the script where it changes nothing.
    #[tactic(auto, using(crate::proofs::Effects::take_moved, crate::proofs::Effects::take_unmoved, crate::proofs::Effects::take_refused, crate::proofs::Effects::take_below))]
    fn take(&mut self, slot: u32, position: u64, pdu: &Pdu<'a>) -> Result<(), Halt>
        requires { self.old.end.state.accepted < 2 ^ 63 }
        ensures ok { OnOk result (take_step slot position (value_of pdu.now) self.old ≡ Some self.new) }
        ensures err { IfErr result (λ stuck. stuck ≡ Stuck.Unexplained → take_step slot position (value_of pdu.now) self.old ≡ None) }
    {
        if position < self.next_take {
            return Err(Halt::by(Rule::TakesEarlier {
                number: pdu.number(),
            }));
        }
        let before = self.progress();
        self.lead(pdu)?;
        if self.progress() == before {
            return Ok(());
        }
        self.note_take(before, slot, position, pdu)
    }

    fn note(&mut self, entry: Entry) -> Result<(), Halt>
        ensures ok { OnOk result (self.new ≡ Built.note entry self.old) }
        ensures err { IfErr result (λ stuck. stuck ≡ Stuck.NoMemory) }
    {
        match self.script.push(entry) {
            Ok(()) => Ok(()),
            Err(_) => Err(Halt::no_memory()),
        }
    }

    // Why the end makes this PDU; none where no unit can be sent again.
    fn why(&self, pdu: &Pdu<'a>) -> Option<Why>
        ensures { result ≡ why_of self.now.end.state self.now.trail (value_of pdu.now).safety }
    {
        match pdu.kind() {
            Kind::ConnectionRequest => Some(Why::Open),
            Kind::ConnectionResponse => Some(Why::Reply),
            Kind::RetransmissionResponse => Some(Why::Reply),
            Kind::RetransmissionRequest => Some(Why::Ask),
            Kind::Data => Some(Why::Fresh),
            Kind::RetransmittedData => Some(Why::Again(self.next_unit()?)),
            Kind::Heartbeat if self.end.owed() > 0 => Some(Why::Reply),
            Kind::Heartbeat => Some(Why::Beat),
            Kind::DisconnectionRequest => Some(why_ended(pdu)),
        }
    }

    // The unit that is to be sent again: of those that are owed, the first.
    fn next_unit(&self) -> Option<u32>
        ensures { result ≡ next_unit self.now.end.state.offered (length self.now.end.state.owed) self.now.trail }
    {
        let units = self.end.owed().checked_sub(self.trail)?;
        let unit = self.end.offered().checked_sub(units)?;
        u32::try_from(unit).ok()
    }

    // Makes the PDU at a place, at the least clock that its time stamp allows.
    fn make(&mut self, params: &Params, place: u32, pdu: &Pdu<'a>) -> Result<(), Halt>
        requires { self.old.end.params ≡ params.now }
        ensures ok { OnOk result (make_step place (value_of pdu.now).safety self.old ≡ Some self.new) }
        ensures err { IfErr result (λ stuck. stuck ≡ Stuck.Unexplained → make_step place (value_of pdu.now).safety self.old ≡ None) }
    {
        let Some(why) = self.why(pdu) else {
            return Err(Halt::by(Rule::NothingToResend));
        };
        let Some(clock) = clock_from(self.clock, pdu.ts()) else {
            return Err(Halt::by(Rule::ClockTooLarge));
        };
        match self.end.make(pdu, clock, why) {
            Ok(()) => self.note_make(place, clock, why),
            Err(fault) if fault.number == Fault::TOO_EARLY_TIMEOUT => {
                self.make_later(params, place, pdu, clock, why)
            }
            Err(fault) => Err(Halt::of_make(fault, self.end.phase(), clock, self.confirmed)),
        }
    }

    // Makes a PDU that came too early, a disconnection request for want of news, at a later clock.
    fn make_later(
        &mut self,
        params: &Params,
        place: u32,
        pdu: &Pdu<'a>,
        early: u64,
        why: Why,
    ) -> Result<(), Halt>
        requires { self.old.end.params ≡ params.now }
        ensures ok { OnOk result (Explaining.make_later place (value_of pdu.now).safety why (Some early) self.old ≡ Some self.new) }
        ensures err { IfErr result (λ stuck. stuck ≡ Stuck.Unexplained → Explaining.make_later place (value_of pdu.now).safety why (Some early) self.old ≡ None) }
    {
        let Some(next) = early.checked_add(1) else {
            return Err(Halt::by(Rule::ClockTooLarge));
        };
        let least = next.max(self.earliest_timeout(params));
        let Some(clock) = clock_from(least, pdu.ts()) else {
            return Err(Halt::by(Rule::ClockTooLarge));
        };
        match self.end.make(pdu, clock, why) {
            Ok(()) => self.note_make(place, clock, why),
            Err(fault) => Err(Halt::of_make(fault, self.end.phase(), clock, self.confirmed)),
        }
    }

    // The earliest timeout by a deadline that is recorded with a quiet point.
    fn earliest_timeout(&self, params: &Params) -> u64
        requires { self.now.end.params ≡ params.now }
        ensures { result ≡ Explaining.earliest_timeout self.now }
    {
        let deadline = match params.quiet() {
            Some(quiet) => quiet.of(self.side).deadline,
            None => None,
        };
        match deadline {
            Some(deadline) => deadline.saturating_sub(u64::from(params.slack())),
            None => 0,
        }
    }

    fn note_make(&mut self, index: u32, clock: u64, why: Why) -> Result<(), Halt>
        ensures ok { OnOk result (self.new ≡ Built.note (Entry.Make index clock why) (record self.old { clock = clock })) }
        ensures err { IfErr result (λ stuck. stuck ≡ Stuck.NoMemory) }
    {
        self.clock = clock;
        self.note(Entry::Make { index, clock, why })
    }
}
