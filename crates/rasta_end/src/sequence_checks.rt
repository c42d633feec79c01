//! Where a PDU of the peer stands, and what it confirms.
ghost use Rattle.std.specs.Prelude.{◌≡◌, ◌≤◌, ◌<◌, ◌+◌, ◌^◌, length, true};
ghost use Rattle.rasta_pdu.specs.Pdu.{value_of};
ghost use Rattle.rasta_end.specs.State.{sn_at};
ghost use Rattle.rasta_end.specs.State;
ghost use Rattle.rasta_end.specs.TakeRule;

use crate::deadline::ahead_by;
use crate::end::End;
use rasta_pdu::Pdu;

impl<'a> End<'a> {
    /// How many steps after the next position of the peer the PDU stands.
    pub(crate) fn steps_past_next(&self, pdu: &Pdu<'a>) -> u32
        ensures { result ≡ TakeRule.steps_past_next self.now.state (value_of pdu.now).safety }
    {
        ahead_by(pdu.sn(), self.last_sn.wrapping_add(1))
    }

    pub(crate) fn is_in(&self, pdu: &Pdu<'a>) -> bool
        ensures { result ≡ TakeRule.is_in self.now.state (value_of pdu.now).safety }
    {
        self.steps_past_next(pdu) == 0
    }

    pub(crate) fn is_ahead(&self, pdu: &Pdu<'a>) -> bool
        ensures { result ≡ TakeRule.is_ahead self.now.params self.now.state (value_of pdu.now).safety }
    {
        let steps = self.steps_past_next(pdu);
        steps > 0 && steps <= 10 * u32::from(self.params.n_sendmax())
    }

    fn confirmed_sn(&self) -> u32
        ensures { result ≡ sn_at self.now.state.made self.now.state.confirmed }
    {
        self.own.sn_at(self.confirmed)
    }

    /// How many steps after the confirmed position the PDU confirms.
    fn steps_past_confirmed(&self, pdu: &Pdu<'a>) -> u32
        ensures { result ≡ TakeRule.steps_past_confirmed self.now.state (value_of pdu.now).safety }
    {
        ahead_by(pdu.cs(), self.confirmed_sn())
    }

    /// Whether the PDU confirms an own position from the confirmed one on.
    pub(crate) fn is_valid(&self, pdu: &Pdu<'a>) -> bool
        ensures { result ≡ TakeRule.is_valid self.now.state (value_of pdu.now).safety }
    {
        let next_sn = self.own.sn_at(self.own.len());
        self.steps_past_confirmed(pdu) < ahead_by(next_sn, self.confirmed_sn())
    }

    /// The own position that the PDU confirms.
    pub(crate) fn position_confirmed(&self, pdu: &Pdu<'a>) -> usize
        requires { TakeRule.is_valid self.now.state (value_of pdu.now).safety ≡ true }
        ensures value { result ≡ TakeRule.position_confirmed self.now.state (value_of pdu.now).safety }
        ensures bound { result < length self.now.state.made }
    {
        self.confirmed + self.steps_past_confirmed(pdu) as usize
    }
}
