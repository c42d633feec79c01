//! One end of a connection.
ghost use Rattle.std.specs.Prelude.{◌≡◌, ◌≤◌, ◌<◌, ◌+◌, ◌^◌, [], ◌∷◌, length, map, option_map, slice_get, Some, None, IfSome};
ghost use Rattle.rasta_pcap.specs.declared.fault.Side.TheVariants.{Client, Server};
ghost use Rattle.rasta_end.specs.declared.phase.Phase.TheVariants.{Closed, Down};
ghost use Rattle.rasta_end.specs.State;
ghost use Rattle.rasta_end.specs.State.{first_sn, kinds, raised};
ghost use Rattle.rasta_end.specs.Units.{units_conveyed};
ghost use Rattle.rasta_end.specs.Starts;
ghost use Rattle.rasta_end.specs.Starts.{fresh_end, quiet_end, start_of};
ghost use Rattle.rasta_end.specs.Kept.{quiet_made};
ghost use Rattle.rasta_end.specs.Judged.{safety_of, JudgedEnd};

use crate::deadline::ahead_by;
use crate::made_pdus::{MadePdus, QuietPdu};
use crate::owed::Owes;
use crate::phase::Phase;
use rasta_pdu::{Params, Pdu, QuietEnd, Side};
use std::alloc::{AllocError, Global};
use std::marker::Model;

/// One end of a connection, with the parameters by which it is judged.
#[derive(Drop)]
pub struct End<'a> {
    pub(crate) params: Params,
    pub(crate) side: Side,
    pub(crate) phase: Phase,
    pub(crate) own: MadePdus<'a>,
    pub(crate) accepted: u64,
    pub(crate) last_sn: u32,
    pub(crate) last_ts: u32,
    pub(crate) timed_ts: Option<u32>,
    pub(crate) handed_ts: Option<u32>,
    pub(crate) confirmed: usize,
    pub(crate) offered: usize,
    pub(crate) handed: Vec<Pdu<'a>>,
    pub(crate) handed_positions: Vec<u64>,
    pub(crate) owes: Owes,
    pub(crate) clock: u64,
    pub(crate) deadline: Option<u128>,
}

impl<'a> Model for End<'a> {
    ghost use Rattle.rasta_end.specs.Judged.{JudgedEnd, judged_end, IsKept};

    ghost Value = { JudgedEnd };

    ghost view = { judged_end };

    ghost invariant = { IsKept };
}

// The bits of a clock that a PDU carries.
fn wrapped(clock: u64) -> u32
    ensures { result ≡ State.wrapped clock }
{
    (clock % (1 << 32)) as u32
}

fn sn_before(sn: u32) -> u32
    ensures { result ≡ Starts.sn_before sn }
{
    sn.wrapping_sub(1)
}

fn moved_deadline(deadline: Option<u64>) -> Option<u128>
    ensures value { result ≡ option_map raised deadline }
    ensures bound { IfSome result (λ d. d < 2 ^ 66) }
{
    match deadline {
        Some(deadline) => Some(u128::from(deadline) + (1 << 32)),
        None => None,
    }
}

// The quiet PDU of an end, by what is recorded of it and of its peer.
fn quiet_pdu(own: QuietEnd, other: QuietEnd) -> QuietPdu
    ensures { quiet_made (Some result) ≡ record { pdu = Starts.quiet_pdu own other; unit = None } ∷ [] }
{
    QuietPdu {
        sn: sn_before(own.next_sn),
        cs: sn_before(other.next_sn),
        ts: wrapped(own.clock),
        cts: wrapped(other.clock),
    }
}

impl<'a> End<'a> {
    fn fresh(alloc: Global, params: &Params, side: Side, phase: Phase) -> End<'a>
        ensures { result ≡ record { params = params.now; state = fresh_end side phase } }
    {
        End {
            params: *params,
            side,
            phase,
            own: MadePdus::new(alloc, None),
            accepted: 0,
            last_sn: 0,
            last_ts: 0,
            timed_ts: None,
            handed_ts: None,
            confirmed: 0,
            offered: 0,
            handed: Vec::new(alloc),
            handed_positions: Vec::new(alloc),
            owes: Owes::nothing(),
            clock: 0,
            deadline: None,
        }
    }

    fn quiet(alloc: Global, params: &Params, side: Side, own: QuietEnd, other: QuietEnd) -> End<'a>
        ensures { result ≡ record { params = params.now; state = quiet_end side own other } }
    {
        End {
            params: *params,
            side,
            phase: Phase::Up,
            own: MadePdus::new(alloc, Some(quiet_pdu(own, other))),
            accepted: 1,
            last_sn: sn_before(other.next_sn),
            last_ts: wrapped(other.clock),
            timed_ts: Some(wrapped(other.clock)),
            handed_ts: other.handed_ts,
            confirmed: 0,
            offered: 0,
            handed: Vec::new(alloc),
            handed_positions: Vec::new(alloc),
            owes: Owes::nothing(),
            clock: own.clock,
            deadline: moved_deadline(own.deadline),
        }
    }

    /// A client before the opening: it has made nothing.
    pub fn client(alloc: Global, params: &Params) -> End<'a>
        ensures { result ≡ record { params = params.now; state = fresh_end Client Closed } }
    {
        End::fresh(alloc, params, Side::Client, Phase::Closed)
    }

    /// A server before the opening: it waits for a connection request.
    pub fn server(alloc: Global, params: &Params) -> End<'a>
        ensures { result ≡ record { params = params.now; state = fresh_end Server Down } }
    {
        End::fresh(alloc, params, Side::Server, Phase::Down)
    }

    /// The end of this side at the recorded quiet point, or before the opening where none is
    /// recorded.
    pub fn start(alloc: Global, params: &Params, side: Side) -> End<'a>
        ensures { result ≡ record { params = params.now; state = start_of params.now side } }
    {
        match (params.quiet(), side) {
            (None, Side::Client) => End::client(alloc, params),
            (None, Side::Server) => End::server(alloc, params),
            (Some(quiet), _) => {
                End::quiet(alloc, params, side, quiet.of(side), quiet.of(side.other()))
            }
        }
    }

    /// Makes room for so many more PDUs made, and so many more handed up; nothing else changes.
    pub fn reserve(&mut self, made: usize, handed: usize) -> Result<(), AllocError>
        ensures { self.new ≡ self.old }
    {
        self.own.reserve(made)?;
        self.handed.try_reserve_exact(handed)?;
        self.handed_positions.try_reserve_exact(handed)
    }

    /// The phase.
    pub fn phase(&self) -> Phase
        ensures { result ≡ self.now.state.phase }
    {
        self.phase
    }

    /// One more than the position of the PDU that was accepted last, 0 where there is none.
    pub fn accepted(&self) -> u64
        ensures { result ≡ self.now.state.accepted }
    {
        self.accepted
    }

    /// How many units were offered.
    pub fn offered(&self) -> usize
        ensures { result ≡ self.now.state.offered }
    {
        self.offered
    }

    /// How many PDUs were made since the start, without that of a quiet point.
    pub fn made(&self) -> usize
        ensures { self.now.state.base + result ≡ length self.now.state.made }
    {
        self.own.made()
    }

    /// The PDU of this number, from 0, among those that were made since the start.
    pub fn made_at(&self, index: usize) -> Option<Pdu<'a>>
        ensures { option_map safety_of result ≡ option_map (λ (m : State.Made). m.pdu) (slice_get self.now.state.made (self.now.state.base + index)) }
    {
        self.own.get(index)
    }

    /// How many PDUs are owed.
    pub fn owed(&self) -> usize
        ensures value { result ≡ length self.now.state.owed }
        ensures bound { result ≤ self.now.state.offered + 2 }
    {
        self.owes.len()
    }

    /// How many units were conveyed through the own position that has this SN, 0 where none has it.
    pub fn units_confirmed(&self, sn: u32) -> usize
        ensures { result ≡ units_conveyed self.now.state.asks (kinds self.now.state.made) (State.ahead_by sn (first_sn self.now.state.made)) }
    {
        self.own
            .units_through(ahead_by(sn, self.own.first_sn()) as usize)
    }

    /// The data and retransmitted data whose units were handed up, in order.
    pub fn handed(&self) -> &[Pdu<'a>]
        ensures { map safety_of result.now ≡ self.now.state.handed_pdus }
    {
        self.handed.as_slice()
    }
}
