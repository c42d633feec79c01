//! The phases of an end.
ghost use Rattle.std.specs.Prelude.{◌≡◌};
ghost use Rattle.rasta_end.specs.State;

/// The phase of an end: closed, or waiting for a connection request, or opening, or connected; a
/// connected end may wait for a retransmission, or be in one.
#[derive(Clone, Copy, PartialEq, Eq)]
pub enum Phase {
    Closed,
    Down,
    Start,
    Up,
    RetrReq,
    RetrRun,
}

impl Phase {
    pub(crate) fn is_closed(self) -> bool
        ensures { result ≡ State.is_closed self }
    {
        matches!(self, Phase::Closed)
    }

    pub(crate) fn is_start(self) -> bool
        ensures { result ≡ State.is_start self }
    {
        matches!(self, Phase::Start)
    }

    pub(crate) fn is_up(self) -> bool
        ensures { result ≡ State.is_up self }
    {
        matches!(self, Phase::Up)
    }

    pub(crate) fn is_retr_req(self) -> bool
        ensures { result ≡ State.is_retr_req self }
    {
        matches!(self, Phase::RetrReq)
    }

    pub(crate) fn is_retr_run(self) -> bool
        ensures { result ≡ State.is_retr_run self }
    {
        matches!(self, Phase::RetrRun)
    }

    pub(crate) fn is_connected(self) -> bool
        ensures { result ≡ State.is_connected self }
    {
        self.is_up() || self.is_retr_req() || self.is_retr_run()
    }

    pub(crate) fn is_active(self) -> bool
        ensures { result ≡ State.is_active self }
    {
        self.is_start() || self.is_connected()
    }
}
