//! The take table.
ghost use Rattle.std.specs.Prelude.{◌≡◌, ◌&&◌, ◌∷◌, [], true, IfSome};
ghost use Rattle.rasta_end.specs.MakeRule;
ghost use Rattle.rasta_end.specs.TakeRule;

use crate::make_row::is_client;
use crate::phase::Phase;
use rasta_pdu::{Kind, Side};

/// A row of the take table.
#[derive(Clone, Copy)]
pub enum TakeRow {
    /// A connection request.
    Opened,
    /// The connection response.
    Answered,
    /// The first heartbeat of the client.
    FirstHeartbeat,
    /// A heartbeat or data in sequence.
    InSequence,
    /// Retransmitted data in sequence.
    ResentInSequence,
    /// A heartbeat or data ahead.
    Gap,
    /// A heartbeat, data or retransmitted data ahead, during a retransmission.
    GapInRetransmission,
    /// A retransmission response.
    Resumed,
    /// A retransmission request in sequence.
    Requested,
    /// A retransmission request ahead.
    RequestedAhead,
    /// A retransmission request ahead, while one's own is unanswered.
    RequestedWhileAsking,
    /// A disconnection request.
    Disconnected,
}

/// Where a PDU stands and what it confirms: it is in sequence, it stands ahead, its CS is valid.
#[derive(Clone, Copy)]
pub struct Standing {
    pub next: bool,
    pub ahead: bool,
    pub valid: bool,
}

impl Standing {
    // This row for a PDU in sequence, that one for a PDU ahead, where its CS is valid.
    fn row(self, in_sequence: TakeRow, ahead: TakeRow) -> Option<TakeRow>
        ensures { result ≡ MakeRule.first_that_holds ((self.next && self.valid, in_sequence) ∷ (self.ahead && self.valid, ahead) ∷ []) }
    {
        if self.next && self.valid {
            Some(in_sequence)
        } else {
            (self.ahead && self.valid).then_some(ahead)
        }
    }
}

impl TakeRow {
    /// The row of this side and phase and of a PDU of this type.
    pub fn of(side: Side, phase: Phase, kind: Kind, standing: Standing) -> Option<TakeRow>
        ensures value { result ≡ MakeRule.first_that_holds (TakeRule.take_rows side phase kind standing.next standing.ahead standing.valid) }
        ensures valid { IfSome result (λ row. TakeRule.wants_valid row ≡ true → standing.valid ≡ true) }
    {
        let Standing { next, ahead, valid } = standing;
        match (phase, kind) {
            (Phase::Down, Kind::ConnectionRequest) => Some(TakeRow::Opened),
            (Phase::Start, Kind::ConnectionResponse) => {
                (is_client(side) && valid).then_some(TakeRow::Answered)
            }
            (Phase::Start, Kind::Heartbeat) => {
                (!is_client(side) && next && valid).then_some(TakeRow::FirstHeartbeat)
            }
            (Phase::Up, Kind::Heartbeat | Kind::Data) => {
                standing.row(TakeRow::InSequence, TakeRow::Gap)
            }
            (Phase::RetrRun, Kind::Heartbeat | Kind::Data) => {
                standing.row(TakeRow::InSequence, TakeRow::GapInRetransmission)
            }
            (Phase::RetrRun, Kind::RetransmittedData) => {
                standing.row(TakeRow::ResentInSequence, TakeRow::GapInRetransmission)
            }
            (Phase::RetrReq, Kind::RetransmissionResponse) => valid.then_some(TakeRow::Resumed),
            (Phase::Up | Phase::RetrRun, Kind::RetransmissionRequest) => {
                standing.row(TakeRow::Requested, TakeRow::RequestedAhead)
            }
            (Phase::RetrReq, Kind::RetransmissionRequest) => {
                (ahead && valid).then_some(TakeRow::RequestedWhileAsking)
            }
            (
                Phase::Start | Phase::Up | Phase::RetrReq | Phase::RetrRun,
                Kind::DisconnectionRequest,
            ) => Some(TakeRow::Disconnected),
            _ => None,
        }
    }
}
