//! The make table.
ghost use Rattle.std.specs.Prelude.{◌≡◌, ◌≤◌, IfSome};
ghost use Rattle.rasta_end.specs.State;
ghost use Rattle.rasta_end.specs.MakeRule;
ghost use Rattle.rasta_end.specs.Units.{responses_after};
ghost use Rattle.rasta_end.specs.Judged.{responses_paid};
ghost use Rattle.rasta_end.specs.MakeRule.{make_row};

use crate::phase::Phase;
use crate::why::Why;
use rasta_pdu::{Kind, Side};

/// A row of the make table.
#[derive(Clone, Copy)]
pub enum MakeRow {
    /// The connection request.
    Opens,
    /// The connection response.
    Answers,
    /// The first heartbeat of the client.
    StartsBeating,
    /// A retransmission response.
    Resumes,
    /// Retransmitted data, of the unit of this number.
    Resends(u32),
    /// A retransmission request.
    Requests,
    /// A heartbeat.
    Beats,
    /// Data.
    Offers,
    /// A disconnection request for another reason than the deadline.
    Leaves,
    /// A disconnection request since the deadline has passed.
    TimesOut,
}

/// Whether this is the client.
pub fn is_client(side: Side) -> bool
    ensures { result ≡ State.is_client side }
{
    matches!(side, Side::Client)
}

impl MakeRow {
    /// The row of this reason and type; `reason` is that of a disconnection request.
    pub fn of(side: Side, phase: Phase, reason: u16, why: Why, kind: Kind) -> Option<MakeRow>
        ensures value { result ≡ make_row side phase reason why kind }
        ensures pays { IfSome result (λ row. responses_after 0 kind ≤ responses_paid row) }
    {
        match (why, kind) {
            (Why::Open, Kind::ConnectionRequest) => {
                (is_client(side) && phase.is_closed()).then_some(MakeRow::Opens)
            }
            (Why::Reply, Kind::ConnectionResponse) => {
                (!is_client(side) && phase.is_start()).then_some(MakeRow::Answers)
            }
            (Why::Reply, Kind::Heartbeat) => {
                (is_client(side) && phase.is_up()).then_some(MakeRow::StartsBeating)
            }
            (Why::Reply, Kind::RetransmissionResponse) => {
                phase.is_connected().then_some(MakeRow::Resumes)
            }
            (Why::Again(unit), Kind::RetransmittedData) => {
                phase.is_connected().then_some(MakeRow::Resends(unit))
            }
            (Why::Ask, Kind::RetransmissionRequest) => {
                phase.is_connected().then_some(MakeRow::Requests)
            }
            (Why::Beat, Kind::Heartbeat) => phase.is_connected().then_some(MakeRow::Beats),
            (Why::Fresh, Kind::Data) => phase.is_connected().then_some(MakeRow::Offers),
            (Why::Bye, Kind::DisconnectionRequest) => {
                (phase.is_active() && reason != 4).then_some(MakeRow::Leaves)
            }
            (Why::Expired, Kind::DisconnectionRequest) => {
                (phase.is_active() && reason == 4).then_some(MakeRow::TimesOut)
            }
            _ => None,
        }
    }
}
