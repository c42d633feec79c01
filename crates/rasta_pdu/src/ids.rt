//! Receiver and sender.
ghost use Rattle.std.specs.Prelude.{◌≡◌};
ghost use Rattle.rasta_pdu.specs.Params.{AreParameters};
ghost use Rattle.rasta_pdu.specs.Pdu.{receiver_of, sender_of};

use crate::params::Params;
use rasta_udp::Side;

/// The recorded receiver and sender of what this side sends.
pub fn recorded_ids(params: &Params, side: Side) -> (u32, u32)
    ensures receiver { result.0 ≡ receiver_of params.now side }
    ensures sender { result.1 ≡ sender_of params.now side }
    ensures valid { AreParameters params.now }
{
    match side {
        Side::Client => (params.server_id(), params.client_id()),
        Side::Server => (params.client_id(), params.server_id()),
    }
}
