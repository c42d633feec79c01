//! The packet of the connection in a record.
ghost use Rattle.std.specs.Prelude.{◌≡◌};
ghost use Rattle.rasta_pdu.specs.Params.{AreParameters};
ghost use Rattle.rasta_pdu.specs.Records.{recorded_packet};
ghost use Rattle.rasta_udp.specs.Frame.{map_found, packet_of};

use crate::params::Params;
use rasta_udp::{Datagram, Fault, Record, datagram};

/// The packet of the connection that a record of the window holds: none where the record stands before the window, or
/// holds none of the recorded channels.
///
/// Refused as [`datagram`] refuses, at the number of the record.
#[inline(always)]
pub fn recorded_packet<'a>(
    params: &Params,
    record: &Record<'a>,
) -> Result<Option<Datagram<'a>>, Fault>
    ensures packet { map_found packet_of result ≡ recorded_packet params.now («record».now.number, «record».now.bytes.now) }
    ensures valid { AreParameters params.now }
{
    if record.number < params.first_record() {
        return Ok(None);
    }
    match datagram(record, params.channel()) {
        Ok(found) => Ok(found),
        Err(fault) => Err(Fault::at(fault.number, record.number)),
    }
}
