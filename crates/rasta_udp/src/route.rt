//! From where to where a frame goes.
ghost use Rattle.std.specs.Prelude.{◌≡◌, ◌+◌, ◌≤◌, length};
ghost use Rattle.rasta_udp.specs.Route.{endpoint_at, route_of};

use crate::channel::{Channel, Endpoint};
use crate::fields::{header_length, u16_at, untagged};
use crate::layout::{DESTINATION_AT, ETHERNET_HEADER, LEAST_IPV4_FRAME, SOURCE_AT};

fn endpoint(frame: &[u8], address_at: usize, port_at: usize) -> Endpoint
    requires address { address_at + 4 ≤ length frame.now }
    requires port { port_at + 2 ≤ length frame.now }
    ensures { result ≡ endpoint_at frame.now address_at port_at }
{
    let mut address = [0u8; 4];
    address.copy_from_slice(&frame[address_at..address_at + 4]);
    Endpoint {
        address,
        port: u16_at(frame, port_at),
    }
}

/// The source and the destination that a frame has if it is UDP over IPv4, the source as the client.
#[tactic(auto, unfolding(crate::specs::Route::route_of))]
pub fn route_in(frame: &[u8]) -> Option<Channel>
    ensures { result ≡ route_of frame.now }
{
    let frame = untagged(frame);
    if frame.len() < LEAST_IPV4_FRAME {
        return None;
    }
    let udp = ETHERNET_HEADER + header_length(frame);
    if frame.len() < udp + 4 {
        return None;
    }
    Some(Channel {
        client: endpoint(frame, SOURCE_AT, udp),
        server: endpoint(frame, DESTINATION_AT, udp + 2),
    })
}
