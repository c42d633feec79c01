//! Between which hosts a frame goes.
ghost use Rattle.std.specs.Prelude.{◌≡◌, ◌+◌, ◌*◌, ◌^◌, ◌≤◌, length};
ghost use Rattle.rasta_udp.specs.Frame.{address_of, fields_of};
ghost use Rattle.seatmelon_audit.specs.Hosts.{hosts_between, hosts_in, hosts_of};

use rasta_udp::Endpoint;
use rasta_udp::fields::{is_tagged, u32_at};
use rasta_udp::layout::{DESTINATION_AT, LEAST_IPV4_FRAME, SOURCE_AT, TAG};

// The addresses of two hosts as one number, the first in its high half.
fn joined(source: u32, destination: u32) -> u64
    ensures { result ≡ source * 2 ^ 32 + destination }
{
    u64::from(source) * 0x1_0000_0000 + u64::from(destination)
}

/// The addresses of two hosts as one number, the source's in its high half.
pub fn hosts_between(source: &Endpoint, destination: &Endpoint) -> u64
    ensures { result ≡ hosts_between source.now destination.now }
{
    joined(u32_at(&source.address, 0), u32_at(&destination.address, 0))
}

// The hosts between which a frame without a tag goes; none where it is too short for a header of IPv4.
fn untagged_hosts(frame: &[u8]) -> Option<u64>
    ensures { result ≡ hosts_in (fields_of frame.now) }
{
    if frame.len() < LEAST_IPV4_FRAME {
        return None;
    }
    Some(joined(u32_at(frame, SOURCE_AT), u32_at(frame, DESTINATION_AT)))
}

/// The hosts between which a frame goes, as [`hosts_between`] has them; none where it is too short for a header of IPv4.
/// What it holds otherwise isn't looked at.
pub fn hosts_of(frame: &[u8]) -> Option<u64>
    ensures { result ≡ hosts_of frame.now }
{
    if is_tagged(frame) {
        // Nothing of the first 12 bytes is read.
        untagged_hosts(&frame[TAG..])
    } else {
        untagged_hosts(frame)
    }
}
