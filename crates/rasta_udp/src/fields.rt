//! The fields of a frame, where it has them.
ghost use Rattle.std.specs.Prelude.{◌≡◌, ◌+◌, ◌≤◌, length};
ghost use Rattle.rasta_udp.specs.Frame.{big_at, header_length_of, is_tagged, untagged};

use crate::layout::{TAG, TAGGED, TYPE_AT, VERSION_AT};
use byteorder::{BigEndian, ByteOrder};

/// The number in the two bytes from this place on, the highest byte first.
#[tactic(auto, unfolding(crate::specs::Frame::big_at))]
pub fn u16_at(bytes: &[u8], place: usize) -> u16
    requires { place + 2 ≤ length bytes.now }
    ensures { result ≡ big_at 2 place bytes.now }
{
    BigEndian::read_u16(&bytes[place..])
}

/// The number in the four bytes from this place on, the highest byte first.
#[tactic(auto, unfolding(crate::specs::Frame::big_at))]
pub fn u32_at(bytes: &[u8], place: usize) -> u32
    requires { place + 4 ≤ length bytes.now }
    ensures { result ≡ big_at 4 place bytes.now }
{
    BigEndian::read_u32(&bytes[place..])
}

/// The length of the header of IPv4 in a frame without a tag, in bytes.
pub fn header_length(frame: &[u8]) -> usize
    requires { 15 ≤ length frame.now }
    ensures { result ≡ header_length_of frame.now }
{
    4 * (frame[VERSION_AT] & 0x0f) as usize
}

/// Whether the frame has a tag of IEEE 802.1Q, which is passed over where datagrams are read.
pub fn is_tagged(frame: &[u8]) -> bool
    ensures { result ≡ is_tagged frame.now }
{
    frame.len() >= 16 && u16_at(frame, TYPE_AT) == TAGGED
}

/// The frame from its tag on, with as many bytes before its type as if it had none.
pub fn untagged(frame: &[u8]) -> &[u8]
    ensures { result.now ≡ untagged frame.now }
{
    if is_tagged(frame) {
        &frame[TAG..]
    } else {
        frame
    }
}
