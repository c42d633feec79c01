//! Frames of datagrams, and the records of a classic capture.
use rasta_pdu::{Channel, Side};

/// The header of a classic capture of Ethernet frames, its numbers with their lowest byte first.
pub const FILE_HEADER: &[u8; 24] =
    b"\xd4\xc3\xb2\xa1\x02\0\x04\0\0\0\0\0\0\0\0\0\0\0\x04\0\x01\0\0\0";

// Ethernet, and IPv4 up to the length, of what the client sends.
const CLIENT_FRONT: &[u8; 16] = b"\x02\0\0\0\0\x02\x02\0\0\0\0\x01\x08\0\x45\0";

// The same of what the server sends.
const SERVER_FRONT: &[u8; 16] = b"\x02\0\0\0\0\x01\x02\0\0\0\0\x02\x08\0\x45\0";

// IPv4 after the length, up to the addresses.
const MIDDLE: &[u8; 8] = b"\0\0\0\0\x40\x11\0\0";

// A length of 16 bits that is so much longer than the datagram, highest byte first.
fn length(datagram: &[u8], more: u16) -> [u8; 2] {
    u16::try_from(datagram.len())
        .unwrap_or(0)
        .wrapping_add(more)
        .to_be_bytes()
}

/// Appends the frame in which a side sends a datagram on a channel.
pub fn push_frame(
    frame: &mut Vec<u8>,
    side: Side,
    channel: &Channel,
    datagram: &[u8],
) -> Option<()> {
    let (front, from, to) = match side {
        Side::Client => (CLIENT_FRONT, channel.client, channel.server),
        Side::Server => (SERVER_FRONT, channel.server, channel.client),
    };
    frame.extend_from_slice(front).ok()?;
    frame.extend_from_slice(&length(datagram, 28)).ok()?;
    frame.extend_from_slice(MIDDLE).ok()?;
    frame.extend_from_slice(&from.address).ok()?;
    frame.extend_from_slice(&to.address).ok()?;
    frame.extend_from_slice(&from.port.to_be_bytes()).ok()?;
    frame.extend_from_slice(&to.port.to_be_bytes()).ok()?;
    frame.extend_from_slice(&length(datagram, 8)).ok()?;
    frame.extend_from_slice(&[0; 2]).ok()?;
    frame.extend_from_slice(datagram).ok()
}

// The bytes of a number, in the byte order of a file.
fn bytes_in(file: &[u8], number: u32) -> [u8; 4] {
    if file.first() == Some(&0xa1) {
        number.to_be_bytes()
    } else {
        number.to_le_bytes()
    }
}

/// Appends to a classic capture the record of a frame of so many bytes of which these were captured, so many seconds
/// after the beginning of 1970.
pub fn push_cut_record(
    file: &mut Vec<u8>,
    seconds: u32,
    captured: &[u8],
    original: u32,
) -> Option<()> {
    let seconds = bytes_in(file, seconds);
    let length = bytes_in(file, u32::try_from(captured.len()).ok()?);
    let original = bytes_in(file, original);
    file.extend_from_slice(&seconds).ok()?;
    file.extend_from_slice(&[0; 4]).ok()?;
    file.extend_from_slice(&length).ok()?;
    file.extend_from_slice(&original).ok()?;
    file.extend_from_slice(captured).ok()
}

/// Appends the record of a frame that was captured whole.
pub fn push_record(file: &mut Vec<u8>, seconds: u32, frame: &[u8]) -> Option<()> {
    let original = u32::try_from(frame.len()).ok()?;
    push_cut_record(file, seconds, frame, original)
}
