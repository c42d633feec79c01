//! Captures of the packets that rows name.
use crate::connections::lines_of;
use crate::frames::{FILE_HEADER, push_cut_record, push_frame};
use crate::lines::{datagrams, side_at};
use crate::parameters::{CHANNELS, params_of};
use rasta_pdu::{Channel, Endpoint, Params};
use std::alloc::Global;

// Hosts that aren't recorded.
const STRANGERS: Channel = Channel {
    client: Endpoint {
        address: [10, 9, 9, 9],
        port: 5000,
    },
    server: Endpoint {
        address: [10, 9, 9, 8],
        port: 5000,
    },
};

/// The channel that a word names: `2` the second, `9` one that isn't recorded, and any other the first.
pub fn channel_of(word: &str) -> Channel {
    let [first, second] = CHANNELS;
    match word {
        "2" => second,
        "9" => STRANGERS,
        _ => first,
    }
}

// Appends the record of a packet.
fn push_packet(
    alloc: Global,
    file: &mut Vec<u8>,
    lines: &str,
    all: &[Vec<u8>],
    packet: &str,
) -> Option<()> {
    let (sent, captured) = packet.split_once('%').unwrap_or((packet, "65535"));
    let (line, channel) = sent.split_once('@').unwrap_or((sent, "1"));
    let line = line.parse().ok()?;
    let (side, datagram) = (side_at(lines, line)?, all.get(line)?);
    let mut frame = Vec::new(alloc);
    push_frame(&mut frame, side, &channel_of(channel), datagram.as_slice())?;
    let captured: usize = captured.parse().ok()?;
    let front = frame.get(..captured.min(frame.len()))?;
    push_cut_record(file, 0, front, u32::try_from(frame.len()).ok()?)
}

// A file of these packets.
fn capture(alloc: Global, lines: &str, all: &[Vec<u8>], packets: &str) -> Option<Vec<u8>> {
    let mut file = Vec::new(alloc);
    file.extend_from_slice(FILE_HEADER).ok()?;
    for packet in packets.split(' ') {
        match packet {
            "-" => {}
            "cut" => {
                let _ = file.pop()?;
            }
            "flip" => {
                let last = file.pop()?;
                file.push(last ^ 1).ok()?;
            }
            _ => push_packet(alloc, &mut file, lines, all, packet)?,
        }
    }
    Some(file)
}

/// The parameters of a row's settings, `CONNECTION PARAMETERS`, and the file of its packets, each of which is
/// named by its line.
///
/// After a line may stand `@2`, the second channel, or `@9`, hosts that aren't recorded; and `%50`, where only
/// 50 bytes of its frame were captured. `-` is no packet; `cut` takes the last byte of the file away, and `flip`
/// changes it.
pub fn file_of(alloc: Global, settings: &str, packets: &str) -> Option<(Params, Vec<u8>)> {
    let (connection, word) = settings.split_once(' ')?;
    let lines = lines_of(connection)?;
    let params = params_of(word)?;
    let all = datagrams(alloc, &params, lines)?;
    let file = capture(alloc, lines, all.as_slice(), packets)?;
    Some((params, file))
}

// Changes a byte of a file: `PLACE=BYTE`.
fn change_byte(file: &mut [u8], change: &str) -> Option<()> {
    let (place, byte) = change.split_once('=')?;
    let place: usize = place.parse().ok()?;
    *file.get_mut(place)? = byte.parse().ok()?;
    Some(())
}

/// Changes bytes of a file: `PLACE=BYTE ..`; none where one has no form or no place in the file.
pub fn change_bytes(file: &mut [u8], changes: &str) -> Option<()> {
    for change in changes.split_whitespace() {
        change_byte(file, change)?;
    }
    Some(())
}
