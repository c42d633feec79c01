//! Writing bytes and messages in hexadecimal.
ghost use Rattle.std.specs.Prelude.{◌≡◌, ◌*◌, ◌≤◌, length, take};
ghost use Rattle.hex.specs.Hex.{encode_lower};
ghost use Rattle.rasta_pcap.specs.Devices.{Writes, AsWritten};
ghost use Rattle.rasta_line.specs.Texts.{message_text};

use crate::digits::digits_of_block;
use rasta_pcap::{Fault, Sink, write_all};

// How many bytes are written at once.
const PIECE: usize = 64;

// How many bytes are spelled at once.
const BLOCK: usize = 16;

// Puts the digits of the whole blocks that a piece begins with at the front of the room, and answers how many bytes
// these blocks have.
fn put_blocks(piece: &[u8], room: &mut [u8; 128]) -> usize
    requires { length piece.now ≤ 64 }
    ensures within { result ≤ length piece.now }
    ensures digits { take (2 * result) room.new ≡ encode_lower (take result piece.now) }
{
    let mut at = 0;
    while at + BLOCK <= piece.len() {
        let mut block = [0u8; BLOCK];
        block.copy_from_slice(&piece[at..at + BLOCK]);
        room[2 * at..2 * at + 2 * BLOCK].copy_from_slice(&digits_of_block(block));
        at += BLOCK;
    }
    at
}

// Puts the digits of bytes into a room of twice their length.
fn put_digits(bytes: &[u8], room: &mut [u8])
    requires { length room.old ≡ 2 * length bytes.now }
    ensures { room.new ≡ encode_lower bytes.now }
{
    if hex::encode_to_slice(bytes, room).is_err() {
        unreachable!();
    }
}

// The digits of a piece, at the front of the room.
fn digits<'a>(piece: &[u8], room: &'a mut [u8; 128]) -> &'a [u8]
    requires { length piece.now ≤ 64 }
    ensures { result.now ≡ encode_lower piece.now }
{
    let at = put_blocks(piece, room);
    put_digits(&piece[at..], &mut room[2 * at..2 * piece.len()]);
    &room[..2 * piece.len()]
}

// Writes at most 64 bytes.
fn write_piece<W: Sink>(piece: &[u8], writer: &mut W) -> Result<(), Fault>
    requires { length piece.now ≤ 64 }
    ensures out { Writes result (W.contents writer.old) (W.contents writer.new) (encode_lower piece.now) }
    ensures written { AsWritten W.failure_count result writer.old writer.new }
{
    let mut room = [0u8; 128];
    write_all(writer, digits(piece, &mut room))
}

/// Writes bytes in lower case digits, two for each byte.
pub fn write_hex<W: Sink>(bytes: &[u8], writer: &mut W) -> Result<(), Fault>
    ensures out { Writes result (W.contents writer.old) (W.contents writer.new) (encode_lower bytes.now) }
    ensures written { AsWritten W.failure_count result writer.old writer.new }
{
    let mut rest = bytes;
    while !rest.is_empty() {
        let (piece, after) = rest.split_at(rest.len().min(PIECE));
        write_piece(piece, writer)?;
        rest = after;
    }
    Ok(())
}

/// Writes a message; an empty one is a dot.
pub fn write_message<W: Sink>(message: &[u8], writer: &mut W) -> Result<(), Fault>
    ensures out { Writes result (W.contents writer.old) (W.contents writer.new) (message_text message.now) }
    ensures written { AsWritten W.failure_count result writer.old writer.new }
{
    if message.is_empty() {
        write_all(writer, b".")
    } else {
        write_hex(message, writer)
    }
}
