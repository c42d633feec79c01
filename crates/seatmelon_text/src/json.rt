//! Strings of JSON (RFC 8259, section 7), written as they are spelled.
ghost use Rattle.std.specs.Prelude.{◌≡◌, ◌≤◌, ◌^◌, ◌∷◌, [], length, nat_lt, if◌then◌else◌, IfErr};
ghost use Rattle.rasta_pcap.specs.Devices.{AsWritten};

use crate::room::ROOM;
use crate::text::{Part, digits_of_byte, write_parts};
use rasta_line::write_hex;
use rasta_pcap::{Fault, Sink, write_all};

// The escape of a byte that has a short one.
fn escape_of(byte: u8) -> Option<&'static [u8]> {
    match byte {
        b'"' => Some(b"\\\""),
        b'\\' => Some(b"\\\\"),
        0x08 => Some(b"\\b"),
        0x0c => Some(b"\\f"),
        b'\n' => Some(b"\\n"),
        b'\r' => Some(b"\\r"),
        b'\t' => Some(b"\\t"),
        _ => None,
    }
}

// Whether a byte stands for itself in a string.
fn is_plain(byte: u8) -> bool {
    byte >= b' ' && byte != b'"' && byte != b'\\'
}

// How many bytes at the front stand for themselves.
fn plain_front(bytes: &[u8]) -> usize
    ensures { result ≤ length bytes.now }
{
    bytes
        .iter()
        .position(|byte| !is_plain(*byte))
        .unwrap_or(bytes.len())
}

fn write_escape<W: Sink>(writer: &mut W, byte: u8) -> Result<(), Fault>
    ensures written { AsWritten W.failure_count result writer.old writer.new }
{
    match escape_of(byte) {
        Some(escape) => write_all(writer, escape),
        None => {
            write_all(writer, b"\\u00")?;
            write_hex(&[byte], writer)
        }
    }
}

// Writes what stands in a string for these bytes of UTF-8.
fn write_content<W: Sink>(writer: &mut W, bytes: &[u8]) -> Result<(), Fault>
    ensures written { AsWritten W.failure_count result writer.old writer.new }
{
    let mut rest = bytes;
    while !rest.is_empty() {
        let len = plain_front(rest);
        write_all(writer, &rest[..len])?;
        rest = &rest[len..];
        if let Some((byte, behind)) = rest.split_first() {
            write_escape(writer, *byte)?;
            rest = behind;
        }
    }
    Ok(())
}

/// Writes words as a JSON string.
pub fn write_string<W: Sink>(writer: &mut W, words: &str) -> Result<(), Fault>
    ensures written { AsWritten W.failure_count result writer.old writer.new }
{
    write_all(writer, b"\"")?;
    write_content(writer, words.as_bytes())?;
    write_all(writer, b"\"")
}

/// Writes words that go over several lines as a JSON string, in one line.
pub fn write_sentence<W: Sink>(writer: &mut W, words: &str) -> Result<(), Fault>
    ensures written { AsWritten W.failure_count result writer.old writer.new }
{
    write_all(writer, b"\"")?;
    let mut before: &[u8] = b"";
    for line in words.lines() {
        write_all(writer, before)?;
        write_content(writer, line.trim_start().as_bytes())?;
        before = b" ";
    }
    write_all(writer, b"\"")
}

// Puts what stands in a string for a byte of a message at the front of the room, and answers how many bytes it takes.
// A backslash is doubled as text, and each of the two in the string.
fn put_byte(byte: u8, room: &mut [u8]) -> usize
    requires { length room.now ≡ 5 }
    ensures room { length room.new ≡ length room.old }
    ensures most { result ≤ 5 }
{
    match byte {
        b'\\' => {
            room[..4].fill(b'\\');
            4
        }
        b'"' => {
            room[0] = b'\\';
            room[1] = b'"';
            2
        }
        b' '..=b'~' => {
            room[0] = byte;
            1
        }
        _ => {
            room[0] = b'\\';
            room[1] = b'\\';
            room[2] = b'x';
            room[3..].copy_from_slice(&digits_of_byte(byte));
            5
        }
    }
}

/// Writes bytes as text, as a JSON string: those that aren't printable ASCII as `\xNN`.
pub fn write_bytes<W: Sink>(writer: &mut W, bytes: &[u8]) -> Result<(), Fault>
    ensures written { AsWritten W.failure_count result writer.old writer.new }
{
    let mut room = [0u8; ROOM];
    let mut len = 0;
    write_all(writer, b"\"")?;
    for byte in bytes {
        if len > ROOM - 5 {
            write_all(writer, &room[..len])?;
            len = 0;
        }
        len += put_byte(*byte, &mut room[len..len + 5]);
    }
    write_all(writer, &room[..len])?;
    write_all(writer, b"\"")
}

// A number up to which each whole number has a double of its own: 2^53.
const MOST_NUMBER: u64 = 9_007_199_254_740_992;

/// What stands before and behind a number of 64 bits: where it is above 2^53, which readers of JSON may round, it is a
/// string of its digits.
pub fn quotes_of(n: u64) -> &'static str
    ensures { result.now ≡ (if nat_lt (2 ^ 53) n then 34 ∷ [] else []) }
{
    if n > MOST_NUMBER { "\"" } else { "" }
}

/// Writes a number of 64 bits, between its quotes.
pub fn write_long<W: Sink>(writer: &mut W, n: u64) -> Result<(), Fault>
    ensures written { AsWritten W.failure_count result writer.old writer.new }
{
    let quote = quotes_of(n);
    let parts = [Part::Words(quote), Part::Number(n), Part::Words(quote)];
    write_parts(writer, &parts)
}
