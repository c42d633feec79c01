//! Lines of plain text.
ghost use Rattle.std.specs.Prelude.{◌≡◌, ◌≤◌, ◌∷◌, [], length, IfErr};
ghost use Rattle.hex.specs.Hex.{encode_lower};
ghost use Rattle.rasta_pcap.specs.Devices.{AsWritten};

use crate::room::Room;
use crate::time::{TIME, date_in, time_in, time_of_day_in};
use itoa::Buffer;
use rasta_line::{end_name, write_hex};
use rasta_pcap::{CaptureTime, Fault, FractionUnit, Side, Sink, write_all};
use rasta_udp::Endpoint;

/// A part of a line.
#[derive(Clone, Copy)]
pub enum Part<'a> {
    /// Words as they stand.
    Words(&'a str),

    /// A number, in decimal.
    Number(u64),

    /// Two hexadecimal digits a byte.
    Hex(&'a [u8]),

    /// Two hexadecimal digits.
    Byte(u8),

    /// Bytes as text: those that aren't printable ASCII as `\xNN`.
    Text(&'a [u8]),

    /// Date and time of day, in UTC.
    Time(CaptureTime),

    /// The date alone, in UTC.
    Date(CaptureTime),

    /// The time of day alone, in UTC.
    TimeOfDay(CaptureTime),

    /// Nanoseconds, in milliseconds with six digits behind the point.
    Milliseconds(u64),

    /// An address and a port.
    Endpoint(Endpoint),

    /// The name of an end.
    End(Side),

    /// Four digits.
    Version([u8; 4]),
}

impl<'a> From<&'a str> for Part<'a> {
    fn from(words: &'a str) -> Part<'a> {
        Part::Words(words)
    }
}

impl<'a> From<u8> for Part<'a> {
    fn from(n: u8) -> Part<'a> {
        Part::Number(u64::from(n))
    }
}

impl<'a> From<u16> for Part<'a> {
    fn from(n: u16) -> Part<'a> {
        Part::Number(u64::from(n))
    }
}

impl<'a> From<u32> for Part<'a> {
    fn from(n: u32) -> Part<'a> {
        Part::Number(u64::from(n))
    }
}

impl<'a> From<u64> for Part<'a> {
    fn from(n: u64) -> Part<'a> {
        Part::Number(n)
    }
}

impl<'a> From<CaptureTime> for Part<'a> {
    fn from(time: CaptureTime) -> Part<'a> {
        Part::Time(time)
    }
}

impl<'a> From<Endpoint> for Part<'a> {
    fn from(endpoint: Endpoint) -> Part<'a> {
        Part::Endpoint(endpoint)
    }
}

impl<'a> From<Side> for Part<'a> {
    fn from(side: Side) -> Part<'a> {
        Part::End(side)
    }
}

impl<'a> From<[u8; 4]> for Part<'a> {
    fn from(digits: [u8; 4]) -> Part<'a> {
        Part::Version(digits)
    }
}

/// The parts of a line: words, numbers and what else has a form of its own, as they follow each other.
#[macro_export]
macro_rules! parts {
    ($($part:expr),* $(,)?) => {
        [$($crate::Part::from($part)),*]
    };
}

/// Writes the parts of a line, one after the other.
#[macro_export]
macro_rules! tell {
    ($writer:expr, $($part:expr),* $(,)?) => {
        $crate::write_parts($writer, &[$($crate::Part::from($part)),*])
    };
}

const ZEROS: [u8; 6] = *b"000000";

// Puts a number.
fn put_number<W: Sink>(writer: &mut W, room: &mut Room, n: u64) -> Result<(), Fault>
    ensures written { AsWritten W.failure_count result writer.old writer.new }
{
    let mut buffer = Buffer::new();
    room.put(writer, buffer.format(n).as_bytes())
}

/// The two digits of a byte.
#[inline(always)]
pub(crate) fn digits_of_byte(byte: u8) -> [u8; 2]
    ensures { result ≡ encode_lower (byte ∷ []) }
{
    let mut digits = [0; 2];
    if hex::encode_to_slice([byte], &mut digits).is_err() {
        unreachable!();
    }
    digits
}

// Puts bytes as text: a backslash is doubled, and a byte that isn't printable is told by its digits.
fn put_text<W: Sink>(writer: &mut W, room: &mut Room, bytes: &[u8]) -> Result<(), Fault>
    ensures written { AsWritten W.failure_count result writer.old writer.new }
{
    for byte in bytes {
        match *byte {
            b'\\' => room.put(writer, b"\\\\")?,
            b' '..=b'~' => room.put(writer, &[*byte])?,
            _ => {
                let [high, low] = digits_of_byte(*byte);
                room.put(writer, &[b'\\', b'x', high, low])?;
            }
        }
    }
    Ok(())
}

// Puts bytes in hexadecimal digits, which are spelled many at once.
fn put_hex<W: Sink>(writer: &mut W, room: &mut Room, bytes: &[u8]) -> Result<(), Fault>
    ensures written { AsWritten W.failure_count result writer.old writer.new }
{
    room.write(writer)?;
    write_hex(bytes, writer)
}

// Puts so many nanoseconds in milliseconds, with six digits behind the point.
fn put_milliseconds<W: Sink>(writer: &mut W, room: &mut Room, nanoseconds: u64) -> Result<(), Fault>
    ensures written { AsWritten W.failure_count result writer.old writer.new }
{
    put_number(writer, room, nanoseconds / 1_000_000)?;
    let mut buffer = Buffer::new();
    let digits = buffer.format(nanoseconds % 1_000_000).as_bytes();
    let missing = ZEROS.len().saturating_sub(digits.len());
    room.put(writer, b".")?;
    room.put(writer, &ZEROS[..missing])?;
    room.put(writer, digits)
}

// Puts an address and a port, as `10.0.0.1:5000`.
fn put_endpoint<W: Sink>(writer: &mut W, room: &mut Room, endpoint: Endpoint) -> Result<(), Fault>
    ensures written { AsWritten W.failure_count result writer.old writer.new }
{
    let [first, second, third, fourth] = endpoint.address;
    put_number(writer, room, u64::from(first))?;
    room.put(writer, b".")?;
    put_number(writer, room, u64::from(second))?;
    room.put(writer, b".")?;
    put_number(writer, room, u64::from(third))?;
    room.put(writer, b".")?;
    put_number(writer, room, u64::from(fourth))?;
    room.put(writer, b":")?;
    put_number(writer, room, u64::from(endpoint.port))
}

// Puts a part.
fn put_part<W: Sink>(writer: &mut W, room: &mut Room, part: Part<'_>) -> Result<(), Fault>
    ensures written { AsWritten W.failure_count result writer.old writer.new }
{
    match part {
        Part::Words(words) => room.put(writer, words.as_bytes()),
        Part::Number(n) => put_number(writer, room, n),
        Part::Hex(bytes) => put_hex(writer, room, bytes),
        Part::Byte(byte) => room.put(writer, &digits_of_byte(byte)),
        Part::Text(bytes) => put_text(writer, room, bytes),
        Part::Time(time) => {
            let mut form = TIME;
            room.put(writer, time_in(&mut form, time))
        }
        Part::Date(time) => {
            let mut form = TIME;
            room.put(writer, date_in(&mut form, time))
        }
        Part::TimeOfDay(time) => {
            let mut form = TIME;
            room.put(writer, time_of_day_in(&mut form, time))
        }
        Part::Milliseconds(nanoseconds) => put_milliseconds(writer, room, nanoseconds),
        Part::Endpoint(endpoint) => put_endpoint(writer, room, endpoint),
        Part::End(side) => room.put(writer, end_name(Some(side)).as_bytes()),
        Part::Version(digits) => room.put(writer, &digits),
    }
}

/// Puts parts into a room, one after the other, and writes what is there where they don't fit.
pub fn put_parts<W: Sink>(writer: &mut W, room: &mut Room, parts: &[Part<'_>]) -> Result<(), Fault>
    ensures written { AsWritten W.failure_count result writer.old writer.new }
{
    for part in parts {
        put_part(writer, room, *part)?;
    }
    Ok(())
}

/// Writes parts, one after the other.
pub fn write_parts<W: Sink>(writer: &mut W, parts: &[Part<'_>]) -> Result<(), Fault>
    ensures written { AsWritten W.failure_count result writer.old writer.new }
{
    let mut room = Room::new();
    put_parts(writer, &mut room, parts)?;
    room.write(writer)
}

/// Writes parts if there is a reason to.
pub fn write_parts_if<W: Sink>(
    writer: &mut W,
    applies: bool,
    parts: &[Part<'_>],
) -> Result<(), Fault>
    ensures written { AsWritten W.failure_count result writer.old writer.new }
{
    if applies {
        write_parts(writer, parts)
    } else {
        Ok(())
    }
}

/// A line that ends with a number.
pub fn numbered(words: &'static str, n: u64) -> [Part<'static>; 3] {
    parts![words, n, "\n"]
}

/// Writes a part.
pub fn write_part<W: Sink>(writer: &mut W, part: Part<'_>) -> Result<(), Fault>
    ensures written { AsWritten W.failure_count result writer.old writer.new }
{
    write_parts(writer, &[part])
}

/// Writes words.
pub fn write_words<W: Sink>(writer: &mut W, words: &str) -> Result<(), Fault>
    ensures written { AsWritten W.failure_count result writer.old writer.new }
{
    write_all(writer, words.as_bytes())
}

// How many columns a number takes.
fn digits_of(n: u64) -> usize {
    n.max(1).ilog10() as usize + 1
}

// How many columns bytes take as text.
fn text_width(bytes: &[u8]) -> usize {
    let mut width = 0usize;
    for byte in bytes {
        width = width.saturating_add(match byte {
            b'\\' => 2,
            b' '..=b'~' => 1,
            _ => 4,
        });
    }
    width
}

// How many columns a time of day takes.
fn time_width(time: CaptureTime) -> usize {
    match time.unit {
        FractionUnit::Microseconds => 15,
        FractionUnit::Nanoseconds => 18,
    }
}

// How many columns a part takes, where its words are ASCII, and the fraction of a time is below a second.
fn width_of(part: Part<'_>) -> usize {
    match part {
        Part::Words(words) => words.len(),
        Part::Number(n) => digits_of(n),
        Part::Hex(bytes) => bytes.len().saturating_mul(2),
        Part::Byte(_) => 2,
        Part::Text(bytes) => text_width(bytes),
        Part::Time(time) => time_width(time).saturating_add(11),
        Part::Date(_) => 10,
        Part::TimeOfDay(time) => time_width(time),
        Part::Milliseconds(nanoseconds) => { digits_of(nanoseconds / 1_000_000).saturating_add(7) }
        Part::Endpoint(_) => 21,
        Part::End(_) => 6,
        Part::Version(_) => 4,
    }
}

/// How many columns parts take at most, one after the other, where their words are ASCII.
pub fn width(parts: &[Part<'_>]) -> usize {
    let mut width = 0usize;
    for part in parts {
        width = width.saturating_add(width_of(*part));
    }
    width
}
