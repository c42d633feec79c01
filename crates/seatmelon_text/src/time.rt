//! Times of capture, as text.
ghost use Rattle.std.specs.Prelude.{◌+◌, ◌≤◌};
ghost use Rattle.rasta_pcap.specs.Devices.{AsWritten};

use itoa::Buffer;
use jiff_core::civil::Date;
use rasta_pcap::{CaptureTime, Fault, FractionUnit, Sink, write_all};

// The beginning of 1970, in days from the calendar's first one.
const EPOCH: u32 = 4_371_587;

// In seconds.
const MINUTE: u32 = 60;

const HOUR: u32 = 3600;

const DAY: u32 = 86_400;

/// The form of a time, with room for a fraction of ten digits: a broken file may tell more than a second.
pub const TIME: [u8; 30] = *b"0000-00-00 00:00:00.0000000000";

// Where the time of day begins in it, and where the fraction does.
const CLOCK: usize = 11;

const FRACTION: usize = 20;

// The last digit of a number.
fn digit(n: u32) -> u8 {
    b'0' + (n % 10) as u8
}

// Puts the last two digits of a number there.
fn put_two(room: &mut [u8; 30], at: usize, n: u32)
    requires { at + 2 ≤ 30 }
{
    room[at] = digit(n / 10);
    room[at + 1] = digit(n);
}

// Puts the date of so many seconds since 1970.
fn put_date(room: &mut [u8; 30], seconds: u32) {
    let date = Date::from_days_since_min(EPOCH + seconds / DAY);
    let year = u32::from(date.year.unsigned_abs());
    put_two(room, 0, year / 100);
    put_two(room, 2, year);
    put_two(room, 5, u32::from(date.month));
    put_two(room, 8, u32::from(date.day));
}

// Puts the time of day of so many seconds since 1970, up to the fraction.
fn put_clock(room: &mut [u8; 30], seconds: u32) {
    let rest = seconds % DAY;
    put_two(room, 11, rest / HOUR);
    put_two(room, 14, rest % HOUR / MINUTE);
    put_two(room, 17, rest % MINUTE);
}

// Puts all digits of a fraction, and answers where they end.
fn put_all_digits(room: &mut [u8; 30], fraction: u32) -> usize
    ensures after { 20 ≤ result }
    ensures within { result ≤ 30 }
{
    let mut buffer = Buffer::new();
    let digits = buffer.format(fraction).as_bytes();
    let end = FRACTION + digits.len();
    room[FRACTION..end].copy_from_slice(digits);
    end
}

// Puts the fraction of a second, and answers where it ends.
fn put_fraction(room: &mut [u8; 30], time: CaptureTime) -> usize
    ensures after { 20 ≤ result }
    ensures within { result ≤ 30 }
{
    let n = time.fraction;
    match time.unit {
        FractionUnit::Microseconds if n < 1_000_000 => {
            put_two(room, 20, n / 10_000);
            put_two(room, 22, n / 100);
            put_two(room, 24, n);
            26
        }
        FractionUnit::Nanoseconds if n < 1_000_000_000 => {
            put_two(room, 20, n / 10_000_000);
            put_two(room, 22, n / 100_000);
            put_two(room, 24, n / 1000);
            put_two(room, 26, n / 10);
            room[28] = digit(n);
            29
        }
        _ => put_all_digits(room, n),
    }
}

/// Date and time of day in UTC, as `2024-11-24 12:00:00.000000`, in a room for it. It is put together at once, since
/// a long text has two times in each of its lines.
pub fn time_in(room: &mut [u8; 30], time: CaptureTime) -> &[u8] {
    put_date(room, time.seconds);
    put_clock(room, time.seconds);
    let end = put_fraction(room, time);
    &room[..end]
}

/// The time of day in UTC, as `12:00:00.000000`, in a room for a time. Most of the cost of a time is that of its date.
pub fn time_of_day_in(room: &mut [u8; 30], time: CaptureTime) -> &[u8] {
    put_clock(room, time.seconds);
    let end = put_fraction(room, time);
    &room[CLOCK..end]
}

/// The date in UTC, as `2024-11-24`, in a room for a time.
pub fn date_in(room: &mut [u8; 30], time: CaptureTime) -> &[u8] {
    put_date(room, time.seconds);
    &room[..10]
}

/// Writes date and time of day in UTC, as `2024-11-24 12:00:00.000000`.
pub fn write_time<W: Sink>(writer: &mut W, time: CaptureTime) -> Result<(), Fault>
    ensures written { AsWritten W.failure_count result writer.old writer.new }
{
    let mut room = TIME;
    write_all(writer, time_in(&mut room, time))
}
