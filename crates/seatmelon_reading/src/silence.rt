//! The longest silence of an end.
ghost use Rattle.std.specs.Prelude.{◌≡◌, ◌<◌, ◌^◌, ◌++◌, ◌∷◌, [], List, filter, length};
ghost use Rattle.seatmelon_reading.specs.Silences.{IsFirstLongest, IsLongest, IsSearch, is_untimed, last_nanoseconds_in, nanoseconds_between, nanoseconds_each, nanoseconds_in, nanoseconds_of, silences_between};

use crate::notes::{LastRecord, Sighting};
use rasta_pcap::{CaptureTime, FractionUnit};

/// Two signs of life of an end, one after the other, between which it gave none.
#[derive(Clone, Copy)]
pub struct Silence {
    pub before: Sighting,
    pub after: Sighting,
}

/// The last sign of life of an end, and the last record behind it.
#[derive(Clone, Copy)]
pub struct LastSilence {
    pub before: Sighting,
    pub end: LastRecord,
}

/// The last sign of life of an end, and the longest silence up to there.
#[derive(Clone, Copy)]
pub struct SilenceSearch {
    pub last: Option<Sighting>,

    /// The first of those that are as long; none where the end gave fewer than two signs of life.
    pub longest: Option<Silence>,
}

// How many nanoseconds one of this unit has.
fn nanoseconds_each(unit: FractionUnit) -> u64
    ensures value { result ≡ nanoseconds_each unit }
    ensures small { result < 1001 }
{
    match unit {
        FractionUnit::Microseconds => 1000,
        FractionUnit::Nanoseconds => 1,
    }
}

// A moment, in nanoseconds since the beginning of 1970.
fn nanoseconds_of(time: CaptureTime) -> u64
    ensures { result ≡ nanoseconds_of time }
{
    u64::from(time.seconds) * 1_000_000_000 + u64::from(time.fraction) * nanoseconds_each(time.unit)
}

// How many nanoseconds pass from one moment to another; 0 where the time falls, or isn't known.
fn nanoseconds_between(before: Option<CaptureTime>, after: Option<CaptureTime>) -> u64
    ensures { result ≡ nanoseconds_between before after }
{
    match (before, after) {
        (Some(before), Some(after)) => nanoseconds_of(after).saturating_sub(nanoseconds_of(before)),
        _ => 0,
    }
}

impl Silence {
    /// How long, in nanoseconds; 0 where the time falls.
    pub fn nanoseconds(&self) -> u64
        ensures { result ≡ nanoseconds_in self.now }
    {
        nanoseconds_between(self.before.time, self.after.time)
    }
}

impl LastSilence {
    /// How long, in nanoseconds; 0 where the time falls, or the last record has none.
    pub fn nanoseconds(&self) -> u64
        ensures { result ≡ last_nanoseconds_in self.now }
    {
        nanoseconds_between(self.before.time, self.end.time)
    }
}

// The longer one: the first where both are as long.
fn longer(longest: Silence, silence: Silence) -> Silence
    ensures { (silences : List Silence) → IsFirstLongest silences longest → IsFirstLongest (silences ++ silence ∷ []) result }
{
    if longest.nanoseconds() >= silence.nanoseconds() {
        longest
    } else {
        silence
    }
}

// The longest silence where one more follows the last packet, if there is one.
fn longest_with(
    longest: Option<Silence>,
    last: Option<Sighting>,
    packet: Sighting,
) -> Option<Silence>
    ensures { (silences : List Silence) → IsLongest silences longest → IsLongest (silences ++ silences_between last packet) result }
{
    let Some(before) = last else {
        return longest;
    };
    let silence = Silence {
        before,
        after: packet,
    };
    match longest {
        Some(longest) => Some(longer(longest, silence)),
        None => Some(silence),
    }
}

impl SilenceSearch {
    /// Before the first sign of life.
    pub fn new() -> SilenceSearch
        ensures { IsSearch [] result }
    {
        SilenceSearch {
            last: None,
            longest: None,
        }
    }

    /// Takes in the next sign of life of the end.
    pub fn add(&mut self, packet: Sighting)
        ensures { (signs : List Sighting) → IsSearch signs self.old → IsSearch (signs ++ packet ∷ []) self.new }
    {
        self.longest = longest_with(self.longest, self.last, packet);
        self.last = Some(packet);
    }
}

// Whether a packet has no time.
fn is_untimed(packet: &Sighting) -> bool
    ensures { result ≡ is_untimed packet.now }
{
    packet.time.is_none()
}

/// How many of these packets have no time. Where there are any, no silence can be told.
pub fn count_untimed(packets: &[Sighting]) -> u64
    ensures { result ≡ length (filter is_untimed packets.now) }
{
    packets.iter().filter(|packet| is_untimed(*packet)).count() as u64
}
