//! What is noted of the times of capture. None of it is part of a verdict.
ghost use Rattle.std.specs.Prelude.{◌≡◌, suc, Bool, ◌++◌, ◌∷◌, [], ◌<◌, ◌^◌, List, length, nat_le};
ghost use Rattle.rasta_pcap.specs.Captured.{Captured};
ghost use Rattle.seatmelon_reading.specs.Times.{AreTimes, falls_below, if_noticed, in_second, is_earlier, is_zero, noticed, time_of, time_told};

use rasta_pcap::{CaptureTime, FractionUnit};

/// Records of which something is noted: how many, and the number of the first.
#[derive(Clone, Copy)]
pub struct Noticed {
    pub count: u64,
    pub first: Option<u32>,
}

/// What is noted of the times of the records that were read.
#[derive(Clone, Copy)]
pub struct TimeNotes {
    /// Records whose time is below that of the last record before them in the file that has one.
    pub falling: Noticed,

    /// Records whose fraction isn't below a second.
    pub overlong: Noticed,

    // The time of the last record that has one.
    last: Option<CaptureTime>,
}

// Whether seconds and fraction are 0.
fn is_zero(time: CaptureTime) -> bool
    ensures { result ≡ is_zero time }
{
    time.seconds == 0 && time.fraction == 0
}

/// The time that is told where this was read: none of 0 where that is none.
pub(crate) fn time_told(zero_is_no_time: bool, time: Option<CaptureTime>) -> Option<CaptureTime>
    ensures { result ≡ time_told zero_is_no_time time }
{
    match time {
        Some(time) if zero_is_no_time && is_zero(time) => None,
        _ => time,
    }
}

// How many of this unit are a second.
fn in_second(unit: FractionUnit) -> u32
    ensures { result ≡ in_second unit }
{
    match unit {
        FractionUnit::Microseconds => 1_000_000,
        FractionUnit::Nanoseconds => 1_000_000_000,
    }
}

// Whether a moment is earlier than another of the same unit.
fn is_earlier(time: CaptureTime, other: CaptureTime) -> bool
    ensures { result ≡ is_earlier time other }
{
    time.seconds < other.seconds
        || (time.seconds == other.seconds && time.fraction < other.fraction)
}

// Whether the fraction isn't below a second.
fn is_overlong(time: CaptureTime) -> bool
    ensures { result ≡ nat_le (in_second time.unit) time.fraction }
{
    time.fraction >= in_second(time.unit)
}

impl Noticed {
    const NONE: Noticed = Noticed {
        count: 0,
        first: None,
    };

    // Takes in the record of this number, if it is one of those that are noticed.
    fn add_if(&mut self, is_noticed: bool, number: u32)
        ensures { (records : List Captured) (r : Captured) → self.old ≡ noticed records → length records < 2 ^ 32 → r.number ≡ number
            → self.new ≡ noticed (records ++ if_noticed is_noticed r) }
    {
        if is_noticed {
            self.count = self.count.saturating_add(1);
            self.first = self.first.or(Some(number));
        }
    }
}

impl TimeNotes {
    pub(crate) const NONE: TimeNotes = TimeNotes {
        falling: Noticed::NONE,
        overlong: Noticed::NONE,
        last: None,
    };

    // Whether a time falls below that of the last record.
    fn falls(&self, time: CaptureTime) -> bool
        ensures { result ≡ falls_below time self.now.last }
    {
        match self.last {
            Some(last) => is_earlier(time, last),
            None => false,
        }
    }

    // Takes in one record more, of this number, which was captured at this time, if it has one.
    pub(crate) fn add(&mut self, number: u32, captured: Option<CaptureTime>)
        ensures { (zero : Bool) (records : List Captured) (r : Captured) → AreTimes zero records self.old → length records < 2 ^ 32
            → r.number ≡ number → captured ≡ time_of zero r → AreTimes zero (records ++ r ∷ []) self.new }
    {
        let Some(time) = captured else {
            return;
        };
        let falls = self.falls(time);
        self.falling.add_if(falls, number);
        self.overlong.add_if(is_overlong(time), number);
        self.last = captured;
    }
}
