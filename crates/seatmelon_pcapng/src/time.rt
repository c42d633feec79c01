//! When packets were captured.
ghost use Rattle.std.specs.Prelude.{◌≡◌, ◌<◌, ◌≤◌, ◌^◌, ◌%◌, ◌/◌, ◌*◌};
ghost use Rattle.seatmelon_pcapng.specs.Moments.{moment_at, nanoseconds_left, no_moment, units_of, whole_seconds};

use crate::interface::Interface;

const NANOSECONDS: u32 = 1_000_000_000;

// The flag of a power of two.
const POWER_OF_TWO: u8 = 128;

// The greatest power of ten that 128 bits hold.
const MOST_TENS: u8 = 38;

/// When a packet was captured: seconds since the beginning of 1970, UTC, and nanoseconds; both are 0 where it has no time.
#[derive(Clone, Copy)]
pub struct Moment {
    pub seconds: u32,
    pub nanoseconds: u32,
}

/// That of a packet without a time.
pub const NO_MOMENT: Moment = Moment {
    seconds: 0,
    nanoseconds: 0,
};

// Whole seconds, and what is left in nanoseconds.
#[derive(Clone, Copy)]
struct Parts {
    seconds: u64,
    nanoseconds: u32,
}

// So many units, of which a second has few, so that 64 bits are enough.
#[inline(always)]
fn split_short(units: u64, stamp: u64) -> Parts
    requires some { 0 < units }
    requires few { units ≤ 1000000000 }
    ensures seconds { result.seconds ≡ stamp / units }
    ensures nanoseconds { result.nanoseconds ≡ stamp % units * 1000000000 / units }
{
    Parts {
        seconds: stamp / units,
        nanoseconds: (stamp % units * u64::from(NANOSECONDS) / units) as u32,
    }
}

// So many units.
fn split_long(units: u128, stamp: u64) -> Parts
    requires some { 0 < units }
    ensures seconds { result.seconds ≡ stamp / units }
    ensures nanoseconds { result.nanoseconds ≡ stamp % units * 1000000000 / units }
{
    let stamp = u128::from(stamp);
    Parts {
        seconds: (stamp / units) as u64,
        nanoseconds: (stamp % units * u128::from(NANOSECONDS) / units) as u32,
    }
}

// A stamp, by what a second is divided.
#[inline(always)]
fn parts_of(resolution: u8, stamp: u64) -> Parts
    ensures seconds { result.seconds ≡ whole_seconds resolution stamp }
    ensures nanoseconds { result.nanoseconds ≡ nanoseconds_left resolution stamp }
{
    match resolution {
        6 => split_short(1_000_000, stamp),
        9 => split_short(1_000_000_000, stamp),
        0..=MOST_TENS => split_long(10u128.pow(u32::from(resolution)), stamp),
        POWER_OF_TWO.. => split_long(2u128.pow(u32::from(resolution - POWER_OF_TWO)), stamp),
        _ => Parts {
            seconds: 0,
            nanoseconds: 0,
        },
    }
}

impl Moment {
    /// The moment of a stamp of this interface.
    #[inline(always)]
    pub fn at(interface: &Interface, stamp: u64) -> Moment
        ensures { result ≡ moment_at interface.now stamp }
    {
        let Parts {
            seconds,
            nanoseconds,
        } = parts_of(interface.resolution, stamp);
        match u32::try_from(seconds.wrapping_add(interface.offset)) {
            Ok(seconds) => Moment {
                seconds,
                nanoseconds,
            },
            Err(_) => NO_MOMENT,
        }
    }
}
