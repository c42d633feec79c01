//! Clocks that a time stamp tells.
ghost use Rattle.std.specs.Prelude.{◌≡◌};
ghost use Rattle.rasta_build.specs.Clock.{clock_of};

/// The least clock from this one on that a PDU carries as this time stamp, none where it would be 2^64 or
/// more.
pub(crate) fn clock_from(least: u64, time_stamp: u32) -> Option<u64>
    ensures { result ≡ clock_of least time_stamp }
{
    let passed = (least % (1 << 32)) as u32;
    least.checked_add(u64::from(time_stamp.wrapping_sub(passed)))
}
