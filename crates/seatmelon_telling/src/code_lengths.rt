//! The lengths of the safety code that a packet fits.
ghost use Rattle.std.specs.Prelude.{◌≡◌, IfErr};
ghost use Rattle.rasta_pcap.specs.Fault.{write_failed};

use rasta_pcap::{Fault, Sink};
use seatmelon_packets::{Fit, Fits};
use seatmelon_text::tell;

/// Writes them, with `first` before the first one and `next` before each other one.
pub fn write_code_lengths<'a, W: Sink>(
    writer: &mut W,
    fits: &Fits,
    first: &'a str,
    next: &'a str,
) -> Result<(), Fault>
    ensures err { IfErr result (λ f. f ≡ write_failed) }
{
    let mut before = first;
    for (length, fit) in [
        (0u8, fits.no_code),
        (8, fits.short_code),
        (16, fits.long_code),
    ] {
        if fit != Fit::None {
            tell!(writer, before, length)?;
            before = next;
        }
    }
    Ok(())
}
