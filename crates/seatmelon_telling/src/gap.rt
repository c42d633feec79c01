//! The text on a gap in the numbers of an end.
ghost use Rattle.std.specs.Prelude.{◌≡◌, IfErr};
ghost use Rattle.rasta_pcap.specs.Fault.{write_failed};

use crate::page::{write_place, write_sighting};
use rasta_pcap::{Fault, Sink};
use seatmelon_account::Gap;
use seatmelon_reading::Sighting;
use seatmelon_text::{tell, write_words};

/// From this number of skipped ones on, modulo 2^32, a number lies before the one that was due.
const BEFORE: u32 = 1 << 31;

/// What a gap may come from, as far as the capture tells.
#[derive(Clone, Copy, PartialEq, Eq)]
pub enum Reason {
    /// The packet that was due crosses later.
    Overtaken,

    /// The number lies before the one that was due.
    Late,

    /// Both numbers skip alike.
    WholePdus,

    /// They skip otherwise.
    Numbers,
}

/// What a gap may come from.
pub fn reason_of(gap: &Gap) -> Reason {
    if gap.later.is_some() {
        Reason::Overtaken
    } else if gap.skipped() >= BEFORE {
        Reason::Late
    } else if gap.sn_skipped() == Some(gap.skipped()) {
        Reason::WholePdus
    } else {
        Reason::Numbers
    }
}

// Writes a number that was due, and the one that was found.
fn write_numbers<W: Sink>(
    writer: &mut W,
    name: &'static str,
    due: u32,
    found: u32,
) -> Result<(), Fault>
    ensures err { IfErr result (λ f. f ≡ write_failed) }
{
    tell!(
        writer, "  ", name, " due: ", due, "\n  ", name, " found: ", found, "\n"
    )
}

// Writes where the number that was due crosses later.
fn write_later<W: Sink>(writer: &mut W, due: u32, later: Option<&Sighting>) -> Result<(), Fault>
    ensures err { IfErr result (λ f. f ≡ write_failed) }
{
    tell!(writer, "  ", due)?;
    match later {
        Some(sighting) => {
            write_words(writer, " crosses later: ")?;
            write_sighting(writer, sighting)?;
            write_words(writer, "\n")
        }
        None => write_words(writer, " doesn't cross later in the window\n"),
    }
}

// Writes how far both numbers skip.
fn write_skipped<W: Sink>(writer: &mut W, gap: &Gap) -> Result<(), Fault>
    ensures err { IfErr result (λ f. f ≡ write_failed) }
{
    match (reason_of(gap), gap.sn_skipped()) {
        (Reason::WholePdus, _) => tell!(
            writer,
            "  both numbers skip ",
            gap.skipped(),
            ", as where so many whole PDUs never reached the tap or were cut from the file\n"
        ),
        (Reason::Numbers, Some(skipped)) => tell!(
            writer,
            "  the redundancy number skips ",
            gap.skipped(),
            ", and SN ",
            skipped,
            ", as where an end leaves numbers out\n"
        ),
        (Reason::Late, _) => tell!(
            writer,
            "  the number found lies ",
            gap.skipped().wrapping_neg(),
            " back from the one due\n"
        ),
        _ => Ok(()),
    }
}

/// Writes a gap: which numbers were due and found, where it begins and what the capture tells of its cause.
pub fn write_gap<W: Sink>(writer: &mut W, packets: &[Sighting], gap: &Gap) -> Result<(), Fault>
    ensures err { IfErr result (λ f. f ≡ write_failed) }
{
    let due = gap.due();
    write_numbers(writer, "redundancy number", due.redundancy, gap.found)?;
    if let Some(found) = gap.sn_found {
        write_numbers(writer, "SN", due.sn, found)?;
    }
    tell!(
        writer,
        "  the end's last number before it: ",
        gap.last.numbers.redundancy,
        ", SN ",
        gap.last.numbers.sn,
        ", first copy in "
    )?;
    write_place(writer, packets, gap.last.place)?;
    write_later(writer, due.redundancy, gap.later.as_ref())?;
    write_skipped(writer, gap)?;
    if gap.has_opening {
        write_words(writer, "  the capture has the opening of the connection\n")?;
    }
    Ok(())
}
