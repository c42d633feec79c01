//! The text and the JSON on how a connection goes on and ends.
ghost use Rattle.std.specs.Prelude.{◌≡◌, IfErr};
ghost use Rattle.rasta_pcap.specs.Fault.{write_failed};

use crate::json::write_count;
use crate::json_explained::truth;
use crate::json_places::write_place as write_place_json;
use crate::page::write_place;
use rasta_pcap::{Fault, Sink};
use seatmelon_account::Account;
use seatmelon_middle::{Course, Disconnection};
use seatmelon_reading::Sighting;
use seatmelon_text::{tell, write_words};

// Writes that no disconnection request was captured.
fn write_open<W: Sink>(writer: &mut W, account: &Account<'_>) -> Result<(), Fault>
    ensures err { IfErr result (λ f. f ≡ write_failed) }
{
    let words = match (account.course.reopening, account.window) {
        (Some(_), _) => "  end of the connection: none was captured\n",
        (None, Some(_)) =>
            "  end of the connection: none, it is still open at the end of the window\n",
        (None, None) =>
            "  end of the connection: none, it is still open at the end of the capture\n",
    };
    write_words(writer, words)
}

// Writes what crossed behind a disconnection request, if anything did.
fn write_behind<W: Sink>(writer: &mut W, course: &Course) -> Result<(), Fault>
    ensures err { IfErr result (λ f. f ≡ write_failed) }
{
    if course.further == 0 && course.repeated == 0 {
        return Ok(());
    }
    tell!(
        writer,
        "    behind it: new PDUs ",
        course.further,
        ", late copies of earlier ones, by their numbers, ",
        course.repeated,
        "\n"
    )
}

// Writes a disconnection request, and what crossed behind it.
fn write_disconnection<W: Sink>(
    writer: &mut W,
    packets: &[Sighting],
    course: &Course,
    ending: &Disconnection,
) -> Result<(), Fault>
    ensures err { IfErr result (λ f. f ≡ write_failed) }
{
    tell!(
        writer,
        "  end of the connection: disconnection request of the ",
        ending.side,
        ", reason ",
        ending.reason,
        ", detail ",
        ending.detail,
        ", "
    )?;
    write_place(writer, packets, ending.place)?;
    write_behind(writer, course)
}

/// Writes how the connection ends by the packets of the window, and where another one is opened.
pub fn write_ending<W: Sink>(writer: &mut W, account: &Account<'_>) -> Result<(), Fault>
    ensures err { IfErr result (λ f. f ≡ write_failed) }
{
    let (packets, course) = (account.packets(), &account.course);
    if packets.is_empty() {
        return Ok(());
    }
    match &course.ending {
        Some(ending) => write_disconnection(writer, packets, course, ending)?,
        None => write_open(writer, account)?,
    }
    match course.reopening {
        Some(place) => {
            write_words(writer, "    another connection is opened: ")?;
            write_place(writer, packets, place)
        }
        None => Ok(()),
    }
}

// Writes the packet at a place, if there is one, or null.
fn write_place_if<W: Sink>(
    writer: &mut W,
    packets: &[Sighting],
    place: Option<u32>,
) -> Result<(), Fault>
    ensures err { IfErr result (λ f. f ≡ write_failed) }
{
    match place {
        Some(place) => write_place_json(writer, packets, place),
        None => write_words(writer, "null"),
    }
}

// Writes a disconnection request, with what crossed behind it, or null.
fn write_disconnection_json<W: Sink>(
    writer: &mut W,
    packets: &[Sighting],
    course: &Course,
) -> Result<(), Fault>
    ensures err { IfErr result (λ f. f ≡ write_failed) }
{
    let Some(ending) = &course.ending else {
        return write_words(writer, "null");
    };
    tell!(
        writer,
        "{\"end\":\"",
        ending.side,
        "\",\"reason\":",
        ending.reason,
        ",\"detail\":",
        ending.detail,
        ",\"packet\":"
    )?;
    write_place_json(writer, packets, ending.place)?;
    write_count(writer, "new_pdus_behind", course.further)?;
    write_count(writer, "late_copies_behind", course.repeated)?;
    write_words(writer, "}")
}

/// Writes whether the first packet opens the connection, how the connection ends, and where another one is opened.
pub fn write_course<W: Sink>(writer: &mut W, account: &Account<'_>) -> Result<(), Fault>
    ensures err { IfErr result (λ f. f ≡ write_failed) }
{
    let (packets, course) = (account.packets(), &account.course);
    let opening = account.opens.unwrap_or(false);
    tell!(
        writer,
        ",\"begins_with_opening\":",
        truth(opening),
        ",\"disconnection\":"
    )?;
    write_disconnection_json(writer, packets, course)?;
    write_words(writer, ",\"another_opening\":")?;
    write_place_if(writer, packets, course.reopening)
}
