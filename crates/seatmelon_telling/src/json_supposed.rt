//! What is supposed of a refused capture, as JSON.
ghost use Rattle.std.specs.Prelude.{◌≡◌, IfErr};
ghost use Rattle.rasta_pcap.specs.Fault.{write_failed};

use crate::explained::further_premises;
use crate::json_explained::{write_direction, write_start_premise};
use crate::json_places::write_place;
use crate::supposed::{MISSED, REACHED_ELSE, place_at};
use rasta_pcap::{Fault, Sink};
use seatmelon_account::{Account, Hypothesis};
use seatmelon_reading::Sighting;
use seatmelon_suppose::{Filled, Filling, Supposed, Tried};
use seatmelon_text::json::write_sentence;
use seatmelon_text::{tell, write_words};

// Writes what a supposed PDU says, and just before which packet it crossed.
fn write_pdu<W: Sink>(writer: &mut W, packets: &[Sighting], pdu: &Supposed) -> Result<(), Fault>
    ensures err { IfErr result (λ f. f ≡ write_failed) }
{
    tell!(writer, "{\"from\":\"", pdu.sender, "\",\"before\":")?;
    write_place(writer, packets, place_at(pdu.before))?;
    let number = pdu.fields.kind.number();
    tell!(
        writer,
        ",\"redundancy_number\":",
        pdu.fields.number,
        ",\"type\":",
        number,
        ",\"type_name\":\"",
        pdu.fields.kind.name(),
        "\",\"sn\":",
        pdu.fields.sn
    )?;
    tell!(
        writer,
        ",\"cs\":",
        pdu.fields.cs,
        ",\"ts\":",
        pdu.fields.ts,
        ",\"cts\":",
        pdu.fields.cts,
        "}"
    )
}

// Writes the PDUs of a filling.
fn write_filling<W: Sink>(
    writer: &mut W,
    packets: &[Sighting],
    filling: &Filling,
) -> Result<(), Fault>
    ensures err { IfErr result (λ f. f ≡ write_failed) }
{
    let mut before = "[";
    for pdu in &filling.pdus {
        write_words(writer, before)?;
        write_pdu(writer, packets, pdu)?;
        before = ",";
    }
    write_words(writer, "]")
}

// Writes all fillings.
fn write_fillings<W: Sink>(
    writer: &mut W,
    packets: &[Sighting],
    fillings: &[Filling],
) -> Result<(), Fault>
    ensures err { IfErr result (λ f. f ≡ write_failed) }
{
    write_words(writer, ",\"supposed\":{\"fillings\":[")?;
    let mut before = "";
    for filling in fillings {
        write_words(writer, before)?;
        write_filling(writer, packets, filling)?;
        before = ",";
    }
    write_words(writer, "]")
}

// Writes how far a way to fill a gap leads.
fn write_way<W: Sink>(writer: &mut W, packets: &[Sighting], way: &Tried) -> Result<(), Fault>
    ensures err { IfErr result (λ f. f ≡ write_failed) }
{
    let number = way.kind.number();
    tell!(
        writer,
        "{\"type\":",
        number,
        ",\"type_name\":\"",
        way.kind.name(),
        "\",\"explained_before\":"
    )?;
    write_place(writer, packets, place_at(way.reach))?;
    write_words(writer, "}")
}

// Writes how far each type leads in a gap.
fn write_gap<W: Sink>(writer: &mut W, packets: &[Sighting], filled: &Filled) -> Result<(), Fault>
    ensures err { IfErr result (λ f. f ≡ write_failed) }
{
    tell!(
        writer,
        "{\"from\":\"",
        filled.gap.sender,
        "\",\"missing\":",
        filled.gap.missing,
        ",\"before\":"
    )?;
    write_place(writer, packets, place_at(filled.gap.place))?;
    write_words(writer, ",\"ways\":[")?;
    let mut before = "";
    for way in &filled.tried {
        write_words(writer, before)?;
        write_way(writer, packets, way)?;
        before = ",";
    }
    write_words(writer, "]}")
}

// Writes the gaps that were filled, or tried in vain.
fn write_gaps<W: Sink>(writer: &mut W, packets: &[Sighting], gaps: &[Filled]) -> Result<(), Fault>
    ensures err { IfErr result (λ f. f ≡ write_failed) }
{
    write_words(writer, ",\"gaps\":[")?;
    let mut before = "";
    for filled in gaps {
        write_words(writer, before)?;
        write_gap(writer, packets, filled)?;
        before = ",";
    }
    write_words(writer, "]")
}

// Writes the premises of the supposition.
fn write_premises<W: Sink>(writer: &mut W, hypothesis: &Hypothesis<'_>) -> Result<(), Fault>
    ensures err { IfErr result (λ f. f ≡ write_failed) }
{
    write_words(writer, ",\"premises\":[")?;
    write_sentence(writer, MISSED)?;
    write_words(writer, ",")?;
    write_sentence(writer, REACHED_ELSE)?;
    for words in further_premises(hypothesis.has_code) {
        write_words(writer, ",")?;
        write_sentence(writer, words)?;
    }
    write_words(writer, ",")?;
    write_start_premise(writer, &hypothesis.start)
}

// Writes what is surely taken under each filling.
fn write_messages<W: Sink>(
    writer: &mut W,
    packets: &[Sighting],
    hypothesis: &Hypothesis<'_>,
) -> Result<(), Fault>
    ensures err { IfErr result (λ f. f ≡ write_failed) }
{
    write_premises(writer, hypothesis)?;
    write_words(writer, ",\"messages\":[")?;
    write_direction(writer, packets, "sent", &hypothesis.client)?;
    write_words(writer, ",")?;
    write_direction(writer, packets, "sent", &hypothesis.server)?;
    write_words(writer, "]")
}

/// The verdict on a refused capture, by what is supposed of it, if anything is.
pub fn verdict_with(hypothesis: Option<&Hypothesis<'_>>) -> &'static str {
    match hypothesis {
        Some(hypothesis) if !hypothesis.supposition.fillings.is_empty() => {
            "explained_with_supposed_pdus"
        }
        _ => "refused",
    }
}

/// Writes what is supposed of a refused capture, if anything is.
pub fn write_supposed<W: Sink>(writer: &mut W, account: &Account<'_>) -> Result<(), Fault>
    ensures err { IfErr result (λ f. f ≡ write_failed) }
{
    let Some(hypothesis) = &account.hypothesis else {
        return Ok(());
    };
    let packets = account.packets();
    let supposition = &hypothesis.supposition;
    write_fillings(writer, packets, &supposition.fillings)?;
    write_gaps(writer, packets, &supposition.gaps)?;
    if !supposition.fillings.is_empty() {
        write_messages(writer, packets, hypothesis)?;
    }
    write_words(writer, "}")
}
