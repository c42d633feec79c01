//! A verdict on a capture, in words or as data.
ghost use Rattle.std.specs.Prelude.{◌≡◌, ◌⊎◌, IfErr, IfOk};
ghost use Rattle.rasta_pcap.specs.Fault.{no_memory, read_failed, write_failed};
ghost use Rattle.seatmelon_account.specs.Account.{certificate_in};
ghost use Rattle.seatmelon_account.specs.Outcomes.{IsFileExplained, IsFileTold, IsSomeExplained, IsToldBy, NamesRecord};
ghost use Rattle.seatmelon_account.specs.declared.outcome.Outcome.TheVariants.{Explained};

use rasta_pcap::{Fault, Sink, Source};
use seatmelon_account::{Account, Extent, Inputs, Outcome, account_of, missing_record, supposed};
use seatmelon_reading::{Reading, read_capture};
use seatmelon_telling::{write_json, write_text};
use std::alloc::Global;

/// What an explanation is written as.
#[derive(Clone, Copy, Debug, PartialEq, Eq)]
pub enum Form {
    /// Words, for people: so much of them.
    Text(Extent),

    /// One JSON object with the same, for programs.
    Json,
}

// Writes an account.
fn write_account<W: Sink>(form: Form, account: &Account<'_>, writer: &mut W) -> Result<(), Fault>
    ensures err { IfErr result (λ f. f ≡ write_failed) }
{
    match form {
        Form::Text(extent) => write_text(writer, account, &extent),
        Form::Json => write_json(writer, account),
    }
}

// Writes what is told of what was read.
fn tell<W: Sink>(
    alloc: Global,
    inputs: &Inputs<'_>,
    form: Form,
    reading: &Reading,
    writer: &mut W,
) -> Result<Outcome, Fault>
    ensures told { IfOk result (IsToldBy inputs.now reading.now) }
    ensures err { IfErr result (λ f. (f ≡ no_memory) ⊎ (f ≡ write_failed)) }
    ensures silent { IfErr result (λ f. (f ≡ write_failed) ⊎ (writer.new ≡ writer.old)) }
    ensures missing { IfOk result (λ o. NamesRecord o → writer.new ≡ writer.old) }
{
    let records = reading.notes.records;
    if let Some(number) = missing_record(inputs.without, records) {
        return Ok(Outcome::NoRecord { number, records });
    }
    let supposition = supposed(alloc, inputs, reading)?;
    let account = account_of(alloc, inputs, reading, supposition)?;
    write_account(form, &account, writer)?;
    Ok(account.outcome())
}

/// Reads a capture once, from its first byte to its last, and writes the verdict on it in the form that is asked for. A
/// record that is left out is passed over, as one of no connection.
///
/// Nothing is written before the whole capture was read and the verdict stands. [`Fault::NO_MEMORY`],
/// [`Fault::READ_FAILED`] and [`Fault::WRITE_FAILED`] alone are errors.
pub fn explain<R: Source, W: Sink>(
    alloc: Global,
    inputs: &Inputs<'_>,
    form: Form,
    reader: &mut R,
    writer: &mut W,
) -> Result<Outcome, Fault>
    // The records that stay have no fault, and the checker answers a report on what crossed by them.
    ensures explained { IfOk result (λ o. o ≡ Explained
        → IsFileExplained inputs.now.params.now inputs.now.without.now (certificate_in inputs.now.texts) (R.remaining reader.old)) }
    // In any case the checker answers a report on something that crossed.
    ensures judged { IfOk result (λ o. o ≡ Explained → IsSomeExplained (certificate_in inputs.now.texts)) }
    // The outcome is that of an account of what was read of the file.
    ensures told { IfOk result (IsFileTold inputs.now (R.remaining reader.old)) }
    ensures err { IfErr result (λ f. (f ≡ no_memory) ⊎ ((f ≡ read_failed) ⊎ (f ≡ write_failed))) }
    ensures silent { IfErr result (λ f. (f ≡ write_failed) ⊎ (writer.new ≡ writer.old)) }
{
    let is_taped = inputs.suppose.is_some();
    let reading = read_capture(alloc, inputs.params, inputs.without, is_taped, reader)?;
    tell(alloc, inputs, form, &reading, writer)
}
