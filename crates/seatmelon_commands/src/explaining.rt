//! The command `explain`.
ghost use Rattle.std.specs.Prelude.{◌≡◌, ◌≢◌, ◌≤◌, IfOk, Ok};
ghost use Rattle.seatmelon_account.specs.Outcomes.{NamesRecord};
ghost use Rattle.seatmelon_account.specs.declared.outcome.Outcome.TheVariants.{Explained};
ghost use Rattle.seatmelon_commands.specs.Explained.{IsCaptureExplained, IsGivenFor};

use crate::explanation::{Form, explain};
use crate::opening::open_told;
use crate::output::{failed, flushed, output_to};
use crate::reading::whole_file;
use crate::watched::Watched;
use rasta_pcap::Counted;
use rasta_pdu::Params;
use seatmelon_account::{Names, Outcome, Texts};
use seatmelon_failures::{
    DeviceFailure, FileKind, InputFailure, WordsFailure, WordsOrMemory, judge_certificate,
    kind_of_start, params_in,
};
use std::alloc::Global;
use std::io;
use std::io::{Input, Read, Write};
use std::rt::Files;
use std::time::Clock;

/// What is to be explained: the paths of the files, the numbers of the records that are left out, rising, and
/// what is written.
#[derive(Drop)]
pub struct Explaining<'a> {
    pub capture: &'a str,
    pub parameters: &'a str,
    pub certificate: Option<&'a str>,
    pub without: Vec<u32>,

    /// How many PDUs the tap may be supposed to have missed, if any.
    pub suppose: Option<u32>,

    pub form: Form,
}

/// What was read beside the capture: the parameters, and the bytes of both files.
#[derive(Drop)]
pub struct Inputs {
    pub params: Params,
    pub parameters: Vec<u8>,
    pub certificate: Option<Vec<u8>>,
}

/// What an explanation came to, and what kind of file the capture seems to be.
#[derive(Clone, Copy)]
pub struct Explanation {
    pub outcome: Outcome,
    pub kind: FileKind,
}

// What stands beside a capture that is to be explained.
fn given<'a>(explaining: &'a Explaining<'_>, inputs: &'a Inputs) -> seatmelon_account::Inputs<'a>
    ensures { IsGivenFor explaining.now inputs.now result }
{
    seatmelon_account::Inputs {
        names: Names {
            capture: explaining.capture,
            parameters: explaining.parameters,
            certificate: explaining.certificate,
        },
        texts: Texts {
            parameters: inputs.parameters.as_slice(),
            certificate: inputs.certificate.as_deref(),
        },
        params: &inputs.params,
        without: explaining.without.as_slice(),
        suppose: explaining.suppose,
    }
}

/// Explains the capture that a reader gives, and writes that to a device, all of it.
pub fn explain_of<D: Read + Drop, W: Write + Drop>(
    alloc: Global,
    explaining: &Explaining<'_>,
    inputs: &Inputs,
    file: D,
    device: W,
) -> Result<Explanation, DeviceFailure>
    // The records that stay have no fault, and the checker answers a report on what crossed by them.
    ensures { IfOk result (λ e. e.outcome ≡ Explained → IsCaptureExplained explaining.now inputs.now (D.remaining file)) }
{
    let mut source = Counted::new(Watched::new(file));
    let mut output = output_to(alloc, device)?;
    let given = given(explaining, inputs);
    let outcome = explain(alloc, &given, explaining.form, &mut source, &mut output);
    let reader = source.into_inner();
    match flushed(output, outcome) {
        Ok(outcome) => Ok(Explanation {
            outcome,
            kind: kind_of_start(reader.start()),
        }),
        Err(stopped) => Err(failed(alloc, explaining.capture, stopped, reader.error())),
    }
}

// Why a capture isn't explained without a record that it doesn't have.
fn no_record(alloc: Global, path: &str, number: u32, records: u32) -> WordsOrMemory {
    match String::from_str(alloc, path) {
        Ok(path) => WordsOrMemory::Words(WordsFailure::NoRecord {
            path,
            number,
            records,
        }),
        Err(_) => WordsOrMemory::OutOfMemory,
    }
}

/// The program's status after an explanation that was written: 0 where the packets are explained.
pub fn status_of_outcome(outcome: Outcome) -> u8
    ensures explained { outcome ≡ Explained → result ≡ 0 }
    ensures other { outcome ≢ Explained → result ≡ 1 }
{
    match outcome {
        Outcome::Explained => 0,
        Outcome::Refused | Outcome::NoPackets | Outcome::NoRecord { .. } => 1,
    }
}

// The program's status after an explanation, or why none was written.
fn status_after(alloc: Global, path: &str, outcome: Outcome) -> Result<u8, WordsOrMemory>
    ensures ok { IfOk result (λ status. status ≤ 1) }
    ensures explained { outcome ≡ Explained → result ≡ Ok 0 }
    ensures other { IfOk result (λ status. outcome ≢ Explained → status ≡ 1) }
    ensures missing { NamesRecord outcome → IfOk result (λ _. ⊥) }
{
    match outcome {
        Outcome::NoRecord { number, records } => Err(no_record(alloc, path, number, records)),
        _ => Ok(status_of_outcome(outcome)),
    }
}

// Explains the capture on standard output.
fn explain_capture<R: AllocGlobal + Files + Input + Print + Eprint + Clock>(
    rt: &R,
    explaining: &Explaining<'_>,
    inputs: &Inputs,
    is_told: bool,
) -> Result<Explanation, DeviceFailure> {
    let capture = open_told(rt, explaining.capture, is_told)?;
    explain_of(rt.alloc(), explaining, inputs, capture, io::writer(rt))
}

/// Tells on standard error what else the capture seems to be.
pub fn advise<R: Eprint>(rt: &R, path: &str, kind: FileKind) {
    let advice = match kind {
        FileKind::Text => "this looks like a text file, where a capture is wanted",
        FileKind::Gzip => "this is a gzip file: gunzip it first",
        FileKind::Capture | FileKind::Pcapng | FileKind::Other => return,
    };
    // Where standard error fails too, the text has told what is wrong.
    let _ = eprintln!(rt; "seatmelon: {path}: {advice}");
}

// The bytes of the certificate, where one is named, and not a parameter file in its place.
fn certificate_of<R: AllocGlobal + Files>(
    rt: &R,
    path: Option<&str>,
) -> Result<Option<Vec<u8>>, InputFailure> {
    let Some(path) = path else {
        return Ok(None);
    };
    let text = whole_file(rt, path)?;
    judge_certificate(rt.alloc(), path, &text)?;
    Ok(Some(text))
}

// Reads the parameters, and then the certificate where one is named.
fn read_inputs<R: AllocGlobal + Files>(
    rt: &R,
    explaining: &Explaining<'_>,
) -> Result<Inputs, InputFailure> {
    let parameters = whole_file(rt, explaining.parameters)?;
    let params = params_in(rt.alloc(), explaining.parameters, &parameters)?;
    let certificate = certificate_of(rt, explaining.certificate)?;
    Ok(Inputs {
        params,
        parameters,
        certificate,
    })
}

/// Reads the parameters, and then the certificate where one is named, and explains the capture on standard output. If
/// `is_told`, standard error says how many megabytes were read of one that takes longer than a second. Answers the
/// program's status.
pub fn explain_files<R: AllocGlobal + Files + Input + Print + Eprint + Clock>(
    rt: &R,
    explaining: &Explaining<'_>,
    is_told: bool,
) -> Result<u8, InputFailure>
    ensures { IfOk result (λ status. status ≤ 1) }
{
    let inputs = read_inputs(rt, explaining)?;
    let explanation = explain_capture(rt, explaining, &inputs, is_told)?;
    advise(rt, explaining.capture, explanation.kind);
    Ok(status_after(rt.alloc(), explaining.capture, explanation.outcome)?)
}
