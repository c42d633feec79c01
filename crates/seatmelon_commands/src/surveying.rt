//! The command `survey`.
ghost use Rattle.std.specs.Prelude.{◌≡◌, ◌<◌, ◌≤◌, [], length, None, IfErr, IfOk, IfSome, IsSome};
ghost use Rattle.seatmelon_survey.specs.Survey.{connections_in, fault_in, format_of_survey, header_of};
ghost use Rattle.seatmelon_commands.specs.Failing.{TellsOf};
ghost use Rattle.seatmelon_commands.specs.Formats.{FormatFits};
ghost use Rattle.seatmelon_commands.specs.Headers.{IsHeaderOf, TellsHeader, TellsHeaderOf};

use crate::answer::{Answer, write_answer};
use crate::opening::open_capture;
use crate::watched::Watched;
use rasta_pcap::{BUFFER, Buffered, Counted, Fault, Source};
use seatmelon_capture::{FileHeader, Keeping};
use seatmelon_failures::{
    CaptureFailure, DeviceFailure, Refusal, RefusedCapture, STANDARD_OUTPUT, kind_of_start, unread,
};
use seatmelon_pcapng::{Capture, Format};
use seatmelon_survey::{Behind, Survey, survey};
use std::alloc::Global;
use std::io;
use std::io::{Input, Read};
use std::rt::Files;

/// Why a capture isn't read, by the fault, its header and what was read of its file.
pub fn refused<D>(
    alloc: Global,
    path: &str,
    fault: Fault,
    header: Option<FileHeader>,
    file: &Watched<D>,
) -> CaptureFailure
    ensures number { TellsOf fault.number result }
    ensures header { TellsHeader header result }
{
    match fault.number {
        Fault::NO_MEMORY => CaptureFailure::Device(DeviceFailure::OutOfMemory),
        Fault::READ_FAILED => CaptureFailure::Device(unread(alloc, path, file.error())),
        _ => {
            let refusal = Refusal {
                fault,
                kind: kind_of_start(file.start()),
                header,
                format: Format::Classic,
            };
            match String::from_str(alloc, path) {
                Ok(path) => CaptureFailure::Refused(RefusedCapture { path, refusal }),
                Err(_) => CaptureFailure::Device(DeviceFailure::OutOfMemory),
            }
        }
    }
}

/// What a survey is written as.
#[derive(Clone, Copy)]
pub enum SurveyForm {
    Text,
    Json,
}

/// What is to be surveyed: the path of a capture, and what is written.
#[derive(Clone, Copy)]
pub struct Surveying<'a> {
    pub capture: &'a str,
    pub form: SurveyForm,
}

// Why a file isn't surveyed, and its header, as far as it was read.
#[derive(Clone, Copy)]
struct Unsurveyed {
    fault: Fault,
    header: Option<FileHeader>,
}

impl From<Fault> for Unsurveyed {
    ghost from_gives = { λ fault unsurveyed. unsurveyed ≡ record { fault = fault; header = None } };

    fn from(fault: Fault) -> Unsurveyed {
        Unsurveyed {
            fault,
            header: None,
        }
    }
}

// Surveys what a source gives, of which nothing was read: a file in either format.
fn surveyed<S: Source>(
    alloc: Global,
    source: S,
    behind: Option<Behind>,
) -> Result<Survey, Unsurveyed>
where
    S: Drop,
    ensures refused { IfSome (S.remaining source) (λ file. S.notes source [] → IfErr result (λ u. IsHeaderOf file u.header)) }
    ensures header { IfSome (S.remaining source) (λ file. S.notes source [] → IfOk result (λ s. IsHeaderOf file (header_of s))) }
    ensures format { IfSome (S.remaining source) (λ file. S.notes source [] → IfOk result (λ s. FormatFits file (format_of_survey s))) }
{
    let capture = Capture::open(alloc, Keeping::new(source))?;
    let mut reader = Buffered::new(alloc, capture, BUFFER)?;
    let outcome = survey(alloc, &mut reader, behind);
    let capture = reader.into_inner();
    match outcome {
        Ok(mut survey) => {
            survey.set_format(capture.format());
            let header = capture.into_inner().header();
            survey.set_header(header);
            Ok(survey)
        }
        Err(fault) => {
            let fault = capture.fault_met(fault);
            let header = capture.into_inner().header();
            Err(Unsurveyed { fault, header })
        }
    }
}

/// Surveys what a reader gives, a file in either format; `path` is its name in the failure. The quiet points of one
/// connection may be wanted behind a record.
pub fn survey_of<D: Read + Drop>(
    alloc: Global,
    path: &str,
    file: D,
    behind: Option<Behind>,
) -> Result<Survey, CaptureFailure>
    // A header that is told is the one that the file begins with.
    ensures refused { IfSome (D.remaining file) (λ bytes. IfErr result (TellsHeaderOf bytes)) }
    ensures header { IfSome (D.remaining file) (λ bytes. IfOk result (λ s. IsHeaderOf bytes (header_of s))) }

    // The format is that of the file, and a refusal and a link type that are told are the file's.
    ensures format { IfSome (D.remaining file) (λ bytes. IfOk result (λ s. FormatFits bytes (format_of_survey s))) }
{
    let mut file = Watched::new(file);
    match surveyed(alloc, Counted::new(&mut file), behind) {
        Ok(survey) => Ok(survey),
        Err(Unsurveyed { fault, header }) => Err(refused(alloc, path, fault, header, &file)),
    }
}

/// Surveys the file of that path; `-` is standard input.
pub fn survey_at<R: AllocGlobal + Files + Input>(
    rt: &R,
    path: &str,
    behind: Option<Behind>,
) -> Result<Survey, CaptureFailure> {
    let capture = open_capture(rt, path)?;
    survey_of(rt.alloc(), path, capture, behind)
}

/// The program's status after a survey: 1 where it found no connection, or the capture isn't whole.
pub fn status_of_survey(survey: &Survey) -> u8
    ensures none { length (connections_in survey.now) ≡ 0 → result ≡ 1 }
    ensures cut { IsSome (fault_in survey.now) → result ≡ 1 }
    ensures some { 0 < length (connections_in survey.now) → fault_in survey.now ≡ None → result ≡ 0 }
{
    u8::from(survey.connections().is_empty() || survey.fault().is_some())
}

/// Writes a survey to standard output.
pub fn write_survey<R: AllocGlobal + Print>(
    rt: &R,
    survey: &Survey,
    form: SurveyForm,
) -> Result<(), DeviceFailure> {
    let answer = match form {
        SurveyForm::Text => Answer::Survey(survey),
        SurveyForm::Json => Answer::SurveyJson(survey),
    };
    write_answer(rt.alloc(), STANDARD_OUTPUT, &answer, io::writer(rt))
}

/// Surveys a capture, and writes the survey to standard output. Answers the program's status.
pub fn survey_file<R: AllocGlobal + Files + Input + Print>(
    rt: &R,
    surveying: &Surveying<'_>,
) -> Result<u8, CaptureFailure>
    ensures { IfOk result (λ status. status ≤ 1) }
{
    let survey = survey_at(rt, surveying.capture, None)?;
    write_survey(rt, &survey, surveying.form)?;
    Ok(status_of_survey(&survey))
}
