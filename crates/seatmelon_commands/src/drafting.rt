//! The command `draft`.
ghost use Rattle.std.specs.Prelude.{◌≡◌, ◌≤◌, true, false, IfErr, IfOk};
ghost use Rattle.seatmelon_survey.specs.Survey.{connections_in};
ghost use Rattle.seatmelon_commands.specs.Drafts.{IsAnswer, IsOutside, KeepsParams, has_ids_of, lacks_quiet_point};

use crate::answer::{Answer, Draft, write_answer};
use crate::reading::whole_file;
use crate::surveying::{status_of_survey, survey_at};
use rasta_pdu::Params;
use seatmelon_failures::{
    Failure, FileKind, InputFailure, Refusal, STANDARD_OUTPUT, WordsFailure, WordsOrMemory,
    params_in,
};
use seatmelon_survey::{Behind, Connection, Survey};
use std::alloc::Global;
use std::io;
use std::io::Input;
use std::rt::Files;

/// Behind which record a quiet point is wanted, and the path of the parameter file whose values are kept, if one is named.
#[derive(Clone, Copy)]
pub struct After<'a> {
    pub record: u32,
    pub parameters: Option<&'a str>,
}

/// What is to be drafted: the path of a capture, and the number of a connection, from 1.
#[derive(Clone, Copy)]
pub struct Drafting<'a> {
    pub capture: &'a str,
    pub number: u64,
    pub after: Option<After<'a>>,
}

// For which connection the survey looks for quiet points behind a record.
fn behind_in(drafting: &Drafting<'_>) -> Option<Behind> {
    let after = drafting.after?;
    Some(Behind {
        place: usize::try_from(drafting.number.checked_sub(1)?).ok()?,
        record: after.record,
    })
}

// Why there is no draft of a connection.
fn missing(alloc: Global, path: &str, number: u64, count: u64) -> WordsOrMemory {
    match String::from_str(alloc, path) {
        Ok(path) => WordsOrMemory::Words(WordsFailure::NoConnection {
            path,
            number,
            count,
        }),
        Err(_) => WordsOrMemory::OutOfMemory,
    }
}

// Why recorded parameters aren't kept.
fn of_others(alloc: Global, path: &str, number: u64) -> WordsOrMemory {
    match String::from_str(alloc, path) {
        Ok(path) => WordsOrMemory::Words(WordsFailure::OtherIds { path, number }),
        Err(_) => WordsOrMemory::OutOfMemory,
    }
}

// Whether parameters have the ids of the ends of a connection.
fn has_ids_of(params: &Params, connection: &Connection) -> bool
    ensures { result ≡ has_ids_of params.now connection.now }
{
    let (first, second) = connection.ids();
    let (client, server) = (params.client_id(), params.server_id());
    (client == first && server == second) || (client == second && server == first)
}

/// The draft of the connection of that number, from 1, or the survey where it found none at all.
pub fn draft_in<'a>(
    alloc: Global,
    path: &str,
    survey: &'a Survey,
    number: u64,
) -> Result<Answer<'a>, WordsOrMemory>
    ensures ok { IfOk result (IsAnswer survey.now number) }
    ensures outside { IfErr result (λ _. IsOutside (connections_in survey.now) number) }
{
    let connections = survey.connections();
    let count = connections.len() as u64;
    if count == 0 {
        Ok(Answer::Survey(survey))
    } else if number == 0 || number > count {
        Err(missing(alloc, path, number, count))
    } else {
        Ok(Answer::Draft(Draft {
            connection: &connections[(number - 1) as usize],
            fault: survey.fault(),
            format: survey.format(),
            kept: None,
        }))
    }
}

/// A draft that keeps recorded parameters, which have the ids of the connection of that number; `path` is their file's name
/// in the failure.
pub fn with_params<'a>(
    alloc: Global,
    path: &str,
    number: u64,
    draft: Draft<'a>,
    params: &'a Params,
) -> Result<Draft<'a>, WordsOrMemory>
    ensures ok { IfOk result (λ d. KeepsParams draft.entry params.now d) }
    ensures others { IfErr result (λ _. has_ids_of params.now draft.entry.connection.now ≡ false) }
{
    if has_ids_of(params, draft.connection) {
        Ok(Draft {
            kept: Some(params),
            ..draft
        })
    } else {
        Err(of_others(alloc, path, number))
    }
}

// The path of the file whose parameters are kept.
fn parameters_in<'a>(drafting: &Drafting<'a>) -> Option<&'a str> {
    drafting.after?.parameters
}

// What is drafted of a survey, with the parameters that are kept.
fn answer_in<'a>(
    alloc: Global,
    drafting: &Drafting<'_>,
    survey: &'a Survey,
    kept: Option<&'a Params>,
) -> Result<Answer<'a>, WordsOrMemory>
    ensures { IfOk result (IsAnswer survey.now drafting.now.number) }
{
    let number = drafting.number;
    let answer = draft_in(alloc, drafting.capture, survey, number)?;
    match (answer, parameters_in(drafting), kept) {
        (Answer::Draft(draft), Some(path), Some(params)) => {
            match with_params(alloc, path, number, draft, params) {
                Ok(draft) => Ok(Answer::Draft(draft)),
                Err(failure) => Err(failure),
            }
        }
        _ => Ok(answer),
    }
}

// Reads the parameters that are kept.
fn kept_params<R: AllocGlobal + Files>(
    rt: &R,
    drafting: &Drafting<'_>,
) -> Result<Option<Params>, InputFailure> {
    let Some(path) = parameters_in(drafting) else {
        return Ok(None);
    };
    let text = whole_file(rt, path)?;
    Ok(Some(params_in(rt.alloc(), path, &text)?))
}

/// Tells on standard error that a capture isn't whole, since a draft mostly goes into a file.
pub fn tell_fault<R: Eprint>(rt: &R, path: &str, survey: &Survey) {
    let Some(fault) = survey.fault() else {
        return;
    };
    let refusal = Refusal {
        fault,
        kind: FileKind::Capture,
        header: None,
        format: survey.format(),
    };
    // Where standard error fails too, the draft has told it.
    let _ = eprintln!(rt; "seatmelon: {path}: {refusal}\nonly the records before that were read");
}

// The program's status after a draft: 1 also where the quiet point that is wanted wasn't found.
fn status_of_answer(answer: &Answer<'_>, survey: &Survey) -> u8
    ensures status { result ≤ 1 }
    ensures lacks { lacks_quiet_point answer.now ≡ true → result ≡ 1 }
{
    match answer {
        Answer::Draft(draft) if draft.connection.lacks_quiet_point() => 1,
        _ => status_of_survey(survey),
    }
}

/// Surveys the capture of that path, and writes the draft of the connection of that number to standard output.
/// Answers the program's status: where no connection was found it is 1, and the survey is written. It is 1 too where the
/// capture isn't whole, which standard error is told, and where no quiet point was found behind the record that is given.
pub fn draft_file<R: AllocGlobal + Files + Input + Print + Eprint>(
    rt: &R,
    drafting: &Drafting<'_>,
) -> Result<u8, Failure>
    ensures { IfOk result (λ status. status ≤ 1) }
{
    let kept = kept_params(rt, drafting)?;
    let survey = survey_at(rt, drafting.capture, behind_in(drafting))?;
    let answer = answer_in(rt.alloc(), drafting, &survey, kept.as_ref())?;
    write_answer(rt.alloc(), STANDARD_OUTPUT, &answer, io::writer(rt))?;
    tell_fault(rt, drafting.capture, &survey);
    Ok(status_of_answer(&answer, &survey))
}
