//! The command `draft` for all connections at once.
ghost use Rattle.std.specs.Prelude.{◌≤◌, IfOk};

use seatmelon_commands::{
    Answer, Draft, SurveyForm, status_of_survey, survey_at, tell_fault, write_answer, write_survey,
};
use seatmelon_failures::{CaptureFailure, DeviceFailure, unwritten, unwritten_at};
use seatmelon_survey::{Connection, Survey};
use std::alloc::{AllocError, Global};
use std::fs::File;
use std::io::Input;
use std::rt::Files;
use std::{fs, io};

/// What is to be drafted: the path of a capture, and the folder that gets a parameter file for each connection of it.
#[derive(Clone, Copy)]
pub struct DraftingAll<'a> {
    pub capture: &'a str,
    pub folder: &'a str,
}

// The fewest digits of a number in a file's name.
const FEWEST_DIGITS: usize = 3;

// How many digits the numbers of so many files have: as many each, so that their names stand in the order of the connections.
fn width_for(alloc: Global, count: usize) -> Result<usize, AllocError> {
    Ok(count.to_string(alloc)?.len().max(FEWEST_DIGITS))
}

// The path of the file for the connection of this number.
fn path_in(alloc: Global, folder: &str, number: usize, width: usize) -> Result<String, AllocError> {
    format!(in alloc; "{folder}/connection-{number:0width$}.toml")
}

// Writes the draft of a connection into a file that isn't there yet, and names it on standard output.
fn write_draft<R: AllocGlobal + Files + Print>(
    rt: &R,
    path: &str,
    draft: Draft<'_>,
) -> Result<(), DeviceFailure> {
    let file = match File::create_new(rt, path) {
        Ok(file) => file,
        Err(error) => return Err(unwritten_at(rt.alloc(), path, Some(error))),
    };
    write_answer(rt.alloc(), path, &Answer::Draft(draft), file)?;
    match println!(rt; "{path}") {
        Ok(()) => Ok(()),
        Err(error) => Err(unwritten(rt.alloc(), Some(error))),
    }
}

// Writes the drafts of all connections into a folder.
fn write_drafts<R: AllocGlobal + Files + Print>(
    rt: &R,
    folder: &str,
    survey: &Survey,
) -> Result<(), DeviceFailure> {
    if let Err(error) = fs::create_dir_all(rt, folder) {
        return Err(unwritten_at(rt.alloc(), folder, Some(error)));
    }
    let connections = survey.connections();
    let width = width_for(rt.alloc(), connections.len())?;
    for (place, connection) in connections.iter().enumerate() {
        let path = path_in(rt.alloc(), folder, place + 1, width)?;
        let draft = Draft {
            connection,
            fault: survey.fault(),
            format: survey.format(),
            kept: None,
        };
        write_draft(rt, path.as_str(), draft)?;
    }
    Ok(())
}

/// Surveys the capture, and writes a draft for each connection into the folder, which is made if it isn't there:
/// `connection-001.toml` and so on. A file that is there is never overwritten: the first one ends the writing. Answers the
/// program's status: where no connection was found it is 1, and the survey is written; it is 1 too where the capture isn't
/// whole, which standard error is told.
pub fn draft_all<R: AllocGlobal + Eprint + Files + Input + Print>(
    rt: &R,
    drafting: &DraftingAll<'_>,
) -> Result<u8, CaptureFailure>
    ensures { IfOk result (λ status. status ≤ 1) }
{
    let survey = survey_at(rt, drafting.capture, None)?;
    if survey.connections().is_empty() {
        write_survey(rt, &survey, SurveyForm::Text)?;
    } else {
        write_drafts(rt, drafting.folder, &survey)?;
        tell_fault(rt, drafting.capture, &survey);
    }
    Ok(status_of_survey(&survey))
}
