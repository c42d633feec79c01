//! Tells which RaSTA connections a capture seems to hold, `survey CAPTURE`, writes a parameter file for one of them,
//! `draft CAPTURE N [--after RECORD [PARAMS]]`, or for all, `draft CAPTURE --all FOLDER`, lists its packets,
//! `show CAPTURE PARAMS`, and tells in words what the verdict on it is, `explain CAPTURE PARAMS [CERT]`, or on many in one
//! reading, `audit CAPTURE PARAMS..`. Captures are classic libpcap files or pcapng files, which `convert CAPTURE` writes as
//! classic ones.
#![tactic(auto)]

mod version;

use crate::version::write_version;
use clap::Error;
use clap::error::ErrorKind;
use seatmelon_commands::{convert_file, draft_file, explain_files, show_file, survey_file};
use seatmelon_failures::{DeviceFailure, Failure, WordsFailure, WordsOrMemory, unwritten};
use seatmelon_many::{audit_files, draft_all};
use seatmelon_words::{Request, parse};
use std::io;
use std::io::{Input, IsTerminal};
use std::process::ExitCode;
use std::rt::{Env, Files};
use std::time::Clock;

// The words after the program's name.
fn words<R: AllocGlobal + Env>(rt: &R) -> Result<Vec<String>, WordsOrMemory> {
    match std::env::args(rt) {
        Ok(words) => words
            .skip(1)
            .collect(rt.alloc())
            .map_err(|_| WordsOrMemory::OutOfMemory),
        Err(error) if error.kind() == io::ErrorKind::OutOfMemory => Err(WordsOrMemory::OutOfMemory),
        Err(_) => Err(WordsOrMemory::Words(WordsFailure::Arguments)),
    }
}

// Help and the version, on standard output, or what is wrong with the words.
fn tell<R: AllocGlobal + Files + Print + Eprint>(
    rt: &R,
    error: &Error,
) -> Result<u8, DeviceFailure> {
    let written = match error.kind() {
        ErrorKind::OutOfMemory => return Err(DeviceFailure::OutOfMemory),
        ErrorKind::DisplayHelp => error.print(rt),
        ErrorKind::DisplayVersion => write_version(rt),
        _ => {
            // Where standard error fails too, the status alone tells.
            let _ = error.print(rt);
            return Ok(2);
        }
    };
    match written {
        Ok(()) => Ok(0),
        Err(error) => Err(unwritten(rt.alloc(), Some(error))),
    }
}

// `is_timed` says whether standard error is told how far a long reading got.
fn run<R: AllocGlobal + Clock + Clone + Drop + Env + Eprint + Files + Input + Print>(
    rt: &R,
    is_timed: bool,
) -> Result<u8, Failure> {
    let words = words(rt)?;
    Ok(match parse(rt.alloc(), &words) {
        Ok(Request::Survey(surveying)) => survey_file(rt, &surveying)?,
        Ok(Request::Draft(drafting)) => draft_file(rt, &drafting)?,
        Ok(Request::DraftAll(drafting)) => draft_all(rt, &drafting)?,
        Ok(Request::Audit(auditing)) => audit_files(rt, &auditing, is_timed)?,
        Ok(Request::Show(showing)) => show_file(rt, &showing)?,
        Ok(Request::Explain(explaining)) => explain_files(rt, &explaining, is_timed)?,
        Ok(Request::Convert { capture }) => convert_file(rt, capture)?,
        Err(error) => tell(rt, &error)?,
    })
}

fn main(rt: HostRuntime) -> ExitCode {
    match run(&rt, rt.stderr().is_terminal()) {
        Ok(code) => ExitCode::from(code),
        Err(failure) => {
            if failure.is_told() {
                // Where standard error fails too, the status alone tells.
                let _ = eprintln!(rt; "seatmelon: {failure}");
            }
            ExitCode::from(failure.status())
        }
    }
}
