//! The words of the command `audit`.
use crate::command::json;
use clap::{Arg, ArgMatches, Command};
use seatmelon_many::{Auditing, Form};
use std::alloc::{AllocError, Global};

const STATUSES: &str = "\
Exit status:
  0  two ends that keep the rules could have sent the packets, of each connection
  1  a connection is refused, has no packet or no memory, or the capture is refused or not whole
  2  the arguments are wrong, or a parameter file is refused
  3  memory, reading or writing failed";

/// The command `audit`, but for its capture.
pub fn command<'a>(alloc: Global, capture: Arg<'a>) -> Result<Command<'a>, AllocError> {
    let parameters = Arg::new(alloc, "params")
        .value_name("PARAMS")
        .help(
            "Parameter files, and folders of them: of these the files count whose names end in .toml",
        )
        .num_args(1..)
        .required(true);
    Command::new(alloc, "audit")
        .about("Tells of each of many connections whether the rules can explain it, in one reading")
        .after_help(STATUSES)
        .arg(capture)?
        .arg(parameters)?
        .arg(json(alloc))
}

// The paths of the parameter files and folders.
fn parameters_in<'a>(alloc: Global, matches: &ArgMatches<'a>) -> Result<Vec<&'a str>, AllocError> {
    let mut paths = Vec::new(alloc);
    for path in matches.get_strs("params").unwrap_or(&[]) {
        paths.push(*path)?;
    }
    Ok(paths)
}

/// What the words of `audit` ask for.
pub fn auditing_in<'a>(
    alloc: Global,
    matches: &ArgMatches<'a>,
    capture: &'a str,
) -> Result<Auditing<'a>, AllocError> {
    Ok(Auditing {
        capture,
        parameters: parameters_in(alloc, matches)?,
        form: if matches.get_flag("json") {
            Form::Json
        } else {
            Form::Text
        },
    })
}
