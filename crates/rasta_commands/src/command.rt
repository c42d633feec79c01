//! The command line.
use crate::failure::Failure;
use crate::forms::Form;
use clap::error::ErrorKind;
use clap::{Arg, ArgMatches, Command, Error};
use rasta_pdu::Fault;
use std::alloc::{AllocError, Global};
use std::io;
use std::rt::Env;

// A subcommand that takes a capture and a parameter file.
fn subcommand<'a>(alloc: Global, name: &'a str) -> Result<Command<'a>, AllocError> {
    Command::new(alloc, name)
        .disable_help_flag(true)
        .disable_version_flag(true)
        .arg(Arg::new(alloc, "capture").required(true))?
        .arg(Arg::new(alloc, "params").required(true))
}

// The subcommand that takes a certificate too.
fn check<'a>(alloc: Global) -> Result<Command<'a>, AllocError> {
    subcommand(alloc, "check")?.arg(Arg::new(alloc, "certificate").required(true))
}

// The program, without the words for help that `clap` would add.
fn root<'a>(alloc: Global) -> Command<'a> {
    Command::new(alloc, "rasta_audit")
        .no_binary_name(true)
        .disable_help_flag(true)
        .disable_version_flag(true)
        .disable_help_subcommand(true)
        .subcommand_required(true)
}

// With a subcommand more.
fn with<'a>(alloc: Global, program: Command<'a>, name: &'a str) -> Result<Command<'a>, AllocError> {
    program.subcommand(subcommand(alloc, name)?)
}

fn command<'a>(alloc: Global) -> Result<Command<'a>, AllocError> {
    let program = with(alloc, root(alloc), "show")?;
    let program = with(alloc, program, "build")?;
    let program = with(alloc, program, "audit")?;
    program.subcommand(check(alloc)?)
}

// The form of this name, where it takes no certificate.
fn form_named<'a>(name: &str, capture: &'a str, params: &'a str) -> Option<Form<'a>> {
    match name {
        "show" => Some(Form::Show { capture, params }),
        "build" => Some(Form::Build { capture, params }),
        "audit" => Some(Form::Audit { capture, params }),
        _ => None,
    }
}

fn form_of<'a>(matches: &ArgMatches<'a>) -> Option<Form<'a>> {
    let (name, inner) = matches.subcommand()?;
    let capture = inner.get_str("capture")?;
    let params = inner.get_str("params")?;
    match inner.get_str("certificate") {
        Some(certificate) => Some(Form::Check {
            capture,
            params,
            certificate,
        }),
        None => form_named(name, capture, params),
    }
}

fn failure_of(error: &Error) -> Failure {
    match error.kind() {
        ErrorKind::OutOfMemory => Failure::Refused(Fault::no_memory()),
        _ => Failure::Usage,
    }
}

/// Reads the words after the program's name.
///
/// Refused by [`Failure::Usage`] where they are none of the four forms, and by [`Fault::NO_MEMORY`].
pub fn form<'a>(alloc: Global, words: &'a [String]) -> Result<Form<'a>, Failure> {
    let Ok(command) = command(alloc) else {
        return Err(Failure::Refused(Fault::no_memory()));
    };
    match command.try_get_matches_from(words) {
        Ok(matches) => form_of(&matches).ok_or(Failure::Usage),
        Err(error) => Err(failure_of(&error)),
    }
}

/// The words after the program's name.
///
/// Refused by [`Failure::Usage`] where one of them is no text, and by [`Fault::NO_MEMORY`].
pub fn words<R: AllocGlobal + Env>(rt: &R) -> Result<Vec<String>, Failure> {
    let no_memory = Failure::Refused(Fault::no_memory());
    match std::env::args(rt) {
        Ok(words) => words.skip(1).collect(rt.alloc()).map_err(|_| no_memory),
        Err(error) if error.kind() == io::ErrorKind::OutOfMemory => Err(no_memory),
        Err(_) => Err(Failure::Usage),
    }
}
