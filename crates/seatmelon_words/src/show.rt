//! The words of the command `show`.
use clap::error::ErrorKind;
use clap::{Arg, ArgMatches, Command, Error};
use rasta_pdu::Kind;
use seatmelon_commands::Showing;
use std::alloc::{AllocError, Global};

const STATUSES: &str = "\
Types, by their short names (in letters of either case), their numbers, or their names in the listing:
  ConnReq 6200, ConnResp 6201, RetrReq 6212, RetrResp 6213, DiscReq 6216, HB 6220, Data 6240, RetrData 6241

Exit status:
  0  the window was listed
  1  the capture is refused, ends with a fault, or has no packet of the connection
  2  the arguments are wrong, or the parameters are refused
  3  memory, reading or writing failed";

// The records that are listed.
#[derive(Clone, Copy)]
struct Records {
    first: u32,
    last: u32,
}

const ALL_RECORDS: Records = Records {
    first: 1,
    last: u32::MAX,
};

/// The command `show`, but for its capture.
pub fn command<'a>(alloc: Global, capture: Arg<'a>) -> Result<Command<'a>, AllocError> {
    let parameters = Arg::new(alloc, "params")
        .value_name("PARAMS")
        .help("The connection's parameter file")
        .required(true);
    let types = Arg::new(alloc, "types")
        .long("types")
        .value_name("LIST")
        .help("Lists the packets of these types alone, as in Data,RetrData or 6240,6241");
    let records = Arg::new(alloc, "record")
        .long("record")
        .value_name("A-B")
        .help("Lists the packets in the records A to B alone, or in the record A");
    Command::new(alloc, "show")
        .about("Lists the packets of a connection, a line for each, and judges none")
        .after_help(STATUSES)
        .arg(capture)?
        .arg(parameters)?
        .arg(types)?
        .arg(records)
}

// The short name of a type.
fn short_name_of(kind: Kind) -> &'static str {
    match kind {
        Kind::ConnectionRequest => "ConnReq",
        Kind::ConnectionResponse => "ConnResp",
        Kind::RetransmissionRequest => "RetrReq",
        Kind::RetransmissionResponse => "RetrResp",
        Kind::DisconnectionRequest => "DiscReq",
        Kind::Heartbeat => "HB",
        Kind::Data => "Data",
        Kind::RetransmittedData => "RetrData",
    }
}

// Whether a word names a type.
fn names(word: &str, kind: Kind) -> bool {
    word.parse::<u16>() == Ok(kind.number())
        || word.eq_ignore_ascii_case(short_name_of(kind))
        || word.eq_ignore_ascii_case(kind.name())
}

// The type that a word names.
fn kind_of(word: &str) -> Option<Kind> {
    Kind::ALL.into_iter().find(|kind| names(word, *kind))
}

// The types of a list with commas between them; none where a word names no type.
fn kinds_in(alloc: Global, text: &str) -> Result<Option<Vec<Kind>>, AllocError> {
    let mut kinds = Vec::new(alloc);
    for word in text.split(',') {
        match kind_of(word.trim()) {
            Some(kind) => kinds.push(kind)?,
            None => return Ok(None),
        }
    }
    Ok(Some(kinds))
}

// The records of `A-B`, or of `A`; none where the text is neither.
fn records_in(text: &str) -> Option<Records> {
    let (first, last) = text.split_once('-').unwrap_or((text, text));
    let (first, last) = (first.parse().ok()?, last.parse().ok()?);
    if 1 <= first && first <= last {
        Some(Records { first, last })
    } else {
        None
    }
}

// A value that an option of the command can't have.
fn wrong_value(alloc: Global, value: &str, option: &str, form: &str) -> Result<Error, Error> {
    let message = format!(in alloc; "invalid value '{value}' for '{option}': {form}")?;
    let mut command = command(alloc, crate::command::capture(alloc))?.bin_name("seatmelon show")?;
    Ok(command.error(ErrorKind::ValueValidation, message.as_str())?)
}

// The types that are asked for; none where all are.
fn kinds_asked(alloc: Global, matches: &ArgMatches<'_>) -> Result<Option<Vec<Kind>>, Error> {
    let Some(text) = matches.get_str("types") else {
        return Ok(None);
    };
    match kinds_in(alloc, text)? {
        Some(kinds) => Ok(Some(kinds)),
        None => Err(wrong_value(
            alloc,
            text,
            "--types <LIST>",
            "types with commas between them, as in Data,6241",
        )?),
    }
}

// The records that are asked for.
fn records_asked(alloc: Global, matches: &ArgMatches<'_>) -> Result<Records, Error> {
    let Some(text) = matches.get_str("record") else {
        return Ok(ALL_RECORDS);
    };
    match records_in(text) {
        Some(records) => Ok(records),
        None => Err(wrong_value(
            alloc,
            text,
            "--record <A-B>",
            "a number from 1, or two that don't fall, with a hyphen",
        )?),
    }
}

/// What the words of `show` ask for.
pub fn showing_in<'a>(
    alloc: Global,
    matches: &ArgMatches<'a>,
    capture: &'a str,
) -> Result<Option<Showing<'a>>, Error> {
    let Some(parameters) = matches.get_str("params") else {
        return Ok(None);
    };
    let records = records_asked(alloc, matches)?;
    Ok(Some(Showing {
        capture,
        parameters,
        kinds: kinds_asked(alloc, matches)?,
        first_record: records.first,
        last_record: records.last,
    }))
}
