//! The command line.
use crate::{audit, show};
use clap::builder::ValueParser;
use clap::error::ErrorKind;
use clap::{Arg, ArgAction, ArgMatches, Command, Error, value_parser};
use seatmelon_commands::{
    After, Drafting, Explaining, Extent, Form, Selection, Showing, SurveyForm, Surveying,
};
use seatmelon_many::{Auditing, DraftingAll};
use std::alloc::{AllocError, Global};

/// What the program is asked for.
#[derive(Drop)]
pub enum Request<'a> {
    /// Which connections a capture seems to hold.
    Survey(Surveying<'a>),

    /// A parameter file for the connection of this number, from 1.
    Draft(Drafting<'a>),

    /// Parameter files for all connections.
    DraftAll(DraftingAll<'a>),

    /// The verdict on each of many connections.
    Audit(Auditing<'a>),

    /// The packets of a connection, one by one.
    Show(Showing<'a>),

    /// The verdict on a capture, in words or as data.
    Explain(Explaining<'a>),

    /// A classic capture of the packets of a file in either format.
    Convert { capture: &'a str },
}

const SURVEY_STATUSES: &str = "\
Exit status:
  0  the capture holds at least one connection
  1  it holds none, or it is refused or not whole
  2  the arguments are wrong
  3  memory, reading or writing failed";

const DRAFT_STATUSES: &str = "\
Exit status:
  0  the draft is written, or the drafts are
  1  the capture holds no connection, it is refused or not whole, or no quiet point was found behind RECORD
  2  the arguments are wrong, there is no connection of that number, or PARAMS is refused or of other ids
  3  memory, reading or writing failed";

const EXPLAIN_STATUSES: &str = "\
Exit status:
  0  two ends that keep the rules could have sent the packets
  1  the capture, its packets or the certificate are refused, or no packet is of the connection
  2  the arguments are wrong, or the parameters are refused
  3  memory, reading or writing failed";

const CONVERT_STATUSES: &str = "\
Exit status:
  0  the capture is written
  1  a block of it is refused: the packets before it are written
  2  the arguments are wrong
  3  memory, reading or writing failed";

// The first word of each command.
pub(crate) fn capture<'a>(alloc: Global) -> Arg<'a> {
    Arg::new(alloc, "capture")
        .value_name("CAPTURE")
        .help("A capture of Ethernet frames, pcapng or classic libpcap; - is standard input")
        .required(true)
}

fn survey<'a>(alloc: Global) -> Result<Command<'a>, AllocError> {
    Command::new(alloc, "survey")
        .about("Tells which RaSTA connections a capture seems to hold")
        .after_help(SURVEY_STATUSES)
        .arg(capture(alloc))?
        .arg(json(alloc))
}

fn draft<'a>(alloc: Global) -> Result<Command<'a>, AllocError> {
    let number = Arg::new(alloc, "number")
        .value_name("N")
        .help("The number that the survey gives the connection")
        .value_parser(value_parser!(u64))
        .required_unless_present("all")?;
    let parameters = Arg::new(alloc, "params")
        .value_name("PARAMS")
        .help(
            "With --after: a parameter file whose values are kept, but for the window and the quiet point",
        )
        .requires_arg("after")?;
    Command::new(alloc, "draft")
        .about(
            "Writes a parameter file for one of them, or for all, to be compared with the engineering data",
        )
        .after_help(DRAFT_STATUSES)
        .arg(capture(alloc))?
        .arg(number)?
        .arg(parameters)?
        .arg(after(alloc))?
        .arg(all(alloc)?)
}

// The option that asks for the drafts of all connections.
fn all<'a>(alloc: Global) -> Result<Arg<'a>, AllocError> {
    Arg::new(alloc, "all")
        .long("all")
        .value_name("FOLDER")
        .help(
            "Writes the drafts of all connections into this folder, where no file may stand in their way",
        )
        .conflicts_with("number")?
        .conflicts_with("params")?
        .conflicts_with("after")
}

// The option that asks for quiet points behind a record.
fn after<'a>(alloc: Global) -> Arg<'a> {
    Arg::new(alloc, "after")
        .long("after")
        .value_name("RECORD")
        .help("Proposes quiet points behind the record of this number, as behind a gap")
        .value_parser(ValueParser::unsigned(1, 4_294_967_295))
}

// The option that leaves a record out; it may stand again and again.
fn without<'a>(alloc: Global) -> Arg<'a> {
    Arg::new(alloc, "without")
        .long("without")
        .value_name("RECORD")
        .help("Takes the record of this number for one of another connection; may be repeated")
        .action(ArgAction::Append)
        .value_parser(ValueParser::unsigned(1, 4_294_967_295))
}

// The option that supposes PDUs that the tap missed.
fn suppose<'a>(alloc: Global) -> Result<Arg<'a>, AllocError> {
    Arg::new(alloc, "suppose")
        .long("suppose")
        .value_name("N")
        .help(
            "Where PDUs are missing (28), looks for up to N of them, at most 16, with which the rules can explain the rest",
        )
        .value_parser(ValueParser::unsigned(1, 16))
        .conflicts_with("certificate")
}

// The option that asks for data in place of words.
pub(crate) fn json<'a>(alloc: Global) -> Arg<'a> {
    Arg::new(alloc, "json")
        .long("json")
        .help("Writes the same as one JSON object, for programs")
        .action(ArgAction::SetTrue)
}

// The option that leaves the messages out.
fn summary<'a>(alloc: Global) -> Result<Arg<'a>, AllocError> {
    Arg::new(alloc, "summary")
        .long("summary")
        .help("Stops before the messages")
        .action(ArgAction::SetTrue)
        .conflicts_with("messages")?
        .conflicts_with("not_shown")?
        .conflicts_with("record")?
        .conflicts_with("whole")?
        .conflicts_with("json")
}

// The options that choose among the messages, which JSON always has, all of them.
fn messages<'a>(alloc: Global) -> Result<Arg<'a>, AllocError> {
    Arg::new(alloc, "messages")
        .long("messages")
        .value_name("A-B")
        .help("Tells the messages with these numbers alone, of either direction")
        .conflicts_with("json")
}

fn not_shown<'a>(alloc: Global) -> Result<Arg<'a>, AllocError> {
    Arg::new(alloc, "not_shown")
        .long("not-shown")
        .help("Tells the messages alone that weren't shown to be taken")
        .action(ArgAction::SetTrue)
        .conflicts_with("json")
}

fn of_record<'a>(alloc: Global) -> Result<Arg<'a>, AllocError> {
    Arg::new(alloc, "record")
        .long("record")
        .value_name("N")
        .help("Tells the messages alone whose data or proof is in the record of this number")
        .value_parser(ValueParser::unsigned(1, 4_294_967_295))
        .conflicts_with("json")
}

// The option that cuts no message.
fn whole<'a>(alloc: Global) -> Result<Arg<'a>, AllocError> {
    Arg::new(alloc, "whole")
        .long("whole")
        .help("Tells messages of more than 64 bytes whole")
        .action(ArgAction::SetTrue)
        .conflicts_with("json")
}

fn explain<'a>(alloc: Global) -> Result<Command<'a>, AllocError> {
    let parameters = Arg::new(alloc, "params")
        .value_name("PARAMS")
        .help("The connection's parameter file")
        .required(true);
    let certificate = Arg::new(alloc, "certificate").value_name("CERT").help(
        "A certificate to be judged, in place of one that is found",
    );
    Command::new(alloc, "explain")
        .about(
            "Tells in words whether the rules can explain a connection, and which messages were surely taken",
        )
        .after_help(EXPLAIN_STATUSES)
        .arg(capture(alloc))?
        .arg(parameters)?
        .arg(certificate)?
        .arg(without(alloc))?
        .arg(suppose(alloc)?)?
        .arg(summary(alloc)?)?
        .arg(messages(alloc)?)?
        .arg(not_shown(alloc)?)?
        .arg(of_record(alloc)?)?
        .arg(whole(alloc)?)?
        .arg(json(alloc))
}

fn convert<'a>(alloc: Global) -> Result<Command<'a>, AllocError> {
    Command::new(alloc, "convert")
        .about(
            "Writes the packets of a pcapng file, or of Linux's device 'any', as a classic file of Ethernet frames",
        )
        .after_help(CONVERT_STATUSES)
        .arg(capture(alloc))
}

fn command<'a>(alloc: Global) -> Result<Command<'a>, AllocError> {
    Command::new(alloc, "seatmelon")
        .bin_name("seatmelon")?
        .no_binary_name(true)
        .version("0.1.0")
        .about("Looks into captures of RaSTA connections")
        .subcommand_required(true)
        .subcommand(survey(alloc)?)?
        .subcommand(draft(alloc)?)?
        .subcommand(show::command(alloc, capture(alloc))?)?
        .subcommand(explain(alloc)?)?
        .subcommand(audit::command(alloc, capture(alloc))?)?
        .subcommand(convert(alloc)?)
}

// The numbers of the records that are left out, rising, each once.
fn left_out(alloc: Global, matches: &ArgMatches<'_>) -> Result<Vec<u32>, AllocError> {
    let mut numbers = Vec::new(alloc);
    for text in matches.get_strs("without").unwrap_or(&[]) {
        if let Ok(number) = text.parse::<u32>() {
            numbers.push(number)?;
        }
    }
    numbers.sort_unstable();
    numbers.dedup();
    Ok(numbers)
}

// The range of numbers that a text spells: `A-B`, or `A` alone.
fn range_in(text: &str) -> Option<(u64, u64)> {
    let (first, last) = text.split_once('-').unwrap_or((text, text));
    let range = (first.parse().ok()?, last.parse().ok()?);
    if range.0 <= range.1 {
        Some(range)
    } else {
        None
    }
}

// That an option has no range of numbers.
fn no_range(alloc: Global, text: &str) -> Result<Error, Error> {
    let message = format!(in alloc;
        "invalid value '{text}' for '--messages <A-B>': a number, or two that don't fall, with a hyphen"
    )?;
    let mut command = explain(alloc)?.bin_name("seatmelon explain")?;
    Ok(command.error(ErrorKind::ValueValidation, message.as_str())?)
}

// The numbers of the messages that are chosen, if some are.
fn numbers_in(alloc: Global, matches: &ArgMatches<'_>) -> Result<Option<(u64, u64)>, Error> {
    let Some(text) = matches.get_str("messages") else {
        return Ok(None);
    };
    match range_in(text) {
        Some(range) => Ok(Some(range)),
        None => Err(no_range(alloc, text)?),
    }
}

// Which messages are chosen.
fn selection_in(alloc: Global, matches: &ArgMatches<'_>) -> Result<Selection, Error> {
    Ok(Selection {
        numbers: numbers_in(alloc, matches)?,
        not_shown: matches.get_flag("not_shown"),
        of_record: match matches.get_str("record") {
            Some(number) => number.parse().ok(),
            None => None,
        },
    })
}

// What is to be written.
fn form_in(alloc: Global, matches: &ArgMatches<'_>) -> Result<Form, Error> {
    if matches.get_flag("json") {
        return Ok(Form::Json);
    }
    let messages = if matches.get_flag("summary") {
        None
    } else {
        Some(selection_in(alloc, matches)?)
    };
    Ok(Form::Text(Extent {
        messages,
        is_whole: matches.get_flag("whole"),
    }))
}

// What the words of `explain` ask for.
fn explaining_in<'a>(
    alloc: Global,
    matches: &ArgMatches<'a>,
    capture: &'a str,
) -> Result<Option<Request<'a>>, Error> {
    let Some(parameters) = matches.get_str("params") else {
        return Ok(None);
    };
    Ok(Some(Request::Explain(Explaining {
        capture,
        parameters,
        certificate: matches.get_str("certificate"),
        without: left_out(alloc, matches)?,
        suppose: matches.get_one("suppose"),
        form: form_in(alloc, matches)?,
    })))
}

// What the words of `survey` ask for.
fn surveying_in<'a>(matches: &ArgMatches<'a>, capture: &'a str) -> Surveying<'a> {
    Surveying {
        capture,
        form: if matches.get_flag("json") {
            SurveyForm::Json
        } else {
            SurveyForm::Text
        },
    }
}

fn drafting_in<'a>(matches: &ArgMatches<'a>, capture: &'a str) -> Option<Request<'a>> {
    if let Some(folder) = matches.get_str("all") {
        return Some(Request::DraftAll(DraftingAll { capture, folder }));
    }
    let after = matches.get_one("after").map(|record| After {
        record,
        parameters: matches.get_str("params"),
    });
    Some(Request::Draft(Drafting {
        capture,
        number: matches.get_one("number")?,
        after,
    }))
}

// What the words of a command ask for.
fn request_in<'a>(alloc: Global, matches: &ArgMatches<'a>) -> Result<Option<Request<'a>>, Error> {
    let Some((name, inner)) = matches.subcommand() else {
        return Ok(None);
    };
    let Some(capture) = inner.get_str("capture") else {
        return Ok(None);
    };
    match name {
        "survey" => Ok(Some(Request::Survey(surveying_in(inner, capture)))),
        "audit" => Ok(Some(Request::Audit(audit::auditing_in(alloc, inner, capture)?))),
        "show" => Ok(show::showing_in(alloc, inner, capture)?.map(Request::Show)),
        "explain" => Ok(explaining_in(alloc, inner, capture)?),
        "convert" => Ok(Some(Request::Convert { capture })),
        _ => Ok(drafting_in(inner, capture)),
    }
}

/// Reads the words after the program's name.
///
/// An error is a mistake in the words, a lack of memory, or a request for help or the version.
pub fn parse<'a>(alloc: Global, words: &'a [String]) -> Result<Request<'a>, Error> {
    let matches = command(alloc)?.try_get_matches_from(words)?;
    match request_in(alloc, &matches)? {
        Some(request) => Ok(request),
        None => Err(command(alloc)?.error(ErrorKind::MissingSubcommand, "a command is missing")?),
    }
}
