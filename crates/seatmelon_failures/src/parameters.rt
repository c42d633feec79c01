//! Parameter files, and why they are refused, in words.
ghost use Rattle.std.specs.Prelude.{Ok, IfOk};
ghost use Rattle.rasta_params.specs.Keys.{ReadsParameters};

use crate::file_kind::{FileKind, kind_of_start};
use crate::key_lines::{
    MisplacedKey, has_keys, line_of_key, line_of_place, misplaced_key_in, place_of_key,
};
use crate::unknown_key::{UnknownKey, unknown_key};
use crate::words::{WordsFailure, WordsOrMemory};
use rasta_params::params;
use rasta_pdu::{Fault, Params};
use std::alloc::{AllocError, Global};
use std::{fmt, str};

/// A key of a parameter file, and what may stand there.
#[derive(Clone, Copy)]
struct Key {
    name: &'static str,
    form: &'static str,
}

/// Why a parameter file is refused.
#[derive(Debug, Drop)]
pub struct ParameterRefusal {
    fault: Fault,
    // The line that seems to be at fault, from 1.
    line: Option<usize>,
    // A key that no parameter file has, where one is missing or unknown.
    unknown: Option<UnknownKey>,
    // A key that stands in a table, if that is why another one is missing or has a wrong value.
    misplaced: Option<MisplacedKey>,
    // What is wrong with a text that is no TOML document.
    error: Option<toml::de::Error>,
    kind: FileKind,
    // Whether the text seems to be a parameter file.
    has_keys: bool,
    // Whether the file wasn't named, but its folder.
    is_of_folder: bool,
}

// The numbers of the keys that hold tables.
const CHANNEL: u32 = 11;

const QUIET: u32 = 13;

impl Key {
    const fn new(name: &'static str, form: &'static str) -> Key {
        Key { name, form }
    }
}

// The key of that number.
fn key_of(number: u32) -> Option<Key> {
    match number {
        1 => Some(Key::new("client_id", "a whole number from 0 to 4294967295")),
        2 => Some(Key::new(
            "server_id",
            "a whole number from 0 to 4294967295, and not client_id",
        )),
        3 => Some(Key::new("code_length", "0, 8 or 16")),
        4 => Some(Key::new("md4_start", "a text of 32 hexadecimal digits")),
        5 => Some(Key::new("check_length", "0, 2 or 4")),
        6 => Some(Key::new("n_sendmax", "a whole number from 1 to 65535")),
        7 => Some(Key::new("t_max", "a whole number from 1 to 60000")),
        8 => Some(Key::new("slack", "a whole number from 0 to 1000")),
        9 => Some(Key::new("first_record", "a whole number from 1 to 4000000000")),
        10 => Some(Key::new(
            "last_record",
            "a whole number from first_record to 4000000000",
        )),
        11 => Some(Key::new(
            "channel",
            "one to four tables with only client and server, each a text \"a.b.c.d:port\", no direction twice",
        )),
        13 => Some(Key::new(
            "quiet",
            "a table with only client and server, each with next_sn, clock and, if any, deadline and handed_ts",
        )),
        _ => None,
    }
}

// A key of a text that no parameter file has, where a key is missing or unknown.
fn unknown_by(alloc: Global, text: &str, fault: Fault) -> Result<Option<UnknownKey>, AllocError> {
    if fault.number == Fault::MISSING_KEY || key_of(fault.place).is_none() {
        unknown_key(alloc, text)
    } else {
        Ok(None)
    }
}

// The key that seems to be missing, but stands in a table.
fn missing_in(text: &str, fault: Fault) -> Option<MisplacedKey> {
    let name = key_of(fault.place)?.name;
    let line = line_of_key(text, name)?;
    let place = place_of_key(name)?;
    Some(MisplacedKey { place, line })
}

// The key of a text that stands in a table, if that is what a fault comes from.
fn misplaced_by(text: &str, fault: Fault) -> Option<MisplacedKey> {
    match fault.place {
        CHANNEL | QUIET => misplaced_key_in(text),
        _ if fault.number == Fault::MISSING_KEY => missing_in(text, fault),
        _ => None,
    }
}

// The line of a parameter file at which a fault seems to be.
fn line_of(
    text: &str,
    fault: Fault,
    unknown: Option<&UnknownKey>,
    misplaced: Option<MisplacedKey>,
) -> Option<usize> {
    if let Some(key) = misplaced {
        return Some(key.line);
    }
    match key_of(fault.place) {
        Some(key) => line_of_key(text, key.name),
        None => unknown.map(|unknown| unknown.line),
    }
}

impl ParameterRefusal {
    // Why a parameter file of this text is refused by this fault.
    fn new(alloc: Global, text: &[u8], fault: Fault) -> Result<ParameterRefusal, AllocError> {
        let mut refusal = ParameterRefusal {
            fault,
            line: None,
            unknown: None,
            misplaced: None,
            error: None,
            kind: kind_of_start(text),
            has_keys: str::from_utf8(text).is_ok_and(has_keys),
            is_of_folder: false,
        };
        if fault.number == Fault::TOML {
            refusal.error = toml::table_from_slice(alloc, text).err();
            refusal.line = refusal
                .error
                .and_then(|error| error.span())
                .and_then(|span| line_of_place(text, span.start));
        } else if let Ok(text) = str::from_utf8(text) {
            refusal.unknown = unknown_by(alloc, text, fault)?;
            refusal.misplaced = misplaced_by(text, fault);
            refusal.line = line_of(text, fault, refusal.unknown.as_ref(), refusal.misplaced);
        }
        Ok(refusal)
    }

    /// The same of a file that wasn't named, but its folder: where it seems to be no parameter file, its text says how to
    /// leave it out.
    pub fn of_folder(self) -> ParameterRefusal {
        ParameterRefusal {
            is_of_folder: true,
            ..self
        }
    }

    // What is wrong with the value of a key.
    fn write_key<W: fmt::Write>(&self, f: &mut fmt::Formatter<W>, key: Key) -> fmt::Result {
        let Key { name, form } = key;
        if self.fault.number == Fault::MISSING_KEY && self.line.is_none() {
            write!(f, "{name} is missing; it must be {form}")
        } else {
            write!(f, "{name} must be {form}")
        }
    }

    fn write_reason<W: fmt::Write>(&self, f: &mut fmt::Formatter<W>) -> fmt::Result {
        if let Some(name) = self.misplaced_name() {
            return write!(
                f,
                "{name} stands in a table; it must stand before the first one"
            );
        }
        match (self.error, key_of(self.fault.place)) {
            (Some(error), _) => {
                let message = error.message();
                write!(f, "this is no TOML document: {message}")
            }
            (None, Some(key)) => self.write_key(f, key),
            (None, None) => match &self.unknown {
                Some(unknown) => write!(f, "{unknown}"),
                None => write!(f, "a parameter file has no such key"),
            },
        }
    }

    // The unknown key beside the one that is missing, if there is one.
    fn write_unknown<W: fmt::Write>(&self, f: &mut fmt::Formatter<W>) -> fmt::Result {
        match &self.unknown {
            Some(unknown) if self.fault.number == Fault::MISSING_KEY => {
                write!(f, "\nline {}: {unknown}", unknown.line)
            }
            _ => Ok(()),
        }
    }

    // The name of the key that stands in a table, if that is what is wrong.
    fn misplaced_name(&self) -> Option<&'static str> {
        match &self.misplaced {
            Some(key) => key.name(),
            None => None,
        }
    }

    // What else the file seems to be, and how to leave it out.
    fn write_advice<W: fmt::Write>(&self, f: &mut fmt::Formatter<W>) -> fmt::Result {
        if matches!(
            self.kind,
            FileKind::Capture | FileKind::Gzip | FileKind::Pcapng
        ) {
            f.write_str(
                "\nthis looks like a capture, where a parameter file is wanted: CAPTURE stands first, then PARAMS",
            )?;
        }
        if self.is_of_folder && !self.has_keys {
            f.write_str(
                "\nthis doesn't look like a parameter file; to leave it out, name the others in place of the folder, \
                 or move it, or rename it so that its name doesn't end in .toml",
            )?;
        }
        Ok(())
    }
}

impl fmt::Display for ParameterRefusal {
    fn fmt<W: fmt::Write>(&self, f: &mut fmt::Formatter<W>) -> fmt::Result {
        if let Some(line) = self.line {
            write!(f, "line {line}: ")?;
        }
        self.write_reason(f)?;
        let number = self.fault.number;
        let name = self.fault.name();
        write!(f, " ({number} {name})")?;
        self.write_unknown(f)?;
        self.write_advice(f)
    }
}

// That a parameter file is refused by this fault.
fn refused(
    alloc: Global,
    path: &str,
    text: &[u8],
    fault: Fault,
) -> Result<WordsFailure, AllocError> {
    Ok(WordsFailure::Parameters {
        path: String::from_str(alloc, path)?,
        refusal: ParameterRefusal::new(alloc, text, fault)?,
    })
}

// Why there are no parameters.
fn unparsed(alloc: Global, path: &str, text: &[u8], fault: Fault) -> WordsOrMemory {
    if fault.number == Fault::NO_MEMORY {
        return WordsOrMemory::OutOfMemory;
    }
    match refused(alloc, path, text, fault) {
        Ok(failure) => failure.into(),
        Err(error) => error.into(),
    }
}

/// The parameters of a parameter file; `path` is its name in the failure.
pub fn params_in(alloc: Global, path: &str, text: &[u8]) -> Result<Params, WordsOrMemory>
    ensures { IfOk result (λ p. ReadsParameters text.now (Ok p)) }
{
    match params(alloc, text) {
        Ok(params) => Ok(params),
        Err(fault) => Err(unparsed(alloc, path, text, fault)),
    }
}
