//! Files that are named where a certificate is wanted, but are none.

use crate::file_kind::{FileKind, kind_of_start};
use crate::key_lines::has_keys;
use crate::words::{WordsFailure, WordsOrMemory};
use std::alloc::Global;
use std::{fmt, str};

/// What a file seems to be in place of a certificate.
#[derive(Clone, Copy, Debug, PartialEq, Eq)]
pub enum Mistaken {
    Parameters,
    Capture,
}

impl fmt::Display for Mistaken {
    fn fmt<W: fmt::Write>(&self, f: &mut fmt::Formatter<W>) -> fmt::Result {
        f.write_str(match self {
            Mistaken::Parameters => {
                "a parameter file, where a certificate is wanted: audit takes several parameter files"
            }
            Mistaken::Capture => "a capture, where a certificate is wanted",
        })
    }
}

// What a text seems to be in place of a certificate, none of which has a line that begins with a key.
fn mistaken_for(text: &[u8]) -> Option<Mistaken> {
    match kind_of_start(text) {
        FileKind::Capture | FileKind::Gzip | FileKind::Pcapng => Some(Mistaken::Capture),
        FileKind::Text | FileKind::Other => match str::from_utf8(text) {
            Ok(text) if has_keys(text) => Some(Mistaken::Parameters),
            _ => None,
        },
    }
}

/// Refuses a parameter file or a capture that stands where a certificate is wanted; `path` is its name in the failure.
/// Whether any other text is a certificate is judged with the capture.
pub fn judge_certificate(alloc: Global, path: &str, text: &[u8]) -> Result<(), WordsOrMemory> {
    let Some(mistaken) = mistaken_for(text) else {
        return Ok(());
    };
    let path = String::from_str(alloc, path)?;
    Err(WordsFailure::NoCertificate { path, mistaken }.into())
}
