//! Keys that no parameter file has, and those that they may stand for.
use crate::key_lines::unknown_key_in;
use rasta_params::KEYS;
use std::alloc::{AllocError, Global};
use std::fmt;
use strsim::levenshtein;

// By how many changed, missing or added letters a name may differ from the one that is meant.
const MOST_EDITS: usize = 2;

// Words that are used for a key: in each line the key, and behind it the words.
const WORDS: &str = "\
client_id id_client client_rasta_id
server_id id_server server_rasta_id
code_length safety_code_length safety_code md4_length
md4_start start_words start_word start_values start_value initial_values initial_value md4_iv md4_init iv
check_length check_code_length check_code crc_length crc
n_sendmax send_max
t_max timeout t_max_ms
slack tolerance margin
first_record start_record from_record first
last_record end_record to_record last
channel transport_channel connection endpoints
quiet quiet_point
";

/// A key that no parameter file has.
#[derive(Debug, Drop)]
pub struct UnknownKey {
    /// Its line, from 1.
    pub line: usize,

    name: String,

    // The key that it may stand for.
    meant: Option<String>,
}

// The key for which a name is a word that is used.
fn key_by_word(name: &str) -> Option<&'static str> {
    for line in WORDS.lines() {
        let (key, words) = line.split_once(' ')?;
        if words.split(' ').any(|word| word == name) {
            return Some(key);
        }
    }
    None
}

// The key that a name may stand for.
fn meant_by(alloc: Global, name: &str) -> Result<Option<String>, AllocError> {
    if let Some(key) = key_by_word(name) {
        return Ok(Some(String::from_str(alloc, key)?));
    }
    for key in KEYS {
        if levenshtein(alloc, name, key)? <= MOST_EDITS {
            return Ok(Some(String::from_str(alloc, key)?));
        }
    }
    Ok(None)
}

/// The first key of a text that no parameter file has, if there is one.
pub fn unknown_key(alloc: Global, text: &str) -> Result<Option<UnknownKey>, AllocError> {
    let Some((line, name)) = unknown_key_in(text) else {
        return Ok(None);
    };
    Ok(Some(UnknownKey {
        line,
        name: String::from_str(alloc, name)?,
        meant: meant_by(alloc, name)?,
    }))
}

impl fmt::Display for UnknownKey {
    fn fmt<W: fmt::Write>(&self, f: &mut fmt::Formatter<W>) -> fmt::Result {
        write!(f, "a parameter file has no key {}", self.name)?;
        match &self.meant {
            Some(key) => write!(f, "; did you mean {key}?"),
            None => Ok(()),
        }
    }
}
