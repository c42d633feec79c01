//! The lines of a parameter file on which its keys stand.

use rasta_params::KEYS;

// How many keys a text has at least that seems to be a parameter file: another file may have one by chance.
const FEWEST_KEYS: usize = 2;

/// A key that stands in a table: its place among those that a parameter file has, from 0, and its line, from 1.
#[derive(Clone, Copy, Debug)]
pub struct MisplacedKey {
    pub place: usize,
    pub line: usize,
}

impl MisplacedKey {
    pub fn name(&self) -> Option<&'static str> {
        KEYS.get(self.place).copied()
    }
}

/// The place of a name among the keys that a parameter file has, from 0.
pub fn place_of_key(name: &str) -> Option<usize> {
    KEYS.iter().position(|key| *key == name)
}

// Whether a line begins with a key of this name, or is the header of its table.
fn begins_with_key(line: &str, name: &str) -> bool {
    let line = line.trim_start_matches(&[' ', '\t', '[', '"', '\'']);
    match line.strip_prefix(name) {
        Some(rest) => rest.trim_start().starts_with(&['=', '.', ']', '"', '\'']),
        None => false,
    }
}

fn begins_with_known_key(line: &str) -> bool {
    KEYS.iter().any(|name| begins_with_key(line, name))
}

// Whether a line is the header of a table.
fn is_header(line: &str) -> bool {
    line.trim_start().starts_with('[')
}

// Whether a line begins with a key, outside of tables, that no parameter file has.
fn is_unknown_key(line: &str) -> bool {
    let line = line.trim_start();
    let is_key = line.starts_with(|c: char| c.is_ascii_alphanumeric()
        || c == '_'
        || c == '-'
        || c == '"');
    is_key && line.contains('=') && !begins_with_known_key(line)
}

// Whether a line is the header of a table that no parameter file has.
fn is_unknown_header(line: &str) -> bool {
    is_header(line) && !begins_with_known_key(line)
}

/// The first line, from 1, that begins with the key of this name.
pub fn line_of_key(text: &str, name: &str) -> Option<usize> {
    text.lines()
        .position(|line| begins_with_key(line, name))?
        .checked_add(1)
}

/// Whether a text seems to be a parameter file: lines of it begin with two of the keys at least.
pub fn has_keys(text: &str) -> bool {
    let keys = KEYS.iter().filter(|name| line_of_key(text, name).is_some());
    keys.count() >= FEWEST_KEYS
}

// The place of the key with which a line begins, but for the headers of tables.
fn key_in(line: &str) -> Option<usize> {
    if is_header(line) {
        return None;
    }
    KEYS.iter().position(|name| begins_with_key(line, name))
}

/// The first key that stands in a table, though its place is before the first one.
pub fn misplaced_key_in(text: &str) -> Option<MisplacedKey> {
    let header = text.lines().position(is_header)?;
    for (above, line) in text.lines().enumerate().skip(header) {
        if let Some(place) = key_in(line) {
            return Some(MisplacedKey {
                place,
                line: above.checked_add(1)?,
            });
        }
    }
    None
}

// The name with which a line begins, of a key or of a table.
fn name_in(line: &str) -> &str {
    let line = line.trim_start_matches(&[' ', '\t', '[', '"', '\'']);
    match line.split_once(&['=', '.', ']', '"', '\'', ' ', '\t']) {
        Some((name, _)) => name,
        None => line,
    }
}

// The place, from 0, of the first line with a key, outside of tables, that no parameter file has; else with a table.
fn place_of_unknown(text: &str) -> Option<usize> {
    let key = text
        .lines()
        .take_while(|line| !is_header(line))
        .position(is_unknown_key);
    match key {
        Some(place) => Some(place),
        None => text.lines().position(is_unknown_header),
    }
}

/// The first line, from 1, that begins with a key or a table's name that no parameter file has, and that name.
pub fn unknown_key_in(text: &str) -> Option<(usize, &str)> {
    let place = place_of_unknown(text)?;
    let line = text.lines().nth(place)?;
    Some((place.checked_add(1)?, name_in(line)))
}

/// The line, from 1, of a place in a text.
pub fn line_of_place(text: &[u8], place: usize) -> Option<usize> {
    let before = text.get(..place)?;
    before
        .iter()
        .filter(|&&byte| byte == b'\n')
        .count()
        .checked_add(1)
}
