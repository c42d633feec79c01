//! The values of a parameter file's keys.
ghost use Rattle.std.specs.Prelude.{◌≡◌, ◌≤◌, IfOk, IfSome, option_map, string_bytes};
ghost use Rattle.std.specs.BTreeMap.{keys};
ghost use Rattle.std.specs.List.{list_all, list_any};
ghost use Rattle.std.specs.Str.{bytes_eq};
ghost use Rattle.toml.specs.Data.{get_member};
ghost use Rattle.toml.specs.View.{table_view, view};
ghost use Rattle.rasta_pdu.specs.Params.{most_clock};
ghost use Rattle.rasta_params.specs.Keys.{are_among, if_any_at, number_of_key, optional_at, or_bad, whole};
ghost use Rattle.rasta_params.specs.Stored.{texts_of};

use rasta_pdu::Fault;
use toml::{Table, Value};

/// The value at a key.
pub fn value_at<'a>(table: &'a Table, key: &str) -> Option<&'a Value>
    ensures { option_map (λ v. view v.now) result ≡ get_member key.now (table_view table.now) }
{
    table.get(key)
}

// The value as a whole number in a range.
fn whole_in(value: &Value, low: u32, high: u32) -> Option<u32>
    ensures { result ≡ whole low high (view value.now) }
{
    let number = value.as_integer()?;
    if number >= i64::from(low) && number <= i64::from(high) {
        Some(number as u32)
    } else {
        None
    }
}

// The value of the key of this place, as a whole number in a range.
fn checked(value: &Value, place: u32, low: u32, high: u32) -> Result<u32, Fault>
    ensures value { result ≡ or_bad place (whole low high (view value.now)) }
    ensures low { IfOk result (λ n. low ≤ n) }
    ensures high { IfOk result (λ n. n ≤ high) }
{
    match whole_in(value, low, high) {
        Some(number) => Ok(number),
        None => Err(Fault::at(Fault::BAD_VALUE, place)),
    }
}

/// The whole number at a key that has to be there. The place is the key's number.
#[tactic(auto, unfolding(crate::specs::Keys::number_of_key))]
pub fn number(table: &Table, place: u32, key: &str, low: u32, high: u32) -> Result<u32, Fault>
    ensures value { result ≡ number_of_key place key.now low high (table_view table.now) }
    ensures low { IfOk result (λ n. low ≤ n) }
    ensures high { IfOk result (λ n. n ≤ high) }
{
    match value_at(table, key) {
        Some(value) => checked(value, place, low, high),
        None => Err(Fault::at(Fault::MISSING_KEY, place)),
    }
}

/// The whole number at a key that may be missing.
#[tactic(auto, unfolding(crate::specs::Keys::optional_at))]
pub fn optional(
    table: &Table,
    place: u32,
    key: &str,
    low: u32,
    high: u32,
    missing: u32,
) -> Result<u32, Fault>
    requires low { low ≤ missing }
    requires high { missing ≤ high }
    ensures value { result ≡ optional_at place key.now low high missing (table_view table.now) }
    ensures low { IfOk result (λ n. low ≤ n) }
    ensures high { IfOk result (λ n. n ≤ high) }
{
    match value_at(table, key) {
        Some(value) => checked(value, place, low, high),
        None => Ok(missing),
    }
}

/// The whole number at a key; none where the key is missing.
#[tactic(auto, unfolding(crate::specs::Keys::if_any_at))]
pub fn number_if_any(
    table: &Table,
    place: u32,
    key: &str,
    low: u32,
    high: u32,
) -> Result<Option<u32>, Fault>
    ensures { result ≡ if_any_at place key.now low high (table_view table.now) }
{
    match value_at(table, key) {
        Some(value) => match whole_in(value, low, high) {
            Some(number) => Ok(Some(number)),
            None => Err(Fault::at(Fault::BAD_VALUE, place)),
        },
        None => Ok(None),
    }
}

// The value as a clock in milliseconds, which is any whole number of the format from 0.
fn clock_in(value: &Value) -> Option<u64>
    ensures value { result ≡ whole 0 most_clock (view value.now) }
    ensures most { IfSome result (λ n. n ≤ most_clock) }
{
    let number = value.as_integer()?;
    if number >= 0 {
        Some(number as u64)
    } else {
        None
    }
}

/// The clock at a key that has to be there.
#[tactic(auto, unfolding(crate::specs::Keys::number_of_key))]
pub fn clock(table: &Table, place: u32, key: &str) -> Result<u64, Fault>
    ensures value { result ≡ number_of_key place key.now 0 most_clock (table_view table.now) }
    ensures most { IfOk result (λ n. n ≤ most_clock) }
{
    match value_at(table, key) {
        Some(value) => match clock_in(value) {
            Some(number) => Ok(number),
            None => Err(Fault::at(Fault::BAD_VALUE, place)),
        },
        None => Err(Fault::at(Fault::MISSING_KEY, place)),
    }
}

/// The clock at a key; none where the key is missing.
#[tactic(auto, unfolding(crate::specs::Keys::if_any_at))]
pub fn clock_if_any(table: &Table, place: u32, key: &str) -> Result<Option<u64>, Fault>
    ensures value { result ≡ if_any_at place key.now 0 most_clock (table_view table.now) }
    ensures most { IfOk result (λ d. IfSome d (λ n. n ≤ most_clock)) }
{
    match value_at(table, key) {
        Some(value) => match clock_in(value) {
            Some(number) => Ok(Some(number)),
            None => Err(Fault::at(Fault::BAD_VALUE, place)),
        },
        None => Ok(None),
    }
}

fn is_among(key: &str, names: &[&str]) -> bool
    ensures { result ≡ list_any (bytes_eq key.now) (texts_of names.now) }
{
    match names {
        [] => false,
        [first, rest @ ..] => key == *first || is_among(key, rest),
    }
}

fn are_all_among(table: &Table, names: &[&str]) -> bool
    ensures { result ≡ list_all (λ k. list_any (bytes_eq (string_bytes k)) (texts_of names.now)) (keys table.now) }
{
    table.keys().all(|key| is_among(key.as_str(), names))
}

/// Whether a table has keys of these names alone.
pub fn has_keys_among(table: &Table, names: &[&str]) -> bool
    ensures { result ≡ are_among (texts_of names.now) (table_view table.now) }
{
    are_all_among(table, names)
}
