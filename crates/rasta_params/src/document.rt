//! The parameters of a parameter file.
ghost use Rattle.std.specs.Prelude.{◌≡◌, ◌≢◌, ◌≤◌, ◌⊎◌, length, IfOk, MatchResult, Ok, Err, Some, codes, option_map, is_some, nat_le, ◌&&◌, true, IfSome};
ghost use Rattle.rasta_pcap.specs.Fault.{no_memory};
ghost use Rattle.rasta_pdu.specs.Params.{AreChannels, AreLengths, AreLimits, IsQuiet, IsWindow, are_distinct, has_ports, routes};
ghost use Rattle.std.specs.List.{list_all};
ghost use Rattle.toml.specs.Data.{as_array, as_integer, as_table};
ghost use Rattle.toml.specs.View.{items_view, table_view, view};
ghost use Rattle.rasta_params.specs.Keys.{ReadsParameters, are_among, are_few_tables, channel_in, channel_of, channels_at, channels_in, check_length, check_length_at, code_length, code_length_at, endpoint_at, few_tables, ids_of, known_keys, known_of, code_settings_of, limits_of, md4_start_at, number_of_key, parameters_of, parameters_with, window_of};

use crate::endpoint::endpoint_in;
use crate::key_values::{has_keys_among, number, optional, value_at};
use crate::quiet_table::quiet_of;
use crate::start_words::start_words_in;
use rasta_md4::START_WORDS;
use rasta_pcap::MAX_RECORDS;
use rasta_pdu::{Channel, Endpoint, Fault, Params, Quiet, are_distinct_routes};
use std::alloc::Global;
use toml::{Table, Value};

/// The ids of the two ends.
#[derive(Clone, Copy)]
pub struct Ids {
    pub client_id: u32,
    pub server_id: u32,
}

/// What is recorded of codes: the lengths of safety code and check code, in bytes, and the start words of
/// the digest that safety codes are taken from.
#[derive(Clone, Copy)]
pub struct CodeSettings {
    pub code_length: u8,
    pub md4_start: [u32; 4],
    pub check_length: u8,
}

/// The limits of the protocol: a number of PDUs, and milliseconds.
#[derive(Clone, Copy)]
pub struct Limits {
    pub n_sendmax: u32,
    pub t_max: u32,
    pub slack: u32,
}

/// The window of records, from 1.
#[derive(Clone, Copy)]
pub struct Window {
    pub first_record: u32,
    pub last_record: u32,
}

#[tactic(auto, unfolding(crate::specs::Keys::ids_of))]
fn read_ids(table: &Table) -> Result<Ids, Fault>
    ensures value { result ≡ ids_of (table_view table.now) }
    ensures distinct { IfOk result (λ i. i.client_id ≢ i.server_id) }
{
    let client_id = number(table, 1, "client_id", 0, 4294967295)?;
    let server_id = number(table, 2, "server_id", 0, 4294967295)?;
    if client_id == server_id {
        return Err(Fault::at(Fault::BAD_VALUE, 2));
    }
    Ok(Ids {
        client_id,
        server_id,
    })
}

fn code_length_in(value: &Value) -> Option<u8>
    ensures value { result ≡ code_length (as_integer (view value.now)) }
    ensures valid { IfSome result (λ n. (n ≡ 0) ⊎ (n ≡ 8) ⊎ (n ≡ 16)) }
{
    match value.as_integer() {
        Some(0) => Some(0),
        Some(8) => Some(8),
        Some(16) => Some(16),
        _ => None,
    }
}

fn check_length_in(value: &Value) -> Option<u8>
    ensures value { result ≡ check_length (as_integer (view value.now)) }
    ensures valid { IfSome result (λ n. (n ≡ 0) ⊎ (n ≡ 2) ⊎ (n ≡ 4)) }
{
    match value.as_integer() {
        Some(0) => Some(0),
        Some(2) => Some(2),
        Some(4) => Some(4),
        _ => None,
    }
}

#[tactic(auto, unfolding(crate::specs::Keys::code_length_at))]
fn read_code_length(table: &Table) -> Result<u8, Fault>
    ensures value { result ≡ code_length_at (table_view table.now) }
    ensures valid { IfOk result (λ n. (n ≡ 0) ⊎ (n ≡ 8) ⊎ (n ≡ 16)) }
{
    match value_at(table, "code_length") {
        Some(value) => match code_length_in(value) {
            Some(length) => Ok(length),
            None => Err(Fault::at(Fault::BAD_VALUE, 3)),
        },
        None => Err(Fault::at(Fault::MISSING_KEY, 3)),
    }
}

#[tactic(auto, unfolding(crate::specs::Keys::check_length_at))]
fn read_check_length(table: &Table) -> Result<u8, Fault>
    ensures value { result ≡ check_length_at (table_view table.now) }
    ensures valid { IfOk result (λ n. (n ≡ 0) ⊎ (n ≡ 2) ⊎ (n ≡ 4)) }
{
    match value_at(table, "check_length") {
        Some(value) => match check_length_in(value) {
            Some(length) => Ok(length),
            None => Err(Fault::at(Fault::BAD_VALUE, 5)),
        },
        None => Err(Fault::at(Fault::MISSING_KEY, 5)),
    }
}

#[tactic(auto, unfolding(crate::specs::Keys::md4_start_at))]
fn read_md4_start(table: &Table) -> Result<[u32; 4], Fault>
    ensures { result ≡ md4_start_at (table_view table.now) }
{
    match value_at(table, "md4_start") {
        Some(value) => match value.as_str() {
            Some(text) => start_words_in(text).ok_or(Fault::at(Fault::BAD_VALUE, 4)),
            None => Err(Fault::at(Fault::BAD_VALUE, 4)),
        },
        None => Ok(START_WORDS),
    }
}

#[tactic(auto, unfolding(crate::specs::Keys::code_settings_of))]
fn read_code_settings(table: &Table) -> Result<CodeSettings, Fault>
    ensures value { result ≡ code_settings_of (table_view table.now) }
    ensures valid { IfOk result (λ l. AreLengths l.code_length l.check_length) }
{
    let code_length = read_code_length(table)?;
    let md4_start = read_md4_start(table)?;
    let check_length = read_check_length(table)?;
    Ok(CodeSettings {
        code_length,
        md4_start,
        check_length,
    })
}

fn read_n_sendmax(table: &Table) -> Result<u32, Fault>
    ensures value { result ≡ number_of_key 6 (codes "n_sendmax") 1 65535 (table_view table.now) }
    ensures range { IfOk result (λ n. (1 ≤ n) × (n ≤ 65535)) }
{
    number(table, 6, "n_sendmax", 1, 65535)
}

fn read_t_max(table: &Table) -> Result<u32, Fault>
    ensures value { result ≡ number_of_key 7 (codes "t_max") 1 60000 (table_view table.now) }
    ensures range { IfOk result (λ n. (1 ≤ n) × (n ≤ 60000)) }
{
    number(table, 7, "t_max", 1, 60000)
}

fn read_slack(table: &Table) -> Result<u32, Fault>
    ensures value { result ≡ number_of_key 8 (codes "slack") 0 1000 (table_view table.now) }
    ensures range { IfOk result (λ n. n ≤ 1000) }
{
    number(table, 8, "slack", 0, 1000)
}

#[tactic(auto, unfolding(crate::specs::Keys::limits_of))]
fn read_limits(table: &Table) -> Result<Limits, Fault>
    ensures value { result ≡ limits_of (table_view table.now) }
    ensures most { IfOk result (λ l. l.n_sendmax ≤ 65535) }
    ensures valid { IfOk result (λ l. AreLimits l.n_sendmax l.t_max l.slack) }
{
    let n_sendmax = read_n_sendmax(table)?;
    let t_max = read_t_max(table)?;
    let slack = read_slack(table)?;
    Ok(Limits {
        n_sendmax,
        t_max,
        slack,
    })
}

#[tactic(auto, unfolding(crate::specs::Keys::window_of))]
fn read_window(table: &Table) -> Result<Window, Fault>
    ensures value { result ≡ window_of (table_view table.now) }
    ensures valid { IfOk result (λ w. IsWindow w.first_record w.last_record) }
{
    let first_record = optional(table, 9, "first_record", 1, MAX_RECORDS, 1)?;
    let last_record = optional(
        table,
        10,
        "last_record",
        first_record,
        MAX_RECORDS,
        MAX_RECORDS,
    )?;
    Ok(Window {
        first_record,
        last_record,
    })
}

// The endpoint at a key of a channel.
#[tactic(auto, unfolding(crate::specs::Keys::endpoint_at))]
fn read_endpoint(table: &Table, key: &str) -> Result<Endpoint, Fault>
    ensures value { result ≡ endpoint_at key.now (table_view table.now) }
    ensures port { IfOk result (λ e. 1 ≤ e.port) }
{
    match value_at(table, key) {
        Some(value) => match value.as_str() {
            Some(text) => endpoint_in(text).ok_or(Fault::at(Fault::BAD_VALUE, 11)),
            None => Err(Fault::at(Fault::BAD_VALUE, 11)),
        },
        None => Err(Fault::at(Fault::MISSING_KEY, 11)),
    }
}

#[tactic(auto, unfolding(crate::specs::Keys::channel_in))]
fn read_channel(table: &Table) -> Result<Channel, Fault>
    ensures value { result ≡ channel_in (table_view table.now) }
    ensures ports { IfOk result (λ c. has_ports c ≡ true) }
{
    let client = read_endpoint(table, "client")?;
    let server = read_endpoint(table, "server")?;
    if !has_keys_among(table, &["client", "server"]) {
        return Err(Fault::at(Fault::BAD_VALUE, 11));
    }
    Ok(Channel { client, server })
}

// The channel of a value, which has to be a table.
fn channel_in_value(value: &Value) -> Result<Channel, Fault>
    ensures value { result ≡ channel_of (view value.now) }
    ensures ports { IfOk result (λ c. has_ports c ≡ true) }
{
    match value.as_table() {
        Some(table) => read_channel(table),
        None => Err(Fault::at(Fault::BAD_VALUE, 11)),
    }
}

fn read_channels(alloc: Global, values: &[Value]) -> Result<Vec<Channel>, Fault>
    ensures value { MatchResult result (λ channels. channels_in (items_view values.now) ≡ Ok channels.items)
        (λ f. (f ≡ no_memory) ⊎ (channels_in (items_view values.now) ≡ Err f)) }
    ensures count { IfOk result (λ channels. length channels.items ≡ length values.now) }
    ensures ports { IfOk result (λ channels. list_all has_ports channels.items ≡ true) }
{
    let mut channels = Vec::new(alloc);
    for value in values {
        match channel_in_value(value) {
            Ok(channel) => {
                if channels.push(channel).is_err() {
                    return Err(Fault::no_memory());
                }
            }
            Err(fault) => return Err(fault),
        }
    }
    Ok(channels)
}

fn are_all_tables(values: &[Value]) -> bool
    ensures { result ≡ list_all (λ v. is_some (as_table (view v))) values.now }
{
    values.iter().all(|value| value.is_table())
}

fn are_few(values: &[Value]) -> bool
    ensures { result ≡ (nat_le 1 (length values.now) && nat_le (length values.now) 4) }
{
    (1..=4).contains(&values.len())
}

// Whether the values are one to four tables.
fn are_few_tables(values: &[Value]) -> bool
    ensures value { result ≡ are_few_tables (items_view values.now) }
    ensures few { result ≡ true → (1 ≤ length values.now) × (length values.now ≤ 4) }
{
    are_few(values) && are_all_tables(values)
}

// The values of the key of the channels, which have to be one to four tables.
fn few_values(value: &Value) -> Option<&[Value]>
    ensures value { option_map (λ v. items_view v.now) result ≡ few_tables (as_array (view value.now)) }
    ensures few { IfSome result (λ v. (1 ≤ length v.now) × (length v.now ≤ 4)) }
{
    let values = value.as_array()?.as_slice();
    if are_few_tables(values) {
        Some(values)
    } else {
        None
    }
}

#[tactic(auto, unfolding(crate::specs::Keys::channels_at))]
fn channels_of(alloc: Global, table: &Table) -> Result<Vec<Channel>, Fault>
    ensures value { MatchResult result (λ channels. channels_at (table_view table.now) ≡ Ok channels.items)
        (λ f. (f ≡ no_memory) ⊎ (channels_at (table_view table.now) ≡ Err f)) }
    ensures valid { IfOk result (λ channels. AreChannels channels.items) }
{
    let Some(value) = value_at(table, "channel") else {
        return Err(Fault::at(Fault::MISSING_KEY, 11));
    };
    let Some(values) = few_values(value) else {
        return Err(Fault::at(Fault::BAD_VALUE, 11));
    };
    let channels = read_channels(alloc, values)?;
    if !are_distinct_routes(&channels) {
        return Err(Fault::at(Fault::BAD_VALUE, 11));
    }
    Ok(channels)
}

/// The keys of a parameter file that stand outside of every table of it, in the order of their numbers.
pub const KEYS: [&str; 12] = [
    "client_id",
    "server_id",
    "code_length",
    "md4_start",
    "check_length",
    "n_sendmax",
    "t_max",
    "slack",
    "first_record",
    "last_record",
    "channel",
    "quiet",
];

fn has_known_keys(table: &Table) -> bool
    ensures { result ≡ are_among known_keys (table_view table.now) }
{
    has_keys_among(table, &KEYS)
}

// The parameters of these values, which are all in their ranges.
fn assembled(
    ids: Ids,
    settings: CodeSettings,
    limits: Limits,
    window: Window,
    channels: &[Channel],
    quiet: Option<Quiet>,
) -> Option<Params>
    requires distinct { ids.client_id ≢ ids.server_id }
    requires lengths { AreLengths settings.code_length settings.check_length }
    requires most { limits.n_sendmax ≤ 65535 }
    requires limits { AreLimits limits.n_sendmax limits.t_max limits.slack }
    requires window { IsWindow window.first_record window.last_record }
    requires channels { AreChannels channels.now }
    requires quiet { IfSome quiet (IsQuiet limits.slack) }
    ensures { result ≡ Some (parameters_with ids settings limits window channels.now quiet) }
{
    Params::new(
        ids.client_id,
        ids.server_id,
        settings.code_length,
        settings.md4_start,
        settings.check_length,
        limits.n_sendmax as u16,
        limits.t_max as u16,
        limits.slack as u16,
        window.first_record,
        window.last_record,
        channels,
        quiet,
    )
}

#[tactic(auto, unfolding(crate::specs::Keys::known_of))]
fn read_known_keys(alloc: Global, table: &Table) -> Result<Params, Fault>
    ensures { (result ≡ Err no_memory) ⊎ (result ≡ known_of (table_view table.now)) }
{
    let ids = read_ids(table)?;
    let settings = read_code_settings(table)?;
    let limits = read_limits(table)?;
    let window = read_window(table)?;
    let channels = channels_of(alloc, table)?;
    let quiet = quiet_of(table, limits.slack)?;
    assembled(ids, settings, limits, window, &channels, quiet).ok_or(Fault::at(
        Fault::BAD_VALUE,
        11,
    ))
}

#[tactic(auto, unfolding(crate::specs::Keys::parameters_of))]
fn read_parameters(alloc: Global, table: &Table) -> Result<Params, Fault>
    ensures { (result ≡ Err no_memory) ⊎ (result ≡ parameters_of (table_view table.now)) }
{
    let parameters = read_known_keys(alloc, table)?;
    if has_known_keys(table) {
        Ok(parameters)
    } else {
        Err(Fault::at(Fault::BAD_VALUE, 12))
    }
}

/// The parameters of a parameter file: a TOML document, whose keys are read in the order of their
/// numbers, the quiet point last, and then keys of other names.
///
/// Refused by [`Fault::TOML`] at place 0, by [`Fault::MISSING_KEY`] and [`Fault::BAD_VALUE`] at the
/// key's number, and by [`Fault::NO_MEMORY`].
pub fn params(alloc: Global, text: &[u8]) -> Result<Params, Fault>
    ensures { ReadsParameters text.now result }
{
    match toml::table_from_slice(alloc, text) {
        Ok(table) => read_parameters(alloc, &table),
        Err(error) if error.is_memory() => Err(Fault::no_memory()),
        Err(_) => Err(Fault::at(Fault::TOML, 0)),
    }
}
