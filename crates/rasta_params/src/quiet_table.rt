//! The quiet point of a parameter file.
ghost use Rattle.std.specs.Prelude.{◌≡◌, ◌≤◌, IfOk, IfSome, IsTrue};
ghost use Rattle.toml.specs.Data.{as_table};
ghost use Rattle.toml.specs.View.{table_view, view};
ghost use Rattle.rasta_pdu.specs.Params.{IsQuiet, most_clock};
ghost use Rattle.rasta_params.specs.Keys.{HasClocks, are_in_time, ends_of, has_keys_among, have_quiet_keys, is_in_time, quiet_at, quiet_end_in, quiet_end_of, quiet_in, quiet_keys, quiet_of_table};

use crate::key_values::{clock, clock_if_any, has_keys_among, number, number_if_any, value_at};
use rasta_pdu::{Fault, Quiet, QuietEnd};
use toml::{Table, Value};

#[tactic(auto, unfolding(crate::specs::Keys::quiet_end_in))]
fn read_end(table: &Table) -> Result<QuietEnd, Fault>
    ensures value { result ≡ quiet_end_in (table_view table.now) }
    ensures clocks { IfOk result HasClocks }
{
    let next_sn = number(table, 13, "next_sn", 0, 4294967295)?;
    let clock = clock(table, 13, "clock")?;
    let deadline = clock_if_any(table, 13, "deadline")?;
    let handed_ts = number_if_any(table, 13, "handed_ts", 0, 4294967295)?;
    Ok(QuietEnd {
        next_sn,
        clock,
        deadline,
        handed_ts,
    })
}

// The end of a value, which has to be a table.
fn end_in_value(value: &Value) -> Result<QuietEnd, Fault>
    ensures value { result ≡ quiet_end_of (view value.now) }
    ensures clocks { IfOk result HasClocks }
{
    match value.as_table() {
        Some(table) => read_end(table),
        None => Err(Fault::at(Fault::BAD_VALUE, 13)),
    }
}

const END_KEYS: [&str; 4] = ["next_sn", "clock", "deadline", "handed_ts"];

// Whether a value that is a table has an end's keys alone.
fn has_end_keys(value: &Value) -> bool
    ensures { result ≡ has_keys_among quiet_keys (as_table (view value.now)) }
{
    match value.as_table() {
        Some(table) => has_keys_among(table, &END_KEYS),
        None => true,
    }
}

// Whether the clock hasn't passed the deadline by more than the slack.
fn is_in_time(slack: u32, clock: u64, deadline: Option<u64>) -> bool
    requires small { slack ≤ 1000 }
    requires most { IfSome deadline (λ d. d ≤ most_clock) }
    ensures { result ≡ is_in_time slack clock deadline }
{
    match deadline {
        Some(deadline) => clock <= deadline + u64::from(slack),
        None => true,
    }
}

#[tactic(auto, unfolding(crate::specs::Keys::ends_of))]
fn read_ends(of_client: &Value, of_server: &Value) -> Result<Quiet, Fault>
    ensures value { result ≡ ends_of (view of_client.now) (view of_server.now) }
    ensures clocks { IfOk result (λ q. HasClocks q.client × HasClocks q.server) }
{
    let client = end_in_value(of_client)?;
    let server = end_in_value(of_server)?;
    Ok(Quiet { client, server })
}

// Whether the quiet point has the keys of both ends alone, and each end its own.
fn have_quiet_keys(table: &Table, of_client: &Value, of_server: &Value) -> bool
    ensures { result ≡ have_quiet_keys (table_view table.now) (view of_client.now) (view of_server.now) }
{
    has_keys_among(table, &["client", "server"])
        && has_end_keys(of_client)
        && has_end_keys(of_server)
}

fn are_in_time(slack: u32, quiet: Quiet) -> bool
    requires small { slack ≤ 1000 }
    requires clocks { HasClocks quiet.client × HasClocks quiet.server }
    ensures value { result ≡ are_in_time slack quiet }
    ensures valid { IsTrue result → IsQuiet slack quiet }
{
    is_in_time(slack, quiet.client.clock, quiet.client.deadline)
        && is_in_time(slack, quiet.server.clock, quiet.server.deadline)
}

#[tactic(auto, unfolding(crate::specs::Keys::quiet_in))]
fn read_quiet(table: &Table, slack: u32) -> Result<Quiet, Fault>
    requires { slack ≤ 1000 }
    ensures value { result ≡ quiet_in slack (table_view table.now) }
    ensures valid { IfOk result (IsQuiet slack) }
{
    let Some(of_client) = value_at(table, "client") else {
        return Err(Fault::at(Fault::MISSING_KEY, 13));
    };
    let Some(of_server) = value_at(table, "server") else {
        return Err(Fault::at(Fault::MISSING_KEY, 13));
    };
    let quiet = read_ends(of_client, of_server)?;
    if have_quiet_keys(table, of_client, of_server) && are_in_time(slack, quiet) {
        Ok(quiet)
    } else {
        Err(Fault::at(Fault::BAD_VALUE, 13))
    }
}

fn quiet_in_value(value: &Value, slack: u32) -> Result<Quiet, Fault>
    requires { slack ≤ 1000 }
    ensures value { result ≡ quiet_of_table slack (as_table (view value.now)) }
    ensures valid { IfOk result (IsQuiet slack) }
{
    match value.as_table() {
        Some(table) => read_quiet(table, slack),
        None => Err(Fault::at(Fault::BAD_VALUE, 13)),
    }
}

/// The quiet point of a document, where it has one. The slack is in milliseconds.
#[tactic(auto, unfolding(crate::specs::Keys::quiet_at))]
pub fn quiet_of(table: &Table, slack: u32) -> Result<Option<Quiet>, Fault>
    requires { slack ≤ 1000 }
    ensures value { result ≡ quiet_at slack (table_view table.now) }
    ensures valid { IfOk result (λ q. IfSome q (IsQuiet slack)) }
{
    match value_at(table, "quiet") {
        Some(value) => match quiet_in_value(value, slack) {
            Ok(quiet) => Ok(Some(quiet)),
            Err(fault) => Err(fault),
        },
        None => Ok(None),
    }
}
