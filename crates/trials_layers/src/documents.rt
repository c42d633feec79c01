//! Parameter files: the edges of their keys, and the order in which they are judged.
//!
//! A row of a table is a line with bars between its parts; a slash stands for the end of a line. The
//! first part is the number and the place of the fault, or `read`.
use crate::parameters::values_of;
use rasta_params::params;
use rasta_pdu::Fault;
use std::alloc::Global;
use std::process::Abort;
use trials_rows::bytes_of;

const WORKED: &str =
    "client_id = 96\nserver_id = 97\ncode_length = 0\ncheck_length = 0\nn_sendmax = 20\nt_max = 1800\nslack = 0\n[[channel]]\nclient = '10.0.0.1:5000'\nserver = '10.0.0.2:5000'\n";

// Whether the text is judged so: by the number and the place of its fault, or `read`.
fn is_judged(alloc: Global, want: &str, text: &[u8]) -> Option<bool> {
    let fault = params(alloc, text).err();
    let Some((number, place)) = want.split_once(' ') else {
        return Some(fault.is_none());
    };
    let number = number.parse().ok()?;
    let place = place.parse().ok()?;
    Some(fault == Some(Fault::at(number, place)))
}

// The parts of a row of three.
fn three(row: &str) -> Option<(&str, &str, &str)> {
    let (want, change) = row.split_once(" | ")?;
    let (old, new) = change.split_once(" |")?;
    Some((want, old, new.trim()))
}

// Rows, each of a verdict, a piece of the worked text, and what stands in its place: under a key and its value, a
// verdict and the value in the other's place, or none where the piece is left out.
macro_rules! values {
    ($($key:literal = $old:literal: $($want:literal $($new:literal)?),+;)+) => {
        concat!($($($want, " | ", $key, " = ", $old, " |", $(" ", $key, " = ", $new,)? "\n"),+),+)
    };
}

const NUMBERS: &str = values!(
    "client_id" = "96":
        "read" "0", "read" "4294967295", "read" "0x60", "read" "1_000", "51 1", "52 1" "-1", "52 1" "4294967296",
        "52 1" "9223372036854775807", "52 1" "true", "52 1" "1.0", "52 1" "'96'", "52 1" "[96]", "52 1" "{}";
    "server_id" = "97":
        "read" "0", "read" "4294967295", "51 2", "52 2" "-1", "52 2" "4294967296", "52 2" "96", "52 2" "nan";
    "code_length" = "0":
        "read" "8", "read" "16", "51 3", "52 3" "-8", "52 3" "4", "52 3" "7", "52 3" "9", "52 3" "17", "52 3" "'8'";
    "check_length" = "0":
        "read" "2", "read" "4", "51 5", "52 5" "-2", "52 5" "1", "52 5" "3", "52 5" "5", "52 5" "8", "52 5" "false";
    "n_sendmax" = "20":
        "read" "1", "read" "65535", "51 6", "52 6" "0", "52 6" "65536", "52 6" "2.0";
    "t_max" = "1800":
        "read" "1", "read" "60000", "51 7", "52 7" "0", "52 7" "60_001", "52 7" "07:32:00";
    "slack" = "0":
        "read" "1000", "51 8", "52 8" "-1", "52 8" "1001", "52 8" "[]", "read" "0/first_record = 1",
        "read" "0/first_record = 4000000000", "52 9" "0/first_record = 0", "52 9" "0/first_record = 4000000001",
        "52 9" "0/first_record = ''", "read" "0/first_record = 3/last_record = 3",
        "read" "0/first_record = 3/last_record = 4000000000", "52 10" "0/first_record = 3/last_record = 2",
        "52 10" "0/last_record = 0", "52 10" "0/last_record = 4000000001", "52 10" "0/last_record = inf",
        "50 0" "=", "50 0" "9223372036854775808", "50 0" "0/slack = 0", "52 12" "0/extra = 0", "52 12" "0/'' = 0",
        "52 12" "0/Slack = 0";
);

// Such rows.
const TEXTS: &str = "\
read | slack = 0 | slack = 0/md4_start = '67452301efcdab8998badcfe10325476'
read | slack = 0 | slack = 0/md4_start = '67452301EFcdAB8998BADCFE10325476'
52 4 | slack = 0 | slack = 0/md4_start = '67452301efcdab8998badcfe1032547'
52 4 | slack = 0 | slack = 0/md4_start = '67452301efcdab8998badcfe103254760'
52 4 | slack = 0 | slack = 0/md4_start = '67452301efcdab8998badcfe1032547g'
52 4 | slack = 0 | slack = 0/md4_start = '67452301efcdab8998badcfe103254 6'
52 4 | slack = 0 | slack = 0/md4_start = ''
52 4 | slack = 0 | slack = 0/md4_start = 0
52 12 | [[channel]] | [extra]/[[channel]]
52 11 | [[channel]] | [channel]
51 11 | [[channel]] | [[channels]]
52 11 | [[channel]] | channel = []/[[a]]
52 11 | [[channel]] | channel = [5]/[[a]]
52 11 | [[channel]] | channel = [{}, 5]/[[a]]
51 11 | [[channel]] | channel = [{}, {}]/[[a]]
52 11 | [[channel]] | channel = [{client = 5}]/[[a]]
52 11 | [[channel]] | channel = [{}, {}, {}, {}, {}]/[[a]]
51 11 | client = | customer =
51 11 | server = | third =
50 0 | server = | client = '10.0.0.3:1'/server =
52 11 | server = | third = 1/server =
52 11 | 10.0.0.2:5000 | 10.0.0.1:5000
read | 10.0.0.2:5000 | 10.0.0.2:65535
52 11 | 10.0.0.2:5000 | 10.0.0.2:0
52 11 | 10.0.0.2:5000 | 10.0.0.2:65536
52 11 | 10.0.0.2:5000 | 10.0.0.256:5000
52 11 | 10.0.0.2:5000 | 10.0.00.2:5000
52 11 | 10.0.0.2:5000 | 10.0.0.2:05000
52 11 | 10.0.0.2:5000 | 10.0.0.2.5:5000
52 11 | 10.0.0.2:5000 | 10.0.0.2
52 11 | 10.0.0.2:5000 | +10.0.0.2:5000
read | [[channel]] | [[channel]]/client = '10.0.0.1:1'/server = '10.0.0.2:1'/[[channel]]
52 11 | [[channel]] | [[channel]]/client = '10.0.0.1:5000'/server = '10.0.0.2:5000'/[[channel]]
52 11 | [[channel]] | [[channel]]/client = '10.0.0.2:5000'/server = '10.0.0.1:5000'/[[channel]]
51 11 | [[channel]] | [[channel]]/client = '10.0.0.2:5000'/[[channel]]
";

// Whether the worked text with a change is judged so.
fn is_changed_so(alloc: Global, row: &str) -> Option<bool> {
    let (want, old, new) = three(row)?;
    let new = new.replace(alloc, "/", "\n").ok()?;
    let text = WORKED.replacen(alloc, old, new.as_str(), 1).ok()?;
    is_judged(alloc, want, text.as_bytes())
}

#[test]
fn each_key_has_its_edges(rt: HostRuntime) {
    for row in NUMBERS.lines().chain(TEXTS.lines()) {
        assert_eq!(rt; is_changed_so(rt.alloc(), row), Some(true), "{row}");
    }
}

const OTHER: &str = "{next_sn = 501, clock = 9000, deadline = 10800}";

// Verdict and one end of the quiet point; the other end is that one, and the slack is 0.
const ENDS: &str = "\
read | {next_sn = 0, clock = 0}
read | {next_sn = 4294967295, clock = 9223372036854775807}
read | {next_sn = 0, clock = 10800, deadline = 10800, handed_ts = 4294967295}
read | {next_sn = 0, clock = 0, deadline = 9223372036854775807}
52 13 | 5
52 13 | []
51 13 | {}
51 13 | {clock = 0}
51 13 | {next_sn = 0}
51 13 | {next_sn = 0, deadline = -1}
51 13 | {next_sn = 0, extra = 0}
52 13 | {next_sn = -1}
52 13 | {next_sn = 4294967296, clock = 0}
52 13 | {next_sn = '0', clock = 0}
52 13 | {next_sn = 0, clock = -1}
52 13 | {next_sn = 0, clock = 0.0}
50 0 | {next_sn = 0, clock = 9223372036854775808}
52 13 | {next_sn = 0, clock = 0, deadline = -1}
52 13 | {next_sn = 0, clock = 0, deadline = true}
52 13 | {next_sn = 0, clock = 0, handed_ts = -1}
52 13 | {next_sn = 0, clock = 0, handed_ts = 4294967296}
52 13 | {next_sn = 0, clock = 0, extra = 0}
52 13 | {next_sn = 0, clock = 10801, deadline = 10800}
";

// Verdict and the whole quiet point.
const QUIETS: &str = "\
52 13 | 5
52 13 | [{}]
51 13 | {}
51 13 | {client = 5}
51 13 | {server = 5}
52 13 | {client = 5, server = 5}
52 13 | {client = 5, server = {}}
51 13 | {client = {}, server = 5}
51 13 | {client = {next_sn = 0, clock = 0, extra = 0}, server = {}}
51 13 | {client = {next_sn = 0, clock = 1, deadline = 0}, server = {}}
51 13 | {extra = 0, client = {}, server = {}}
52 13 | {extra = 0, client = {next_sn = 0, clock = 0}, server = {next_sn = 0, clock = 0}}
";

// Whether the worked text with this quiet point is judged so.
fn is_quiet(alloc: Global, want: &str, quiet: &str) -> Option<bool> {
    let text = format!(in alloc; "quiet = {quiet}\n{WORKED}").ok()?;
    is_judged(alloc, want, text.as_bytes())
}

// The same where the client is the end of a row, and where the server is.
fn is_client(alloc: Global, row: &str) -> Option<bool> {
    let (want, end) = row.split_once(" | ")?;
    let quiet = format!(in alloc; "{{client = {end}, server = {OTHER}}}").ok()?;
    is_quiet(alloc, want, quiet.as_str())
}

fn is_server(alloc: Global, row: &str) -> Option<bool> {
    let (want, end) = row.split_once(" | ")?;
    let quiet = format!(in alloc; "{{client = {OTHER}, server = {end}}}").ok()?;
    is_quiet(alloc, want, quiet.as_str())
}

fn is_whole(alloc: Global, row: &str) -> Option<bool> {
    let (want, quiet) = row.split_once(" | ")?;
    is_quiet(alloc, want, quiet)
}

#[test]
fn quiet_points_are_judged(rt: HostRuntime) {
    for row in ENDS.lines() {
        assert_eq!(rt; is_client(rt.alloc(), row), Some(true), "{row}");
        assert_eq!(rt; is_server(rt.alloc(), row), Some(true), "{row}");
    }
    for row in QUIETS.lines() {
        assert_eq!(rt; is_whole(rt.alloc(), row), Some(true), "{row}");
    }
}

const ALL_WRONG: &str =
    "extra = 1\nquiet = {client = {next_sn = 0, clock = 15, deadline = 9}, server = {next_sn = 0, clock = 0}}\nlast_record = 1\nfirst_record = 0\nslack = 1001\nt_max = 0\nn_sendmax = 0\n#check_length = 2\nmd4_start = 1\ncode_length = 1\nserver_id = 96\nclient_id = -1\n[[channel]]\nserver = '10.0.0.2:1'\nclient = 5\n";

// Verdict, and what is put right then.
const STEPS: &str = "\
52 1 | client_id = -1 | client_id = 96
52 2 | server_id = 96 | server_id = 97
52 3 | code_length = 1 | code_length = 8
52 4 | md4_start = 1 | #
51 5 | #check_length = 2 | check_length = 2
52 6 | n_sendmax = 0 | n_sendmax = 1
52 7 | t_max = 0 | t_max = 1
52 8 | slack = 1001 | slack = 5
52 9 | first_record = 0 | first_record = 2
52 10 | last_record = 1 | last_record = 2
52 11 | client = 5 | client = '10.0.0.1:1'
52 13 | clock = 15 | clock = 14
52 12 | extra = 1 | #
";

// Whether each fault is told that is left when those before it are put right.
fn are_told_in_order(alloc: Global) -> Option<bool> {
    let mut text = String::from_str(alloc, ALL_WRONG).ok()?;
    for row in STEPS.lines() {
        let (want, wrong, right) = three(row)?;
        if !is_judged(alloc, want, text.as_bytes())? {
            return Some(false);
        }
        text = text.replacen(alloc, wrong, right, 1).ok()?;
    }
    is_judged(alloc, "read", text.as_bytes())
}

#[test]
fn faults_come_in_the_order_of_the_keys(rt: HostRuntime) {
    assert_eq!(rt; are_told_in_order(rt.alloc()), Some(true));
}

const WORKED_VALUES: &str =
    "(96, 97) (0, 0) 67452301efcdab8998badcfe10325476 (20, 1800, 0) (1, 4000000000) [Channel { client: Endpoint { address: [10, 0, 0, 1], port: 5000 }, server: Endpoint { address: [10, 0, 0, 2], port: 5000 } }] None";

const OTHER_TEXT: &str =
    "client_id = 1\nserver_id = 2\ncode_length = 16\nmd4_start = '0123456789abcdefABCDEF0000000010'\ncheck_length = 4\nn_sendmax = 3\nt_max = 4\nslack = 5\nfirst_record = 6\nlast_record = 7\nquiet.client = {next_sn = 8, clock = 9}\nquiet.server = {next_sn = 10, clock = 11, deadline = 12, handed_ts = 13}\n[[channel]]\nclient = '10.0.0.1:1'\nserver = '10.0.0.2:2'\n[[channel]]\nserver = '255.0.1.2:65535'\nclient = '0.0.0.0:3'\n";

const OTHER_VALUES: &str =
    "(1, 2) (16, 4) 0123456789abcdefabcdef0000000010 (3, 4, 5) (6, 7) [Channel { client: Endpoint { address: [10, 0, 0, 1], port: 1 }, server: Endpoint { address: [10, 0, 0, 2], port: 2 } }, Channel { client: Endpoint { address: [0, 0, 0, 0], port: 3 }, server: Endpoint { address: [255, 0, 1, 2], port: 65535 } }] Some(Quiet { client: QuietEnd { next_sn: 8, clock: 9, deadline: None, handed_ts: None }, server: QuietEnd { next_sn: 10, clock: 11, deadline: Some(12), handed_ts: Some(13) } })";

// Whether a text has these values.
fn has_values(alloc: Global, text: &str, want: &str) -> Option<bool> {
    let read = params(alloc, text.as_bytes()).ok()?;
    Some(values_of(alloc, &read)?.as_str() == want)
}

#[test]
fn values_are_those_of_the_text(rt: HostRuntime) {
    assert_eq!(rt; has_values(rt.alloc(), WORKED, WORKED_VALUES), Some(true));
    assert_eq!(rt;
        has_values(rt.alloc(), OTHER_TEXT, OTHER_VALUES),
        Some(true)
    );
}

// Verdict, and the bytes of a text: of no bytes, a comment, a byte that begins no character, a text
// with one that ends none, a zero byte, and a key alone.
const BYTES: &str = "\
51 1 |
51 1 | 23206e6f7468696e670d0a
50 0 | ff
50 0 | 636c69656e745f6964203d2022c32822
50 0 | 636c69656e745f6964203d20393600
50 0 | 636c69656e745f6964
";

// Verdict, the front of a text, and what follows 2,000 times.
const LONG: &str = "\
50 0 | a = | [
50 0 | a = | 9
50 0 | a = | {a=
50 0 |  | a.
";

// Whether the bytes of a row are judged so.
fn are_bytes_judged(alloc: Global, row: &str) -> Option<bool> {
    let (want, digits) = row.split_once(" |")?;
    let text = bytes_of(alloc, digits)?;
    is_judged(alloc, want, &text)
}

// Whether a text that goes on as a row says is judged so.
fn is_long_judged(alloc: Global, row: &str) -> Option<bool> {
    let (want, front, piece) = three(row)?;
    let rest = piece.repeat(alloc, 2000).ok()?;
    let text = format!(in alloc; "{front} {rest}").ok()?;
    is_judged(alloc, want, text.as_bytes())
}

#[test]
fn bad_texts_have_faults(rt: HostRuntime) {
    for row in BYTES.lines() {
        assert_eq!(rt; are_bytes_judged(rt.alloc(), row), Some(true), "{row}");
    }
    for row in LONG.lines() {
        assert_eq!(rt; is_long_judged(rt.alloc(), row), Some(true), "{row}");
    }
}
