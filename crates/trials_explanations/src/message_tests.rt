//! Messages are told in hexadecimal digits and as text, whatever their lengths: by rows, each a byte or a few that a message
//! repeats, so that what is told of it repeats what is told of them.
use crate::cases::explained;
use crate::explain_tests::told;
use rasta_pcap::Counted;
use rasta_pdu::{Body, Kind, Params, PduParts, Side, encode};
use seatmelon_commands::{Extent, Form, Outcome, Selection};
use std::alloc::Global;
use std::process::Abort;
use std::str;
use trials_rows::{FILE_HEADER, bytes_of, channel_of, file_of, push_frame, push_record};

// Bytes, the text that is told of them, and that text in a string of JSON.
const ROWS: &str = r#"5c|\\|\\\\
41|A|A
2041| A| A
7e|~|~
1f|\x1f|\\x1f
7f|\x7f|\\x7f
ff|\xff|\\xff
22|"|\"
5c410a|\\A\x0a|\\\\A\\x0a
80205c5c|\x80 \\\\|\\x80 \\\\\\\\
6162637a002e|abcz\x00.|abcz\\x00.
"#;

// How often messages repeat them: digits are spelled by 16 and 64 bytes, and a room for text has 256, which is written
// once fewer than four are left.
const TIMES: [usize; 22] = [
    0, 1, 15, 16, 17, 42, 50, 51, 63, 64, 65, 84, 126, 127, 128, 252, 253, 254, 255, 256, 257, 600,
];

// The settings of the opening, and of what confirms the data.
const SETTINGS: &str = "data plain";

// What precedes the bytes of each message, after its number.
const PLACES: &str = ": record 4, 1970-01-01 00:00:00.000000 UTC, channel 1
  proof: record 5, 1970-01-01 00:00:00.000000 UTC, channel 1
";

// All messages, whole.
const WHOLE: Extent = Extent {
    messages: Some(Selection::ALL),
    is_whole: true,
};

// A row: bytes in hexadecimal digits, and both texts.
#[derive(Clone, Copy)]
struct Row<'a> {
    hex: &'a str,
    text: &'a str,
    json: &'a str,
}

fn row_in(line: &str) -> Option<Row<'_>> {
    let (hex, texts) = line.split_once('|')?;
    let (text, json) = texts.split_once('|')?;
    Some(Row { hex, text, json })
}

// The messages of a row.
fn messages(alloc: Global, row: Row<'_>) -> Option<Vec<Vec<u8>>> {
    let mut all = Vec::new(alloc);
    for times in TIMES {
        let digits = row.hex.repeat(alloc, times).ok()?;
        all.push(bytes_of(alloc, digits.as_str())?).ok()?;
    }
    Some(all)
}

// The datagram with which the client sends messages.
fn datagram(alloc: Global, params: &Params, all: &[Vec<u8>]) -> Option<Vec<u8>> {
    let mut slices = Vec::new(alloc);
    for bytes in all {
        slices.push(bytes.as_slice()).ok()?;
    }
    let parts = PduParts {
        number: 9,
        reserve: 0,
        kind: Kind::Data,
        sn: 102,
        cs: 500,
        ts: 1020,
        cts: 9000,
        body: Body::Messages(slices.as_slice()),
        check_bytes: b"",
    };
    if !parts.fits(params) {
        return None;
    }
    let mut bytes = Vec::new(alloc);
    encode(params, Side::Client, &parts, &mut bytes).ok()?;
    Some(bytes)
}

// An opening, data with these messages, and what confirms them.
fn capture(alloc: Global, all: &[Vec<u8>]) -> Option<(Params, Vec<u8>)> {
    let (params, mut file) = file_of(alloc, SETTINGS, "0 1 2")?;
    let datagram = datagram(alloc, &params, all)?;
    let mut frame = Vec::new(alloc);
    push_frame(&mut frame, Side::Client, &channel_of("1"), &datagram)?;
    push_record(&mut file, 0, &frame)?;
    let (_, last) = file_of(alloc, SETTINGS, "4")?;
    file.extend_from_slice(last.get(FILE_HEADER.len()..)?).ok()?;
    Some((params, file))
}

// What is written on a capture of these messages, if it is explained.
fn text_of(alloc: Global, all: &[Vec<u8>], form: Form) -> Option<Vec<u8>> {
    let (params, file) = capture(alloc, all)?;
    let given = explained()?.given(alloc)?;
    let mut reader = Counted::new(file.as_slice());
    let (outcome, text) = told(alloc, &given, &params, form, &mut reader)?;
    if outcome == Outcome::Explained {
        Some(text)
    } else {
        None
    }
}

// What a text has after these words.
fn rest_after<'a>(text: &'a [u8], words: &str) -> Option<&'a [u8]> {
    let (_, rest) = str::from_utf8(text).ok()?.split_once(words)?;
    Some(rest.as_bytes())
}

// What is wanted of the messages of a row, in words.
fn wanted(alloc: Global, row: Row<'_>) -> Option<String> {
    let mut lines = String::new(alloc);
    for (number, times) in TIMES.iter().enumerate() {
        let head = format!(in alloc; "client to server {number}{PLACES}").ok()?;
        lines.push_str(head.as_str()).ok()?;
        lines
            .push_str(wanted_of(alloc, row, *times)?.as_str())
            .ok()?;
    }
    Some(lines)
}

// What is wanted of one of them.
fn wanted_of(alloc: Global, row: Row<'_>, times: usize) -> Option<String> {
    if times == 0 {
        return format!(in alloc; "  empty\n").ok();
    }
    let hex = row.hex.repeat(alloc, times).ok()?;
    let text = row.text.repeat(alloc, times).ok()?;
    format!(in alloc; "  hex: {hex}\n  text: {text}\n").ok()
}

// Whether the messages of a row are told so.
fn are_told(alloc: Global, line: &str) -> Option<bool> {
    let row = row_in(line)?;
    let all = messages(alloc, row)?;
    let wanted = wanted(alloc, row)?;
    let text = text_of(alloc, &all, Form::Text(WHOLE))?;
    Some(rest_after(&text, " are of 1970-01-01):\n") == Some(wanted.as_bytes()))
}

#[test]
fn messages_in_words(rt: HostRuntime) {
    for line in ROWS.lines() {
        assert_eq!(rt; are_told(rt.alloc(), line), Some(true), "{line}");
    }
}

// What precedes the first message in JSON.
const WORDS_IN_JSON: &str = r#","surely_taken":22,"sent":22,"not_shown":null,"messages":["#;

// What precedes the digits of each message in JSON, after its number.
const PLACES_IN_JSON: &str =
    r#","surely_taken":true,"data":{"record":4,"time":"1970-01-01 00:00:00.000000 UTC","channel":1},"proof":{"record":5,"time":"1970-01-01 00:00:00.000000 UTC","channel":1},"hex":""#;

const END_IN_JSON: &str =
    r#"]},{"from":"server","to":"client","surely_taken":0,"sent":0,"not_shown":null,"messages":[]}]}"#;

// The JSON that is wanted of the messages of a row.
fn wanted_json(alloc: Global, row: Row<'_>) -> Option<String> {
    let mut json = String::new(alloc);
    for (number, times) in TIMES.iter().enumerate() {
        let comma = if number > 0 { "," } else { "" };
        let hex = row.hex.repeat(alloc, *times).ok()?;
        let text = row.json.repeat(alloc, *times).ok()?;
        let message = format!(in alloc;
            "{comma}{{\"message\":{number}{PLACES_IN_JSON}{hex}\",\"text\":\"{text}\"}}"
        );
        json.push_str(message.ok()?.as_str()).ok()?;
    }
    json.push_str(END_IN_JSON).ok()?;
    json.push_str("\n").ok()?;
    Some(json)
}

// Whether the JSON of the messages of a row is the one that is wanted.
fn are_told_in_json(alloc: Global, line: &str) -> Option<bool> {
    let row = row_in(line)?;
    let all = messages(alloc, row)?;
    let wanted = wanted_json(alloc, row)?;
    let text = text_of(alloc, &all, Form::Json)?;
    Some(rest_after(&text, WORDS_IN_JSON) == Some(wanted.as_bytes()))
}

#[test]
fn messages_in_json(rt: HostRuntime) {
    for line in ROWS.lines() {
        assert_eq!(rt; are_told_in_json(rt.alloc(), line), Some(true), "{line}");
    }
}
