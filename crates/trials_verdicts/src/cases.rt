//! Rows of captures, read, and the four commands over them.
use crate::show_tests::{LITTLE, NO_CODES, frame_of, header_of, parameters};
use crate::verdict_rows::{ROWS, UNEXPLAINED};
use rasta_pcap::Counted;
use rasta_pdu::{Fault, Params, Sink, Source};
use rasta_show::run_show;
use rasta_verdict::{run_audit, run_build, run_check};
use std::alloc::Global;
use trials_rows::{push_cut_record, push_record};

/// The rows of verdicts. One function names each table: each of many texts costs a proof more than all in one.
pub fn rows() -> &'static str {
    ROWS
}

/// The rows of captures that nothing explains.
pub fn unexplained() -> &'static str {
    UNEXPLAINED
}

/// The row of verdicts at this place; an empty one, which is no row, if there is none.
pub fn row_at(place: usize) -> &'static str {
    rows().lines().nth(place).unwrap_or("")
}

/// A row, read.
#[derive(Drop)]
pub struct Case {
    pub params: Params,
    pub file: Vec<u8>,
    pub certificate: String,
    pub want: String,
}

/// A command; `check` with the text of a certificate.
#[derive(Clone, Copy)]
pub enum Command<'a> {
    Show,
    Build,
    Check(&'a [u8]),
    Audit,
}

// The digits of a number, lowest byte first.
fn digits_of(alloc: Global, word: Option<&str>) -> Option<String> {
    let number: u32 = word?.parse().ok()?;
    let swapped = u32::from_be_bytes(number.to_le_bytes());
    format!(in alloc; "{swapped:08x}").ok()
}

// The same of a number of two bytes.
fn short_digits(alloc: Global, number: u16) -> Option<String> {
    let swapped = u16::from_be_bytes(number.to_le_bytes());
    format!(in alloc; "{swapped:04x}").ok()
}

// The sender of a packet, and its datagram in digits.
fn sent_of(alloc: Global, packet: &str) -> Option<String> {
    let (side, row) = packet.split_once(' ')?;
    let ids = if side.starts_with("client") {
        "6100000060000000"
    } else {
        "6000000061000000"
    };
    let mut words = row.split(' ');
    let number = digits_of(alloc, words.next())?;
    let kind = short_digits(alloc, words.next()?.parse().ok()?)?;
    let sn = digits_of(alloc, words.next())?;
    let cs = digits_of(alloc, words.next())?;
    let ts = digits_of(alloc, words.next())?;
    let cts = digits_of(alloc, words.next())?;
    let payload = words.next().unwrap_or("");
    let length = u16::try_from(payload.len() / 2).ok()?;
    let whole = short_digits(alloc, length.checked_add(36)?)?;
    let safety = short_digits(alloc, length.checked_add(28)?)?;
    format!(in alloc;
        "{side}:{whole}0000{number}{safety}{kind}{ids}{sn}{cs}{ts}{cts}{payload}"
    ).ok()
}

// The frame of a packet.
fn frame_in(alloc: Global, packet: &str) -> Option<Vec<u8>> {
    if let Some(digits) = packet.strip_prefix("frame:") {
        return hex::decode(alloc, digits).ok();
    }
    if packet.contains(':') {
        frame_of(alloc, "", packet)
    } else {
        frame_of(alloc, "", sent_of(alloc, packet)?.as_str())
    }
}

// Appends the record of a packet, whose original length may be told.
fn add_packet(alloc: Global, file: &mut Vec<u8>, packet: &str) -> Option<()> {
    match packet.strip_prefix("of ") {
        Some(rest) => {
            let (original, packet) = rest.split_once(' ')?;
            push_cut_record(file, 0, &frame_in(alloc, packet)?, original.parse().ok()?)
        }
        None => push_record(file, 0, &frame_in(alloc, packet)?),
    }
}

// The packets of a handshake.
const OPENED: [&str; 3] = [
    "client 7 6200 100 0 1000 0 3033303314000000000000000000",
    "server 40 6201 500 100 9000 1000 3033303314000000000000000000",
    "client 8 6220 101 500 1010 9000",
];

// A file of these packets, with the magic number that they name first.
fn capture_of(alloc: Global, packets: &str) -> Option<Vec<u8>> {
    let (magic, packets) = match packets.strip_prefix("magic:") {
        Some(rest) => rest.split_once('/')?,
        None => (LITTLE, packets),
    };
    let mut file = header_of(alloc, magic)?;
    for packet in packets.split('/') {
        match packet {
            "opened" => {
                for packet in OPENED {
                    add_packet(alloc, &mut file, packet)?;
                }
            }
            "-" => {}
            "cut" => {
                let _ = file.pop()?;
            }
            _ => add_packet(alloc, &mut file, packet)?,
        }
    }
    Some(file)
}

/// The lines that a part of a row stands for.
pub fn lines_of(alloc: Global, part: &str) -> Option<String> {
    if part == "-" {
        return String::from_str(alloc, "").ok();
    }
    let text = format!(in alloc; "{part}/").ok()?;
    text.replace(alloc, "/", "\n").ok()
}

// The parameters with these further keys; no codes if none of these keys is about them.
fn params_of(alloc: Global, keys: &str) -> Option<Params> {
    match keys {
        "-" => parameters(alloc, NO_CODES),
        _ if keys.contains("check_length") => parameters(alloc, keys),
        _ => parameters(alloc, format!(in alloc; "{NO_CODES}/{keys}").ok()?.as_str()),
    }
}

// A row but for its name, as texts.
#[derive(Clone, Copy)]
struct Parts<'a> {
    keys: &'a str,
    packets: &'a str,
    certificate: &'a str,
    want: &'a str,
}

fn parts_of(row: &str) -> Option<Parts<'_>> {
    let mut parts = row.split(" | ");
    let _name = parts.next()?;
    Some(Parts {
        keys: parts.next()?,
        packets: parts.next()?,
        certificate: parts.next()?,
        want: parts.next()?,
    })
}

/// Reads a row: its name, further keys of the parameters, packets, a certificate, and a text.
pub fn case_of(alloc: Global, row: &str) -> Option<Case> {
    let parts = parts_of(row)?;
    Some(Case {
        params: params_of(alloc, parts.keys)?,
        file: capture_of(alloc, parts.packets)?,
        certificate: lines_of(alloc, parts.certificate)?,
        want: lines_of(alloc, parts.want)?,
    })
}

/// The four commands over a case, with its certificate for a check.
pub fn commands_of(case: &Case) -> [Command<'_>; 4] {
    [
        Command::Show,
        Command::Build,
        Command::Check(case.certificate.as_bytes()),
        Command::Audit,
    ]
}

/// What a command answers.
pub fn run<R: Source, W: Sink>(
    alloc: Global,
    command: Command<'_>,
    params: &Params,
    reader: &mut R,
    writer: &mut W,
) -> Result<u8, Fault> {
    match command {
        Command::Show => run_show(alloc, params, reader, writer),
        Command::Build => run_build(alloc, params, reader, writer),
        Command::Check(certificate) => run_check(alloc, params, reader, certificate, writer),
        Command::Audit => run_audit(alloc, params, reader, writer),
    }
}

/// What a command answers over a reader, and what it writes.
pub fn outcome_of<R: Source>(
    alloc: Global,
    command: Command<'_>,
    params: &Params,
    reader: &mut R,
) -> (Result<u8, Fault>, Vec<u8>) {
    let mut writer = Counted::new(Vec::new(alloc));
    let outcome = run(alloc, command, params, reader, &mut writer);
    (outcome, writer.into_inner())
}

// The text of a command and its status, where a first call that ended by a fault had written this: a beginning of
// the text, and nothing unless it was the writer that wanted memory.
fn told_again(
    alloc: Global,
    command: Command<'_>,
    params: &Params,
    file: &[u8],
    (fault, begun): (Fault, &[u8]),
) -> Option<(Vec<u8>, u8)> {
    let (outcome, text) = outcome_of(alloc, command, params, &mut Counted::new(file));
    let may_begin = begun.is_empty() || fault.number == Fault::WRITE_FAILED;
    if may_begin && text.starts_with(begun) {
        Some((text, outcome.ok()?))
    } else {
        None
    }
}

/// The text of a command and its status. Where memory ran out, the call is made again.
pub fn told(
    alloc: Global,
    command: Command<'_>,
    params: &Params,
    file: &[u8],
) -> Option<(Vec<u8>, u8)> {
    let (outcome, text) = outcome_of(alloc, command, params, &mut Counted::new(file));
    match outcome {
        Ok(status) => Some((text, status)),
        Err(fault) => told_again(alloc, command, params, file, (fault, text.as_slice())),
    }
}

/// Whether the command writes this text, with the status that it calls for.
pub fn tells(
    alloc: Global,
    command: Command<'_>,
    params: &Params,
    file: &[u8],
    want: &str,
) -> Option<bool> {
    let (text, status) = told(alloc, command, params, file)?;
    let due = u8::from(want.starts_with("refused"));
    Some(text.as_slice() == want.as_bytes() && status == due)
}
