//! Captures, and the texts that are wanted of them. Each table is one text, which one function names: each of many
//! texts costs a proof more than all of them in one.
pub mod cause_cases;
pub mod file_cases;
pub mod json_cases;
pub mod middle_cases;
pub mod packet_cases;
pub mod rule_cases;
pub mod script_cases;
pub mod step_cases;
pub mod suppose_cases;
pub mod window_cases;

use rasta_pdu::Params;
use std::alloc::Global;
use trials_rows::{change_bytes, file_of, params_of};

/// What stands before each case of a table.
pub const MARK: &str = "== ";

/// A capture of `trials_rows`, the changes of its bytes, the records that are left out, with `suppose=N` where PDUs are to
/// be supposed, the parameters that a word names, a certificate, with `; ` in the place of each line feed, what the case
/// has of its own, and what is wanted.
#[derive(Clone, Copy)]
pub struct Case<'a> {
    pub settings: &'a str,
    pub packets: &'a str,
    pub changes: &'a str,
    pub without: &'a str,
    pub parameters: &'a str,
    pub certificate: &'a str,
    pub name: &'a str,
    pub want: &'a str,
}

/// The case of these lines: `SETTINGS: PACKETS | CHANGES | WITHOUT | PARAMETERS | CERTIFICATE | NAME`, of which the last
/// words may be missing, and what is wanted.
pub fn case_in(lines: &str) -> Option<Case<'_>> {
    let (head, want) = lines.split_once('\n')?;
    let mut words = head.split(" | ");
    let (settings, packets) = words.next()?.split_once(": ")?;
    Some(Case {
        settings,
        packets,
        changes: words.next().unwrap_or(""),
        without: words.next().unwrap_or(""),
        parameters: words.next().unwrap_or("plain"),
        certificate: words.next().unwrap_or(""),
        name: words.next().unwrap_or(packets),
        want,
    })
}

/// What a case gives to an explanation.
#[derive(Drop)]
pub struct Given {
    pub params: Params,
    pub file: Vec<u8>,
    pub without: Vec<u32>,
    pub suppose: Option<u32>,
    certificate: String,
}

impl Given {
    /// The text of the certificate, if there is one.
    pub fn certificate(&self) -> Option<&[u8]> {
        if self.certificate.is_empty() {
            None
        } else {
            Some(self.certificate.as_bytes())
        }
    }
}

fn file_in(alloc: Global, case: &Case<'_>) -> Option<Vec<u8>> {
    let (_, mut file) = file_of(alloc, case.settings, case.packets)?;
    change_bytes(&mut file, case.changes)?;
    Some(file)
}

// How many PDUs may be supposed, in words beside numbers: `suppose=N`.
fn suppose_in(words: &str) -> Option<u32> {
    for word in words.split_whitespace() {
        if let Some(most) = word.strip_prefix("suppose=") {
            return most.parse().ok();
        }
    }
    None
}

fn numbers_in(alloc: Global, words: &str) -> Option<Vec<u32>> {
    let mut numbers = Vec::new(alloc);
    for word in words.split_whitespace() {
        if !word.contains('=') {
            numbers.push(word.parse().ok()?).ok()?;
        }
    }
    Some(numbers)
}

impl Case<'_> {
    /// What the case gives; none where it has no form or memory runs out.
    pub fn given(&self, alloc: Global) -> Option<Given> {
        Some(Given {
            params: params_of(self.parameters)?,
            file: file_in(alloc, self)?,
            without: numbers_in(alloc, self.without)?,
            suppose: suppose_in(self.without),
            certificate: self.certificate.replace(alloc, "; ", "\n").ok()?,
        })
    }
}

const EXPLAINED: &str = r#"
== data plain: 0 1 2 3 4 |  |  | plain |  | Data that are confirmed.
explained: two ends that keep the rules can have sent these 5 packets
client to server: 2 of 2 messages surely taken
server to client: 0 of 0 messages surely taken

What was judged:
  capture: c
    SHA-256: e56454b33ee136b1ec869d81d2ac3181b8675027c9d9a55fbeeda50c6825eb8c
  parameters: p
    SHA-256: 690d7880e356248a4f526b2a78d7367e4412615a8a85f47eafa354a793430538
  certificate: none was given, so one is built
  program: seatmelon 0.1.0, proved with Rattle, logic dac8208d650f15bf
  records read: 5
  packets of the connection: 5
    on channel 1, 10.0.0.1:5000 - 10.0.0.2:5000: from the client 3, from the server 2
    on channel 2, 10.0.1.1:5001 - 10.0.1.2:5001: no packet
  end of the connection: none, it is still open at the end of the capture
  records passed over: 0
  ids: client 96, server 97
  lengths: safety code 0, check code 0
  limits: N_sendmax 20, T_max 1800, slack 0
  quiet point: none
Times of capture, which no verdict reads:
  longest silence of the client: 0.000000 ms, between records 1 and 3
  longest silence of the server: 0.000000 ms, between records 2 and 5

What this says:
  Some run of two ends that keep the rules, over a network that loses, repeats, delays and
  reorders packets, sends exactly these packets past the tap, in this order.
  In every such run the far end handed up each message that is listed as surely taken, once and in
  order, before the packet that is its proof crossed the tap.
What it doesn't say:
  that the ends kept the rules, or which of these runs took place.
  A message that is listed as not shown may have been taken all the same.
What it rests on:
  Whatever an end sent reached the tap, in the order in which it was sent, and the capture has all
  of it, in that order.
  Nobody else sent a packet between the recorded addresses.
  The parameters are right.
  For 'surely taken': both ends kept the rules.
  What is judged begins before the opening of the connection.

Messages (times are UTC; those without a date are of 1970-01-01):
client to server 0: record 4, 1970-01-01 00:00:00.000000 UTC, channel 1
  proof: record 5, 1970-01-01 00:00:00.000000 UTC, channel 1
  hex: ab01
  text: \xab\x01
client to server 1: record 4, 1970-01-01 00:00:00.000000 UTC, channel 1
  proof: record 5, 1970-01-01 00:00:00.000000 UTC, channel 1
  empty
"#;

/// Data that are confirmed, and the whole text on them.
pub fn explained() -> Option<Case<'static>> {
    case_in(EXPLAINED.split_once(MARK)?.1)
}
