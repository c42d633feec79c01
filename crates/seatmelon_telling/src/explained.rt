//! The text on an explained capture.
ghost use Rattle.std.specs.Prelude.{◌≡◌, IfErr};
ghost use Rattle.rasta_pcap.specs.Fault.{write_failed};

use crate::messages::write_messages;
use crate::page::{write_judged, write_records, write_without};
use rasta_pcap::{Fault, Side, Sink};
use rasta_pdu::QuietEnd;
use seatmelon_account::{Account, Direction, Explained, Extent, Start};
use seatmelon_text::{Part, parts, tell, write_parts, write_words};

const SAYS: &str = "
What this says:
  Some run of two ends that keep the rules, over a network that loses, repeats, delays and
  reorders packets, sends exactly these packets past the tap, in this order.
  In every such run the far end handed up each message that is listed as surely taken, once and in
  order, before the packet that is its proof crossed the tap.
What it doesn't say:
  that the ends kept the rules, or which of these runs took place.
  A message that is listed as not shown may have been taken all the same.
What it rests on:
";

const REACHED: &str = "\
Whatever an end sent reached the tap, in the order in which it was sent, and the capture has all
  of it, in that order.";

const NO_STRANGERS: &str = "Nobody else sent a packet between the recorded addresses.";

const NO_VALID_STRANGERS: &str =
    "Nobody else sent a packet with a valid safety code between the recorded addresses.";

const FROM_OPENING: &str = "What is judged begins before the opening of the connection.";

const FROM_LATER_OPENING: &str =
    "What is judged begins before the opening of the connection, and no copy of an earlier packet comes after it.";

/// The premise on who sent the packets.
pub fn strangers(has_code: bool) -> &'static str {
    if has_code {
        NO_VALID_STRANGERS
    } else {
        NO_STRANGERS
    }
}

/// The premises of 'explained', but for what reached the tap and for where what is judged begins. Where there is no safety
/// code, anybody can have sent a packet.
pub fn further_premises(has_code: bool) -> [&'static str; 3] {
    [
        strangers(has_code),
        "The parameters are right.",
        "For 'surely taken': both ends kept the rules.",
    ]
}

/// The premises of 'explained', but for where what is judged begins.
pub fn premises(explained: &Explained<'_>) -> [&'static str; 4] {
    let [strangers, parameters, rules] = further_premises(explained.has_code);
    [REACHED, strangers, parameters, rules]
}

/// The premise on where what is judged begins, but for the end of its sentence.
pub fn start_premise(start: &Start) -> [Part<'static>; 3] {
    match start {
        Start::Opening => parts![FROM_OPENING, "", ""],
        Start::LaterOpening => parts![FROM_LATER_OPENING, "", ""],
        Start::Quiet(record, _) => parts![
            "The quiet point before record ",
            *record,
            " is true, and no copy of an earlier packet comes after it"
        ],
    }
}

// Writes a number that may be missing.
fn write_optional<W: Sink>(writer: &mut W, words: &str, number: Option<u64>) -> Result<(), Fault>
    ensures err { IfErr result (λ f. f ≡ write_failed) }
{
    match number {
        Some(number) => tell!(writer, words, number),
        None => Ok(()),
    }
}

// Writes where an end stands at the quiet point.
fn write_quiet_end<W: Sink>(writer: &mut W, side: Side, end: &QuietEnd) -> Result<(), Fault>
    ensures err { IfErr result (λ f. f ≡ write_failed) }
{
    tell!(
        writer,
        "    ",
        side,
        ": next SN ",
        end.next_sn,
        ", clock ",
        end.clock
    )?;
    write_optional(writer, ", deadline ", end.deadline)?;
    write_optional(writer, ", TS handed up last ", end.handed_ts.map(u64::from))?;
    write_words(writer, "\n")
}

/// Writes a premise as a line.
pub fn write_premise<W: Sink>(writer: &mut W, words: &str) -> Result<(), Fault>
    ensures err { IfErr result (λ f. f ≡ write_failed) }
{
    tell!(writer, "  ", words, "\n")
}

/// Writes where what is judged begins.
pub fn write_start<W: Sink>(writer: &mut W, start: &Start) -> Result<(), Fault>
    ensures err { IfErr result (λ f. f ≡ write_failed) }
{
    write_words(writer, "  ")?;
    write_parts(writer, &start_premise(start))?;
    match start {
        Start::Opening | Start::LaterOpening => write_words(writer, "\n"),
        Start::Quiet(_, quiet) => {
            write_words(writer, ":\n")?;
            write_quiet_end(writer, Side::Client, &quiet.client)?;
            write_quiet_end(writer, Side::Server, &quiet.server)
        }
    }
}

// Writes how many messages of an end were surely taken, and which weren't shown to be.
fn write_taken<W: Sink>(writer: &mut W, direction: &Direction<'_>) -> Result<(), Fault>
    ensures err { IfErr result (λ f. f ≡ write_failed) }
{
    tell!(
        writer,
        direction.sender,
        " to ",
        direction.sender.other(),
        ": ",
        direction.taken,
        " of ",
        direction.messages.len() as u64,
        " messages surely taken"
    )?;
    match direction.not_shown() {
        Some((first, last)) if first == last => { tell!(writer, "; not shown: ", first, "\n") }
        Some((first, last)) => { tell!(writer, "; not shown: ", first, " to ", last, "\n") }
        None => write_words(writer, "\n"),
    }
}

// Writes the verdict in one sentence.
fn write_sentence<W: Sink>(writer: &mut W, account: &Account<'_>, packets: u32) -> Result<(), Fault>
    ensures err { IfErr result (λ f. f ≡ write_failed) }
{
    write_words(writer, "explained")?;
    write_without(writer, account.inputs.without)?;
    tell!(
        writer,
        ": two ends that keep the rules can have sent these ",
        packets,
        " packets"
    )?;
    write_records(writer, account, ", the packets in ")?;
    write_words(writer, "\n")
}

// Writes what the verdict says, and what it rests on.
fn write_meaning<W: Sink>(writer: &mut W, explained: &Explained<'_>) -> Result<(), Fault>
    ensures err { IfErr result (λ f. f ≡ write_failed) }
{
    write_words(writer, SAYS)?;
    for words in premises(explained) {
        write_premise(writer, words)?;
    }
    write_start(writer, &explained.start)
}

/// Writes the text on an explained capture.
pub fn write_explained<W: Sink>(
    writer: &mut W,
    account: &Account<'_>,
    explained: &Explained<'_>,
    extent: &Extent,
) -> Result<(), Fault>
    ensures err { IfErr result (λ f. f ≡ write_failed) }
{
    write_sentence(writer, account, explained.packets)?;
    write_taken(writer, &explained.client)?;
    write_taken(writer, &explained.server)?;
    write_judged(writer, account)?;
    write_meaning(writer, explained)?;
    match extent.messages {
        Some(selection) => write_messages(
            writer,
            account,
            &explained.client,
            &explained.server,
            selection,
            extent.is_whole,
        ),
        None => Ok(()),
    }
}
