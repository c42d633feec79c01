//! What is told of an explained capture, as JSON.
ghost use Rattle.std.specs.Prelude.{◌≡◌, IfErr};
ghost use Rattle.rasta_pcap.specs.Fault.{write_failed};

use crate::explained::{premises, start_premise};
use crate::json_places::{put_place, write_long_if, write_number_if};
use rasta_pcap::{Fault, Side, Sink};
use rasta_pdu::QuietEnd;
use seatmelon_account::{Direction, Explained, Message, Start};
use seatmelon_reading::Sighting;
use seatmelon_text::json::{quotes_of, write_bytes, write_long, write_sentence};
use seatmelon_text::{Part, Room, parts, put_parts, tell, write_parts, write_words};

/// Writes the premise on where what is judged begins, as the last of a list.
pub fn write_start_premise<W: Sink>(writer: &mut W, start: &Start) -> Result<(), Fault>
    ensures err { IfErr result (λ f. f ≡ write_failed) }
{
    let end = match start {
        Start::Opening | Start::LaterOpening => "\"]",
        Start::Quiet(..) => ".\"]",
    };
    write_words(writer, "\"")?;
    write_parts(writer, &start_premise(start))?;
    write_words(writer, end)
}

// Writes the premises of 'explained'.
fn write_premises<W: Sink>(writer: &mut W, explained: &Explained<'_>) -> Result<(), Fault>
    ensures err { IfErr result (λ f. f ≡ write_failed) }
{
    write_words(writer, ",\"premises\":[")?;
    for words in premises(explained) {
        write_sentence(writer, words)?;
        write_words(writer, ",")?;
    }
    write_start_premise(writer, &explained.start)
}

// Writes where an end stands at the quiet point.
fn write_quiet_end<W: Sink>(writer: &mut W, end: &QuietEnd) -> Result<(), Fault>
    ensures err { IfErr result (λ f. f ≡ write_failed) }
{
    tell!(writer, "{\"next_sn\":", end.next_sn, ",\"clock\":")?;
    write_long(writer, end.clock)?;
    write_words(writer, ",\"deadline\":")?;
    write_long_if(writer, end.deadline)?;
    write_words(writer, ",\"handed_ts\":")?;
    write_number_if(writer, end.handed_ts)?;
    write_words(writer, "}")
}

// Writes the quiet point, if one is recorded.
fn write_quiet_point<W: Sink>(writer: &mut W, start: &Start) -> Result<(), Fault>
    ensures err { IfErr result (λ f. f ≡ write_failed) }
{
    let Start::Quiet(first_record, quiet) = start else {
        return write_words(writer, ",\"quiet_point\":null");
    };
    tell!(
        writer,
        ",\"quiet_point\":{\"first_record\":",
        *first_record,
        ",\"client\":"
    )?;
    write_quiet_end(writer, &quiet.client)?;
    write_words(writer, ",\"server\":")?;
    write_quiet_end(writer, &quiet.server)?;
    write_words(writer, "}")
}

// Puts the place of the proof of a message, or null.
fn put_proof<W: Sink>(
    writer: &mut W,
    room: &mut Room,
    packets: &[Sighting],
    proof: Option<u32>,
) -> Result<(), Fault>
    ensures err { IfErr result (λ f. f ≡ write_failed) }
{
    match proof {
        Some(place) => put_place(writer, room, packets, place),
        None => room.put(writer, b"null"),
    }
}

/// A truth value of JSON.
pub fn truth(is_so: bool) -> &'static str {
    if is_so { "true" } else { "false" }
}

// Puts what a message has before its bytes.
fn put_front<W: Sink>(
    writer: &mut W,
    room: &mut Room,
    packets: &[Sighting],
    message: &Message<'_>,
) -> Result<(), Fault>
    ensures err { IfErr result (λ f. f ≡ write_failed) }
{
    let quote = quotes_of(message.number);
    put_parts(
        writer,
        room,
        &parts![
            "{\"message\":",
            quote,
            message.number,
            quote,
            ",\"surely_taken\":",
            truth(message.proof.is_some()),
            ",\"data\":"
        ],
    )?;
    put_place(writer, room, packets, message.data)?;
    room.put(writer, b",\"proof\":")?;
    put_proof(writer, room, packets, message.proof)
}

// Puts a message. Its bytes aren't gathered in the room, since there may be many.
fn put_message<W: Sink>(
    writer: &mut W,
    room: &mut Room,
    packets: &[Sighting],
    message: &Message<'_>,
) -> Result<(), Fault>
    ensures err { IfErr result (λ f. f ≡ write_failed) }
{
    put_front(writer, room, packets, message)?;
    put_parts(
        writer,
        room,
        &parts![",\"hex\":\"", Part::Hex(message.bytes), "\",\"text\":"],
    )?;
    room.write(writer)?;
    write_bytes(writer, message.bytes)?;
    room.put(writer, b"}")
}

/// Writes messages, one after the other.
pub fn write_messages<W: Sink>(
    writer: &mut W,
    packets: &[Sighting],
    messages: &[Message<'_>],
) -> Result<(), Fault>
    ensures err { IfErr result (λ f. f ≡ write_failed) }
{
    let mut room = Room::new();
    let mut before = "";
    for message in messages {
        room.put(writer, before.as_bytes())?;
        put_message(writer, &mut room, packets, message)?;
        before = ",";
    }
    room.write(writer)
}

/// Writes the numbers of the first and of the last message that wasn't shown to be taken, or null.
pub fn write_not_shown<W: Sink>(writer: &mut W, numbers: Option<(u64, u64)>) -> Result<(), Fault>
    ensures err { IfErr result (λ f. f ≡ write_failed) }
{
    let Some((first, last)) = numbers else {
        return write_words(writer, ",\"not_shown\":null");
    };
    write_words(writer, ",\"not_shown\":{\"first\":")?;
    write_long(writer, first)?;
    write_words(writer, ",\"last\":")?;
    write_long(writer, last)?;
    write_words(writer, "}")
}

/// Writes who sent messages to whom, how many of them were surely taken, and under a key how many there are.
pub fn write_shares<W: Sink>(
    writer: &mut W,
    sender: Side,
    taken: u64,
    key: &'static str,
    count: u64,
) -> Result<(), Fault>
    ensures err { IfErr result (λ f. f ≡ write_failed) }
{
    tell!(
        writer,
        "{\"from\":\"",
        sender,
        "\",\"to\":\"",
        sender.other(),
        "\",\"surely_taken\":"
    )?;
    write_long(writer, taken)?;
    tell!(writer, ",\"", key, "\":")?;
    write_long(writer, count)
}

/// Writes the messages of an end, and under a key how many there are.
pub fn write_direction<W: Sink>(
    writer: &mut W,
    packets: &[Sighting],
    key: &'static str,
    direction: &Direction<'_>,
) -> Result<(), Fault>
    ensures err { IfErr result (λ f. f ≡ write_failed) }
{
    let count = direction.messages.len() as u64;
    write_shares(writer, direction.sender, direction.taken, key, count)?;
    write_not_shown(writer, direction.not_shown())?;
    write_words(writer, ",\"messages\":[")?;
    write_messages(writer, packets, &direction.messages)?;
    write_words(writer, "]}")
}

/// Writes what is told of an explained capture, behind the verdict.
pub fn write_explained<W: Sink>(
    writer: &mut W,
    packets: &[Sighting],
    explained: &Explained<'_>,
) -> Result<(), Fault>
    ensures err { IfErr result (λ f. f ≡ write_failed) }
{
    tell!(writer, ",\"packets_explained\":", explained.packets)?;
    write_premises(writer, explained)?;
    write_quiet_point(writer, &explained.start)?;
    write_words(writer, ",\"messages\":[")?;
    write_direction(writer, packets, "sent", &explained.client)?;
    write_words(writer, ",")?;
    write_direction(writer, packets, "sent", &explained.server)?;
    write_words(writer, "]")
}
