//! The messages of an explained capture, each in one line where it fits.
ghost use Rattle.std.specs.Prelude.{◌≡◌, IfErr};
ghost use Rattle.rasta_pcap.specs.Fault.{write_failed};

use crate::page::place_of;
use rasta_pcap::{CaptureTime, Fault, Side, Sink};
use seatmelon_account::{Account, Direction, FromMiddle, Message, Selection};
use seatmelon_reading::Sighting;
use seatmelon_text::{Part, Room, parts, put_parts, tell, width, write_words};

// How many columns a line has at most.
const MOST_COLUMNS: usize = 100;

// A message of more bytes is cut, and told so far.
const LONG: usize = 64;

const FRONT: usize = 32;

// The most bytes of a message that a line has room for: beside numbers of one digit and times of day in microseconds, 21
// columns are left where there is a proof, and 44 where there is none, 7 of them for `; text `.
const MOST_SHOWN: usize = 14;

const MOST_NOT_SHOWN: usize = 37;

const DAY: u32 = 86_400;

// What the lines of messages rest on.
#[derive(Clone, Copy)]
struct Scene<'a> {
    packets: &'a [Sighting],

    // When the first packet was captured: times of its day have no date.
    first: Option<CaptureTime>,

    // Whether one channel is recorded: then it isn't named.
    is_single: bool,

    selection: Selection,
    is_whole: bool,
}

// The time of a packet in a line: without its date, where that is the one of the first packet.
fn time_in<'a>(scene: &Scene<'_>, time: CaptureTime) -> Part<'a> {
    match scene.first {
        Some(first) if first.seconds / DAY == time.seconds / DAY => Part::TimeOfDay(time),
        _ => Part::Time(time),
    }
}

// What a packet is to a message, as it stands before its record.
#[derive(Clone, Copy)]
struct Role {
    record: &'static str,

    // The same of a packet of which no record is known.
    place: &'static str,
}

const DATA: Role = Role {
    record: ": record ",
    place: ": place ",
};

const DATA_NOT_SHOWN: Role = Role {
    record: ", not shown: record ",
    place: ", not shown: place ",
};

const PROOF: Role = Role {
    record: "; proof: record ",
    place: "; proof: place ",
};

// Record, time and channel of the packet at a place, as they stand in a line.
fn place_in<'a>(scene: &Scene<'_>, role: Role, place: u32) -> [Part<'a>; 6] {
    let Some(sighting) = scene.packets.get(place as usize) else {
        return parts![role.place, place, "", "", "", ""];
    };
    let (comma, time) = match sighting.time {
        Some(time) => (", ", time_in(scene, time)),
        None => (", no time", Part::Words("")),
    };
    let (on, channel) = if scene.is_single {
        ("", Part::Words(""))
    } else {
        (", channel ", Part::Number(u64::from(sighting.channel)))
    };
    parts![role.record, sighting.record, comma, time, on, channel]
}

// The bytes of a message, as they stand in a line: as text, where they are printable.
fn content_in(bytes: &[u8]) -> [Part<'_>; 2] {
    if bytes.is_empty() {
        parts!["; empty", ""]
    } else if bytes.iter().all(|byte| (b' '..=b'~').contains(byte)) {
        parts!["; text ", Part::Text(bytes)]
    } else {
        parts!["; hex ", Part::Hex(bytes)]
    }
}

// Who sends a message to whom, as it stands before the message's number.
fn way_of(sender: Side) -> &'static str {
    match sender {
        Side::Client => "client to server ",
        Side::Server => "server to client ",
    }
}

// What is between a message's number and the places of its packets.
fn state_of(message: &Message<'_>) -> &'static str {
    match message.proof {
        Some(_) => ": ",
        None => ", not shown: ",
    }
}

// What the packet of its data is to a message.
fn role_of_data(message: &Message<'_>) -> Role {
    match message.proof {
        Some(_) => DATA,
        None => DATA_NOT_SHOWN,
    }
}

// Puts a message in one line, if it fits, and answers whether it does. A line that doesn't is given up before its
// bytes are looked at, where they are too many: each takes a column at least.
fn put_line<W: Sink>(
    writer: &mut W,
    room: &mut Room,
    scene: &Scene<'_>,
    sender: Side,
    message: &Message<'_>,
) -> Result<bool, Fault>
    ensures err { IfErr result (λ f. f ≡ write_failed) }
{
    let front = parts![way_of(sender), message.number];
    let data = place_in(scene, role_of_data(message), message.data);
    let proof = match message.proof {
        Some(proof) => place_in(scene, PROOF, proof),
        None => [Part::Words(""); 6],
    };
    let left = MOST_COLUMNS
        .saturating_sub(width(&front))
        .saturating_sub(width(&data))
        .saturating_sub(width(&proof));
    if message.bytes.len() > left {
        return Ok(false);
    }
    let content = content_in(message.bytes);
    if width(&content) > left {
        return Ok(false);
    }
    put_parts(writer, room, &front)?;
    put_parts(writer, room, &data)?;
    put_parts(writer, room, &proof)?;
    put_parts(writer, room, &content)?;
    room.put(writer, b"\n")?;
    Ok(true)
}

// Puts bytes, in hexadecimal and as text.
fn put_both<W: Sink>(
    writer: &mut W,
    room: &mut Room,
    bytes: &[u8],
    extent: [Part<'_>; 4],
) -> Result<(), Fault>
    ensures err { IfErr result (λ f. f ≡ write_failed) }
{
    room.put(writer, b"  hex")?;
    put_parts(writer, room, &extent)?;
    put_parts(writer, room, &parts![": ", Part::Hex(bytes), "\n  text"])?;
    put_parts(writer, room, &extent)?;
    put_parts(writer, room, &parts![": ", Part::Text(bytes), "\n"])
}

// Puts the bytes of a message, as far as they are told.
fn put_bytes<W: Sink>(
    writer: &mut W,
    room: &mut Room,
    is_whole: bool,
    bytes: &[u8],
) -> Result<(), Fault>
    ensures err { IfErr result (λ f. f ≡ write_failed) }
{
    if bytes.is_empty() {
        return room.put(writer, b"  empty\n");
    }
    match bytes.get(..FRONT) {
        Some(front) if !is_whole && bytes.len() > LONG => put_both(
            writer,
            room,
            front,
            parts![", the first ", FRONT as u64, " of ", bytes.len() as u64],
        ),
        _ => put_both(writer, room, bytes, parts!["", "", "", ""]),
    }
}

// Puts a message in several lines.
fn put_block<W: Sink>(
    writer: &mut W,
    room: &mut Room,
    scene: &Scene<'_>,
    sender: Side,
    message: &Message<'_>,
) -> Result<(), Fault>
    ensures err { IfErr result (λ f. f ≡ write_failed) }
{
    let state = state_of(message);
    put_parts(writer, room, &parts![way_of(sender), message.number, state])?;
    put_parts(writer, room, &place_of(scene.packets, message.data))?;
    if let Some(proof) = message.proof {
        room.put(writer, b"  proof: ")?;
        put_parts(writer, room, &place_of(scene.packets, proof))?;
    }
    put_bytes(writer, room, scene.is_whole, message.bytes)
}

// Whether a line may have room for a message, by its bytes alone. To measure the line of each message of 20 bytes would take
// some 2 % of an explanation's instructions.
fn may_fit(message: &Message<'_>) -> bool {
    let most = match message.proof {
        Some(_) => MOST_SHOWN,
        None => MOST_NOT_SHOWN,
    };
    message.bytes.len() <= most
}

// Puts a message: in one line, where that fits.
fn put_message<W: Sink>(
    writer: &mut W,
    room: &mut Room,
    scene: &Scene<'_>,
    sender: Side,
    message: &Message<'_>,
) -> Result<(), Fault>
    ensures err { IfErr result (λ f. f ≡ write_failed) }
{
    if may_fit(message) && put_line(writer, room, scene, sender, message)? {
        return Ok(());
    }
    put_block(writer, room, scene, sender, message)
}

// Writes the messages of an end that are chosen, and answers whether there is one.
fn write_sent<W: Sink>(
    writer: &mut W,
    scene: &Scene<'_>,
    sender: Side,
    messages: &[Message<'_>],
) -> Result<bool, Fault>
    ensures err { IfErr result (λ f. f ≡ write_failed) }
{
    let mut room = Room::new();
    let mut is_any = false;
    for message in messages {
        if scene.selection.chooses(scene.packets, message) {
            put_message(writer, &mut room, scene, sender, message)?;
            is_any = true;
        }
    }
    room.write(writer)?;
    Ok(is_any)
}

// Writes what the messages are headed by, behind these words.
fn write_heading<W: Sink>(
    writer: &mut W,
    scene: &Scene<'_>,
    what: &'static str,
) -> Result<(), Fault>
    ensures err { IfErr result (λ f. f ≡ write_failed) }
{
    tell!(writer, "\n", what)?;
    if scene.selection != Selection::ALL {
        write_words(writer, " that were chosen")?;
    }
    match scene.first {
        Some(first) => tell!(
            writer,
            " (times are UTC; those without a date are of ",
            Part::Date(first),
            "):\n"
        ),
        None => write_words(writer, ":\n"),
    }
}

// What the lines of an account's messages rest on.
fn scene_of<'a>(account: &Account<'a>, selection: Selection, is_whole: bool) -> Scene<'a> {
    let packets = account.packets();
    Scene {
        packets,
        first: packets.first().and_then(|first| first.time),
        is_single: account.channels.len() == 1,
        selection,
        is_whole,
    }
}

// Writes the messages of both ends that are chosen, behind these words, first those of the client.
fn write_both<W: Sink>(
    writer: &mut W,
    scene: &Scene<'_>,
    what: &'static str,
    client: &[Message<'_>],
    server: &[Message<'_>],
) -> Result<(), Fault>
    ensures err { IfErr result (λ f. f ≡ write_failed) }
{
    write_heading(writer, scene, what)?;
    let is_any_of_client = write_sent(writer, scene, Side::Client, client)?;
    let is_any_of_server = write_sent(writer, scene, Side::Server, server)?;
    if is_any_of_client || is_any_of_server {
        Ok(())
    } else {
        write_words(writer, "none\n")
    }
}

/// Writes the messages that are chosen, first those of the client; long ones are cut unless they are told whole.
pub fn write_messages<W: Sink>(
    writer: &mut W,
    account: &Account<'_>,
    client: &Direction<'_>,
    server: &Direction<'_>,
    selection: Selection,
    is_whole: bool,
) -> Result<(), Fault>
    ensures err { IfErr result (λ f. f ≡ write_failed) }
{
    let scene = scene_of(account, selection, is_whole);
    write_both(
        writer,
        &scene,
        "Messages",
        &client.messages,
        &server.messages,
    )
}

/// Writes the messages that the packets alone show, those of captured data, and those that were sent again if there are
/// any; likewise.
pub fn write_shown_messages<W: Sink>(
    writer: &mut W,
    account: &Account<'_>,
    middle: &FromMiddle<'_>,
    selection: Selection,
    is_whole: bool,
) -> Result<(), Fault>
    ensures err { IfErr result (λ f. f ≡ write_failed) }
{
    let scene = scene_of(account, selection, is_whole);
    let (client, server) = (&middle.client.messages, &middle.server.messages);
    write_both(
        writer,
        &scene,
        "Captured messages, whatever came before and was missed",
        client,
        server,
    )?;
    let (client, server) = (&middle.client_resent, &middle.server_resent);
    if client.is_empty() && server.is_empty() {
        return Ok(());
    }
    write_both(
        writer,
        &scene,
        "Messages sent again, and first sent before these",
        client,
        server,
    )
}
