//! What was surely taken by the captured packets alone, as JSON.
ghost use Rattle.std.specs.Prelude.{◌≡◌, IfErr};
ghost use Rattle.rasta_pcap.specs.Fault.{write_failed};

use crate::json::write_count;
use crate::json_explained::{truth, write_messages, write_not_shown, write_shares};
use crate::json_places::write_place;
use crate::middle::{count_proved, middle_premises};
use rasta_pcap::{Fault, Side, Sink};
use seatmelon_account::{Account, Direction, FromMiddle, Message};
use seatmelon_middle::Share;
use seatmelon_reading::Sighting;
use seatmelon_text::json::write_sentence;
use seatmelon_text::{tell, write_words};

// Writes before which packet the list ends, where that isn't the end of the window, and whether it opens a connection;
// or null.
fn write_bound<W: Sink>(
    writer: &mut W,
    packets: &[Sighting],
    middle: &FromMiddle<'_>,
) -> Result<(), Fault>
    ensures err { IfErr result (λ f. f ≡ write_failed) }
{
    if packets.get(middle.packets as usize).is_none() {
        return write_words(writer, ",\"packets_before\":null");
    }
    write_words(writer, ",\"packets_before\":{\"packet\":")?;
    write_place(writer, packets, middle.packets)?;
    let is_opening = truth(middle.before_opening);
    tell!(writer, ",\"is_opening\":", is_opening, "}")
}

// Writes the premises.
fn write_premises<W: Sink>(writer: &mut W, middle: &FromMiddle<'_>) -> Result<(), Fault>
    ensures err { IfErr result (λ f. f ≡ write_failed) }
{
    let mut before = ",\"premises\":[";
    for words in middle_premises(middle) {
        write_words(writer, before)?;
        write_sentence(writer, words)?;
        before = ",";
    }
    write_words(writer, "]")
}

// Writes the messages that an end sent again and first sent before.
fn write_again<W: Sink>(
    writer: &mut W,
    packets: &[Sighting],
    sender: Side,
    messages: &[Message<'_>],
) -> Result<(), Fault>
    ensures err { IfErr result (λ f. f ≡ write_failed) }
{
    let count = messages.len() as u64;
    write_shares(writer, sender, count_proved(messages), "sent_again", count)?;
    write_words(writer, ",\"messages\":[")?;
    write_messages(writer, packets, messages)?;
    write_words(writer, "]}")
}

// The numbers of the first and of the last captured message that isn't shown to be taken, where so many aren't listed.
fn not_shown_with(direction: &Direction<'_>, left_out: u64) -> Option<(u64, u64)> {
    let (first, last) = direction.not_shown()?;
    Some((first, last.saturating_add(left_out)))
}

// Writes the captured messages of an end, and how many of them aren't listed.
fn write_captured<W: Sink>(
    writer: &mut W,
    packets: &[Sighting],
    share: Share,
    left_out: u64,
    direction: &Direction<'_>,
) -> Result<(), Fault>
    ensures err { IfErr result (λ f. f ≡ write_failed) }
{
    write_shares(
        writer,
        direction.sender,
        direction.taken,
        "captured",
        share.captured,
    )?;
    write_not_shown(writer, not_shown_with(direction, left_out))?;
    write_count(writer, "left_out", left_out)?;
    write_words(writer, ",\"messages\":[")?;
    write_messages(writer, packets, &direction.messages)?;
    write_words(writer, "]}")
}

// Writes the messages.
fn write_lists<W: Sink>(
    writer: &mut W,
    packets: &[Sighting],
    middle: &FromMiddle<'_>,
) -> Result<(), Fault>
    ensures err { IfErr result (λ f. f ≡ write_failed) }
{
    write_words(writer, ",\"messages\":[")?;
    let (counts, left_out) = (middle.counts, middle.client_left_out);
    write_captured(writer, packets, counts.client, left_out, &middle.client)?;
    write_words(writer, ",")?;
    let left_out = middle.server_left_out;
    write_captured(writer, packets, counts.server, left_out, &middle.server)?;
    write_words(writer, "],\"sent_again\":[")?;
    write_again(writer, packets, Side::Client, &middle.client_resent)?;
    write_words(writer, ",")?;
    write_again(writer, packets, Side::Server, &middle.server_resent)?;
    write_words(writer, "]")
}

/// Writes what was surely taken by the packets of the window alone, or null where that isn't told.
pub fn write_middle<W: Sink>(writer: &mut W, account: &Account<'_>) -> Result<(), Fault>
    ensures err { IfErr result (λ f. f ≡ write_failed) }
{
    let Some(middle) = &account.middle else {
        return write_words(writer, ",\"from_the_middle\":null");
    };
    let packets = account.packets();
    tell!(writer, ",\"from_the_middle\":{\"packets\":", middle.packets)?;
    write_bound(writer, packets, middle)?;
    write_premises(writer, middle)?;
    write_lists(writer, packets, middle)?;
    write_words(writer, "}")
}
