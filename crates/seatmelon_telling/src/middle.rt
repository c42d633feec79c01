//! The text on what was surely taken by the captured packets alone.
ghost use Rattle.std.specs.Prelude.{◌≡◌, IfErr};
ghost use Rattle.rasta_pcap.specs.Fault.{write_failed};

use crate::explained::{strangers, write_premise};
use crate::messages::write_shown_messages;
use crate::page::place_of;
use rasta_pcap::{Fault, Side, Sink};
use seatmelon_account::{Account, Extent, FromMiddle, Message};
use seatmelon_middle::Share;
use seatmelon_reading::Sighting;
use seatmelon_text::{tell, write_parts, write_words};

const SAYS: &str = "
What these counts say:
  In every run of two ends that keep the rules in which these packets cross the tap, whatever else
  crosses before, between and behind them, the far end handed up each message that is listed as
  surely taken, once and in order, before the packet that is its proof crossed.
What they don't say:
  that there is such a run.
  A message that is listed as not shown may have been taken all the same.
What they rest on:
";

const NOT_NEEDED: &str = "\
What they don't rest on:
  where in the connection the capture begins, and that the tap missed nothing.
";

const CROSSED: &str = "These packets crossed the tap, and all are of one connection.";

const RIGHT: &str = "The parameters are right.";

const KEPT: &str =
    "Both ends kept the rules, and neither made more than 2147483647 PDUs in this connection.";

/// The premises of what the packets show alone.
pub fn middle_premises(middle: &FromMiddle<'_>) -> [&'static str; 4] {
    [CROSSED, strangers(middle.has_code), RIGHT, KEPT]
}

/// How many of these messages have a proof.
pub fn count_proved(messages: &[Message<'_>]) -> u64 {
    messages
        .iter()
        .filter(|message| message.proof.is_some())
        .count() as u64
}

// Writes how many captured messages of an end were surely taken.
fn write_taken<W: Sink>(writer: &mut W, sender: Side, share: Share) -> Result<(), Fault>
    ensures err { IfErr result (λ f. f ≡ write_failed) }
{
    tell!(
        writer,
        sender,
        " to ",
        sender.other(),
        ": ",
        share.taken,
        " of ",
        share.captured,
        " captured messages surely taken, whatever came before and whatever the tap missed\n"
    )
}

// Writes how many messages of an end, none of which is shown to be taken, aren't listed, where there are any.
fn write_left_out<W: Sink>(writer: &mut W, count: u64) -> Result<(), Fault>
    ensures err { IfErr result (λ f. f ≡ write_failed) }
{
    if count == 0 {
        return Ok(());
    }
    tell!(
        writer,
        "  the last ",
        count,
        " of these, of which none is shown to be taken, aren't listed below\n"
    )
}

// Writes how many messages that an end sent again and first sent before were surely taken, where there are any.
fn write_again<W: Sink>(writer: &mut W, sender: Side, messages: &[Message<'_>]) -> Result<(), Fault>
    ensures err { IfErr result (λ f. f ≡ write_failed) }
{
    if messages.is_empty() {
        return Ok(());
    }
    tell!(
        writer,
        sender,
        " to ",
        sender.other(),
        ", sent again and first sent before these: ",
        count_proved(messages),
        " of ",
        messages.len() as u64,
        " messages surely taken\n"
    )
}

// Writes before which packet the counts end, where that isn't the end of the window.
fn write_bound<W: Sink>(
    writer: &mut W,
    packets: &[Sighting],
    middle: &FromMiddle<'_>,
) -> Result<(), Fault>
    ensures err { IfErr result (λ f. f ≡ write_failed) }
{
    if packets.get(middle.packets as usize).is_none() {
        return Ok(());
    }
    let bound = if middle.before_opening {
        "of the packets before an opening that doesn't fit to them: "
    } else {
        "of the packets before one that doesn't fit to them: "
    };
    write_words(writer, bound)?;
    write_parts(writer, &place_of(packets, middle.packets))
}

/// Writes what was surely taken by the packets of the window alone, where that is told.
pub fn write_middle<W: Sink>(writer: &mut W, account: &Account<'_>) -> Result<(), Fault>
    ensures err { IfErr result (λ f. f ≡ write_failed) }
{
    let Some(middle) = &account.middle else {
        return Ok(());
    };
    write_words(writer, "\n")?;
    write_taken(writer, Side::Client, middle.counts.client)?;
    write_left_out(writer, middle.client_left_out)?;
    write_taken(writer, Side::Server, middle.counts.server)?;
    write_left_out(writer, middle.server_left_out)?;
    write_again(writer, Side::Client, &middle.client_resent)?;
    write_again(writer, Side::Server, &middle.server_resent)?;
    write_bound(writer, account.packets(), middle)?;
    write_words(writer, SAYS)?;
    for words in middle_premises(middle) {
        write_premise(writer, words)?;
    }
    write_words(writer, NOT_NEEDED)
}

/// Writes the messages of captured data, each with what shows it to be surely taken, so much of them.
pub fn write_middle_messages<W: Sink>(
    writer: &mut W,
    account: &Account<'_>,
    extent: &Extent,
) -> Result<(), Fault>
    ensures err { IfErr result (λ f. f ≡ write_failed) }
{
    match (&account.middle, extent.messages) {
        (Some(middle), Some(selection)) => {
            write_shown_messages(writer, account, middle, selection, extent.is_whole)
        }
        _ => Ok(()),
    }
}
