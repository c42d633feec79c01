//! The text and the JSON on what becomes of the packets before a refused one.
ghost use Rattle.std.specs.Prelude.{◌≡◌, IfErr};
ghost use Rattle.rasta_pcap.specs.Fault.{write_failed};

use crate::json::write_count;
use crate::json_places::write_number_if;
use rasta_pcap::{Fault, Sink};
use seatmelon_account::{Account, Direction, Explained, Refusal, Subject, Verdict};
use seatmelon_text::json::write_long;
use seatmelon_text::{tell, write_words};

// The record before a refused one, where a window can end.
fn record_before(account: &Account<'_>) -> Option<u32> {
    match &account.verdict {
        Verdict::Refused(
            Refusal {
                subject: Subject::Record { record, .. },
                ..
            },
        ) => record.checked_sub(1),
        _ => None,
    }
}

// The record of the packet that no run explains.
fn unexplained_record(account: &Account<'_>, refusal: &Refusal<'_>) -> Option<u32> {
    match &refusal.subject {
        Subject::Unexplained {
            packet: Some(packet),
            ..
        } => Some(account.packets().get(packet.place as usize)?.record),
        _ => None,
    }
}

// Writes how many messages of an end were surely taken by the packets before a refused one.
fn write_taken<W: Sink>(writer: &mut W, direction: &Direction<'_>) -> Result<(), Fault>
    ensures err { IfErr result (λ f. f ≡ write_failed) }
{
    tell!(
        writer,
        "    ",
        direction.sender,
        " to ",
        direction.sender.other(),
        ": ",
        direction.taken,
        " of ",
        direction.messages.len() as u64,
        " messages surely taken\n"
    )
}

// Writes that the packets before a refused one are explained, and by which window that is told whole.
fn write_explained<W: Sink>(
    writer: &mut W,
    account: &Account<'_>,
    explained: &Explained<'_>,
) -> Result<(), Fault>
    ensures err { IfErr result (λ f. f ≡ write_failed) }
{
    let packets = explained.packets;
    let words = if packets == 1 {
        " packet before it is explained by itself:\n"
    } else {
        " packets before it are explained by themselves:\n"
    };
    tell!(writer, "  the ", packets, words)?;
    write_taken(writer, &explained.client)?;
    write_taken(writer, &explained.server)?;
    match record_before(account) {
        Some(last) => tell!(
            writer,
            "    with last_record = ",
            last,
            " in the parameters, that is told whole\n"
        ),
        None => Ok(()),
    }
}

// Writes why the packets before a refused one aren't explained either.
fn write_refused<W: Sink>(
    writer: &mut W,
    account: &Account<'_>,
    refusal: &Refusal<'_>,
) -> Result<(), Fault>
    ensures err { IfErr result (λ f. f ≡ write_failed) }
{
    let fault = refusal.fault;
    tell!(
        writer,
        "  the packets before it aren't explained by themselves either: refused by ",
        fault.number,
        " ",
        fault.name()
    )?;
    match unexplained_record(account, refusal) {
        Some(record) => tell!(writer, ", record ", record, "\n"),
        None => write_words(writer, "\n"),
    }
}

/// Writes what becomes of the packets before a refused one, judged alone, where that is told.
pub fn write_before<W: Sink>(writer: &mut W, account: &Account<'_>) -> Result<(), Fault>
    ensures err { IfErr result (λ f. f ≡ write_failed) }
{
    let Some(verdict) = &account.before_fault else {
        return Ok(());
    };
    write_words(writer, "up to there:\n")?;
    match verdict {
        Verdict::Explained(explained) => write_explained(writer, account, explained),
        Verdict::Refused(refusal) => write_refused(writer, account, refusal),
        Verdict::NoPackets => Ok(()),
    }
}

// Writes how many messages an end sent before a refused packet, and how many of them were surely taken.
fn write_shares<W: Sink>(writer: &mut W, direction: &Direction<'_>) -> Result<(), Fault>
    ensures err { IfErr result (λ f. f ≡ write_failed) }
{
    tell!(writer, ",\"", direction.sender, "\":{\"sent\":")?;
    write_long(writer, direction.messages.len() as u64)?;
    write_count(writer, "surely_taken", direction.taken)?;
    write_words(writer, "}")
}

// Writes the counts of the packets before a refused one, which are explained.
fn write_explained_json<W: Sink>(
    writer: &mut W,
    account: &Account<'_>,
    explained: &Explained<'_>,
) -> Result<(), Fault>
    ensures err { IfErr result (λ f. f ≡ write_failed) }
{
    tell!(
        writer,
        "{\"verdict\":\"explained\",\"packets\":",
        explained.packets
    )?;
    write_shares(writer, &explained.client)?;
    write_shares(writer, &explained.server)?;
    write_words(writer, ",\"last_record\":")?;
    write_number_if(writer, record_before(account))?;
    write_words(writer, "}")
}

// Writes why the packets before a refused one aren't explained either.
fn write_refused_json<W: Sink>(
    writer: &mut W,
    account: &Account<'_>,
    refusal: &Refusal<'_>,
) -> Result<(), Fault>
    ensures err { IfErr result (λ f. f ≡ write_failed) }
{
    tell!(
        writer,
        "{\"verdict\":\"refused\",\"fault\":{\"number\":",
        refusal.fault.number,
        ",\"name\":\"",
        refusal.fault.name(),
        "\"},\"record\":"
    )?;
    write_number_if(writer, unexplained_record(account, refusal))?;
    write_words(writer, "}")
}

/// Writes what becomes of the packets before a refused one, judged alone, or null where that isn't told.
pub fn write_before_json<W: Sink>(writer: &mut W, account: &Account<'_>) -> Result<(), Fault>
    ensures err { IfErr result (λ f. f ≡ write_failed) }
{
    write_words(writer, ",\"before_fault\":")?;
    match &account.before_fault {
        Some(Verdict::Explained(explained)) => write_explained_json(writer, account, explained),
        Some(Verdict::Refused(refusal)) => write_refused_json(writer, account, refusal),
        Some(Verdict::NoPackets) | None => write_words(writer, "null"),
    }
}
