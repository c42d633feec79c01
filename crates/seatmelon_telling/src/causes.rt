//! What in a capture is conspicuous and may be the cause of a missing or unexplained packet. It is told before the usual
//! causes.
ghost use Rattle.std.specs.Prelude.{◌≡◌, IfErr};
ghost use Rattle.rasta_pcap.specs.Fault.{write_failed};

use rasta_build::Rule;
use rasta_pcap::{Fault, Sink};
use seatmelon_account::{Account, Refusal, Subject, Trouble};
use seatmelon_reading::{ChannelCount, Sighting};
use seatmelon_text::{Part, parts, write_parts, write_words};

// A channel with fewer packets than one in so many of the fullest one is conspicuous.
const SPARSE: u64 = 10;

// What may be the cause.
#[derive(Clone, Copy)]
enum Cause {
    // A recorded channel has no packet.
    Silent {
        channel: u64,
    },

    // A channel has few packets beside the fullest one.
    Sparse {
        channel: u64,
        packets: u64,
        fullest: u64,
    },

    // A record has a time below that of the record before it.
    Falling {
        record: u32,
    },

    // An end confirms a PDU of the other before that crosses.
    Early {
        sn: u32,
    },

    // The window begins in the middle of the connection.
    Middle,

    // The same; behind this record the numbers of each end rise by one.
    MiddleUpTo {
        record: u32,
    },
}

// So many packets of an end are its first ones, among which late copies of PDUs from before the window may be.
const FIRST_PACKETS: usize = 32;

// How many packets a channel has.
fn packets_on(count: ChannelCount) -> u64 {
    count.client.saturating_add(count.server)
}

// How many packets the fullest of these channels has.
fn fullest_of(channels: &[ChannelCount]) -> u64 {
    let mut fullest = 0;
    for count in channels {
        fullest = fullest.max(packets_on(*count));
    }
    fullest
}

// What is conspicuous of a channel, beside one with so many packets.
fn cause_on(channel: u64, packets: u64, fullest: u64) -> Option<Cause> {
    if packets == 0 && fullest > 0 {
        Some(Cause::Silent { channel })
    } else if packets.saturating_mul(SPARSE) < fullest {
        Some(Cause::Sparse {
            channel,
            packets,
            fullest,
        })
    } else {
        None
    }
}

/// The place of the packet before which one is missing, or that no run explains, where that is what a refusal says.
pub fn refused_place(account: &Account<'_>, refusal: &Refusal<'_>) -> Option<u32> {
    match (refusal.fault.number, &refusal.subject) {
        (Fault::NUMBER_GAP, Subject::Record { record, .. }) => {
            let mut packets = account.packets().iter();
            u32::try_from(packets.position(|packet| packet.record == *record)?).ok()
        }
        (
            Fault::NOT_FOUND,
            Subject::Unexplained {
                packet: Some(packet),
                ..
            },
        ) => Some(packet.place),
        _ => None,
    }
}

// How many packets the end that sent the one at a place sent before it.
fn count_before(packets: &[Sighting], place: u32) -> Option<usize> {
    let sender = packets.get(place as usize)?.sender;
    let before = packets.get(..place as usize)?;
    Some(
        before
            .iter()
            .filter(|packet| packet.sender == sender)
            .count(),
    )
}

/// Whether the refusal speaks of one of the first packets of an end in a window that begins in the middle of the
/// connection.
pub fn is_in_middle(account: &Account<'_>, refusal: &Refusal<'_>) -> bool {
    if account.inputs.params.quiet().is_some() || account.opens != Some(false) {
        return false;
    }
    match refused_place(account, refusal) {
        Some(place) => count_before(account.packets(), place).is_some_and(|count| count
            < FIRST_PACKETS),
        None => false,
    }
}

// That the window begins in the middle of the connection, if the refusal speaks of that.
fn middle_cause(account: &Account<'_>, refusal: &Refusal<'_>) -> Option<Cause> {
    if !is_in_middle(account, refusal) {
        return None;
    }
    let gap = account
        .course
        .last_gap
        .and_then(|place| account.packets().get(place as usize));
    match gap {
        Some(packet) => Some(Cause::MiddleUpTo {
            record: packet.record,
        }),
        // Where none is explained, the usual cause says so.
        None if refusal.fault.number == Fault::NOT_FOUND => None,
        None => Some(Cause::Middle),
    }
}

// That an end confirms what hasn't crossed, if the refusal speaks of that.
fn early_cause(refusal: &Refusal<'_>) -> Option<Cause> {
    match &refusal.subject {
        Subject::Unexplained {
            rule: Some(broken),
            ..
        } => match broken.rule {
            Rule::ConfirmsLater { .. } => Some(Cause::Early {
                sn: broken.pdu.cs(),
            }),
            _ => None,
        },
        _ => None,
    }
}

// The record in which the number that was due crosses later, if a refusal speaks of that.
fn late_record(refusal: &Refusal<'_>) -> Option<u32> {
    let Subject::Record {
        packet: Some(packet),
        ..
    } = &refusal.subject
    else {
        return None;
    };
    match &packet.trouble {
        Trouble::Gap(Some(gap)) => Some(gap.later.as_ref()?.record),
        _ => None,
    }
}

// The first record whose time falls, if it is no later than the refused one, or than that of the number that was due.
fn falling_cause(account: &Account<'_>, refusal: &Refusal<'_>, refused: u32) -> Option<Cause> {
    let record = account.reading.notes.times.falling.first?;
    if record <= late_record(refusal).unwrap_or(refused) {
        Some(Cause::Falling { record })
    } else {
        None
    }
}

// What is told of a cause.
fn words_on(cause: Cause) -> [Part<'static>; 6] {
    match cause {
        Cause::Silent { channel } => parts![
            "on channel ",
            channel,
            " no packet was captured: one of its addresses in the parameters is wrong, or its tap is missing",
            "",
            "",
            ""
        ],
        Cause::Sparse {
            channel,
            packets,
            fullest,
        } => parts![
            "on channel ",
            channel,
            " few packets were captured: ",
            packets,
            ", and on the fullest ",
            fullest
        ],
        Cause::Falling { record } => parts![
            "times fall, first in record ",
            record,
            ": files in the wrong order, or taps whose clocks differ",
            "",
            "",
            ""
        ],
        Cause::Early { sn } => parts![
            "SN ",
            sn,
            " is confirmed before it crosses: two taps whose clocks differ, or files in the wrong order",
            "",
            "",
            ""
        ],
        Cause::Middle => parts![
            "the first packets of the capture may be late copies of PDUs from before it",
            "",
            "",
            "",
            "",
            ""
        ],
        Cause::MiddleUpTo { record } => parts![
            "the first packets of the capture may be late copies of PDUs from before it; from record ",
            record,
            " on the numbers of each end rise by one",
            "",
            "",
            ""
        ],
    }
}

// Writes a cause behind these words.
fn write_cause<W: Sink>(
    writer: &mut W,
    before: &str,
    cause: Cause,
    after: &str,
) -> Result<(), Fault>
    ensures err { IfErr result (λ f. f ≡ write_failed) }
{
    write_words(writer, before)?;
    write_parts(writer, &words_on(cause))?;
    write_words(writer, after)
}

// Writes what is conspicuous of the channels, each behind the first words or those between two, and answers whether
// there is anything.
fn write_channels<W: Sink>(
    writer: &mut W,
    account: &Account<'_>,
    around: [&'static str; 3],
) -> Result<bool, Fault>
    ensures err { IfErr result (λ f. f ≡ write_failed) }
{
    let [first, between, after] = around;
    let fullest = fullest_of(account.channels);
    let mut before = first;
    let mut is_any = false;
    for (place, count) in account.channels.iter().enumerate() {
        let channel = (place as u64).saturating_add(1);
        if let Some(cause) = cause_on(channel, packets_on(*count), fullest) {
            write_cause(writer, before, cause, after)?;
            before = between;
            is_any = true;
        }
    }
    Ok(is_any)
}

// The causes beside those of channels: times that fall no later than the refused packet or than the one that was due, a
// confirmation that comes too early, and a beginning in the middle.
fn further_causes(
    account: &Account<'_>,
    refusal: &Refusal<'_>,
    refused: u32,
) -> [Option<Cause>; 3] {
    [
        falling_cause(account, refusal, refused),
        early_cause(refusal),
        middle_cause(account, refusal),
    ]
}

/// Writes what is conspicuous where a packet is missing or none is explained: each cause between words before it, which
/// are others for the first one, and words after it.
pub fn write_causes<W: Sink>(
    writer: &mut W,
    account: &Account<'_>,
    refusal: &Refusal<'_>,
    around: [&'static str; 3],
) -> Result<(), Fault>
    ensures err { IfErr result (λ f. f ≡ write_failed) }
{
    let place = refused_place(account, refusal);
    let Some(refused) = place.and_then(|place| account.packets().get(place as usize)) else {
        return Ok(());
    };
    let is_any = write_channels(writer, account, around)?;
    let [first, between, after] = around;
    let mut before = if is_any { between } else { first };
    for cause in further_causes(account, refusal, refused.record) {
        if let Some(cause) = cause {
            write_cause(writer, before, cause, after)?;
            before = between;
        }
    }
    Ok(())
}
