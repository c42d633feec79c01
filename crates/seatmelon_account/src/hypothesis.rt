//! What is supposed of a refused capture.
ghost use Rattle.std.specs.Prelude.{◌≡◌, ◌++◌, [], ℕ, map, slice_get, unwrap_or, IfErr, IfOk, IfSome, OnOk};
ghost use Rattle.std.specs.List.{cons_option};
ghost use Rattle.rasta_pcap.specs.Fault.{no_memory};
ghost use Rattle.rasta_pdu.specs.Pdu.{messages_in, value_of};
ghost use Rattle.seatmelon_reading.specs.Tapes.{taped_as};
ghost use Rattle.seatmelon_account.specs.Hypotheses.{AreListed, AreProved, IsHypothesis, IsProofIn, IsSupposed, IsToldOf, captured_as, captured_from, message_in, numbered_of, proof_listed};

use crate::explained::{Start, start_of};
use crate::messages::{Direction, Message};
use rasta_pcap::{Fault, Side};
use rasta_pdu::{Params, Pdu, decode};
use seatmelon_reading::{Notes, Taped};
use seatmelon_suppose::{Listed, Messages, SentMessage, Supposition};
use std::alloc::{AllocError, Global};

/// What is supposed of a capture that is refused at a gap.
#[derive(Drop)]
pub struct Hypothesis<'a> {
    pub supposition: Supposition,

    /// Whether packets have a safety code.
    pub has_code: bool,

    pub start: Start,

    /// The messages of captured data of the client, and those of the server. As surely taken those are told that are listed
    /// under every filling. There are none where no filling was found.
    pub client: Direction<'a>,
    pub server: Direction<'a>,
}

// The message of that number, from 0, of a PDU; empty where there is none.
fn message_of<'a>(pdu: &Pdu<'a>, index: usize) -> &'a [u8]
    ensures { result.now ≡ unwrap_or (slice_get (messages_in (value_of pdu.now).safety.body) index) [] }
{
    let mut before = index;
    for message in pdu.messages() {
        if before == 0 {
            return message;
        }
        before -= 1;
    }
    &[]
}

// The message of that number, from 0, of the packet at a place; empty where there is none.
fn message_in<'a>(params: &Params, packets: &'a [Taped], place: usize, index: usize) -> &'a [u8]
    ensures { result.now ≡ message_in params.now (map taped_as packets.now) place index }
{
    let Some(taped) = packets.get(place) else {
        return &[];
    };
    match decode(params, taped.sender, &taped.datagram) {
        Ok(pdu) => message_of(&pdu, index),
        Err(_) => &[],
    }
}

// The proof of a message of this data, if it is the one that is listed there.
fn proof_at(taken: &[Listed], order: usize, place: u32) -> Option<u32>
    ensures proof { result ≡ proof_listed taken.now order place }
    ensures listed { IfSome result (IsProofIn taken.now place) }
{
    let listed = taken.get(order)?;
    if listed.data == place as usize {
        u32::try_from(listed.proof).ok()
    } else {
        None
    }
}

// Tells a message that an end sent, the one of this number, if its data was captured.
fn add<'a>(
    told: &mut Vec<Message<'a>>,
    params: &Params,
    packets: &'a [Taped],
    taken: &[Listed],
    number: usize,
    sent: SentMessage,
) -> Result<(), AllocError>
    ensures all { OnOk result (map numbered_of told.new.items
        ≡ map numbered_of told.old.items ++ cons_option (captured_as params.now (map taped_as packets.now) number sent) []) }
    ensures proved { OnOk result (AreProved taken.now told.old.items → AreProved taken.now told.new.items) }
    ensures listed { OnOk result (AreListed taken.now told.old.items → AreListed taken.now told.new.items) }
{
    let Some(data) = sent.data.and_then(|place| u32::try_from(place).ok()) else {
        return Ok(());
    };
    told.push(Message {
        number: number as u64,
        data,
        proof: proof_at(taken, told.len(), data),
        bytes: message_in(params, packets, data as usize, sent.index),
    })?;
    Ok(())
}

// The messages of an end, as far as their data was captured.
fn told<'a>(
    alloc: Global,
    params: &Params,
    packets: &'a [Taped],
    messages: &Messages,
) -> Result<Vec<Message<'a>>, AllocError>
    ensures all { IfOk result (λ told. map numbered_of told.items
        ≡ captured_from params.now (map taped_as packets.now) 0 messages.now.sent.items) }
    ensures proved { IfOk result (λ told. AreProved messages.now.taken.items told.items) }
    ensures listed { IfOk result (λ told. AreListed messages.now.taken.items told.items) }
{
    let mut told = Vec::new(alloc);
    for (number, sent) in messages.sent.iter().enumerate() {
        add(&mut told, params, packets, &messages.taken, number, *sent)?;
    }
    Ok(told)
}

// The messages of an end.
fn direction<'a>(
    alloc: Global,
    params: &Params,
    packets: &'a [Taped],
    sender: Side,
    messages: &Messages,
) -> Result<Direction<'a>, AllocError>
    ensures { IfOk result (IsToldOf sender params.now (map taped_as packets.now) messages.now) }
{
    Ok(Direction {
        sender,
        taken: messages.taken.len() as u64,
        messages: told(alloc, params, packets, messages)?,
    })
}

/// What is told of a supposition. Refused by [`Fault::NO_MEMORY`] alone.
pub fn hypothesis_of<'a>(
    alloc: Global,
    params: &Params,
    notes: &'a Notes,
    supposition: Supposition,
) -> Result<Hypothesis<'a>, Fault>
    ensures hypothesis { (most : ℕ) → IsSupposed params.now notes.now.tape most supposition
        → IfOk result (IsHypothesis params.now notes.now most) }
    ensures passed { IfOk result (λ h. h.supposition ≡ supposition) }
    ensures err { IfErr result (λ f. f ≡ no_memory) }
{
    let packets = notes.tape.packets.as_slice();
    let client = direction(alloc, params, packets, Side::Client, &supposition.client)?;
    let server = direction(alloc, params, packets, Side::Server, &supposition.server)?;
    Ok(Hypothesis {
        supposition,
        has_code: params.code_length() > 0,
        start: start_of(params, notes),
        client,
        server,
    })
}
