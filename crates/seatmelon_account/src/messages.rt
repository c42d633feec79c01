//! The messages that an end sent, and which of them were surely taken.
ghost use Rattle.std.specs.Prelude.{◌≡◌, ◌++◌, ◌∷◌, [], length, map, IfOk, OnOk, IfErr};
ghost use Rattle.rasta_pcap.specs.Fault.{no_memory};
ghost use Rattle.rasta_pdu.specs.Pdu.{messages_in, value_of};
ghost use Rattle.rasta_check.specs.Capture.Lists.{copy_of};
ghost use Rattle.rasta_check.specs.Verdict.Listed.{listed_of};
ghost use Rattle.seatmelon_account.specs.Messages.{AreFirst, IsDirection, ProvedBy, messages_sent, not_shown, placed_at, placed_of, proof_in};

use rasta_check::{SentList, SpanList, Taken};
use rasta_pcap::{Fault, Side};
use rasta_pdu::{Kind, Pdu};
use std::alloc::{AllocError, Global};

/// A message that an end sent.
#[derive(Clone, Copy)]
pub struct Message<'a> {
    /// Its number, from 0.
    pub number: u64,

    /// The place of the first packet that has it.
    pub data: u32,

    /// The place of the packet that proves that it was taken, where it surely was.
    pub proof: Option<u32>,

    pub bytes: &'a [u8],
}

/// The messages that an end sent to the other, in order.
#[derive(Drop)]
pub struct Direction<'a> {
    pub sender: Side,

    /// How many of them were surely taken: the first ones.
    pub taken: u64,

    pub messages: Vec<Message<'a>>,
}

impl Direction<'_> {
    /// The numbers of the first and of the last message that wasn't shown to be taken, if there is one: these, and all
    /// between them.
    pub fn not_shown(&self) -> Option<(u64, u64)>
        ensures { result ≡ not_shown self.now.taken (length self.now.messages.items) }
    {
        let sent = self.messages.len() as u64;
        if self.taken < sent {
            Some((self.taken, sent - 1))
        } else {
            None
        }
    }
}

// The place of the proof of the message of that number, where it is listed.
fn proof_of(listed: &[Taken<'_>], number: usize) -> Option<u32>
    ensures { result ≡ proof_in (map listed_of listed.now) number }
{
    match listed.get(number) {
        Some(taken) => Some(taken.proof_index),
        None => None,
    }
}

// Adds a message of a data PDU, which stands at a place.
#[tactic(auto, using(crate::proofs::SentMessages::placed_push, crate::proofs::SentMessages::proved_push))]
fn add_message<'a>(
    messages: &mut Vec<Message<'a>>,
    place: u32,
    bytes: &'a [u8],
    listed: &[Taken<'_>],
) -> Result<(), AllocError>
    ensures all { OnOk result (map placed_of messages.new.items ≡ map placed_of messages.old.items ++ placed_at place bytes.now ∷ []) }
    ensures numbered { OnOk result (ProvedBy (map listed_of listed.now) messages.old.items
        → ProvedBy (map listed_of listed.now) messages.new.items) }
{
    let number = messages.len();
    messages.push(Message {
        number: number as u64,
        data: place,
        proof: proof_of(listed, number),
        bytes,
    })?;
    Ok(())
}

// Adds the messages of a data PDU, which stands at a place.
fn add_messages<'a>(
    messages: &mut Vec<Message<'a>>,
    place: u32,
    pdu: &Pdu<'a>,
    listed: &[Taken<'_>],
) -> Result<(), AllocError>
    ensures all { OnOk result (map placed_of messages.new.items ≡ map placed_of messages.old.items
        ++ map (placed_at place) (messages_in (value_of pdu.now).safety.body)) }
    ensures numbered { OnOk result (ProvedBy (map listed_of listed.now) messages.old.items
        → ProvedBy (map listed_of listed.now) messages.new.items) }
{
    for bytes in pdu.messages() {
        add_message(messages, place, bytes, listed)?;
    }
    Ok(())
}

// Adds the messages of a first copy, if it is data.
fn add_copy<'a>(
    messages: &mut Vec<Message<'a>>,
    place: u32,
    pdu: &Pdu<'a>,
    listed: &[Taken<'_>],
) -> Result<(), AllocError>
    ensures all { OnOk result (map placed_of messages.new.items ≡ map placed_of messages.old.items
        ++ messages_sent (copy_of (place, pdu.now) ∷ [])) }
    ensures numbered { OnOk result (ProvedBy (map listed_of listed.now) messages.old.items
        → ProvedBy (map listed_of listed.now) messages.new.items) }
{
    if pdu.kind().is(Kind::Data) {
        add_messages(messages, place, pdu, listed)?;
    }
    Ok(())
}

// The messages of a sent list, of which these are listed as surely taken.
fn messages_of<'a>(
    alloc: Global,
    list: &SpanList<'a>,
    listed: &[Taken<'_>],
) -> Result<Vec<Message<'a>>, AllocError>
    ensures all { IfOk result (λ messages. map placed_of messages.items ≡ messages_sent list.now) }
    ensures numbered { IfOk result (λ messages. ProvedBy (map listed_of listed.now) messages.items) }
{
    let mut messages = Vec::new(alloc);
    for position in 0..list.len() {
        if let Some((place, pdu)) = list.get(position) {
            add_copy(&mut messages, place, &pdu, listed)?;
        }
    }
    Ok(messages)
}

/// The messages that an end sent, of which these are listed as surely taken. Refused by [`Fault::NO_MEMORY`] alone.
pub fn direction_of<'a>(
    alloc: Global,
    sender: Side,
    list: &SpanList<'a>,
    listed: &[Taken<'_>],
) -> Result<Direction<'a>, Fault>
    requires { AreFirst (messages_sent list.now) (map listed_of listed.now) }
    ensures direction { IfOk result (IsDirection sender list.now (map listed_of listed.now)) }
    ensures err { IfErr result (λ f. f ≡ no_memory) }
{
    Ok(Direction {
        sender,
        taken: listed.len() as u64,
        messages: messages_of(alloc, list, listed)?,
    })
}
