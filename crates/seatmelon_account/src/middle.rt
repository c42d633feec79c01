//! What was surely taken by the captured packets alone: whatever came before them, and whatever the tap missed.
ghost use Rattle.std.specs.Prelude.{◌≡◌, ◌++◌, ◌∷◌, [], List, map, filter, flat_map, length, option_map, is_some, IfErr, IfOk, IfSome, OnOk};
ghost use Rattle.rasta_pcap.specs.Fault.{no_memory};
ghost use Rattle.rasta_udp.specs.Frame.{Packet};
ghost use Rattle.rasta_pdu.specs.Params.{Parameters};
ghost use Rattle.rasta_pdu.specs.Pdu.{messages_in, value_of};
ghost use Rattle.rasta_check.specs.Middle.Seen.{IsSeen};
ghost use Rattle.rasta_check.specs.Middle.ShownLists.{AreListsOf};
ghost use Rattle.seatmelon_reading.specs.Tapes.{taped_as};
ghost use Rattle.seatmelon_account.specs.Middle.{AreNumbered, AreToldSo, HaveProofsFirst, IsFromMiddle, IsShownDirection, data_told, is_proved, left_out_units, opens, packet_of_numbered, packets_in, resent_told, tells_middle, told_at, told_of, told_units, told_with};
ghost use Rattle.seatmelon_middle.specs.Counts.{is_taken, messages_captured};
ghost use Rattle.seatmelon_middle.specs.Packets.{opens_first, pdu_there};

use crate::account::Verdict;
use crate::messages::{Direction, Message};
use rasta_check::{ResentUnit, Shown, ShownLists, ShownUnit, Store};
use rasta_pcap::{Fault, Side};
use rasta_pdu::{Datagram, Kind, Params, Pdu, decode};
use seatmelon_middle::{ShownCounts, count_captured, is_told};
use seatmelon_reading::{Reading, Taped};
use std::alloc::{AllocError, Global};

/// What was surely taken of the captured messages, by the packets of the window alone.
#[derive(Drop)]
pub struct FromMiddle<'a> {
    /// How many packets it rests on: all of the window, or those before the first that can't be held together with
    /// those before it.
    pub packets: u32,

    /// Whether that packet opens a connection.
    pub before_opening: bool,

    /// Whether packets have a safety code.
    pub has_code: bool,

    /// How many messages of captured data there are of each end, and how many of them were surely taken.
    pub counts: ShownCounts,

    /// The messages of captured data of the client, and those of the server, in the order of their SNs: those of data that
    /// were surely taken, and of the next 65,536 data.
    pub client: Direction<'a>,
    pub server: Direction<'a>,

    /// How many messages of further captured data, none of which is shown to be taken, each of them has.
    pub client_left_out: u64,
    pub server_left_out: u64,

    /// Those that the client sent again and first sent before all of these, and those of the server.
    pub client_resent: Vec<Message<'a>>,
    pub server_resent: Vec<Message<'a>>,
}

// The most data of an end whose messages are told one by one without being shown to be taken.
const MOST_WAITING: usize = 65_536;

// The place of data, and that of their proof, if they have one.
#[derive(Clone, Copy)]
struct Places {
    data: u32,
    proof: Option<u32>,
}

// ---- the packets

// The PDU of the packet at a place among those behind what crossed.
fn taped_pdu<'a>(params: &Params, packets: &'a [Taped], place: u32) -> Option<Pdu<'a>>
    ensures { option_map value_of result
        ≡ pdu_there params.now (map packet_of_numbered (map taped_as packets.now)) place }
{
    let taped = packets.get(place as usize)?;
    decode(params, taped.sender, &taped.datagram).ok()
}

// The PDU of the packet at a place among those that crossed.
fn crossed_pdu(store: &Store, place: u32) -> Option<Pdu<'_>>
    ensures { option_map value_of result ≡ pdu_there store.now.params store.now.packets place }
{
    let (_, pdu) = store.pdu_at(place)?;
    Some(pdu)
}

// The PDU of the packet at a place of the window, if it spells one.
fn pdu_at(reading: &Reading, place: u32) -> Option<Pdu<'_>>
    ensures { option_map value_of result
        ≡ pdu_there reading.now.store.params (packets_in reading.now) place }
{
    match place.checked_sub(reading.store.len()) {
        Some(behind) => taped_pdu(&reading.store.params(), &reading.unjudged.packets, behind),
        None => crossed_pdu(&reading.store, place),
    }
}

// Takes in a packet behind those that crossed. One more than can be counted has no room.
fn take_in(shown: &mut Shown, taped: &Taped) -> Result<(), AllocError>
    ensures { OnOk result ((p : Parameters) (packets : List Packet) → IsSeen p packets shown.old
        → IsSeen p (packets ++ packet_of_numbered (taped_as taped.now) ∷ []) shown.new) }
{
    let packet = Datagram {
        side: taped.sender,
        channel: taped.channel,
        payload: taped.datagram.as_slice(),
    };
    match shown.add(&packet) {
        Ok(()) => Ok(()),
        Err(_) => Err(AllocError),
    }
}

// All packets of the window, taken in.
fn shown_of(alloc: Global, reading: &Reading) -> Result<Shown, AllocError>
    ensures { IfOk result (IsSeen reading.now.store.params (packets_in reading.now)) }
{
    let mut shown = Shown::of_store(alloc, &reading.store)?;
    for taped in &reading.unjudged.packets {
        take_in(&mut shown, taped)?;
    }
    Ok(shown)
}

// ---- messages

// Adds a message.
#[tactic(auto, using(crate::proofs::Windows::told_push, crate::proofs::Windows::numbered_push))]
fn add_message<'a>(
    messages: &mut Vec<Message<'a>>,
    bytes: &'a [u8],
    places: Places,
) -> Result<(), AllocError>
    ensures all { OnOk result (map told_of messages.new.items
        ≡ map told_of messages.old.items ++ told_with places.«data» places.proof bytes.now ∷ []) }
    ensures numbered { OnOk result (AreNumbered messages.old.items → AreNumbered messages.new.items) }
{
    let number = messages.len() as u64;
    messages.push(Message {
        number,
        data: places.data,
        proof: places.proof,
        bytes,
    })?;
    Ok(())
}

// Adds the messages of a PDU.
fn add_messages<'a>(
    messages: &mut Vec<Message<'a>>,
    pdu: &Pdu<'a>,
    places: Places,
) -> Result<(), AllocError>
    ensures all { OnOk result (map told_of messages.new.items ≡ map told_of messages.old.items
        ++ map (told_with places.«data» places.proof) (messages_in (value_of pdu.now).safety.body)) }
    ensures numbered { OnOk result (AreNumbered messages.old.items → AreNumbered messages.new.items) }
{
    for bytes in pdu.messages() {
        add_message(messages, bytes, places)?;
    }
    Ok(())
}

// Adds the messages of the packet at a place.
fn add_unit<'a>(
    messages: &mut Vec<Message<'a>>,
    reading: &'a Reading,
    places: Places,
) -> Result<(), AllocError>
    ensures all { OnOk result (map told_of messages.new.items ≡ map told_of messages.old.items
        ++ told_at reading.now.store.params (packets_in reading.now) places.«data» places.proof) }
    ensures numbered { OnOk result (AreNumbered messages.old.items → AreNumbered messages.new.items) }
{
    match pdu_at(reading, places.data) {
        Some(pdu) => add_messages(messages, &pdu, places),
        None => Ok(()),
    }
}

// How many of these have a proof.
fn count_proved(messages: &[Message<'_>]) -> usize
    ensures { result ≡ length (filter is_proved messages.now) }
{
    messages
        .iter()
        .filter(|message| message.proof.is_some())
        .count()
}

// The messages of captured data.
fn messages_of<'a>(
    alloc: Global,
    reading: &'a Reading,
    units: &[ShownUnit],
) -> Result<Vec<Message<'a>>, AllocError>
    ensures { IfOk result (λ messages. AreToldSo
        (flat_map (data_told reading.now.store.params (packets_in reading.now)) units.now) messages.items) }
{
    let mut messages = Vec::new(alloc);
    for unit in units {
        let places = Places {
            data: unit.data_place,
            proof: unit.proof_place,
        };
        add_unit(&mut messages, reading, places)?;
    }
    Ok(messages)
}

// How many data of an end have a proof.
fn count_taken(units: &[ShownUnit]) -> usize
    ensures { result ≡ length (filter is_taken units.now) }
{
    units
        .iter()
        .filter(|unit| unit.proof_place.is_some())
        .count()
}

// The data whose messages are told one by one, and the others: behind those with a proof, only so many are.
fn told_units(units: &[ShownUnit]) -> (&[ShownUnit], &[ShownUnit])
    ensures told { result.0.now ≡ told_units units.now }
    ensures left_out { result.1.now ≡ left_out_units units.now }
{
    let told = count_taken(units).saturating_add(MOST_WAITING);
    units.split_at(told.min(units.len()))
}

// The messages of captured data of an end.
fn direction<'a>(
    alloc: Global,
    reading: &'a Reading,
    sender: Side,
    units: &[ShownUnit],
) -> Result<Direction<'a>, AllocError>
    requires { HaveProofsFirst units.now }
    ensures { IfOk result (IsShownDirection sender reading.now.store.params (packets_in reading.now) units.now) }
{
    let (told, _) = told_units(units);
    let messages = messages_of(alloc, reading, told)?;
    Ok(Direction {
        sender,
        taken: count_proved(&messages) as u64,
        messages,
    })
}

// How many messages the data of an end have that aren't told one by one.
fn count_left_out(units: &[ShownUnit]) -> u64
    ensures { result ≡ messages_captured (left_out_units units.now) }
{
    let (_, left_out) = told_units(units);
    count_captured(left_out)
}

// The messages of data that were sent again, and first sent before all captured data.
fn resent<'a>(
    alloc: Global,
    reading: &'a Reading,
    units: &[ResentUnit],
) -> Result<Vec<Message<'a>>, AllocError>
    ensures { IfOk result (λ messages. AreToldSo
        (flat_map (resent_told reading.now.store.params (packets_in reading.now)) units.now) messages.items) }
{
    let mut messages = Vec::new(alloc);
    for unit in units {
        let places = Places {
            data: unit.place,
            proof: unit.proof_place,
        };
        add_unit(&mut messages, reading, places)?;
    }
    Ok(messages)
}

// ---- the whole

// Whether a PDU opens a connection.
fn is_opening(pdu: Option<Pdu<'_>>) -> bool
    ensures { result ≡ opens (option_map value_of pdu.entry) }
{
    match pdu {
        Some(pdu) => matches!(
            pdu.kind(),
            Kind::ConnectionRequest | Kind::ConnectionResponse
        ),
        None => false,
    }
}

// What the packets of the window show, by these lists.
fn told<'a>(
    alloc: Global,
    reading: &'a Reading,
    lists: &ShownLists,
) -> Result<FromMiddle<'a>, AllocError>
    requires { AreListsOf reading.now.store.params (packets_in reading.now) lists.now }
    ensures { IfOk result (IsFromMiddle reading.now) }
{
    Ok(FromMiddle {
        packets: lists.packets,
        before_opening: is_opening(pdu_at(reading, lists.packets)),
        has_code: reading.store.params().code_length() > 0,
        counts: ShownCounts::of(lists),
        client: direction(alloc, reading, Side::Client, &lists.client)?,
        server: direction(alloc, reading, Side::Server, &lists.server)?,
        client_left_out: count_left_out(&lists.client),
        server_left_out: count_left_out(&lists.server),
        client_resent: resent(alloc, reading, &lists.client_resent)?,
        server_resent: resent(alloc, reading, &lists.server_resent)?,
    })
}

/// Whether the first packet of the window opens the connection, if there is one.
pub fn opens_first(reading: &Reading) -> Option<bool>
    ensures { result ≡ opens_first reading.now.store.params (packets_in reading.now) }
{
    if reading.store.len() == 0 && reading.unjudged.packets.is_empty() {
        return None;
    }
    match pdu_at(reading, 0) {
        Some(pdu) => Some(pdu.kind().is(Kind::ConnectionRequest)),
        None => Some(false),
    }
}

// Whether what the packets of the window show is told beside this verdict.
fn is_beside(reading: &Reading, verdict: &Verdict<'_>) -> bool
    ensures { result ≡ tells_middle reading.now verdict.now }
{
    match verdict {
        Verdict::Refused(refusal) => {
            let params = reading.store.params();
            is_told(&params, opens_first(reading), refusal.fault)
        }
        Verdict::NoPackets | Verdict::Explained(_) => false,
    }
}

/// What the packets of the window show, where it is told beside this verdict. Refused by [`Fault::NO_MEMORY`] alone.
pub fn middle_of<'a>(
    alloc: Global,
    reading: &'a Reading,
    verdict: &Verdict<'a>,
) -> Result<Option<FromMiddle<'a>>, Fault>
    ensures middle { IfOk result (λ m. IfSome m (IsFromMiddle reading.now)) }
    ensures told { IfOk result (λ m. is_some m ≡ tells_middle reading.now verdict.now) }
    ensures err { IfErr result (λ f. f ≡ no_memory) }
{
    if !is_beside(reading, verdict) {
        return Ok(None);
    }
    let shown = shown_of(alloc, reading)?;
    let lists = shown.lists(alloc)?;
    Ok(Some(told(alloc, reading, &lists)?))
}
