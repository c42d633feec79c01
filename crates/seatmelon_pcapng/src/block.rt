//! What a block says.
ghost use Rattle.std.specs.Prelude.{◌≡◌, ◌+◌, ◌≤◌, ℕ, length, option_map, IfOk};
ghost use Rattle.seatmelon_pcapng.specs.Blocks.{bounded_by, full_turn, has_version, least_length, packet_by, packet_of, packet_turn, simple_turn, stamp_in, turn_by, turn_of};
ghost use Rattle.seatmelon_pcapng.specs.Readings.{EndsWithin, StandsWithin};

use crate::front::{
    ENHANCED_PACKET, Front, INTERFACE_DESCRIPTION, OBSOLETE_PACKET, SECTION_HEADER, SIMPLE_PACKET,
};
use crate::interface::Interface;
use crate::order::Order;
use crate::refusal::Reason;
use crate::time::{Moment, NO_MOMENT};
use seatmelon_cooked::Kind;

// The most interfaces of a section.
const MOST_INTERFACES: usize = 65_536;

// The most bytes of a packet.
const MOST_CAPTURED: usize = 262_144;

// The link type of Ethernet.
const ETHERNET: u16 = 1;

// What stands in a packet block but its packet and options, and in a simple one.
const AROUND: usize = 32;

const AROUND_SIMPLE: usize = 16;

// Where a packet stands in its block, and in a simple one.
const PACKET_AT: usize = 28;

const SIMPLE_PACKET_AT: usize = 12;

/// A packet, and where its frame stands in its block.
#[derive(Clone, Copy)]
pub struct Found {
    pub moment: Moment,

    /// How long the frame was, in bytes.
    pub original: u32,

    /// Where what is told of it begins, and where it ends.
    pub start: usize,
    pub end: usize,
}

/// What a block says.
#[derive(Clone, Copy)]
pub enum Turn {
    /// A section begins.
    Section,

    /// Its section has one interface more.
    Interface(Interface),

    /// A packet.
    Packet(Found),

    /// A packet of an interface whose packets have cooked headers.
    Cooked(Found, Kind),

    /// A packet of another interface, of which no bytes are told, and the link type of that.
    Foreign(Found, u16),

    /// Nothing that is read.
    Other,
}

// Whether the version of a section is known.
fn has_version(order: Order, block: &[u8]) -> bool
    requires { 28 ≤ length block.now }
    ensures { result ≡ has_version order block.now }
{
    let minor = order.u16_at(block, 14);
    order.u16_at(block, 12) == 1 && (minor == 0 || minor == 2)
}

// A packet of an interface that isn't one of Ethernet.
#[cold]
#[inline(never)]
fn packet_by(link_type: u16, found: Found) -> Turn
    ensures value { result ≡ packet_by link_type found }
    ensures within { (len : ℕ) → StandsWithin len found → EndsWithin len result }
{
    match Kind::of(u32::from(link_type)) {
        Some(kind) => Turn::Cooked(found, kind),
        None => {
            let end = found.start;
            Turn::Foreign(Found { end, ..found }, link_type)
        }
    }
}

// A packet of this interface.
#[inline(always)]
fn packet_of(interface: &Interface, found: Found) -> Turn
    ensures value { result ≡ packet_of interface.now found }
    ensures within { (len : ℕ) → StandsWithin len found → EndsWithin len result }
{
    if interface.link_type == ETHERNET {
        Turn::Packet(found)
    } else {
        packet_by(interface.link_type, found)
    }
}

// Where a packet stands in its block, and in what room.
#[derive(Clone, Copy)]
struct Place {
    start: usize,
    room: usize,
}

// A packet of which so many bytes were captured.
#[inline(always)]
fn packet_turn(
    interface: &Interface,
    moment: Moment,
    original: u32,
    captured: u32,
    place: Place,
) -> Result<Turn, Reason>
    requires { place.start ≤ 28 }
    ensures value { result ≡ packet_turn interface.now moment original captured place.start place.room }
    ensures within { IfOk result (EndsWithin (place.start + place.room)) }
{
    let captured = captured as usize;
    if captured > place.room {
        return Err(Reason::CapturedBeyond);
    }
    if captured > MOST_CAPTURED {
        return Err(Reason::CapturedTooLong);
    }
    let found = Found {
        moment,
        original,
        start: place.start,
        end: place.start + captured,
    };
    Ok(packet_of(interface, found))
}

// The time stamp of a packet.
#[inline(always)]
fn stamp_in(order: Order, block: &[u8]) -> u64
    requires { 32 ≤ length block.now }
    ensures { result ≡ stamp_in order block.now }
{
    let (high, low) = (order.u32_at(block, 12), order.u32_at(block, 16));
    u64::from(high) * (1 << 32) + u64::from(low)
}

// A packet with interface, time, and both lengths.
#[inline(always)]
fn full_turn(order: Order, interface: Option<&Interface>, block: &[u8]) -> Result<Turn, Reason>
    requires { 32 ≤ length block.now }
    ensures value { result ≡ full_turn order (option_map (λ i. i.now) interface.entry) block.now }
    ensures within { IfOk result (EndsWithin (length block.now)) }
{
    let interface = interface.ok_or(Reason::Interface)?;
    let place = Place {
        start: PACKET_AT,
        room: block.len() - AROUND,
    };
    let moment = Moment::at(interface, stamp_in(order, block));
    let (captured, original) = (order.u32_at(block, 20), order.u32_at(block, 24));
    packet_turn(interface, moment, original, captured, place)
}

// As much of a packet as its interface captures.
fn bounded_by(snap_length: u32, original: u32) -> u32
    ensures { result ≡ bounded_by snap_length original }
{
    if snap_length == 0 {
        original
    } else {
        original.min(snap_length)
    }
}

// A packet of the first interface, with its original length alone.
fn simple_turn(order: Order, interface: Option<&Interface>, block: &[u8]) -> Result<Turn, Reason>
    requires { 16 ≤ length block.now }
    ensures value { result ≡ simple_turn order (option_map (λ i. i.now) interface.entry) block.now }
    ensures within { IfOk result (EndsWithin (length block.now)) }
{
    let interface = interface.ok_or(Reason::Interface)?;
    let place = Place {
        start: SIMPLE_PACKET_AT,
        room: block.len() - AROUND_SIMPLE,
    };
    let original = order.u32_at(block, 8);
    let captured = bounded_by(interface.snap_length, original);
    packet_turn(interface, NO_MOMENT, original, captured, place)
}

// What a block of this type says.
#[inline(always)]
fn turn_by(interfaces: &[Interface], order: Order, kind: u32, block: &[u8]) -> Result<Turn, Reason>
    requires front { 12 ≤ length block.now }
    requires least { least_length kind ≤ length block.now }
    ensures value { result ≡ turn_by interfaces.now order kind block.now }
    ensures within { IfOk result (EndsWithin (length block.now)) }
{
    match kind {
        ENHANCED_PACKET => {
            let at = order.u32_at(block, 8) as usize;
            full_turn(order, interfaces.get(at), block)
        }
        OBSOLETE_PACKET => {
            let at = usize::from(order.u16_at(block, 8));
            full_turn(order, interfaces.get(at), block)
        }
        SIMPLE_PACKET => simple_turn(order, interfaces.first(), block),
        SECTION_HEADER if has_version(order, block) => Ok(Turn::Section),
        SECTION_HEADER => Err(Reason::Version),
        INTERFACE_DESCRIPTION if interfaces.len() >= MOST_INTERFACES => {
            Err(Reason::TooManyInterfaces)
        }
        INTERFACE_DESCRIPTION => Ok(Turn::Interface(Interface::of(order, block))),
        _ => Ok(Turn::Other),
    }
}

/// What a block with this front says, behind these interfaces of its section.
#[inline(always)]
pub fn turn_of(interfaces: &[Interface], front: Front, block: &[u8]) -> Result<Turn, Reason>
    requires whole { length block.now ≡ front.len }
    requires front { 12 ≤ front.len }
    requires least { least_length front.kind ≤ front.len }
    ensures value { result ≡ turn_of interfaces.now front block.now }
    ensures within { IfOk result (EndsWithin front.len) }
{
    if front.order.u32_at(block, front.len - 4) as usize != front.len {
        return Err(Reason::Trailer);
    }
    turn_by(interfaces, front.order, front.kind, block)
}
