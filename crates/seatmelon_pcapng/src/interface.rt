//! What a section describes of an interface.
ghost use Rattle.std.specs.Prelude.{◌≡◌, ◌+◌, ◌≤◌, length, option_map};
ghost use Rattle.seatmelon_pcapng.specs.Interfaces.{interface_in, offset_by, option_of, padded, resolution_by};

use crate::order::Order;

// Where the fields of an interface stand in its block, and where its options begin.
const LINK_TYPE_AT: usize = 8;

const SNAP_LENGTH_AT: usize = 12;

const OPTIONS_AT: usize = 16;

// The length at the end of a block.
const TRAILER: usize = 4;

// Code and length of an option.
const OPTION_FRONT: usize = 4;

const END_OF_OPTIONS: u16 = 0;

const TIME_RESOLUTION: u16 = 9;

const TIME_OFFSET: u16 = 14;

const MICROSECONDS: u8 = 6;

/// An interface, as far as its packets are read by it.
#[derive(Clone, Copy)]
pub struct Interface {
    pub link_type: u16,

    /// The most bytes of a packet that are captured; 0 where there is no bound.
    pub snap_length: u32,

    /// By what a second is divided: 10 to this power; where the high bit is set, 2 to the power of the others.
    pub resolution: u8,

    /// The seconds at which its times begin, in two's complement.
    pub offset: u64,
}

// So many bytes, filled up to a multiple of four.
fn padded(len: usize) -> usize
    requires { len ≤ 65535 }
    ensures { result ≡ padded len }
{
    len.div_ceil(4) * 4
}

// The value of the first option of this code; none where the list ends before it.
fn option_of<'a>(order: Order, code: u16, options: &'a [u8]) -> Option<&'a [u8]>
    ensures { option_map (λ value. value.now) result ≡ option_of order code options.now }
{
    let mut rest = options;
    while rest.len() >= OPTION_FRONT {
        let found = order.u16_at(rest, 0);
        let len = usize::from(order.u16_at(rest, 2));
        if found == END_OF_OPTIONS || rest.len() - OPTION_FRONT < len {
            return None;
        }
        if found == code {
            return Some(&rest[OPTION_FRONT..OPTION_FRONT + len]);
        }
        rest = rest.split_at(rest.len().min(OPTION_FRONT + padded(len))).1;
    }
    None
}

// By what a second is divided.
fn resolution_by(value: Option<&[u8]>) -> u8
    ensures { result ≡ resolution_by (option_map (λ value. value.now) value.entry) }
{
    match value {
        Some([resolution]) => *resolution,
        _ => MICROSECONDS,
    }
}

// The seconds at which times begin.
fn offset_by(order: Order, value: Option<&[u8]>) -> u64
    ensures { result ≡ offset_by order (option_map (λ value. value.now) value.entry) }
{
    match value {
        Some(value) if value.len() == 8 => order.u64_at(value, 0),
        _ => 0,
    }
}

impl Interface {
    /// The interface that a block describes.
    pub fn of(order: Order, block: &[u8]) -> Interface
        requires { 20 ≤ length block.now }
        ensures { result ≡ interface_in order block.now }
    {
        let options = &block[OPTIONS_AT..block.len() - TRAILER];
        Interface {
            link_type: order.u16_at(block, LINK_TYPE_AT),
            snap_length: order.u32_at(block, SNAP_LENGTH_AT),
            resolution: resolution_by(option_of(order, TIME_RESOLUTION, options)),
            offset: offset_by(order, option_of(order, TIME_OFFSET, options)),
        }
    }
}
