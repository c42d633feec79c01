//! The blocks that nearly all packets stand in.
ghost use Rattle.std.specs.Prelude.{Some, IfSome};
ghost use Rattle.seatmelon_pcapng.specs.Comings.{Tells};

use crate::block::{Found, Turn};
use crate::coming::Coming;
use crate::front::{ENHANCED_PACKET, FRONT, Front};
use crate::interface::Interface;
use crate::order::Order;

/// An enhanced packet block of a packet of Ethernet, and what was found in it.
#[derive(Clone, Copy)]
pub struct Enhanced {
    pub front: Front,
    pub found: Found,
}

impl Enhanced {
    ghost use Rattle.seatmelon_pcapng.specs.declared.block.Turn.TheVariants.{Packet};
    ghost use Rattle.seatmelon_pcapng.specs.declared.coming.Coming.TheVariants.{Block};
    ghost use Rattle.seatmelon_pcapng.specs.declared.order.Order.TheVariants.{Little};

    /// What comes next in a section that has the lowest byte first, behind these interfaces of it, where that is such a
    /// block. The compiler makes of it what [`Coming::of`] does for this byte order and type alone.
    #[inline(always)]
    pub fn of(interfaces: &[Interface], bytes: &[u8]) -> Option<Enhanced>
        ensures { IfSome result (λ e. Tells (Some Little) interfaces.now bytes.now (Block e.front (Packet e.found))) }
    {
        if bytes.len() < FRONT || Order::Little.u32_at(bytes, 0) != ENHANCED_PACKET {
            return None;
        }
        match Coming::of(Some(Order::Little), interfaces, bytes) {
            Coming::Block(front, Turn::Packet(found)) => Some(Enhanced { front, found }),
            _ => None,
        }
    }
}
