//! A section, as far as it was read.
ghost use Rattle.std.specs.Prelude.{◌≡◌, ℕ, List, ◌∷◌, ◌++◌, [], None, Some, OnOk, OnErr};
ghost use Rattle.seatmelon_pcapng.specs.Blocks.{interfaces_after, link_types_of};
ghost use Rattle.seatmelon_pcapng.specs.LinkTypes.{first_of, no_link_types};
ghost use Rattle.seatmelon_pcapng.specs.Readings.{order_after, packets_in};
ghost use Rattle.seatmelon_pcapng.specs.Sections.{interfaces_in, link_types_met, order_in};

use crate::block::Turn;
use crate::front::Front;
use crate::interface::Interface;
use crate::link_types::{LinkTypes, NO_LINK_TYPES};
use crate::order::Order;
use std::alloc::{AllocError, Global};

/// Its byte order and its interfaces; no order before the first section.
#[derive(Drop)]
pub struct Section {
    order: Option<Order>,
    interfaces: Vec<Interface>,

    // The link types of the first packets, also in sections before, that aren't frames of Ethernet.
    met: LinkTypes,
}

impl Section {
    /// None has begun.
    pub fn new(alloc: Global) -> Section
        ensures order { order_in result ≡ None }
        ensures interfaces { interfaces_in result ≡ [] }
        ensures met { link_types_met result ≡ no_link_types }
    {
        Section {
            order: None,
            interfaces: Vec::new(alloc),
            met: NO_LINK_TYPES,
        }
    }

    /// Its byte order.
    #[inline(always)]
    pub fn order(&self) -> Option<Order>
        ensures { result ≡ order_in self.now }
    {
        self.order
    }

    /// Its interfaces.
    #[inline(always)]
    pub fn interfaces(&self) -> &[Interface]
        ensures { result.now ≡ interfaces_in self.now }
    {
        self.interfaces.as_slice()
    }

    /// The link types of the first packets, of this section and those before it, that aren't frames of Ethernet.
    pub fn link_types(&self) -> LinkTypes
        ensures { result ≡ link_types_met self.now }
    {
        self.met
    }

    // Another section begins.
    fn begin(&mut self, order: Order)
        ensures order { order_in self.new ≡ Some order }
        ensures interfaces { interfaces_in self.new ≡ [] }
        ensures met { link_types_met self.new ≡ link_types_met self.old }
    {
        self.order = Some(order);
        self.interfaces.clear();
    }

    // The section has one interface more.
    fn describe(&mut self, interface: Interface) -> Result<(), AllocError>
        ensures order { order_in self.new ≡ order_in self.old }
        ensures interfaces { OnOk result (interfaces_in self.new ≡ interfaces_in self.old ++ interface ∷ []) }
        ensures kept { OnErr result (interfaces_in self.new ≡ interfaces_in self.old) }
        ensures met { link_types_met self.new ≡ link_types_met self.old }
    {
        self.interfaces.push(interface)?;
        Ok(())
    }

    /// Goes on behind a block. For want of memory it stays as it is, which no packet meets.
    #[inline(always)]
    pub fn pass(&mut self, front: Front, turn: &Turn) -> Result<(), AllocError>
        ensures order { OnOk result (order_in self.new ≡ order_after (order_in self.old) front turn.now) }
        ensures interfaces { OnOk result (interfaces_in self.new ≡ interfaces_after (interfaces_in self.old) turn.now) }
        ensures met { OnOk result (link_types_met self.new ≡ first_of (link_types_met self.old) (link_types_of turn.now)) }
        ensures kept { OnErr result ((order_in self.new ≡ order_in self.old) × (interfaces_in self.new ≡ interfaces_in self.old)
            × (link_types_met self.new ≡ link_types_met self.old)) }
        ensures no_packet { OnErr result ((block : List ℕ) → packets_in block turn.now ≡ []) }
    {
        match turn {
            Turn::Section => {
                self.begin(front.order);
                Ok(())
            }
            Turn::Interface(interface) => self.describe(*interface),
            Turn::Cooked(_, kind) => {
                self.met.meet_cooked(kind.link_type());
                Ok(())
            }
            Turn::Foreign(_, link_type) => {
                self.met.meet_other(*link_type);
                Ok(())
            }
            Turn::Packet(_) | Turn::Other => Ok(()),
        }
    }
}
