//! Which captures have packets with cooked headers.
ghost use Rattle.std.specs.Prelude.{◌≡◌, ◌≤◌, length, IfSome};

use crate::order::Order;

/// How many bytes the header of a capture has.
pub const FILE_HEADER: usize = 24;

// The version of the format that is read.
const MAJOR: u16 = 2;

const MINOR: u16 = 4;

/// Which cooked header packets have.
#[derive(Clone, Copy, Debug, PartialEq, Eq)]
pub enum Kind {
    /// Link type 113.
    Sll,

    /// Link type 276.
    Sll2,
}

/// How a capture of packets with cooked headers is written.
#[derive(Clone, Copy, PartialEq, Eq)]
pub struct Form {
    pub order: Order,
    pub kind: Kind,
}

impl Kind {
    ghost use Rattle.seatmelon_cooked.specs.Forms.{kind_of, link_type_of};
    ghost use Rattle.seatmelon_cooked.specs.Frames.{excess, header_length};

    /// That of packets of a link type, if they have any.
    pub fn of(link_type: u32) -> Option<Kind>
        ensures { result ≡ kind_of link_type }
    {
        match link_type {
            113 => Some(Kind::Sll),
            276 => Some(Kind::Sll2),
            _ => None,
        }
    }

    /// The link type of packets that have it.
    pub fn link_type(self) -> u16
        ensures { result ≡ link_type_of self }
    {
        match self {
            Kind::Sll => 113,
            Kind::Sll2 => 276,
        }
    }

    /// How many bytes its header has.
    pub fn header_len(self) -> usize
        ensures { result ≡ header_length self }
    {
        match self {
            Kind::Sll => 16,
            Kind::Sll2 => 20,
        }
    }

    /// By how many bytes its header is longer than that of Ethernet.
    pub fn excess(self) -> u32
        ensures { result ≡ excess self }
    {
        match self {
            Kind::Sll => 2,
            Kind::Sll2 => 6,
        }
    }
}

impl Form {
    ghost use Rattle.seatmelon_cooked.specs.Forms.{form_in};

    /// The form of a file that begins with these 24 bytes; none of another file.
    pub fn told_by(header: &[u8]) -> Option<Form>
        ensures told { result ≡ form_in header.now }
        ensures size { IfSome result (λ _. 24 ≤ length header.now) }
    {
        if header.len() < FILE_HEADER {
            return None;
        }
        let Some(order) = Order::of(header) else {
            return None;
        };
        if order.u16_at(header, 4) != MAJOR || order.u16_at(header, 6) != MINOR {
            return None;
        }
        match Kind::of(order.u32_at(header, 20)) {
            Some(kind) => Some(Form { order, kind }),
            None => None,
        }
    }
}
