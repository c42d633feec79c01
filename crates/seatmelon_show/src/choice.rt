//! Which packets are listed.
ghost use Rattle.std.specs.Prelude.{◌≡◌, nat_le, ◌&&◌};
ghost use Rattle.std.specs.List.{list_any};
ghost use Rattle.rasta_pdu.specs.Pdu.{is_kind};
ghost use Rattle.seatmelon_show.specs.Sighted.{seen_of};
ghost use Rattle.seatmelon_show.specs.Typed.{kind_seen};

use crate::sight::{Found, Sight};
use rasta_pdu::{Fields, Kind};

/// Types of PDUs.
#[derive(Clone, Copy)]
pub enum Types<'a> {
    /// All, and what has no type.
    All,

    /// These alone.
    Of(&'a [Kind]),
}

/// Which packets are listed: those of these types, in these records.
#[derive(Clone, Copy)]
pub struct Choice<'a> {
    pub types: Types<'a>,
    pub first_record: u32,
    pub last_record: u32,
}

// Whether a type is one of these.
fn is_one_of(kind: Kind, kinds: &[Kind]) -> bool
    ensures { result ≡ list_any (λ wanted. is_kind wanted kind) kinds.now }
{
    kinds.iter().any(|wanted| kind.is(*wanted))
}

// The type of a packet, if it has one.
fn kind_of_sight(sight: &Sight<'_>) -> Option<Kind>
    ensures { result ≡ kind_seen (seen_of sight.now) }
{
    match sight.found {
        Found::Datagram(found) => Fields::of(found.payload).kind(),
        Found::Unreadable(_) => None,
    }
}

impl Types<'_> {
    ghost use Rattle.seatmelon_show.specs.Chosen.{is_of_types};

    // Whether a packet of this type is one of these.
    fn include(&self, kind: Option<Kind>) -> bool
        ensures { result ≡ is_of_types self.now kind }
    {
        match (self, kind) {
            (Types::All, _) => true,
            (Types::Of(kinds), Some(kind)) => is_one_of(kind, kinds),
            (Types::Of(_), None) => false,
        }
    }
}

impl Choice<'_> {
    ghost use Rattle.seatmelon_show.specs.Chosen.{is_chosen};

    /// Whether a packet is listed.
    pub fn includes(&self, sight: &Sight<'_>) -> bool
        ensures { result ≡ is_chosen self.now (seen_of sight.now) }
    {
        let is_in_range = self.first_record <= sight.number && sight.number <= self.last_record;
        is_in_range && self.types.include(kind_of_sight(sight))
    }
}
