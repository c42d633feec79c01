//! How a datagram is read by the recorded parameters.
ghost use Rattle.std.specs.Prelude.{◌≡◌};
ghost use Rattle.rasta_pdu.specs.Pdu.{decode_of};
ghost use Rattle.seatmelon_show.specs.Sighted.{decoding_by, decoding_of, seen_of};

use crate::sight::{Found, Sight};
use rasta_pdu::{Fault, Params, Side, decode};

/// How a datagram is read, by itself.
#[derive(Clone, Copy)]
pub enum Decoding {
    /// Whole.
    Whole,

    /// Whole but for its safety code, which isn't that of the recorded start words.
    OtherCode,

    /// Not: this is its first fault.
    Faulty(Fault),
}

// How a datagram of this side is read.
fn decoding_of_datagram(params: &Params, side: Side, bytes: &[u8]) -> Decoding
    ensures { result ≡ decoding_by (decode_of params.now side bytes.now) }
{
    match decode(params, side, bytes) {
        Ok(_) => Decoding::Whole,
        Err(fault) if fault.number == Fault::CODE => Decoding::OtherCode,
        Err(fault) => Decoding::Faulty(fault),
    }
}

/// How what was found is read.
pub fn decoding_of(params: &Params, sight: &Sight<'_>) -> Decoding
    ensures { result ≡ decoding_of params.now (seen_of sight.now) }
{
    match sight.found {
        Found::Datagram(found) => decoding_of_datagram(params, found.side, found.payload),
        Found::Unreadable(fault) => Decoding::Faulty(fault),
    }
}
