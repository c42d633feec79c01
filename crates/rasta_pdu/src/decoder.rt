//! Decoding datagrams, of which copies follow each other.
ghost use Rattle.std.specs.Prelude.{true, ◌≡◌, IfOk, MatchResult, Ok, Err, slice_range};
ghost use Rattle.rasta_pdu.specs.Pdu.{IsRedundancyPdu, RedundancyPdu, check_at, code_at, code_of, decode_of, read_code, redundancy_bytes, value_of};

use crate::last_datagram::LastDatagram;
use crate::params::Params;
use crate::pdu::Pdu;
use crate::read::{decode, read_decoded};
use rasta_udp::{Fault, Side};
use std::alloc::Global;
use std::marker::Model;

/// Decodes datagrams by the same parameters. Where there are safety codes, it keeps one that it decoded, as
/// [`LastDatagram`] does: the code of a copy right behind it needn't be computed again.
#[derive(Drop)]
pub struct Decoder<'p> {
    params: &'p Params,
    last: LastDatagram,

    // The side that sent the datagram that is kept.
    side: Side,
}

impl<'p> Model for Decoder<'p> {
    ghost use Rattle.rasta_pdu.specs.Params.{Parameters};
    ghost use Rattle.rasta_pdu.specs.Decoding.{IsKept};

    ghost Value = { Parameters };

    ghost view = { λ d. d.params.now };

    ghost invariant = { IsKept };
}

impl<'p> Decoder<'p> {
    /// Nothing was decoded yet.
    pub fn new(alloc: Global, params: &'p Params) -> Decoder<'p>
        ensures { result ≡ params.now }
    {
        Decoder {
            params,
            last: LastDatagram::new(alloc),
            side: Side::Client,
        }
    }

    // Whether this datagram is kept.
    fn is_kept(&mut self, side: Side, bytes: &[u8]) -> bool
        ensures decodes { result ≡ true → (r : RedundancyPdu) × (decode_of self.old side bytes.now ≡ Ok r) }
        ensures params { self.new ≡ self.old }
    {
        self.side == side && self.last.is(bytes)
    }

    // Offers a datagram for keeping.
    fn keep(&mut self, side: Side, bytes: &[u8])
        requires { (r : RedundancyPdu) × (decode_of self.old side bytes.now ≡ Ok r) }
        ensures { self.new ≡ self.old }
    {
        if self.last.keep(bytes) {
            self.side = side;
        }
    }

    /// Reads the datagram that this side sent, as [`decode`] does.
    #[inline(always)]
    pub fn decode<'a>(&mut self, side: Side, bytes: &'a [u8]) -> Result<Pdu<'a>, Fault>
        ensures value { MatchResult result (λ d. decode_of self.old side bytes.now ≡ Ok (value_of d))
            (λ f. decode_of self.old side bytes.now ≡ Err f) }
        ensures spelled { IfOk result (λ d. IsRedundancyPdu self.old (value_of d)
            × (bytes.now ≡ redundancy_bytes self.old side (value_of d))) }
        ensures code { IfOk result (λ d. read_code d ≡ code_of self.old side (value_of d).safety) }
        ensures code_place { IfOk result (λ d. read_code d
            ≡ slice_range bytes.now (code_at self.old bytes.now) (check_at self.old bytes.now)) }
        ensures params { self.new ≡ self.old }
    {
        if self.is_kept(side, bytes) {
            return Ok(read_decoded(self.params, side, bytes));
        }
        let pdu = decode(self.params, side, bytes)?;
        if self.params.code_length() > 0 {
            self.keep(side, bytes);
        }
        Ok(pdu)
    }
}
