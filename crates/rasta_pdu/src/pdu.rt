//! The PDU of a datagram.
ghost use Rattle.std.specs.Prelude.{◌≡◌, ◌≤◌, ◌-◌, ◌==◌, length, true};
ghost use Rattle.std.proofs.Common.{rules};
ghost use Rattle.std.specs.Cmp.{partial_equiv_from_equiv};
ghost use Rattle.std.specs.Cmp.Rules.{comparing};
ghost use Rattle.std.specs.Cmp.Lexicographic.{pointwise};
ghost use Rattle.std.specs.Ordering.{eq_of_both, on};
ghost use Rattle.rasta_pdu.specs.Lengths.{has_payload_length};

use crate::body::{Body, body_at, spelling};
use crate::fields::{u16_at, u32_at};
use crate::kind::Kind;
use crate::layout::{CS_AT, CTS_AT, NUMBER_AT, PAYLOAD_AT, RESERVE_AT, SN_AT, TS_AT};
use crate::messages::Messages;
use std::fmt;

/// A PDU of the redundancy layer, with the PDU of the safety and retransmission layer in it: a view of
/// its datagram, which was judged. Fields are read where they are asked for, and slices are slices of
/// the datagram.
#[derive(Clone, Copy)]
pub struct Pdu<'a> {
    pub(crate) bytes: &'a [u8],
    // Where the safety code begins, and where the check code begins.
    pub(crate) code_at: u16,
    pub(crate) check_at: u16,
    pub(crate) kind: Kind,
    ghost fields: { 36 ≤ code_at },
    ghost payload: { has_payload_length kind (code_at - 36) ≡ true },
    ghost code: { code_at ≤ check_at },
    ghost check: { check_at ≤ length bytes.now },
}

#[tactic(auto, unfolding(crate::specs::Pdu::value_of, crate::specs::Pdu::read_code))]
impl<'a> Pdu<'a> {
    ghost use Rattle.rasta_pdu.specs.Pdu.{value_of, body_of, read_code, messages_in, messages_left};

    /// The redundancy layer's sequence number.
    #[inline]
    pub fn number(&self) -> u32
        ensures { result ≡ (value_of self.now).number }
    {
        u32_at(self.bytes, NUMBER_AT)
    }

    /// The redundancy layer's reserved field.
    #[inline]
    pub fn reserve(&self) -> u16
        ensures { result ≡ (value_of self.now).reserve }
    {
        u16_at(self.bytes, RESERVE_AT)
    }

    /// The type.
    #[inline]
    pub fn kind(&self) -> Kind
        ensures { result ≡ (value_of self.now).safety.kind }
    {
        self.kind
    }

    /// The sequence number.
    #[inline]
    pub fn sn(&self) -> u32
        ensures { result ≡ (value_of self.now).safety.sn }
    {
        u32_at(self.bytes, SN_AT)
    }

    /// The confirmed sequence number.
    #[inline]
    pub fn cs(&self) -> u32
        ensures { result ≡ (value_of self.now).safety.cs }
    {
        u32_at(self.bytes, CS_AT)
    }

    /// The time stamp, in milliseconds, modulo 2^32.
    #[inline]
    pub fn ts(&self) -> u32
        ensures { result ≡ (value_of self.now).safety.ts }
    {
        u32_at(self.bytes, TS_AT)
    }

    /// The confirmed time stamp, in milliseconds, modulo 2^32.
    #[inline]
    pub fn cts(&self) -> u32
        ensures { result ≡ (value_of self.now).safety.cts }
    {
        u32_at(self.bytes, CTS_AT)
    }

    /// The body, which is that of the type. Messages are the whole payload.
    #[inline]
    pub fn body(&self) -> Body<&'a [u8]>
        ensures { body_of result ≡ (value_of self.now).safety.body }
    {
        let bytes: &'a [u8] = self.bytes;
        body_at(self.kind, &bytes[PAYLOAD_AT..usize::from(self.code_at)])
    }

    /// The messages of data and retransmitted data; none of the other types.
    #[inline]
    #[tactic(auto, using(crate::proofs::Payloads::no_messages))]
    pub fn messages(&self) -> Messages<'a>
        ensures { messages_left result ≡ messages_in (value_of self.now).safety.body }
    {
        let rest: &'a [u8] = match self.body() {
            Body::Messages(payload) => payload,
            Body::Opening { .. } => &[],
            Body::Bye { .. } => &[],
            Body::Empty => &[],
        };
        Messages { rest }
    }

    /// The safety code, empty where its length is 0. It was judged.
    #[inline]
    pub fn code(&self) -> &'a [u8]
        ensures { result.now ≡ read_code self.now }
    {
        let bytes: &'a [u8] = self.bytes;
        &bytes[usize::from(self.code_at)..usize::from(self.check_at)]
    }

    /// The check code of the redundancy layer, empty where its length is 0. It isn't judged.
    #[inline]
    pub fn check_bytes(&self) -> &'a [u8]
        ensures { result.now ≡ (value_of self.now).check_bytes }
    {
        let bytes: &'a [u8] = self.bytes;
        &bytes[usize::from(self.check_at)..]
    }
}

#[tactic(auto, unfolding(crate::specs::Pdu::value_of, crate::specs::Pdu::read_code))]
impl<'a> Pdu<'a> {
    ghost use Rattle.rasta_pdu.specs.Pdu.{value_of, read_code, payload_of, numbers_of};

    // The numbers of both layers.
    fn numbers(&self) -> [u32; 7]
        ensures { result ≡ numbers_of (value_of self.now) }
    {
        let (kind, reserve) = (u32::from(self.kind.number()), u32::from(self.reserve()));
        [
            kind,
            reserve,
            self.number(),
            self.sn(),
            self.cs(),
            self.ts(),
            self.cts(),
        ]
    }

    // The payload, which is the spelling of the body.
    fn payload(&self) -> &'a [u8]
        ensures { result.now ≡ payload_of (value_of self.now).safety.body }
    {
        let bytes: &'a [u8] = self.bytes;
        spelling(self.kind, &bytes[PAYLOAD_AT..usize::from(self.code_at)])
    }

    // Whether both have the same payload and the same codes.
    fn has_bytes_of(&self, other: &Pdu<'a>) -> bool
        ensures { result ≡ eq_of_both (on (λ d. payload_of (value_of d).safety.body) (pointwise ◌==◌)) (eq_of_both (on read_code (pointwise ◌==◌))
            (on (λ d. (value_of d).check_bytes) (pointwise ◌==◌))) self.now other.now }
    {
        self.payload() == other.payload()
            && self.code() == other.code()
            && self.check_bytes() == other.check_bytes()
    }
}

// All fields and both codes are compared. Ids and lengths aren't.
impl<'a> PartialEq for Pdu<'a> {
    ghost use Rattle.rasta_pdu.specs.Pdu.{value_of, read_code, payload_of, numbers_of};

    ghost eq = { eq_of_both (on (λ d. numbers_of (value_of d)) (pointwise ◌==◌))
        (eq_of_both (on (λ d. payload_of (value_of d).safety.body) (pointwise ◌==◌)) (eq_of_both (on read_code (pointwise ◌==◌))
        (on (λ d. (value_of d).check_bytes) (pointwise ◌==◌)))) };

    ghost laws = { partial_equiv_from_equiv (Prim.search (comparing, rules)) };

    fn eq(&self, other: &Pdu<'a>) -> bool {
        self.numbers() == other.numbers() && self.has_bytes_of(other)
    }
}

impl<'a> Eq for Pdu<'a> {
    ghost laws = { Prim.search (comparing, rules) };
}

impl<'a> fmt::Debug for Pdu<'a> {
    fn fmt<W: fmt::Write>(&self, f: &mut fmt::Formatter<W>) -> fmt::Result {
        f.debug_struct("Pdu")
            .field("number", &self.number())
            .field("sn", &self.sn())
            .field("cs", &self.cs())
            .field("ts", &self.ts())
            .field("cts", &self.cts())
            .field("reserve", &self.reserve())
            .field("kind", &self.kind)
            .field("body", &self.body())
            .field("code", &self.code())
            .field("check_bytes", &self.check_bytes())
            .finish()
    }
}
