//! The fields of a datagram, as far as it goes.
ghost use Rattle.std.specs.Prelude.{◌≡◌, ◌+◌, ◌≤◌, length};
ghost use Rattle.std.specs.Option.{option_and_then};
ghost use Rattle.rasta_pdu.specs.Fields.{ending_in, field_at, fields_of, opening_in};
ghost use Rattle.rasta_pdu.specs.Pdu.{kind_of, little_at};

use crate::kind::Kind;
use crate::layout::{
    CS_AT, CTS_AT, LENGTH_AT, NUMBER_AT, REASON_AT, RECEIVER_AT, SAFETY_AT, SENDER_AT, SENDMAX_AT,
    SN_AT, TS_AT, TYPE_AT, VERSION_LEN,
};
use byteorder::{ByteOrder, LittleEndian};

/// The number in the two bytes from this place on, the lowest byte first.
#[inline]
pub fn u16_at(bytes: &[u8], place: usize) -> u16
    requires { place + 2 ≤ length bytes.now }
    ensures { result ≡ little_at 2 place bytes.now }
{
    LittleEndian::read_u16(&bytes[place..])
}

/// The number in the four bytes from this place on, the lowest byte first.
#[inline]
pub fn u32_at(bytes: &[u8], place: usize) -> u32
    requires { place + 4 ≤ length bytes.now }
    ensures { result ≡ little_at 4 place bytes.now }
{
    LittleEndian::read_u32(&bytes[place..])
}

/// The same of two bytes, if the bytes go so far.
#[inline]
pub fn u16_in(bytes: &[u8], place: usize) -> Option<u16>
    ensures { result ≡ field_at 2 place bytes.now }
{
    if bytes.len().saturating_sub(place) < 2 {
        return None;
    }
    Some(u16_at(bytes, place))
}

#[inline]
fn u32_in(bytes: &[u8], place: usize) -> Option<u32>
    ensures { result ≡ field_at 4 place bytes.now }
{
    if bytes.len().saturating_sub(place) < 4 {
        return None;
    }
    Some(u32_at(bytes, place))
}

/// The fields of a datagram before its payload, but for the reserve: those that it goes as far as.
#[derive(Clone, Copy)]
pub struct Fields {
    /// The length of the datagram, as it stands there.
    pub length: Option<u16>,

    /// The redundancy layer's sequence number.
    pub number: Option<u32>,

    /// The length of the safety PDU, as it stands there.
    pub safety_length: Option<u16>,

    /// The number that stands as the type.
    pub type_number: Option<u16>,
    pub receiver: Option<u32>,
    pub sender: Option<u32>,
    pub sn: Option<u32>,
    pub cs: Option<u32>,
    pub ts: Option<u32>,
    pub cts: Option<u32>,
}

impl Fields {
    /// The fields of a datagram.
    #[inline]
    pub fn of(datagram: &[u8]) -> Fields
        ensures { result ≡ fields_of datagram.now }
    {
        Fields {
            length: u16_in(datagram, LENGTH_AT),
            number: u32_in(datagram, NUMBER_AT),
            safety_length: u16_in(datagram, SAFETY_AT),
            type_number: u16_in(datagram, TYPE_AT),
            receiver: u32_in(datagram, RECEIVER_AT),
            sender: u32_in(datagram, SENDER_AT),
            sn: u32_in(datagram, SN_AT),
            cs: u32_in(datagram, CS_AT),
            ts: u32_in(datagram, TS_AT),
            cts: u32_in(datagram, CTS_AT),
        }
    }

    /// The type, if it is one that PDUs have.
    #[inline]
    pub fn kind(&self) -> Option<Kind>
        ensures { result ≡ option_and_then kind_of self.now.type_number }
    {
        Kind::of(self.type_number?)
    }
}

/// The version and N_sendmax of an opening, by its payload, if it goes so far.
pub fn opening_in(payload: &[u8]) -> Option<([u8; 4], u16)>
    ensures { result ≡ opening_in payload.now }
{
    let sendmax = u16_in(payload, SENDMAX_AT)?;
    let mut version = [0; 4];
    version.copy_from_slice(&payload[..VERSION_LEN]);
    Some((version, sendmax))
}

/// Detail and reason of a disconnection request, by its payload, if it goes so far.
pub fn ending_in(payload: &[u8]) -> Option<(u16, u16)>
    ensures { result ≡ ending_in payload.now }
{
    let reason = u16_in(payload, REASON_AT)?;
    Some((u16_at(payload, 0), reason))
}
