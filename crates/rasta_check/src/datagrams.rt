//! Datagrams one after the other in one vector.
ghost use Rattle.std.specs.Prelude.{◌≡◌, ◌+◌, ◌<◌, ◌≤◌, ◌^◌, [], ◌∷◌, ◌++◌, length, map, slice_get, option_map, OnOk, OnErr};
ghost use Rattle.rasta_check.specs.Internals.Datagrams.{LieIn, KeptDatagrams, keeping, kept_by, kept_in, kept_of, nothing_kept};

use rasta_pcap::Side;
use std::alloc::{AllocError, Global};
use std::marker::Model;

/// Where a datagram stands, and the place at which it crossed.
#[derive(Clone, Copy)]
pub(crate) struct Span {
    start: usize,
    place: u32,
    len: u16,
}

// The place and the bytes of the datagram at a position.
fn datagram_at<'a>(bytes: &'a [u8], spans: &[Span], position: u32) -> Option<(u32, &'a [u8])>
    requires { LieIn (length bytes.now) spans.now }
    ensures { option_map kept_of result ≡ slice_get (map (kept_in bytes.now) spans.now) position }
{
    let span = spans.get(position as usize)?;
    let end = span.start + usize::from(span.len);
    Some((span.place, &bytes[span.start..end]))
}

// Adds a datagram after the others. Without memory for it all stays as it was.
fn keep(
    bytes: &mut Vec<u8>,
    spans: &mut Vec<Span>,
    place: u32,
    datagram: &[u8],
) -> Result<(), AllocError>
    requires { length datagram.now < 2 ^ 16 }
    ensures bytes { OnOk result (bytes.new.items ≡ bytes.old.items ++ datagram.now) }
    ensures spans { OnOk result (spans.new.items ≡ spans.old.items
        ++ record { start = length bytes.old.items; place = place; len = length datagram.now } ∷ []) }
    ensures err { OnErr result ((bytes.new.items ≡ bytes.old.items) × (spans.new.items ≡ spans.old.items)) }
{
    let span = Span {
        start: bytes.len(),
        place,
        len: datagram.len() as u16,
    };
    spans.try_reserve(1)?;
    bytes.extend_from_slice(datagram)?;
    spans.push_reserved(span);
    Ok(())
}

/// Datagrams of both sides, in the order in which they came, and those of each side by position.
#[derive(Drop)]
pub(crate) struct Datagrams {
    bytes: Vec<u8>,
    client: Vec<Span>,
    server: Vec<Span>,
}

impl Model for Datagrams {
    ghost Value = { KeptDatagrams };

    ghost view = { λ d. record {
      bytes = d.bytes.items;
      client = map (kept_in d.bytes.items) d.client.items;
      server = map (kept_in d.bytes.items) d.server.items;
    } };

    ghost invariant = { λ d. LieIn (length d.bytes.items) d.client.items × LieIn (length d.bytes.items) d.server.items };
}

impl Datagrams {
    pub(crate) fn new(alloc: Global) -> Datagrams
        ensures { result ≡ nothing_kept }
    {
        Datagrams {
            bytes: Vec::new(alloc),
            client: Vec::new(alloc),
            server: Vec::new(alloc),
        }
    }

    // The bytes of all.
    pub(crate) fn bytes(&self) -> &[u8]
        ensures { result.now ≡ self.now.bytes }
    {
        &self.bytes
    }

    // How many datagrams a side has.
    pub(crate) fn len(&self, side: Side) -> usize
        ensures { result ≡ length (kept_by self.now side) }
    {
        match side {
            Side::Client => self.client.len(),
            Side::Server => self.server.len(),
        }
    }

    // The place and the bytes of the datagram at a position of a side.
    pub(crate) fn get(&self, side: Side, position: u32) -> Option<(u32, &[u8])>
        ensures { option_map kept_of result ≡ slice_get (kept_by self.now side) position }
    {
        match side {
            Side::Client => datagram_at(&self.bytes, &self.client, position),
            Side::Server => datagram_at(&self.bytes, &self.server, position),
        }
    }

    // Adds a datagram of a side. Without memory for it all stays as it was.
    #[tactic(auto, using(crate::proofs::Internals::DatagramGrowth::both_ok, crate::proofs::Internals::DatagramGrowth::kept_grown, crate::proofs::Internals::DatagramGrowth::same_kept))]
    pub(crate) fn push(&mut self, side: Side, place: u32, datagram: &[u8]) -> Result<(), AllocError>
        requires { length datagram.now < 2 ^ 16 }
        ensures ok { OnOk result (self.new ≡ keeping self.old side (record { place = place; bytes = datagram.now })) }
        ensures err { OnErr result (self.new ≡ self.old) }
    {
        match side {
            Side::Client => keep(&mut self.bytes, &mut self.client, place, datagram),
            Side::Server => keep(&mut self.bytes, &mut self.server, place, datagram),
        }
    }
}
