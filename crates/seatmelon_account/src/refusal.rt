//! What is told of a refusal.
ghost use Rattle.std.specs.Prelude.{◌≡◌, ◌-◌, ◌==◌, ◌&&◌, ℕ, List, length, Option, None, Some, option_map, IfErr, IfOk};
ghost use Rattle.rasta_pcap.specs.Fault.{no_memory};
ghost use Rattle.rasta_udp.specs.Frame.{packet_of};
ghost use Rattle.rasta_check.specs.Capture.Crossing.{IsCrossing};
ghost use Rattle.rasta_build.specs.Stopping.{IsMet};
ghost use Rattle.rasta_verdict.specs.Given.{AreScripts, IsUnscripted};
ghost use Rattle.seatmelon_account.specs.Crossed as crossed_specs;
ghost use Rattle.seatmelon_account.specs.Refusals.{IsRefusal, TellsPlace, TellsRecord};
ghost use Rattle.seatmelon_account.specs.Troubles.{TellsPacket, lengths_if, may_be_lengths, packet_refused};

use crate::crossed::{Crossed, has_opening, packet_at};
use crate::entries::{RefusedEntry, refused_entry};
use crate::rules::{BrokenRule, rule_met};
use crate::trouble::{Trouble, trouble_of};
use rasta_build::{Obstacle, find_obstacle};
use rasta_cert::Certificate;
use rasta_check::Store;
use rasta_pcap::{CaptureTime, Fault, Side};
use rasta_pdu::{Kind, Params};
use rasta_udp::{Datagram, datagram_in};
use seatmelon_packets::{Fits, Trials, features_by};
use seatmelon_reading::{CaptureRefusal, CodeCount};
use std::alloc::Global;

/// The packet of a refused record.
#[derive(Drop)]
pub struct RefusedPacket<'a> {
    pub sender: Side,

    /// The number of its channel, from 1.
    pub channel: u8,

    pub datagram: &'a [u8],
    pub trouble: Trouble<'a>,

    /// Whether no packet of the connection crossed before it.
    pub is_first: bool,

    /// The lengths of the codes that it fits, if it is the first and what is wrong with it may be a wrong length.
    pub lengths: Option<Fits>,
}

/// What a refusal speaks of.
#[derive(Drop)]
pub enum Subject<'a> {
    /// The header of the file.
    Header,

    /// A record, from 1, when it was captured if it was read whole, its packet, if it holds one of the recorded
    /// channels, and the safety codes of the packets from there on.
    Record {
        record: u32,
        time: Option<CaptureTime>,
        packet: Option<RefusedPacket<'a>>,
        codes: CodeCount,
    },

    /// A line of the certificate, from 1.
    Line(u32),

    /// The packet that can't be explained, and the rule that refuses it, found by a walk beside the verdict.
    Unexplained {
        packet: Option<Crossed<'a>>,
        rule: Option<BrokenRule<'a>>,

        /// Whether no quiet point is recorded, and the first packet opens no connection.
        lacks_opening: bool,

        /// Whether it is a PDU of the opening that the other end sends.
        is_exchanged: bool,
    },

    /// An entry of a script.
    Entry(RefusedEntry<'a>),
}

/// A fault, and what it speaks of.
#[derive(Drop)]
pub struct Refusal<'a> {
    pub fault: Fault,
    pub subject: Subject<'a>,
}

// The datagram of a refused record, if it holds one of the recorded channels.
fn refused_datagram<'a>(params: &Params, refusal: &'a CaptureRefusal) -> Option<Datagram<'a>>
    ensures { option_map packet_of result ≡ packet_refused params.now refusal.now }
{
    datagram_in(&refusal.frame, params.channel()).ok()?
}

// The lengths of the codes that a refused packet fits, if it is the first of all and they may be wrong.
fn lengths_in(store: &Store, fault: Fault, datagram: &[u8]) -> Option<Fits>
    ensures { result ≡ lengths_if (may_be_lengths fault && (length store.now.packets == 0)) datagram.now }
{
    match fault.number {
        Fault::TOO_SHORT | Fault::SAFETY_LENGTH | Fault::PAYLOAD if store.len() == 0 => {
            Some(features_by(&Trials::new(), datagram)?.fits)
        }
        _ => None,
    }
}

// The packet of a refused record, if it holds one of the recorded channels.
fn packet_in<'a>(
    params: &Params,
    store: &Store,
    refusal: &'a CaptureRefusal,
) -> Option<RefusedPacket<'a>>
    ensures { TellsPacket params.now store.now refusal.now result }
{
    let packet = refused_datagram(params, refusal)?;
    Some(RefusedPacket {
        sender: packet.side,
        channel: packet.channel,
        datagram: packet.payload,
        trouble: trouble_of(params, store, refusal, &packet),
        is_first: store.len() == 0,
        lengths: lengths_in(store, refusal.fault, packet.payload),
    })
}

/// What is told of a capture with a fault of its own, behind what crossed.
pub fn capture_refusal<'a>(
    params: &Params,
    store: &Store,
    refusal: &'a CaptureRefusal,
) -> Refusal<'a>
    ensures fault { result.fault ≡ refusal.now.fault }
    ensures told { TellsRecord params.now store.now refusal.now result.subject }
{
    let fault = refusal.fault;
    let subject = match fault.place {
        0 => Subject::Header,
        record => Subject::Record {
            record,
            time: refusal.time,
            packet: packet_in(params, store, refusal),
            codes: refusal.codes,
        },
    };
    Refusal { fault, subject }
}

// Whether no quiet point is recorded, and the first packet opens no connection.
fn lacks_opening(store: &Store) -> bool
    ensures { result ≡ crossed_specs.lacks_opening store.now }
{
    store.params().quiet().is_none() && !has_opening(store)
}

// Whether a packet is a PDU of the opening that the other end sends.
fn is_exchanged(packet: &Option<Crossed<'_>>) -> bool
    ensures { result ≡ crossed_specs.is_exchanged packet.now }
{
    let Some(Crossed { side, pdu, .. }) = packet else {
        return false;
    };
    let Some(pdu) = pdu else {
        return false;
    };
    match side {
        Side::Client => pdu.kind().is(Kind::ConnectionResponse),
        Side::Server => pdu.kind().is(Kind::ConnectionRequest),
    }
}

// What is told of a packet that can't be explained.
fn unexplained<'a>(store: &'a Store, fault: Fault, met: Option<Obstacle>) -> Subject<'a>
    requires crossed { IsCrossing store.now }
    requires found { IsUnscripted store.now None fault }
    requires met { IsMet store.now.params store.now.client store.now.server met }
    ensures { TellsPlace store.now None fault result }
{
    let packet = packet_at(store, fault.place.saturating_sub(1));
    Subject::Unexplained {
        is_exchanged: is_exchanged(&packet),
        packet,
        rule: rule_met(store, met),
        lacks_opening: lacks_opening(store),
    }
}

/// What is told of packets for which no scripts are found. Refused by [`Fault::NO_MEMORY`] alone.
pub fn unfound<'a>(alloc: Global, store: &'a Store, fault: Fault) -> Result<Refusal<'a>, Fault>
    requires { IsUnscripted store.now None fault }
    ensures fault { IfOk result (λ refusal. refusal.fault ≡ fault) }
    ensures told { IfOk result (λ refusal. TellsPlace store.now None fault refusal.subject) }
    ensures err { IfErr result (λ f. f ≡ no_memory) }
{
    let met = find_obstacle(
        alloc,
        &store.params(),
        store.len(),
        &store.client(),
        &store.server(),
    )?;
    let subject = unexplained(store, fault, met);
    Ok(Refusal { fault, subject })
}

/// What is told of the text of a certificate that is refused.
pub fn text_refusal<'a>(store: &Store, text: &[u8], fault: Fault) -> Refusal<'a>
    requires { IsUnscripted store.now (Some text.now) fault }
    ensures fault { result.fault ≡ fault }
    ensures told { TellsPlace store.now (Some text.now) fault result.subject }
{
    Refusal {
        fault,
        subject: Subject::Line(fault.place),
    }
}

/// What is told of packets whose scripts the checker refuses.
pub fn scripts_refusal<'a>(store: &'a Store, fault: Fault, certificate: &Certificate) -> Refusal<'a>
    requires { IsRefusal store.now certificate.now fault }
    ensures fault { result.fault ≡ fault }
    ensures told { (text : Option (List ℕ)) → AreScripts store.now text certificate.now → TellsPlace store.now text fault result.subject }
{
    Refusal {
        fault,
        subject: Subject::Entry(refused_entry(store, certificate, fault)),
    }
}
