//! Why a capture is refused, and what its other packets say of the refused one.
ghost use Rattle.std.specs.Prelude.{◌≡◌, ◌⊎◌, ◌<◌, ◌^◌, Some, IfErr, IfOk, IfSome, IsSomeAnd};
ghost use Rattle.std.specs.Option.{ForSome};
ghost use Rattle.rasta_pcap.specs.Fault.{no_memory};
ghost use Rattle.rasta_udp.specs.Frame.{packet_of};
ghost use Rattle.seatmelon_reading.specs.Codes.{codes_next};
ghost use Rattle.seatmelon_reading.specs.Told.{HasBeenFound, due_of, number_due};

use crate::code_count::CodeCount;
use crate::notes::{Notes, Sighting};
use crate::times::time_told;
use rasta_check::{SentList, SpanList, Store};
use rasta_pcap::{CaptureTime, Fault, Side};
use rasta_pdu::{Fields, Params, decode};
use rasta_udp::{Datagram, datagram_in};
use std::alloc::Global;

/// A packet beside the refused one, and its datagram.
#[derive(Drop)]
pub struct Beside {
    pub sighting: Sighting,
    pub bytes: Vec<u8>,
}

// A packet of an end is asked for, with this redundancy number.
#[derive(Clone, Copy)]
struct Wanted {
    side: Side,
    number: u32,
}

/// A capture's fault, the refused record, and what the other packets say of it.
#[derive(Drop)]
pub struct CaptureRefusal {
    pub fault: Fault,

    /// The bytes of the refused record, as far as they were read.
    pub frame: Vec<u8>,

    /// When the refused record was captured, if it was read whole and has a time.
    pub time: Option<CaptureTime>,

    /// The safety codes of the packets of the connection from the refused one on.
    pub codes: CodeCount,

    /// The number that the end of the refused packet was to use next.
    pub next_number: Option<u32>,

    /// The first other packet of the end with the number of the refused one; where numbers have a gap, the first later
    /// one with the number that was due.
    pub beside: Option<Beside>,

    // What is still looked for behind the refused record.
    wanted: Option<Wanted>,
}

// A copy of these bytes.
fn copied(alloc: Global, bytes: &[u8]) -> Result<Vec<u8>, Fault>
    ensures copy { IfOk result (λ copy. copy.items ≡ bytes.now) }
    ensures err { IfErr result (λ f. f ≡ no_memory) }
{
    let mut copy = Vec::new(alloc);
    copy.extend_from_slice(bytes)?;
    Ok(copy)
}

// The number that an end was to use next, after what crossed; none where it sent nothing.
fn next_number(list: &SpanList<'_>) -> Option<u32>
    ensures { result ≡ number_due list.now }
{
    let (_, first) = list.get(0)?;
    Some(first.number().wrapping_add(list.len()))
}

// That of the end of which a fault speaks.
fn due_of(store: &Store, fault: Fault) -> Option<u32>
    ensures { result ≡ due_of store.now fault }
{
    next_number(&store.list_of(fault.end?))
}

// The first copy that crossed with the number that is asked for.
fn packet_beside(
    alloc: Global,
    store: &Store,
    notes: &Notes,
    wanted: Wanted,
) -> Result<Option<Beside>, Fault>
    ensures found { IfOk result (λ o. ForSome o (HasBeenFound store.now notes.now.packets.items wanted)) }
    ensures err { IfErr result (λ f. f ≡ no_memory) }
{
    let Some(position) = store.list_of(wanted.side).position_of(wanted.number) else {
        return Ok(None);
    };
    let Some((place, bytes)) = store.datagram(wanted.side, position) else {
        return Ok(None);
    };
    match notes.packets.get(place as usize) {
        Some(sighting) => Ok(Some(Beside {
            sighting: *sighting,
            bytes: copied(alloc, bytes)?,
        })),
        None => Ok(None),
    }
}

impl CaptureRefusal {
    ghost use Rattle.seatmelon_reading.specs.Told.{IsAskedFor, IsFound, IsMadeOf, IsSameRefusal};

    /// Of a record with these bytes, of which this time was read, if it was read whole, after what crossed before it.
    ///
    /// Refused by [`Fault::NO_MEMORY`] alone.
    pub fn new(
        alloc: Global,
        params: &Params,
        store: &Store,
        notes: &Notes,
        fault: Fault,
        frame: &[u8],
        time: Option<CaptureTime>,
    ) -> Result<CaptureRefusal, Fault>
        ensures made { IfOk result (IsMadeOf params.now store.now fault frame.now time notes.now) }
        ensures err { IfErr result (λ f. f ≡ no_memory) }
    {
        let mut refusal = CaptureRefusal {
            fault,
            frame: copied(alloc, frame)?,
            time: time_told(notes.zero_is_no_time, time),
            codes: CodeCount::of_record(params, frame, time),
            next_number: due_of(store, fault),
            beside: None,
            wanted: None,
        };
        if let Some(wanted) = refusal.asks_for(params) {
            refusal.wanted = Some(wanted);
            refusal.beside = packet_beside(alloc, store, notes, wanted)?;
        }
        Ok(refusal)
    }

    // The packet that a fault which speaks of an end asks for: after a gap the one that was due, else the one with the
    // number of the refused packet.
    fn asks_for(&self, params: &Params) -> Option<Wanted>
        ensures { IfSome result (IsAskedFor params.now self.now) }
    {
        let side = self.fault.end?;
        let packet = datagram_in(&self.frame, params.channel()).ok()??;
        let number = match self.fault.number {
            Fault::NUMBER_GAP => self.next_number?,
            _ => Fields::of(packet.payload).number?,
        };
        Some(Wanted { side, number })
    }

    /// Looks at a packet of the connection behind the refused record: at its safety code, and whether it is the one that
    /// is asked for.
    ///
    /// Refused by [`Fault::NO_MEMORY`] alone.
    pub fn look_at(
        &mut self,
        alloc: Global,
        params: &Params,
        sighting: Sighting,
        packet: &Datagram<'_>,
    ) -> Result<(), Fault>
        ensures kept { IsSameRefusal self.old self.new }
        ensures beside { ForSome self.new.beside (λ b. (self.old.beside ≡ Some b)
            ⊎ IsSomeAnd self.old.wanted (λ wanted. IsFound wanted sighting (packet_of packet.now) b)) }
        ensures codes { self.old.codes.judged < 2 ^ 32 → self.old.codes.fitting < 2 ^ 32
            → self.new.codes ≡ codes_next params.now self.old.fault.place sighting.«record» (packet_of packet.now) self.old.codes }
        ensures err { IfErr result (λ f. f ≡ no_memory) }
    {
        if self.fault.place <= sighting.record {
            self.codes = self.codes.with_packet(params, packet);
        }
        self.seek(alloc, params, sighting, packet)
    }

    // Looks at a packet behind the refused record, whether it is the one that is asked for.
    fn seek(
        &mut self,
        alloc: Global,
        params: &Params,
        sighting: Sighting,
        packet: &Datagram<'_>,
    ) -> Result<(), Fault>
        ensures kept { IsSameRefusal self.old self.new }
        ensures codes { self.new.codes ≡ self.old.codes }
        ensures beside { ForSome self.new.beside (λ b. (self.old.beside ≡ Some b)
            ⊎ IsSomeAnd self.old.wanted (λ wanted. IsFound wanted sighting (packet_of packet.now) b)) }
        ensures err { IfErr result (λ f. f ≡ no_memory) }
    {
        let Some(wanted) = self.wanted else {
            return Ok(());
        };
        if self.beside.is_some() || packet.side != wanted.side {
            return Ok(());
        }
        match decode(params, packet.side, packet.payload) {
            Ok(pdu) if pdu.number() == wanted.number => {
                let bytes = copied(alloc, packet.payload)?;
                self.beside = Some(Beside { sighting, bytes });
                Ok(())
            }
            _ => Ok(()),
        }
    }
}
