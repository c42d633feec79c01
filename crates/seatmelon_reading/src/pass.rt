//! The records of a capture, one after the other: what crosses by them, and what is noted of them.
ghost use Rattle.std.specs.Prelude.{◌≡◌, ◌≢◌, ◌≤◌, ◌⊎◌, false, true, suc, ◌++◌, ◌∷◌, [], List, length, Ok, Err, None, Some, IfErr, OnOk};
ghost use Rattle.std.specs.Option.{ForSome};
ghost use Rattle.rasta_pcap.specs.Captured.{Captured, numbered};
ghost use Rattle.rasta_pcap.specs.Fault.{no_memory, read_failed};
ghost use Rattle.rasta_udp.specs.Frame.{packet_in, packet_of};
ghost use Rattle.rasta_pdu.specs.Params.{IsWindow};
ghost use Rattle.rasta_check.specs.Capture.Building.{crossed_in};
ghost use Rattle.rasta_check.specs.Capture.Crossing.{nothing_crossed};
ghost use Rattle.seatmelon_reading.specs.Noted.{AreNotes, is_left_out};
ghost use Rattle.seatmelon_reading.specs.Sights.{IsSightOf};
ghost use Rattle.seatmelon_reading.specs.Tapes.{taped_in};
ghost use Rattle.seatmelon_reading.specs.Told.{IsAskedFor, due_of};
ghost use Rattle.seatmelon_reading.specs.Window.{StandsSo};

use crate::capture_refusal::CaptureRefusal;
use crate::notes::{Notes, Sighting};
use crate::sight::Sight;
use crate::tape::Tape;
use crate::times::time_told;
use crate::window::{WindowPlace, window_place};
use rasta_check::StoreBuilder;
use rasta_pcap::walk::Visitor;
use rasta_pcap::{CaptureTime, Fault, Record};
use rasta_pdu::Params;
use rasta_udp::Datagram;
use std::alloc::Global;

/// A reading on its way.
#[derive(Drop)]
pub struct Pass<'a> {
    alloc: Global,
    pub(crate) params: Params,
    // The records that are left out.
    pub(crate) without: &'a [u32],
    pub(crate) builder: StoreBuilder,
    pub(crate) refusal: Option<CaptureRefusal>,
    pub(crate) notes: Notes,
    // The packets in the window that are behind what crossed.
    pub(crate) unjudged: Tape,
    ghost window: { IsWindow params.first_record params.last_record },
    ghost recorded: { (crossed_in builder).params ≡ params },
    ghost told: { ForSome refusal (λ r. (r.fault ≢ no_memory) × (r.fault ≢ read_failed)) },
    ghost due: { ForSome refusal (λ r. r.next_number ≡ due_of (crossed_in builder) r.fault) },
    ghost wanted: { ForSome refusal (λ r. ForSome r.wanted (IsAskedFor params r)) },
    ghost taping: { unjudged.is_kept ≡ true },
}

impl<'a> Pass<'a> {
    ghost use Rattle.seatmelon_reading.specs.Reading.{IsSameBut, StaysOnceRefused, after_end, after_next, standing_in};
    ghost use Rattle.seatmelon_reading.specs.Passing.{KeepsNext, KeepsStill, TellsNext, TellsStill};
    ghost use Rattle.seatmelon_reading.specs.Told.{IsMadeOf};

    /// Before the first record.
    pub fn new(
        alloc: Global,
        params: &Params,
        without: &'a [u32],
        zero_is_no_time: bool,
        is_taped: bool,
    ) -> Pass<'a>
        ensures params { result.params ≡ params.now }
        ensures without { result.without.now ≡ without.now }
        ensures standing { standing_in result ≡ Ok (nothing_crossed params.now) }
        ensures noted { AreNotes params.now without.now [] result.notes }
        ensures untimed { result.notes.zero_is_no_time ≡ zero_is_no_time }
        ensures unjudged { taped_in result.unjudged ≡ [] }
    {
        Pass {
            alloc,
            params: *params,
            without,
            builder: StoreBuilder::new(alloc, *params),
            refusal: None,
            notes: Notes::new(alloc, zero_is_no_time, is_taped),
            unjudged: Tape::new(alloc, true),
        }
    }

    // Keeps why the capture is refused. A lack of memory, and a failed read, are errors.
    fn refuse(&mut self, fault: Fault, frame: &[u8], time: Option<CaptureTime>) -> Result<(), Fault>
        ensures standing { OnOk result (standing_in self.new ≡ Err fault) }
        ensures made { OnOk result (ForSome self.new.refusal (IsMadeOf self.old.params (crossed_in self.old.builder) fault frame.now time self.old.notes)) }
        ensures told { OnOk result ((fault ≢ no_memory) × (fault ≢ read_failed)) }
        ensures kept { IsSameBut self.old self.new }
        ensures behind { (crossed_in self.new.builder ≡ crossed_in self.old.builder) × (self.new.unjudged ≡ self.old.unjudged) }
        ensures err { IfErr result (λ f. (f ≡ no_memory) ⊎ (f ≡ read_failed)) }
    {
        if fault.is_failure() {
            return Err(Fault::at(fault.number, 0));
        }
        let store = self.builder.store();
        let refusal = CaptureRefusal::new(
            self.alloc,
            &self.params,
            store,
            &self.notes,
            fault,
            frame,
            time,
        )?;
        self.refusal = Some(refusal);
        Ok(())
    }

    // Takes in a packet of the window, where nothing is refused. A refused one is kept.
    fn take(
        &mut self,
        record: &Record<'_>,
        time: Option<CaptureTime>,
        found: &Datagram<'_>,
    ) -> Result<(), Fault>
        requires none { self.old.refusal ≡ None }
        requires inside { (self.old.params.first_record ≤ «record».now.number) × («record».now.number ≤ self.old.params.last_record) }
        requires stays { is_left_out self.old.without.now «record».now.number ≡ false }
        requires found { packet_in self.old.params.channels «record».now.bytes.now ≡ Ok (Some (packet_of found.now)) }
        ensures standing { OnOk result (standing_in self.new
            ≡ after_next self.old.params self.old.without.now (standing_in self.old) («record».now.number, «record».now.bytes.now)) }
        ensures told { OnOk result (TellsNext self.old self.new («record».now.number, «record».now.bytes.now) time) }
        ensures unjudged { OnOk result (KeepsNext self.old self.new («record».now.number, «record».now.bytes.now)) }
        ensures kept { IsSameBut self.old self.new }
        ensures err { IfErr result (λ f. (f ≡ no_memory) ⊎ (f ≡ read_failed)) }
    {
        match self.builder.add_packet(record.number, found) {
            Ok(()) => Ok(()),
            Err(fault) => {
                self.refuse(fault, record.bytes, time)?;
                self.unjudged.add(self.alloc, record.number, found)?;
                Ok(())
            }
        }
    }

    // Keeps a packet of the window behind the refused one, and looks at it.
    fn look_at(
        &mut self,
        record: &Record<'_>,
        time: Option<CaptureTime>,
        found: &Datagram<'_>,
    ) -> Result<(), Fault>
        requires inside { (self.old.params.first_record ≤ «record».now.number) × («record».now.number ≤ self.old.params.last_record) }
        requires stays { is_left_out self.old.without.now «record».now.number ≡ false }
        requires found { packet_in self.old.params.channels «record».now.bytes.now ≡ Ok (Some (packet_of found.now)) }
        ensures standing { OnOk result (standing_in self.new ≡ standing_in self.old) }
        ensures told { OnOk result (TellsNext self.old self.new («record».now.number, «record».now.bytes.now) time) }
        ensures unjudged { OnOk result (KeepsNext self.old self.new («record».now.number, «record».now.bytes.now)) }
        ensures kept { IsSameBut self.old self.new }
        ensures err { IfErr result (λ f. (f ≡ no_memory) ⊎ (f ≡ read_failed)) }
    {
        self.unjudged.add(self.alloc, record.number, found)?;
        let sighting = Sighting {
            record: record.number,
            time: time_told(self.notes.zero_is_no_time, time),
            channel: found.channel,
            sender: found.side,
        };
        match &mut self.refusal {
            Some(refusal) => refusal.look_at(self.alloc, &self.params, sighting, found),
            None => Ok(()),
        }
    }

    // Judges what a record of the window holds.
    fn judge(
        &mut self,
        record: &Record<'_>,
        time: Option<CaptureTime>,
        sight: &Sight<'_>,
    ) -> Result<(), Fault>
        requires inside { (self.old.params.first_record ≤ «record».now.number) × («record».now.number ≤ self.old.params.last_record) }
        requires sight { IsSightOf self.old.params self.old.without.now («record».now.number, «record».now.bytes.now) sight.now }
        ensures standing { OnOk result (standing_in self.new
            ≡ after_next self.old.params self.old.without.now (standing_in self.old) («record».now.number, «record».now.bytes.now)) }
        ensures told { OnOk result (TellsNext self.old self.new («record».now.number, «record».now.bytes.now) time) }
        ensures unjudged { OnOk result (KeepsNext self.old self.new («record».now.number, «record».now.bytes.now)) }
        ensures kept { IsSameBut self.old self.new }
        ensures err { IfErr result (λ f. (f ≡ no_memory) ⊎ (f ≡ read_failed)) }
    {
        match sight {
            Sight::Packet(found) if self.refusal.is_none() => self.take(record, time, found),
            Sight::Packet(found) => self.look_at(record, time, found),
            Sight::Unreadable(fault) if self.refusal.is_none() => {
                let fault = Fault::at(fault.number, record.number);
                self.refuse(fault, record.bytes, time)
            }
            Sight::Unreadable(_) => Ok(()),
            Sight::LeftOut => Ok(()),
            Sight::Passed(_) => Ok(()),
        }
    }

    // Takes in what a record holds, which stands so to the window.
    fn pass(
        &mut self,
        record: &Record<'_>,
        time: Option<CaptureTime>,
        place: WindowPlace,
        sight: &Sight<'_>,
    ) -> Result<(), Fault>
        requires stands { StandsSo self.old.params «record».now.number place }
        requires sight { IsSightOf self.old.params self.old.without.now («record».now.number, «record».now.bytes.now) sight.now }
        ensures standing { OnOk result (standing_in self.new
            ≡ after_next self.old.params self.old.without.now (standing_in self.old) («record».now.number, «record».now.bytes.now)) }
        ensures told { OnOk result (TellsNext self.old self.new («record».now.number, «record».now.bytes.now) time) }
        ensures unjudged { OnOk result (KeepsNext self.old self.new («record».now.number, «record».now.bytes.now)) }
        ensures kept { IsSameBut self.old self.new }
        ensures err { IfErr result (λ f. (f ≡ no_memory) ⊎ (f ≡ read_failed)) }
    {
        match place {
            WindowPlace::Inside => self.judge(record, time, sight),
            WindowPlace::Before | WindowPlace::Behind => Ok(()),
        }
    }

    // Takes in the next record, of which this time was read.
    fn add(&mut self, record: &Record<'_>, time: Option<CaptureTime>) -> Result<(), Fault>
        ensures standing { OnOk result (standing_in self.new
            ≡ after_next self.old.params self.old.without.now (standing_in self.old) («record».now.number, «record».now.bytes.now)) }
        ensures noted { OnOk result ((records : List Captured) (r : Captured) → AreNotes self.old.params self.old.without.now records self.old.notes
            → numbered r ≡ («record».now.number, «record».now.bytes.now) → r.number ≡ suc (length records) → time ≡ Some r.time
            → AreNotes self.old.params self.old.without.now (records ++ r ∷ []) self.new.notes) }
        ensures told { OnOk result (TellsNext self.old self.new («record».now.number, «record».now.bytes.now) time) }
        ensures unjudged { OnOk result (KeepsNext self.old self.new («record».now.number, «record».now.bytes.now)) }
        ensures kept { (self.new.params ≡ self.old.params) × (self.new.without.now ≡ self.old.without.now)
            × (self.new.notes.zero_is_no_time ≡ self.old.notes.zero_is_no_time) }
        ensures stays { StaysOnceRefused self.old self.new }
        ensures err { IfErr result (λ f. (f ≡ no_memory) ⊎ (f ≡ read_failed)) }
    {
        let place = window_place(&self.params, record.number);
        let sight = Sight::of(&self.params, self.without, record);
        self.pass(record, time, place, &sight)?;
        self.notes
            .note(self.alloc, record.number, time, place, &sight)
    }

    // Takes in the fault that ended the reading, with what was read of its record.
    fn add_fault(&mut self, fault: Fault, frame: &[u8]) -> Result<(), Fault>
        ensures standing { OnOk result (standing_in self.new ≡ after_end self.old.params (standing_in self.old) fault) }
        ensures told { OnOk result ((fault ≢ no_memory) × (fault ≢ read_failed)) }
        ensures still { OnOk result (TellsStill self.old self.new fault.place) }
        ensures unjudged { OnOk result (KeepsStill self.old self.new) }
        ensures kept { IsSameBut self.old self.new }
        ensures err { IfErr result (λ f. (f ≡ no_memory) ⊎ (f ≡ read_failed)) }
    {
        if fault.is_failure() {
            return Err(Fault::at(fault.number, 0));
        }
        if self.refusal.is_none() && fault.place <= self.params.last_record() {
            self.refuse(fault, frame, None)
        } else {
            Ok(())
        }
    }
}

impl<'a> Visitor for Pass<'a> {
    ghost use Rattle.std.proofs.Common.{refl, ◌∙◌};
    ghost use Rattle.seatmelon_reading.specs.Passing.{HasEnded, HasSeen};

    ghost seen = { HasSeen };

    ghost ended = { HasEnded };

    ghost same = { λ old new. (new.params ≡ old.params) × (new.without.now ≡ old.without.now) × (new.notes.zero_is_no_time ≡ old.notes.zero_is_no_time) };

    ghost refused = { λ fault. (fault ≡ no_memory) ⊎ (fault ≡ read_failed) };

    fn visit(&mut self, found: &Record<'_>, time: Option<CaptureTime>) -> Result<(), Fault> {
        self.add(found, time)
    }

    fn end(&mut self, fault: Fault, bytes: &[u8]) -> Result<(), Fault> {
        self.add_fault(fault, bytes)
    }

    ghost same_always = { λ pass. (refl, refl, refl) };

    ghost same_then = { λ a b c first next. (next.0 ∙ first.0, next.1 ∙ first.1, next.2 ∙ first.2) };
}
