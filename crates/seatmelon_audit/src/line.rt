//! A connection on its way through the records of a capture.
ghost use Rattle.std.specs.Prelude.{◌≡◌, ◌≤◌, is_some};
ghost use Rattle.rasta_udp.specs.Frame.{packet_of};
ghost use Rattle.rasta_pdu.specs.Params.{IsWindow};
ghost use Rattle.rasta_check.specs.Capture.Building.{crossed_in};
ghost use Rattle.rasta_check.specs.Capture.Reading.{packet_at};
ghost use Rattle.seatmelon_middle.specs.Packets.{pdu_of, requests};
ghost use Rattle.seatmelon_audit.specs.Records.{subject_behind};
ghost use Rattle.seatmelon_middle.specs.Course.{with_packet};
ghost use Rattle.seatmelon_middle.specs.declared.course.Course.{Course as CourseSoFar};
ghost use Rattle.std.specs.Prelude.{option_map};

use rasta_check::{Shown, StoreBuilder};
use rasta_pcap::{CaptureTime, Fault, Record};
use rasta_pdu::{Datagram, Kind, Params, decode, recorded_packet};
use seatmelon_middle::Course;
use std::alloc::Global;

/// The record that holds a packet: its number, from 1, and when it was captured.
#[derive(Clone, Copy)]
pub struct Stamp {
    pub record: u32,
    pub time: CaptureTime,
}

/// The record that a refusal names: its number, from 1, and when it was captured, if it was read whole.
#[derive(Clone, Copy)]
pub struct Subject {
    pub record: u32,
    pub time: Option<CaptureTime>,
}

/// Why a connection is refused, and which record shows it; none where the fault is of the file's header.
#[derive(Clone, Copy)]
pub struct Refusal {
    pub fault: Fault,
    pub subject: Option<Subject>,
}

/// The first and the last record that hold a packet of a connection in its window.
#[derive(Clone, Copy)]
pub struct Span {
    pub first: Option<Stamp>,
    pub last: Option<Stamp>,
}

/// How a connection stands.
#[derive(Clone, Copy)]
pub enum Standing {
    /// What crosses is stored.
    Reading,

    Refused(Refusal),

    OutOfMemory,
}

/// A connection on its way.
#[derive(Drop)]
pub struct Line {
    pub(crate) params: Params,
    pub(crate) builder: StoreBuilder,

    // The records that hold its packets in the window, by place.
    pub(crate) packets: Vec<Stamp>,
    pub(crate) standing: Standing,

    // Whether its first packet in the window opens the connection, if there was one.
    pub(crate) opens: Option<bool>,

    // The first and the last record that hold one, also where there was no memory.
    pub(crate) span: Span,

    // What its packets in the window show, once it is refused; nothing before.
    pub(crate) shown: Shown,

    // How it goes on, once it is refused; none before.
    pub(crate) course: Option<Course>,

    // The number of the record that was taken in last.
    pub(crate) taken: u32,
    alloc: Global,
    ghost window: { IsWindow params.first_record params.last_record },
    ghost recorded: { (crossed_in builder).params ≡ params },
}

// The record of this number, which was not read whole; none for 0.
fn subject_behind(number: u32) -> Option<Subject>
    ensures { result ≡ subject_behind number }
{
    if number == 0 {
        return None;
    }
    Some(Subject {
        record: number,
        time: None,
    })
}

// Whether a packet is a connection request.
fn is_request(params: &Params, packet: &Datagram<'_>) -> bool
    ensures { result ≡ requests (pdu_of params.now (packet_of packet.now)) }
{
    match decode(params, packet.side, packet.payload) {
        Ok(pdu) => pdu.kind().is(Kind::ConnectionRequest),
        Err(_) => false,
    }
}

// How a connection goes on with its next packet, if that is followed.
fn followed(params: &Params, course: Option<Course>, packet: &Datagram<'_>) -> Option<Course>
    ensures { result ≡ option_map (λ (c : CourseSoFar). with_packet params.now c (packet_of packet.now)) course }
{
    let mut course = course?;
    course.add(params, packet);
    Some(course)
}

impl Span {
    ghost use Rattle.seatmelon_audit.specs.Records.{span_with, stamp_at};

    // With one record more, which was captured at this time.
    fn add(&mut self, number: u32, time: Option<CaptureTime>)
        ensures { self.new ≡ span_with self.old (stamp_at number time) }
    {
        let Some(time) = time else {
            return;
        };
        let stamp = Stamp {
            record: number,
            time,
        };
        if self.first.is_none() {
            self.first = Some(stamp);
        }
        self.last = Some(stamp);
    }
}

impl Line {
    ghost use Rattle.std.specs.Prelude.{None, [], ◌∷◌, ◌⊎◌, ◌++◌, List, option_to_list};
    ghost use Rattle.rasta_udp.specs.Frame.{Packet};
    ghost use Rattle.rasta_check.specs.Capture.Crossing.{Crossing};
    ghost use Rattle.seatmelon_audit.specs.Ends.{EndsBy};
    ghost use Rattle.seatmelon_audit.specs.Lines.{HeldOnce, IsJudged, IsLine, IsStep, Passes, TakesIn};
    ghost use Rattle.seatmelon_audit.specs.Records.{IsNoted, is_held, pushed_at, span_of, span_with, stamp_at};
    ghost use Rattle.seatmelon_audit.specs.Shown.{IsShowing, opens_by, opens_with};
    ghost use Rattle.seatmelon_audit.specs.declared.line.Standing.TheVariants.{OutOfMemory as Short, Reading};
    ghost use Rattle.seatmelon_audit.specs.declared.line.Standing.TheVariants.{Refused as IsRefused};

    /// Before the first record.
    pub fn new(alloc: Global, params: &Params) -> Line
        ensures line { IsLine [] result }
        ensures params { result.params ≡ params.now }
    {
        Line {
            params: *params,
            builder: StoreBuilder::new(alloc, *params),
            packets: Vec::new(alloc),
            standing: Standing::Reading,
            opens: None,
            span: Span {
                first: None,
                last: None,
            },
            shown: Shown::new(alloc, *params),
            course: None,
            taken: 0,
            alloc,
        }
    }

    // Whether a record, if it isn't before the window, holds a packet of the connection.
    fn sees(&self, record: &Record<'_>) -> bool
        ensures { result ≡ is_some (packet_at self.now.params («record».now.number, «record».now.bytes.now)) }
    {
        matches!(recorded_packet(&self.params, record), Ok(Some(_)))
    }

    // Notes a packet of the record with this number, if there is memory for it.
    fn note(&mut self, number: u32, time: Option<CaptureTime>)
        ensures noted { (self.new.standing ≡ Short) ⊎ ((self.new.standing ≡ self.old.standing)
            × IsNoted self.old.packets.items self.new.packets.items number time) }
        ensures kept { (self.new.params ≡ self.old.params) × (self.new.builder ≡ self.old.builder)
            × (self.new.taken ≡ self.old.taken) × (self.new.opens ≡ self.old.opens)
            × (self.new.span ≡ self.old.span) × (self.new.shown ≡ self.old.shown)
            × (self.new.course ≡ self.old.course) }
    {
        let Some(time) = time else {
            return;
        };
        let stamp = Stamp {
            record: number,
            time,
        };
        if self.packets.push(stamp).is_err() {
            self.standing = Standing::OutOfMemory;
        }
    }

    // Whether the packet of a record opens the connection, if it holds one.
    fn opens_by(&self, record: &Record<'_>) -> Option<bool>
        ensures { result ≡ opens_by self.now.params (packet_at self.now.params («record».now.number, «record».now.bytes.now)) }
    {
        match recorded_packet(&self.params, record) {
            Ok(Some(packet)) => Some(is_request(&self.params, &packet)),
            _ => None,
        }
    }

    // Notes whether the packet of a record opens the connection, where it is the first one.
    fn note_opening(&mut self, record: &Record<'_>)
        ensures opens { self.new.opens ≡ opens_with self.old.opens
            (opens_by self.old.params (packet_at self.old.params («record».now.number, «record».now.bytes.now))) }
        ensures kept { (self.new.params ≡ self.old.params) × (self.new.builder ≡ self.old.builder)
            × (self.new.packets.items ≡ self.old.packets.items) × (self.new.standing ≡ self.old.standing)
            × (self.new.shown ≡ self.old.shown) × (self.new.course ≡ self.old.course)
            × (self.new.taken ≡ self.old.taken) × (self.new.span ≡ self.old.span) }
    {
        if self.opens.is_none() {
            self.opens = self.opens_by(record);
        }
    }

    // Refuses the connection. Its packets so far, which all crossed, are taken in again for what they show.
    fn refuse(&mut self, refusal: Refusal)
        ensures standing { (self.new.standing ≡ IsRefused refusal) ⊎ (self.new.standing ≡ Short) }
        ensures shown { IsShowing self.new.standing self.old.params (crossed_in self.old.builder)
            (crossed_in self.old.builder).packets self.new.shown self.new.course }
        ensures kept { (self.new.params ≡ self.old.params) × (self.new.builder ≡ self.old.builder)
            × (self.new.packets.items ≡ self.old.packets.items) × (self.new.opens ≡ self.old.opens)
            × (self.new.taken ≡ self.old.taken) × (self.new.span ≡ self.old.span) }
    {
        match Shown::of_store(self.alloc, self.builder.store()) {
            Ok(shown) => {
                self.shown = shown;
                self.course = Some(Course::of_store(self.builder.store()));
                self.standing = Standing::Refused(refusal);
            }
            Err(_) => self.standing = Standing::OutOfMemory,
        }
    }

    // Takes in a packet of a connection that is refused, for what it shows and how the connection goes on.
    fn see(&mut self, packet: &Datagram<'_>)
        ensures standing { (self.new.standing ≡ self.old.standing) ⊎ (self.new.standing ≡ Short) }
        ensures shown { (k : Crossing) (packets : List Packet)
            → IsShowing self.old.standing self.old.params k packets self.old.shown self.old.course
            → IsShowing self.new.standing self.old.params k (packets ++ packet_of packet.now ∷ []) self.new.shown
            self.new.course }
        ensures kept { (self.new.params ≡ self.old.params) × (self.new.builder ≡ self.old.builder)
            × (self.new.packets.items ≡ self.old.packets.items) × (self.new.opens ≡ self.old.opens)
            × (self.new.taken ≡ self.old.taken) × (self.new.span ≡ self.old.span) }
    {
        self.course = followed(&self.params, self.course, packet);
        if self.shown.add(packet).is_err() {
            self.standing = Standing::OutOfMemory;
        }
    }

    // Takes in the packet of a record of a connection that is refused, and answers whether it holds one.
    fn show(&mut self, record: &Record<'_>, time: Option<CaptureTime>) -> bool
        ensures standing { (self.new.standing ≡ Short) ⊎ ((self.new.standing ≡ self.old.standing)
            × pushed_at self.old.params self.old.packets.items self.new.packets.items
            («record».now.number, «record».now.bytes.now) time) }
        ensures shown { (k : Crossing) (packets : List Packet)
            → IsShowing self.old.standing self.old.params k packets self.old.shown self.old.course
            → IsShowing self.new.standing self.old.params k (packets
            ++ option_to_list (packet_at self.old.params («record».now.number, «record».now.bytes.now)))
            self.new.shown self.new.course }
        ensures held { result ≡ is_some (packet_at self.old.params («record».now.number, «record».now.bytes.now)) }
        ensures kept { (self.new.params ≡ self.old.params) × (self.new.builder ≡ self.old.builder)
            × (self.new.opens ≡ self.old.opens) × (self.new.taken ≡ self.old.taken)
            × (self.new.span ≡ self.old.span) }
    {
        let Ok(Some(packet)) = recorded_packet(&self.params, record) else {
            return false;
        };
        self.see(&packet);
        self.note(record.number, time);
        true
    }

    // Judges a record up to the last one of the window, and answers whether it holds a packet of the connection.
    fn judge(&mut self, record: &Record<'_>, time: Option<CaptureTime>) -> bool
        requires reading { self.old.standing ≡ Reading }
        ensures judged { IsJudged self.old self.new («record».now.number, «record».now.bytes.now) time }
        ensures shown { IsShowing self.new.standing self.old.params (crossed_in self.old.builder)
            ((crossed_in self.old.builder).packets
            ++ option_to_list (packet_at self.old.params («record».now.number, «record».now.bytes.now)))
            self.new.shown self.new.course }
        ensures kept { (self.new.params ≡ self.old.params) × (self.new.taken ≡ self.old.taken)
            × (self.new.opens ≡ self.old.opens) × (self.new.span ≡ self.old.span) }
        ensures held { result ≡ is_some (packet_at self.old.params («record».now.number, «record».now.bytes.now)) }
    {
        match self.builder.add(record) {
            Ok(Some(_)) => {
                self.note(record.number, time);
                true
            }
            Ok(None) => false,
            Err(fault) if fault.number == Fault::NO_MEMORY => {
                self.standing = Standing::OutOfMemory;
                self.sees(record)
            }
            Err(fault) => {
                let subject = Some(Subject {
                    record: record.number,
                    time,
                });
                self.refuse(Refusal { fault, subject });
                self.show(record, time)
            }
        }
    }

    // Takes in a record up to the last one of the window, by how the connection stands, and answers whether it holds a
    // packet of it.
    fn pass(&mut self, record: &Record<'_>, time: Option<CaptureTime>) -> bool
        requires inside { «record».now.number ≤ self.old.params.last_record }
        ensures stands { Passes self.old self.new («record».now.number, «record».now.bytes.now) time }
        ensures held { result ≡ is_some (packet_at self.old.params («record».now.number, «record».now.bytes.now)) }
        ensures kept { (self.new.params ≡ self.old.params) × (self.new.taken ≡ self.old.taken)
            × (self.new.opens ≡ self.old.opens) × (self.new.span ≡ self.old.span) }
    {
        match self.standing {
            Standing::Reading => self.judge(record, time),
            Standing::Refused(_) => self.show(record, time),
            Standing::OutOfMemory => self.sees(record),
        }
    }

    /// Takes in the next record, which was captured at this time, and answers whether it holds a packet of the
    /// connection in its window; also where the connection is judged no more.
    pub fn add(&mut self, record: &Record<'_>, time: Option<CaptureTime>) -> bool
        ensures line { TakesIn self.old self.new («record».now.number, «record».now.bytes.now) time }
        ensures taken { self.new.taken ≡ «record».now.number }
        ensures kept { self.new.params ≡ self.old.params }
        ensures held { result ≡ is_held self.old.params («record».now.number, «record».now.bytes.now) }
    {
        self.taken = record.number;
        if record.number > self.params.last_record() {
            return false;
        }
        let held = self.pass(record, time);
        if held {
            self.note_opening(record);
            self.span.add(record.number, time);
        }
        held
    }

    /// Takes in the next record, which was captured at this time, once, and then answers whether it holds a packet of the
    /// connection in its window.
    pub fn step(&mut self, record: &Record<'_>, time: Option<CaptureTime>) -> bool
        ensures step { IsStep self.old self.new («record».now.number, «record».now.bytes.now) time }
        ensures held { HeldOnce self.old («record».now.number, «record».now.bytes.now) result }
    {
        if self.taken == record.number {
            return false;
        }
        self.add(record, time)
    }

    /// Takes in the fault that ended the reading of the file: it is the connection's where it stands before the end of its
    /// window.
    pub fn end(&mut self, fault: Fault)
        ensures line { EndsBy self.old self.new fault }
        ensures kept { self.new.params ≡ self.old.params }
    {
        if let Standing::Reading = self.standing {
            if fault.place <= self.params.last_record() {
                let subject = subject_behind(fault.place);
                self.refuse(Refusal { fault, subject });
            }
        }
    }
}
