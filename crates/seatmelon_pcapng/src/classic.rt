//! A source that gives the bytes of a classic capture while it reads those of a pcapng file.
ghost use Rattle.std.specs.Prelude.{◌≡◌, ◌+◌, ◌≤◌, ◌<◌, ◌∷◌, ◌++◌, [], true, take, length, option_map, Some, IfOk, IfErr, IfSome, OnOk, OnErr};
ghost use Rattle.std.specs.Io.{ReadsAtMost};
ghost use Rattle.std.specs.Io.KnownBytes.{Consumes, IsAtEnd, Keeps, ReadConsumes};
ghost use Rattle.std.specs.List.{flat_map};
ghost use Rattle.rasta_pcap.specs.Devices.{after_read};
ghost use Rattle.rasta_pcap.specs.Fault.{no_memory};
ghost use Rattle.rasta_pcap.specs.Noting.{NotesOn, PassesOn, given};
ghost use Rattle.seatmelon_cooked.specs.Frames.{header_length};
ghost use Rattle.seatmelon_pcapng.specs.Blocks.{most_captured};
ghost use Rattle.seatmelon_pcapng.specs.Comings.{IsCut, Tells};
ghost use Rattle.seatmelon_pcapng.specs.Memory.{bytes_held, bytes_of};
ghost use Rattle.seatmelon_pcapng.specs.Readings.{EndsWithin, StandsWithin, classic_of, cooked_in, front_by, packet_bytes, packet_in, packets_in, reading_of};
ghost use Rattle.seatmelon_pcapng.specs.Sections.{interfaces_in, order_in};

use crate::block::{Found, Turn};
use crate::coming::Coming;
use crate::enhanced::Enhanced;
use crate::front::Front;
use crate::memory::{Blocks, Held};
use crate::order::Order;
use crate::refusal::{Reason, Refusal};
use crate::remarks::Remarks;
use crate::section::Section;
use byteorder::{ByteOrder, LittleEndian};
use rasta_pcap::{BUFFER, Fault, Source};
use seatmelon_cooked::Kind;
use std::alloc::{AllocError, Global};
use std::io;
use std::io::ErrorKind;

// The header of a classic capture: version 2.4, nanoseconds, the lowest byte first, no more than 262,144 bytes of a
// frame, and Ethernet.
const HEADER: [u8; 24] = [
    0x4d, 0x3c, 0xb2, 0xa1, 2, 0, 4, 0, 0, 0, 0, 0, 0, 0, 0, 0, 0, 0, 4, 0, 1, 0, 0, 0,
];

// The bytes of a record before its frame, and with the header of Ethernet.
const RECORD_FRONT: usize = 16;

const ETHERNET_FRONT: usize = 30;

// How many bytes of records are enough to be given: so few that they are still at hand when they are read.
const ENOUGH: usize = 2048;

// Whether a reading goes on.
#[derive(Clone, Copy)]
enum Progress {
    // Blocks may follow.
    Going,

    // The end was met, or a block that is refused.
    Ended(Option<Refusal>),
}

/// A source that gives the bytes of a classic capture while it reads those of a pcapng file: a record for each packet
/// block, in their order. A packet with a cooked header is told as a frame of Ethernet, and that of any other frame is
/// empty. Times are cut to nanoseconds; a packet that has none, or one whose seconds don't fit 32 bits, is told as captured
/// at 0.
///
/// It keeps what it read at once, and few records. A file that is refused ends inside the record behind those that were
/// read, and [`Classic::refusal`] tells why. [`Classic::remarks`] names the link types of frames other than those of
/// Ethernet.
#[derive(Drop)]
pub struct Classic<S> {
    source: S,
    section: Section,

    // The offset of the next block.
    at: u64,

    blocks: Blocks,
    held: Held,
    progress: Progress,
    failures: u64,
    lacks_memory: bool,
}

// The front of a record.
#[inline(always)]
fn front_of(found: &Found) -> [u8; RECORD_FRONT]
    requires ordered { found.now.start ≤ found.now.end }
    requires few { found.now.end ≤ found.now.start + most_captured }
    ensures { result ≡ front_by found.now }
{
    let mut front = [0; RECORD_FRONT];
    LittleEndian::write_u32(&mut front, found.moment.seconds);
    LittleEndian::write_u32(&mut front[4..], found.moment.nanoseconds);
    LittleEndian::write_u32(&mut front[8..], (found.end - found.start) as u32);
    LittleEndian::write_u32(&mut front[12..], found.original);
    front
}

// Writes a record to the front of a buffer.
#[inline(always)]
fn write_record(front: &[u8], frame: &[u8], buf: &mut [u8])
    requires { length front.now + length frame.now ≤ length buf.old }
    ensures written { take (length front.now + length frame.now) buf.new ≡ front.now ++ frame.now }
    ensures len { length buf.new ≡ length buf.old }
{
    buf[..front.len()].copy_from_slice(front);
    buf[front.len()..front.len() + frame.len()].copy_from_slice(frame);
}

// Writes the record of a packet to the front of a buffer, if there is room for it, and answers how many bytes it has; 0
// if there is none.
#[inline(always)]
fn write_packet(block: &[u8], found: &Found, buf: &mut [u8]) -> usize
    requires { StandsWithin (length block.now) found.now }
    ensures bound { result ≤ length buf.new }
    ensures len { length buf.new ≡ length buf.old }
    ensures written { 0 < result → take result buf.new ≡ flat_map packet_bytes (packet_in block.now found.now ∷ []) }
{
    let frame = &block[found.start..found.end];
    let size = RECORD_FRONT + frame.len();
    if size > buf.len() {
        return 0;
    }
    write_record(&front_of(found), frame, buf);
    size
}

// Holds the record of a packet behind the others.
#[inline(always)]
fn spell_packet(held: &mut Held, block: &[u8], found: &Found) -> Result<(), AllocError>
    requires { StandsWithin (length block.now) found.now }
    ensures held { OnOk result (bytes_held held.new ≡ bytes_held held.old ++ flat_map packet_bytes (packet_in block.now found.now ∷ [])) }
    ensures kept { OnErr result (bytes_held held.new ≡ bytes_held held.old) }
{
    held.put(&front_of(found), &block[found.start..found.end])
}

// Holds the record of a packet whose cooked header is whole, as a frame of Ethernet. It is held at once, so that there is
// nothing to take back where there is no memory.
fn spell_frame(held: &mut Held, block: &[u8], found: &Found, kind: Kind) -> Result<(), AllocError>
    requires within { StandsWithin (length block.now) found.now }
    requires whole { found.now.start + header_length kind ≤ found.now.end }
    ensures held { OnOk result (bytes_held held.new ≡ bytes_held held.old ++ flat_map packet_bytes (cooked_in block.now found.now kind ∷ [])) }
    ensures kept { OnErr result (bytes_held held.new ≡ bytes_held held.old) }
{
    let packet = &block[found.start..found.end];
    let frame = Found {
        original: found.original.saturating_sub(kind.excess()),
        start: found.start + kind.excess() as usize,
        ..*found
    };
    let mut front = [0; ETHERNET_FRONT];
    write_record(&front_of(&frame), &kind.ethernet_header(packet), &mut front);
    held.put(&front, &packet[kind.header_len()..])
}

// Holds the record of a packet with a cooked header, as a frame of Ethernet: without bytes, if the header was cut.
#[cold]
#[inline(never)]
fn spell_cooked(held: &mut Held, block: &[u8], found: &Found, kind: Kind) -> Result<(), AllocError>
    requires { StandsWithin (length block.now) found.now }
    ensures held { OnOk result (bytes_held held.new ≡ bytes_held held.old ++ flat_map packet_bytes (cooked_in block.now found.now kind ∷ [])) }
    ensures kept { OnErr result (bytes_held held.new ≡ bytes_held held.old) }
{
    if found.end - found.start >= kind.header_len() {
        return spell_frame(held, block, found, kind);
    }
    let none = Found {
        original: found.original.saturating_sub(kind.excess()),
        start: found.end,
        ..*found
    };
    held.put(&front_of(&none), &[])
}

// The same, if the block is one of a packet.
#[inline(always)]
fn spell(held: &mut Held, block: &[u8], turn: &Turn) -> Result<(), AllocError>
    requires { EndsWithin (length block.now) turn.now }
    ensures held { OnOk result (bytes_held held.new ≡ bytes_held held.old ++ flat_map packet_bytes (packets_in block.now turn.now)) }
    ensures kept { OnErr result (bytes_held held.new ≡ bytes_held held.old) }
{
    match turn {
        Turn::Packet(found) | Turn::Foreign(found, _) => spell_packet(held, block, found),
        Turn::Cooked(found, kind) => spell_cooked(held, block, found, *kind),
        Turn::Section | Turn::Interface(_) | Turn::Other => Ok(()),
    }
}

impl<S: Source> Classic<S> {
    ghost use Rattle.seatmelon_pcapng.specs.Classics.{CanFill, Comes, Stays, failures_of, left_in, refusal_in, remarks_in, remarks_left, source_of};
    ghost use Rattle.seatmelon_pcapng.specs.Giving.{noted_by, told_as};
    ghost use Rattle.seatmelon_pcapng.specs.Progress.{HasEnded, IsReading};
    ghost use Rattle.seatmelon_pcapng.specs.Readings.Next.{goes, refused};
    ghost use Rattle.seatmelon_pcapng.specs.declared.coming.Coming.TheVariants.{Wanted};

    /// The source of a pcapng file, of which nothing was read.
    ///
    /// Refused by [`Fault::NO_MEMORY`] alone.
    pub fn new(alloc: Global, source: S) -> Result<Classic<S>, Fault>
    where
        S: Drop,
        ensures left { IfOk result (λ c. left_in S.remaining c ≡ option_map (λ file. classic_of (reading_of file)) (S.remaining source)) }
        ensures failures { IfOk result (λ c. failures_of c ≡ 0) }
        ensures noted { IfOk result (λ c. IfSome (S.remaining source) (λ file. S.notes source [] → noted_by S.remaining S.notes c (told_as file))) }
        ensures err { IfErr result (λ f. f ≡ no_memory) }
    {
        let mut blocks = Blocks::new(alloc);
        blocks.make_room(BUFFER)?;
        let mut held = Held::new(alloc);
        held.put(&HEADER, &[])?;
        Ok(Classic {
            source,
            section: Section::new(alloc),
            at: 0,
            blocks,
            held,
            progress: Progress::Going,
            failures: 0,
            lacks_memory: false,
        })
    }

    /// Why the file is refused, once all before was read.
    pub fn refusal(&self) -> Option<Refusal>
        ensures { result ≡ refusal_in self.now }
    {
        match self.progress {
            Progress::Ended(refusal) => refusal,
            Progress::Going => None,
        }
    }

    /// What is told of the file beside the packets that were read: why it is refused, once all before was read, and the
    /// link types of the first of them that aren't frames of Ethernet.
    pub fn remarks(&self) -> Remarks
        ensures { result ≡ remarks_in self.now }
    {
        let met = self.section.link_types();
        Remarks {
            refusal: self.refusal(),
            other_link_type: met.other,
            cooked_link_type: met.cooked,
        }
    }

    /// Whether a read failed since there was no memory for a block.
    pub fn lacks_memory(&self) -> bool {
        self.lacks_memory
    }

    /// Gives the source back.
    pub fn into_inner(self) -> S
        ensures { result ≡ source_of self }
    {
        let Classic { source, .. } = self;
        source
    }

    // A read fails for want of memory.
    fn memory_refused(&mut self) -> io::Error
        ensures { self.new ≡ record self.old { lacks_memory = true } }
    {
        self.lacks_memory = true;
        io::Error::from(ErrorKind::Other)
    }

    // Ends at a block that is refused.
    fn refuse(&mut self, reason: Reason) -> io::Result<()>
        requires none { bytes_held self.old.held ≡ [] }
        requires next { Comes S.remaining self.old (refused reason) }
        requires reading { IsReading self.old.progress }
        ensures left { Keeps (left_in S.remaining self.old) (left_in S.remaining self.new) }
        ensures remarks { Stays (remarks_left S.remaining self.old) (remarks_left S.remaining self.new) }
        ensures source { source_of self.new ≡ source_of self.old }
        ensures told { OnOk result (refusal_in self.new ≡ Some (record { reason = reason; at = self.old.at })) }
        ensures failures { failures_of self.new ≡ failures_of self.old }
    {
        if self.held.put(&[0], &[]).is_err() {
            return Err(self.memory_refused());
        }
        let at = self.at;
        self.progress = Progress::Ended(Some(Refusal { reason, at }));
        Ok(())
    }

    // What comes next, as far as was read.
    #[inline(always)]
    fn coming(&self) -> Coming
        ensures { Tells (order_in self.now.section) (interfaces_in self.now.section) (bytes_of self.now.blocks) result }
    {
        let section = &self.section;
        Coming::of(section.order(), section.interfaces(), self.blocks.bytes())
    }

    // Goes on behind a block; for want of memory it stays before it.
    #[inline(always)]
    fn go(&mut self, front: Front, turn: &Turn) -> Result<(), AllocError>
        requires reading { IsReading self.old.progress }
        requires next { Comes S.remaining self.old (goes front turn.now) }
        requires whole { front.len ≤ length (bytes_of self.old.blocks) }
        requires within { EndsWithin front.len turn.now }
        ensures left { Keeps (left_in S.remaining self.old) (left_in S.remaining self.new) }
        ensures remarks { Stays (remarks_left S.remaining self.old) (remarks_left S.remaining self.new) }
        ensures source { source_of self.new ≡ source_of self.old }
        ensures passed { OnOk result (length (bytes_of self.new.blocks) + front.len ≡ length (bytes_of self.old.blocks)) }
        ensures kept { OnErr result ((order_in self.new.section ≡ order_in self.old.section)
            × (interfaces_in self.new.section ≡ interfaces_in self.old.section) × (self.new.blocks ≡ self.old.blocks)) }
        ensures progress { self.new.progress ≡ self.old.progress }
        ensures failures { failures_of self.new ≡ failures_of self.old }
    {
        spell(&mut self.held, &self.blocks.bytes()[..front.len], turn)?;
        self.section.pass(front, turn)?;
        self.at = self.at.wrapping_add(front.len as u64);
        self.blocks.pass(front.len);
        Ok(())
    }

    // Passes blocks that were read, until their records are enough. Where they give none, it answers what comes behind
    // them: a block only where there was no memory for it.
    fn pass_blocks(&mut self) -> Coming
        requires reading { IsReading self.old.progress }
        ensures tells { bytes_held self.new.held ≡ [] → Tells (order_in self.new.section) (interfaces_in self.new.section) (bytes_of self.new.blocks) result }
        ensures left { Keeps (left_in S.remaining self.old) (left_in S.remaining self.new) }
        ensures remarks { Stays (remarks_left S.remaining self.old) (remarks_left S.remaining self.new) }
        ensures source { source_of self.new ≡ source_of self.old }
        ensures progress { self.new.progress ≡ self.old.progress }
        ensures failures { failures_of self.new ≡ failures_of self.old }
    {
        loop {
            let coming = self.coming();
            let Coming::Block(front, turn) = coming else {
                return coming;
            };
            if self.go(front, &turn).is_err() || self.held.len() >= ENOUGH {
                return coming;
            }
        }
    }

    // Whether records may be given right from the blocks: none is held, and blocks have the lowest byte first.
    #[inline(always)]
    fn may_fill(&self) -> bool
        ensures { result ≡ true → CanFill self.now }
    {
        self.held.is_empty()
            && matches!(self.progress, Progress::Going)
            && matches!(self.section.order(), Some(Order::Little))
    }

    // Gives the record of the next packet right from its block, where there is room for it, and answers how many bytes
    // that has; 0 where it gives none.
    #[inline(always)]
    fn give_packet(&mut self, buf: &mut [u8]) -> usize
        requires { CanFill self.old }
        ensures bound { result ≤ length buf.new }
        ensures len { length buf.new ≡ length buf.old }
        ensures ready { CanFill self.new }
        ensures left { Consumes (left_in S.remaining self.old) (left_in S.remaining self.new) (take result buf.new) }
        ensures remarks { Stays (remarks_left S.remaining self.old) (remarks_left S.remaining self.new) }
        ensures source { source_of self.new ≡ source_of self.old }
        ensures failures { failures_of self.new ≡ failures_of self.old }
    {
        let bytes = self.blocks.bytes();
        let Some(next) = Enhanced::of(self.section.interfaces(), bytes) else {
            return 0;
        };
        let size = write_packet(&bytes[..next.front.len], &next.found, buf);
        if size > 0 {
            self.at = self.at.wrapping_add(next.front.len as u64);
            self.blocks.pass(next.front.len);
        }
        size
    }

    // Gives records right from the blocks, as far as there is room, and answers how many bytes. Nearly all packets pass
    // here.
    fn fill(&mut self, buf: &mut [u8]) -> usize
        ensures bound { result ≤ length buf.new }
        ensures len { length buf.new ≡ length buf.old }
        ensures bytes { Consumes (left_in S.remaining self.old) (left_in S.remaining self.new) (take result buf.new) }
        ensures failures { failures_of self.new ≡ failures_of self.old }
        ensures noted { NotesOn (noted_by S.remaining S.notes) self.old self.new (take result buf.new) }
    {
        if !self.may_fill() {
            return 0;
        }
        let mut filled = 0;
        loop {
            match self.give_packet(&mut buf[filled..]) {
                0 => return filled,
                n => filled += n,
            }
        }
    }

    // Ends where no bytes follow, or refuses a block that is cut.
    fn end(&mut self) -> io::Result<()>
        requires none { bytes_held self.old.held ≡ [] }
        requires reading { IsReading self.old.progress }
        requires cut { IsCut (order_in self.old.section) (interfaces_in self.old.section) (bytes_of self.old.blocks) }
        requires at_end { IsAtEnd (S.remaining self.old.source) }
        ensures left { Keeps (left_in S.remaining self.old) (left_in S.remaining self.new) }
        ensures remarks { Stays (remarks_left S.remaining self.old) (remarks_left S.remaining self.new) }
        ensures source { source_of self.new ≡ source_of self.old }
        ensures failures { failures_of self.new ≡ failures_of self.old }
    {
        if self.blocks.bytes().is_empty() {
            self.progress = Progress::Ended(None);
            Ok(())
        } else {
            self.refuse(Reason::Cut)
        }
    }

    // Reads once where so many bytes are wanted, and ends where none come.
    fn read_on(&mut self, wanted: usize) -> io::Result<()>
        requires none { bytes_held self.old.held ≡ [] }
        requires reading { IsReading self.old.progress }
        requires wanted { Tells (order_in self.old.section) (interfaces_in self.old.section) (bytes_of self.old.blocks) (Wanted wanted) }
        ensures left { Keeps (left_in S.remaining self.old) (left_in S.remaining self.new) }
        ensures remarks { Stays (remarks_left S.remaining self.old) (remarks_left S.remaining self.new) }
        ensures passed { PassesOn S.remaining S.notes (source_of self.old) (source_of self.new) }
        ensures failures { failures_of self.new ≡ failures_of self.old }
    {
        let most = wanted.max(BUFFER);
        if self.blocks.make_room(most).is_err() {
            return Err(self.memory_refused());
        }
        match self.blocks.read(&mut self.source, most)? {
            0 => self.end(),
            _ => Ok(()),
        }
    }

    // Passes the blocks that were read; where they give nothing, it reads on, or ends.
    fn advance(&mut self) -> io::Result<()>
        requires none { bytes_held self.old.held ≡ [] }
        requires reading { IsReading self.old.progress }
        ensures left { Keeps (left_in S.remaining self.old) (left_in S.remaining self.new) }
        ensures remarks { Stays (remarks_left S.remaining self.old) (remarks_left S.remaining self.new) }
        ensures passed { PassesOn S.remaining S.notes (source_of self.old) (source_of self.new) }
        ensures failures { failures_of self.new ≡ failures_of self.old }
    {
        let coming = self.pass_blocks();
        if !self.held.is_empty() {
            return Ok(());
        }
        match coming {
            Coming::Block(..) => Err(self.memory_refused()),
            Coming::Refused(reason) => self.refuse(reason),
            Coming::Wanted(wanted) => self.read_on(wanted),
        }
    }

    // Reads on until there is something to give, or nothing is left.
    fn prepare(&mut self) -> io::Result<()>
        ensures ready { OnOk result (bytes_held self.new.held ≡ [] → HasEnded self.new.progress) }
        ensures left { Keeps (left_in S.remaining self.old) (left_in S.remaining self.new) }
        ensures remarks { Stays (remarks_left S.remaining self.old) (remarks_left S.remaining self.new) }
        ensures passed { PassesOn S.remaining S.notes (source_of self.old) (source_of self.new) }
        ensures failures { failures_of self.new ≡ failures_of self.old }
    {
        for _ in 0..u64::MAX {
            if !self.held.is_empty() {
                return Ok(());
            }
            match self.progress {
                Progress::Going => self.advance()?,
                Progress::Ended(_) => return Ok(()),
            }
        }
        Err(io::Error::from(ErrorKind::Other))
    }

    // Gives what it holds, once that is something.
    fn give(&mut self, buf: &mut [u8]) -> io::Result<usize>
        ensures bound { ReadsAtMost result buf.new }
        ensures bytes { ReadConsumes (left_in S.remaining self.old) (left_in S.remaining self.new) result buf.new }
        ensures len { length buf.new ≡ length buf.old }
        ensures counted { failures_of self.new ≡ after_read (failures_of self.old) result }
        ensures noted { NotesOn (noted_by S.remaining S.notes) self.old self.new (given result buf.new) }
    {
        match self.prepare() {
            Ok(()) => Ok(self.held.give(buf)),
            Err(error) => {
                self.failures = self.failures.saturating_add(1);
                Err(error)
            }
        }
    }
}

impl<S: Source> Source for Classic<S> {
    ghost use Rattle.seatmelon_pcapng.specs.Classics.{failures_of, left_in};
    ghost use Rattle.seatmelon_pcapng.specs.Giving.{noted_by};

    ghost remaining = { left_in S.remaining };

    ghost failure_count = { failures_of };

    ghost notes = { noted_by S.remaining S.notes };

    fn read(&mut self, buf: &mut [u8]) -> io::Result<usize> {
        match self.fill(buf) {
            0 => self.give(buf),
            n => Ok(n),
        }
    }

    fn failures(&self) -> u64 {
        self.failures
    }
}
