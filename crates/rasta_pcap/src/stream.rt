//! The records of a capture that comes from a reader, in whatever pieces.
ghost use Rattle.std.specs.Prelude.{max, ◌+◌, ◌≡◌, ◌≢◌, ℕ, ◌<◌, ◌≤◌, ◌⊎◌, [], take, length, vec_len, None, Ok, IfOk, IfErr, IfSome, OnOk, OnErr, MatchOption, MatchResult};
ghost use Rattle.std.specs.Io.KnownBytes.{Consumes};
ghost use Rattle.rasta_pcap.specs.Fault.{no_memory, read_failed};
ghost use Rattle.rasta_pcap.specs.Devices.{HasFailed};
ghost use Rattle.rasta_pcap.specs.Capture.{max_captured, max_records};
ghost use Rattle.rasta_pcap.specs.Extent.{ReadsWithinRecord};
ghost use Rattle.rasta_pcap.specs.Filling.{IsFilled, ReadsUpTo};
ghost use Rattle.rasta_pcap.specs.Fronts.{front_of};
ghost use Rattle.rasta_pcap.specs.Noting.{PassesOn};

use crate::counted::Source;
use crate::fault::Fault;
use crate::filling::fill;
use crate::pcap::{
    Endianness, FILE_HEADER, MAX_CAPTURED, MAX_RECORDS, Pcap, RECORD_HEADER, Record,
};
use crate::time::{CaptureTime, FractionUnit, time_in, unit_in};
use std::alloc::Global;

/// Whether a reading goes on.
#[derive(Clone, Copy, PartialEq, Eq)]
pub enum Progress {
    /// Records may follow.
    Reading,

    /// The exact end was met.
    Ended,

    /// The capture was refused.
    Refused(Fault),
}

// The bytes of one record, in memory that is kept for the next.
#[derive(Drop)]
pub struct RecordBuffer {
    memory: Vec<u8>,
    len: usize,
    ghost within: { len ≤ vec_len memory },
    ghost bounded: { vec_len memory ≤ max_captured },
}

impl RecordBuffer {
    ghost use Rattle.rasta_pcap.specs.Stream.{bytes_in, memory_of};

    fn new(alloc: Global) -> RecordBuffer
        ensures { bytes_in result ≡ [] }
    {
        RecordBuffer {
            memory: Vec::new(alloc),
            len: 0,
        }
    }

    fn lend(&self) -> &[u8]
        ensures bytes { result.now ≡ bytes_in self.now }
        ensures bound { length result.now ≤ max_captured }
    {
        &self.memory[..self.len]
    }

    // Reads so many bytes, or all up to the end of input.
    #[inline(always)]
    fn read<S: Source>(&mut self, reader: &mut S, len: usize) -> Result<(), Fault>
        requires { len ≤ max_captured }
        ensures filled { OnOk result (IsFilled len (S.remaining reader.old) (S.remaining reader.new) (bytes_in self.new)) }
        ensures steady { OnOk result (S.failure_count reader.new ≡ S.failure_count reader.old) }
        ensures err { IfErr result (λ f. ((f ≡ no_memory) × (memory_of self.old < len) × (reader.new ≡ reader.old))
            ⊎ ((f ≡ read_failed) × HasFailed (S.failure_count reader.old) (S.failure_count reader.new)
            × ReadsUpTo len (S.remaining reader.old) (S.remaining reader.new))) }
        ensures passed { PassesOn S.remaining S.notes reader.old reader.new }
    {
        self.len = read_front(reader, &mut self.memory, len)?;
        Ok(())
    }
}

// Grows where so many bytes don't fit.
fn make_room(memory: &mut Vec<u8>, len: usize) -> Result<(), Fault>
    ensures kept { vec_len memory.old ≤ vec_len memory.new }
    ensures grown { vec_len memory.new ≤ max (vec_len memory.old) len }
    ensures room { OnOk result (len ≤ vec_len memory.new) }
    ensures err { IfErr result (λ f. (f ≡ no_memory) × (vec_len memory.old < len)) }
{
    if memory.len() >= len {
        return Ok(());
    }
    memory.resize(len, 0)?;
    Ok(())
}

// Reads so many bytes into the front of the memory, or all up to the end of input, and says how many
// came.
#[inline(always)]
fn read_front<S: Source>(reader: &mut S, memory: &mut Vec<u8>, len: usize) -> Result<usize, Fault>
    ensures kept { vec_len memory.old ≤ vec_len memory.new }
    ensures grown { vec_len memory.new ≤ max (vec_len memory.old) len }
    ensures bound { IfOk result (λ n. n ≤ vec_len memory.new) }
    ensures filled { IfOk result (λ n. IsFilled len (S.remaining reader.old) (S.remaining reader.new) (take n memory.new.items)) }
    ensures steady { OnOk result (S.failure_count reader.new ≡ S.failure_count reader.old) }
    ensures err { IfErr result (λ f. ((f ≡ no_memory) × (vec_len memory.old < len) × (reader.new ≡ reader.old))
        ⊎ ((f ≡ read_failed) × HasFailed (S.failure_count reader.old) (S.failure_count reader.new)
        × ReadsUpTo len (S.remaining reader.old) (S.remaining reader.new))) }
    ensures passed { PassesOn S.remaining S.notes reader.old reader.new }
{
    make_room(memory, len)?;
    fill(reader, memory, len)
}

// What a record's front says, of which fewer than 16 bytes stand at the end of input alone: none at
// the exact end, or how many bytes were captured.
#[inline(always)]
fn judge_front(order: Endianness, count: u32, front: &[u8]) -> Result<Option<usize>, Fault>
    requires { count ≤ max_records }
    ensures { result ≡ front_of order count front.now }
{
    if front.is_empty() {
        return Ok(None);
    }
    if count >= MAX_RECORDS {
        return Err(Fault::at(Fault::TOO_MANY, count + 1));
    }
    if front.len() < RECORD_HEADER {
        return Err(Fault::at(Fault::CUT_RECORD, count + 1));
    }
    let captured = order.u32_at(front, 8) as usize;
    if captured > MAX_CAPTURED {
        return Err(Fault::at(Fault::RECORD_TOO_LONG, count + 1));
    }
    Ok(Some(captured))
}

/// Reads the records of a capture, one at a time, from the reader that each call is passed.
#[derive(Drop)]
pub struct RecordReader {
    order: Endianness,
    unit: FractionUnit,
    time: Option<CaptureTime>,
    count: u32,
    progress: Progress,
    buffer: RecordBuffer,
    ghost counted: { count ≤ max_records },
}

impl RecordReader {
    ghost use Rattle.rasta_pcap.specs.Stream.{order_in, unit_in, time_in, count_in, progress_of, lent_by, room_in, FailsWithin, LacksMemory, Opens, RefusesHeader, ReadsRecord, MeetsEnd, RefusesRecord, count_after};
    ghost use Rattle.rasta_pcap.specs.Times.{TellsTime, TellsUnit};
    ghost use Rattle.rasta_pcap.specs.Reader.{Advances};
    ghost use Rattle.rasta_pcap.specs.declared.stream.Progress.TheVariants.{Reading};

    /// Reads the header of a capture, its first 24 bytes, and nothing after it.
    ///
    /// Refused by [`Fault::READ_FAILED`] and as [`Pcap::open`] refuses it.
    pub fn open<S: Source>(alloc: Global, reader: &mut S) -> Result<RecordReader, Fault>
        ensures opened { IfOk result (λ r. Opens (order_in r) (S.remaining reader.old) (S.remaining reader.new)) }
        ensures unit { IfOk result (λ r. TellsUnit (order_in r) (unit_in r) (S.remaining reader.old) (S.remaining reader.new)) }
        ensures start { IfOk result (λ r. (count_in r ≡ 0) × (progress_of r ≡ Reading) × (lent_by r ≡ []) × (time_in r ≡ None)) }
        ensures err { IfErr result (λ f.
            FailsWithin 24 f (S.failure_count reader.old) (S.failure_count reader.new) (S.remaining reader.old) (S.remaining reader.new)
            ⊎ RefusesHeader f (S.remaining reader.old) (S.remaining reader.new)) }
        ensures bounded { ReadsUpTo 24 (S.remaining reader.old) (S.remaining reader.new) }
        ensures steady { OnOk result (S.failure_count reader.new ≡ S.failure_count reader.old) }
        ensures passed { PassesOn S.remaining S.notes reader.old reader.new }
    {
        let mut header = [0; FILE_HEADER];
        let filled = fill(reader, &mut header, FILE_HEADER)?;
        let order = Pcap::open(&header[..filled])?.order();
        Ok(RecordReader {
            order,
            unit: unit_in(order, &header[..filled]),
            time: None,
            count: 0,
            progress: Progress::Reading,
            buffer: RecordBuffer::new(alloc),
        })
    }

    /// The bytes of the record read last, at most 262,144; of one that is refused those that were read, and none at the
    /// end.
    pub fn buffer(&self) -> &[u8]
        ensures bytes { result.now ≡ lent_by self.now }
        ensures bound { length result.now ≤ max_captured }
    {
        self.buffer.lend()
    }

    /// When the record read last was captured; `None` before the first.
    pub fn time(&self) -> Option<CaptureTime>
        ensures { result ≡ time_in self.now }
    {
        self.time
    }

    /// Reads the next record, and nothing after it, into the buffer, and answers its number; `None`
    /// at the exact end. Times and original length are not judged.
    ///
    /// Refused by [`Fault::NO_MEMORY`], [`Fault::READ_FAILED`] and as [`Pcap::next_record`] refuses it.
    /// After the end and after a refusal nothing is read, and every later call answers the same.
    #[inline(always)]
    pub fn advance<S: Source>(&mut self, reader: &mut S) -> Result<Option<u32>, Fault>
        ensures step { Advances self.old self.new (S.remaining reader.old) (S.remaining reader.new)
            (S.failure_count reader.old) (S.failure_count reader.new) result }
        ensures idle { progress_of self.old ≢ Reading → (reader.new ≡ reader.old) × (self.new ≡ self.old) }
        ensures passed { PassesOn S.remaining S.notes reader.old reader.new }
    {
        match self.progress {
            Progress::Reading => {}
            Progress::Ended => return Ok(None),
            Progress::Refused(fault) => return Err(fault),
        }
        let answer = self.read_record(reader);
        self.progress = match answer {
            Ok(Some(_)) => Progress::Reading,
            Ok(None) => Progress::Ended,
            Err(fault) => Progress::Refused(fault),
        };
        answer
    }

    #[inline(always)]
    fn read_record<S: Source>(&mut self, reader: &mut S) -> Result<Option<u32>, Fault>
        ensures found { IfOk result (λ o. MatchOption o
            (MeetsEnd (S.remaining reader.old) (S.remaining reader.new))
            (λ n. ReadsRecord (order_in self.old) (count_in self.old) (n, lent_by self.new)
            (S.remaining reader.old) (S.remaining reader.new))) }
        ensures err { IfErr result (λ f.
            FailsWithin (16 + max_captured) f (S.failure_count reader.old) (S.failure_count reader.new)
            (S.remaining reader.old) (S.remaining reader.new)
            ⊎ (LacksMemory (order_in self.old) (room_in self.old) f (S.remaining reader.old) (S.remaining reader.new)
            ⊎ RefusesRecord (order_in self.old) (count_in self.old) f (S.remaining reader.old) (S.remaining reader.new))) }
        ensures timed { IfOk result (λ o. MatchOption o (time_in self.new ≡ time_in self.old)
            (λ n. TellsTime (order_in self.old) (unit_in self.old) (time_in self.new) (S.remaining reader.old) (S.remaining reader.new))) }
        ensures untimed { OnErr result (time_in self.new ≡ time_in self.old) }
        ensures within { ReadsWithinRecord (order_in self.old) (S.remaining reader.old) (S.remaining reader.new) }
        ensures steady { OnOk result (S.failure_count reader.new ≡ S.failure_count reader.old) }
        ensures order { order_in self.new ≡ order_in self.old }
        ensures unit { unit_in self.new ≡ unit_in self.old }
        ensures count { count_in self.new ≡ count_after (count_in self.old) result }
        ensures progress { progress_of self.new ≡ progress_of self.old }
        ensures passed { PassesOn S.remaining S.notes reader.old reader.new }
    {
        let mut front = [0; RECORD_HEADER];
        self.buffer.len = 0;
        let filled = fill(reader, &mut front, RECORD_HEADER)?;
        let Some(captured) = judge_front(self.order, self.count, &front[..filled])? else {
            return Ok(None);
        };
        self.buffer.read(reader, captured)?;
        if self.buffer.lend().len() < captured {
            return Err(Fault::at(Fault::CUT_RECORD, self.count + 1));
        }
        self.time = Some(time_in(self.order, self.unit, &front[..filled]));
        self.count += 1;
        Ok(Some(self.count))
    }
}

/// The records of a capture that comes from a reader.
#[derive(Drop)]
pub struct Stream<R> {
    reader: R,
    records: RecordReader,
}

impl<R: Source + Drop> Stream<R> {
    ghost use Rattle.std.specs.Io.BufRead.{Rests};
    ghost use Rattle.std.specs.Borrow.{sem};
    ghost use Rattle.rasta_pcap.specs.contracts.stream.Stream.{the_row as stream-row};
    ghost use Rattle.rasta_pcap.specs.Stream.{order_in, unit_in, time_in, count_in, progress_of, lent_by, FailsWithin, Opens, RefusesHeader};
    ghost use Rattle.rasta_pcap.specs.Times.{TellsUnit};
    ghost use Rattle.rasta_pcap.specs.Reader.{reader_of, records_of, Advances, answer_of, LendsRecord};
    ghost use Rattle.rasta_pcap.specs.declared.stream.Progress.TheVariants.{Reading};

    /// Reads the header of a capture, its first 24 bytes, and nothing after it.
    ///
    /// Refused by [`Fault::READ_FAILED`] and as [`Pcap::open`] refuses it.
    pub fn open(alloc: Global, mut reader: R) -> Result<Stream<R>, Fault>
        ensures opened { IfOk result (λ s. Opens (order_in (records_of s)) (R.remaining reader) (R.remaining (reader_of s))) }
        ensures start { IfOk result (λ s. (count_in (records_of s) ≡ 0) × (progress_of (records_of s) ≡ Reading)
            × (lent_by (records_of s) ≡ []) × (time_in (records_of s) ≡ None)) }
        ensures unit { IfOk result (λ s. TellsUnit (order_in (records_of s)) (unit_in (records_of s)) (R.remaining reader) (R.remaining (reader_of s))) }
        ensures err { IfErr result (λ f. (left : R) × ReadsUpTo 24 (R.remaining reader) (R.remaining left) × (
            FailsWithin 24 f (R.failure_count reader) (R.failure_count left) (R.remaining reader) (R.remaining left)
            ⊎ RefusesHeader f (R.remaining reader) (R.remaining left))) }
        ensures bounded { IfOk result (λ s. ReadsUpTo 24 (R.remaining reader) (R.remaining (reader_of s))) }
        ensures steady { IfOk result (λ s. R.failure_count (reader_of s) ≡ R.failure_count reader) }
    {
        let records = RecordReader::open(alloc, &mut reader)?;
        Ok(Stream { reader, records })
    }

    /// The next record, or `None` at the exact end; nothing after it is read.
    ///
    /// Refused by [`Fault::NO_MEMORY`], [`Fault::READ_FAILED`] and as [`Pcap::next_record`] refuses it.
    /// After the end and after a refusal nothing is read, and every later call answers the same.
    pub fn next_record(&mut self) -> Result<Option<Record<'_>>, Fault>
        ensures* after_borrow { sem 𝓛 (Rests (stream-row R.row) self.entry (λ new.
            LendsRecord result (records_of new)
            × Advances (records_of self.old) (records_of new) (R.remaining (reader_of self.old)) (R.remaining (reader_of new))
            (R.failure_count (reader_of self.old)) (R.failure_count (reader_of new)) (answer_of result))) }
    {
        let Some(number) = self.advance()? else {
            return Ok(None);
        };
        Ok(Some(Record {
            number,
            bytes: self.records.buffer(),
        }))
    }

    /// Reads the next record into the buffer, as [`Stream::next_record`] does, and answers its number.
    pub fn advance(&mut self) -> Result<Option<u32>, Fault>
        ensures step { Advances (records_of self.old) (records_of self.new)
            (R.remaining (reader_of self.old)) (R.remaining (reader_of self.new))
            (R.failure_count (reader_of self.old)) (R.failure_count (reader_of self.new)) result }
        ensures idle { progress_of (records_of self.old) ≢ Reading → self.new ≡ self.old }
    {
        self.records.advance(&mut self.reader)
    }

    /// The bytes of the record read last, at most 262,144; of one that is refused those that were read, and none at the
    /// end.
    pub fn buffer(&self) -> &[u8]
        ensures bytes { result.now ≡ lent_by (records_of self.now) }
        ensures bound { length result.now ≤ max_captured }
    {
        self.records.buffer()
    }

    /// When the record read last was captured; `None` before the first.
    pub fn time(&self) -> Option<CaptureTime>
        ensures { result ≡ time_in (records_of self.now) }
    {
        self.records.time()
    }

    /// Gives the reader back.
    pub fn into_inner(self) -> R
        ensures { result ≡ reader_of self }
    {
        let Stream { reader, .. } = self;
        reader
    }
}
