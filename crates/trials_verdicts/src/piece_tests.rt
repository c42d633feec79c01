//! The four commands over captures that come in pieces, and what they have read when.
ghost use Rattle.std.specs.Prelude.{None};

use crate::cases::{Case, Command, case_of, commands_of, outcome_of, row_at, rows, told};
use crate::show_tests::{heartbeat_file, parameters};
use rasta_pcap::devices::{FailAt, Pieces};
use rasta_pcap::{Counted, Fault, Pcap, Record, Stream, read_all};
use rasta_pdu::{Params, Source};
use rasta_show::run_show;
use std::alloc::Global;
use std::cell::Cell;
use std::io;
use std::io::{Read, Write};
use std::process::Abort;

// Whether a command says of a capture in pieces what it says of the whole.
fn tells_of(alloc: Global, command: Command<'_>, case: &Case, pieces: Pieces<'_>) -> Option<bool> {
    let (honest, status) = told(alloc, command, &case.params, &case.file)?;
    let mut reader = Counted::new(pieces);
    let (outcome, text) = outcome_of(alloc, command, &case.params, &mut reader);
    Some(outcome == Ok(status) && text.as_slice() == honest.as_slice())
}

// Whether it does so in pieces of each size.
fn tells_of_all(alloc: Global, command: Command<'_>, case: &Case) -> bool {
    tells_of(alloc, command, case, Pieces::new(&case.file, 1)) == Some(true)
        && tells_of(alloc, command, case, Pieces::new(&case.file, 7)) == Some(true)
        && tells_of(alloc, command, case, Pieces::new(&case.file, 4096)) == Some(true)
}

// Whether each command does so of a row.
fn comes_in_pieces(alloc: Global, row: &str) -> Option<bool> {
    let case = case_of(alloc, row)?;
    for command in commands_of(&case) {
        if !tells_of_all(alloc, command, &case) {
            return Some(false);
        }
    }
    Some(true)
}

#[test]
fn captures_come_in_pieces(rt: HostRuntime) {
    for row in rows().lines() {
        assert_eq!(rt; comes_in_pieces(rt.alloc(), row), Some(true), "{row}");
    }
}

// Whether both are the same record.
fn is_same_record(one: &Record<'_>, other: &Record<'_>) -> bool {
    one.number == other.number && one.bytes == other.bytes
}

// Whether a stream over pieces of a file that is refused in memory is refused so too.
fn is_refused_so(alloc: Global, pieces: Pieces<'_>, fault: Fault) -> bool {
    match Stream::open(alloc, Counted::new(pieces)) {
        Ok(_) => false,
        Err(other) => other == fault,
    }
}

// Whether a stream goes on as a capture in memory does; none where both have ended so.
fn goes_on<R: Source + Drop>(pcap: &mut Pcap<'_>, stream: &mut Stream<R>) -> Option<bool> {
    let other = stream.next_record();
    match pcap.next_record() {
        Ok(Some(record)) => match other {
            Ok(Some(found)) => Some(is_same_record(&record, &found)),
            Ok(None) | Err(_) => Some(false),
        },
        Ok(None) => match other {
            Ok(None) => None,
            Ok(Some(_)) | Err(_) => Some(false),
        },
        Err(fault) => match other {
            Err(same) if same == fault => None,
            Ok(_) | Err(_) => Some(false),
        },
    }
}

// Whether a stream over pieces of a file gives what the file has in memory: its records, and its end or its fault.
fn is_streamed(alloc: Global, file: &[u8], pieces: Pieces<'_>) -> Option<bool> {
    let mut pcap = match Pcap::open(file) {
        Ok(pcap) => pcap,
        Err(fault) => return Some(is_refused_so(alloc, pieces, fault)),
    };
    let mut stream = Stream::open(alloc, Counted::new(pieces)).ok()?;
    for _ in 0..=file.len() {
        match goes_on(&mut pcap, &mut stream) {
            Some(true) => {}
            Some(false) => return Some(false),
            None => return Some(true),
        }
    }
    None
}

// Whether the capture of a row comes so in pieces of each size.
fn comes_as_a_stream(alloc: Global, row: &str) -> Option<bool> {
    let file = case_of(alloc, row)?.file;
    let is_same = is_streamed(alloc, &file, Pieces::new(&file, 1))?
        && is_streamed(alloc, &file, Pieces::new(&file, 7))?
        && is_streamed(alloc, &file, Pieces::new(&file, 4096))?;
    Some(is_same)
}

#[test]
fn captures_come_as_streams(rt: HostRuntime) {
    for row in rows().lines() {
        assert_eq!(rt; comes_as_a_stream(rt.alloc(), row), Some(true), "{row}");
    }
}

// Whether all bytes of a file are read, in these pieces.
fn is_read(alloc: Global, file: &[u8], pieces: Pieces<'_>) -> bool {
    match read_all(alloc, &mut Counted::new(pieces)) {
        Ok(bytes) => bytes.as_slice() == file,
        Err(_) => false,
    }
}

// Whether all of the heartbeat's file is read.
fn is_read_whole(alloc: Global) -> Option<bool> {
    let file = heartbeat_file(alloc)?;
    let is_whole = is_read(alloc, &file, Pieces::new(&file, 1))
        && is_read(alloc, &file, Pieces::new(&file, 7))
        && is_read(alloc, &file, Pieces::new(&file, 4096));
    Some(is_whole)
}

#[test]
fn all_bytes_of_a_file_are_read(rt: HostRuntime) {
    assert_eq!(rt; is_read_whole(rt.alloc()), Some(true));
}

// Whether a command with a window of three records says of a file what it says of its first three, and asks a
// reader that gives a byte a call for no more than these.
fn tells_of_window(
    alloc: Global,
    command: Command<'_>,
    window: &Params,
    file: &[u8],
    first_three: &Case,
) -> Option<bool> {
    let (honest, status) = told(alloc, command, &first_three.params, &first_three.file)?;
    let next = first_three.file.len() as u64 + 1;
    let mut reader = Counted::new(FailAt::new(Pieces::new(file, 1), next));
    let (outcome, text) = outcome_of(alloc, command, window, &mut reader);
    let is_same = outcome == Ok(status) && text.as_slice() == honest.as_slice();
    Some(is_same && Source::failures(&reader) == 0)
}

// Whether each command does so.
fn is_window_of(alloc: Global, window: &Params, file: &[u8], first_three: &Case) -> bool {
    for command in commands_of(first_three) {
        if tells_of_window(alloc, command, window, file, first_three) != Some(true) {
            return false;
        }
    }
    true
}

// Whether it is so of data after a handshake.
fn is_window_of_data(alloc: Global) -> Option<bool> {
    let keys = "code_length = 0/check_length = 0/last_record = 3";
    let window = parameters(alloc, keys)?;
    let handshake = case_of(alloc, row_at(1))?;
    let data = case_of(alloc, row_at(2))?;
    Some(is_window_of(alloc, &window, &data.file, &handshake))
}

#[test]
fn nothing_is_read_after_the_window(rt: HostRuntime) {
    assert_eq!(rt; is_window_of_data(rt.alloc()), Some(true));
}

// How often the reader was asked, how many lines were written, and whether it was ever asked for a record with
// the line of an earlier one still to write.
#[derive(Drop)]
struct Log {
    reads: Cell<u32>,
    lines: Cell<u32>,
    is_late: Cell<bool>,
}

// A reader over memory that logs its calls: one for the file's header, and two for each record.
#[derive(Drop)]
struct LoggedReader<'a> {
    rest: &'a [u8],
    log: &'a Log,
}

impl<'a> Read for LoggedReader<'a> {
    ghost remaining = { λ r. None };

    fn read(&mut self, buf: &mut [u8]) -> io::Result<usize> {
        let reads = self.log.reads.get();
        if self.log.lines.get() != reads.saturating_sub(1) / 2 {
            self.log.is_late.set(true);
        }
        self.log.reads.set(reads.saturating_add(1));
        self.rest.read(buf)
    }
}

// A writer that logs how many lines it took.
#[derive(Drop)]
struct LoggedWriter<'a> {
    log: &'a Log,
}

impl<'a> Write for LoggedWriter<'a> {
    ghost contents = { λ w. None };

    fn write(&mut self, buf: &[u8]) -> io::Result<usize> {
        for byte in buf {
            if *byte == b'\n' {
                self.log.lines.set(self.log.lines.get().saturating_add(1));
            }
        }
        Ok(buf.len())
    }

    fn flush(&mut self) -> io::Result<()> {
        Ok(())
    }
}

// The status with which data are shown, if they are, by devices that log their calls.
fn shown(alloc: Global, log: &Log) -> Option<u8> {
    let case = case_of(alloc, row_at(2))?;
    let rest = case.file.as_slice();
    let mut reader = Counted::new(LoggedReader { rest, log });
    let mut writer = Counted::new(LoggedWriter { log });
    run_show(alloc, &case.params, &mut reader, &mut writer).ok()
}

// The reader is asked for each of five records and for a sixth, and the sixth line is their count.
#[test]
fn each_line_is_written_before_the_next_record_is_read(rt: HostRuntime) {
    let log = Log {
        reads: Cell::new(0),
        lines: Cell::new(0),
        is_late: Cell::new(false),
    };
    let status = shown(rt.alloc(), &log);
    let told = (status, log.reads.get(), log.lines.get(), log.is_late.get());
    assert_eq!(rt; told, (Some(0), 12, 6, false));
}
