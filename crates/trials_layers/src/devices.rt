//! Readers and writers whose calls go wrong, in turn.
ghost use Rattle.std.specs.Prelude.{Some, None};

use rasta_pcap::devices::{FailAt, Pieces, WriteDevice};
use rasta_pcap::{Buffered, Counted, Sink, Source, read_all, write_all};
use std::alloc::Global;
use std::io;
use std::io::{ErrorKind, Read, Write};
use std::process::Abort;

const TEXT: &str = "twenty bytes of text";

// A reader of that text gives at most so many bytes a call, and a call of this number goes wrong so; what
// is read, or the number of the fault; and how many failures are counted.
const READS: &str = "\
1 0 fails | 20 bytes, 0 failures
7 0 fails | 20 bytes, 0 failures
20 0 fails | 20 bytes, 0 failures
8192 0 fails | 20 bytes, 0 failures
7 1 fails | fault 2 at 0, 1 failures
7 2 fails | fault 2 at 0, 1 failures
7 3 fails | fault 2 at 0, 1 failures
7 4 fails | fault 2 at 0, 1 failures
7 5 fails | 20 bytes, 0 failures
7 2 idles | 7 bytes, 0 failures
";

// A writer that takes one byte a call, the call that goes wrong, and how; how much of a text of three bytes
// is written, the fault if there is one, and how many failures are counted.
const WRITES: &str = "\
0 fails | 3 bytes, Ok(()), 0 failures
1 fails | 0 bytes, Err((3, 0)), 1 failures
2 fails | 1 bytes, Err((3, 0)), 1 failures
3 fails | 2 bytes, Err((3, 0)), 1 failures
4 fails | 3 bytes, Ok(()), 0 failures
1 idles | 0 bytes, Err((3, 0)), 1 failures
2 idles | 1 bytes, Err((3, 0)), 1 failures
3 idles | 2 bytes, Err((3, 0)), 1 failures
4 idles | 3 bytes, Ok(()), 0 failures
";

// A writer that takes one byte a call.
#[derive(Drop)]
struct Sips {
    taken: Vec<u8>,
}

impl Write for Sips {
    ghost contents = { λ s. Some s.taken.items };

    fn write(&mut self, buf: &[u8]) -> io::Result<usize> {
        let n = buf.len().min(1);
        self.taken.extend_from_slice(&buf[..n])?;
        Ok(n)
    }

    fn flush(&mut self) -> io::Result<()> {
        Ok(())
    }
}

impl WriteDevice for Sips {
    ghost write_gives = { λ _ _ _ _. Unit {0} };

    fn write_once(&mut self, buf: &[u8]) -> io::Result<usize> {
        self.write(buf)
    }
}

// A device, of which the call of this number goes wrong.
fn faulty<D>(device: D, call: u64, mishap: &str) -> FailAt<D> {
    if mishap == "idles" {
        FailAt::idle_at(device, call)
    } else {
        FailAt::new(device, call)
    }
}

// What is read from a faulty reader of the text; none where other bytes are read.
fn read_text(alloc: Global, most: usize, call: u64, mishap: &str) -> Option<String> {
    if most == 0 {
        return None;
    }
    let pieces = Pieces::new(TEXT.as_bytes(), most);
    let mut reader = Counted::new(faulty(pieces, call, mishap));
    let outcome = read_all(alloc, &mut reader);
    let failures = Source::failures(&reader);
    match outcome {
        Ok(bytes) if TEXT.as_bytes().starts_with(&bytes) => {
            format!(in alloc; "{} bytes, {failures} failures", bytes.len()).ok()
        }
        Ok(_) => None,
        Err(fault) => {
            format!(in alloc;
                "fault {} at {}, {failures} failures",
                fault.number, fault.place
            )
            .ok()
        }
    }
}

// Whether from the reader of a row is read what it says.
fn is_read(alloc: Global, row: &str) -> Option<bool> {
    let (device, want) = row.split_once(" | ")?;
    let mut words = device.split(' ');
    let most = words.next()?.parse().ok()?;
    let call = words.next()?.parse().ok()?;
    let mishap = words.next()?;
    Some(read_text(alloc, most, call, mishap)?.as_str() == want)
}

#[test]
fn each_read_goes_wrong_in_turn(rt: HostRuntime) {
    for row in READS.lines() {
        assert_eq!(rt; is_read(rt.alloc(), row), Some(true), "{row}");
    }
}

// What is written to a faulty writer; none where other bytes are written.
fn written_text(alloc: Global, call: u64, mishap: &str) -> Option<String> {
    let sips = Sips {
        taken: Vec::new(alloc),
    };
    let mut writer = Counted::new(faulty(sips, call, mishap));
    let outcome = write_all(&mut writer, b"abc").map_err(|fault| (fault.number, fault.place));
    let failures = Sink::failures(&writer);
    let taken = writer.into_inner().into_inner().taken;
    if !b"abc".starts_with(&taken) {
        return None;
    }
    format!(in alloc; "{} bytes, {outcome:?}, {failures} failures", taken.len()).ok()
}

// Whether to the writer of a row is written what it says.
fn is_written(alloc: Global, row: &str) -> Option<bool> {
    let (device, want) = row.split_once(" | ")?;
    let (call, mishap) = device.split_once(' ')?;
    Some(written_text(alloc, call.parse().ok()?, mishap)?.as_str() == want)
}

#[test]
fn each_write_goes_wrong_in_turn(rt: HostRuntime) {
    for row in WRITES.lines() {
        assert_eq!(rt; is_written(rt.alloc(), row), Some(true), "{row}");
    }
}

// How many bytes a call moved, or the kind of its error.
fn moved(outcome: io::Result<usize>) -> Result<usize, ErrorKind> {
    outcome.map_err(|error| error.kind())
}

// The first call is the device's, the second fails, and the device is then as it was.
#[test]
fn reader_answers_what_its_device_answers(rt: HostRuntime) {
    let mut reader = Counted::new(FailAt::new(Pieces::new(TEXT.as_bytes(), 7), 2));
    let mut buf = [0; 9];
    assert_eq!(rt; moved(Source::read(&mut reader, &mut buf)), Ok(7));
    assert_eq!(rt; buf.as_slice(), b"twenty \0\0".as_slice());
    assert_eq!(rt;
        moved(Source::read(&mut reader, &mut buf)),
        Err(ErrorKind::Other)
    );
    let mut device = reader.into_inner();
    assert_eq!(rt; moved(device.read(&mut buf)), Ok(7));
    assert_eq!(rt; buf.as_slice(), b"bytes o\0\0".as_slice());
}

// A buffer of five bytes is filled from reads of at most four, of which the second fails: what it holds
// is given first, and the source is read where it holds nothing.
#[test]
fn buffer_gives_what_its_source_gives(rt: HostRuntime) {
    let source = Counted::new(FailAt::new(Pieces::new(TEXT.as_bytes(), 4), 2));
    let Ok(mut reader) = Buffered::new(rt.alloc(), source, 5) else {
        panic!(rt; "out of memory");
    };
    let mut buf = [0; 3];
    assert_eq!(rt; moved(Source::read(&mut reader, &mut buf)), Ok(3));
    assert_eq!(rt; buf.as_slice(), b"twe".as_slice());
    assert_eq!(rt; moved(Source::read(&mut reader, &mut buf)), Ok(1));
    assert_eq!(rt; buf[0], b'n');
    assert_eq!(rt;
        moved(Source::read(&mut reader, &mut buf)),
        Err(ErrorKind::Other)
    );
    assert_eq!(rt; Source::failures(&reader), 1);
    let rest = read_all(rt.alloc(), &mut reader).ok();
    assert_eq!(rt; rest.as_deref(), Some(b"ty bytes of text".as_slice()));
}

// The second call takes no byte, and is counted.
#[test]
fn writer_answers_what_its_device_answers(rt: HostRuntime) {
    let sips = Sips {
        taken: Vec::new(rt.alloc()),
    };
    let mut writer = Counted::new(FailAt::idle_at(sips, 2));
    assert_eq!(rt; moved(Sink::write(&mut writer, b"xy")), Ok(1));
    assert_eq!(rt; moved(Sink::write(&mut writer, b"xy")), Ok(0));
    assert_eq!(rt; moved(Sink::write(&mut writer, b"xy")), Ok(1));
    assert_eq!(rt; Sink::failures(&writer), 1);
    let taken = writer.into_inner().into_inner().taken;
    assert_eq!(rt; taken.as_slice(), b"xx".as_slice());
}

// A writer whose flush fails.
#[derive(Drop)]
struct Clogged;

impl Write for Clogged {
    ghost contents = { λ c. None };

    fn write(&mut self, buf: &[u8]) -> io::Result<usize> {
        Ok(buf.len())
    }

    fn flush(&mut self) -> io::Result<()> {
        Err(io::Error::from(ErrorKind::Other))
    }
}

impl WriteDevice for Clogged {
    ghost write_gives = { λ _ _ _ _. Unit {0} };

    fn write_once(&mut self, buf: &[u8]) -> io::Result<usize> {
        self.write(buf)
    }
}

#[test]
fn flush_is_handed_on(rt: HostRuntime) {
    assert!(rt; FailAt::new(Clogged, 1).flush().is_err());
    assert!(rt; FailAt::new(Vec::<u8>::new(rt.alloc()), 1).flush().is_ok());
}
