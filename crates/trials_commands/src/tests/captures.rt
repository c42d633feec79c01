//! Surveys of captures that are refused, and over devices that fail.
ghost use Rattle.std.specs.Prelude.{None};

use super::made::{Broken, NO_RECORD, Refused, told};
use rasta_pcap::devices::{FailAt, Pieces};
use seatmelon_commands::{Answer, survey_of, write_answer};
use seatmelon_failures::{Failure, STANDARD_OUTPUT};
use std::alloc::Global;
use std::io;
use std::io::{Read, Write};
use std::process::Abort;

// Captures that are refused, and what is said of them.
const REFUSED: [Refused; 8] = [
    Refused {
        file: b"",
        text: "1 c: the file ends inside its header (13 CutHeader)",
    },
    Refused {
        file: b"\x1f\x8b\x08\0\0\0\0\0",
        text: "1 c: the file ends inside its header (13 CutHeader)\nthis is a gzip file: gunzip it first",
    },
    Refused {
        file: b"\x1f\x8b\x08\0\0\0\0\0\0\x03 a body of twenty bytes",
        text: "1 c: this is not a classic libpcap file (10 NotPcap)\nthis is a gzip file: gunzip it first",
    },
    Refused {
        file: b"client_id = 96\nserver_id = 97\n",
        text: "1 c: this is not a classic libpcap file (10 NotPcap)\n\
               this looks like a text file; CAPTURE is the file that holds the packets",
    },
    Refused {
        file: b"\x7fELF, but of more than twenty-four bytes",
        text: "1 c: this is not a classic libpcap file (10 NotPcap)",
    },
    Refused {
        file: b"\xd4\xc3\xb2\xa1\x02\0\x05\0\0\0\0\0\0\0\0\0\0\0\x04\0\x01\0\0\0",
        text: "1 c: this is not version 2.4 of the libpcap format (11 Version)",
    },
    Refused {
        file: b"\xd4\xc3\xb2\xa1\x02\0\x04\0\0\0\0\0\0\0\0\0\0\0\x04\0\x71\0\0\0",
        text: "1 c: its frames are not Ethernet frames but of link type 113 (Linux cooked capture) (12 LinkType)\n\
               make Ethernet frames of them: seatmelon convert CAPTURE > OUT",
    },
    Refused {
        file: b"\xa1\xb2\xc3\xd4\0\x02\0\x04\0\0\0\0\0\0\0\0\0\x04\0\0\0\0\0\xc8",
        text: "1 c: its frames are not Ethernet frames but of link type 200 (12 LinkType)\n\
               capture on an Ethernet interface",
    },
];

// Why a reader's survey fails, behind the status of the program; none where it doesn't.
fn failure_text<D: Read + Drop>(alloc: Global, file: D) -> Option<String> {
    told(alloc, survey_of(alloc, "c", file, None).err()?)
}

// Whether a file's survey fails so, in one piece and byte by byte.
fn is_refused(alloc: Global, refused: &Refused) -> Option<bool> {
    let whole = failure_text(alloc, refused.file)?;
    let pieces = failure_text(alloc, Pieces::new(refused.file, 1))?;
    Some(whole.as_str() == refused.text && pieces.as_str() == refused.text)
}

#[test]
fn refused_captures(rt: HostRuntime) {
    for refused in &REFUSED {
        assert_eq!(rt;
            is_refused(rt.alloc(), refused),
            Some(true),
            "{}",
            refused.text
        );
    }
}

// How many connections a capture's survey finds.
fn connections_in<D: Read + Drop>(alloc: Global, file: D) -> Option<usize> {
    let survey = survey_of(alloc, "c", file, None).ok()?;
    Some(survey.connections().len())
}

#[test]
fn a_capture_without_a_record(rt: HostRuntime) {
    let count = connections_in(rt.alloc(), Pieces::new(NO_RECORD, 5));
    assert_eq!(rt; count, Some(0));
}

// Whether a reader's survey fails so.
fn fails<D: Read + Drop>(alloc: Global, file: D, text: &str) -> Option<bool> {
    Some(failure_text(alloc, file)?.as_str() == text)
}

#[test]
fn reasons_of_the_system(rt: HostRuntime) {
    let broken = Broken { number: 5 };
    assert_eq!(rt;
        fails(rt.alloc(), broken, "3 c: Input/output error"),
        Some(true)
    );
    let broken = Broken { number: 21 };
    assert_eq!(rt;
        fails(rt.alloc(), broken, "3 c: Is a directory"),
        Some(true)
    );
}

#[test]
fn a_reader_that_fails_at_each_call(rt: HostRuntime) {
    for call in 1..=3 {
        let file = FailAt::new(Pieces::new(NO_RECORD, 12), call);
        assert_eq!(rt;
            fails(rt.alloc(), file, "3 c: other error"),
            Some(true),
            "{call}"
        );
    }
}

// Why a survey can't be written there, behind the status of the program; none where it can.
fn unwritten_text(alloc: Global, device: FailAt<Vec<u8>>) -> Option<String> {
    let survey = survey_of(alloc, "c", NO_RECORD.as_slice(), None).ok()?;
    let failure = write_answer(alloc, STANDARD_OUTPUT, &Answer::Survey(&survey), device).err()?;
    told(alloc, failure)
}

// Whether a survey can't be written there, for this reason.
fn is_unwritten(alloc: Global, device: FailAt<Vec<u8>>, text: &str) -> Option<bool> {
    Some(unwritten_text(alloc, device)?.as_str() == text)
}

// A device whose reader is gone.
#[derive(Drop)]
struct Closed;

impl Write for Closed {
    ghost contents = { λ c. None };

    fn write(&mut self, _buf: &[u8]) -> io::Result<usize> {
        Err(io::Error::from_raw_os_error(32))
    }

    fn flush(&mut self) -> io::Result<()> {
        Ok(())
    }
}

// The status where a survey is written to nobody, and whether that is told.
fn closed_pipe(alloc: Global) -> Option<(u8, bool)> {
    let survey = survey_of(alloc, "c", NO_RECORD.as_slice(), None).ok()?;
    let failure = write_answer(alloc, STANDARD_OUTPUT, &Answer::Survey(&survey), Closed).err()?;
    let failure = Failure::from(failure);
    Some((failure.status(), failure.is_told()))
}

#[test]
fn a_pipe_that_is_closed(rt: HostRuntime) {
    assert_eq!(rt; closed_pipe(rt.alloc()), Some((3, false)));
}

#[test]
fn writers_that_fail(rt: HostRuntime) {
    let alloc = rt.alloc();
    let failing = FailAt::new(Vec::new(alloc), 1);
    let is_told = is_unwritten(alloc, failing, "3 standard output: other error");
    assert_eq!(rt; is_told, Some(true));
    let idle = FailAt::idle_at(Vec::new(alloc), 1);
    let is_told = is_unwritten(alloc, idle, "3 standard output: writing failed");
    assert_eq!(rt; is_told, Some(true));
}
