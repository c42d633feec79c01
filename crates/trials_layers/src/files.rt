//! Files: their records, or what refuses them, in memory and from readers.
use rasta_pcap::devices::{FailAt, Pieces};
use rasta_pcap::stream::RecordReader;
use rasta_pcap::{Counted, Fault, Pcap, Record, Source, Stream, read_all};
use std::alloc::Global;
use std::process::Abort;
use trials_rows::bytes_of;

// The bytes of a file, and what is read from it: its records, each with its number and its bytes, and then
// its end; or the number and the place of a fault. Zone, significant figures and snapshot length may be
// anything.
const ROWS: &str = "\
d4c3b2a1 02000400 ffffffff ffffffff ffffffff 01000000 | end
4d3cb2a1 02000400 ffffffff ffffffff ffffffff 01000000 | end
a1b2c3d4 00020004 ffffffff ffffffff ffffffff 00000001 | end
a1b23c4d 00020004 ffffffff ffffffff ffffffff 00000001 | end
d4c3b2a1 02000400 00000000 00000000 00000400 01000000 eeeeeeee eeeeeeee 03000000 eeeeeeee 010203 eeeeeeee eeeeeeee 00000000 eeeeeeee | 1 [1, 2, 3], 2 [], end
a1b2c3d4 00020004 00000000 00000000 00040000 00000001 eeeeeeee eeeeeeee 00000003 eeeeeeee 010203 eeeeeeee eeeeeeee 00000000 eeeeeeee | 1 [1, 2, 3], 2 [], end
 | 13 0
d4c3b2a1 02000400 00000000 00000000 00000400 010000 | 13 0
00000000 00000000 00000000 00000000 00000000 00000000 | 10 0
d5c3b2a1 03000400 00000000 00000000 00000400 02000000 | 10 0
d4c3b2a1 03000400 00000000 00000000 00000400 02000000 | 11 0
d4c3b2a1 02000300 00000000 00000000 00000400 02000000 | 11 0
a1b2c3d4 02000400 00000000 00000000 00000400 00000001 | 11 0
d4c3b2a1 02000400 00000000 00000000 00000400 02000000 | 12 0
d4c3b2a1 02000400 00000000 00000000 00000400 01000000 eeeeeeee eeeeeeee ffffffff eeeeee | 14 1
d4c3b2a1 02000400 00000000 00000000 00000400 01000000 eeeeeeee eeeeeeee 00000400 eeeeeeee | 14 1
d4c3b2a1 02000400 00000000 00000000 00000400 01000000 eeeeeeee eeeeeeee 01000400 eeeeeeee | 18 1
a1b2c3d4 00020004 00000000 00000000 00040000 00000001 eeeeeeee eeeeeeee 00040001 eeeeeeee | 18 1
d4c3b2a1 02000400 00000000 00000000 00000400 01000000 eeeeeeee eeeeeeee 02000000 eeeeeeee 07 | 14 1
d4c3b2a1 02000400 00000000 00000000 00000400 01000000 eeeeeeee eeeeeeee 02000000 eeeeeeee 0707 00 | 1 [7, 7], 14 2
";

fn fault_text(alloc: Global, fault: Fault) -> Option<String> {
    format!(in alloc; "{} {}", fault.number, fault.place).ok()
}

fn record_text(alloc: Global, record: &Record) -> Option<String> {
    format!(in alloc; "{} {:?}, ", record.number, record.bytes).ok()
}

// The first nine answers of a call, up to the last record.
macro_rules! first_nine {
    ($alloc:ident, $next:ident(&mut $from:ident)) => {{
        let mut text = String::new($alloc);
        for _ in 0..9 {
            let (next, is_last) = $next($alloc, &mut $from)?;
            text.push_str(next.as_str()).ok()?;
            if is_last {
                // Later calls answer the same.
                return ($next($alloc, &mut $from)?.0 == next).then_some(text);
            }
        }
        None
    }};
}

// What the next record is, and whether it is the last.
fn next_text(alloc: Global, pcap: &mut Pcap) -> Option<(String, bool)> {
    match pcap.next_record() {
        Ok(Some(record)) => Some((record_text(alloc, &record)?, false)),
        Ok(None) => Some((String::from_str(alloc, "end").ok()?, true)),
        Err(fault) => Some((fault_text(alloc, fault)?, true)),
    }
}

// What the first nine records of a file are.
fn file_text(alloc: Global, file: &[u8]) -> Option<String> {
    let mut pcap = match Pcap::open(file) {
        Ok(pcap) => pcap,
        Err(fault) => return fault_text(alloc, fault),
    };
    first_nine!(alloc, next_text(&mut pcap))
}

// What the next record of a stream is, and whether it is the last.
fn next_of_stream<R: Source + Drop>(
    alloc: Global,
    stream: &mut Stream<R>,
) -> Option<(String, bool)> {
    match stream.next_record() {
        Ok(Some(record)) => Some((record_text(alloc, &record)?, false)),
        Ok(None) => Some((String::from_str(alloc, "end").ok()?, true)),
        Err(fault) => Some((fault_text(alloc, fault)?, true)),
    }
}

// What the first nine records from a reader are.
fn stream_text<R: Source + Drop>(alloc: Global, reader: R) -> Option<String> {
    let mut stream = match Stream::open(alloc, reader) {
        Ok(stream) => stream,
        Err(fault) => return fault_text(alloc, fault),
    };
    first_nine!(alloc, next_of_stream(&mut stream))
}

// Whether a file comes so from readers in pieces.
fn is_streamed_so(alloc: Global, file: &[u8], want: &str) -> Option<bool> {
    let bytes = stream_text(alloc, Counted::new(Pieces::new(file, 1)))?;
    let pieces = stream_text(alloc, Counted::new(Pieces::new(file, 7)))?;
    let whole = stream_text(alloc, Counted::new(Pieces::new(file, 4096)))?;
    Some(bytes.as_str() == want && pieces.as_str() == want && whole.as_str() == want)
}

// Whether the file of a row is what it says.
fn answer(alloc: Global, row: &str) -> Option<bool> {
    let (digits, want) = row.split_once(" | ")?;
    let file = bytes_of(alloc, digits)?;
    let text = file_text(alloc, &file)?;
    Some(text.as_str() == want && is_streamed_so(alloc, &file, want)?)
}

#[test]
fn files_are_read_so(rt: HostRuntime) {
    for row in ROWS.lines() {
        assert_eq!(rt; answer(rt.alloc(), row), Some(true), "{row}");
    }
}

const TWO_RECORDS: &str = "d4c3b2a1 02000400 00000000 00000000 00000400 01000000
eeeeeeee eeeeeeee 03000000 eeeeeeee 010203 eeeeeeee eeeeeeee 00000000 eeeeeeee";

// A reader gives at most seven bytes a call; the call that fails; and what is read from it.
const FAILING: &str = "\
1 | 2 0
4 | 2 0
5 | 2 0
8 | 2 0
9 | 1 [1, 2, 3], 2 0
11 | 1 [1, 2, 3], 2 0
12 | 1 [1, 2, 3], 2 [], 2 0
13 | 1 [1, 2, 3], 2 [], end
";

// Whether from the failing reader of a row comes what it says.
fn fails_so(alloc: Global, row: &str) -> Option<bool> {
    let (call, want) = row.split_once(" | ")?;
    let file = bytes_of(alloc, TWO_RECORDS)?;
    let reader = FailAt::new(Pieces::new(&file, 7), call.parse().ok()?);
    Some(stream_text(alloc, Counted::new(reader))?.as_str() == want)
}

#[test]
fn reads_of_a_stream_fail_in_turn(rt: HostRuntime) {
    for row in FAILING.lines() {
        assert_eq!(rt; fails_so(rt.alloc(), row), Some(true), "{row}");
    }
}

// How many records of that file are asked for one after the other, what each call answers and lends, and how
// many bytes the reader then has left.
const ADVANCES: &str = "\
0 | 35 left
1 | 1 [1, 2, 3], 16 left
2 | 1 [1, 2, 3], 2 [], 0 left
3 | 1 [1, 2, 3], 2 [], end, 0 left
";

// What a call answers, with the bytes that are lent after it.
fn advance_text(alloc: Global, answer: Result<Option<u32>, Fault>, bytes: &[u8]) -> Option<String> {
    match answer {
        Ok(Some(number)) => record_text(alloc, &Record { number, bytes }),
        Ok(None) => String::from_str(alloc, "end, ").ok(),
        Err(fault) => fault_text(alloc, fault),
    }
}

// What so many calls of a stream answer and lend, and what is left of the reader that it gives back.
fn advances_of_stream(alloc: Global, file: &[u8], calls: u32) -> Option<String> {
    let mut stream = Stream::open(alloc, Counted::new(Pieces::new(file, 7))).ok()?;
    let mut text = String::new(alloc);
    for _ in 0..calls {
        let answer = stream.advance();
        let next = advance_text(alloc, answer, stream.buffer())?;
        text.push_str(next.as_str()).ok()?;
    }
    let left = read_all(alloc, &mut stream.into_inner()).ok()?;
    format!(in alloc; "{text}{} left", left.len()).ok()
}

// The same over a reader that each call is passed.
fn advances_of_reader(alloc: Global, file: &[u8], calls: u32) -> Option<String> {
    let mut reader = Counted::new(Pieces::new(file, 7));
    let mut records = RecordReader::open(alloc, &mut reader).ok()?;
    let mut text = String::new(alloc);
    for _ in 0..calls {
        let answer = records.advance(&mut reader);
        let next = advance_text(alloc, answer, records.buffer())?;
        text.push_str(next.as_str()).ok()?;
    }
    let left = read_all(alloc, &mut reader).ok()?;
    format!(in alloc; "{text}{} left", left.len()).ok()
}

// Whether both answer the calls of a row as it says.
fn advances_so(alloc: Global, row: &str) -> Option<bool> {
    let (calls, want) = row.split_once(" | ")?;
    let calls = calls.parse().ok()?;
    let file = bytes_of(alloc, TWO_RECORDS)?;
    let of_stream = advances_of_stream(alloc, &file, calls)?;
    let of_reader = advances_of_reader(alloc, &file, calls)?;
    Some(of_stream.as_str() == want && of_reader.as_str() == want)
}

#[test]
fn records_are_read_in_turn(rt: HostRuntime) {
    for row in ADVANCES.lines() {
        assert_eq!(rt; advances_so(rt.alloc(), row), Some(true), "{row}");
    }
}
