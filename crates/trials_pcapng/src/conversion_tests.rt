//! What pcapng files are read as, and why they are refused.
use rasta_pcap::devices::{FailAt, Pieces};
use rasta_pcap::{Counted, Source, read_all};
use seatmelon_pcapng::{Classic, Reason, Refusal, Remarks, is_pcapng};
use std::alloc::Global;
use std::process::Abort;
use trials_rows::blocks_of;

// The header of a classic capture: nanoseconds, lowest byte first, version 2.4, 262,144 bytes at most, Ethernet.
const HEADER: &str = "4:2712812621 2:2 2:4 4:0 4:0 4:262144 4:1";

// The blocks of a file; the records of its classic capture, each with seconds, nanoseconds, both lengths and bytes; and
// why it is refused.
const ROWS: &str = "\
section | . | -
section ethernet | . | -
section ethernet [6 4:0 4:0 4:1000002 4:3 4:9 x010203 ] | 4:1 4:2000 4:3 4:9 x010203 | -
big section ethernet [6 4:0 4:0 4:1000002 4:3 4:9 x010203 ] | 4:1 4:2000 4:3 4:9 x010203 | -
section ethernet [6 4:0 4:1 4:0 4:0 4:0 ] | 4:4294 4:967296000 4:0 4:0 | -
section ethernet [6 4:0 4:0 4:7 4:4 4:4 x01020304 2:1 2:2 x6162 2:0 2:0 ] | 4:0 4:7000 4:4 4:4 x01020304 | -
section ethernet [2 2:0 2:5 4:0 4:1000002 4:3 4:9 x010203 ] | 4:1 4:2000 4:3 4:9 x010203 | -
big section ethernet [2 2:0 2:5 4:0 4:1000002 4:3 4:9 x010203 ] | 4:1 4:2000 4:3 4:9 x010203 | -
section ethernet [3 4:3 x010203 ] | 4:0 4:0 4:3 4:3 x010203 | -
section [1 2:1 2:0 4:2 ] [3 4:9 x0102 ] | 4:0 4:0 4:2 4:9 x0102 | -
section [1 2:1 2:0 4:9 ] [3 4:2 x0102 ] | 4:0 4:0 4:2 4:2 x0102 | -
section [1 2:1 2:0 4:2 ] [6 4:0 4:0 4:0 4:3 4:3 x010203 ] | 4:0 4:0 4:3 4:3 x010203 | -
section ethernet [4 4:1 2:0 2:0 ] [5 4:0 4:0 4:0 ] [10 x01 ] [2989 4:9 z8 ] [3 4:1 x07 ] [1073741827 ] | 4:0 4:0 4:1 4:1 x07 | -
section ethernet [3 4:1 x07 ] [3 4:1 x08 ] | 4:0 4:0 4:1 4:1 x07 4:0 4:0 4:1 4:1 x08 | -
section [1 2:1 2:0 4:0 2:9 2:1 x09 ] [6 4:0 4:0 4:1000000002 4:0 4:0 ] | 4:1 4:2 4:0 4:0 | -
section [1 2:1 2:0 4:0 2:9 2:1 x00 z3 2:0 2:0 ] [6 4:0 4:0 4:7 4:0 4:0 ] | 4:7 4:0 4:0 4:0 | -
section [1 2:1 2:0 4:0 2:9 2:1 x03 ] [6 4:0 4:0 4:7008 4:0 4:0 ] | 4:7 4:8000000 4:0 4:0 | -
section [1 2:1 2:0 4:0 2:9 2:1 x0b ] [6 4:0 4:23 4:1215752299 4:0 4:0 ] | 4:1 4:1 4:0 4:0 | -
section [1 2:1 2:0 4:0 2:9 2:1 x26 ] [6 4:0 4:4294967295 4:4294967295 4:0 4:0 ] | 4:0 4:0 4:0 4:0 | -
section [1 2:1 2:0 4:0 2:9 2:1 x27 ] [6 4:0 4:4294967295 4:4294967295 4:0 4:0 ] | 4:0 4:0 4:0 4:0 | -
section [1 2:1 2:0 4:0 2:9 2:1 x7f ] [6 4:0 4:4294967295 4:4294967295 4:0 4:0 ] | 4:0 4:0 4:0 4:0 | -
section [1 2:1 2:0 4:0 2:9 2:1 x86 ] [6 4:0 4:0 4:65 4:0 4:0 ] | 4:1 4:15625000 4:0 4:0 | -
section [1 2:1 2:0 4:0 2:9 2:1 x80 ] [6 4:0 4:0 4:65 4:0 4:0 ] | 4:65 4:0 4:0 4:0 | -
section [1 2:1 2:0 4:0 2:9 2:1 xa0 ] [6 4:0 4:3 4:2147483648 4:0 4:0 ] | 4:3 4:500000000 4:0 4:0 | -
section [1 2:1 2:0 4:0 2:9 2:1 xff ] [6 4:0 4:4294967295 4:4294967295 4:0 4:0 ] | 4:0 4:0 4:0 4:0 | -
section [1 2:1 2:0 4:0 2:9 2:1 x00 ] [6 4:0 4:0 4:4294967295 4:0 4:0 ] | 4:4294967295 4:0 4:0 4:0 | -
section [1 2:1 2:0 4:0 2:9 2:1 x00 ] [6 4:0 4:1 4:0 4:0 4:0 ] | 4:0 4:0 4:0 4:0 | -
section [1 2:1 2:0 4:0 2:14 2:8 8:100 ] [6 4:0 4:0 4:1000002 4:0 4:0 ] | 4:101 4:2000 4:0 4:0 | -
big section [1 2:1 2:0 4:0 2:14 2:8 8:100 ] [6 4:0 4:0 4:1000002 4:0 4:0 ] | 4:101 4:2000 4:0 4:0 | -
section [1 2:1 2:0 4:0 2:14 2:8 8:18446744073709551615 ] [6 4:0 4:0 4:3000002 4:0 4:0 ] | 4:2 4:2000 4:0 4:0 | -
section [1 2:1 2:0 4:0 2:14 2:8 8:18446744073709551615 ] [6 4:0 4:0 4:2 4:0 4:0 ] | 4:0 4:0 4:0 4:0 | -
section [1 2:1 2:0 4:0 2:14 2:4 4:100 ] [6 4:0 4:0 4:1000002 4:0 4:0 ] | 4:1 4:2000 4:0 4:0 | -
section [1 2:1 2:0 4:0 2:9 2:2 x0900 z2 ] [6 4:0 4:0 4:1000002 4:0 4:0 ] | 4:1 4:2000 4:0 4:0 | -
section [1 2:1 2:0 4:0 2:2 2:5 x6574683030 z3 2:14 2:8 8:1 2:9 2:1 x00 z3 2:9 2:1 x03 ] [6 4:0 4:0 4:7 4:0 4:0 ] | 4:8 4:0 4:0 4:0 | -
section [1 2:1 2:0 4:0 2:0 2:0 2:9 2:1 x00 ] [6 4:0 4:0 4:7 4:0 4:0 ] | 4:0 4:7000 4:0 4:0 | -
section [1 2:1 2:0 4:0 2:2 2:99 2:9 2:1 x00 ] [6 4:0 4:0 4:7 4:0 4:0 ] | 4:0 4:7000 4:0 4:0 | -
section [1 2:101 2:0 4:0 ] [6 4:0 4:0 4:7 4:3 4:9 x010203 ] [3 4:9 z9 ] | 4:0 4:7000 4:0 4:9 4:0 4:0 4:0 4:9 | -
section ethernet [1 2:101 2:0 4:0 2:9 2:1 x00 ] [6 4:1 4:0 4:7 4:1 4:1 x01 ] [6 4:0 4:0 4:7 4:1 4:1 x02 ] | 4:7 4:0 4:0 4:1 4:0 4:7000 4:1 4:1 x02 | -
section [1 2:113 2:0 4:0 ] [6 4:0 4:0 4:1000002 4:19 4:21 x0000000100060a0b0c0d0e0f0000080045aabb ] | 4:1 4:2000 4:17 4:19 x0000000000000a0b0c0d0e0f080045aabb | -
big section [1 2:113 2:0 4:0 ] [6 4:0 4:0 4:1000002 4:19 4:19 x0000000100060a0b0c0d0e0f0000080045aabb ] | 4:1 4:2000 4:17 4:17 x0000000000000a0b0c0d0e0f080045aabb | -
section [1 2:276 2:0 4:0 ] [6 4:0 4:0 4:1000002 4:23 4:23 x0800000000000003000100060a0b0c0d0e0f000045aabb ] | 4:1 4:2000 4:17 4:17 x0000000000000a0b0c0d0e0f080045aabb | -
big section [1 2:276 2:0 4:0 ] [6 4:0 4:0 4:1000002 4:23 4:29 x0800000000000003000100060a0b0c0d0e0f000045aabb ] | 4:1 4:2000 4:17 4:23 x0000000000000a0b0c0d0e0f080045aabb | -
section [1 2:113 2:0 4:0 ] [6 4:0 4:0 4:7 4:17 4:17 x0000030400000000000000000000080045 ] | 4:0 4:7000 4:15 4:15 z12 x080045 | -
section [1 2:113 2:0 4:0 ] [6 4:0 4:0 4:7 4:17 4:17 x0000002000080102030405060708080045 ] | 4:0 4:7000 4:15 4:15 z12 x080045 | -
section [1 2:276 2:0 4:0 ] [6 4:0 4:0 4:7 4:21 4:21 x0800000000000003002000080102030405060708ff ] | 4:0 4:7000 4:15 4:15 z12 x0800ff | -
section [1 2:113 2:0 4:0 ] [6 4:0 4:0 4:7 4:16 4:16 x00000001000601020304050600008892 ] | 4:0 4:7000 4:14 4:14 z6 x0102030405068892 | -
section [1 2:113 2:0 4:0 ] [6 4:0 4:0 4:7 4:15 4:60 x000000010006010203040506000088 ] | 4:0 4:7000 4:0 4:58 | -
section [1 2:276 2:0 4:0 ] [6 4:0 4:0 4:7 4:19 4:60 x08000000000000030001000601020304050600 ] | 4:0 4:7000 4:0 4:54 | -
section [1 2:276 2:0 4:0 ] [6 4:0 4:0 4:7 4:3 4:3 x080000 ] | 4:0 4:7000 4:0 4:0 | -
section [1 2:113 2:0 4:18 ] [3 4:40 x000000010006010203040506000008004511 ] | 4:0 4:0 4:16 4:38 z6 x01020304050608004511 | -
big section [1 2:276 2:0 4:0 ] [2 2:0 2:5 4:0 4:1000002 4:20 4:24 x0800000000000003000100060102030405060000 ] | 4:1 4:2000 4:14 4:18 z6 x0102030405060800 | -
section ethernet [1 2:276 2:0 4:0 ] [1 2:101 2:0 4:0 ] [6 4:0 4:0 4:7 4:1 4:1 x01 ] [6 4:1 4:0 4:7 4:21 4:21 x080000000000000300010006010203040506000002 ] [6 4:2 4:0 4:7 4:3 4:9 x010203 ] [6 4:0 4:0 4:7 4:1 4:1 x04 ] | 4:0 4:7000 4:1 4:1 x01 4:0 4:7000 4:15 4:15 z6 x010203040506080002 4:0 4:7000 4:0 4:9 4:0 4:7000 4:1 4:1 x04 | -
section [1 2:113 2:0 4:0 ] [6 4:0 4:0 4:0 4:5 4:5 x01020304 ] | . | CapturedBeyond at 48
section [1 2:113 2:0 4:0 ] [6 4:0 4:0 4:0 4:262144 4:0 z262144 ] | 4:0 4:0 4:262142 4:0 z262142 | -
section ethernet [3 4:1 x07 ] big section [1 2:1 2:0 4:0 2:9 2:1 x09 ] [6 4:0 4:0 4:7 4:2 4:2 x0102 ] | 4:0 4:0 4:1 4:1 x07 4:0 4:7 4:2 4:2 x0102 | -
big section ethernet [3 4:1 x07 ] little section [1 2:1 2:0 4:0 2:9 2:1 x09 ] [6 4:0 4:0 4:7 4:2 4:2 x0102 ] | 4:0 4:0 4:1 4:1 x07 4:0 4:7 4:2 4:2 x0102 | -
[168627466 4:439041101 2:1 2:2 8:0 2:4 2:3 x616263 z1 2:0 2:0 ] ethernet [3 4:1 x07 ] | 4:0 4:0 4:1 4:1 x07 | -
ethernet section | . | NotPcapng at 0
4:2712812621 2:2 2:4 4:0 4:0 4:262144 4:1 | . | NotPcapng at 0
[168627466 4:439041102 2:1 2:0 8:0 ] | . | ByteOrder at 0
section [168627466 4:0 2:1 2:0 8:0 ] | . | ByteOrder at 28
[168627466 4:439041101 2:1 2:1 8:0 ] | . | Version at 0
[168627466 4:439041101 2:2 2:0 8:0 ] | . | Version at 0
section ethernet [3 4:1 x07 ] [168627466 4:439041101 2:0 2:0 8:0 ] | 4:0 4:0 4:1 4:1 x07 | Version at 68
x0a0d0d0a | . | Cut at 0
section x00 | . | Cut at 28
section ethernet [3 4:1 x07 ] -1 | . | Cut at 48
section ethernet [3 4:1 x07 ] [3 4:1 x07 ] -19 | 4:0 4:0 4:1 4:1 x07 | Cut at 68
section [168627466 4:439041101 2:1 2:0 8:0 ]27/27 | . | Length at 28
section [168627466 4:439041101 2:1 2:0 8:0 ]24/24 | . | Length at 28
section [1 2:1 2:0 4:0 ]16/16 | . | Length at 28
section ethernet [6 4:0 4:0 4:0 4:0 4:0 ]28/28 | . | Length at 48
section ethernet [2 4:0 4:0 4:0 4:0 4:0 ]28/28 | . | Length at 48
section ethernet [3 4:0 ]12/12 | . | Length at 48
section [9 ]8/8 | . | Length at 28
section [9 ]0/0 | . | Length at 28
section [9 4:0 ]14/14 | . | Length at 28
section [9 4:0 ]16777220/16777220 | . | TooLong at 28
section [9 4:0 ]16777216/16777216 | . | Cut at 28
section [9 4:0 ]16/20 | . | Trailer at 28
section ethernet [3 4:1 x07 ] [3 4:1 x07 ]20/16 | 4:0 4:0 4:1 4:1 x07 | Trailer at 68
section [3 4:1 x07 ] | . | Interface at 28
section [6 4:0 4:0 4:0 4:0 4:0 ] | . | Interface at 28
section ethernet [6 4:1 4:0 4:0 4:0 4:0 ] | . | Interface at 48
section ethernet [2 2:1 2:0 4:0 4:0 4:0 4:0 ] | . | Interface at 48
section ethernet [3 4:1 x07 ] section [3 4:1 x07 ] | 4:0 4:0 4:1 4:1 x07 | Interface at 96
section ethernet [6 4:0 4:0 4:0 4:5 4:5 x01020304 ] | . | CapturedBeyond at 48
section ethernet [3 4:5 x01020304 ] | . | CapturedBeyond at 48
section ethernet [6 4:0 4:0 4:0 4:262145 4:0 z262145 ] | . | CapturedTooLong at 48
section ethernet [6 4:0 4:0 4:0 4:262144 4:0 z262144 ] | 4:0 4:0 4:262144 4:0 z262144 | -
";

fn refusal_text(alloc: Global, refusal: Option<Refusal>) -> Option<String> {
    match refusal {
        Some(Refusal { reason, at }) => format!(in alloc; "{reason:?} at {at}").ok(),
        None => String::from_str(alloc, "-").ok(),
    }
}

// The classic capture of these records: one of a file that is refused ends inside the next.
fn capture(alloc: Global, records: &str, is_refused: bool) -> Option<Vec<u8>> {
    let mut file = blocks_of(alloc, HEADER)?;
    file.extend_from_slice(blocks_of(alloc, records)?.as_slice())
        .ok()?;
    if is_refused {
        file.push(0).ok()?;
    }
    Some(file)
}

// Whether a file that comes in pieces of so many bytes is read so.
fn is_read_so(
    alloc: Global,
    file: &[u8],
    most: usize,
    records: &str,
    refusal: &str,
) -> Option<bool> {
    let most = most.max(1);
    let mut classic = Classic::new(alloc, Counted::new(Pieces::new(file, most))).ok()?;
    let bytes = read_all(alloc, &mut classic).ok()?;
    let wanted = capture(alloc, records, refusal != "-")?;
    let text = refusal_text(alloc, classic.refusal())?;
    Some(bytes == wanted && text.as_str() == refusal && !classic.lacks_memory())
}

fn answer(alloc: Global, row: &str) -> Option<bool> {
    let (blocks, rest) = row.split_once(" | ")?;
    let (records, refusal) = rest.split_once(" | ")?;
    let file = blocks_of(alloc, blocks)?;
    let sips = is_read_so(alloc, file.as_slice(), 1, records, refusal)?;
    let pieces = is_read_so(alloc, file.as_slice(), 7, records, refusal)?;
    let whole = is_read_so(alloc, file.as_slice(), 1 << 20, records, refusal)?;
    Some(sips && pieces && whole)
}

#[test]
fn files_are_read_so(rt: HostRuntime) {
    for row in ROWS.lines() {
        assert_eq!(rt; answer(rt.alloc(), row), Some(true), "{row}");
    }
}

// The blocks of a file; the link type that is told of its packets without bytes, and that of those with cooked headers.
const LINK_TYPE_ROWS: &str = "\
section [1 2:101 2:0 4:0 ] | - | -
section [1 2:101 2:0 4:0 ] ethernet [1 2:276 2:0 4:0 ] [6 4:1 4:0 4:0 4:0 4:0 ] | - | -
section [1 2:101 2:0 4:0 ] ethernet [1 2:195 2:0 4:0 ] [6 4:0 4:0 4:0 4:0 4:0 ] [6 4:2 4:0 4:0 4:0 4:0 ] | 101 | -
section [1 2:101 2:0 4:0 ] ethernet [1 2:195 2:0 4:0 ] [6 4:1 4:0 4:0 4:0 4:0 ] [6 4:2 4:0 4:0 4:0 4:0 ] | 195 | -
section [1 2:101 2:0 4:0 ] ethernet [1 2:276 2:0 4:0 ] [6 4:0 4:0 4:0 4:0 4:0 ] [6 4:2 4:0 4:0 4:0 4:0 ] | 101 | 276
section [1 2:101 2:0 4:0 ] ethernet [1 2:276 2:0 4:0 ] [6 4:2 4:0 4:0 4:0 4:0 ] [6 4:0 4:0 4:0 4:0 4:0 ] | 101 | 276
section [1 2:113 2:0 4:0 ] ethernet [1 2:276 2:0 4:0 ] [6 4:1 4:0 4:0 4:0 4:0 ] [6 4:2 4:0 4:0 4:0 4:0 ] | - | 276
section [1 2:101 2:0 4:0 ] [3 4:9 z9 ] section [1 2:195 2:0 4:0 ] [3 4:9 z9 ] | 101 | -
section [1 2:113 2:0 4:0 ] [3 4:9 z9 ] section [1 2:276 2:0 4:0 ] [3 4:9 z9 ] | - | 113
section ethernet [3 4:1 x07 ] big section [1 2:195 2:0 4:0 ] [2 2:0 2:5 4:0 4:1 4:0 4:9 ] | 195 | -
section ethernet [3 4:1 x07 ] big section [1 2:276 2:0 4:0 ] [2 2:0 2:5 4:0 4:1 4:0 4:9 ] | - | 276
section [1 2:101 2:0 4:0 ] [6 4:0 4:0 4:0 4:5 4:5 x01020304 ] | - | -
section [1 2:276 2:0 4:0 ] [6 4:0 4:0 4:0 4:5 4:5 x01020304 ] | - | -
section [1 2:195 2:0 4:0 ] [3 4:1 x07 ] [9 4:0 ]16/20 | 195 | -
section [1 2:276 2:0 4:0 ] [3 4:1 x07 ] [9 4:0 ]16/20 | - | 276
";

fn link_type_of(text: &str) -> Option<u16> {
    text.parse().ok()
}

// Whether both link types are told of a file that comes in pieces of so many bytes.
fn are_link_types_told(alloc: Global, file: &[u8], most: usize, link_types: &str) -> Option<bool> {
    let (other, cooked) = link_types.split_once(" | ")?;
    let most = most.max(1);
    let mut classic = Classic::new(alloc, Counted::new(Pieces::new(file, most))).ok()?;
    read_all(alloc, &mut classic).ok()?;
    let wanted = Remarks {
        refusal: classic.refusal(),
        other_link_type: link_type_of(other),
        cooked_link_type: link_type_of(cooked),
    };
    Some(classic.remarks() == wanted)
}

fn link_type_answer(alloc: Global, row: &str) -> Option<bool> {
    let (blocks, link_types) = row.split_once(" | ")?;
    let file = blocks_of(alloc, blocks)?;
    let sips = are_link_types_told(alloc, file.as_slice(), 1, link_types)?;
    let whole = are_link_types_told(alloc, file.as_slice(), 1 << 20, link_types)?;
    Some(sips && whole)
}

#[test]
fn link_types_are_told_so(rt: HostRuntime) {
    for row in LINK_TYPE_ROWS.lines() {
        assert_eq!(rt; link_type_answer(rt.alloc(), row), Some(true), "{row}");
    }
}

// A file with a packet in each of two sections, and where its blocks end.
const SMALL: &str =
    "section ethernet [3 4:1 x07 ] big section ethernet [6 4:0 4:0 4:7 4:2 4:2 x0102 ]";

const ENDS: [usize; 7] = [0, 28, 48, 68, 96, 116, 152];

// Its classic capture, and how long that is with none, one and both of its packets.
const SMALL_RECORDS: &str = "4:0 4:0 4:1 4:1 x07 4:0 4:7000 4:2 4:2 x0102";

const LENGTHS: [usize; 3] = [24, 41, 59];

// Whether its first bytes are read as a front of its classic capture, and refused inside of a block.
fn front_answer(alloc: Global, len: usize) -> Option<bool> {
    let file = blocks_of(alloc, SMALL)?;
    let whole = capture(alloc, SMALL_RECORDS, false)?;
    let mut classic = Classic::new(alloc, Counted::new(Pieces::new(file.get(..len)?, 5))).ok()?;
    let mut bytes = read_all(alloc, &mut classic).ok()?;
    let last = ENDS.iter().rev().find(|end| **end <= len)?;
    let records = ENDS
        .iter()
        .filter(|end| (**end == 68 || **end == 152) && **end <= len)
        .count();
    let wanted = LENGTHS.get(records)?;
    let refusal = if *last == len {
        None
    } else {
        // The mark of a refusal.
        let _ = bytes.pop()?;
        Some(Refusal {
            reason: Reason::Cut,
            at: u64::try_from(*last).ok()?,
        })
    };
    Some(classic.refusal() == refusal && bytes.as_slice() == whole.get(..*wanted)?)
}

#[test]
fn each_cut_is_read_so(rt: HostRuntime) {
    for len in 0..=152 {
        assert_eq!(rt; front_answer(rt.alloc(), len), Some(true), "{len}");
    }
}

// Whether nothing is lost where a read of this number fails, and the next are asked again.
fn failed_answer(alloc: Global, call: u64) -> Option<bool> {
    let file = blocks_of(alloc, SMALL)?;
    let device = FailAt::new(Pieces::new(file.as_slice(), 5), call);
    let mut classic = Classic::new(alloc, Counted::new(device)).ok()?;
    let mut bytes = Vec::new(alloc);
    let mut buffer = [0; 9];
    let mut failures = 0;
    for _ in 0..99 {
        match classic.read(&mut buffer) {
            Ok(n) => bytes.extend_from_slice(buffer.get(..n)?).ok()?,
            Err(_) => failures = classic.failures(),
        }
    }
    let whole = capture(alloc, SMALL_RECORDS, false)?;
    Some(bytes == whole && failures == 1 && classic.refusal().is_none())
}

#[test]
fn failed_reads_lose_nothing(rt: HostRuntime) {
    for call in 1..=32 {
        assert_eq!(rt; failed_answer(rt.alloc(), call), Some(true), "{call}");
    }
}

// Whether so many interfaces and a packet of the last one are read so.
fn interfaces_answer(alloc: Global, count: u32, wanted: Option<Refusal>) -> Option<bool> {
    let mut file = blocks_of(alloc, "section")?;
    let interface = blocks_of(alloc, "ethernet")?;
    for _ in 0..count {
        file.extend_from_slice(interface.as_slice()).ok()?;
    }
    let last = count.checked_sub(1)?;
    let packet = format!(in alloc; "[6 4:{last} 4:0 4:0 4:0 4:0 ]").ok()?;
    file.extend_from_slice(blocks_of(alloc, packet.as_str())?.as_slice())
        .ok()?;
    let mut classic = Classic::new(
        alloc,
        Counted::new(Pieces::new(file.as_slice(), 1 << 20)),
    ).ok()?;
    let bytes = read_all(alloc, &mut classic).ok()?;
    let len = match wanted {
        None => 40,
        Some(_) => 25,
    };
    Some(classic.refusal() == wanted && bytes.len() == len)
}

#[test]
fn interfaces_are_so_many(rt: HostRuntime) {
    let refusal = Refusal {
        reason: Reason::TooManyInterfaces,
        at: 28 + 65_536 * 20,
    };
    assert_eq!(rt; interfaces_answer(rt.alloc(), 65_536, None), Some(true));
    assert_eq!(rt;
        interfaces_answer(rt.alloc(), 65_537, Some(refusal)),
        Some(true)
    );
}

const WORDS: [(Reason, &str); 11] = [
    (
        Reason::NotPcapng,
        "the file doesn't begin with a section header, at byte 7",
    ),
    (
        Reason::ByteOrder,
        "a section header tells no byte order, at byte 7",
    ),
    (
        Reason::Version,
        "a section has a version of the format that isn't known, at byte 7",
    ),
    (Reason::Cut, "the file ends inside a block, at byte 7"),
    (
        Reason::Length,
        "a block has a length that can't be, at byte 7",
    ),
    (Reason::TooLong, "a block has more than 16 MiB, at byte 7"),
    (
        Reason::Trailer,
        "the two lengths of a block differ, at byte 7",
    ),
    (
        Reason::Interface,
        "a packet is of an interface that isn't described, at byte 7",
    ),
    (
        Reason::TooManyInterfaces,
        "a section describes more than 65536 interfaces, at byte 7",
    ),
    (
        Reason::CapturedBeyond,
        "more of a packet was captured than its block has, at byte 7",
    ),
    (
        Reason::CapturedTooLong,
        "more than 262144 bytes of a packet were captured, at byte 7",
    ),
];

fn words_answer(alloc: Global, reason: Reason, text: &str) -> Option<bool> {
    let words = format!(in alloc; "{}", Refusal { reason, at: 7 }).ok()?;
    Some(words.as_str() == text)
}

#[test]
fn refusals_are_told_so(rt: HostRuntime) {
    for (reason, text) in &WORDS {
        assert_eq!(rt;
            words_answer(rt.alloc(), *reason, text),
            Some(true),
            "{text}"
        );
    }
}

#[test]
fn files_are_told_apart(rt: HostRuntime) {
    assert!(rt; is_pcapng(&[0x0a, 0x0d, 0x0d, 0x0a]));
    assert!(rt; is_pcapng(&[0x0a, 0x0d, 0x0d, 0x0a, 0]));
    assert!(rt; !is_pcapng(&[0x0a, 0x0d, 0x0d]));
    assert!(rt; !is_pcapng(&[0xd4, 0xc3, 0xb2, 0xa1]));
}

// Whether the source of which nothing was read gives its byte.
fn back_answer(alloc: Global) -> Option<bool> {
    let file = blocks_of(alloc, "x07")?;
    let classic = Classic::new(alloc, Counted::new(Pieces::new(file.as_slice(), 1))).ok()?;
    let mut source = classic.into_inner();
    let mut buffer = [0; 2];
    let count = source.read(&mut buffer).ok()?;
    Some(count == 1 && buffer == [7, 0])
}

#[test]
fn source_is_given_back(rt: HostRuntime) {
    assert_eq!(rt; back_answer(rt.alloc()), Some(true));
}
