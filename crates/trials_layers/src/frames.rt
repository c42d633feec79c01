//! Frames: the datagram of a channel, none, or a fault.
use rasta_pcap::Record;
use rasta_udp::datagram;
use std::alloc::Global;
use std::process::Abort;
use trials_rows::{CHANNELS, bytes_of};

// A frame of the first channel's client: Ethernet, IPv4 and UDP.
const HEADERS: &str =
    "020000000002 020000000001 0800 45000040 0000 0000 40110000 0a000001 0a000002 1388 1388 002c 0000";

const PAYLOAD: &str = "24000000080000001c004c18610000006000000065000000f4010000f203000028230000";

// A piece of the headers, what stands in its place, how many bytes were captured, and what is found:
// channel, side and payload, none, or the number and the place of a fault.
const ROWS: &str = "\
0800 | 0800 | 78 | 1 Client 24000000080000001c004c18610000006000000065000000f4010000f203000028230000
0a000001 0a000002 | 0a000002 0a000001 | 78 | 1 Server 24000000080000001c004c18610000006000000065000000f4010000f203000028230000
0a000001 0a000002 1388 1388 | 0a000101 0a000102 1389 1389 | 78 | 2 Client 24000000080000001c004c18610000006000000065000000f4010000f203000028230000
0800 | 81000005 0800 | 82 | 1 Client 24000000080000001c004c18610000006000000065000000f4010000f203000028230000
0800 | 81000005 0800 | 81 | 15 0
0800 | 81000005 81000005 0800 | 86 | none
45000040 0000 0000 40110000 0a000001 0a000002 | 46000044 0000 0000 40110000 0a000001 0a000002 01010100 | 82 | 1 Client 24000000080000001c004c18610000006000000065000000f4010000f203000028230000
0000 0000 4011 | 0000 4000 4011 | 78 | 1 Client 24000000080000001c004c18610000006000000065000000f4010000f203000028230000
0000 0000 4011 | 0000 2000 4011 | 78 | 16 0
002c | 0007 | 78 | 19 0
0800 | 0800 | 77 | 15 0
0800 | 0800 | 33 | none
1388 1388 | 1388 1770 | 78 | none
";

// What is found in a frame.
fn found_text(alloc: Global, frame: &[u8]) -> Option<String> {
    let record = Record {
        number: 7,
        bytes: frame,
    };
    match datagram(&record, CHANNELS.as_slice()) {
        Ok(Some(found)) => {
            let digits = hex::encode(alloc, found.payload).ok()?;
            format!(in alloc; "{} {:?} {digits}", found.channel, found.side).ok()
        }
        Ok(None) => String::from_str(alloc, "none").ok(),
        Err(fault) => format!(in alloc; "{} {}", fault.number, fault.place).ok(),
    }
}

// The frame of these headers, cut.
fn frame_of(alloc: Global, headers: &str, captured: usize) -> Option<Vec<u8>> {
    let mut frame = bytes_of(alloc, headers)?;
    let payload = bytes_of(alloc, PAYLOAD)?;
    frame.extend_from_slice(&payload).ok()?;
    frame.truncate(captured);
    Some(frame)
}

// Whether in the frame of a row is found what it says.
fn answer(alloc: Global, row: &str) -> Option<bool> {
    let mut parts = row.split(" | ");
    let (old, new) = (parts.next()?, parts.next()?);
    let captured = parts.next()?.parse().ok()?;
    let want = parts.next()?;
    let headers = HEADERS.replacen(alloc, old, new, 1).ok()?;
    let frame = frame_of(alloc, headers.as_str(), captured)?;
    Some(found_text(alloc, &frame)?.as_str() == want)
}

#[test]
fn frames_have_their_datagrams(rt: HostRuntime) {
    for row in ROWS.lines() {
        assert_eq!(rt; answer(rt.alloc(), row), Some(true), "{row}");
    }
}
