//! The text of `show`, over captures and devices in memory.
//!
//! Frames and datagrams are written in hexadecimal digits. A row of a table is a line with bars between
//! its parts; a slash stands for the end of a line.
use crate::cases::lines_of;
use rasta_params::params;
use rasta_pcap::Counted;
use rasta_pcap::devices::Pieces;
use rasta_pdu::Params;
use rasta_show::run_show;
use std::alloc::Global;
use std::process::Abort;
use trials_rows::{channel_of, push_frame, push_record, side_of};

pub const LITTLE: &str = "d4c3b2a1";

// A heartbeat of the client on the first channel, followed by six bytes of padding.
const HEARTBEAT: &str = "0200000000020200000000010800450000400000000040110000\
0a0000010a00000213881388002c0000\
24000000080000001c004c18610000006000000065000000f4010000f203000028230000\
000000000000";

pub const NO_CODES: &str = "code_length = 0/check_length = 0";

const TWO_CHANNELS: &str = "client_id = 96/server_id = 97/n_sendmax = 20/t_max = 1800/\
[[channel]]/client = '10.0.0.1:5000'/server = '10.0.0.2:5000'/\
[[channel]]/client = '10.0.1.1:5001'/server = '10.0.1.2:5001'/";

/// The number of a word.
pub fn number_in(word: Option<&str>) -> Option<u32> {
    word?.parse::<u32>().ok()
}

// Parameters of two channels, with these lines for the other keys; the slack is 0 if none is among them.
pub fn parameters(alloc: Global, lines: &str) -> Option<Params> {
    let slack = if lines.contains("slack") {
        ""
    } else {
        "slack = 0/"
    };
    let text = format!(in alloc; "{lines}/{slack}{TWO_CHANNELS}").ok()?;
    let text = text.replace(alloc, "/", "\n").ok()?;
    params(alloc, text.as_bytes()).ok()
}

// The file header, whose first byte tells the byte order.
pub fn header_of(alloc: Global, magic: &str) -> Option<Vec<u8>> {
    let rest = if magic.starts_with("a1") {
        "0002000400000000000000000004000000000001"
    } else {
        "0200040000000000000000000000040001000000"
    };
    let digits = format!(in alloc; "{magic}{rest}").ok()?;
    hex::decode(alloc, digits.as_str()).ok()
}

// A file of these frames.
fn file_of(alloc: Global, frames: &[&[u8]]) -> Option<Vec<u8>> {
    let mut file = header_of(alloc, LITTLE)?;
    for frame in frames {
        push_record(&mut file, 0, frame)?;
    }
    Some(file)
}

// The frame with a tag of these digits behind its hardware addresses, if there are any.
fn tagged(alloc: Global, frame: Vec<u8>, tag: &str) -> Option<Vec<u8>> {
    if tag.is_empty() {
        return Some(frame);
    }
    let (addresses, rest) = frame.split_at_checked(12)?;
    let tag = hex::decode(alloc, tag).ok()?;
    let mut tagged = addresses.to_vec(alloc).ok()?;
    tagged.extend_from_slice(&tag).ok()?;
    tagged.extend_from_slice(rest).ok()?;
    Some(tagged)
}

// The frame of a datagram with its sender before it, with this tag.
pub fn frame_of(alloc: Global, tag: &str, sent: &str) -> Option<Vec<u8>> {
    let (sender, digits) = sent.split_once(':')?;
    let (side, channel) = sender.split_once('@').unwrap_or((sender, "1"));
    let datagram = hex::decode(alloc, digits).ok()?;
    let mut frame = Vec::new(alloc);
    push_frame(&mut frame, side_of(side), &channel_of(channel), &datagram)?;
    tagged(alloc, frame, tag)
}

// A file of these datagrams.
fn capture_of(alloc: Global, magic: &str, tag: &str, datagrams: &str) -> Option<Vec<u8>> {
    let mut file = header_of(alloc, magic)?;
    for sent in datagrams.split(' ') {
        push_record(&mut file, 0, &frame_of(alloc, tag, sent)?)?;
    }
    Some(file)
}

// Whether this text is shown of a file in pieces, with the status that it calls for.
fn is_shown_of(alloc: Global, params: &Params, pieces: Pieces<'_>, want: &str) -> bool {
    let mut reader = Counted::new(pieces);
    let mut writer = Counted::new(Vec::new(alloc));
    let outcome = run_show(alloc, params, &mut reader, &mut writer);
    let due = u8::from(want.starts_with("refused"));
    outcome == Ok(due) && writer.into_inner().as_slice() == want.as_bytes()
}

// Whether the wanted text is shown of a file in pieces of each size.
fn is_shown(alloc: Global, lines: &str, file: &[u8], want: &str) -> Option<bool> {
    let params = parameters(alloc, lines)?;
    let want = lines_of(alloc, want)?;
    let is_same = is_shown_of(alloc, &params, Pieces::new(file, 1), want.as_str())
        && is_shown_of(alloc, &params, Pieces::new(file, 7), want.as_str())
        && is_shown_of(alloc, &params, Pieces::new(file, 4096), want.as_str());
    Some(is_same)
}

// The range of the heartbeat's frame that is replaced, by which bytes, how many bytes were captured, and
// what is shown: `heartbeat` is the heartbeat's text. The row with 24 other bytes in place of 20 has
// options in its header of IPv4; the last five rows have tags, two of them, or another type.
const FRAMES: &str = "\
42 43 24 84 | heartbeat
42 44 2500 84 | refused 20 RedundancyLength 1 client
50 52 1d00 84 | refused 22 SafetyLength 1 client
52 54 4d18 84 | refused 23 Type 1 client
54 58 62000000 84 | refused 26 Ids 1 client
58 62 61000000 84 | refused 26 Ids 1 client
14 34 4600004400000000401100000a0000010a00000201010100 82 | heartbeat
0 0  78 | heartbeat
20 22 4000 78 | heartbeat
20 22 2000 78 | refused 16 Fragment 1 -
20 22 0001 78 | refused 16 Fragment 1 -
16 18 001b 78 | refused 19 BadUdp 1 -
38 40 0007 78 | refused 19 BadUdp 1 -
38 40 002d 78 | refused 19 BadUdp 1 -
38 40 002b 78 | refused 20 RedundancyLength 1 client
0 0  77 | refused 15 CutPacket 1 -
0 0  41 | refused 15 CutPacket 1 -
0 0  33 | packets 0
36 38 1770 78 | packets 0
26 38 0a0001010a00010213891389 78 | 0 1 2 client 8 0 6220 101 500 1010 9000 - - -/packets 1
26 38 0a0000010a00010213881389 78 | packets 0
12 12 81000005 88 | heartbeat
12 12 81000005 82 | heartbeat
12 12 81000005 81 | refused 15 CutPacket 1 -
12 12 8100000581000005 92 | packets 0
12 12 88a80005 88 | packets 0
";

const SHOWN: &str = "0 1 1 client 8 0 6220 101 500 1010 9000 - - -/packets 1";

fn place_in(word: Option<&str>) -> Option<usize> {
    Some(number_in(word)? as usize)
}

// The front of the heartbeat's frame, then other bytes in place of a range, and the rest; as many bytes
// as were captured.
fn changed(alloc: Global, change: &str) -> Option<Vec<u8>> {
    let whole = hex::decode(alloc, HEARTBEAT).ok()?;
    let mut words = change.split(' ');
    let from = place_in(words.next())?;
    let to = place_in(words.next())?;
    let bytes = hex::decode(alloc, words.next()?).ok()?;
    let mut frame = Vec::from_slice(alloc, whole.get(..from)?).ok()?;
    frame.extend_from_slice(&bytes).ok()?;
    frame.extend_from_slice(whole.get(to..)?).ok()?;
    frame.truncate(place_in(words.next())?);
    Some(frame)
}

fn file_of_change(alloc: Global, change: &str) -> Option<Vec<u8>> {
    let frame = changed(alloc, change)?;
    file_of(alloc, &[&frame])
}

/// A file of the heartbeat alone.
pub fn heartbeat_file(alloc: Global) -> Option<Vec<u8>> {
    file_of_change(alloc, "0 0  84")
}

// Whether the change of a row is shown so.
fn is_frame_shown(alloc: Global, row: &str) -> Option<bool> {
    let (change, want) = row.split_once(" | ")?;
    let file = file_of_change(alloc, change)?;
    let want = if want == "heartbeat" { SHOWN } else { want };
    is_shown(alloc, NO_CODES, &file, want)
}

#[test]
fn frames_by_their_table(rt: HostRuntime) {
    for row in FRAMES.lines() {
        assert_eq!(rt; is_frame_shown(rt.alloc(), row), Some(true), "{row}");
    }
}

// How many bytes there are of a file of one heartbeat, and what is shown.
const CUTS: &str = "\
0 | refused 13 CutHeader 0 -
23 | refused 13 CutHeader 0 -
24 | packets 0
39 | refused 14 CutRecord 1 -
123 | refused 14 CutRecord 1 -
124 | 0 1 1 client 8 0 6220 101 500 1010 9000 - - -/packets 1
";

// Whether the cut of a row is shown so.
fn is_cut_shown(alloc: Global, row: &str) -> Option<bool> {
    let (place, want) = row.split_once(" | ")?;
    let place = place_in(Some(place))?;
    let mut file = file_of_change(alloc, "0 0  84")?;
    file.truncate(place);
    is_shown(alloc, NO_CODES, &file, want)
}

#[test]
fn files_that_end_early(rt: HostRuntime) {
    for row in CUTS.lines() {
        assert_eq!(rt; is_cut_shown(rt.alloc(), row), Some(true), "{row}");
    }
}

// The magic of a file, and the tag of its frames.
const FORMATS: &str = "\
d4c3b2a1 |
4d3cb2a1 |
a1b2c3d4 |
a1b23c4d |
d4c3b2a1 | 81000005
";

const HANDSHAKE: &str =
    "client:32000000070000002a00381861000000600000006400000000000000e8030000000000003033303314000000000000000000 \
server:32000000280000002a0039186000000061000000f40100006400000028230000e80300003033303314000000000000000000 \
client:24000000080000001c004c18610000006000000065000000f4010000f203000028230000";

const HANDSHAKE_SHOWN: &str =
    "0 1 1 client 7 0 6200 100 0 1000 0 open 0303 20 0000000000000000 - -/\
1 2 1 server 40 0 6201 500 100 9000 1000 open 0303 20 0000000000000000 - -/\
2 3 1 client 8 0 6220 101 500 1010 9000 - - -/\
packets 3";

// Whether the handshake is shown in a file as a row says.
fn is_handshake_shown(alloc: Global, row: &str) -> Option<bool> {
    let (magic, tag) = row.split_once(" |")?;
    let file = capture_of(alloc, magic, tag.trim(), HANDSHAKE)?;
    is_shown(alloc, NO_CODES, &file, HANDSHAKE_SHOWN)
}

// The handshake in each kind of file, and with a tag.
#[test]
fn handshake(rt: HostRuntime) {
    for row in FORMATS.lines() {
        assert_eq!(rt; is_handshake_shown(rt.alloc(), row), Some(true), "{row}");
    }
}

// Lines of the parameter file, datagrams, and what is shown of them: data of two messages, of which the
// second is empty, with four check bytes; a heartbeat with a safety code of 16 bytes, under other start
// words, with another code, and with one of 8 bytes; and bodies with two check bytes.
const CASES: &str = "\
code_length = 0/check_length = 4 | \
client:2e0000000900000022006018610000006000000066000000f4010000fc030000282300000200ab010000aabbccdd | \
0 1 1 client 9 0 6240 102 500 1020 9000 data ab01,. - aabbccdd/packets 1
code_length = 16/check_length = 0 | \
client:34000000080000002c004c18610000006000000065000000f4010000f2030000282300007a9bef200a8e93ad6ea9b769f0c39b07 | \
0 1 1 client 8 0 6220 101 500 1010 9000 - 7a9bef200a8e93ad6ea9b769f0c39b07 -/packets 1
code_length = 16/check_length = 0/md4_start = '00000000000000000000000000000000' | \
client:34000000080000002c004c18610000006000000065000000f4010000f2030000282300007a9bef200a8e93ad6ea9b769f0c39b07 | \
refused 25 Code 1 client
code_length = 16/check_length = 0 | \
client:34000000080000002c004c18610000006000000065000000f4010000f2030000282300007a9bef200a8e93ad6ea9b769f0c39b06 | \
refused 25 Code 1 client
code_length = 8/check_length = 0 | \
client:2c0000000800000024004c18610000006000000065000000f4010000f2030000282300004b0aba1c1dda672b | \
0 1 1 client 8 0 6220 101 500 1010 9000 - 4b0aba1c1dda672b -/packets 1
code_length = 0/check_length = 2 | \
server:2600ffff290000001c0044186000000061000000f50100006600000064230000f2030000000f \
client:260000000a0000001c004518610000006000000069000000f50100002e04000064230000ff10 \
client:2d0000000b0000002300611861000000600000006a000000f50100002f0400006423000000000100e000000102 \
client:280000000c0000001e00601861000000600000006b000000f5010000300400006423000000000304 \
server:2a0000002a000000200048186000000061000000ffffffff6b000000ffffffff30040000ffff04000506 | \
0 1 1 server 41 65535 6212 501 102 9060 1010 - - 000f/\
1 2 1 client 10 0 6213 105 501 1070 9060 - - ff10/\
2 3 1 client 11 0 6241 106 501 1071 9060 data .,e0,. - 0102/\
3 4 1 client 12 0 6240 107 501 1072 9060 data . - 0304/\
4 5 1 server 42 0 6216 4294967295 107 4294967295 1072 bye 65535 4 - 0506/\
packets 5
";

// Whether the datagrams of a row are shown so.
fn are_datagrams_shown(alloc: Global, row: &str) -> Option<bool> {
    let (lines, row) = row.split_once(" | ")?;
    let (datagrams, want) = row.split_once(" | ")?;
    let file = capture_of(alloc, LITTLE, "", datagrams)?;
    is_shown(alloc, lines, &file, want)
}

#[test]
fn bodies_and_codes(rt: HostRuntime) {
    for row in CASES.lines() {
        assert_eq!(rt; are_datagrams_shown(rt.alloc(), row), Some(true), "{row}");
    }
}

// Lines of the parameter file, and what is shown.
const WINDOWS: &str = "\
code_length = 0/check_length = 0/first_record = 2/last_record = 3 | \
0 2 1 client 8 0 6220 101 500 1010 9000 - - -/\
1 3 1 client 8 0 6220 101 500 1010 9000 - - -/\
packets 2
code_length = 0/check_length = 0/first_record = 4 | refused 14 CutRecord 4 -
";

// A frame of another type, two heartbeats, and one byte more.
fn file_with_windows(alloc: Global) -> Option<Vec<u8>> {
    let bad = changed(alloc, "52 54 4d18 84")?;
    let heartbeat = changed(alloc, "0 0  84")?;
    let mut file = file_of(alloc, &[&bad, &heartbeat, &heartbeat])?;
    file.push(0).ok()?;
    Some(file)
}

// Whether the file is shown so by the parameters of a row.
fn is_window_shown(alloc: Global, row: &str) -> Option<bool> {
    let (lines, want) = row.split_once(" | ")?;
    let file = file_with_windows(alloc)?;
    is_shown(alloc, lines, &file, want)
}

// Records outside the window aren't judged, and a copy has a line of its own.
#[test]
fn windows(rt: HostRuntime) {
    for row in WINDOWS.lines() {
        assert_eq!(rt; is_window_shown(rt.alloc(), row), Some(true), "{row}");
    }
}
