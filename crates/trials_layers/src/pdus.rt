//! PDUs that are read and written, by rows, and their refusals.
use rasta_pdu::{Body, Fault, Params, Pdu, PduParts, Side, decode, encode, read_decoded};
use std::alloc::Global;
use std::process::Abort;
use trials_rows::{bytes_of, datagram, params_of, parts_of, side_of};

// Parameters, a line, its datagram, and what that is read as: number, reserve, kind, SN, CS, TS and CTS, and
// after the body's name its messages, the safety code and the check bytes.
const ROWS: &str = "\
plain | client 7 6200 100 0 1000 0 open | 32000000070000002a00381861000000600000006400000000000000e8030000000000003033303314000000000000000000 | 7 0 ConnectionRequest 100 0 1000 0 Opening { version: [48, 51, 48, 51], sendmax: 20, reserved: [0, 0, 0, 0, 0, 0, 0, 0] } [] []
plain | server 40 6201 500 100 9000 1000 open | 32000000280000002a0039186000000061000000f40100006400000028230000e80300003033303314000000000000000000 | 40 0 ConnectionResponse 500 100 9000 1000 Opening { version: [48, 51, 48, 51], sendmax: 20, reserved: [0, 0, 0, 0, 0, 0, 0, 0] } [] []
plain | client 8 6220 101 500 1010 9000 - | 24000000080000001c004c18610000006000000065000000f4010000f203000028230000 | 8 0 Heartbeat 101 500 1010 9000 Empty [] []
plain | server 41 6212 501 101 9060 1010 - | 24000000290000001c0044186000000061000000f50100006500000064230000f2030000 | 41 0 RetransmissionRequest 501 101 9060 1010 Empty [] []
plain | client 11 6213 104 501 1070 9060 - | 240000000b0000001c004518610000006000000068000000f50100002e04000064230000 | 11 0 RetransmissionResponse 104 501 1070 9060 Empty [] []
plain | client 10 6216 103 501 2815 9050 bye1,4 | 280000000a00000020004818610000006000000067000000f5010000ff0a00005a23000001000400 | 10 0 DisconnectionRequest 103 501 2815 9050 Bye { detail: 1, reason: 4 } [] []
plain | client 9 6240 102 500 1020 9000 dataab01,. | 2a0000000900000022006018610000006000000066000000f4010000fc030000282300000200ab010000 | 9 0 Data 102 500 1020 9000 Messages([2, 0, 171, 1, 0, 0]) [171, 1] [] [] []
plain | client 12 6241 105 501 1071 9060 data01 | 270000000c0000001f006118610000006000000069000000f50100002f04000064230000010001 | 12 0 RetransmittedData 105 501 1071 9060 Messages([1, 0, 1]) [1] [] []
check4 | client 9 6240 102 500 1020 9000 dataab01,. aabbccdd | 2e0000000900000022006018610000006000000066000000f4010000fc030000282300000200ab010000aabbccdd | 9 0 Data 102 500 1020 9000 Messages([2, 0, 171, 1, 0, 0]) [171, 1] [] [] [170, 187, 204, 221]
check2 | client 9 6240 102 500 1020 9000 dataab01,. aabb | 2c0000000900000022006018610000006000000066000000f4010000fc030000282300000200ab010000aabb | 9 0 Data 102 500 1020 9000 Messages([2, 0, 171, 1, 0, 0]) [171, 1] [] [] [170, 187]
code16 | client 8 6220 101 500 1010 9000 - | 34000000080000002c004c18610000006000000065000000f4010000f2030000282300007a9bef200a8e93ad6ea9b769f0c39b07 | 8 0 Heartbeat 101 500 1010 9000 Empty [122, 155, 239, 32, 10, 142, 147, 173, 110, 169, 183, 105, 240, 195, 155, 7] []
code8 | client 8 6220 101 500 1010 9000 - | 2c0000000800000024004c18610000006000000065000000f4010000f2030000282300004b0aba1c1dda672b | 8 0 Heartbeat 101 500 1010 9000 Empty [75, 10, 186, 28, 29, 218, 103, 43] []
code16 | client 9 6240 102 500 1020 9000 dataab01 | 380000000900000030006018610000006000000066000000f4010000fc030000282300000200ab011eca305dc02911892dcdc5612e3c198a | 9 0 Data 102 500 1020 9000 Messages([2, 0, 171, 1]) [171, 1] [30, 202, 48, 93, 192, 41, 17, 137, 45, 205, 197, 97, 46, 60, 25, 138] []
";

// Parameters and the sender, a datagram, and the fault.
const REFUSED: &str = "\
plain client | 25000000 08000000 1c00 4c18 61000000 60000000 65000000 f4010000 f2030000 28230000 | 20
plain client | 24000000 08000000 1d00 4c18 61000000 60000000 65000000 f4010000 f2030000 28230000 | 22
plain client | 24000000 08000000 1c00 4d18 61000000 60000000 65000000 f4010000 f2030000 28230000 | 23
plain client | 24000000 08000000 1c00 4c18 62000000 60000000 65000000 f4010000 f2030000 28230000 | 26
plain client | 24000000 08000000 1c00 4c18 61000000 62000000 65000000 f4010000 f2030000 28230000 | 26
plain server | 24000000 08000000 1c00 4c18 61000000 60000000 65000000 f4010000 f2030000 28230000 | 26
plain client | 24 | 20
plain client | 23000000 00000000 00000000 00000000 00000000 00000000 00000000 00000000 000000 | 21
plain client | 24000000 09000000 1c00 6018 61000000 60000000 66000000 f4010000 fc030000 28230000 | 24
plain client | 28000000 09000000 2000 6018 61000000 60000000 66000000 f4010000 fc030000 28230000 0300ab01 | 24
plain client | 32000000 07000000 2a00 3818 61000000 60000000 64000000 00000000 e8030000 00000000 30333a33 1400 0000000000000000 | 24
plain client | 27000000 0a000000 1f00 4818 61000000 60000000 67000000 f5010000 ff0a0000 5a230000 000004 | 24
plain server | 25000000 29000000 1d00 4418 60000000 61000000 f5010000 65000000 64230000 f2030000 00 | 24
zeros16 client | 34000000 08000000 2c00 4c18 61000000 60000000 65000000 f4010000 f2030000 28230000 7a9bef20 0a8e93ad 6ea9b769 f0c39b07 | 25
code8 client | 2c000000 08000000 2400 4c18 61000000 60000000 65000000 f4010000 f2030000 28230000 4b0aba1c 1dda672a | 25
code16 client | 38000000 09000000 3000 6018 61000000 60000000 66000000 f4010000 fc030000 28230000 0200ab01 1eca305d c0291189 2dcdc561 2e3c198b | 25
check4 client | 2c000000 09000000 2200 6018 61000000 60000000 66000000 f4010000 fc030000 28230000 0200ab010000 aabb | 22
";

// Ranges of a heartbeat with a safety code of 16 bytes, from a byte to another, and the fault where one of
// their bytes is changed; 0 where there is none.
const CHANGED: &str = "\
0 1 20
2 7 0
8 9 22
10 11 23
12 51 25
";

const WITH_CODE: &str =
    "34000000 08000000 2c00 4c18 61000000 60000000 65000000 f4010000 f2030000 28230000 7a9bef200a8e93ad6ea9b769f0c39b07";

// What a PDU says before its body.
fn front_text(alloc: Global, pdu: &Pdu) -> Option<String> {
    let (number, reserve, kind) = (pdu.number(), pdu.reserve(), pdu.kind());
    let (sn, cs, ts, cts) = (pdu.sn(), pdu.cs(), pdu.ts(), pdu.cts());
    format!(in alloc; "{number} {reserve} {kind:?} {sn} {cs} {ts} {cts} ").ok()
}

fn pdu_text(alloc: Global, pdu: &Pdu) -> Option<String> {
    let front = front_text(alloc, pdu)?;
    let mut text = format!(in alloc; "{front}{:?}", pdu.body()).ok()?;
    for message in pdu.messages() {
        text = format!(in alloc; "{text} {message:?}").ok()?;
    }
    format!(in alloc; "{text} {:?} {:?}", pdu.code(), pdu.check_bytes()).ok()
}

// Whether a line has these bytes as its datagram.
fn is_written(alloc: Global, params: &Params, line: &str, bytes: &[u8]) -> Option<bool> {
    Some(datagram(alloc, params, line)?.as_slice() == bytes)
}

// Whether the datagram of a line is read as this text, and has the type of the line.
fn is_read(alloc: Global, params: &Params, line: &str, bytes: &[u8], text: &str) -> Option<bool> {
    let side = side_of(line);
    let Ok(pdu) = decode(params, side, bytes) else {
        return None;
    };
    let again = read_decoded(params, side, bytes);
    let number: u16 = line.split(' ').nth(2)?.parse().ok()?;
    Some(
        pdu.kind().number() == number
            && pdu_text(alloc, &pdu)?.as_str() == text
            && pdu_text(alloc, &again)?.as_str() == text
            && pdu == again,
    )
}

// Whether the PDU of a row is written and read so.
fn answer(alloc: Global, row: &str) -> Option<bool> {
    let mut parts = row.split(" | ");
    let params = params_of(parts.next()?)?;
    let (line, digits, text) = (parts.next()?, parts.next()?, parts.next()?);
    let bytes = bytes_of(alloc, digits)?;
    Some(is_written(alloc, &params, line, &bytes)? && is_read(alloc, &params, line, &bytes, text)?)
}

#[test]
fn pdus_are_written_and_read(rt: HostRuntime) {
    for row in ROWS.lines() {
        assert_eq!(rt; answer(rt.alloc(), row), Some(true), "{row}");
    }
}

// Two datagrams, each with its parameters and sender, and whether their PDUs are equal, which ids don't
// tell.
const COMPARED: &str = "\
check2 client 2c000000 09000000 2200 6018 61000000 60000000 66000000 f4010000 fc030000 28230000 0200ab010000 aabb | check2 client 2c000000 09000000 2200 6018 61000000 60000000 66000000 f4010000 fc030000 28230000 0200ab010000 aabb | true
check2 client 2c000000 09000000 2200 6018 61000000 60000000 66000000 f4010000 fc030000 28230000 0200ab010000 aabb | check2 server 2c000000 09000000 2200 6018 60000000 61000000 66000000 f4010000 fc030000 28230000 0200ab010000 aabb | true
check2 client 2c000000 09000000 2200 6018 61000000 60000000 66000000 f4010000 fc030000 28230000 0200ab010000 aabb | check2 client 2c000100 09000000 2200 6018 61000000 60000000 66000000 f4010000 fc030000 28230000 0200ab010000 aabb | false
check2 client 2c000000 09000000 2200 6018 61000000 60000000 66000000 f4010000 fc030000 28230000 0200ab010000 aabb | check2 client 2c000000 0a000000 2200 6018 61000000 60000000 66000000 f4010000 fc030000 28230000 0200ab010000 aabb | false
check2 client 2c000000 09000000 2200 6018 61000000 60000000 66000000 f4010000 fc030000 28230000 0200ab010000 aabb | check2 client 2c000000 09000000 2200 6118 61000000 60000000 66000000 f4010000 fc030000 28230000 0200ab010000 aabb | false
check2 client 2c000000 09000000 2200 6018 61000000 60000000 66000000 f4010000 fc030000 28230000 0200ab010000 aabb | check2 client 2c000000 09000000 2200 6018 61000000 60000000 67000000 f4010000 fc030000 28230000 0200ab010000 aabb | false
check2 client 2c000000 09000000 2200 6018 61000000 60000000 66000000 f4010000 fc030000 28230000 0200ab010000 aabb | check2 client 2c000000 09000000 2200 6018 61000000 60000000 66000000 f5010000 fc030000 28230000 0200ab010000 aabb | false
check2 client 2c000000 09000000 2200 6018 61000000 60000000 66000000 f4010000 fc030000 28230000 0200ab010000 aabb | check2 client 2c000000 09000000 2200 6018 61000000 60000000 66000000 f4010000 fd030000 28230000 0200ab010000 aabb | false
check2 client 2c000000 09000000 2200 6018 61000000 60000000 66000000 f4010000 fc030000 28230000 0200ab010000 aabb | check2 client 2c000000 09000000 2200 6018 61000000 60000000 66000000 f4010000 fc030000 29230000 0200ab010000 aabb | false
check2 client 2c000000 09000000 2200 6018 61000000 60000000 66000000 f4010000 fc030000 28230000 0200ab010000 aabb | check2 client 2c000000 09000000 2200 6018 61000000 60000000 66000000 f4010000 fc030000 28230000 0200ac010000 aabb | false
check2 client 2c000000 09000000 2200 6018 61000000 60000000 66000000 f4010000 fc030000 28230000 0200ab010000 aabb | check2 client 2c000000 09000000 2200 6018 61000000 60000000 66000000 f4010000 fc030000 28230000 0200ab010000 aabc | false
plain client 24000000 08000000 1c00 4c18 61000000 60000000 65000000 f4010000 f2030000 28230000 | code8 client 2c000000 08000000 2400 4c18 61000000 60000000 65000000 f4010000 f2030000 28230000 4b0aba1c 1dda672b | false
";

// The datagram at the end of these words, with its parameters and sender before it.
fn sent(alloc: Global, words: &str) -> Option<(Params, Side, Vec<u8>)> {
    let (word, rest) = words.split_once(' ')?;
    let (sender, digits) = rest.split_once(' ')?;
    Some((params_of(word)?, side_of(sender), bytes_of(alloc, digits)?))
}

// Whether the PDUs of a row are equal as it says.
fn compares(alloc: Global, row: &str) -> Option<bool> {
    let mut parts = row.split(" | ");
    let (params, side, bytes) = sent(alloc, parts.next()?)?;
    let (other_params, other_side, other_bytes) = sent(alloc, parts.next()?)?;
    let pdu = decode(&params, side, &bytes).ok()?;
    let other = decode(&other_params, other_side, &other_bytes).ok()?;
    Some((pdu == other) == (parts.next()? == "true"))
}

#[test]
fn pdus_are_compared(rt: HostRuntime) {
    for row in COMPARED.lines() {
        assert_eq!(rt; compares(rt.alloc(), row), Some(true), "{row}");
    }
}

const SHOWN: &str =
    "check2 client 2c000000 09000000 2200 6018 61000000 60000000 66000000 f4010000 fc030000 28230000 0200ab010000 aabb";

const SHOWN_TEXT: &str =
    "Pdu { number: 9, sn: 102, cs: 500, ts: 1020, cts: 9000, reserve: 0, kind: Data, body: Messages([2, 0, 171, 1, 0, 0]), code: [], check_bytes: [170, 187] }";

// Whether a PDU is shown with its fields.
fn is_shown(alloc: Global) -> Option<bool> {
    let (params, side, bytes) = sent(alloc, SHOWN)?;
    let pdu = decode(&params, side, &bytes).ok()?;
    Some(format!(in alloc; "{pdu:?}").ok()?.as_str() == SHOWN_TEXT)
}

#[test]
fn pdu_is_shown_with_its_fields(rt: HostRuntime) {
    assert_eq!(rt; is_shown(rt.alloc()), Some(true));
}

// The number of the fault of a datagram, 0 where there is none; its place is 0.
fn fault_of(params: &Params, side: Side, bytes: &[u8]) -> u8 {
    match decode(params, side, bytes) {
        Err(fault) if fault == Fault::at(fault.number, 0) => fault.number,
        Err(_) => u8::MAX,
        Ok(_) => 0,
    }
}

// Whether the datagram of a row has its fault.
fn is_refused(alloc: Global, row: &str) -> Option<bool> {
    let (settings, rest) = row.split_once(" | ")?;
    let (word, sender) = settings.split_once(' ')?;
    let (digits, number) = rest.split_once(" | ")?;
    let number: u8 = number.parse().ok()?;
    let params = params_of(word)?;
    let bytes = bytes_of(alloc, digits)?;
    Some(fault_of(&params, side_of(sender), &bytes) == number)
}

#[test]
fn datagrams_are_refused(rt: HostRuntime) {
    for row in REFUSED.lines() {
        assert_eq!(rt; is_refused(rt.alloc(), row), Some(true), "{row}");
    }
}

// The fault of the heartbeat with a safety code, with its byte at a place changed.
fn changed(alloc: Global, params: &Params, place: usize) -> Option<u8> {
    let mut bytes = bytes_of(alloc, WITH_CODE)?;
    let byte = bytes.get_mut(place)?;
    *byte ^= 1;
    Some(fault_of(params, Side::Client, &bytes))
}

// Whether each byte of a row, changed, has its fault.
fn are_noticed(alloc: Global, row: &str) -> Option<bool> {
    let mut words = row.split(' ');
    let first: usize = words.next()?.parse().ok()?;
    let last: usize = words.next()?.parse().ok()?;
    let want: u8 = words.next()?.parse().ok()?;
    let params = params_of("code16")?;
    for place in first..=last {
        if changed(alloc, &params, place)? != want {
            return Some(false);
        }
    }
    Some(true)
}

#[test]
fn changed_bytes_are_noticed(rt: HostRuntime) {
    for row in CHANGED.lines() {
        assert_eq!(rt; are_noticed(rt.alloc(), row), Some(true), "{row}");
    }
}

// Lines of data with check bytes, and whether they have the recorded length of four.
const CHECKED: &str = "\
client 9 6240 102 500 1020 9000 data01 aabb | false
client 9 6240 102 500 1020 9000 data01 aabbcc | false
client 9 6240 102 500 1020 9000 data01 aabbccdd | true
";

// Whether the parts of a row fit as it says.
fn fit_so(row: &str) -> Option<bool> {
    let (line, want) = row.split_once(" | ")?;
    let params = params_of("check4")?;
    Some(parts_of(line)?.fits(&params) == (want == "true"))
}

#[test]
fn check_bytes_have_the_recorded_length(rt: HostRuntime) {
    for row in CHECKED.lines() {
        assert_eq!(rt; fit_so(row), Some(true), "{row}");
    }
}

// What `encode` answers to a message of so many bytes, and how many bytes there are then of a list that had
// two; none where they don't fit or memory runs out.
fn written(alloc: Global, count: usize) -> Option<(u8, usize)> {
    let params = params_of("plain")?;
    let line = parts_of("client 9 6240 102 500 1020 9000 data01")?;
    let message = vec![in alloc; 0u8; count].ok()?;
    let messages: [&[u8]; 1] = [&message];
    let parts = PduParts {
        body: Body::Messages(messages.as_slice()),
        ..line
    };
    let mut out = Vec::from_slice(alloc, b"ab".as_slice()).ok()?;
    if !parts.fits(&params) {
        return None;
    }
    let outcome = encode(&params, Side::Client, &parts, &mut out);
    let number = outcome.err().map_or(0, |fault| fault.number);
    out.starts_with(b"ab").then_some((number, out.len()))
}

#[test]
fn longest_message_is_written(rt: HostRuntime) {
    assert_eq!(rt; written(rt.alloc(), 65_469), Some((0, 65_509)));
    assert_eq!(rt; written(rt.alloc(), 65_470), Some((29, 2)));
}

// The datagram of a heartbeat.
const HEARTBEAT: &[u8] =
    b"\x24\0\0\0\x08\0\0\0\x1c\0\x4c\x18\x61\0\0\0\x60\0\0\0\x65\0\0\0\xf4\x01\0\0\xf2\x03\0\0\x28\x23\0\0";

// Appends the heartbeat to datagrams of it, once more where memory ran out, and answers whether nothing else
// changed.
fn is_appended(params: &Params, parts: &PduParts, out: &mut Vec<u8>) -> bool {
    let start = out.len();
    if !parts.fits(params) {
        return false;
    }
    let mut answer = encode(params, Side::Client, parts, out);
    if answer == Err(Fault::no_memory()) {
        if out.len() != start {
            return false;
        }
        answer = encode(params, Side::Client, parts, out);
    }
    answer.is_ok() && out.get(start..) == Some(HEARTBEAT)
}

// Whether four heartbeats are appended, one after another.
fn are_appended(alloc: Global) -> Option<bool> {
    let params = params_of("plain")?;
    let parts = parts_of("client 8 6220 101 500 1010 9000 -")?;
    let mut out = Vec::new(alloc);
    for _ in 0..4 {
        if !is_appended(&params, &parts, &mut out) {
            return Some(false);
        }
    }
    Some(out.starts_with(HEARTBEAT))
}

#[test]
fn datagrams_are_written_again(rt: HostRuntime) {
    assert_eq!(rt; are_appended(rt.alloc()), Some(true));
}
