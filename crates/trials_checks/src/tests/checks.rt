//! Verdicts, by rows: what a certificate explains of a capture, over the lists of a map, of a vector and of a
//! store.
use rasta_cert::{Certificate, read};
use rasta_check::{
    DenseList, Report, Sent, Taken, check, check_lists, check_sent, check_store, sent, store,
};
use rasta_pcap::Counted;
use rasta_pcap::devices::Pieces;
use rasta_pdu::{Fault, Params, Side};
use std::alloc::Global;
use std::process::Abort;
use trials_rows::file_of;

// A row: its name; its lines and parameters; the packets; the client's entries, and the server's; the
// verdict: the number of packets, what the client took, and what the server did, each message as in a
// report; or the number, the place and the side of a fault.
pub const ROWS: &str = "\
handshake | data plain | 0 1 2 | make 0 1000 open, take 2 40, make 2 1010 reply | take 1 7, make 1 9000 reply | 3; -; -
handed up once | data plain | 0 1 2 3 4 | make 0 1000 open, take 2 40, make 2 1010 reply, make 3 1020 fresh | take 1 7, make 1 9000 reply, take 4 8, take 4 9, make 4 9050 beat | 5; -; 0 3 4 ab01, 1 3 4 .
no proof | data plain | 0 1 2 3 | make 0 1000 open, take 2 40, make 2 1010 reply, make 3 1020 fresh | take 1 7, make 1 9000 reply | 4; -; -
numbers wrap | wrapped plain | 0 1 2 3 4 | make 0 4294967280 open, take 2 40, make 2 4294967300 reply, make 3 4294967310 fresh, take 5 41 | take 1 4294967295, make 1 9000 reply, take 4 0, take 4 1, make 4 9050 beat | 5; -; 0 3 4 01
clock falls | wrapped plain | 0 1 2 3 4 | make 0 4294967280 open, take 2 40, make 2 4 reply, make 3 4294967310 fresh, take 5 41 | take 1 4294967295, make 1 9000 reply, take 4 0, take 4 1, make 4 9050 beat | 37 3 client
lost unit is resent | lost plain | 0 1 2 3 4 5 6 7 8 9 10 | make 0 1000 open, take 2 40, make 2 1010 reply, make 3 1020 fresh, make 4 1030 fresh, take 6 41, make 6 1070 reply, make 7 1071 again 0, make 8 1072 again 1, make 9 1080 beat | take 1 7, make 1 9000 reply, take 5 8, take 5 10, make 5 9060 ask, take 10 11, take 10 12, take 10 13, take 10 14, make 10 9090 beat | 11; -; 0 3 10 01, 1 4 10 02
both ask | crossed plain | 0 1 2 3 4 5 6 7 8 9 10 11 12 13 14 15 16 | make 0 1000 open, take 2 40, make 2 1010 reply, make 3 1020 fresh, make 5 1030 fresh, take 7 42, make 7 1040 ask, take 9 43, make 9 1050 reply, make 10 1051 again 0, make 11 1052 again 1, take 15 44, take 15 45, take 15 46, make 15 1060 beat | take 1 7, make 1 9000 reply, take 4 8, make 4 9020 fresh, make 6 9030 fresh, take 8 10, make 8 9040 ask, take 12 11, make 12 9050 reply, make 13 9051 again 0, make 14 9052 again 1, take 16 12, take 16 13, take 16 14, take 16 15, make 16 9060 beat | 17; 0 4 15 11, 1 6 15 12; 0 3 16 01, 1 5 16 02
second request in one entry | lost plain | 0 1 2 3 4 5 11 | make 0 1000 open, take 2 40, make 2 1010 reply, make 3 1020 fresh, make 4 1030 fresh | take 1 7, make 1 9000 reply, take 5 8, take 5 10, make 5 9060 ask, make 6 9070 ask | 41 6 server
copies on two channels | data plain | 0 0@2 1 2 0@2 2@2 1@2 | make 0 1000 open, take 3 40, make 3 1010 reply | take 2 7, make 2 9000 reply | 7; -; -
copy differs | opened plain | 0 1 2 4@2 | - | - | 27 4 client
timeout before the deadline | data slack | 0 1 2 3 4 5 | make 0 1000 open, take 2 40, make 2 1010 reply, make 3 1020 fresh, take 5 41, make 5 2814 expired | take 1 7, make 1 9000 reply, take 4 8, take 4 9, make 4 9050 beat | 46 6 client
timeout at the deadline | data slack | 0 1 2 3 4 6 | make 0 1000 open, take 2 40, make 2 1010 reply, make 3 1020 fresh, take 5 41, make 5 2815 expired | take 1 7, make 1 9000 reply, take 4 8, take 4 9, make 4 9050 beat | 6; -; 0 3 4 ab01, 1 3 4 .
make at the deadline | data plain | 0 1 2 3 7 | make 0 1000 open, take 2 40, make 2 1010 reply, make 3 1020 fresh | take 1 7, make 1 9000 reply, take 4 8, take 4 9, make 4 10800 beat | 5; -; 0 3 4 ab01, 1 3 4 .
make past the deadline | data plain | 0 1 2 3 8 | make 0 1000 open, take 2 40, make 2 1010 reply, make 3 1020 fresh | take 1 7, make 1 9000 reply, take 4 8, take 4 9, make 4 10801 beat | 38 5 server
take at its own place | data plain | 0 1 2 3 4 | make 0 1000 open, take 2 40, make 2 1010 reply, make 3 1020 fresh | take 1 7, make 1 9000 reply, take 3 8, take 3 9, make 4 9050 beat | 34 4 server
take right after | data plain | 0 1 2 3 4 | make 0 1000 open, take 2 40, make 2 1010 reply, make 3 1020 fresh | take 1 7, make 1 9000 reply, take 3 8, take 4 9, make 4 9050 beat | 5; -; 0 3 4 ab01, 1 3 4 .
capture ends in a burst | lost plain | 0 1 2 3 4 5 6 7 15 | make 0 1000 open, take 2 40, make 2 1010 reply, make 3 1020 fresh, make 4 1030 fresh, take 6 41, make 6 1070 reply, make 7 1071 again 0 | take 1 7, make 1 9000 reply, take 5 8, take 5 10, make 5 9060 ask, take 8 11, take 8 12, make 8 9080 beat | 9; -; 0 3 8 01
number gap | data plain | 0 1 3 4 | - | - | 28 3 client
data while a reply is owed | lost plain | 0 1 2 3 4 5 12 | make 0 1000 open, take 2 40, make 2 1010 reply, make 3 1020 fresh, make 4 1030 fresh, take 6 41, make 6 1070 fresh | - | 42 7 client
fresh data in place of a resend | lost plain | 0 1 2 3 4 5 6 7 13 9 10 | make 0 1000 open, take 2 40, make 2 1010 reply, make 3 1020 fresh, make 4 1030 fresh, take 6 41, make 6 1070 reply, make 7 1071 again 0, make 8 1072 fresh, make 9 1080 beat | take 1 7, make 1 9000 reply, take 5 8, take 5 10, make 5 9060 ask, take 10 11, take 10 12, take 10 13, take 10 14, make 10 9090 beat | 42 9 client
response is not taken | lost plain | 0 1 2 3 4 5 6 7 8 9 10 | make 0 1000 open, take 2 40, make 2 1010 reply, make 3 1020 fresh, make 4 1030 fresh, take 6 41, make 6 1070 reply, make 7 1071 again 0, make 8 1072 again 1, make 9 1080 beat | take 1 7, make 1 9000 reply, take 5 8, take 5 10, make 5 9060 ask, take 10 12, take 10 13, take 10 14, make 10 9090 beat | 39 9 server
resend differs | lost plain | 0 1 2 3 4 5 6 7 14 9 10 | make 0 1000 open, take 2 40, make 2 1010 reply, make 3 1020 fresh, make 4 1030 fresh, take 6 41, make 6 1070 reply, make 7 1071 again 0, make 8 1072 again 1 | - | 43 9 client
lost resend and second request | lost plain | 0 1 2 3 4 5 6 7 8 16 17 18 19 20 | make 0 1000 open, take 2 40, make 2 1010 reply, make 3 1020 fresh, make 4 1030 fresh, take 6 41, make 6 1070 reply, make 7 1071 again 0, make 8 1072 again 1, take 10 42, make 10 1090 reply, make 11 1091 again 0, make 12 1092 again 1 | take 1 7, make 1 9000 reply, take 5 8, take 5 10, make 5 9060 ask, take 9 11, take 9 13, make 9 9080 ask, take 13 14, take 13 15, take 13 16, make 13 9100 beat | 14; -; 0 3 13 01, 1 4 13 02
quiet start | quiet quiet | 0 1 | make 0 1020 fresh | take 1 9, make 1 9050 beat | 2; -; 0 0 1 ab01, 1 0 1 .
no quiet start | quiet plain | 0 1 | make 0 1020 fresh | take 1 9, make 1 9050 beat | 41 1 client
another quiet SN | quiet other | 0 1 | make 0 1020 fresh | take 1 9, make 1 9050 beat | 47 1 client
take is left out | data plain | 0 1 2 3 4 | make 0 1000 open, take 2 40, make 2 1010 reply, make 3 1020 fresh | take 1 7, make 1 9000 reply, take 4 8, make 4 9050 beat | 39 4 server
take twice | data plain | 0 1 2 3 4 | make 0 1000 open, take 2 40, make 2 1010 reply, make 3 1020 fresh | take 1 7, make 1 9000 reply, take 4 8, take 4 9, take 4 9, make 4 9050 beat | 35 5 server
entries exchanged | data plain | 0 1 2 3 4 | take 2 40, make 0 1000 open, make 2 1010 reply, make 3 1020 fresh | take 1 7, make 1 9000 reply, take 4 8, take 4 9, make 4 9050 beat | 31 2 client
first copy left unmade | data plain | 0 1 2 3 4 | make 0 1000 open, take 2 40, make 2 1010 reply | take 1 7, make 1 9000 reply, take 4 8, take 4 9, make 4 9050 beat | 33 4 client
beat in place of a reply | data plain | 0 1 2 3 4 | make 0 1000 open, take 2 40, make 2 1010 beat, make 3 1020 fresh | take 1 7, make 1 9000 reply, take 4 8, take 4 9, make 4 9050 beat | 42 3 client
another clock | data plain | 0 1 2 3 4 | make 0 1000 open, take 2 40, make 2 1010 reply, make 3 1021 fresh | take 1 7, make 1 9000 reply, take 4 8, take 4 9, make 4 9050 beat | 36 4 client
another reason | data plain | 0 1 2 3 4 | make 0 1000 open, take 2 40, make 2 1010 reply, make 3 1020 again 0 | take 1 7, make 1 9000 reply, take 4 8, take 4 9, make 4 9050 beat | 41 4 client
slot above the packets | data plain | 0 1 2 | make 0 1000 open, take 4 40, make 2 1010 reply | take 1 7, make 1 9000 reply | 31 2 client
number that never crossed | data plain | 0 1 2 | make 0 1000 open, take 2 41, make 2 1010 reply | take 1 7, make 1 9000 reply | 34 2 client
make of the other side | data plain | 0 1 2 | make 0 1000 open, make 1 9000 reply | - | 32 2 client
";

// Rows of the same form: files without packets, with a window, or with frames and records that are cut.
pub const FILES: &str = "\
nothing crosses | data plain | - | - | - | 0; -; -
last byte is missing | data plain | 0 1 2 cut | make 0 1000 open, take 2 40, make 2 1010 reply | take 1 7, make 1 9000 reply | 14 3 -
window of two records | data first2 | 0 1 2 | make 0 1000 open | take 1 7, make 1 9000 reply | 2; -; -
foreign frame is cut | data plain | 0 2@9%50 1 2 | make 0 1000 open, take 2 40, make 2 1010 reply | take 1 7, make 1 9000 reply | 3; -; -
frame is cut | data plain | 0 2%50 1 2 | make 0 1000 open, take 2 40, make 2 1010 reply | take 1 7, make 1 9000 reply | 15 2 -
code differs | quiet code16 | 4 flip | - | - | 25 1 client
";

// The handshake's file, cut to a number of bytes: from this one, to that one, and the verdict.
const CUTS: &str = "\
0 23 | 13 0 -
24 24 | 32 1 client
25 131 | 14 1 -
132 132 | 31 2 client
133 239 | 14 2 -
240 240 | 32 3 client
241 333 | 14 3 -
334 334 | 3; -; -
";

fn push_entries(text: &mut Vec<u8>, entries: &str) -> Option<()> {
    if entries == "-" {
        return Some(());
    }
    for entry in entries.split(", ") {
        text.extend_from_slice(entry.as_bytes()).ok()?;
        text.push(b'\n').ok()?;
    }
    Some(())
}

/// The certificate of these entries.
pub fn certificate(alloc: Global, client: &str, server: &str) -> Option<Certificate> {
    let mut text = Vec::new(alloc);
    text.extend_from_slice(b"rasta-certificate 1\nclient\n")
        .ok()?;
    push_entries(&mut text, client)?;
    text.extend_from_slice(b"server\n").ok()?;
    push_entries(&mut text, server)?;
    text.extend_from_slice(b"end\n").ok()?;
    read(alloc, &text).ok()
}

// Whether these bytes are written so, in hexadecimal digits, a dot for none.
fn are_bytes(bytes: &[u8], digits: &str) -> bool {
    if bytes.is_empty() {
        return digits == ".";
    }
    let mut rest = digits;
    for byte in bytes {
        let Some((front, after)) = rest.split_at_checked(2) else {
            return false;
        };
        if u8::from_str_radix(front, 16).ok() != Some(*byte) {
            return false;
        }
        rest = after;
    }
    rest.is_empty()
}

fn is_taken(taken: &Taken, want: &str) -> Option<bool> {
    let mut words = want.split(' ');
    Some(
        words.next()?.parse().ok() == Some(taken.message)
            && words.next()?.parse().ok() == Some(taken.data_index)
            && words.next()?.parse().ok() == Some(taken.proof_index)
            && are_bytes(taken.bytes, words.next()?),
    )
}

fn are_taken(taken: &[Taken], want: &str) -> Option<bool> {
    if want == "-" {
        return Some(taken.is_empty());
    }
    let mut wanted = want.split(", ");
    for message in taken {
        if !is_taken(message, wanted.next()?)? {
            return Some(false);
        }
    }
    Some(wanted.next().is_none())
}

fn is_report(report: &Report, want: &str) -> Option<bool> {
    let mut parts = want.split("; ");
    Some(
        parts.next()?.parse().ok() == Some(report.packets)
            && are_taken(report.client_taken.as_slice(), parts.next()?)?
            && are_taken(report.server_taken.as_slice(), parts.next()?)?,
    )
}

fn is_side(end: Option<Side>, want: &str) -> bool {
    match end {
        Some(Side::Client) => want == "client",
        Some(Side::Server) => want == "server",
        None => want == "-",
    }
}

pub fn is_fault(fault: Fault, want: &str) -> Option<bool> {
    let mut words = want.split(' ');
    Some(
        words.next()?.parse().ok() == Some(fault.number)
            && words.next()?.parse().ok() == Some(fault.place)
            && is_side(fault.end, words.next()?),
    )
}

pub fn is_verdict(verdict: &Result<Report, Fault>, want: &str) -> Option<bool> {
    match verdict {
        Ok(report) => is_report(report, want),
        Err(fault) => is_fault(*fault, want),
    }
}

// The verdict over what crossed, by vectors.
fn over_vectors<'a>(
    alloc: Global,
    sent: &Sent<'a>,
    certificate: &Certificate,
) -> Option<Result<Report<'a>, Fault>> {
    let Ok(client) = DenseList::of(alloc, sent.client()) else {
        return None;
    };
    let Ok(server) = DenseList::of(alloc, sent.server()) else {
        return None;
    };
    let p = sent.params();
    Some(check_lists(alloc, &p, sent.len(), &client, &server, certificate))
}

// Whether the verdict over what crossed is the wanted one, by maps and by vectors.
fn is_judged_by_lists(
    alloc: Global,
    sent: &Sent<'_>,
    certificate: &Certificate,
    want: &str,
) -> Option<bool> {
    let by_maps = check_sent(alloc, &sent.params(), sent, certificate);
    let by_vectors = over_vectors(alloc, sent, certificate)?;
    Some(is_verdict(&by_maps, want)? && is_verdict(&by_vectors, want)?)
}

// Whether the verdict on a file that comes in pieces is the wanted one.
fn is_judged_in_pieces(
    alloc: Global,
    params: &Params,
    pieces: Pieces<'_>,
    certificate: &Certificate,
    want: &str,
) -> Option<bool> {
    match store(alloc, *params, &mut Counted::new(pieces)) {
        Ok(store) => is_verdict(
            &check_store(alloc, &store.params(), &store, certificate),
            want,
        ),
        Err(fault) => is_fault(fault, want),
    }
}

// Whether the verdict on a file is the wanted one, over each list where it can be read.
fn is_judged(
    alloc: Global,
    params: &Params,
    file: &[u8],
    certificate: &Certificate,
    want: &str,
) -> Option<bool> {
    let bytes = Pieces::new(file, 1);
    let pieces = Pieces::new(file, 7);
    let whole = Pieces::new(file, 4096);
    if !is_judged_in_pieces(alloc, params, bytes, certificate, want)?
        || !is_judged_in_pieces(alloc, params, pieces, certificate, want)?
        || !is_judged_in_pieces(alloc, params, whole, certificate, want)?
        || !is_verdict(&check(alloc, params, file, certificate), want)?
    {
        return Some(false);
    }
    match sent(alloc, *params, file) {
        Ok(sent) => is_judged_by_lists(alloc, &sent, certificate, want),
        Err(_) => Some(true),
    }
}

// Whether the verdict of a row is as it says.
fn answer(alloc: Global, row: &str) -> Option<bool> {
    let mut parts = row.split(" | ").skip(1);
    let (settings, packets) = (parts.next()?, parts.next()?);
    let (client, server, want) = (parts.next()?, parts.next()?, parts.next()?);
    let (params, file) = file_of(alloc, settings, packets)?;
    let certificate = certificate(alloc, client, server)?;
    is_judged(alloc, &params, &file, &certificate, want)
}

#[test]
fn rows_are_judged_so(rt: HostRuntime) {
    for row in ROWS.lines().chain(FILES.lines()) {
        assert_eq!(rt; answer(rt.alloc(), row), Some(true), "{row}");
    }
}

// Whether the handshake's file, cut to each length of a row, has its verdict.
fn are_cuts_judged(
    alloc: Global,
    params: &Params,
    file: &[u8],
    certificate: &Certificate,
    row: &str,
) -> Option<bool> {
    let (bounds, want) = row.split_once(" | ")?;
    let (first, last) = bounds.split_once(' ')?;
    let (first, last): (usize, usize) = (first.parse().ok()?, last.parse().ok()?);
    for len in first..=last {
        if !is_judged(alloc, params, file.get(..len)?, certificate, want)? {
            return Some(false);
        }
    }
    Some(true)
}

fn are_all_cuts_judged(alloc: Global) -> Option<bool> {
    let (params, file) = file_of(alloc, "data plain", "0 1 2")?;
    let client = "make 0 1000 open, take 2 40, make 2 1010 reply";
    let certificate = certificate(alloc, client, "take 1 7, make 1 9000 reply")?;
    for row in CUTS.lines() {
        if !are_cuts_judged(alloc, &params, &file, &certificate, row)? {
            return Some(false);
        }
    }
    Some(file.len() == 334)
}

#[test]
fn cut_files_are_judged_so(rt: HostRuntime) {
    assert_eq!(rt; are_all_cuts_judged(rt.alloc()), Some(true));
}
