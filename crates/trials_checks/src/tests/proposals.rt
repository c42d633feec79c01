//! Scripts that are proposed: they explain the captures of the rows, or name the first packet that nothing
//! explains.
use super::checks::{FILES, ROWS, is_fault, is_verdict};
use rasta_build::{propose, propose_lists};
use rasta_cert::{Certificate, Entry};
use rasta_check::{DenseList, Sent, check_sent, sent};
use std::alloc::Global;
use std::process::Abort;
use trials_rows::file_of;

// A row: its name; its lines and parameters; the packets; the fault of the proposal.
const UNEXPLAINED: &str = "\
second request in one entry | lost plain | 0 1 2 3 4 5 11 | 60 7 -
a server's bye first | timed plain | 13 | 60 1 -
no quiet start | quiet plain | 0 1 | 60 1 -
data while a reply is owed | lost plain | 0 1 2 3 4 5 12 | 60 7 -
resend differs | lost plain | 0 1 2 3 4 5 6 7 14 | 60 9 -
make past the deadline | data plain | 0 1 2 3 8 | 60 5 -
eleven lost heartbeats | heartbeats narrow | 0 1 2 3 4 5 6 7 8 9 10 11 12 13 14 15 17 19 20 21 22 | 60 18 -
a beat in place of the request | heartbeats narrow | 0 1 2 3 4 5 14 15 18 19 20 21 23 | 60 13 -
request directly after | directly plain | 0 1 2 3 4 5 6 7 8 | 60 9 -
second opening | byes plain | 0 1 5 6 | 60 4 -
both ends, the client first | byes plain | 0 1 5 0@2 6 7 | 60 5 -
both ends, the server first | byes plain | 0 0@2 1 5 7 6 | 60 5 -
";

// A row: its name; its lines and parameters; the packets; the verdict; the client's entries without their
// reasons, or a dot where they aren't looked at.
const EXPLAINED: &str = "\
opening client ends | byes plain | 0 1 2 | 3; -; - | make 0 1000, make 2 1010
opening client waits in vain | byes plain | 0 1 3 | 3; -; - | make 0 1000, make 2 4294967297
timeout that looks too early | data slack | 0 1 2 3 4 5 | 6; -; 0 3 4 ab01, 1 3 4 . | make 0 1000, take 2 40, make 2 1010, make 3 1020, take 5 41, make 5 4294970110
far deadline of a quiet point | far far | 0 1 | 2; -; - | make 0 4294967301, make 1 9002251452423
ten lost heartbeats | heartbeats narrow | 0 1 2 3 4 5 6 7 8 9 10 11 12 14 15 16 19 20 21 22 | 20; -; - | .
first PDU ahead | beaten plain | 0 1 2 3 4 5 6 7 8 9 10 11 12 13 14 15 16 17 | 18; 0 4 16 11, 1 6 16 12; 0 3 17 01, 1 5 17 02 | .
bye inside a burst | burst plain | 0 1 2 3 4 5 6 7 8 | 9; -; - | .
bye while a reply is owed | byes plain | 0 4 | 2; -; - | make 0 1000
numbers wrap | wrapped plain | 0 1 2 3 4 | 5; -; 0 3 4 01 | make 0 4294967280, take 2 40, make 2 4294967300, make 3 4294967310
";

// Whether an entry is `take SLOT NUMBER` or `make PLACE CLOCK`.
fn is_entry(entry: Entry, want: &str) -> Option<bool> {
    let mut words = want.split(' ');
    let verb = words.next()?;
    let place = words.next()?.parse().ok();
    let last = words.next()?.parse().ok();
    Some(match entry {
        Entry::Take { slot, number } => {
            verb == "take" && place == Some(slot) && last == Some(u64::from(number))
        }
        Entry::Make { index, clock, .. } => {
            verb == "make" && place == Some(index) && last == Some(clock)
        }
    })
}

fn are_entries(entries: &[Entry], want: &str) -> Option<bool> {
    let mut wanted = want.split(", ");
    for entry in entries {
        if !is_entry(*entry, wanted.next()?)? {
            return Some(false);
        }
    }
    Some(wanted.next().is_none())
}

// What is proposed for vectors of what crossed.
fn over_vectors(alloc: Global, sent: &Sent) -> Option<Certificate> {
    let Ok(client) = DenseList::of(alloc, sent.client()) else {
        return None;
    };
    let Ok(server) = DenseList::of(alloc, sent.server()) else {
        return None;
    };
    propose_lists(alloc, &sent.params(), sent.len(), &client, &server).ok()
}

fn are_same(one: &Certificate, other: &Certificate) -> bool {
    one.client() == other.client() && one.server() == other.server()
}

// Whether what is proposed for these packets has this verdict and these entries of the client, and is the
// same over vectors.
fn is_explained(alloc: Global, sent: &Sent, want: &str, entries: &str) -> Option<bool> {
    let certificate = propose(alloc, &sent.params(), sent).ok()?;
    let verdict = check_sent(alloc, &sent.params(), sent, &certificate);
    let other = over_vectors(alloc, sent)?;
    Some(
        is_verdict(&verdict, want)?
            && are_same(&certificate, &other)
            && (entries == "." || are_entries(certificate.client(), entries)?),
    )
}

// The same for the packets of a row.
fn is_row_explained(
    alloc: Global,
    settings: &str,
    packets: &str,
    want: &str,
    entries: &str,
) -> Option<bool> {
    let (params, file) = file_of(alloc, settings, packets)?;
    let sent = sent(alloc, params, &file).ok()?;
    is_explained(alloc, &sent, want, entries)
}

// Whether something is proposed that explains the packets of a row, if its certificate does.
fn is_verdict_met(alloc: Global, row: &str) -> Option<bool> {
    let mut parts = row.split(" | ").skip(1);
    let (settings, packets) = (parts.next()?, parts.next()?);
    let want = parts.nth(2)?;
    if want.contains(';') {
        is_row_explained(alloc, settings, packets, want, ".")
    } else {
        Some(true)
    }
}

#[test]
fn rows_are_explained(rt: HostRuntime) {
    for row in ROWS.lines().chain(FILES.lines()) {
        assert_eq!(rt; is_verdict_met(rt.alloc(), row), Some(true), "{row}");
    }
}

fn is_explained_so(alloc: Global, row: &str) -> Option<bool> {
    let mut parts = row.split(" | ").skip(1);
    let (settings, packets) = (parts.next()?, parts.next()?);
    is_row_explained(alloc, settings, packets, parts.next()?, parts.next()?)
}

#[test]
fn packets_are_explained_so(rt: HostRuntime) {
    for row in EXPLAINED.lines() {
        assert_eq!(rt; is_explained_so(rt.alloc(), row), Some(true), "{row}");
    }
}

// Whether the fault of a row is answered.
fn is_unexplained(alloc: Global, row: &str) -> Option<bool> {
    let mut parts = row.split(" | ").skip(1);
    let (settings, packets, want) = (parts.next()?, parts.next()?, parts.next()?);
    let (params, file) = file_of(alloc, settings, packets)?;
    let sent = sent(alloc, params, &file).ok()?;
    is_fault(propose(alloc, &sent.params(), &sent).err()?, want)
}

#[test]
fn unexplained_packets_are_named(rt: HostRuntime) {
    for row in UNEXPLAINED.lines() {
        assert_eq!(rt; is_unexplained(rt.alloc(), row), Some(true), "{row}");
    }
}
