//! Which datagrams are kept, so that copies of them are known.
use rasta_pdu::LastDatagram;
use std::alloc::Global;
use std::process::Abort;

// Datagrams in the order in which they come, a letter for each, and what is answered to each: `=` that it is the one
// that is kept, `k` that it is kept now, and `-` that it isn't.
const ROWS: &str = "\
abcd k---
aabbcc k=k=k=
aaaabbbb k===k===
abccdd k--kk=
aabcdd k=k--k
abacbdce k-=k--=k
aabbcdee k=k=k--k
";

// A datagram whose redundancy number is that of the letter.
fn datagram_of(letter: u8) -> [u8; 12] {
    [0, 0, 0, 0, letter, 0, 0, 1, 1, 2, 3, 4]
}

fn answer(last: &mut LastDatagram, letter: u8) -> u8 {
    let datagram = datagram_of(letter);
    if last.is(&datagram) {
        b'='
    } else if last.keep(&datagram) {
        b'k'
    } else {
        b'-'
    }
}

// Whether each datagram of a row is answered so.
fn is_answered(alloc: Global, row: &str) -> Option<bool> {
    let (letters, answers) = row.split_once(' ')?;
    let mut last = LastDatagram::new(alloc);
    for (letter, want) in letters.bytes().zip(answers.bytes()) {
        if answer(&mut last, letter) != want {
            return Some(false);
        }
    }
    Some(letters.len() == answers.len())
}

#[test]
fn datagrams_are_kept_where_copies_come(rt: HostRuntime) {
    for row in ROWS.lines() {
        assert_eq!(rt; is_answered(rt.alloc(), row), Some(true), "{row}");
    }
}

// Two datagrams with one redundancy number, as the two sides may send them.
fn answers_to_one_number(alloc: Global) -> [u8; 3] {
    let mut last = LastDatagram::new(alloc);
    let mut other = datagram_of(b'a');
    other[11] = 5;
    let first = answer(&mut last, b'a');
    let is_copy = last.is(&other);
    let is_kept = last.keep(&other);
    [first, u8::from(is_copy), u8::from(is_kept)]
}

#[test]
fn number_alone_makes_no_copy(rt: HostRuntime) {
    assert_eq!(rt; answers_to_one_number(rt.alloc()), [b'k', 0, 1]);
}
