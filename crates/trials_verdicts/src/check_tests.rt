//! The verdict on captures and certificates in memory.
use crate::cases::{Case, Command, case_of, row_at, rows, tells};
use crate::show_tests::number_in;
use std::alloc::Global;
use std::process::Abort;

// Whether a check by the certificate of a case tells this of a file.
fn tells_of(alloc: Global, case: &Case, file: &[u8], want: &str) -> Option<bool> {
    let check = Command::Check(case.certificate.as_bytes());
    tells(alloc, check, &case.params, file, want)
}

// Whether a check tells what a row says.
fn is_checked(alloc: Global, row: &str) -> Option<bool> {
    let case = case_of(alloc, row)?;
    tells_of(alloc, &case, &case.file, case.want.as_str())
}

#[test]
fn certificates_are_checked(rt: HostRuntime) {
    for row in rows().lines() {
        assert_eq!(rt; is_checked(rt.alloc(), row), Some(true), "{row}");
    }
}

// The handshake's file, cut to a number of bytes: from this one, to that one, and the text.
const CUTS: &str = "\
0 23 refused 13 CutHeader 0 -
24 24 refused 32 NotFirstCopy 1 client
25 131 refused 14 CutRecord 1 -
132 132 refused 31 SlotOrder 2 client
133 239 refused 14 CutRecord 2 -
240 240 refused 32 NotFirstCopy 3 client
241 333 refused 14 CutRecord 3 -
";

fn bounds_in(row: &str) -> Option<(u32, u32, &str)> {
    let mut words = row.splitn(3, ' ');
    Some((
        number_in(words.next())?,
        number_in(words.next())?,
        words.next()?,
    ))
}

// Whether a check of the handshake's first bytes tells this, for each number of them within these bounds.
fn tells_of_each(alloc: Global, first: u32, last: u32, want: &str) -> Option<bool> {
    let case = case_of(alloc, row_at(1))?;
    for len in first..=last {
        let front = case.file.get(..len as usize)?;
        if tells_of(alloc, &case, front, want) != Some(true) {
            return Some(false);
        }
    }
    Some(true)
}

// Whether the handshake's file, cut so, is told of so; the text of a row has a line feed at its end.
fn is_cut_so(alloc: Global, row: &str) -> Option<bool> {
    let (first, last, want) = bounds_in(row)?;
    tells_of_each(alloc, first, last, want)
}

#[test]
fn cut_files_are_checked(rt: HostRuntime) {
    for row in CUTS.split_inclusive('\n') {
        assert_eq!(rt; is_cut_so(rt.alloc(), row), Some(true), "{row}");
    }
    assert_eq!(rt; is_checked(rt.alloc(), row_at(1)), Some(true));
}
