//! A source whose first bytes were looked at gives all of its bytes.
use rasta_pcap::devices::{FailAt, Pieces};
use rasta_pcap::{Counted, Fault, Source, read_all};
use seatmelon_pcapng::{Classic, Peeked};
use std::alloc::Global;
use std::process::Abort;
use trials_rows::blocks_of;

// Files, and whether they begin as one of pcapng does.
const FILES: [(&str, bool); 8] = [
    (".", false),
    ("x0a", false),
    ("x0a0d0d", false),
    ("x0a0d0d0a", true),
    ("x0a0d0d0a00", true),
    ("x0a0d0d0b", false),
    ("section ethernet", true),
    ("4:2712812621 2:2 2:4 4:0 4:0 4:262144 4:1", false),
];

// Whether a file that comes in pieces of so many bytes is told so, and given whole.
fn looked_at_answer(alloc: Global, blocks: &str, most: usize, told: bool) -> Option<bool> {
    let file = blocks_of(alloc, blocks)?;
    let source = Counted::new(Pieces::new(file.as_slice(), most.max(1)));
    let mut peeked = Peeked::new(source).ok()?;
    let is_told = peeked.is_pcapng() == told;
    let bytes = read_all(alloc, &mut peeked).ok()?;
    Some(is_told && bytes == file)
}

#[test]
fn files_are_looked_at(rt: HostRuntime) {
    for (blocks, told) in &FILES {
        for most in 1..=5 {
            assert_eq!(rt;
                looked_at_answer(rt.alloc(), blocks, most, *told),
                Some(true),
                "{blocks} by {most}"
            );
        }
    }
}

// Whether a read of this number that fails is told, and nothing is lost where bytes were looked at before.
fn failed_answer(alloc: Global, call: u64) -> Option<bool> {
    let file = blocks_of(alloc, "section")?;
    let device = FailAt::new(Pieces::new(file.as_slice(), 1), call);
    let mut peeked = match Peeked::new(Counted::new(device)) {
        Ok(peeked) => peeked,
        Err(fault) => return Some(call <= 4 && fault == Fault::at(Fault::READ_FAILED, 0)),
    };
    let mut bytes = Vec::new(alloc);
    let mut buffer = [0; 3];
    for _ in 0..40 {
        if let Ok(n) = peeked.read(&mut buffer) {
            bytes.extend_from_slice(buffer.get(..n)?).ok()?;
        }
    }
    Some(call > 4 && bytes == file && peeked.failures() == 1)
}

#[test]
fn failed_reads_are_told(rt: HostRuntime) {
    for call in 1..=29 {
        assert_eq!(rt; failed_answer(rt.alloc(), call), Some(true), "{call}");
    }
}

// Whether the source gives what wasn't looked at, and a file is read as a classic capture behind it.
fn behind_answer(alloc: Global) -> Option<bool> {
    let file = blocks_of(alloc, "section ethernet [3 4:1 x07 ]")?;
    let peeked = Peeked::new(Counted::new(Pieces::new(file.as_slice(), 9))).ok()?;
    let rest = read_all(alloc, &mut peeked.into_inner()).ok()?;
    let peeked = Peeked::new(Counted::new(Pieces::new(file.as_slice(), 9))).ok()?;
    let plain = Counted::new(Pieces::new(file.as_slice(), 9));
    let behind = read_all(alloc, &mut Classic::new(alloc, peeked).ok()?).ok()?;
    let alone = read_all(alloc, &mut Classic::new(alloc, plain).ok()?).ok()?;
    Some(rest.as_slice() == file.get(4..)? && behind == alone)
}

#[test]
fn what_was_not_looked_at_is_given(rt: HostRuntime) {
    assert_eq!(rt; behind_answer(rt.alloc()), Some(true));
}
