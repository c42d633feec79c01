//! Stores of captures at the limits.
ghost use Rattle.std.specs.Prelude.{None};

use rasta_check::{Fault, Store, store};
use rasta_pcap::Counted;
use std::alloc::Global;
use std::io;
use std::io::Read;
use std::process::Abort;
use trials_rows::{file_of, push_record};

// A reader of a file's first bytes, and then of so many heartbeats, which it makes.
#[derive(Drop)]
struct Beats<'a> {
    front: &'a [u8],
    beat: [u8; 94],
    given: usize,
    number: u32,
    sn: u32,
    left: u32,
}

impl<'a> Beats<'a> {
    // After a handshake, whose last record is a heartbeat with the number 8 and the SN 101: in the record they stand from
    // the bytes 62 and 78 on.
    fn after(handshake: &'a [u8], count: u32) -> Option<Beats<'a>> {
        let beat = *handshake.last_chunk::<94>()?;
        Some(Beats {
            front: handshake,
            beat,
            given: beat.len(),
            number: 8,
            sn: 101,
            left: count,
        })
    }

    // Goes on to the next heartbeat, if there is one.
    fn make(&mut self) {
        if self.left > 0 {
            self.left -= 1;
            self.number = self.number.wrapping_add(1);
            self.sn = self.sn.wrapping_add(1);
            self.beat[62..66].copy_from_slice(&self.number.to_le_bytes());
            self.beat[78..82].copy_from_slice(&self.sn.to_le_bytes());
            self.given = 0;
        }
    }
}

impl<'a> Read for Beats<'a> {
    ghost remaining = { λ b. None };

    fn read(&mut self, buf: &mut [u8]) -> io::Result<usize> {
        if !self.front.is_empty() {
            return self.front.read(buf);
        }
        if self.given >= self.beat.len() {
            self.make();
        }
        let mut rest = self.beat.get(self.given..).unwrap_or(&[]);
        let count = rest.read(buf)?;
        self.given = self.given.saturating_add(count);
        Ok(count)
    }
}

// How many packets a store has, or the fault.
fn outcome(stored: Result<Store, Fault>) -> Result<u32, Fault> {
    stored.map(|store| store.len())
}

// What is stored of the handshake and so many heartbeats of the client.
fn beats_stored(alloc: Global, count: u32) -> Option<Result<u32, Fault>> {
    let (params, file) = file_of(alloc, "data plain", "0 1 2")?;
    let mut reader = Counted::new(Beats::after(&file, count)?);
    Some(outcome(store(alloc, params, &mut reader)))
}

// A client sends at most 1,000,000 PDUs, and two of them are in the handshake.
#[test]
fn a_million_pdus_are_stored(rt: HostRuntime) {
    assert_eq!(rt; beats_stored(rt.alloc(), 999_998), Some(Ok(1_000_001)));
    let refused = Fault::at(Fault::TOO_MANY, 1_000_002);
    assert_eq!(rt; beats_stored(rt.alloc(), 999_999), Some(Err(refused)));
}

// What is stored of the handshake and a record of so many bytes after it.
fn foreign_stored(alloc: Global, captured: u32) -> Option<Result<u32, Fault>> {
    let (params, mut file) = file_of(alloc, "data plain", "0 1 2")?;
    let frame = vec![in alloc; 0u8; captured as usize].ok()?;
    push_record(&mut file, 0, &frame)?;
    Some(outcome(store(alloc, params, &mut Counted::new(file.as_slice()))))
}

#[test]
fn longest_record_is_passed_over(rt: HostRuntime) {
    assert_eq!(rt; foreign_stored(rt.alloc(), 262_144), Some(Ok(3)));
    let refused = Fault::at(Fault::RECORD_TOO_LONG, 4);
    assert_eq!(rt; foreign_stored(rt.alloc(), 262_145), Some(Err(refused)));
}
