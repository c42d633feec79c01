//! Reading what each side sent from a capture.
ghost use Rattle.std.specs.Prelude.{◌≡◌, ◌≤◌, ◌↔◌, ℕ, suc, List, Ok, Err, MatchResult, IfErr, IsSome, ◌⊎◌};
ghost use Rattle.rasta_pcap.specs.Fault.{no_memory, redundancy_length, number_gap};
ghost use Rattle.rasta_pcap.specs.Capture.{reading};
ghost use Rattle.rasta_check.specs.Capture.SentLists.{FirstCopy};
ghost use Rattle.rasta_check.specs.Capture.Reading.{after_reading};
ghost use Rattle.rasta_check.specs.Internals.Packets.{after_next};
ghost use Rattle.rasta_check.specs.Capture.Faults.{CrossedIn, Impossible, IsFaultlessCapture, IsRefusedCapture, packets_through};

use crate::sent_packets::Sent;
use rasta_pcap::{Fault, Pcap};
use rasta_pdu::Params;
use std::alloc::Global;

// Adds the next record of a capture; false at its end.
#[tactic(auto, using(crate::proofs::Capture::Readings::leads_on), unfolding(crate::specs::Capture::Reading::after_records))]
fn add_next<'a>(sent: &mut Sent<'a>, pcap: &mut Pcap<'a>) -> Result<bool, Fault>
    ensures { MatchResult result
        (λ more. (left : ℕ) → after_reading sent.old (reading (suc left) pcap.old) ≡ after_next more sent.new (reading left pcap.new))
        (λ f. (f ≡ no_memory) ⊎ ((left : ℕ) → after_reading sent.old (reading (suc left) pcap.old) ≡ Err f)) }
{
    match pcap.next_record() {
        Ok(None) => Ok(false),
        Ok(Some(record)) => match sent.add_record(&record) {
            Ok(()) => Ok(true),
            Err(fault) => Err(fault),
        },
        Err(fault) => Err(fault),
    }
}

// Adds the records of a capture, at most so many.
fn add_records<'a>(mut sent: Sent<'a>, mut pcap: Pcap<'a>, last: u32) -> Result<Sent<'a>, Fault>
    ensures { MatchResult result
        (λ s. after_reading sent.entry (reading last pcap.entry) ≡ Ok s)
        (λ f. (f ≡ no_memory) ⊎ (after_reading sent.entry (reading last pcap.entry) ≡ Err f)) }
{
    for _ in 0..last {
        match add_next(&mut sent, &mut pcap) {
            Ok(true) => {}
            Ok(false) => break,
            Err(fault) => return Err(fault),
        }
    }
    Ok(sent)
}

/// The packets that crossed by a file, and what each side sent; or the first fault: the file header's,
/// and then record by record the record's own, its datagram's, its PDU's, [`Fault::COPY_DIFFERS`],
/// [`Fault::NUMBER_GAP`], and [`Fault::TOO_MANY`] where it is packet 16,000,001 or its side's PDU
/// 1,000,001.
///
/// A fault names the record. The faults of a packet, from [`Fault::REDUNDANCY_LENGTH`] to
/// [`Fault::NUMBER_GAP`], speak of its sender. Records before the window are read and not judged,
/// and nothing after its last record is read. [`Fault::NO_MEMORY`] may stand in place of any answer.
pub fn sent<'a>(alloc: Global, p: Params, file: &'a [u8]) -> Result<Sent<'a>, Fault>
    // Exactly a capture without a fault is read, memory aside; else the fault is its first.
    ensures value { MatchResult result
        (λ s. CrossedIn p file.now s)
        (λ f. (f ≡ no_memory) ⊎ IsRefusedCapture p file.now f) }
    ensures only { IfErr result (λ f. (f ≡ no_memory)
        ⊎ ((client server : List FirstCopy) → IsFaultlessCapture p file.now client server → ⊥)) }

    // A fault from 20 to 28, and no other, speaks of a side.
    ensures side { IfErr result (λ f. IsSome f.end ↔ (redundancy_length ≤ f.number) × (f.number ≤ number_gap)) }

    // Where the fault speaks of a side, no run sends packets that begin with those up to its record.
    ensures definite { IfErr result (λ f. IsSome f.end → Impossible p (packets_through p file.now f.place)) }
{
    let last = p.last_record();
    match Pcap::open(file) {
        Ok(pcap) => add_records(Sent::new(alloc, p), pcap, last),
        Err(fault) => Err(fault),
    }
}
