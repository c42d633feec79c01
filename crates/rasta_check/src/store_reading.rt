//! Reading what each side sent from a reader.
ghost use Rattle.std.specs.Prelude.{◌≡◌, ◌≤◌, ◌↔◌, ◌⊎◌, ℕ, suc, List, Option, Ok, Err, IfOk, IfErr, OnOk, OnErr, IsSome};
ghost use Rattle.std.specs.Io.KnownBytes.{Consumes};
ghost use Rattle.rasta_pcap.specs.Fault.{redundancy_length, number_gap};
ghost use Rattle.rasta_pcap.specs.Extent.{HasRead, ReadsUpToRecord, ReadsWithinRecord};
ghost use Rattle.rasta_pcap.specs.Stream.{ReadsSo, order_in, progress_of};
ghost use Rattle.rasta_pcap.specs.declared.stream.Progress.TheVariants.{Reading};
ghost use Rattle.rasta_check.specs.Internals.Storing.{AddsNext, IsFailure, IsRefusedSo, IsStored, crossing_left};

use crate::packet_store::Store;
use rasta_pcap::stream::RecordReader;
use rasta_pcap::{Fault, Record, Source};
use rasta_pdu::Params;
use std::alloc::Global;

// Adds the next record of a capture; false at its end.
fn add_next<R: Source>(
    store: &mut Store,
    records: &mut RecordReader,
    reader: &mut R,
) -> Result<bool, Fault>
    requires { progress_of records.old ≡ Reading }
    ensures next { IfOk result (λ more. AddsNext more store.old store.new records.old records.new
        (R.remaining reader.old) (R.remaining reader.new)) }
    ensures err { IfErr result (λ f. IsFailure f (R.failure_count reader.old) (R.failure_count reader.new)
        ⊎ ReadsSo (λ rest. (left : ℕ) → crossing_left store.old records.old (suc left) rest ≡ Err f)
        (R.remaining reader.old) (R.remaining reader.new)) }
    ensures begun { OnErr result ((bs : List ℕ) × Consumes (R.remaining reader.old) (R.remaining reader.new) bs) }
    ensures within { ReadsWithinRecord (order_in records.old) (R.remaining reader.old) (R.remaining reader.new) }
    ensures steady { OnOk result (R.failure_count reader.new ≡ R.failure_count reader.old) }
{
    match records.advance(reader) {
        Ok(None) => Ok(false),
        Ok(Some(number)) => {
            let bytes = records.buffer();
            match store.add_record(&Record { number, bytes }) {
                Ok(_) => Ok(true),
                Err(fault) => Err(fault),
            }
        }
        Err(fault) => Err(fault),
    }
}

// Adds the records of a capture, at most so many.
fn add_records<R: Source>(
    mut store: Store,
    mut records: RecordReader,
    last: u32,
    reader: &mut R,
) -> Result<Store, Fault>
    requires { progress_of records ≡ Reading }
    ensures value { IfOk result (λ k. ReadsSo (λ rest. crossing_left store records last rest ≡ Ok k)
        (R.remaining reader.old) (R.remaining reader.new)) }
    ensures err { IfErr result (λ f. IsFailure f (R.failure_count reader.old) (R.failure_count reader.new)
        ⊎ ReadsSo (λ rest. crossing_left store records last rest ≡ Err f)
        (R.remaining reader.old) (R.remaining reader.new)) }
    ensures begun { OnErr result ((bs : List ℕ) × Consumes (R.remaining reader.old) (R.remaining reader.new) bs) }

    // With the header that was read before, nothing was read after this record.
    ensures bounded { (first : Option (List ℕ)) → HasRead (order_in records) 0 first (R.remaining reader.old)
        → ReadsUpToRecord last first (R.remaining reader.new) }
    ensures steady { OnOk result (R.failure_count reader.new ≡ R.failure_count reader.old) }
{
    for _ in 0..last {
        match add_next(&mut store, &mut records, reader) {
            Ok(true) => {}
            Ok(false) => break,
            Err(fault) => return Err(fault),
        }
    }
    Ok(store)
}

/// What crossed by the capture that a reader gives, as [`sent`](crate::sent) reads it from a file; or the
/// first fault, as of `sent`, or [`Fault::READ_FAILED`].
///
/// Records before the window are read and not judged, and nothing after its last record is read.
/// [`Fault::NO_MEMORY`] may stand in place of any answer.
pub fn store<R: Source>(alloc: Global, p: Params, reader: &mut R) -> Result<Store, Fault>
    // Every input that begins with what was read is stored so, or has this fault.
    ensures value { IfOk result (λ k. ReadsSo (IsStored p k) (R.remaining reader.old) (R.remaining reader.new)) }
    ensures err { IfErr result (λ f. IsFailure f (R.failure_count reader.old) (R.failure_count reader.new)
        ⊎ ReadsSo (IsRefusedSo p f) (R.remaining reader.old) (R.remaining reader.new)) }

    // A fault from 20 to 28, and no other, speaks of a side.
    ensures side { IfErr result (λ f. IsSome f.end ↔ (redundancy_length ≤ f.number) × (f.number ≤ number_gap)) }
    ensures begun { OnErr result ((bs : List ℕ) × Consumes (R.remaining reader.old) (R.remaining reader.new) bs) }
    ensures bounded { ReadsUpToRecord p.last_record (R.remaining reader.old) (R.remaining reader.new) }
    ensures steady { OnOk result (R.failure_count reader.new ≡ R.failure_count reader.old) }
{
    let last = p.last_record();
    match RecordReader::open(alloc, reader) {
        Ok(records) => add_records(Store::new(alloc, p), records, last, reader),
        Err(fault) => Err(fault),
    }
}
