//! A walk over the records of a capture, for whoever goes along.
ghost use Rattle.std.specs.Prelude.{◌≡◌, ◌≢◌, ◌⊎◌, ◌<◌, ◌≤◌, ℕ, List, [], IfErr, IfOk, IfSome, OnOk};
ghost use Rattle.rasta_pcap.specs.Capture.{max_records};
ghost use Rattle.rasta_pcap.specs.Captured.{Captured, Walk, walk_of};
ghost use Rattle.rasta_pcap.specs.Fault.{no_memory, read_failed};
ghost use Rattle.rasta_pcap.specs.Noting.{PassesOn};
ghost use Rattle.rasta_pcap.specs.Stream.{count_in, progress_of};
ghost use Rattle.rasta_pcap.specs.Walk.{GoesOn, IsOpened, IsSeen, ReadsOnIf, StepsTo};
ghost use Rattle.rasta_pcap.specs.declared.stream.Progress.TheVariants.{Reading};

use crate::counted::Source;
use crate::fault::Fault;
use crate::pcap::Record;
use crate::stream::RecordReader;
use crate::time::CaptureTime;
use std::alloc::Global;

/// Whoever goes along the records of a capture.
pub trait Visitor {
    ghost use Rattle.rasta_pcap.specs.declared.fault.Fault.{Fault};
    ghost use Rattle.rasta_pcap.specs.Walk.{SeesEnd, SeesNext};

    /// These records were seen, and no others.
    ghost seen: { Self → List Captured → Type 0 };

    /// These are all records, and this fault ended them.
    ghost ended: { Self → List Captured → Fault → Type 0 };

    /// What stays from call to call.
    ghost same: { Self → Self → Type 0 };

    /// What its calls are refused by.
    ghost refused: { Fault → Type 0 };

    /// Takes in the next record, which was captured at this time.
    fn visit(&mut self, found: &Record<'_>, time: Option<CaptureTime>) -> Result<(), Fault>
        ensures seen { OnOk result (SeesNext seen self.old self.new (found.now.number, found.now.bytes.now) time) }
        ensures same { same self.old self.new }
        ensures err { IfErr result refused };

    /// Takes in the fault that ends the records, with what was read of its record.
    fn end(&mut self, fault: Fault, bytes: &[u8]) -> Result<(), Fault>
        requires { (fault ≢ no_memory) × (fault ≢ read_failed) }
        ensures ended { OnOk result (SeesEnd seen ended self.old self.new fault) }
        ensures same { same self.old self.new }
        ensures err { IfErr result refused };

    ghost same_always: { (v : Self) → same v v };

    ghost same_then: { (a b c : Self) → same a b → same b c → same a c };
}

// Takes the next record along; false where there is none, and where none can be read.
fn visit_next<S: Source, V: Visitor>(
    records: &mut RecordReader,
    source: &mut S,
    visitor: &mut V,
) -> Result<bool, Fault>
    requires { progress_of records.old ≡ Reading }
    ensures step { (w : Walk) (most : ℕ) → count_in records.old < most → most ≤ max_records
        → GoesOn V.seen w most records.old (S.remaining source.old) visitor.old
        → IfOk result (λ more. StepsTo more V.seen V.ended w most records.new (S.remaining source.new) visitor.new) }
    ensures on { IfOk result (λ more. ReadsOnIf more records.old records.new) }
    ensures same { V.same visitor.old visitor.new }
    ensures passed { PassesOn S.remaining S.notes source.old source.new }
    ensures err { IfErr result (λ f. (f ≡ no_memory) ⊎ ((f ≡ read_failed) ⊎ V.refused f)) }
{
    match records.advance(source) {
        Ok(Some(number)) => {
            let bytes = records.buffer();
            visitor.visit(&Record { number, bytes }, records.time())?;
            Ok(true)
        }
        Ok(None) => Ok(false),
        Err(fault) if fault.is_failure() => Err(Fault::at(fault.number, 0)),
        Err(fault) => {
            visitor.end(fault, records.buffer())?;
            Ok(false)
        }
    }
}

/// Takes at most so many records of a capture along, whose header was read, up to its end or to where no record can be
/// read.
///
/// Refused by [`Fault::NO_MEMORY`], [`Fault::READ_FAILED`] and by what refuses the visitor's calls.
pub fn walk_records<S: Source, V: Visitor>(
    mut records: RecordReader,
    source: &mut S,
    most: u32,
    visitor: &mut V,
) -> Result<(), Fault>
    requires reading { progress_of records ≡ Reading }
    requires start { count_in records ≡ 0 }
    requires most { most ≤ max_records }
    ensures seen { (file : List ℕ) → IsOpened file most records (S.remaining source.old) → V.seen visitor.old []
        → OnOk result (IsSeen V.seen V.ended (walk_of most file) visitor.new) }
    ensures same { V.same visitor.old visitor.new }
    ensures passed { PassesOn S.remaining S.notes source.old source.new }
    ensures err { IfErr result (λ f. (f ≡ no_memory) ⊎ ((f ≡ read_failed) ⊎ V.refused f)) }
{
    for _ in 0..most {
        if !visit_next(&mut records, source, visitor)? {
            break;
        }
    }
    Ok(())
}

/// Takes at most so many records of a capture along, from its header on, up to its end or to where no record can be read.
///
/// Refused as [`walk_records`] is.
pub fn walk<S: Source, V: Visitor>(
    alloc: Global,
    source: &mut S,
    most: u32,
    visitor: &mut V,
) -> Result<(), Fault>
    requires { most ≤ max_records }
    ensures seen { IfSome (S.remaining source.old) (λ file. V.seen visitor.old []
        → OnOk result (IsSeen V.seen V.ended (walk_of most file) visitor.new)) }
    ensures same { V.same visitor.old visitor.new }
    ensures passed { PassesOn S.remaining S.notes source.old source.new }
    ensures err { IfErr result (λ f. (f ≡ no_memory) ⊎ ((f ≡ read_failed) ⊎ V.refused f)) }
{
    match RecordReader::open(alloc, source) {
        Ok(records) => walk_records(records, source, most, visitor),
        Err(fault) if fault.is_failure() => Err(Fault::at(fault.number, 0)),
        Err(fault) => visitor.end(fault, &[]),
    }
}
