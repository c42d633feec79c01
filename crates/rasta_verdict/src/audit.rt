//! Auditing a capture: a certificate is proposed for it, and checked.
ghost use Rattle.std.specs.Prelude.{◌≡◌, ◌⊎◌, IfErr, IfOk, OnErr};
ghost use Rattle.rasta_pcap.specs.Extent.{ReadsUpToRecord};
ghost use Rattle.rasta_pcap.specs.Fault.{write_failed};
ghost use Rattle.rasta_verdict.specs.Claims.{ClaimsHeadline};
ghost use Rattle.rasta_line.specs.Runs.{IsRunFault};
ghost use Rattle.rasta_verdict.specs.Decided.{Decides};
ghost use Rattle.rasta_verdict.specs.Verdict.{WritesVerdict};
ghost use Rattle.rasta_verdict.specs.Proposed.{BeginsOutcome, IsAudit, IsBuild};

use crate::proposed::{judge_proposed, write_found};
use crate::verdict::write_verdict;
use rasta_check::store;
use rasta_line::write_refusal;
use rasta_pdu::{Fault, Params, Sink, Source};
use std::alloc::Global;

/// Reads a capture up to the window's last record, and writes a verdict on it, and nothing else: the run
/// that a certificate tells and the messages that each end surely took, or a refusal. The certificate is
/// looked for, and checked as any other. Nothing is written before the verdict stands.
///
/// Answers the status of the program: 0 where the capture is explained, or 1 where it is refused.
/// [`Fault::NO_MEMORY`], [`Fault::READ_FAILED`] and [`Fault::WRITE_FAILED`] alone are errors.
pub fn run_audit<R: Source, W: Sink>(
    alloc: Global,
    params: &Params,
    reader: &mut R,
    writer: &mut W,
) -> Result<u8, Fault>
    ensures text { IfOk result (λ status. WritesVerdict (IsAudit params.now) status
        (R.remaining reader.old) (R.remaining reader.new) (W.contents writer.old) (W.contents writer.new)) }
    ensures begun { OnErr result (BeginsOutcome (IsAudit params.now)
        (R.remaining reader.old) (R.remaining reader.new) (W.contents writer.old) (W.contents writer.new)) }
    // Where the status is 0 the text tells a run, move by move, and the headline holds.
    ensures headline { IfOk result (λ status. WritesVerdict (ClaimsHeadline params.now) status
        (R.remaining reader.old) (R.remaining reader.new) (W.contents writer.old) (W.contents writer.new)) }
    // A capture without a fault is explained, or it is refused by 60, and no run sends its packets up to that place.
    ensures decided { IfOk result (λ status. WritesVerdict (Decides params.now) status
        (R.remaining reader.old) (R.remaining reader.new) (W.contents writer.old) (W.contents writer.new)) }
    ensures silent { IfErr result (λ f. (f ≡ write_failed) ⊎ (W.contents writer.new ≡ W.contents writer.old)) }
    ensures err { IfErr result (λ f. IsRunFault f (R.failure_count reader.old) (R.failure_count reader.new)
        (W.failure_count writer.old) (W.failure_count writer.new)) }
    // Nothing after the window's last record is read.
    ensures bounded { ReadsUpToRecord params.now.last_record (R.remaining reader.old) (R.remaining reader.new) }
{
    let store = match store(alloc, *params, reader) {
        Ok(store) => store,
        Err(fault) if fault.is_refusal() => return write_refusal(fault, writer),
        Err(fault) => return Err(fault),
    };
    let verdict = judge_proposed(alloc, &store)?;
    write_verdict(&verdict, writer)
}

/// Reads a capture up to the window's last record, and writes a certificate that explains it, or a refusal,
/// and nothing else. The certificate is looked for, and checked as any other. Nothing is written before the
/// verdict stands.
///
/// Answers the status of the program: 0 where a certificate is written, or 1 where it is a refusal.
/// [`Fault::NO_MEMORY`], [`Fault::READ_FAILED`] and [`Fault::WRITE_FAILED`] alone are errors.
pub fn run_build<R: Source, W: Sink>(
    alloc: Global,
    params: &Params,
    reader: &mut R,
    writer: &mut W,
) -> Result<u8, Fault>
    ensures text { IfOk result (λ status. WritesVerdict (IsBuild params.now) status
        (R.remaining reader.old) (R.remaining reader.new) (W.contents writer.old) (W.contents writer.new)) }
    ensures begun { OnErr result (BeginsOutcome (IsBuild params.now)
        (R.remaining reader.old) (R.remaining reader.new) (W.contents writer.old) (W.contents writer.new)) }
    // A capture without a fault is explained, or it is refused by 60, and no run sends its packets up to that place.
    ensures decided { IfOk result (λ status. WritesVerdict (Decides params.now) status
        (R.remaining reader.old) (R.remaining reader.new) (W.contents writer.old) (W.contents writer.new)) }
    ensures silent { IfErr result (λ f. (f ≡ write_failed) ⊎ (W.contents writer.new ≡ W.contents writer.old)) }
    ensures err { IfErr result (λ f. IsRunFault f (R.failure_count reader.old) (R.failure_count reader.new)
        (W.failure_count writer.old) (W.failure_count writer.new)) }
    // Nothing after the window's last record is read.
    ensures bounded { ReadsUpToRecord params.now.last_record (R.remaining reader.old) (R.remaining reader.new) }
{
    let store = match store(alloc, *params, reader) {
        Ok(store) => store,
        Err(refusal) if refusal.is_refusal() => return write_refusal(refusal, writer),
        Err(fault) => return Err(fault),
    };
    let verdict = judge_proposed(alloc, &store)?;
    write_found(&verdict, writer)
}
