//! Checking a certificate against a capture.
ghost use Rattle.std.specs.Prelude.{◌≡◌, ◌⊎◌, IfErr, IfOk, OnErr};
ghost use Rattle.rasta_pcap.specs.Extent.{ReadsUpToRecord};
ghost use Rattle.rasta_pcap.specs.Fault.{write_failed};
ghost use Rattle.rasta_verdict.specs.Claims.{ClaimsHeadline};
ghost use Rattle.rasta_line.specs.Runs.{IsRunFault};
ghost use Rattle.rasta_verdict.specs.Verdict.{BeginsVerdict, IsVerdict, WritesVerdict};

use crate::verdict::{judge, write_verdict};
use rasta_check::store;
use rasta_line::write_refusal;
use rasta_pdu::{Fault, Params, Sink, Source};
use std::alloc::Global;
use std::convert::AsSlice;

/// Reads a capture up to the window's last record, and writes the verdict on it and the text of a
/// certificate, and nothing else: the run that the certificate tells and the messages that each end surely
/// took, or the refusal. Nothing is written before the verdict stands.
///
/// Answers the status of the program: 0 where the capture is explained, or 1 where it is refused.
/// [`Fault::NO_MEMORY`], [`Fault::READ_FAILED`] and [`Fault::WRITE_FAILED`] alone are errors.
pub fn run_check<R: Source, W: Sink>(
    alloc: Global,
    params: &Params,
    reader: &mut R,
    certificate: &[u8],
    writer: &mut W,
) -> Result<u8, Fault>
    ensures text { IfOk result (λ status. WritesVerdict (IsVerdict params.now certificate.now) status
        (R.remaining reader.old) (R.remaining reader.new) (W.contents writer.old) (W.contents writer.new)) }
    ensures begun { OnErr result (BeginsVerdict (IsVerdict params.now certificate.now)
        (R.remaining reader.old) (R.remaining reader.new) (W.contents writer.old) (W.contents writer.new)) }
    // Where the status is 0 the text tells a run, move by move, and the headline holds.
    ensures headline { IfOk result (λ status. WritesVerdict (ClaimsHeadline params.now) status
        (R.remaining reader.old) (R.remaining reader.new) (W.contents writer.old) (W.contents writer.new)) }
    ensures silent { IfErr result (λ f. (f ≡ write_failed) ⊎ (W.contents writer.new ≡ W.contents writer.old)) }
    ensures err { IfErr result (λ f. IsRunFault f (R.failure_count reader.old) (R.failure_count reader.new)
        (W.failure_count writer.old) (W.failure_count writer.new)) }
    // Nothing after the window's last record is read.
    ensures bounded { ReadsUpToRecord params.now.last_record (R.remaining reader.old) (R.remaining reader.new) }
{
    run_check_by_value(alloc, params, reader, certificate, writer)
}

/// Does what [`run_check`] does, of a certificate's text that is passed by value: it is let go once it is
/// read, and doesn't take up memory while the scripts are followed.
pub fn run_check_by_value<C: AsSlice<u8> + Drop, R: Source, W: Sink>(
    alloc: Global,
    params: &Params,
    reader: &mut R,
    certificate: C,
    writer: &mut W,
) -> Result<u8, Fault>
    ensures text { IfOk result (λ status. WritesVerdict (IsVerdict params.now (C.items certificate)) status
        (R.remaining reader.old) (R.remaining reader.new) (W.contents writer.old) (W.contents writer.new)) }
    ensures begun { OnErr result (BeginsVerdict (IsVerdict params.now (C.items certificate))
        (R.remaining reader.old) (R.remaining reader.new) (W.contents writer.old) (W.contents writer.new)) }
    // Where the status is 0 the text tells a run, move by move, and the headline holds.
    ensures headline { IfOk result (λ status. WritesVerdict (ClaimsHeadline params.now) status
        (R.remaining reader.old) (R.remaining reader.new) (W.contents writer.old) (W.contents writer.new)) }
    ensures silent { IfErr result (λ f. (f ≡ write_failed) ⊎ (W.contents writer.new ≡ W.contents writer.old)) }
    ensures err { IfErr result (λ f. IsRunFault f (R.failure_count reader.old) (R.failure_count reader.new)
        (W.failure_count writer.old) (W.failure_count writer.new)) }
    // Nothing after the window's last record is read.
    ensures bounded { ReadsUpToRecord params.now.last_record (R.remaining reader.old) (R.remaining reader.new) }
{
    let store = match store(alloc, *params, reader) {
        Ok(store) => store,
        Err(fault) if fault.is_refusal() => return write_refusal(fault, writer),
        Err(fault) => return Err(fault),
    };
    let verdict = judge(alloc, &store, certificate)?;
    write_verdict(&verdict, writer)
}
