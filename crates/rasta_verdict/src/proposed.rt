//! What becomes of what crossed, for which a certificate is proposed.
ghost use Rattle.std.specs.Prelude.{◌≡◌, List, ℕ, None, Ok, IfErr, IfOk};
ghost use Rattle.rasta_pcap.specs.Fault.{no_memory};
ghost use Rattle.rasta_pcap.specs.Devices.{Writes, AsWritten};
ghost use Rattle.rasta_pdu.specs.Params.{Parameters};
ghost use Rattle.rasta_check.specs.Capture.Reading.{crossing_of};
ghost use Rattle.rasta_verdict.specs.Claims.{ClaimsHeadline};
ghost use Rattle.rasta_verdict.specs.Given.{IsVerdictOn};
ghost use Rattle.rasta_verdict.specs.Judged.{HasToldRun, status_of_verdict, text_of_verdict, told_verdict};
ghost use Rattle.rasta_verdict.specs.Decided.{Decides};
ghost use Rattle.rasta_verdict.specs.Proposed.{IsOutcome, Telling, built_text};

use crate::verdict::{Verdict, judge_scripts, unscripted};
use rasta_build::propose_lists;
use rasta_cert::write;
use rasta_check::Store;
use rasta_line::refusal_line;
use rasta_pcap::write_all;
use rasta_pdu::{Fault, Sink};
use std::alloc::Global;

/// The verdict on what crossed and a certificate that is proposed for it: [`Fault::NOT_FOUND`] where none is
/// proposed, and no run sends these packets; or else the report on both. Refused by [`Fault::NO_MEMORY`]
/// alone.
pub fn judge_proposed<'a>(alloc: Global, store: &'a Store) -> Result<Verdict<'a>, Fault>
    ensures stands { IfOk result (λ v. (tell : Telling) (p : Parameters) (file : List ℕ) → crossing_of p file ≡ Ok store.now
        → IsOutcome tell p file (told_verdict tell v) (status_of_verdict v)) }
    ensures decided { IfOk result (λ v. (tell : Telling) (p : Parameters) (file : List ℕ) → crossing_of p file ≡ Ok store.now
        → Decides p file (told_verdict tell v) (status_of_verdict v)) }
    ensures headline { IfOk result (λ v. (p : Parameters) (file : List ℕ) → crossing_of p file ≡ Ok store.now
        → ClaimsHeadline p file (text_of_verdict v) (status_of_verdict v)) }
    ensures judged { IfOk result (IsVerdictOn store.now None) }
    ensures told { IfOk result HasToldRun }
    ensures err { IfErr result (λ f. f ≡ no_memory) }
{
    match propose_lists(
        alloc,
        &store.params(),
        store.len(),
        &store.client(),
        &store.server(),
    ) {
        Ok(certificate) => judge_scripts(alloc, store, certificate),
        Err(fault) => unscripted(fault),
    }
}

/// Writes the certificate of a verdict, or its refusal, and answers the status of the program: 0 where the
/// capture is explained, and else 1.
pub fn write_found<W: Sink>(verdict: &Verdict<'_>, writer: &mut W) -> Result<u8, Fault>
    ensures out { Writes result (W.contents writer.old) (W.contents writer.new) (told_verdict built_text verdict.now) }
    ensures answered { IfOk result (λ status. status_of_verdict verdict.now ≡ status) }
    ensures written { AsWritten W.failure_count result writer.old writer.new }
{
    match verdict {
        Verdict::Explained(explanation) => {
            write(&explanation.certificate, writer)?;
            Ok(0)
        }
        Verdict::Unscripted(fault) | Verdict::Refused(fault, _) => {
            write_all(writer, refusal_line(*fault).as_bytes())?;
            Ok(1)
        }
    }
}
