//! The verdict on what crossed and a certificate, and its text.
ghost use Rattle.std.specs.Prelude.{◌≡◌, ◌≢◌, ◌⊎◌, List, ℕ, Ok, Some, IfErr, IfOk};
ghost use Rattle.rasta_pcap.specs.Fault.{no_memory};
ghost use Rattle.rasta_pcap.specs.Devices.{Writes, AsWritten};
ghost use Rattle.rasta_pdu.specs.Params.{Parameters};
ghost use Rattle.rasta_cert.specs.Certificate.{IsCertificate, certificate_text};
ghost use Rattle.rasta_cert.specs.Refusals.{IsRefusedText};
ghost use Rattle.rasta_check.specs.Capture.Reading.{crossing_of};
ghost use Rattle.rasta_verdict.specs.declared.verdict.Verdict.TheVariants as verdicts;
ghost use Rattle.rasta_verdict.specs.Told.{IsTold};
ghost use Rattle.rasta_verdict.specs.Verdict.{IsVerdict, explained_line};
ghost use Rattle.rasta_verdict.specs.Claims.{ClaimsHeadline};
ghost use Rattle.rasta_verdict.specs.Given.{IsVerdictOn};
ghost use Rattle.rasta_verdict.specs.Judged.{HasToldRun, IsChecked, IsVerdictByScripts, status_of_verdict, text_of_explanation, text_of_verdict};

use crate::run_text::write_run;
use crate::taken_text::write_taken;
use rasta_cert::{Certificate, read};
use rasta_check::{Report, Store, check_store};
use rasta_line::{Line, refusal_line};
use rasta_pcap::write_all;
use rasta_pdu::{Fault, Side, Sink};
use std::alloc::Global;
use std::convert::AsSlice;

/// What crossed, the certificate that explains it, and the report on both.
#[derive(Drop)]
pub struct Explanation<'a> {
    pub store: &'a Store,
    pub certificate: Certificate,
    pub report: Report<'a>,
}

/// What becomes of what crossed.
#[derive(Drop)]
pub enum Verdict<'a> {
    /// A certificate's text isn't one, or none is found.
    Unscripted(Fault),

    /// The checker refuses the scripts.
    Refused(Fault, Certificate),

    Explained(Explanation<'a>),
}

/// A refusal is a verdict; a lack of memory is none.
pub fn unscripted<'a>(fault: Fault) -> Result<Verdict<'a>, Fault>
    ensures ok { IfOk result (λ v. (v ≡ verdicts.Unscripted fault) × (fault ≢ no_memory)) }
    ensures err { IfErr result (λ f. f ≡ no_memory) }
{
    if fault.number == Fault::NO_MEMORY {
        Err(Fault::no_memory())
    } else {
        Ok(Verdict::Unscripted(fault))
    }
}

// The verdict on what crossed and a certificate, by what the checker says of both.
fn verdict_by<'a>(
    store: &'a Store,
    certificate: Certificate,
    checked: Result<Report<'a>, Fault>,
) -> Result<Verdict<'a>, Fault>
    requires { IsChecked store.now certificate checked }
    ensures judged { IfOk result (IsVerdictByScripts store.now certificate) }
    ensures told { IfOk result HasToldRun }
    ensures err { IfErr result (λ f. f ≡ no_memory) }
{
    match checked {
        Ok(report) => Ok(Verdict::Explained(Explanation {
            store,
            certificate,
            report,
        })),
        Err(fault) if fault.number == Fault::NO_MEMORY => Err(Fault::no_memory()),
        Err(fault) => Ok(Verdict::Refused(fault, certificate)),
    }
}

/// The verdict on what crossed and a certificate: the client's script is judged first, then the server's.
/// Refused by [`Fault::NO_MEMORY`] alone.
pub fn judge_scripts<'a>(
    alloc: Global,
    store: &'a Store,
    certificate: Certificate,
) -> Result<Verdict<'a>, Fault>
    ensures stands { IfOk result (λ v. (p : Parameters) (file text : List ℕ) → crossing_of p file ≡ Ok store.now
        → text ≡ certificate_text certificate → IsCertificate certificate → IsVerdict p text file (text_of_verdict v) (status_of_verdict v)) }
    ensures judged { IfOk result (IsVerdictByScripts store.now certificate) }
    ensures told { IfOk result HasToldRun }
    ensures err { IfErr result (λ f. f ≡ no_memory) }
{
    let checked = check_store(alloc, &store.params(), store, &certificate);
    verdict_by(store, certificate, checked)
}

// The certificate of a text, which is let go.
fn certificate_of<C: AsSlice<u8> + Drop>(alloc: Global, text: C) -> Result<Certificate, Fault>
    ensures ok { IfOk result (λ c. (C.items text ≡ certificate_text c) × IsCertificate c) }
    ensures err { IfErr result (λ f. (f ≡ no_memory) ⊎ IsRefusedText (C.items text) f) }
{
    read(alloc, text.as_slice())
}

/// The verdict on what crossed and a certificate's text, which is let go before the scripts are followed: the
/// text is judged first, then the client's script, then the server's. Refused by [`Fault::NO_MEMORY`] alone.
pub fn judge<'a, C: AsSlice<u8> + Drop>(
    alloc: Global,
    store: &'a Store,
    certificate: C,
) -> Result<Verdict<'a>, Fault>
    ensures stands { IfOk result (λ v. (p : Parameters) (file : List ℕ) → crossing_of p file ≡ Ok store.now
        → IsVerdict p (C.items certificate) file (text_of_verdict v) (status_of_verdict v)) }
    ensures headline { IfOk result (λ v. (p : Parameters) (file : List ℕ) → crossing_of p file ≡ Ok store.now
        → ClaimsHeadline p file (text_of_verdict v) (status_of_verdict v)) }
    ensures judged { IfOk result (IsVerdictOn store.now (Some (C.items certificate))) }
    ensures told { IfOk result HasToldRun }
    ensures err { IfErr result (λ f. f ≡ no_memory) }
{
    match certificate_of(alloc, certificate) {
        Ok(certificate) => judge_scripts(alloc, store, certificate),
        Err(fault) => unscripted(fault),
    }
}

// Makes the first line of an explanation.
#[tactic(auto, unfolding(crate::specs::Verdict::explained_line))]
fn put_explained(line: &mut Line, packets: u32)
    ensures { line.new ≡ explained_line packets }
{
    line.begin_with_number(u64::from(packets));
    line.word(b"explained");
}

// Writes the text of an explanation.
fn write_explanation<W: Sink>(explanation: &Explanation<'_>, writer: &mut W) -> Result<(), Fault>
    requires { IsTold explanation.now.store.now explanation.now.certificate }
    ensures out { Writes result (W.contents writer.old) (W.contents writer.new) (text_of_explanation explanation.now) }
    ensures written { AsWritten W.failure_count result writer.old writer.new }
{
    let report = &explanation.report;
    let mut line = Line::new();
    put_explained(&mut line, report.packets);
    write_all(writer, line.as_bytes())?;
    write_run(
        explanation.store,
        &explanation.certificate,
        &mut line,
        writer,
    )?;
    write_taken(
        Side::Client,
        report.client_taken.as_slice(),
        &mut line,
        writer,
    )?;
    write_taken(
        Side::Server,
        report.server_taken.as_slice(),
        &mut line,
        writer,
    )
}

/// Writes the text of a verdict, and answers the status of the program: 0 where the capture is explained,
/// and else 1.
pub fn write_verdict<W: Sink>(verdict: &Verdict<'_>, writer: &mut W) -> Result<u8, Fault>
    requires { HasToldRun verdict.now }
    ensures out { Writes result (W.contents writer.old) (W.contents writer.new) (text_of_verdict verdict.now) }
    ensures answered { IfOk result (λ status. status_of_verdict verdict.now ≡ status) }
    ensures written { AsWritten W.failure_count result writer.old writer.new }
{
    match verdict {
        Verdict::Explained(explanation) => {
            write_explanation(explanation, writer)?;
            Ok(0)
        }
        Verdict::Unscripted(fault) | Verdict::Refused(fault, _) => {
            write_all(writer, refusal_line(*fault).as_bytes())?;
            Ok(1)
        }
    }
}
