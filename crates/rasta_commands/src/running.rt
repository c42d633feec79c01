//! What the program does with a form, over its files as sources and its output as a sink.
ghost use Rattle.std.specs.Prelude.{◌≡◌, ◌⊎◌, List, ℕ, Ok, Err, IfErr, IfOk, OnErr};
ghost use Rattle.rasta_pdu.specs.Params.{Parameters};
ghost use Rattle.rasta_params.specs.Keys.{ReadsParameters};
ghost use Rattle.rasta_line.specs.Runs.{IsRunFault};
ghost use Rattle.rasta_verdict.specs.Verdict.{WritesVerdict};
ghost use Rattle.rasta_commands.specs.Forms.{BeginsTelling, CarriesOut, GivesUp, HoldsDecision, HoldsHeadline, IsReadFault, ReadsCertificate, ReadsParameterFile, ReadsWhole, StaysSilent, Tells};

use crate::forms::Form;
use rasta_params::params;
use rasta_pcap::read_all;
use rasta_pdu::{Fault, Params, Sink, Source};
use rasta_show::run_show;
use rasta_verdict::{run_audit, run_build, run_check_by_value};
use std::alloc::Global;

// Reads a parameter file to its end, and judges it.
fn read_params<P: Source>(alloc: Global, reader: &mut P) -> Result<Params, Fault>
    ensures ok { IfOk result (ReadsParameterFile (P.remaining reader.old) (P.remaining reader.new)) }
    ensures err { IfErr result (λ f. IsReadFault f (P.failure_count reader.old) (P.failure_count reader.new)
        ⊎ ((text : List ℕ) × ReadsWhole (P.remaining reader.old) (P.remaining reader.new) text
        × ReadsParameters text (Err f))) }
{
    let text = read_all(alloc, reader)?;
    params(alloc, &text)
}

// Reads the certificate to its end, where the form names one.
fn read_certificate<C: Source>(
    alloc: Global,
    form: &Form<'_>,
    reader: &mut C,
) -> Result<Vec<u8>, Fault>
    ensures ok { IfOk result (λ v. ReadsCertificate form.now (C.remaining reader.old) (C.remaining reader.new) v.items) }
    ensures err { IfErr result (λ f. IsReadFault f (C.failure_count reader.old) (C.failure_count reader.new)) }
{
    match form {
        Form::Check { .. } => read_all(alloc, reader),
        Form::Show { .. } | Form::Build { .. } | Form::Audit { .. } => Ok(Vec::new(alloc)),
    }
}

// Runs the command of a form on a capture.
fn run_command<R: Source, W: Sink>(
    alloc: Global,
    form: &Form<'_>,
    params: &Params,
    certificate: Vec<u8>,
    capture: &mut R,
    writer: &mut W,
) -> Result<u8, Fault>
    ensures text { IfOk result (λ status. WritesVerdict (Tells form.now params.now certificate.items) status
        (R.remaining capture.old) (R.remaining capture.new) (W.contents writer.old) (W.contents writer.new)) }
    ensures begun { OnErr result (BeginsTelling form.now params.now certificate.items
        (R.remaining capture.old) (R.remaining capture.new) (W.contents writer.old) (W.contents writer.new)) }
    ensures headline { IfOk result (λ status. HoldsHeadline form.now params.now status
        (R.remaining capture.old) (R.remaining capture.new) (W.contents writer.old) (W.contents writer.new)) }
    ensures decided { IfOk result (λ status. HoldsDecision form.now params.now status
        (R.remaining capture.old) (R.remaining capture.new) (W.contents writer.old) (W.contents writer.new)) }
    ensures silent { IfErr result (λ f. StaysSilent form.now f (W.contents writer.old) (W.contents writer.new)) }
    ensures err { IfErr result (λ f. IsRunFault f (R.failure_count capture.old) (R.failure_count capture.new)
        (W.failure_count writer.old) (W.failure_count writer.new)) }
{
    match form {
        Form::Show { .. } => run_show(alloc, params, capture, writer),
        Form::Build { .. } => run_build(alloc, params, capture, writer),
        Form::Check { .. } => run_check_by_value(alloc, params, capture, certificate, writer),
        Form::Audit { .. } => run_audit(alloc, params, capture, writer),
    }
}

/// Does what a form asks for: reads the parameter file to its end and judges it, then reads the certificate, where
/// the form names one, and then runs the command on the capture. The form's paths are not looked at: the readers
/// stand for its files.
///
/// Answers the status of the program. Refused by [`Fault::TOML`], [`Fault::MISSING_KEY`] and
/// [`Fault::BAD_VALUE`], before anything else is read, by [`Fault::NO_MEMORY`], [`Fault::READ_FAILED`] and
/// [`Fault::WRITE_FAILED`].
pub fn run_form<P: Source, C: Source, R: Source, W: Sink>(
    alloc: Global,
    form: &Form<'_>,
    parameters: &mut P,
    certificate: &mut C,
    capture: &mut R,
    writer: &mut W,
) -> Result<u8, Fault>
    ensures ok { IfOk result (CarriesOut form.now (record {
      parameters = P.remaining parameters.old;
      certificate = C.remaining certificate.old;
      capture = R.remaining capture.old;
      output = W.contents writer.old;
      parameter_failures = P.failure_count parameters.old;
      certificate_failures = C.failure_count certificate.old;
      capture_failures = R.failure_count capture.old;
      output_failures = W.failure_count writer.old;
    }) (record {
      parameters = P.remaining parameters.new;
      certificate = C.remaining certificate.new;
      capture = R.remaining capture.new;
      output = W.contents writer.new;
      parameter_failures = P.failure_count parameters.new;
      certificate_failures = C.failure_count certificate.new;
      capture_failures = R.failure_count capture.new;
      output_failures = W.failure_count writer.new;
    })) }
    ensures err { IfErr result (GivesUp form.now (record {
      parameters = P.remaining parameters.old;
      certificate = C.remaining certificate.old;
      capture = R.remaining capture.old;
      output = W.contents writer.old;
      parameter_failures = P.failure_count parameters.old;
      certificate_failures = C.failure_count certificate.old;
      capture_failures = R.failure_count capture.old;
      output_failures = W.failure_count writer.old;
    }) (record {
      parameters = P.remaining parameters.new;
      certificate = C.remaining certificate.new;
      capture = R.remaining capture.new;
      output = W.contents writer.new;
      parameter_failures = P.failure_count parameters.new;
      certificate_failures = C.failure_count certificate.new;
      capture_failures = R.failure_count capture.new;
      output_failures = W.failure_count writer.new;
    })) }
    // By the parameters that were read.
    ensures headline { IfOk result (λ status. (p : Parameters)
        × ReadsParameterFile (P.remaining parameters.old) (P.remaining parameters.new) p
        × HoldsHeadline form.now p status (R.remaining capture.old) (R.remaining capture.new)
        (W.contents writer.old) (W.contents writer.new)) }
    ensures decided { IfOk result (λ status. (p : Parameters)
        × ReadsParameterFile (P.remaining parameters.old) (P.remaining parameters.new) p
        × HoldsDecision form.now p status (R.remaining capture.old) (R.remaining capture.new)
        (W.contents writer.old) (W.contents writer.new)) }
    ensures silent { IfErr result (λ f. StaysSilent form.now f (W.contents writer.old) (W.contents writer.new)) }
{
    let params = match read_params(alloc, parameters) {
        Ok(params) => params,
        Err(fault) => return Err(fault),
    };
    let text = match read_certificate(alloc, form, certificate) {
        Ok(text) => text,
        Err(fault) => return Err(fault),
    };
    run_command(alloc, form, &params, text, capture, writer)
}
