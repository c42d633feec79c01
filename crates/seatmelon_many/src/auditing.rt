//! The command `audit`.
ghost use Rattle.std.specs.Prelude.{◌<◌, ◌≤◌, ◌^◌, IfOk, IfSome, length};
ghost use Rattle.seatmelon_pcapng.specs.Formats.{capture_of, left_in};
ghost use Rattle.seatmelon_audit.specs.Audits.{AreAudits};

use crate::files::parameter_files;
use crate::judging::{Judged, judge};
use rasta_pcap::{Counted, Fault, Source};
use rasta_pdu::Params;
use seatmelon_audit::{Audit, audit};
use seatmelon_commands::{Watched, advise, finish, open_told, output_to};
use seatmelon_failures::{
    DeviceFailure, FileKind, InputFailure, STANDARD_OUTPUT, kind_of_start, unread,
};
use seatmelon_pcapng::{Capture, Format};
use seatmelon_reading::{Summed, drain};
use seatmelon_tally::{Inputs, status_of, write_audit, write_audit_json};
use std::alloc::Global;
use std::io;
use std::io::{Input, Read, Write};
use std::rt::Files;
use std::time::Clock;

/// What an audit is written as.
#[derive(Clone, Copy)]
pub enum Form {
    Text,
    Json,
}

/// What is to be audited: the path of a capture, those of parameter files and of folders of them, and what is written.
#[derive(Drop)]
pub struct Auditing<'a> {
    pub capture: &'a str,
    pub parameters: Vec<&'a str>,
    pub form: Form,
}

/// The paths of parameter files, and the SHA-256 of each, in the order of their parameters.
#[derive(Clone, Copy)]
pub struct Named<'a> {
    pub names: &'a [String],
    pub sums: &'a [[u8; 32]],
}

/// What an audit came to, and what kind of file the capture seems to be.
#[derive(Drop)]
pub struct Audited {
    pub audit: Audit,
    pub kind: FileKind,
}

// Why there is no audit, by the fault and the error of the reader.
fn unaudited(alloc: Global, path: &str, fault: Fault, error: Option<io::Error>) -> DeviceFailure {
    match fault.number {
        Fault::READ_FAILED => unread(alloc, path, error),
        _ => DeviceFailure::OutOfMemory,
    }
}

// What an audit is written as, with the SHA-256 of the capture where that is told.
#[derive(Clone, Copy)]
enum Page {
    Text,
    Json { capture_sum: [u8; 32] },
}

// How an audit is told: the format of the file, and what it is written as.
#[derive(Clone, Copy)]
struct Telling {
    format: Format,
    page: Page,
}

// An audit, and how it is told.
#[derive(Drop)]
struct FileAudit {
    audit: Audit,
    telling: Telling,
}

// Writes an audit to a device, all of it.
fn write_to<W: Write + Drop>(
    alloc: Global,
    capture: &str,
    named: &Named<'_>,
    audit: &Audit,
    telling: Telling,
    device: W,
) -> Result<(), DeviceFailure> {
    let mut output = output_to(alloc, device)?;
    let written = match telling.page {
        Page::Text => write_audit(&mut output, named.names, audit, telling.format),
        Page::Json { capture_sum } => {
            let inputs = Inputs {
                capture,
                capture_sum,
                names: named.names,
                sums: named.sums,
            };
            write_audit_json(&mut output, &inputs, audit, telling.format)
        }
    };
    finish(alloc, STANDARD_OUTPUT, output, written)
}

// Audits the connections with these parameters in a capture that was opened.
fn audit_opened<S: Source>(
    alloc: Global,
    params: &[Params],
    capture: &mut Capture<S>,
) -> Result<Audit, Fault>
where
    S: Drop,
    requires { length params.now < 2 ^ 32 }
    ensures { IfSome (left_in S.remaining capture.old) (λ file. IfOk result (AreAudits params.now file)) }
{
    match audit(alloc, params, capture) {
        Ok(audit) => Ok(audit),
        Err(fault) => Err(capture.fault_met(fault)),
    }
}

// Audits the connections with these parameters in what a source gives, a file in either format. The source is taken
// whole: a capture isn't opened over a reader that is borrowed here.
fn audit_file<S: Source>(alloc: Global, params: &[Params], source: S) -> Result<FileAudit, Fault>
where
    S: Drop,
    requires { length params.now < 2 ^ 32 }
    ensures { IfSome (S.remaining source) (λ file. IfOk result (λ a. AreAudits params.now (capture_of file) a.audit)) }
{
    let mut capture = Capture::open(alloc, source)?;
    let audit = audit_opened(alloc, params, &mut capture)?;
    let telling = Telling {
        format: capture.format(),
        page: Page::Text,
    };
    Ok(FileAudit { audit, telling })
}

// Audits them in the same way, and sums up the file, which is read to its end.
fn audit_summed<S: Source>(alloc: Global, params: &[Params], source: S) -> Result<FileAudit, Fault>
where
    S: Drop,
    requires { length params.now < 2 ^ 32 }
    ensures { IfSome (S.remaining source) (λ file. IfOk result (λ a. AreAudits params.now (capture_of file) a.audit)) }
{
    let mut capture = Capture::open(alloc, Summed::new(source))?;
    let audit = audit_opened(alloc, params, &mut capture)?;
    let format = capture.format();
    let mut summed = capture.into_inner();
    drain(&mut summed)?;
    let capture_sum = summed.into_digest();
    let page = Page::Json { capture_sum };
    let telling = Telling { format, page };
    Ok(FileAudit { audit, telling })
}

// Audits them in what is read for this form.
fn audit_as<S: Source>(
    alloc: Global,
    form: Form,
    params: &[Params],
    source: S,
) -> Result<FileAudit, Fault>
where
    S: Drop,
    requires { length params.now < 2 ^ 32 }
    ensures { IfSome (S.remaining source) (λ file. IfOk result (λ a. AreAudits params.now (capture_of file) a.audit)) }
{
    match form {
        Form::Text => audit_file(alloc, params, source),
        Form::Json => audit_summed(alloc, params, source),
    }
}

/// Audits the connections with these parameters, whose files are named, in one reading of the file that a reader gives,
/// and writes that to a device, all of it. Nothing is written before the file is at its end.
pub fn audit_of<D: Read + Drop, W: Write + Drop>(
    alloc: Global,
    auditing: &Auditing<'_>,
    named: &Named<'_>,
    params: &[Params],
    file: D,
    device: W,
) -> Result<Audited, DeviceFailure>
    requires { length params.now < 2 ^ 32 }
    ensures { IfSome (D.remaining file) (λ bytes. IfOk result (λ a. AreAudits params.now (capture_of bytes) a.audit)) }
{
    let mut source = Counted::new(Watched::new(file));
    let audited = audit_as(alloc, auditing.form, params, &mut source);
    let reader = source.into_inner();
    match audited {
        Ok(FileAudit { audit, telling }) => {
            write_to(alloc, auditing.capture, named, &audit, telling, device)?;
            Ok(Audited {
                audit,
                kind: kind_of_start(reader.start()),
            })
        }
        Err(fault) => Err(unaudited(alloc, auditing.capture, fault, reader.error())),
    }
}

// Audits the capture on standard output.
fn audit_capture<R: AllocGlobal + Clock + Eprint + Files + Input + Print>(
    rt: &R,
    auditing: &Auditing<'_>,
    named: &Named<'_>,
    params: &[Params],
    is_told: bool,
) -> Result<Audited, DeviceFailure>
    requires { length params.now < 2 ^ 32 }
{
    let capture = open_told(rt, auditing.capture, is_told)?;
    audit_of(rt.alloc(), auditing, named, params, capture, io::writer(rt))
}

// Tells on standard error what can be done where a capture is refused for its link type.
fn advise_on_frames<R: Eprint>(rt: &R, path: &str, fault: Option<Fault>) {
    let Some(fault) = fault else {
        return;
    };
    if fault.number == Fault::LINK_TYPE {
        // Where standard error fails too, the text has told what is wrong.
        let _ = eprintln!(rt;
            "seatmelon: {path}: the frames are not Ethernet frames; if Linux's device 'any' captured them, make such \
             frames of them: seatmelon convert CAPTURE > OUT"
        );
    }
}

/// Reads and judges all parameter files, and audits the capture for them on standard output. Where one of them is refused
/// or can't be read, standard error is told of each, and the capture isn't opened. If `is_told`, standard error says how
/// many megabytes were read of a capture that takes longer than a second. Answers the program's status.
pub fn audit_files<R: AllocGlobal + Clock + Clone + Drop + Eprint + Files + Input + Print>(
    rt: &R,
    auditing: &Auditing<'_>,
    is_told: bool,
) -> Result<u8, InputFailure>
    ensures { IfOk result (λ status. status ≤ 3) }
{
    let files = parameter_files(rt, auditing.parameters.as_slice())?;
    let recorded = match judge(rt, &files)? {
        Judged::All(recorded) => recorded,
        Judged::Refused(status) => return Ok(status),
    };
    let named = Named {
        names: files.names(),
        sums: recorded.sums.as_slice(),
    };
    let audited = audit_capture(rt, auditing, &named, recorded.params.as_slice(), is_told)?;
    advise(rt, auditing.capture, audited.kind);
    advise_on_frames(rt, auditing.capture, audited.audit.fault);
    Ok(status_of(&audited.audit))
}
