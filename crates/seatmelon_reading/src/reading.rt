//! A capture in either format, read once.
ghost use Rattle.std.specs.Prelude.{◌≡◌, ◌⊎◌, take, IfErr, IfOk, IfSome, OnOk};
ghost use Rattle.std.specs.Io.KnownBytes.{IsAtEnd};
ghost use Rattle.rasta_pcap.specs.Fault.{no_memory, read_failed};
ghost use Rattle.rasta_pcap.specs.Noting.{PassesOn};
ghost use Rattle.sha2.specs.Sha256.{sha256};
ghost use Rattle.seatmelon_capture.specs.Header.{header_in};
ghost use Rattle.seatmelon_pcapng.specs.Formats.{capture_of, format_of};
ghost use Rattle.seatmelon_reading.specs.Opened.{OnFile, left_behind, noted_behind};
ghost use Rattle.seatmelon_reading.specs.Passing.{IsPassed};
ghost use Rattle.seatmelon_reading.specs.Reading.{IsReading, TellsFault};

use crate::capture_refusal::CaptureRefusal;
use crate::notes::Notes;
use crate::pass::Pass;
use crate::summed::Summed;
use crate::tape::Tape;
use rasta_check::Store;
use rasta_pcap::walk::walk;
use rasta_pcap::{BUFFER, Buffered, Fault, MAX_RECORDS, Source};
use rasta_pdu::Params;
use seatmelon_capture::{FileHeader, Keeping};
use seatmelon_pcapng::{Capture, Format};
use std::alloc::Global;

// What is told of a file as a whole: its SHA-256, its header, and its format.
#[derive(Clone, Copy)]
struct FileFacts {
    digest: [u8; 32],
    header: Option<FileHeader>,
    format: Format,
}

/// What a capture holds: what crossed by it up to its first fault, that fault, what is noted of its records, the packets
/// behind what crossed, and the SHA-256, the header and the format of its file.
#[derive(Drop)]
pub struct Reading {
    pub store: Store,
    pub refusal: Option<CaptureRefusal>,
    pub notes: Notes,

    /// The packets of the connection in the window that are behind what crossed, with their datagrams: the refused one, if
    /// the refused record holds one, and those of the records behind it.
    pub unjudged: Tape,
    pub digest: [u8; 32],

    /// None where the file is shorter than a header, or begins with no magic number.
    pub header: Option<FileHeader>,

    /// In which format the file was read, and what is told of a pcapng file beside its packets.
    pub format: Format,
}

// Passes a capture, up to its end or to where no record can be read.
fn pass_capture<S: Source>(alloc: Global, source: &mut S, pass: &mut Pass<'_>) -> Result<(), Fault>
    ensures passed { PassesOn S.remaining S.notes source.old source.new }
    ensures read { IfSome (S.remaining source.old) (λ file. OnOk result (IsPassed file pass.old pass.new)) }
    ensures err { IfErr result (λ f. (f ≡ no_memory) ⊎ (f ≡ read_failed)) }
{
    walk(alloc, source, MAX_RECORDS, pass)
}

/// Reads to the end of input. Refused by [`Fault::READ_FAILED`] alone.
pub fn drain<S: Source>(source: &mut S) -> Result<(), Fault>
    ensures passed { PassesOn S.remaining S.notes source.old source.new }
    ensures ended { OnOk result (IsAtEnd (S.remaining source.new)) }
    ensures err { IfErr result (λ f. f ≡ read_failed) }
{
    let mut buffer = [0u8; 8192];
    for _ in 0..u64::MAX {
        match source.read(&mut buffer) {
            Ok(0) => return Ok(()),
            Ok(_) => {}
            Err(_) => break,
        }
    }
    Err(Fault::at(Fault::READ_FAILED, 0))
}

// Passes the capture that a source gives, and reads to the end of it.
fn pass_whole<S: Source>(alloc: Global, source: &mut S, pass: &mut Pass<'_>) -> Result<(), Fault>
    ensures passed { PassesOn S.remaining S.notes source.old source.new }
    ensures read { IfSome (S.remaining source.old) (λ file. OnOk result (IsPassed file pass.old pass.new)) }
    ensures ended { OnOk result (IsAtEnd (S.remaining source.new)) }
    ensures err { IfErr result (λ f. (f ≡ no_memory) ⊎ (f ≡ read_failed)) }
{
    pass_capture(alloc, source, pass)?;
    drain(source)
}

// Passes a capture that was opened over a file, and reads to the end of the file. Answers its format, and gives the
// source back.
fn pass_opened<S: Source>(
    alloc: Global,
    capture: Capture<S>,
    pass: &mut Pass<'_>,
) -> Result<(Format, S), Fault>
where
    S: Drop,
    ensures read { OnFile S.remaining S.notes capture (λ file. OnOk result (IsPassed (capture_of file) pass.old pass.new)) }
    ensures format { OnFile S.remaining S.notes capture (λ file. IfOk result (λ r. r.0 ≡ format_of file)) }
    ensures noted { OnFile S.remaining S.notes capture (λ file. IfOk result (λ r. S.notes r.1 file)) }
    ensures err { IfErr result (λ f. (f ≡ no_memory) ⊎ (f ≡ read_failed)) }
{
    let mut buffered = Buffered::new(alloc, capture, BUFFER)?;
    let passed = pass_whole(alloc, &mut buffered, pass);
    let capture = buffered.into_inner();
    if let Err(fault) = passed {
        return Err(capture.fault_met(fault));
    }
    let format = capture.format();
    let mut source = capture.into_inner();
    drain(&mut source)?;
    Ok((format, source))
}

// Passes a capture that was opened over a file, and answers what is told of the file as a whole.
fn pass_file<S: Source>(
    alloc: Global,
    capture: Capture<Keeping<Summed<S>>>,
    pass: &mut Pass<'_>,
) -> Result<FileFacts, Fault>
where
    S: Drop,
    ensures read { OnFile (left_behind S.remaining) noted_behind capture (λ file. OnOk result (IsPassed (capture_of file) pass.old pass.new)) }
    ensures summed { OnFile (left_behind S.remaining) noted_behind capture (λ file. IfOk result (λ facts. facts.digest ≡ sha256 file)) }
    ensures header { OnFile (left_behind S.remaining) noted_behind capture (λ file. IfOk result (λ facts. facts.header ≡ header_in (take 24 file))) }
    ensures format { OnFile (left_behind S.remaining) noted_behind capture (λ file. IfOk result (λ facts. facts.format ≡ format_of file)) }
    ensures err { IfErr result (λ f. (f ≡ no_memory) ⊎ (f ≡ read_failed)) }
{
    let (format, keeping) = pass_opened(alloc, capture, pass)?;
    Ok(FileFacts {
        format,
        header: keeping.header(),
        digest: keeping.into_inner().into_digest(),
    })
}

/// Reads a capture once, from its first byte to its last, through a buffer. A pcapng file is read as a classic capture of
/// its packets.
///
/// The packets are kept if they are to be taped. Refused by [`Fault::NO_MEMORY`] and [`Fault::READ_FAILED`]
/// alone: a fault of the capture is part of what is read.
pub fn read_capture<R: Source>(
    alloc: Global,
    params: &Params,
    without: &[u32],
    is_taped: bool,
    reader: &mut R,
) -> Result<Reading, Fault>
    // Of a file that is known it is told what crossed by its capture or the first fault of that, what is noted of its
    // records, the packets behind what crossed, and the sum, the header and the format of the file.
    ensures read { IfSome (R.remaining reader.old) (λ file. IfOk result (IsReading params.now without.now file)) }
    ensures fault { IfOk result (λ reading. TellsFault reading.refusal) }
    ensures err { IfErr result (λ f. (f ≡ no_memory) ⊎ (f ≡ read_failed)) }
{
    let capture = Capture::open(alloc, Keeping::new(Summed::new(reader)))?;
    let is_pcapng = capture.format().is_pcapng();
    let mut pass = Pass::new(alloc, params, without, is_pcapng, is_taped);
    let facts = pass_file(alloc, capture, &mut pass)?;
    let FileFacts {
        digest,
        header,
        format,
    } = facts;
    let Pass {
        builder,
        refusal,
        notes,
        unjudged,
        ..
    } = pass;
    Ok(Reading {
        store: builder.finish(),
        refusal,
        notes,
        unjudged,
        digest,
        header,
        format,
    })
}
