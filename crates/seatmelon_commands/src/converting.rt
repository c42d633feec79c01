//! The command `convert`.
ghost use Rattle.std.specs.Prelude.{◌≡◌, ◌⊎◌, ◌≤◌, [], None, IfErr, IfOk, IfSome, IsSome};
ghost use Rattle.std.specs.Io.KnownBytes.{Appends};
ghost use Rattle.rasta_pcap.specs.Fault.{no_memory, read_failed, write_failed};
ghost use Rattle.seatmelon_pcapng.specs.Formats.{capture_of, format_of, refusal_told};
ghost use Rattle.seatmelon_commands.specs.Conversions.{converted};

use crate::opening::open_capture;
use crate::output::{failed, flushed, output_to};
use crate::watched::Watched;
use rasta_pcap::{BUFFER, Counted, Fault, Sink, Source, write_all};
use seatmelon_capture::link_type_name;
use seatmelon_cooked::{Frames, write_ethernet};
use seatmelon_failures::DeviceFailure;
use seatmelon_pcapng::{Capture, Format, Peeked, Refusal};
use std::alloc::Global;
use std::io::{Input, Read, Write};
use std::rt::Files;
use std::{fmt, io};

/// What a conversion came to: the file's format, and how many packets got headers of Ethernet, if it has packets with Linux
/// cooked headers.
#[derive(Clone, Copy)]
pub struct Conversion {
    pub format: Format,
    pub frames: Option<Frames>,
}

// Writes the classic capture of what a source gives, a file in either format, all of it, by large pieces. Answers the
// file's format. The source is taken whole: a capture isn't opened over a reader that is borrowed here.
fn convert_source<S: Source, W: Sink>(
    alloc: Global,
    source: S,
    writer: &mut W,
) -> Result<Format, Fault>
where
    S: Drop,
    ensures written { IfSome (S.remaining source) (λ file. IfOk result (λ _. Appends (W.contents writer.old) (W.contents writer.new) (capture_of file))) }
    ensures format { IfSome (S.remaining source) (λ file. S.notes source [] → IfOk result (λ f. f ≡ format_of file)) }
    ensures err { IfErr result (λ f. (f ≡ no_memory) ⊎ ((f ≡ read_failed) ⊎ (f ≡ write_failed))) }
{
    let mut capture = Capture::open(alloc, source)?;
    let mut buffer = Vec::new(alloc);
    buffer.resize(BUFFER, 0)?;
    for _ in 0..u64::MAX {
        let Ok(n) = capture.read(&mut buffer) else {
            return Err(capture.fault_met(Fault::at(Fault::READ_FAILED, 0)));
        };
        if n == 0 {
            return Ok(capture.format());
        }
        write_all(writer, &buffer[..n])?;
    }
    // No file has so many bytes.
    Err(Fault::at(Fault::READ_FAILED, 0))
}

/// Writes the classic capture of what a reader gives, a file in either format, all of it, by large pieces. Answers the
/// file's format.
///
/// Refused by [`Fault::NO_MEMORY`], [`Fault::READ_FAILED`] and [`Fault::WRITE_FAILED`] alone: a capture of a pcapng file that
/// is refused is written up to there, and ends inside its next record.
pub fn convert<R: Source, W: Sink>(
    alloc: Global,
    reader: &mut R,
    writer: &mut W,
) -> Result<Format, Fault>
    ensures written { IfSome (R.remaining reader.old) (λ file. IfOk result (λ _. Appends (W.contents writer.old) (W.contents writer.new) (capture_of file))) }
    ensures format { IfSome (R.remaining reader.old) (λ file. R.notes reader.old [] → IfOk result (λ f. f ≡ format_of file)) }
    ensures err { IfErr result (λ f. (f ≡ no_memory) ⊎ ((f ≡ read_failed) ⊎ (f ≡ write_failed))) }
{
    convert_source(alloc, reader, writer)
}

// The same as a capture of Ethernet frames, if it is a classic capture of packets with Linux cooked headers.
fn convert_frames<S: Source, W: Sink>(
    alloc: Global,
    source: S,
    writer: &mut W,
) -> Result<Conversion, Fault>
where
    S: Drop,
    ensures written { IfSome (S.remaining source) (λ file. IfOk result (λ _. Appends (W.contents writer.old) (W.contents writer.new) (converted file))) }
    ensures format { IfSome (S.remaining source) (λ file. S.notes source [] → IfOk result (λ c. c.format ≡ format_of file)) }
    ensures err { IfErr result (λ f. (f ≡ no_memory) ⊎ ((f ≡ read_failed) ⊎ (f ≡ write_failed))) }
{
    let mut peeked = Peeked::new(source)?;
    if peeked.is_pcapng() {
        let format = convert(alloc, &mut peeked, writer)?;
        return Ok(Conversion {
            format,
            frames: None,
        });
    }
    Ok(Conversion {
        format: Format::Classic,
        frames: write_ethernet(alloc, &mut peeked, writer)?,
    })
}

/// Writes the capture of Ethernet frames of what a reader gives, a file in either format, all of it: the classic capture of
/// a pcapng file, that of Ethernet frames of a classic one with Linux cooked headers, else the file as it is.
///
/// Refused by [`Fault::NO_MEMORY`], [`Fault::READ_FAILED`] and [`Fault::WRITE_FAILED`] alone.
pub fn convert_to_ethernet<R: Source, W: Sink>(
    alloc: Global,
    reader: &mut R,
    writer: &mut W,
) -> Result<Conversion, Fault>
    ensures written { IfSome (R.remaining reader.old) (λ file. IfOk result (λ _. Appends (W.contents writer.old) (W.contents writer.new) (converted file))) }
    ensures format { IfSome (R.remaining reader.old) (λ file. R.notes reader.old [] → IfOk result (λ c. c.format ≡ format_of file)) }
    ensures err { IfErr result (λ f. (f ≡ no_memory) ⊎ ((f ≡ read_failed) ⊎ (f ≡ write_failed))) }
{
    convert_frames(alloc, reader, writer)
}

/// Writes the capture of Ethernet frames of what a reader gives, a file in either format, to a device, all of it; `path` is
/// the file's name in the failure.
pub fn conversion_of<D: Read + Drop, W: Write + Drop>(
    alloc: Global,
    path: &str,
    file: D,
    device: W,
) -> Result<Conversion, DeviceFailure>
    ensures { IfSome (D.remaining file) (λ bytes. IfOk result (λ c. c.format ≡ format_of bytes)) }
{
    let mut source = Counted::new(Watched::new(file));
    let mut output = output_to(alloc, device)?;
    let conversion = convert_to_ethernet(alloc, &mut source, &mut output);
    match flushed(output, conversion) {
        Ok(conversion) => Ok(conversion),
        Err(stopped) => Err(failed(alloc, path, stopped, source.into_inner().error())),
    }
}

/// The same; answers the file's format alone.
pub fn convert_of<D: Read + Drop, W: Write + Drop>(
    alloc: Global,
    path: &str,
    file: D,
    device: W,
) -> Result<Format, DeviceFailure>
    ensures { IfSome (D.remaining file) (λ bytes. IfOk result (λ f. f ≡ format_of bytes)) }
{
    match conversion_of(alloc, path, file, device) {
        Ok(conversion) => Ok(conversion.format),
        Err(failure) => Err(failure),
    }
}

// Converts the file of that path; `-` is standard input.
fn convert_at<R: AllocGlobal + Files + Input + Print>(
    rt: &R,
    path: &str,
) -> Result<Conversion, DeviceFailure> {
    let capture = open_capture(rt, path)?;
    conversion_of(rt.alloc(), path, capture, io::writer(rt))
}

// Tells on standard error why a file was converted up to there alone.
fn tell_refusal<R: Eprint>(rt: &R, path: &str, refusal: Refusal) {
    let Refusal { reason, at } = refusal;
    let words = reason.words();
    // Where standard error fails too, the status alone tells.
    let _ = eprintln!(rt;
        "seatmelon: {path}: at byte {at}: {words}\nonly the packets before that were converted"
    );
}

// Writes of packets of which link type something is told.
fn write_packets<W: fmt::Write>(link_type: u16, f: &mut fmt::Formatter<W>) -> fmt::Result {
    write!(f, "packets of link type {link_type}")?;
    match link_type_name(link_type) {
        Some(name) => write!(f, " ({name})"),
        None => Ok(()),
    }
}

/// What standard error is told of packets of a classic file that got headers of Ethernet.
#[derive(Clone, Copy)]
pub struct FramesTold(pub Frames);

impl FramesTold {
    // Writes how many packets were left out.
    fn write_left_out<W: fmt::Write>(&self, f: &mut fmt::Formatter<W>) -> fmt::Result {
        match self.0.left_out {
            0 => Ok(()),
            left_out => write!(
                f,
                "; left out, with an empty record each: {left_out}, captured cut inside the cooked header"
            ),
        }
    }
}

impl fmt::Display for FramesTold {
    fn fmt<W: fmt::Write>(&self, f: &mut fmt::Formatter<W>) -> fmt::Result {
        let Frames {
            kind,
            written,
            nameless,
            ..
        } = self.0;
        write_packets(kind.link_type(), f)?;
        write!(
            f,
            " that got Ethernet headers: {written}; the receiver's address is zeros in all of them, the sender's in {nameless}"
        )?;
        self.write_left_out(f)
    }
}

/// What standard error is told of packets of a pcapng file that got headers of Ethernet: the link type of the first of
/// them.
#[derive(Clone, Copy)]
pub struct CookedTold(pub u16);

impl fmt::Display for CookedTold {
    fn fmt<W: fmt::Write>(&self, f: &mut fmt::Formatter<W>) -> fmt::Result {
        write_packets(self.0, f)?;
        write!(
            f,
            " were written as Ethernet frames, with zeros for addresses that they lack"
        )
    }
}

/// The program's status after a conversion: 1 where the file is refused.
pub fn status_of_format(format: Format) -> u8
    ensures refused { IsSome (refusal_told format) → result ≡ 1 }
    ensures whole { refusal_told format ≡ None → result ≡ 0 }
{
    u8::from(format.refusal().is_some())
}

/// Writes the classic capture of the file of that path to standard output; a classic capture is written as it is, unless its
/// packets have Linux cooked headers, which become headers of Ethernet, as standard error is told. Answers the program's
/// status: it is 1 where the file is refused behind some packets, which standard error is told.
pub fn convert_file<R: AllocGlobal + Files + Input + Print + Eprint>(
    rt: &R,
    path: &str,
) -> Result<u8, DeviceFailure>
    ensures { IfOk result (λ status. status ≤ 1) }
{
    let Conversion { format, frames } = convert_at(rt, path)?;
    if let Some(frames) = frames {
        // Where standard error fails too, the capture is written all the same.
        let _ = eprintln!(rt; "seatmelon: {path}: {}", FramesTold(frames));
    }
    if let Some(link_type) = format.cooked_link_type() {
        let _ = eprintln!(rt; "seatmelon: {path}: {}", CookedTold(link_type));
    }
    if let Some(refusal) = format.refusal() {
        tell_refusal(rt, path, refusal);
    }
    Ok(status_of_format(format))
}
