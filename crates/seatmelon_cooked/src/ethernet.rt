//! A capture of packets with cooked headers, as one of Ethernet frames.
ghost use Rattle.std.specs.Prelude.{◌≡◌, ◌≤◌, ◌⊎◌, length, IfErr, IfOk, IfSome, OnOk};
ghost use Rattle.std.specs.Io.KnownBytes.{Appends};
ghost use Rattle.rasta_pcap.specs.Capture.{max_captured};
ghost use Rattle.rasta_pcap.specs.Fault.{no_memory, read_failed, write_failed};
ghost use Rattle.seatmelon_cooked.specs.Ethernet.{ethernet_header, ethernet_of, most_records, records_of};

use crate::filling::{fill, write_rest};
use crate::form::{FILE_HEADER, Form, Kind};
use crate::record::{MAX_CAPTURED, Sent, write_next};
use rasta_pcap::{Fault, Sink, Source, write_all};
use std::alloc::Global;

// Where the link type stands in the header of a file, and that of Ethernet.
const LINK_TYPE_AT: usize = 20;

const ETHERNET: u32 = 1;

/// How many packets got headers of Ethernet.
#[derive(Clone, Copy, Debug, PartialEq, Eq)]
pub struct Frames {
    pub kind: Kind,

    /// How many are frames now, and how many of them without their sender's address.
    pub written: u64,
    pub nameless: u64,

    /// How many were captured cut inside their cooked headers.
    pub left_out: u64,
}

impl Frames {
    fn new(kind: Kind) -> Frames {
        Frames {
            kind,
            written: 0,
            nameless: 0,
            left_out: 0,
        }
    }

    fn count(&mut self, sent: Sent) {
        match sent {
            Sent::Named => self.written = self.written.saturating_add(1),
            Sent::Nameless => {
                self.written = self.written.saturating_add(1);
                self.nameless = self.nameless.saturating_add(1);
            }
            Sent::LeftOut => self.left_out = self.left_out.saturating_add(1),
        }
    }
}

// Writes the header of a file, with the link type of Ethernet.
fn write_header<W: Sink>(form: Form, header: &[u8], writer: &mut W) -> Result<(), Fault>
    requires { 20 ≤ length header.now }
    ensures written { OnOk result (Appends (W.contents writer.old) (W.contents writer.new) (ethernet_header form header.now)) }
    ensures err { IfErr result (λ f. f ≡ write_failed) }
{
    write_all(writer, &header[..LINK_TYPE_AT])?;
    write_all(writer, &form.order.spell(ETHERNET))
}

// Writes the records that are left of a source, each as one of Ethernet.
fn write_records<S: Source, W: Sink>(
    form: Form,
    source: &mut S,
    buffer: &mut [u8],
    writer: &mut W,
) -> Result<Frames, Fault>
    requires { length buffer.old ≡ max_captured }
    ensures written { IfSome (S.remaining source.old) (λ bytes. OnOk result
        (Appends (W.contents writer.old) (W.contents writer.new) (records_of most_records form bytes))) }
    ensures err { IfErr result (λ f. (f ≡ read_failed) ⊎ (f ≡ write_failed)) }
{
    let mut frames = Frames::new(form.kind);
    for _ in 0..u64::MAX {
        match write_next(form, source, buffer, writer)? {
            Some(sent) => frames.count(sent),
            None => return Ok(frames),
        }
    }
    // No file has so many records.
    Err(Fault::at(Fault::READ_FAILED, 0))
}

// Writes the capture of Ethernet frames of the file that a source gives, through this buffer.
fn write_through<S: Source, W: Sink>(
    source: &mut S,
    buffer: &mut [u8],
    writer: &mut W,
) -> Result<Option<Frames>, Fault>
    requires { length buffer.old ≡ max_captured }
    ensures written { IfSome (S.remaining source.old) (λ file. OnOk result
        (Appends (W.contents writer.old) (W.contents writer.new) (ethernet_of file))) }
    ensures err { IfErr result (λ f. (f ≡ read_failed) ⊎ (f ≡ write_failed)) }
{
    let mut header = [0; FILE_HEADER];
    let filled = fill(source, &mut header, FILE_HEADER)?;
    let front = &header[..filled];
    match Form::told_by(front) {
        Some(form) => {
            write_header(form, front, writer)?;
            Ok(Some(write_records(form, source, buffer, writer)?))
        }
        None => {
            write_rest(front, source, buffer, writer)?;
            Ok(None)
        }
    }
}

/// Writes the capture of Ethernet frames of the file that a source gives: if it is a classic capture of link type 113 or
/// 276, its packets with headers of Ethernet in place of the cooked ones, and how many these are; else the file as it is.
/// What begins with no whole record is written as it is, so that the capture ends there as the file does.
///
/// Refused by [`Fault::NO_MEMORY`], [`Fault::READ_FAILED`] and [`Fault::WRITE_FAILED`] alone.
pub fn write_ethernet<S: Source, W: Sink>(
    alloc: Global,
    source: &mut S,
    writer: &mut W,
) -> Result<Option<Frames>, Fault>
    ensures written { IfSome (S.remaining source.old) (λ file. OnOk result
        (Appends (W.contents writer.old) (W.contents writer.new) (ethernet_of file))) }
    ensures err { IfErr result (λ f. (f ≡ no_memory) ⊎ ((f ≡ read_failed) ⊎ (f ≡ write_failed))) }
{
    let mut buffer = Vec::new(alloc);
    buffer.resize(MAX_CAPTURED, 0)?;
    write_through(source, &mut buffer, writer)
}
