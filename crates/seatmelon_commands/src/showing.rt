//! The command `show`.
ghost use Rattle.std.specs.Prelude.{◌≡◌, ◌<◌, ◌≤◌, IfOk, IsSome, None, Ok, option_map};
ghost use Rattle.seatmelon_pcapng.specs.Formats.{capture_of};
ghost use Rattle.seatmelon_show.specs.Counted.{IsListingOf};
ghost use Rattle.seatmelon_commands.specs.Shown.{IsChoiceOf, kinds_of};

use crate::opening::open_capture;
use crate::output::{Stopped, flushed, output_to};
use crate::reading::whole_file;
use crate::surveying::refused;
use crate::watched::Watched;
use rasta_pcap::{Counted, Fault};
use rasta_pdu::{Kind, Params};
use seatmelon_capture::{FileHeader, Keeping};
use seatmelon_failures::{CaptureFailure, Failure, params_in, unwritten};
use seatmelon_show::{Choice, Listing, Types, list};
use std::alloc::Global;
use std::io;
use std::io::{Input, Read, Write};
use std::rt::Files;

/// What is to be listed: the paths of the files, and which packets.
#[derive(Drop)]
pub struct Showing<'a> {
    pub capture: &'a str,
    pub parameters: &'a str,

    /// The types of the packets; none where they may have any, or none.
    pub kinds: Option<Vec<Kind>>,

    /// The first of their records, and the last.
    pub first_record: u32,
    pub last_record: u32,
}

// The types that are listed.
fn types_of(kinds: &Option<Vec<Kind>>) -> Types<'_>
    ensures { kinds_of result ≡ option_map (λ k. k.items) kinds.now }
{
    match kinds {
        Some(kinds) => Types::Of(kinds.as_slice()),
        None => Types::All,
    }
}

// Which packets are listed.
fn choice_of<'a>(showing: &'a Showing<'_>) -> Choice<'a>
    ensures { IsChoiceOf showing.now result }
{
    Choice {
        types: types_of(&showing.kinds),
        first_record: showing.first_record,
        last_record: showing.last_record,
    }
}

// Why a capture isn't listed to its end, with its header and what is kept of its reader.
fn unlisted<D>(
    alloc: Global,
    path: &str,
    stopped: Stopped,
    header: Option<FileHeader>,
    reader: &Watched<D>,
) -> CaptureFailure {
    match stopped.fault.number {
        Fault::WRITE_FAILED => unwritten(alloc, stopped.error).into(),
        _ => refused(alloc, path, stopped.fault, header, reader),
    }
}

/// Lists the packets of the capture that a reader gives, those that are chosen, and writes that to a device, all of it;
/// `path` is the capture's name in the failure.
pub fn show_of<D: Read + Drop, W: Write + Drop>(
    alloc: Global,
    path: &str,
    params: &Params,
    choice: &Choice<'_>,
    file: D,
    device: W,
) -> Result<Listing, CaptureFailure>
    ensures { IfOk result (IsListingOf params.now choice.now (option_map capture_of (D.remaining file))) }
{
    let mut source = Keeping::new(Counted::new(Watched::new(file)));
    let mut output = output_to(alloc, device)?;
    let listing = list(alloc, params, choice, &mut source, &mut output);
    let header = source.header();
    let reader = source.into_inner().into_inner();
    match flushed(output, listing) {
        Ok(listing) => Ok(listing),
        Err(stopped) => Err(unlisted(alloc, path, stopped, header, &reader)),
    }
}

/// The program's status after a listing: 1 where a fault ended the capture, and where the window has no packet.
pub fn status_of_listing(listing: &Listing) -> u8
    ensures whole { listing.now.fault ≡ None → 0 < listing.now.counts.packets → result ≡ 0 }
    ensures fault { IsSome listing.now.fault → result ≡ 1 }
    ensures none { listing.now.counts.packets ≡ 0 → result ≡ 1 }
{
    u8::from(listing.fault.is_some() || listing.counts.packets == 0)
}

// Lists the packets of the capture on standard output.
fn show_capture<R: AllocGlobal + Files + Input + Print>(
    rt: &R,
    showing: &Showing<'_>,
    params: &Params,
) -> Result<Listing, CaptureFailure> {
    let (alloc, path, choice) = (rt.alloc(), showing.capture, choice_of(showing));
    let capture = open_capture(rt, path)?;
    show_of(alloc, path, params, &choice, capture, io::writer(rt))
}

/// Reads the parameters, and lists the packets of the capture on standard output. Answers the program's status.
pub fn show_file<R: AllocGlobal + Files + Input + Print>(
    rt: &R,
    showing: &Showing<'_>,
) -> Result<u8, Failure>
    ensures { IfOk result (λ status. status ≤ 1) }
{
    let text = whole_file(rt, showing.parameters)?;
    let params = params_in(rt.alloc(), showing.parameters, &text)?;
    let listing = show_capture(rt, showing, &params)?;
    Ok(status_of_listing(&listing))
}
