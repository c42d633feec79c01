//! Listing the packets of a capture.
ghost use Rattle.std.specs.Prelude.{◌≡◌, ◌≢◌, ◌<◌, ◌≤◌, ◌⊎◌, ◌↔◌, IsTrue, ℕ, Option, option_map, List, IfErr, IfOk, OnOk};
ghost use Rattle.rasta_pcap.specs.Fault.{no_memory, read_failed, write_failed};
ghost use Rattle.rasta_pcap.specs.Stream.{RefusesHeader};
ghost use Rattle.seatmelon_pcapng.specs.Formats.{capture_of};
ghost use Rattle.seatmelon_show.specs.Counted.{AreSmall, IsListingOf, counts_after, counts_next};
ghost use Rattle.seatmelon_show.specs.Sighted.{seen_of, sighted_in};

use crate::choice::Choice;
use crate::counts::{Counts, NO_COUNTS};
use crate::decoding::decoding_of;
use crate::line::{write_counts, write_end, write_head, write_line};
use crate::sight::{Sight, sight_in};
use rasta_pcap::stream::RecordReader;
use rasta_pcap::walk::{Visitor, walk_records};
use rasta_pcap::{BUFFER, Buffered, CaptureTime, Fault, Record, Sink, Source};
use rasta_pdu::Params;
use seatmelon_capture::write_link_types;
use seatmelon_pcapng::{Capture, Format};
use std::alloc::Global;

/// What a listing comes to: how many packets there are, and the fault that ends the capture, if one does.
#[derive(Clone, Copy, Debug, PartialEq, Eq)]
pub struct Listing {
    pub counts: Counts,
    pub fault: Option<Fault>,
}

// Lists a packet, which was captured at this time, if it is one of those that are listed.
fn list_sight<W: Sink>(
    params: &Params,
    choice: &Choice<'_>,
    sight: &Sight<'_>,
    time: Option<CaptureTime>,
    counts: &mut Counts,
    writer: &mut W,
) -> Result<(), Fault>
    ensures counted { OnOk result (AreSmall counts.old → counts.new ≡ counts_after params.now choice.now counts.old (seen_of sight.now)) }
    ensures err { IfErr result (λ f. f ≡ write_failed) }
{
    if !choice.includes(sight) {
        counts.pass();
        return Ok(());
    }
    let decoding = decoding_of(params, sight);
    write_line(writer, params, sight, time, decoding)?;
    counts.add(decoding);
    Ok(())
}

// Lists what a record holds, which was captured at this time, if it is one of those that are listed.
fn list_record<W: Sink>(
    params: &Params,
    choice: &Choice<'_>,
    record: &Record<'_>,
    time: Option<CaptureTime>,
    counts: &mut Counts,
    writer: &mut W,
) -> Result<(), Fault>
    ensures counted { OnOk result (AreSmall counts.old
        → counts.new ≡ counts_next params.now choice.now counts.old (sighted_in params.now («record».now.number, «record».now.bytes.now))) }
    ensures err { IfErr result (λ f. f ≡ write_failed) }
{
    match sight_in(params, record) {
        Some(sight) => list_sight(params, choice, &sight, time, counts, writer),
        None => Ok(()),
    }
}

// A listing on its way: what a record holds is listed before the next one is read.
#[derive(Drop)]
struct Lister<'a, 'c, W> {
    params: &'a Params,
    choice: &'a Choice<'c>,
    listing: Listing,
    writer: W,
}

impl<'a, 'c, W: Sink> Visitor for Lister<'a, 'c, W> {
    ghost use Rattle.std.specs.Prelude.{map, refl};
    ghost use Rattle.std.proofs.Common.{None, Some, ◌∙◌};
    ghost use Rattle.rasta_pcap.specs.Captured.{numbered};
    ghost use Rattle.seatmelon_show.specs.Counted.{AreCounts};

    ghost seen = { λ l done. AreCounts l.params.now l.choice.now (map numbered done) l.listing.counts × (l.listing.fault ≡ None) };

    ghost ended = { λ l done fault. AreCounts l.params.now l.choice.now (map numbered done) l.listing.counts × (l.listing.fault ≡ Some fault) };

    ghost same = { λ old new. (new.params.now ≡ old.params.now) × (new.choice.now ≡ old.choice.now) };

    ghost refused = { λ fault. fault ≡ write_failed };

    fn visit(&mut self, found: &Record<'_>, time: Option<CaptureTime>) -> Result<(), Fault> {
        let counts = &mut self.listing.counts;
        list_record(
            self.params,
            self.choice,
            found,
            time,
            counts,
            &mut self.writer,
        )
    }

    fn end(&mut self, fault: Fault, _bytes: &[u8]) -> Result<(), Fault> {
        self.listing.fault = Some(fault);
        Ok(())
    }

    ghost same_always = { λ l. (refl, refl) };

    ghost same_then = { λ a b c first next. (next.0 ∙ first.0, next.1 ∙ first.1) };
}

// Writes the end of a listing of a file in this format.
fn write_tail<W: Sink>(writer: &mut W, listing: &Listing, format: Format) -> Result<(), Fault>
    ensures err { IfErr result (λ f. f ≡ write_failed) }
{
    write_link_types(writer, format)?;
    if let Some(fault) = listing.fault {
        write_end(writer, fault, format)?;
    }
    write_counts(writer, &listing.counts)
}

// Lists the packets of a capture, from its header on, without the end of the listing.
fn list_capture<R: Source, W: Sink>(
    alloc: Global,
    params: &Params,
    choice: &Choice<'_>,
    reader: &mut R,
    writer: &mut W,
) -> Result<Listing, Fault>
    ensures listed { IfOk result (IsListingOf params.now choice.now (R.remaining reader.old)) }
    ensures err { IfErr result (λ f. (f ≡ no_memory) ⊎ ((f ≡ read_failed) ⊎ ((f ≡ write_failed)
        ⊎ ((left : Option (List ℕ)) × RefusesHeader f (R.remaining reader.old) left)))) }
{
    let records = RecordReader::open(alloc, reader)?;
    write_head(writer)?;
    let listing = Listing {
        counts: NO_COUNTS,
        fault: None,
    };
    let mut lister = Lister {
        params,
        choice,
        listing,
        writer,
    };
    walk_records(records, reader, params.last_record(), &mut lister)?;
    Ok(lister.listing)
}

/// Lists the packets of the recorded channels in the window, those that are chosen, each before the next record is read,
/// through a buffer. The file is a classic capture or one of pcapng. Nothing is written before the capture's header was
/// read.
///
/// Refused by [`Fault::NO_MEMORY`], [`Fault::READ_FAILED`], [`Fault::WRITE_FAILED`] and as the capture's header is refused.
/// A fault of a record ends the listing, and is part of it.
pub fn list<R: Source, W: Sink>(
    alloc: Global,
    params: &Params,
    choice: &Choice<'_>,
    reader: &mut R,
    writer: &mut W,
) -> Result<Listing, Fault>
    // Of a file that is known it is told how many packets there are up to the window's last record, and its fault.
    ensures listed { IfOk result (IsListingOf params.now choice.now (option_map capture_of (R.remaining reader.old))) }
    ensures err { IfErr result (λ f. (f ≡ no_memory) ⊎ ((f ≡ read_failed) ⊎ ((f ≡ write_failed)
        ⊎ ((left : Option (List ℕ)) × RefusesHeader f (option_map capture_of (R.remaining reader.old)) left)))) }
{
    let capture = Capture::open(alloc, reader)?;
    let mut source = Buffered::new(alloc, capture, BUFFER)?;
    let listed = list_capture(alloc, params, choice, &mut source, writer);
    let capture = source.into_inner();
    match listed {
        Ok(listing) => {
            write_tail(writer, &listing, capture.format())?;
            Ok(listing)
        }
        Err(fault) => Err(capture.fault_met(fault)),
    }
}
