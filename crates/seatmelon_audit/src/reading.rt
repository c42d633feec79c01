//! A capture, read once for all connections.
ghost use Rattle.std.specs.Prelude.{◌≡◌, ◌⊎◌, ◌<◌, ◌+◌, if◌then◌else◌, ◌^◌, length, IfErr, IfOk, IfSome};
ghost use Rattle.rasta_pcap.specs.Capture.{max_records};
ghost use Rattle.rasta_pcap.specs.Fault.{no_memory, read_failed};
ghost use Rattle.seatmelon_audit.specs.Reading.{IsReading, params_in};

use crate::lines::Lines;
use rasta_pcap::walk::{Visitor, walk};
use rasta_pcap::{BUFFER, Buffered, CaptureTime, Fault, MAX_RECORDS, Record, Source};
use rasta_pdu::Params;
use std::alloc::Global;

/// What was read: how each connection stands, how many records there are, how many of them hold no packet of any of
/// the connections in its window, and the fault that ended them.
#[derive(Drop)]
pub struct Reading {
    pub lines: Lines,
    pub records: u32,
    pub others: u32,
    pub fault: Option<Fault>,
}

// How many records are held by none of the connections, with one more.
fn count_other(others: u32, held: bool) -> u32
    ensures { others < max_records → result ≡ others + (if held then 0 else 1) }
{
    if held {
        others
    } else {
        others.saturating_add(1)
    }
}

impl Visitor for Reading {
    ghost use Rattle.std.proofs.Common.{refl, ◌∙◌};
    ghost use Rattle.seatmelon_audit.specs.Reading.{HasEnded, HasRead};

    ghost seen = { λ reading done. HasRead (params_in reading) done reading };

    ghost ended = { HasEnded };

    ghost same = { λ old new. params_in new ≡ params_in old };

    ghost refused = { λ fault. ⊥ };

    fn visit(&mut self, found: &Record<'_>, time: Option<CaptureTime>) -> Result<(), Fault> {
        let held = self.lines.add(found, time);
        self.others = count_other(self.others, held);
        self.records = found.number;
        Ok(())
    }

    fn end(&mut self, fault: Fault, _bytes: &[u8]) -> Result<(), Fault> {
        self.lines.end(fault);
        self.fault = Some(fault);
        Ok(())
    }

    ghost same_always = { λ reading. refl };

    ghost same_then = { λ a b c first next. next ∙ first };
}

/// Reads a capture once, up to its end or to where no record can be read.
///
/// Refused by [`Fault::NO_MEMORY`] and [`Fault::READ_FAILED`] alone: a fault of the capture is part of what is read.
pub fn read_all<R: Source>(
    alloc: Global,
    params: &[Params],
    reader: &mut R,
) -> Result<Reading, Fault>
    requires { length params.now < 2 ^ 32 }
    ensures read { IfSome (R.remaining reader.old) (λ file. IfOk result (IsReading params.now file)) }
    ensures params { IfOk result (λ reading. params_in reading ≡ params.now) }
    ensures err { IfErr result (λ f. (f ≡ no_memory) ⊎ (f ≡ read_failed)) }
{
    let lines = Lines::new(alloc, params)?;
    let mut reading = Reading {
        lines,
        records: 0,
        others: 0,
        fault: None,
    };
    let mut source = Buffered::new(alloc, reader, BUFFER)?;
    walk(alloc, &mut source, MAX_RECORDS, &mut reading)?;
    Ok(reading)
}
