//! All connections, on their way through the records of a capture.
ghost use Rattle.std.specs.Prelude.{◌≡◌, ◌<◌, ◌^◌, [], length, IfOk};
ghost use Rattle.seatmelon_audit.specs.Lines.{AllBetween, AllTakeIn, AreLines, HaveTaken, HeldAt, IsStepAt, TakesToo, TellsAny, TellsHeld, TellsToo, params_of};
ghost use Rattle.seatmelon_audit.specs.Ways.{ways_between};
ghost use Rattle.seatmelon_audit.specs.Ends.{AllEnd, IsEndAt};
ghost use Rattle.seatmelon_audit.specs.All.{IsKnown, lines_in};

use crate::line::Line;
use crate::ways::{Way, Ways};
use rasta_pcap::{CaptureTime, Fault, Record};
use rasta_pdu::Params;
use std::alloc::{AllocError, Global};

/// All connections, and which of them record which hosts.
#[derive(Drop)]
pub struct Lines {
    pub(crate) lines: Vec<Line>,
    pub(crate) ways: Ways,
}

// The connection at this place takes in a record, if there is one, and answers whether it holds a packet of it.
fn step_at(
    lines: &mut Vec<Line>,
    place: usize,
    record: &Record<'_>,
    time: Option<CaptureTime>,
) -> bool
    ensures step { IsStepAt place lines.old.items lines.new.items («record».now.number, «record».now.bytes.now) time }
    ensures held { HeldAt place lines.old.items («record».now.number, «record».now.bytes.now) result }
{
    if place < lines.len() {
        lines[place].step(record, time)
    } else {
        false
    }
}

// The connection of this way takes in a record between these hosts if it records them, and answers whether the record
// holds a packet of it.
fn step_on(
    lines: &mut Vec<Line>,
    hosts: u64,
    way: &Way,
    record: &Record<'_>,
    time: Option<CaptureTime>,
) -> bool
    ensures between { AllBetween lines.old.items lines.new.items («record».now.number, «record».now.bytes.now) time }
    ensures taken { TakesToo hosts way.now «record».now.number lines.old.items lines.new.items }
    ensures kept { params_of lines.new.items ≡ params_of lines.old.items }
    ensures held { TellsToo result lines.old.items lines.new.items («record».now.number, «record».now.bytes.now) }
{
    if way.hosts == hosts {
        step_at(lines, way.line as usize, record, time)
    } else {
        false
    }
}

// The connections of these ways between these hosts take in a record, and answer whether it holds a packet of one of them.
fn step_all(
    lines: &mut Vec<Line>,
    hosts: u64,
    ways: &[Way],
    record: &Record<'_>,
    time: Option<CaptureTime>,
) -> bool
    ensures between { AllBetween lines.old.items lines.new.items («record».now.number, «record».now.bytes.now) time }
    ensures taken { HaveTaken (ways_between hosts ways.now) «record».now.number lines.new.items }
    ensures kept { params_of lines.new.items ≡ params_of lines.old.items }
    ensures held { TellsHeld result lines.old.items lines.new.items («record».now.number, «record».now.bytes.now) }
{
    let mut held = false;
    for way in ways {
        if step_on(lines, hosts, way, record, time) {
            held = true;
        }
    }
    held
}

// The connection at this place takes in the fault that ended the reading, if there is one.
fn end_at(lines: &mut Vec<Line>, place: usize, fault: Fault)
    ensures { IsEndAt place lines.old.items lines.new.items fault }
{
    if place < lines.len() {
        lines[place].end(fault);
    }
}

// All connections take in the fault that ended the reading.
fn end_all(lines: &mut Vec<Line>, fault: Fault)
    ensures lines { AllEnd lines.old.items lines.new.items fault }
    ensures kept { params_of lines.new.items ≡ params_of lines.old.items }
{
    for place in 0..lines.len() {
        end_at(lines, place, fault);
    }
}

// The connections with these parameters, before the first record.
fn lines_of(alloc: Global, params: &[Params]) -> Result<Vec<Line>, AllocError>
    ensures lines { IfOk result (λ lines. AreLines [] lines.items) }
    ensures params { IfOk result (λ lines. params_of lines.items ≡ params.now) }
{
    let mut lines = Vec::new(alloc);
    for recorded in params {
        lines.push(Line::new(alloc, recorded))?;
    }
    Ok(lines)
}

impl Lines {
    /// Before the first record.
    pub fn new(alloc: Global, params: &[Params]) -> Result<Lines, AllocError>
        requires { length params.now < 2 ^ 32 }
        ensures lines { IfOk result (λ all. AreLines [] (lines_in all)) }
        ensures params { IfOk result (λ all. params_of (lines_in all) ≡ params.now) }
        ensures known { IfOk result IsKnown }
    {
        let lines = lines_of(alloc, params)?;
        let ways = Ways::new(alloc, params)?;
        Ok(Lines { lines, ways })
    }

    /// Takes in the next record, which was captured at this time: it goes to the connections that record the hosts of its
    /// frame, and to no other. Answers whether it holds a packet of a connection in its window.
    pub fn add(&mut self, record: &Record<'_>, time: Option<CaptureTime>) -> bool
        ensures lines { IsKnown self.old → AllTakeIn (lines_in self.old) (lines_in self.new) («record».now.number, «record».now.bytes.now) time }
        ensures params { params_of (lines_in self.new) ≡ params_of (lines_in self.old) }
        ensures known { IsKnown self.old → IsKnown self.new }
        ensures held { IsKnown self.old → TellsAny result (lines_in self.old) («record».now.number, «record».now.bytes.now) }
    {
        let (hosts, ways) = self.ways.of_frame(record.bytes);
        step_all(&mut self.lines, hosts, ways, record, time)
    }

    /// The connections, in their order.
    pub fn into_lines(self) -> Vec<Line>
        ensures { result.items ≡ lines_in self }
    {
        let Lines { lines, .. } = self;
        lines
    }

    /// Takes in the fault that ended the reading of the file.
    pub fn end(&mut self, fault: Fault)
        ensures lines { AllEnd (lines_in self.old) (lines_in self.new) fault }
        ensures params { params_of (lines_in self.new) ≡ params_of (lines_in self.old) }
    {
        end_all(&mut self.lines, fault);
    }
}
