//! What is told of the packets of a connection, whatever becomes of it.
ghost use Rattle.std.specs.Prelude.{◌≡◌};
ghost use Rattle.seatmelon_audit.specs.Facts.{ending_place, facts_by, quiet_record, reopening_place, stamp_there};

use crate::line::{Line, Span, Stamp};
use rasta_pdu::Params;
use seatmelon_middle::Course;

/// What is told of the packets of a connection.
#[derive(Clone, Copy)]
pub struct Facts {
    /// The first record of the window.
    pub first_record: u32,

    /// The last record of the window.
    pub last_record: u32,

    /// The record before which the parameters have a quiet point, if they have one.
    pub quiet_record: Option<u32>,

    /// The first and the last record that hold a packet of it in its window, also behind a refusal and where there was
    /// no memory.
    pub span: Span,

    /// Whether its first packet in the window opens the connection, if there is one.
    pub opens: Option<bool>,

    /// How it goes on and ends, by all its packets in the window; none where there was no memory.
    pub course: Option<Course>,

    /// The record of the disconnection request that the course names.
    pub ending: Option<Stamp>,

    /// The record of the packet that opens another connection, by the course.
    pub reopening: Option<Stamp>,
}

// The record before which the parameters have a quiet point, if they have one.
fn quiet_record(params: &Params) -> Option<u32>
    ensures { result ≡ quiet_record params.now }
{
    params.quiet()?;
    Some(params.first_record())
}

// The place of the disconnection request, if one crossed.
fn ending_place(course: Option<Course>) -> Option<u32>
    ensures { result ≡ ending_place course }
{
    let ending = course?.ending?;
    Some(ending.place)
}

// The place of the packet that opens another connection, if one does.
fn reopening_place(course: Option<Course>) -> Option<u32>
    ensures { result ≡ reopening_place course }
{
    course?.reopening
}

// The record that holds the packet at a place, counted from 0.
fn stamp_there(packets: &[Stamp], place: Option<u32>) -> Option<Stamp>
    ensures { result ≡ stamp_there packets.now place }
{
    packets.get(place? as usize).copied()
}

/// What is told of a connection with this course.
pub fn facts_of(line: &Line, course: Option<Course>) -> Facts
    ensures { result ≡ facts_by line.now course }
{
    let packets = line.packets.as_slice();
    Facts {
        first_record: line.params.first_record(),
        last_record: line.params.last_record(),
        quiet_record: quiet_record(&line.params),
        span: line.span,
        opens: line.opens,
        course,
        ending: stamp_there(packets, ending_place(course)),
        reopening: stamp_there(packets, reopening_place(course)),
    }
}
