//! What the program writes.

use crate::output::{finish, output_to};
use rasta_pcap::{Fault, Sink};
use rasta_pdu::Params;
use seatmelon_capture::write_fault;
use seatmelon_failures::DeviceFailure;
use seatmelon_pcapng::Format;
use seatmelon_survey::{Connection, Survey};
use seatmelon_text::write_words;
use std::alloc::Global;
use std::io::Write;

/// A parameter file for a connection of a capture, whose fault it names by the format of its file, if there is one. If
/// parameters are kept, only the window and the quiet point are new.
#[derive(Clone, Copy)]
pub struct Draft<'a> {
    pub connection: &'a Connection,
    pub fault: Option<Fault>,
    pub format: Format,
    pub kept: Option<&'a Params>,
}

/// What the program writes.
#[derive(Clone, Copy)]
pub enum Answer<'a> {
    /// What was found in a capture.
    Survey(&'a Survey),

    /// The same as JSON.
    SurveyJson(&'a Survey),

    /// A parameter file.
    Draft(Draft<'a>),
}

// Writes that the capture of a file in this format isn't whole, as a comment.
fn write_fault_comment<W: Sink>(writer: &mut W, fault: Fault, format: Format) -> Result<(), Fault> {
    write_words(writer, "# The capture is not whole: ")?;
    write_fault(writer, fault, format)?;
    write_words(writer, "# Only the records before that were read.\n")
}

impl Draft<'_> {
    fn write<W: Sink>(&self, writer: &mut W) -> Result<(), Fault> {
        if let Some(fault) = self.fault {
            write_fault_comment(writer, fault, self.format)?;
        }
        match self.kept {
            Some(params) => self.connection.write_kept_draft(writer, params),
            None => self.connection.write_draft(writer),
        }
    }
}

impl Answer<'_> {
    fn write<W: Sink>(&self, writer: &mut W) -> Result<(), Fault> {
        match self {
            Answer::Survey(survey) => survey.write(writer),
            Answer::SurveyJson(survey) => survey.write_json(writer),
            Answer::Draft(draft) => draft.write(writer),
        }
    }
}

/// Writes an answer to the device of that name, all of it.
pub fn write_answer<W: Write + Drop>(
    alloc: Global,
    name: &str,
    answer: &Answer<'_>,
    device: W,
) -> Result<(), DeviceFailure> {
    let mut output = output_to(alloc, device)?;
    let written = answer.write(&mut output);
    finish(alloc, name, output, written)
}
