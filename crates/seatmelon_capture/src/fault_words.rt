//! Faults of a capture, in words.
ghost use Rattle.rasta_pcap.specs.Devices.{AsWritten};

use rasta_pcap::{Fault, Sink};
use seatmelon_pcapng::{Format, Refusal};
use seatmelon_text::{parts, tell, write_parts_if, write_words};

/// What a fault of a capture says, before the number of the record and behind it; a fault of the file's header names no
/// record.
#[derive(Clone, Copy)]
pub struct FaultWords {
    pub before: &'static str,
    pub behind: &'static str,
}

impl FaultWords {
    const fn new(before: &'static str, behind: &'static str) -> FaultWords {
        FaultWords { before, behind }
    }
}

/// What the fault of that number says.
pub fn words_of_fault(number: u8) -> FaultWords {
    match number {
        Fault::NOT_PCAP => FaultWords::new("this is not a classic libpcap file", ""),
        Fault::VERSION => FaultWords::new("this is not version 2.4 of the libpcap format", ""),
        Fault::LINK_TYPE => FaultWords::new("its frames are not Ethernet frames", ""),
        Fault::CUT_HEADER => FaultWords::new("the file ends inside its header", ""),
        Fault::CUT_RECORD => FaultWords::new("the file ends inside record ", ""),
        Fault::TOO_MANY => FaultWords::new("record ", " is one too many"),
        Fault::RECORD_TOO_LONG => FaultWords::new("record ", " has more than 262144 bytes"),
        _ => FaultWords::new("record ", " is refused"),
    }
}

/// Why a pcapng file is refused, behind how many records of its capture.
#[derive(Clone, Copy)]
pub struct FileRefusal {
    pub records: u32,
    pub refusal: Refusal,
}

impl FileRefusal {
    /// What a fault of the capture of a file in this format tells, where the file is refused; the capture then ends inside
    /// its next record.
    pub fn told_by(fault: Fault, format: Format) -> Option<FileRefusal> {
        if fault.number != Fault::CUT_RECORD {
            return None;
        }
        Some(FileRefusal {
            records: fault.place.saturating_sub(1),
            refusal: format.refusal()?,
        })
    }

    /// What so many records are called.
    pub fn records_name(&self) -> &'static str {
        match self.records {
            1 => " record",
            _ => " records",
        }
    }
}

// Writes why a file is refused, behind how many records and where.
fn write_refusal<W: Sink>(writer: &mut W, refused: &FileRefusal) -> Result<(), Fault>
    ensures written { AsWritten W.failure_count result writer.old writer.new }
{
    let Refusal { reason, at } = refused.refusal;
    tell!(
        writer,
        "after ",
        refused.records,
        refused.records_name(),
        ", at byte ",
        at,
        ": ",
        reason.words()
    )
}

// Writes what a fault says of the capture itself, with the number of the record, if it names one.
fn write_record_fault<W: Sink>(writer: &mut W, fault: Fault) -> Result<(), Fault>
    ensures written { AsWritten W.failure_count result writer.old writer.new }
{
    let FaultWords { before, behind } = words_of_fault(fault.number);
    write_words(writer, before)?;
    write_parts_if(writer, fault.place > 0, &parts![fault.place, behind])
}

/// Writes what a fault of a file in this format says, with its number and its name, as a line.
///
/// Refused by [`Fault::WRITE_FAILED`] alone.
pub fn write_fault<W: Sink>(writer: &mut W, fault: Fault, format: Format) -> Result<(), Fault>
    ensures written { AsWritten W.failure_count result writer.old writer.new }
{
    match FileRefusal::told_by(fault, format) {
        Some(refused) => write_refusal(writer, &refused)?,
        None => write_record_fault(writer, fault)?,
    }
    tell!(writer, " (", fault.number, " ", fault.name(), ")\n")
}
