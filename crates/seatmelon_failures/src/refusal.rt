//! Captures that are refused, in words.

use crate::file_kind::FileKind;
use rasta_pcap::Fault;
use seatmelon_capture::{FaultWords, FileHeader, FileRefusal, link_type_name, words_of_fault};
use seatmelon_pcapng::Format;
use std::fmt;
use thiserror::Error;

/// Why a capture is refused, what kind of file it seems to be, its header, if it has one, and the format of its file.
#[derive(Clone, Copy, Debug)]
pub struct Refusal {
    pub fault: Fault,
    pub kind: FileKind,
    pub header: Option<FileHeader>,
    pub format: Format,
}

/// A capture that is refused, with its path.
#[derive(Debug, Drop, Error)]
#[error("{path}: {refusal}")]
pub struct RefusedCapture {
    pub path: String,
    pub refusal: Refusal,
}

// What is told of a file of this kind, or of frames of this link type, which are of no use, after a line feed.
fn advice_on(kind: FileKind, link_type: Option<u16>) -> &'static str {
    match (kind, link_type) {
        (FileKind::Capture, Some(COOKED | COOKED_2)) => {
            "\nmake Ethernet frames of them: seatmelon convert CAPTURE > OUT"
        }
        (FileKind::Capture, Some(_)) => "\ncapture on an Ethernet interface",
        _ => advice_on_kind(kind),
    }
}

// The same of its kind alone.
fn advice_on_kind(kind: FileKind) -> &'static str {
    match kind {
        FileKind::Gzip => "\nthis is a gzip file: gunzip it first",
        FileKind::Text => {
            "\nthis looks like a text file; CAPTURE is the file that holds the packets"
        }
        FileKind::Capture | FileKind::Pcapng | FileKind::Other => "",
    }
}

// The link types of Ethernet, and of packets of Linux's device 'any', in two versions.
const ETHERNET: u16 = 1;

const COOKED: u16 = 113;

const COOKED_2: u16 = 276;

// The link type that a fault speaks of: where it is that of Ethernet, its field says more than the type.
fn refused_link_type(refusal: &Refusal) -> Option<u16> {
    let header = refusal.header?;
    match refusal.fault.number {
        Fault::LINK_TYPE if header.link_type != ETHERNET => Some(header.link_type),
        _ => None,
    }
}

// Writes of which link type the frames are, if that is refused.
fn write_link_type<W: fmt::Write>(
    f: &mut fmt::Formatter<W>,
    link_type: Option<u16>,
) -> fmt::Result {
    let Some(link_type) = link_type else {
        return Ok(());
    };
    write!(f, " but of link type {link_type}")?;
    match link_type_name(link_type) {
        Some(name) => write!(f, " ({name})"),
        None => Ok(()),
    }
}

// Writes why a pcapng file is refused, behind how many records and where.
fn write_file_refusal<W: fmt::Write>(
    f: &mut fmt::Formatter<W>,
    refused: &FileRefusal,
) -> fmt::Result {
    let (records, name) = (refused.records, refused.records_name());
    let refusal = refused.refusal;
    let words = refusal.reason.words();
    write!(f, "after {records}{name}, at byte {}: {words}", refusal.at)
}

// Writes what a fault says of the capture itself, with the number of the record, if it names one.
fn write_fault<W: fmt::Write>(f: &mut fmt::Formatter<W>, fault: Fault) -> fmt::Result {
    let FaultWords { before, behind } = words_of_fault(fault.number);
    f.write_str(before)?;
    if fault.place > 0 {
        write!(f, "{}{behind}", fault.place)?;
    }
    Ok(())
}

impl fmt::Display for Refusal {
    fn fmt<W: fmt::Write>(&self, f: &mut fmt::Formatter<W>) -> fmt::Result {
        let fault = self.fault;
        match FileRefusal::told_by(fault, self.format) {
            Some(refused) => write_file_refusal(f, &refused)?,
            None => write_fault(f, fault)?,
        }
        let link_type = refused_link_type(self);
        write_link_type(f, link_type)?;
        let advice = advice_on(self.kind, link_type);
        write!(f, " ({} {}){advice}", fault.number, fault.name())
    }
}
