//! Drafts, and captures in the format of classic ones.
use super::made::{Broken, NO_RECORD, one_request, pcapng_of, told};
use rasta_pcap::devices::{FailAt, Pieces};
use seatmelon_commands::{
    convert_of, draft_in, status_of_format, status_of_survey, survey_of, write_answer,
};
use seatmelon_failures::{FileKind, Refusal, STANDARD_OUTPUT};
use std::alloc::Global;
use std::io::{Read, Write};
use std::process::Abort;
use trials_rows::CUT_BLOCK;

// What is written for a draft of the connection of this number, or why nothing is, behind the status.
fn draft_text(alloc: Global, file: &[u8], number: u64) -> Option<Vec<u8>> {
    let survey = survey_of(alloc, "c", file, None).ok()?;
    let mut text = Vec::new(alloc);
    match draft_in(alloc, "c", &survey, number) {
        Ok(answer) => write_answer(alloc, STANDARD_OUTPUT, &answer, &mut text).ok()?,
        Err(failure) => text
            .extend_from_slice(told(alloc, failure)?.as_bytes())
            .ok()?,
    }
    Some(text)
}

// Whether the text of a draft begins so.
fn is_drafted(alloc: Global, file: &[u8], begin: &str) -> Option<bool> {
    Some(draft_text(alloc, file, 1)?.starts_with(begin.as_bytes()))
}

// Whether no connection of the one request has this number, and this is all that is said.
fn is_missing(alloc: Global, number: u64, text: &str) -> Option<bool> {
    let file = one_request(alloc)?;
    Some(draft_text(alloc, &file, number)?.as_slice() == text.as_bytes())
}

const DRAFT: &str = "# A draft of the parameters of the connection in the records 1 to 1 ";

// The one request, and of another record the first byte.
const CUT: &str = "# The capture is not whole: the file ends inside record 2 (14 CutRecord)\n\
    # Only the records before that were read.\n\
    # A draft of the parameters of the connection in the records 1 to 1 ";

// Whether a capture that ends inside its second record is drafted up to there, with status 1.
fn is_drafted_in_front(alloc: Global) -> Option<bool> {
    let mut file = one_request(alloc)?;
    file.push(1).ok()?;
    let survey = survey_of(alloc, "c", file.as_slice(), None).ok()?;
    let is_told = status_of_survey(&survey) == 1;
    Some(is_told && is_drafted(alloc, &file, CUT)?)
}

#[test]
fn a_draft_of_a_capture_that_is_not_whole(rt: HostRuntime) {
    assert_eq!(rt; is_drafted_in_front(rt.alloc()), Some(true));
}

// The one request in a pcapng file, and of another block the front.
const CUT_PCAPNG: &str =
    "# The capture is not whole: after 1 record, at byte 172: the file ends inside a block (14 CutRecord)\n\
    # Only the records before that were read.\n\
    # A draft of the parameters of the connection in the records 1 to 1 ";

// What standard error is told of the fault of a capture.
fn fault_text(alloc: Global, file: &[u8]) -> Option<String> {
    let survey = survey_of(alloc, "c", file, None).ok()?;
    let refusal = Refusal {
        fault: survey.fault()?,
        kind: FileKind::Capture,
        header: None,
        format: survey.format(),
    };
    format!(in alloc; "{refusal}").ok()
}

const CUT_FAULT: &str = "after 1 record, at byte 172: the file ends inside a block (14 CutRecord)";

// Whether a pcapng file is drafted, whole and up to a block that isn't, and the fault is told.
fn are_pcapng_drafted(alloc: Global) -> Option<bool> {
    let is_whole = is_drafted(alloc, &pcapng_of(alloc, "")?, DRAFT)?;
    let cut = pcapng_of(alloc, CUT_BLOCK)?;
    let is_told = fault_text(alloc, &cut)?.as_str() == CUT_FAULT;
    Some(is_whole && is_told && is_drafted(alloc, &cut, CUT_PCAPNG)?)
}

#[test]
fn drafts_of_pcapng_files(rt: HostRuntime) {
    assert_eq!(rt; are_pcapng_drafted(rt.alloc()), Some(true));
}

// What a file is converted to, or why it isn't, behind the program's status.
fn conversion<D: Read + Drop>(alloc: Global, file: D) -> Option<Vec<u8>> {
    let mut bytes = Vec::new(alloc);
    if let Err(failure) = convert_of(alloc, "c", file, &mut bytes) {
        bytes.clear();
        bytes
            .extend_from_slice(told(alloc, failure)?.as_bytes())
            .ok()?;
    }
    Some(bytes)
}

// The header of the capture that a pcapng file is converted to.
const CONVERTED: &[u8; 24] = b"\x4d\x3c\xb2\xa1\x02\0\x04\0\0\0\0\0\0\0\0\0\0\0\x04\0\x01\0\0\0";

// Whether a pcapng file that ends inside its second packet's block is converted up to there, and to a capture that is cut.
fn is_converted_in_front(alloc: Global) -> Option<bool> {
    let file = pcapng_of(alloc, CUT_BLOCK)?;
    let mut wanted = Vec::from_slice(alloc, CONVERTED).ok()?;
    wanted
        .extend_from_slice(one_request(alloc)?.get(CONVERTED.len()..)?)
        .ok()?;
    wanted.push(0).ok()?;
    let whole = conversion(alloc, file.as_slice())?;
    let pieces = conversion(alloc, Pieces::new(&file, 7))?;
    let format = convert_of(alloc, "c", file.as_slice(), Vec::new(alloc)).ok()?;
    let is_cut = status_of_format(format) == 1;
    Some(is_cut && whole.as_slice() == wanted.as_slice() && pieces.as_slice() == wanted.as_slice())
}

// Whether a file is converted to these bytes, or that is told.
fn is_converted<D: Read + Drop>(alloc: Global, file: D, wanted: &[u8]) -> Option<bool> {
    Some(conversion(alloc, file)?.as_slice() == wanted)
}

// Why the one request can't be written there, behind the program's status.
fn unconverted_text(alloc: Global, device: FailAt<Vec<u8>>) -> Option<String> {
    let file = one_request(alloc)?;
    told(
        alloc,
        convert_of(alloc, "c", file.as_slice(), device).err()?,
    )
}

// Whether the one request, which is a classic capture, is converted to itself.
fn is_request_kept(alloc: Global) -> Option<bool> {
    let file = one_request(alloc)?;
    is_converted(alloc, Pieces::new(&file, 9), &file)
}

#[test]
fn conversions(rt: HostRuntime) {
    let alloc = rt.alloc();
    assert_eq!(rt; is_converted_in_front(alloc), Some(true));
    assert_eq!(rt; is_request_kept(alloc), Some(true));
    let broken = Broken { number: 5 };
    let text = b"3 c: Input/output error";
    assert_eq!(rt; is_converted(alloc, broken, text), Some(true));
    let text = unconverted_text(alloc, FailAt::new(Vec::new(alloc), 1));
    assert_eq!(rt; text.as_deref(), Some("3 standard output: other error"));
}

// Whether the one request is drafted.
fn is_request_drafted(alloc: Global) -> Option<bool> {
    is_drafted(alloc, &one_request(alloc)?, DRAFT)
}

#[test]
fn drafts_by_number(rt: HostRuntime) {
    let alloc = rt.alloc();
    assert_eq!(rt; is_request_drafted(alloc), Some(true));
    assert_eq!(rt; is_drafted(alloc, NO_RECORD, "records: 0\n"), Some(true));
    let text = "2 c: there is no connection 0: a survey finds 1";
    assert_eq!(rt; is_missing(alloc, 0, text), Some(true));
    let text = "2 c: there is no connection 2: a survey finds 1";
    assert_eq!(rt; is_missing(alloc, 2, text), Some(true));
}
