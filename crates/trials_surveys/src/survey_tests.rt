//! The text of a survey, and what it answers where a device goes wrong.
use crate::cases::{Case, MARK, case_in, surveys};
use crate::files::file_with;
use rasta_pcap::devices::{FailAt, Pieces};
use rasta_pcap::{Counted, Fault, Sink, Source};
use seatmelon_capture::write_fault;
use seatmelon_pcapng::{Format, Reason, Refusal, Remarks};
use seatmelon_survey::{Connection, Survey, survey};
use std::alloc::Global;
use trials_rows::file_of;

fn first_case() -> Option<Case<'static>> {
    case_in(surveys().split(MARK).nth(1)?)
}

// What a file that comes in pieces of this size holds.
fn surveyed(alloc: Global, file: &[u8], most: usize) -> Result<Survey, Fault> {
    let most = most.max(1);
    survey(alloc, &mut Counted::new(Pieces::new(file, most)), None)
}

fn text_of(alloc: Global, survey: &Survey) -> Option<Vec<u8>> {
    let mut writer = Counted::new(Vec::new(alloc));
    survey.write(&mut writer).ok()?;
    Some(writer.into_inner())
}

// The text of the survey of a file that comes in pieces of this size.
fn text_in(alloc: Global, file: &[u8], most: usize) -> Option<Vec<u8>> {
    let found = surveyed(alloc, file, most).ok()?;
    text_of(alloc, &found)
}

// Whether the survey of a case, whose file comes in pieces of this size, has the text that is wanted.
fn is_surveyed(alloc: Global, lines: &str, most: usize) -> Option<bool> {
    let case = case_in(lines)?;
    let file = file_with(alloc, case.parts, case.changes)?;
    let text = text_in(alloc, &file, most)?;
    Some(text.as_slice() == case.want.as_bytes())
}

#[test]
fn texts(rt: HostRuntime) {
    for lines in surveys().split(MARK).skip(1) {
        for most in [1, 7, 4096] {
            assert_eq!(rt;
                is_surveyed(rt.alloc(), lines, most),
                Some(true),
                "{most} {lines}"
            );
        }
    }
}

// A number is missing, the client ends, its opening comes once more, a datagram was captured cut, and so is the file.
const MIXED: Case<'static> = Case {
    parts: "data plain: 0 1 3 5 0 2%60 4 cut",
    changes: "",
    name: "As JSON.",
    want: concat!(
        r#"{"records":6,"packets":5,"passed_over":1,"left_out":0,"captured_cut":1,"snapshot_length":null,"#,
        r#""connections":[{"connection":1,"ends":["#,
        r#"{"name":"client","id":96,"version":"0303","n_sendmax":20,"ended":{"record":4,"reason":4},"#,
        r#""sent":[{"type":"connection request","count":1},{"type":"disconnection request","count":1},"#,
        r#"{"type":"data","count":1}],"gaps":1,"missing":1,"first_gap":{"number":8,"record":3},"#,
        r#""late":0,"copies":1,"differing_copies":0,"too_old":0},"#,
        r#"{"name":"server","id":97,"version":"0303","n_sendmax":20,"ended":null,"#,
        r#""sent":[{"type":"connection response","count":1}],"gaps":0,"missing":0,"first_gap":null,"#,
        r#""late":0,"copies":0,"differing_copies":0,"too_old":0}],"#,
        r#""first_record":1,"last_record":5,"first_time":"1970-01-01 00:00:00.000000 UTC","#,
        r#""last_time":"1970-01-01 00:00:00.000000 UTC","opened_at":1,"opened_before":false,"#,
        r#""late_copies":{"count":1,"first_record":5,"last_record":5},"#,
        r#""channels":[{"channel":1,"ends":["10.0.0.1:5000","10.0.0.2:5000"],"from_first":4,"from_second":1}],"#,
        r#""packets_on_further_channels":0,"packets":5,"safety_code":[{"length":0,"fits":5},"#,
        r#"{"length":8,"fits":0,"start_words_fit":0},{"length":16,"fits":0,"start_words_fit":0}],"#,
        r#""check_code":[{"length":0,"fits":5},{"length":2,"fits":0},{"length":4,"fits":0}],"captured_cut":1}],"#,
        r#""only_captured_cut":[],"more_pairs":0,"not_told_apart":0,"#,
        r#""fault":{"number":14,"name":"CutRecord","record":7}}"#,
        "\n"
    ),
};

fn is_json(alloc: Global, case: &Case<'_>) -> Option<bool> {
    let file = file_with(alloc, case.parts, case.changes)?;
    let mut writer = Counted::new(Vec::new(alloc));
    surveyed(alloc, &file, 7)
        .ok()?
        .write_json(&mut writer)
        .ok()?;
    Some(writer.into_inner().as_slice() == case.want.as_bytes())
}

#[test]
fn json(rt: HostRuntime) {
    assert_eq!(rt; is_json(rt.alloc(), &MIXED), Some(true));
}

// The fault behind the records of a capture that is cut in its last record.
fn fault_of_cut(alloc: Global) -> Option<Fault> {
    let (_, file) = file_of(alloc, "data plain", "0 1 2 cut")?;
    surveyed(alloc, &file, 7).ok()?.fault()
}

// A capture that is cut in its last record is surveyed up to that record; one that is cut in its header is refused.
#[test]
fn cut_capture(rt: HostRuntime) {
    let fault = fault_of_cut(rt.alloc());
    assert_eq!(rt; fault, Some(Fault::at(Fault::CUT_RECORD, 3)));
    let refused = surveyed(rt.alloc(), &[], 7).err();
    assert_eq!(rt; refused, Some(Fault::at(Fault::CUT_HEADER, 0)));
}

// A pcapng file that is refused at a block, and one that isn't.
const REFUSED: Format = Format::Pcapng(Remarks {
    refusal: Some(Refusal {
        reason: Reason::Trailer,
        at: 60,
    }),
    other_link_type: None,
    cooked_link_type: None,
});

const WHOLE: Format = Format::Pcapng(Remarks {
    refusal: None,
    other_link_type: None,
    cooked_link_type: None,
});

// Whether the text of a survey of the capture that is cut in its last record ends so, where its file was read in this format.
fn ends_so(alloc: Global, format: Format, end: &str) -> Option<bool> {
    let (_, file) = file_of(alloc, "data plain", "0 1 2 cut")?;
    let mut found = surveyed(alloc, &file, 7).ok()?;
    found.set_format(format);
    Some(text_of(alloc, &found)?.ends_with(end.as_bytes()))
}

#[test]
fn cut_capture_of_a_pcapng_file(rt: HostRuntime) {
    let end = "\n\nafter 2 records, at byte 60: the two lengths of a block differ (14 CutRecord)\n";
    assert_eq!(rt; ends_so(rt.alloc(), REFUSED, end), Some(true));
    let end = "\n\nthe file ends inside record 3 (14 CutRecord)\n";
    assert_eq!(rt; ends_so(rt.alloc(), WHOLE, end), Some(true));
}

// Whether the survey of a capture of no packets begins so, where these link types are told of its file: of packets without
// bytes, and of ones with cooked headers.
fn begins_so(alloc: Global, other: Option<u16>, cooked: Option<u16>, begin: &str) -> Option<bool> {
    let (_, file) = file_of(alloc, "data plain", "-")?;
    let mut found = surveyed(alloc, &file, 7).ok()?;
    found.set_format(Format::Pcapng(Remarks {
        refusal: None,
        other_link_type: other,
        cooked_link_type: cooked,
    }));
    Some(text_of(alloc, &found)?.starts_with(begin.as_bytes()))
}

#[test]
fn packets_of_other_link_types(rt: HostRuntime) {
    let alloc = rt.alloc();
    let named = "records: 0\npackets of RaSTA: 0\nother records, passed over: 0\n\
        an interface of this file has link type 101 (raw IP): its packets are of no connection\n\
        no packet of a RaSTA connection\n";
    assert_eq!(rt; begins_so(alloc, Some(101), None, named), Some(true));
    let unnamed = "records: 0\npackets of RaSTA: 0\nother records, passed over: 0\n\
        an interface of this file has link type 200: its packets are of no connection\n\
        an interface of this file has link type 276 (Linux cooked capture v2): its packets are read as Ethernet frames, \
        with zeros for addresses that they lack\n\
        no packet of a RaSTA connection\n";
    assert_eq!(rt; begins_so(alloc, Some(200), Some(276), unnamed), Some(true));
    let cooked = "records: 0\npackets of RaSTA: 0\nother records, passed over: 0\n\
        an interface of this file has link type 113 (Linux cooked capture): its packets are read as Ethernet frames, with \
        zeros for addresses that they lack\n\
        no packet of a RaSTA connection\n";
    assert_eq!(rt; begins_so(alloc, None, Some(113), cooked), Some(true));
}

// Whether a fault of a file in this format is told so.
fn is_told(alloc: Global, fault: Fault, format: Format, text: &str) -> Option<bool> {
    let mut writer = Counted::new(Vec::new(alloc));
    write_fault(&mut writer, fault, format).ok()?;
    Some(writer.into_inner().as_slice() == text.as_bytes())
}

#[test]
fn faults_of_a_pcapng_file(rt: HostRuntime) {
    let alloc = rt.alloc();
    let fault = Fault::at(Fault::CUT_RECORD, 2);
    let text = "after 1 record, at byte 60: the two lengths of a block differ (14 CutRecord)\n";
    assert_eq!(rt; is_told(alloc, fault, REFUSED, text), Some(true));
    let fault = Fault::at(Fault::TOO_MANY, 5);
    let text = "record 5 is one too many (17 TooMany)\n";
    assert_eq!(rt; is_told(alloc, fault, REFUSED, text), Some(true));
    let fault = Fault::at(Fault::CUT_HEADER, 0);
    let text = "the file ends inside its header (13 CutHeader)\n";
    assert_eq!(rt; is_told(alloc, fault, Format::Classic, text), Some(true));
}

// Whether the survey of the first case is the same where a read may fail, or the failure is told.
fn is_surveyed_or_told(alloc: Global, call: u64) -> Option<bool> {
    let case = first_case()?;
    let file = file_with(alloc, case.parts, case.changes)?;
    let mut reader = Counted::new(FailAt::new(Pieces::new(&file, 9), call));
    let outcome = survey(alloc, &mut reader, None);
    let has_failed = Source::failures(&reader) > 0;
    match outcome {
        Ok(found) => {
            let text = text_of(alloc, &found)?;
            Some(!has_failed && text.as_slice() == case.want.as_bytes())
        }
        Err(fault) => Some(has_failed && fault == Fault::at(Fault::READ_FAILED, 0)),
    }
}

// Each read fails in turn.
#[test]
fn failing_reads(rt: HostRuntime) {
    for call in 1..60 {
        assert_eq!(rt; is_surveyed_or_told(rt.alloc(), call), Some(true), "{call}");
    }
}

/// After a writer that may have failed: whether what was written begins the text, and a failure is told.
pub fn is_front(writer: Counted<FailAt<Vec<u8>>>, is_told: bool, want: &str) -> bool {
    let has_failed = Sink::failures(&writer) > 0;
    let text = writer.into_inner().into_inner();
    let is_cut = text.len() < want.len();
    want.as_bytes().starts_with(&text) && is_cut == has_failed && is_told == has_failed
}

// Whether the survey of the first case is written, or its front up to a write that fails, which is told.
fn is_surveyed_in_front(alloc: Global, call: u64) -> Option<bool> {
    let case = first_case()?;
    let file = file_with(alloc, case.parts, case.changes)?;
    let found = surveyed(alloc, &file, 4096).ok()?;
    let mut writer = Counted::new(FailAt::new(Vec::new(alloc), call));
    let is_told = found.write(&mut writer).is_err();
    Some(is_front(writer, is_told, case.want))
}

// Each write fails in turn.
#[test]
fn failing_writes(rt: HostRuntime) {
    for call in 1..200 {
        assert_eq!(rt;
            is_surveyed_in_front(rt.alloc(), call),
            Some(true),
            "{call}"
        );
    }
}

fn overwrite(file: &mut Vec<u8>, from: usize, bytes: &[u8]) -> Option<()> {
    for (offset, byte) in bytes.iter().enumerate() {
        *file.get_mut(from.checked_add(offset)?)? = *byte;
    }
    Some(())
}

// A file of one record, which was captured 5 units after noon of a day.
fn file_at_noon(alloc: Global, is_in_nanoseconds: bool) -> Option<Vec<u8>> {
    let (_, mut file) = file_of(alloc, "data plain", "0")?;
    overwrite(&mut file, 24, b"\x40\x15\x43\x67\x05\x00\x00\x00")?;
    if is_in_nanoseconds {
        overwrite(&mut file, 0, b"\x4d\x3c")?;
    }
    Some(file)
}

// Whether this is the line of a survey that tells when packets were captured.
fn is_line_of_times(alloc: Global, is_in_nanoseconds: bool, line: &str) -> Option<bool> {
    let file = file_at_noon(alloc, is_in_nanoseconds)?;
    let text = text_in(alloc, &file, 4096)?;
    Some(std::str::from_utf8(&text).ok()?.lines().nth(8)? == line)
}

#[test]
fn times(rt: HostRuntime) {
    let line = "  captured from 2024-11-24 12:00:00.000005 to 2024-11-24 12:00:00.000005 UTC";
    assert_eq!(rt; is_line_of_times(rt.alloc(), false, line), Some(true));
    let line = "  captured from 2024-11-24 12:00:00.000000005 to 2024-11-24 12:00:00.000000005 UTC";
    assert_eq!(rt; is_line_of_times(rt.alloc(), true, line), Some(true));
}

// The first and the last record of a connection, and whether it has an opening and an ending.
fn extent_of(connection: &Connection) -> (u32, u32, bool, bool) {
    (
        connection.first_record(),
        connection.last_record(),
        connection.has_opening(),
        connection.has_ending(),
    )
}

// Whether the calls answer so of two connections of the same ends, the second of which another request begins.
fn are_two_connections(alloc: Global) -> Option<bool> {
    let (_, file) = file_of(alloc, "byes plain", "0 1 5 6")?;
    let found = surveyed(alloc, &file, 4096).ok()?;
    let connections = found.connections();
    let (first, second) = (connections.first()?, connections.last()?);
    let are_two = connections.len() == 2 && first.ids() == (96, 97);
    let is_first = extent_of(first) == (1, 3, true, false);
    Some(are_two && is_first && extent_of(second) == (4, 4, true, false))
}

#[test]
fn connections(rt: HostRuntime) {
    assert_eq!(rt; are_two_connections(rt.alloc()), Some(true));
}
