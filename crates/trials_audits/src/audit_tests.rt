//! The texts of audits, and what is answered where a device goes wrong.
use crate::cases::{Case, GREAT_JSON, GREAT_TEXT, Given, MARK, audits, case_in, in_turn, line_of};
use rasta_pcap::devices::{FailAt, Pieces, WriteDevice};
use rasta_pcap::{CaptureTime, Counted, Fault, FractionUnit, Sink, Source};
use seatmelon_audit::{Answer, Audit, Connection, Conveyed, Explained, Facts, Span, Stamp, audit};
use seatmelon_pcapng::{Format, Reason, Refusal, Remarks};
use seatmelon_tally::{Inputs, status_of, write_audit, write_audit_json};
use seatmelon_text::PROGRAM;
use std::alloc::Global;
use std::process::Abort;

/// What an audit is written as.
#[derive(Clone, Copy, Debug)]
enum Form {
    Text,
    Json,
}

const FORMS: [Form; 2] = [Form::Text, Form::Json];

// Parameter files of these names, of which these have sums, beside the capture.
fn inputs_of<'a>(names: &'a [String], sums: &'a [[u8; 32]]) -> Inputs<'a> {
    Inputs {
        capture: "c",
        capture_sum: [171; 32],
        names,
        sums,
    }
}

// Writes an audit of a file in this format in a form.
fn write_in<W: Sink>(
    form: Form,
    writer: &mut W,
    inputs: &Inputs<'_>,
    audit: &Audit,
    format: Format,
) -> Result<(), Fault> {
    match form {
        Form::Text => write_audit(writer, inputs.names, audit, format),
        Form::Json => write_audit_json(writer, inputs, audit, format),
    }
}

// What is written on an audit in a form.
fn text_on(alloc: Global, form: Form, inputs: &Inputs<'_>, audit: &Audit) -> Option<Vec<u8>> {
    let mut writer = Counted::new(Vec::new(alloc));
    write_in(form, &mut writer, inputs, audit, Format::Classic).ok()?;
    Some(writer.into_inner())
}

const CAPTURE_SUM: &str = "abababababababababababababababababababababababababababababababab";

// The object that stands there over several lines, as it is told of these parameter files.
fn object_of(alloc: Global, parameters: &str, lines: &str) -> Option<String> {
    let line = line_of(alloc, lines)?;
    let rest = line.as_str().strip_prefix('{')?;
    format!(in alloc;
        "{{\"program\":\"{PROGRAM}\",\"capture\":{{\"name\":\"c\",\"sha256\":\"{CAPTURE_SUM}\"}},\"parameters\":[{parameters}],{rest}"
    ).ok()
}

// What is wanted of a case in a form, where no sum of a parameter file is known.
fn wanted(alloc: Global, form: Form, case: &Case<'_>) -> Option<String> {
    match form {
        Form::Text => String::from_str(alloc, case.text).ok(),
        Form::Json => object_of(alloc, "", case.json),
    }
}

// The answer of an audit by this reader; none of so many connections that no case has.
fn audited<R: Source>(
    alloc: Global,
    given: &Given,
    reader: &mut R,
) -> Option<Result<Audit, Fault>> {
    let params = given.params.get(..given.params.len().min(100))?;
    Some(audit(alloc, params, reader))
}

// Whether an audit is told in a form as a case wants it.
fn is_told_in(
    alloc: Global,
    form: Form,
    case: &Case<'_>,
    given: &Given,
    audit: &Audit,
) -> Option<bool> {
    let text = text_on(alloc, form, &inputs_of(given.names.as_slice(), &[]), audit)?;
    Some(text.as_slice() == wanted(alloc, form, case)?.as_bytes())
}

// Whether the audit of a case, whose file comes in pieces of this size, is told as it is wanted, with its exit status.
fn is_told_by(alloc: Global, case: &Case<'_>, most: usize) -> Option<bool> {
    let given = case.given(alloc)?;
    let mut reader = Counted::new(Pieces::new(&given.file, most.max(1)));
    let audit = audited(alloc, &given, &mut reader)?.ok()?;
    for form in FORMS {
        if is_told_in(alloc, form, case, &given, &audit) != Some(true) {
            return Some(false);
        }
    }
    Some(status_of(&audit) == case.status)
}

// Whether it is, in pieces of one byte and of many.
fn is_told(alloc: Global, lines: &str) -> Option<bool> {
    let case = case_in(lines)?;
    let is_told_of_bytes = is_told_by(alloc, &case, 1) == Some(true);
    Some(is_told_of_bytes && is_told_by(alloc, &case, 4096) == Some(true))
}

#[test]
fn told_audits(rt: HostRuntime) {
    for lines in audits().split(MARK).skip(1) {
        assert_eq!(rt; is_told(rt.alloc(), lines), Some(true), "{lines}");
    }
}

// What is told of a connection with this window and these records, whose course isn't known.
fn facts(first_record: u32, last_record: u32, quiet_record: Option<u32>, span: Span) -> Facts {
    Facts {
        first_record,
        last_record,
        quiet_record,
        span,
        opens: span.first.map(|_| false),
        course: None,
        ending: None,
        reopening: None,
    }
}

// The record of this number, which was captured so many seconds after the beginning of 1970.
fn stamp(number: u32) -> Stamp {
    Stamp {
        record: number,
        time: CaptureTime {
            seconds: number,
            fraction: 0,
            unit: FractionUnit::Microseconds,
        },
    }
}

// An audit of which one connection has no memory, and the counts of the other one are above 2^53.
fn great_audit(alloc: Global) -> Option<Audit> {
    let mut connections = Vec::new(alloc);
    let span = Span {
        first: Some(stamp(3)),
        last: Some(stamp(5)),
    };
    let short = Connection {
        answer: Answer::OutOfMemory,
        facts: facts(2, 4_000_000_000, Some(2), span),
    };
    connections.push(short).ok()?;
    let explained = Answer::Explained(Explained {
        packets: 9_007_199_254_740_993,
        client: Conveyed {
            sent: 9_007_199_254_740_993,
            taken: 9_007_199_254_740_992,
        },
        server: Conveyed { sent: 1, taken: 0 },
    });
    let none = Span {
        first: None,
        last: None,
    };
    let great = Connection {
        answer: explained,
        facts: facts(1, 4_000_000_000, None, none),
    };
    connections.push(great).ok()?;
    Some(Audit {
        connections,
        records: 7,
        others: 1,
        fault: None,
    })
}

// The names of its connections.
fn great_names(alloc: Global) -> Option<Vec<String>> {
    let mut names = Vec::new(alloc);
    for name in ["a \"b\".toml", "c.toml"] {
        names.push(String::from_str(alloc, name).ok()?).ok()?;
    }
    Some(names)
}

const GREAT_FILES: &str =
    r#"{"name":"a \"b\".toml","sha256":"0101010101010101010101010101010101010101010101010101010101010101"},{"name":"c.toml","sha256":"2020202020202020202020202020202020202020202020202020202020202020"}"#;

// Whether that audit is told in both forms as it is wanted.
fn is_great_told(alloc: Global) -> Option<bool> {
    let audit = great_audit(alloc)?;
    let names = great_names(alloc)?;
    let inputs = inputs_of(names.as_slice(), &[[1; 32], [32; 32]]);
    let text = text_on(alloc, Form::Text, &inputs, &audit)?;
    let json = text_on(alloc, Form::Json, &inputs, &audit)?;
    let wanted_json = object_of(alloc, GREAT_FILES, GREAT_JSON)?;
    let is_json_told = json.as_slice() == wanted_json.as_bytes();
    Some(text.as_slice() == GREAT_TEXT.as_bytes() && is_json_told && status_of(&audit) == 1)
}

#[test]
fn great_counts_and_no_memory(rt: HostRuntime) {
    assert_eq!(rt; is_great_told(rt.alloc()), Some(true));
}

// What is written in a form on an audit of no connections, whose pcapng file has packets of other link types than
// Ethernet's, and is refused at a block behind its first record.
fn text_on_refused(alloc: Global, form: Form) -> Option<Vec<u8>> {
    let audit = Audit {
        connections: Vec::new(alloc),
        records: 1,
        others: 1,
        fault: Some(Fault::at(Fault::CUT_RECORD, 2)),
    };
    let format = Format::Pcapng(Remarks {
        refusal: Some(Refusal {
            reason: Reason::Trailer,
            at: 60,
        }),
        other_link_type: Some(101),
        cooked_link_type: Some(276),
    });
    let mut writer = Counted::new(Vec::new(alloc));
    write_in(form, &mut writer, &inputs_of(&[], &[]), &audit, format).ok()?;
    Some(writer.into_inner())
}

const REFUSED_TEXT: &str =
    "an interface of this file has link type 101 (raw IP): its packets are of no connection\n\
    an interface of this file has link type 276 (Linux cooked capture v2): its packets are read as Ethernet frames, with \
    zeros for addresses that they lack\n\
    after 1 record, at byte 60: the two lengths of a block differ (14 CutRecord)\n\
    0 connections; 0 packets; 1 record of none of these connections\n";

const REFUSED_JSON: &str = "{\"connections\":[],\"records\":1,\"packets\":0,\"others\":1,\
    \"fault\":{\"number\":14,\"name\":\"CutRecord\",\"record\":2,\
    \"block\":{\"offset\":60,\"reason\":\"the two lengths of a block differ\"}},\
    \"other_link_type\":101,\"cooked_link_type\":276}";

// Whether the refusal of a file is told so in a form.
fn is_refusal_told(alloc: Global, form: Form, text: &str) -> Option<bool> {
    let told = text_on_refused(alloc, form)?;
    match form {
        Form::Text => Some(told.as_slice() == text.as_bytes()),
        Form::Json => Some(told.as_slice() == object_of(alloc, "", text)?.as_bytes()),
    }
}

#[test]
fn refused_pcapng_files(rt: HostRuntime) {
    let alloc = rt.alloc();
    let is_told = is_refusal_told(alloc, Form::Text, REFUSED_TEXT);
    assert_eq!(rt; is_told, Some(true));
    let is_told = is_refusal_told(alloc, Form::Json, REFUSED_JSON);
    assert_eq!(rt; is_told, Some(true));
}

// Whether the text of a case is the same where this read fails, or the failure is answered and nothing else.
fn is_right_at_read(alloc: Global, case: &Case<'_>, given: &Given, call: u64) -> Option<bool> {
    let mut reader = Counted::new(FailAt::new(Pieces::new(&given.file, 9), call));
    match audited(alloc, given, &mut reader)? {
        Ok(audit) if Source::failures(&reader) == 0 => {
            is_told_in(alloc, Form::Text, case, given, &audit)
        }
        Ok(_) => Some(false),
        Err(fault) => Some(
            Source::failures(&reader) > 0 && fault == Fault::at(Fault::READ_FAILED, 0),
        ),
    }
}

// The first read at whose failure something else is answered.
fn first_wrong_read(alloc: Global) -> Option<Option<u64>> {
    let case = in_turn()?;
    let given = case.given(alloc)?;
    for call in 0..150 {
        if is_right_at_read(alloc, &case, &given, call) != Some(true) {
            return Some(Some(call));
        }
    }
    Some(None)
}

// Each read fails in turn.
#[test]
fn failing_reads(rt: HostRuntime) {
    assert_eq!(rt; first_wrong_read(rt.alloc()), Some(None));
}

// Whether what is written by a device of which one call may go wrong is the text, or begins it where one did, which is
// answered.
fn is_right_by(
    form: Form,
    inputs: &Inputs<'_>,
    audit: &Audit,
    want: &str,
    device: FailAt<Vec<u8>>,
) -> bool {
    let mut writer = Counted::new(device);
    let outcome = write_in(form, &mut writer, inputs, audit, Format::Classic);
    let has_failed = Sink::failures(&writer) > 0;
    let text = writer.into_inner().into_inner();
    if has_failed {
        let is_front = text.len() < want.len() && want.as_bytes().starts_with(&text);
        is_front && outcome == Err(Fault::at(Fault::WRITE_FAILED, 0))
    } else {
        outcome.is_ok() && text.as_slice() == want.as_bytes()
    }
}

// The first write at whose failure, or where it takes no byte, something else is written or answered.
fn first_wrong_write(alloc: Global, form: Form) -> Option<Option<u64>> {
    let case = in_turn()?;
    let given = case.given(alloc)?;
    let mut reader = Counted::new(given.file.as_slice());
    let audit = audited(alloc, &given, &mut reader)?.ok()?;
    let inputs = inputs_of(given.names.as_slice(), &[]);
    let want = wanted(alloc, form, &case)?;
    for call in 0..300 {
        let failing = FailAt::new(Vec::new(alloc), call);
        let idling = FailAt::idle_at(Vec::new(alloc), call);
        let is_right = is_right_by(form, &inputs, &audit, want.as_str(), failing);
        if !(is_right && is_right_by(form, &inputs, &audit, want.as_str(), idling)) {
            return Some(Some(call));
        }
    }
    Some(None)
}

// Each write fails in turn, or takes no byte.
#[test]
fn failing_writes(rt: HostRuntime) {
    for form in FORMS {
        assert_eq!(rt; first_wrong_write(rt.alloc(), form), Some(None), "{form:?}");
    }
}
