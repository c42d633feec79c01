//! The JSON of an explanation.
use crate::cases::json_cases::{parts, quiet, whole};
use crate::cases::window_cases::{WindowCase, window_case_in, windows};
use crate::cases::{Case, Given, MARK, case_in};
use crate::explain_tests::{params_in, text_by, written};
use rasta_pcap::devices::FailAt;
use rasta_pcap::{Counted, Sink};
use rasta_pdu::{Params, Quiet, QuietEnd};
use seatmelon_commands::{Extent, Form};
use std::alloc::Global;
use std::process::Abort;
use std::str;
use trials_rows::joined;

// The JSON text on what is given, without the line feed at its end.
fn json_by(alloc: Global, given: &Given, params: &Params) -> Option<Vec<u8>> {
    let mut text = text_by(alloc, given, params, Form::Json)?;
    match text.pop() {
        Some(b'\n') => Some(text),
        _ => None,
    }
}

// The JSON text on a case.
fn json_of(alloc: Global, case: &Case<'_>) -> Option<Vec<u8>> {
    let given = case.given(alloc)?;
    json_by(alloc, &given, &given.params)
}

// Whether the JSON on a case is the one that is wanted.
fn is_whole(alloc: Global, lines: &str) -> Option<bool> {
    let case = case_in(lines)?;
    let text = json_of(alloc, &case)?;
    let want = joined(alloc, case.want)?;
    Some(text.as_slice() == want.as_bytes())
}

#[test]
fn whole_json(rt: HostRuntime) {
    for lines in whole().split(MARK).skip(1) {
        assert_eq!(rt; is_whole(rt.alloc(), lines), Some(true), "{lines}");
    }
}

// Whether a text has a part, which stands there over several lines.
fn has_part(alloc: Global, text: &[u8], part: &str) -> Option<bool> {
    let part = joined(alloc, part)?;
    Some(str::from_utf8(text).ok()?.contains(part.as_str()))
}

// Whether the JSON on a case has the part that is wanted.
fn has_wanted_part(alloc: Global, lines: &str) -> Option<bool> {
    let case = case_in(lines)?;
    let text = json_of(alloc, &case)?;
    has_part(alloc, &text, case.want)
}

#[test]
fn parts_of_json(rt: HostRuntime) {
    for lines in parts().split(MARK).skip(1) {
        assert_eq!(rt; has_wanted_part(rt.alloc(), lines), Some(true), "{lines}");
    }
}

// The JSON text on a case of which only the records of a window are judged.
fn json_in(alloc: Global, window: &WindowCase<'_>) -> Option<Vec<u8>> {
    let given = window.case.given(alloc)?;
    let params = params_in(&given.params, window)?;
    json_by(alloc, &given, &params)
}

// Whether the JSON on such a case has both parts that are wanted.
fn has_window(alloc: Global, lines: &str) -> Option<bool> {
    let window = window_case_in(lines)?;
    let text = json_in(alloc, &window)?;
    let has_first = has_part(alloc, &text, window.json) == Some(true);
    Some(has_first && has_part(alloc, &text, window.later_json) == Some(true))
}

#[test]
fn windows_in_json(rt: HostRuntime) {
    for lines in windows().split(MARK).skip(1) {
        assert_eq!(rt; has_window(rt.alloc(), lines), Some(true), "{lines}");
    }
}

// A quiet point whose deadlines are 2^53 and one more.
const QUIET: Quiet = Quiet {
    client: QuietEnd {
        next_sn: 102,
        clock: 1010,
        deadline: Some(9_007_199_254_740_992),
        handed_ts: None,
    },
    server: QuietEnd {
        next_sn: 501,
        clock: 9000,
        deadline: Some(9_007_199_254_740_993),
        handed_ts: Some(8950),
    },
};

// Whether the JSON of a case has the part that is wanted by parameters with this quiet point.
fn has_quiet_point(alloc: Global) -> Option<bool> {
    let params = trials_rows::params(20, 0, Some(QUIET))?;
    let case = case_in(quiet().split(MARK).nth(1)?)?;
    let given = case.given(alloc)?;
    let text = json_by(alloc, &given, &params)?;
    has_part(alloc, &text, case.want)
}

#[test]
fn numbers_above_the_whole_doubles(rt: HostRuntime) {
    assert_eq!(rt; has_quiet_point(rt.alloc()), Some(true));
}

// The last case.
fn last_case() -> Option<Case<'static>> {
    case_in(whole().split(MARK).last()?)
}

// Whether what is written where this write fails begins the JSON, and the failure is told.
fn is_right_at_write(alloc: Global, call: u64) -> Option<bool> {
    let case = last_case()?;
    let given = case.given(alloc)?;
    let want = joined(alloc, case.want)?;
    let mut reader = Counted::new(given.file.as_slice());
    let mut writer = Counted::new(FailAt::new(Vec::new(alloc), call));
    let outcome = written(
        alloc,
        &given,
        &given.params,
        Form::Json,
        &mut reader,
        &mut writer,
    );
    let has_failed = Sink::failures(&writer) > 0;
    let text = writer.into_inner().into_inner();
    let is_told = (text.len() <= want.len(), outcome.is_err()) == (has_failed, has_failed);
    Some(is_told && (!has_failed || want.as_bytes().starts_with(&text)))
}

// Each write fails in turn.
#[test]
fn failing_writes_of_json(rt: HostRuntime) {
    for call in 1..500 {
        assert_eq!(rt; is_right_at_write(rt.alloc(), call), Some(true), "{call}");
    }
}
