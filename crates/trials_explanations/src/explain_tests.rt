//! The text of an explanation, and what is answered where a device goes wrong.
use crate::cases::cause_cases::{CAUSES, causes};
use crate::cases::file_cases::files;
use crate::cases::middle_cases::{counted, shown};
use crate::cases::packet_cases::packets;
use crate::cases::rule_cases::{RULE, TROUBLE, layouts, rules};
use crate::cases::script_cases::scripts;
use crate::cases::step_cases::steps;
use crate::cases::suppose_cases::{GAP, supposed};
use crate::cases::window_cases::{WindowCase, window_case_in, windows};
use crate::cases::{Case, Given, MARK, case_in, explained};
use rasta_pcap::devices::{FailAt, Pieces};
use rasta_pcap::{Counted, Fault, Sink, Source};
use rasta_pdu::Params;
use seatmelon_account::{Inputs, Names, Texts};
use seatmelon_commands::{Extent, Form, Outcome, explain};
use std::alloc::Global;
use std::process::Abort;
use std::str;
use trials_rows::pcapng_with;

// What begins the lines on what the packets alone show.
const SHOWN: &str = "\n\nclient to server: ";

/// Explains a case by these parameters and this reader.
pub fn written<'a, R: Source, W: Sink>(
    alloc: Global,
    given: &'a Given,
    params: &'a Params,
    form: Form,
    reader: &mut R,
    writer: &mut W,
) -> Result<Outcome, Fault> {
    let names = Names {
        capture: "c",
        parameters: "p",
        certificate: Some("z"),
    };
    let texts = Texts {
        parameters: b"client_id = 96",
        certificate: given.certificate(),
    };
    let inputs = Inputs {
        names,
        texts,
        params,
        without: given.without.as_slice(),
        suppose: given.suppose,
    };
    explain(alloc, &inputs, form, reader, writer)
}

/// What a case comes to by these parameters, and what is written; none where a device fails.
pub fn told<R: Source>(
    alloc: Global,
    given: &Given,
    params: &Params,
    form: Form,
    reader: &mut R,
) -> Option<(Outcome, Vec<u8>)> {
    let mut writer = Counted::new(Vec::new(alloc));
    let outcome = written(alloc, given, params, form, reader, &mut writer);
    Some((outcome.ok()?, writer.into_inner()))
}

/// What is written on a case by these parameters.
pub fn text_by(alloc: Global, given: &Given, params: &Params, form: Form) -> Option<Vec<u8>> {
    let mut reader = Counted::new(given.file.as_slice());
    let (_, text) = told(alloc, given, params, form, &mut reader)?;
    Some(text)
}

// The text on a case whose file comes in pieces of this size.
fn text_of(alloc: Global, case: &Case<'_>, most: usize) -> Option<Vec<u8>> {
    let given = case.given(alloc)?;
    let mut reader = Counted::new(Pieces::new(&given.file, most.max(1)));
    let (_, text) = told(
        alloc,
        &given,
        &given.params,
        Form::Text(Extent::ALL),
        &mut reader,
    )?;
    Some(text)
}

// What stands before what was judged.
fn before_judged(text: &[u8]) -> Option<&str> {
    let (told, _) = str::from_utf8(text)
        .ok()?
        .split_once("\nWhat was judged:\n")?;
    Some(told)
}

// What is told of a verdict, without what the packets alone show, of which there are cases of its own.
fn verdict_in(text: &[u8]) -> Option<&str> {
    let told = before_judged(text)?;
    let end = told.find(SHOWN).map_or(told.len(), |before| before + 1);
    told.get(..end)
}

// Whether the text on a case, read in pieces of this size, is the one that is wanted.
fn is_told_of(alloc: Global, case: &Case<'_>, most: usize) -> Option<bool> {
    let text = text_of(alloc, case, most)?;
    Some(verdict_in(&text) == Some(case.want))
}

// Whether it is, in pieces of one byte and of many.
fn is_told(alloc: Global, lines: &str) -> Option<bool> {
    let case = case_in(lines)?;
    Some(is_told_of(alloc, &case, 1) == Some(true) && is_told_of(alloc, &case, 4096) == Some(true))
}

// The first of these cases on which another text is written than is wanted.
fn first_wrong(alloc: Global, cases: &'static str) -> Option<&'static str> {
    for lines in cases.split(MARK).skip(1) {
        if is_told(alloc, lines) != Some(true) {
            return Some(lines);
        }
    }
    None
}

#[test]
fn refused_files(rt: HostRuntime) {
    assert_eq!(rt; first_wrong(rt.alloc(), files()), None);
}

#[test]
fn refused_packets(rt: HostRuntime) {
    assert_eq!(rt; first_wrong(rt.alloc(), packets()), None);
}

#[test]
fn refused_scripts(rt: HostRuntime) {
    assert_eq!(rt; first_wrong(rt.alloc(), scripts()), None);
    assert_eq!(rt; first_wrong(rt.alloc(), steps()), None);
}

// What is told after these words, up to the next empty line.
fn part_after<'a>(text: &'a [u8], words: &str) -> Option<&'a str> {
    let (_, rest) = str::from_utf8(text).ok()?.split_once(words)?;
    let (part, _) = rest.split_once("\n\n")?;
    Some(part)
}

// Whether what is told on a case after these words is what is wanted.
fn is_told_after(alloc: Global, words: &str, lines: &str) -> Option<bool> {
    let case = case_in(lines)?;
    let text = text_of(alloc, &case, 4096)?;
    Some(part_after(&text, words) == Some(case.want.trim_end()))
}

// The first of these cases on which something else is told after these words.
fn first_wrong_after(alloc: Global, words: &str, cases: &'static str) -> Option<&'static str> {
    for lines in cases.split(MARK).skip(1) {
        if is_told_after(alloc, words, lines) != Some(true) {
            return Some(lines);
        }
    }
    None
}

// What is told of the packets alone, and the messages behind what was judged.
fn shown_in(text: &[u8]) -> Option<(&str, &str)> {
    let (_, counts) = before_judged(text)?.split_once("\n\n")?;
    let (_, counts) = counts.split_once(SHOWN)?;
    let (_, messages) = str::from_utf8(text)
        .ok()?
        .split_once("\nCaptured messages")?;
    Some((counts, messages))
}

// Whether both are those of a case.
fn is_shown(alloc: Global, lines: &str) -> Option<bool> {
    let case = case_in(lines)?;
    let (counts, messages) = case.want.split_once("--\n")?;
    let text = text_of(alloc, &case, 4096)?;
    let (told, listed) = shown_in(&text)?;
    let has_counts = counts.strip_prefix("client to server: ") == Some(told);
    Some(has_counts && messages.strip_prefix("Captured messages") == Some(listed))
}

// Whether the lines of counts are those of a case.
fn is_counted(alloc: Global, lines: &str) -> Option<bool> {
    let case = case_in(lines)?;
    let text = text_of(alloc, &case, 4096)?;
    let want = case.want.strip_prefix("client to server: ")?;
    Some(part_after(&text, SHOWN) == Some(want.trim_end()))
}

#[test]
fn what_packets_show(rt: HostRuntime) {
    for lines in shown().split(MARK).skip(1) {
        assert_eq!(rt; is_shown(rt.alloc(), lines), Some(true), "{lines}");
    }
    for lines in counted().split(MARK).skip(1) {
        assert_eq!(rt; is_counted(rt.alloc(), lines), Some(true), "{lines}");
    }
}

#[test]
fn told_rules(rt: HostRuntime) {
    assert_eq!(rt; first_wrong_after(rt.alloc(), RULE, rules()), None);
}

#[test]
fn told_causes(rt: HostRuntime) {
    assert_eq!(rt; first_wrong_after(rt.alloc(), CAUSES, causes()), None);
}

#[test]
fn told_layouts(rt: HostRuntime) {
    assert_eq!(rt; first_wrong_after(rt.alloc(), TROUBLE, layouts()), None);
}

#[test]
fn told_suppositions(rt: HostRuntime) {
    assert_eq!(rt; first_wrong_after(rt.alloc(), GAP, supposed()), None);
}

/// The parameters of a case, for the records of its window.
pub fn params_in(named: &Params, window: &WindowCase<'_>) -> Option<Params> {
    Params::new(
        named.client_id(),
        named.server_id(),
        named.code_length(),
        named.md4_start(),
        named.check_length(),
        named.n_sendmax(),
        named.t_max(),
        named.slack(),
        window.first_record,
        window.last_record,
        named.channel(),
        named.quiet(),
    )
}

// The text on a case of which only the records of a window are judged.
fn text_in(alloc: Global, window: &WindowCase<'_>) -> Option<Vec<u8>> {
    let given = window.case.given(alloc)?;
    let params = params_in(&given.params, window)?;
    text_by(alloc, &given, &params, Form::Text(Extent::ALL))
}

// Whether a text tells the verdict of a case and then its window, and later what it has to.
fn tells_window(text: &[u8], window: &WindowCase<'_>) -> Option<bool> {
    let rest = str::from_utf8(text).ok()?.strip_prefix(window.verdict)?;
    Some(rest.contains(window.text) && rest.contains(window.later))
}

// Whether the text on a case does so.
fn is_window_told(alloc: Global, lines: &str) -> Option<bool> {
    let window = window_case_in(lines)?;
    let text = text_in(alloc, &window)?;
    tells_window(&text, &window)
}

#[test]
fn told_windows(rt: HostRuntime) {
    for lines in windows().split(MARK).skip(1) {
        assert_eq!(rt; is_window_told(rt.alloc(), lines), Some(true), "{lines}");
    }
}

// Whether the whole text on data that are confirmed is the one that is wanted.
fn is_told_whole(alloc: Global) -> Option<bool> {
    let case = explained()?;
    let text = text_of(alloc, &case, 7)?;
    Some(text.as_slice() == case.want.as_bytes())
}

#[test]
fn whole_text(rt: HostRuntime) {
    assert_eq!(rt; is_told_whole(rt.alloc()), Some(true));
}

// What stands in a pcapng file behind a packet with a cooked header: a packet of another interface.
const RAW_BEHIND: &str = " [1 2:101 2:0 4:0 ] [6 4:1 4:0 4:0 4:0 4:0 ]";

// Whether the text on such a file has these words.
fn tells_interfaces(alloc: Global, form: Form, words: &str) -> Option<bool> {
    let given = explained()?.given(alloc)?;
    let file = pcapng_with(alloc, 276, 0, &[0; 20], RAW_BEHIND)?;
    let mut reader = Counted::new(file.as_slice());
    let (_, text) = told(alloc, &given, &given.params, form, &mut reader)?;
    Some(str::from_utf8(&text).ok()?.contains(words))
}

#[test]
fn interfaces_of_a_pcapng_file(rt: HostRuntime) {
    let alloc = rt.alloc();
    let text =
        "\n    read as pcapng; an interface of it has link type 101 (raw IP), and its packets are passed over as not IPv4 \
        or UDP; an interface of it has link type 276 (Linux cooked capture v2), and its packets are read as Ethernet frames, \
        with zeros for addresses that they lack\n";
    let is_told = tells_interfaces(alloc, Form::Text(Extent::ALL), text);
    assert_eq!(rt; is_told, Some(true));
    let json = ",\"format\":\"pcapng\",\"other_link_type\":101,\"cooked_link_type\":276}";
    let is_told = tells_interfaces(alloc, Form::Json, json);
    assert_eq!(rt; is_told, Some(true));
}

// More bytes than a file has: with so many, its front is the whole.
const WHOLE: usize = usize::MAX;

// The first bytes of a file, or the whole if it has fewer.
fn front_of(file: &[u8], len: usize) -> &[u8] {
    file.get(..len).unwrap_or(file)
}

// What the front of a file comes to, and whether nothing is written.
fn outcome_of(alloc: Global, len: usize) -> Option<(Outcome, bool)> {
    let given = explained()?.given(alloc)?;
    let mut reader = Counted::new(front_of(&given.file, len));
    let (outcome, text) = told(
        alloc,
        &given,
        &given.params,
        Form::Text(Extent::ALL),
        &mut reader,
    )?;
    Some((outcome, text.is_empty()))
}

#[test]
fn outcomes(rt: HostRuntime) {
    for (len, outcome) in [
        (WHOLE, Outcome::Explained),
        (24, Outcome::NoPackets),
        (30, Outcome::Refused),
    ] {
        assert_eq!(rt; outcome_of(rt.alloc(), len), Some((outcome, false)));
    }
}

// Whether the text is the same where this read fails, or the failure is told and nothing is written.
fn is_right_at_read(alloc: Global, call: u64) -> Option<bool> {
    let case = explained()?;
    let given = case.given(alloc)?;
    let mut reader = Counted::new(FailAt::new(Pieces::new(&given.file, 9), call));
    let mut writer = Counted::new(Vec::new(alloc));
    let outcome = written(
        alloc,
        &given,
        &given.params,
        Form::Text(Extent::ALL),
        &mut reader,
        &mut writer,
    );
    let text = writer.into_inner();
    Some(if Source::failures(&reader) > 0 {
        outcome == Err(Fault::at(Fault::READ_FAILED, 0)) && text.is_empty()
    } else {
        outcome == Ok(Outcome::Explained) && text.as_slice() == case.want.as_bytes()
    })
}

// Each read fails in turn.
#[test]
fn failing_reads(rt: HostRuntime) {
    for call in 0..110 {
        assert_eq!(rt; is_right_at_read(rt.alloc(), call), Some(true), "{call}");
    }
}

// Whether what is written where this write fails begins the text, and the failure is told.
fn is_right_at_write(alloc: Global, call: u64) -> Option<bool> {
    let case = explained()?;
    let given = case.given(alloc)?;
    let mut reader = Counted::new(given.file.as_slice());
    let mut writer = Counted::new(FailAt::new(Vec::new(alloc), call));
    let outcome = written(
        alloc,
        &given,
        &given.params,
        Form::Text(Extent::ALL),
        &mut reader,
        &mut writer,
    );
    let has_failed = Sink::failures(&writer) > 0;
    let text = writer.into_inner().into_inner();
    let is_told = (text.len() < case.want.len(), outcome.is_err()) == (has_failed, has_failed);
    Some(is_told && case.want.as_bytes().starts_with(&text))
}

// Each write fails in turn.
#[test]
fn failing_writes(rt: HostRuntime) {
    for call in 1..400 {
        assert_eq!(rt; is_right_at_write(rt.alloc(), call), Some(true), "{call}");
    }
}
