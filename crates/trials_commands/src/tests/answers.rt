//! What explanations and audits come to.
use super::made::{Broken, NO_RECORD, one_request, told};
use super::parameters::{OTHER_PARAMETERS, PARAMETERS};
use rasta_pcap::devices::{FailAt, Pieces};
use seatmelon_commands::{Explaining, Extent, Form, Inputs, explain_of, status_of_outcome};
use seatmelon_failures::params_in;
use seatmelon_many::{Auditing, Named, audit_of};
use seatmelon_tally::status_of;
use std::alloc::Global;
use std::io::{Read, Write};
use std::process::Abort;
use std::str;
use trials_rows::words_in;

// What is to be explained.
fn explaining<'a>(alloc: Global) -> Explaining<'a> {
    Explaining {
        capture: "c",
        parameters: "p",
        certificate: None,
        without: Vec::new(alloc),
        suppose: None,
        form: Form::Text(Extent::ALL),
    }
}

// What a reading comes to, in a word or as the text of a failure, behind the program's status.
fn explained<D: Read + Drop, W: Write + Drop>(alloc: Global, file: D, device: W) -> Option<String> {
    let inputs = Inputs {
        params: params_in(alloc, "p", PARAMETERS).ok()?,
        parameters: Vec::new(alloc),
        certificate: None,
    };
    match explain_of(alloc, &explaining(alloc), &inputs, file, device) {
        Ok(explanation) => {
            let code = status_of_outcome(explanation.outcome);
            let (outcome, kind) = (explanation.outcome, explanation.kind);
            format!(in alloc; "{code} {outcome:?} {kind:?}").ok()
        }
        Err(failure) => told(alloc, failure),
    }
}

// Whether a capture that is read so comes to this text.
fn comes_to<D: Read + Drop>(alloc: Global, file: D, text: &str) -> Option<bool> {
    Some(explained(alloc, file, Vec::new(alloc))?.as_str() == text)
}

// Whether a capture comes to this text, in one piece and in pieces.
fn comes_to_both(alloc: Global, file: &[u8], text: &str) -> Option<bool> {
    Some(comes_to(alloc, file, text)? && comes_to(alloc, Pieces::new(file, 7), text)?)
}

// Whether the one request is explained.
fn is_request_explained(alloc: Global) -> Option<bool> {
    comes_to_both(alloc, &one_request(alloc)?, "0 Explained Capture")
}

#[test]
fn explanations(rt: HostRuntime) {
    let alloc = rt.alloc();
    assert_eq!(rt; is_request_explained(alloc), Some(true));
    assert_eq!(rt;
        comes_to_both(alloc, NO_RECORD, "1 NoPackets Capture"),
        Some(true)
    );
    assert_eq!(rt;
        comes_to_both(alloc, PARAMETERS, "1 Refused Text"),
        Some(true)
    );
}

// Whether an explanation can't be written there, for this reason.
fn is_unexplained(alloc: Global, device: FailAt<Vec<u8>>, text: &str) -> Option<bool> {
    Some(explained(alloc, NO_RECORD.as_slice(), device)?.as_str() == text)
}

#[test]
fn explanations_over_devices_that_fail(rt: HostRuntime) {
    let alloc = rt.alloc();
    let is_told = comes_to(alloc, Broken { number: 5 }, "3 c: Input/output error");
    assert_eq!(rt; is_told, Some(true));
    let is_told = comes_to(alloc, Broken { number: 21 }, "3 c: Is a directory");
    assert_eq!(rt; is_told, Some(true));
    let device = FailAt::new(Vec::new(alloc), 1);
    let is_told = is_unexplained(alloc, device, "3 standard output: other error");
    assert_eq!(rt; is_told, Some(true));
}

// What an audit of two connections comes to, as its text or that of the failure, behind the program's status.
fn audited<D: Read + Drop>(alloc: Global, file: D) -> Option<String> {
    let auditing = Auditing {
        capture: "c",
        parameters: Vec::new(alloc),
        form: seatmelon_many::Form::Text,
    };
    let names = words_in(alloc, "p q")?;
    let params = [
        params_in(alloc, "p", PARAMETERS).ok()?,
        params_in(alloc, "q", OTHER_PARAMETERS).ok()?,
    ];
    let mut text = Vec::new(alloc);
    let named = Named {
        names: &names,
        sums: &[],
    };
    match audit_of(alloc, &auditing, &named, &params, file, &mut text) {
        Ok(audited) => {
            let code = status_of(&audited.audit);
            let text = str::from_utf8(&text).ok()?;
            format!(in alloc; "{code} {text}").ok()
        }
        Err(failure) => told(alloc, failure),
    }
}

// Whether an audit of what is read comes to this text.
fn is_audited<D: Read + Drop>(alloc: Global, file: D, text: &str) -> Option<bool> {
    Some(audited(alloc, file)?.as_str() == text)
}

const TWO_AUDITS: &str =
    "1 p: explained, 1 packet; client to server: 0 of 0 messages surely taken; server to client: 0 of 0\n\
    q: refused by 26 Ids, record 1, 1970-01-01 00:00:00.000000 UTC, client; \
    client to server: 0 of 0 captured messages surely taken; server to client: 0 of 0, by 1 packet, whatever was missed\n\
    2 connections: 1 explained, 1 refused; 1 packet; 0 records of none of these connections\n";

// Whether two connections of the one request are audited so, in one piece and in pieces.
fn is_request_audited(alloc: Global) -> Option<bool> {
    let file = one_request(alloc)?;
    let is_told = is_audited(alloc, file.as_slice(), TWO_AUDITS)?;
    Some(is_told && is_audited(alloc, Pieces::new(&file, 7), TWO_AUDITS)?)
}

#[test]
fn audits_of_two_connections(rt: HostRuntime) {
    let alloc = rt.alloc();
    assert_eq!(rt; is_request_audited(alloc), Some(true));
    let is_told = is_audited(alloc, Broken { number: 5 }, "3 c: Input/output error");
    assert_eq!(rt; is_told, Some(true));
}
