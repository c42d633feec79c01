//! The four commands over readers and writers that go wrong, and where memory runs out.
use crate::cases::{Case, Command, case_of, commands_of, outcome_of, row_at, rows, run, told};
use rasta_pcap::Counted;
use rasta_pcap::devices::{FailAt, Pieces};
use rasta_pdu::{Fault, Sink, Source};
use std::alloc::Global;
use std::process::Abort;

// Whether a reader in pieces, of which this call fails, gives the same text, or that answer: `show` has written a
// beginning of the text by then, and the others nothing.
fn reads(alloc: Global, command: Command<'_>, case: &Case, honest: &[u8], call: u64) -> bool {
    let mut reader = Counted::new(FailAt::new(Pieces::new(&case.file, 99), call));
    let (outcome, text) = outcome_of(alloc, command, &case.params, &mut reader);
    if Source::failures(&reader) == 0 {
        outcome.is_ok() && text.as_slice() == honest
    } else {
        let may_begin = text.is_empty() || matches!(command, Command::Show);
        outcome == Err(Fault::at(Fault::READ_FAILED, 0)) && may_begin && honest.starts_with(&text)
    }
}

// Whether what a writer that goes wrong holds is a beginning of the text, and whether its failure is told.
fn writes(
    alloc: Global,
    command: Command<'_>,
    case: &Case,
    honest: &[u8],
    device: FailAt<Vec<u8>>,
) -> bool {
    let mut reader = Counted::new(case.file.as_slice());
    let mut writer = Counted::new(device);
    let outcome = run(alloc, command, &case.params, &mut reader, &mut writer);
    let is_whole = Sink::failures(&writer) == 0;
    let is_told = if is_whole {
        outcome.is_ok()
    } else {
        outcome == Err(Fault::at(Fault::WRITE_FAILED, 0))
    };
    let text = writer.into_inner().into_inner();
    is_told && honest.starts_with(&text) && is_whole == (text.len() == honest.len())
}

// Whether both are so where this call of a reader fails, and this one of a writer fails or takes no byte.
fn is_right_at(alloc: Global, command: Command<'_>, case: &Case, honest: &[u8], call: u64) -> bool {
    let failing = FailAt::new(Vec::new(alloc), call);
    let idle = FailAt::idle_at(Vec::new(alloc), call);
    let is_written = writes(alloc, command, case, honest, failing);
    let is_written_idly = writes(alloc, command, case, honest, idle);
    is_written && is_written_idly && reads(alloc, command, case, honest, call)
}

// Whether each call of a device may go wrong.
fn is_right(alloc: Global, command: Command<'_>, case: &Case) -> Option<bool> {
    let (honest, _) = told(alloc, command, &case.params, &case.file)?;
    for call in 1..120 {
        if !is_right_at(alloc, command, case, &honest, call) {
            return Some(false);
        }
    }
    Some(true)
}

// Whether each command over a row is right, if the row is one that is explained.
fn is_right_in(alloc: Global, row: &str) -> Option<bool> {
    let case = case_of(alloc, row)?;
    if case.want.starts_with("explained") {
        for command in commands_of(&case) {
            if is_right(alloc, command, &case) != Some(true) {
                return Some(false);
            }
        }
    }
    Some(true)
}

#[test]
fn each_call_of_a_device_goes_wrong_in_turn(rt: HostRuntime) {
    for row in rows().lines() {
        assert_eq!(rt; is_right_in(rt.alloc(), row), Some(true), "{row}");
    }
}

// The case of a row; where memory ran out, it is read again.
fn case_again(alloc: Global, row: &str) -> Option<Case> {
    match case_of(alloc, row) {
        Some(case) => Some(case),
        None => case_of(alloc, row),
    }
}

// Whether a command tells or builds an explanation of five packets.
fn explains(alloc: Global, command: Command<'_>, case: &Case) -> Option<bool> {
    let (text, status) = told(alloc, command, &case.params, &case.file)?;
    let is_told = text.starts_with("explained 5".as_bytes());
    Some(status == 0 && (is_told || text.ends_with("end\n".as_bytes())))
}

// Whether a check, a build and an audit of data do so.
fn explain_data(alloc: Global) -> Option<bool> {
    let case = case_again(alloc, row_at(2))?;
    let check = Command::Check(case.certificate.as_bytes());
    for command in [check, Command::Build, Command::Audit] {
        if explains(alloc, command, &case) != Some(true) {
            return Some(false);
        }
    }
    Some(true)
}

// `scripts/fail_allocations.py` makes memory want; a row that wanted it is read again.
#[test]
fn memory_runs_out(rt: HostRuntime) {
    assert_eq!(rt; explain_data(rt.alloc()), Some(true));
}
