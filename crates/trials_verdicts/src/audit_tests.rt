//! Audits and builds of captures in memory.
use crate::cases::{Case, Command, case_of, row_at, rows, tells, told, unexplained};
use std::alloc::Global;
use std::process::Abort;

// Whether a text begins with the first line of that one, and ends with what it says was taken.
fn tells_the_same(text: &[u8], want: &str) -> Option<bool> {
    let (first, _) = want.split_once('\n')?;
    let place = want.find("taken by client")?;
    let taken = want.get(place..)?;
    Some(text.starts_with(first.as_bytes()) && text.ends_with(taken.as_bytes()))
}

// Whether a command explains a case with the same messages taken.
fn explains(alloc: Global, command: Command<'_>, case: &Case) -> Option<bool> {
    let (text, status) = told(alloc, command, &case.params, &case.file)?;
    Some(status == 0 && tells_the_same(&text, case.want.as_str()) == Some(true))
}

// Whether a check of what a build writes does so.
fn explains_what_is_built(alloc: Global, case: &Case) -> Option<bool> {
    let (certificate, status) = told(alloc, Command::Build, &case.params, &case.file)?;
    let check = Command::Check(&certificate);
    Some(status == 0 && explains(alloc, check, case) == Some(true))
}

// Whether an audit explains a case, as does a check of what a build writes.
fn is_explained(alloc: Global, case: &Case) -> bool {
    explains(alloc, Command::Audit, case) == Some(true)
        && explains_what_is_built(alloc, case) == Some(true)
}

// Whether a command refuses a case so.
fn refuses(alloc: Global, command: Command<'_>, case: &Case) -> bool {
    tells(alloc, command, &case.params, &case.file, case.want.as_str()) == Some(true)
}

// Whether a refusal is one of a certificate, by 30 to 47, and so says nothing of other certificates.
fn is_of_a_certificate(want: &str) -> bool {
    want.starts_with("refused 3") || want.starts_with("refused 4")
}

// Whether a row that some certificate explains is explained, and what is wrong with its capture is told.
fn is_audited(alloc: Global, row: &str) -> Option<bool> {
    let case = case_of(alloc, row)?;
    if case.want.starts_with("explained") {
        Some(is_explained(alloc, &case))
    } else if is_of_a_certificate(case.want.as_str()) {
        Some(true)
    } else {
        Some(refuses(alloc, Command::Audit, &case) && refuses(alloc, Command::Build, &case))
    }
}

#[test]
fn captures_are_audited(rt: HostRuntime) {
    for row in rows().lines().chain(unexplained().lines()) {
        assert_eq!(rt; is_audited(rt.alloc(), row), Some(true), "{row}");
    }
}

// Whether a command refuses an empty file.
fn refuses_nothing(alloc: Global, command: Command<'_>) -> Option<bool> {
    let case = case_of(alloc, row_at(0))?;
    tells(
        alloc,
        command,
        &case.params,
        &[],
        "refused 13 CutHeader 0 -\n",
    )
}

#[test]
fn empty_file_is_refused(rt: HostRuntime) {
    for command in [
        Command::Show,
        Command::Build,
        Command::Check(&[]),
        Command::Audit,
    ] {
        assert_eq!(rt; refuses_nothing(rt.alloc(), command), Some(true));
    }
}
