//! The command line, failures and their statuses.
use rasta_commands::{Failure, form, status};
use rasta_pdu::{Fault, Side};
use std::alloc::Global;
use std::process::Abort;
use trials_rows::words_in;

// The form as a text, or the usage line's word where the words are refused by it.
fn form_text(alloc: Global, words: &[String]) -> Option<String> {
    match form(alloc, words) {
        Ok(form) => format!(in alloc; "{form:?}").ok(),
        Err(Failure::Usage) => String::from_str(alloc, "usage").ok(),
        Err(Failure::Refused(_)) => None,
    }
}

// Whether the words of a row have the form that it says.
fn is_of_form(alloc: Global, row: &str) -> Option<bool> {
    let (words, want) = row.split_once(" | ")?;
    let list = words_in(alloc, words)?;
    let text = form_text(alloc, &list)?.replace(alloc, "\"", "'").ok()?;
    Some(text.as_str() == want)
}

// Words, and their form, if they are one.
const FORMS: &str = "\
show c p | Show { capture: 'c', params: 'p' }
build c p | Build { capture: 'c', params: 'p' }
check c p z | Check { capture: 'c', params: 'p', certificate: 'z' }
audit c p | Audit { capture: 'c', params: 'p' }
show -- c p | Show { capture: 'c', params: 'p' }
show -- -c --help | Show { capture: '-c', params: '--help' }
show c -- p | Show { capture: 'c', params: 'p' }
show -- c -- | Show { capture: 'c', params: '--' }
 | usage
show | usage
show c | usage
show c p x | usage
check c p | usage
help | usage
--help | usage
show -h | usage
--version | usage
explain c p | usage
";

#[test]
fn forms_of_the_command_line(rt: HostRuntime) {
    for row in FORMS.lines() {
        assert_eq!(rt; is_of_form(rt.alloc(), row), Some(true), "{row}");
    }
}

// Number and place of a fault, the status of the program, and the text of the failure.
const FAILURES: &str = "\
1 0 3 | refused 1 NoMemory 0 -
2 0 3 | refused 2 ReadFailed 0 -
3 0 3 | refused 3 WriteFailed 0 -
10 0 1 | refused 10 NotPcap 0 -
20 7 1 | refused 20 RedundancyLength 7 client
49 0 1 | refused 49  0 -
50 0 2 | refused 50 Toml 0 -
52 12 2 | refused 52 BadValue 12 -
60 1 1 | refused 60 NotFound 1 -
";

// The number of a word.
fn number_in(word: Option<&str>) -> Option<u32> {
    word?.parse::<u32>().ok()
}

// The failure of these words, with an end or none, and its status.
fn failure_in(words: &str, end: Option<Side>) -> Option<(Failure, u32)> {
    let mut words = words.split(' ');
    let number = u8::try_from(number_in(words.next())?).ok()?;
    let place = number_in(words.next())?;
    let code = number_in(words.next())?;
    let fault = Fault { number, place, end };
    Some((Failure::Refused(fault), code))
}

// Whether a failure has this text and this status.
fn is_told(alloc: Global, failure: &Failure, text: &str, code: u32) -> Option<bool> {
    let told = failure.to_string(alloc).ok()?;
    Some(told.as_str() == text && u32::from(status(failure)) == code)
}

// Whether the failure of a row has the text and the status that it says.
fn is_told_so(alloc: Global, row: &str) -> Option<bool> {
    let (words, text) = row.split_once(" | ")?;
    let end = text.ends_with("client").then_some(Side::Client);
    let (failure, code) = failure_in(words, end)?;
    is_told(alloc, &failure, text, code)
}

#[test]
fn failures_as_texts_and_statuses(rt: HostRuntime) {
    for row in FAILURES.lines() {
        assert_eq!(rt; is_told_so(rt.alloc(), row), Some(true), "{row}");
    }
    assert_eq!(rt;
        is_told(rt.alloc(), &Failure::Usage, "usage", 2),
        Some(true)
    );
}
