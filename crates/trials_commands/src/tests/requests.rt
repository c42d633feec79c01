//! What the command line asks for.
use seatmelon_commands::{
    After, Drafting, Explaining, Extent, Form, Showing, SurveyForm, Surveying,
};
use seatmelon_many::{Auditing, DraftingAll};
use seatmelon_words::{Request, parse};
use std::alloc::Global;
use std::process::Abort;
use trials_rows::words_in;

fn form_text(alloc: Global, form: Form) -> Option<String> {
    match form {
        Form::Json => String::from_str(alloc, "Json").ok(),
        Form::Text(extent) if extent == Extent::ALL => String::from_str(alloc, "Text").ok(),
        Form::Text(Extent { messages, is_whole }) => format!(in alloc;
            "{messages:?} {is_whole}"
        ).ok(),
    }
}

fn explaining_text(alloc: Global, explaining: &Explaining<'_>) -> Option<String> {
    let Explaining {
        capture,
        parameters,
        certificate,
        without,
        suppose,
        form,
    } = explaining;
    let certificate = certificate.unwrap_or("-");
    let form = form_text(alloc, *form)?;
    let suppose = suppose.unwrap_or(0);
    format!(in alloc;
        "explain {capture} {parameters} {certificate} {without:?} {suppose} {form}"
    ).ok()
}

fn showing_text(alloc: Global, showing: &Showing<'_>) -> Option<String> {
    let Showing {
        capture,
        parameters,
        kinds,
        first_record,
        last_record,
    } = showing;
    format!(in alloc; "show {capture} {parameters} {kinds:?} {first_record} {last_record}").ok()
}

fn drafting_text(alloc: Global, drafting: &Drafting<'_>) -> Option<String> {
    let Drafting {
        capture,
        number,
        after,
    } = drafting;
    match after {
        Some(After { record, parameters }) => {
            let parameters = parameters.unwrap_or("-");
            format!(in alloc; "draft {number} of {capture} after {record} {parameters}").ok()
        }
        None => format!(in alloc; "draft {number} of {capture}").ok(),
    }
}

fn auditing_text(alloc: Global, auditing: &Auditing<'_>) -> Option<String> {
    let Auditing {
        capture,
        parameters,
        form,
    } = auditing;
    let form = match form {
        seatmelon_many::Form::Text => "Text",
        seatmelon_many::Form::Json => "Json",
    };
    format!(in alloc; "audit {capture} {parameters:?} {form}").ok()
}

fn drafting_all_text(alloc: Global, drafting: DraftingAll<'_>) -> Option<String> {
    let DraftingAll { capture, folder } = drafting;
    format!(in alloc; "draft all of {capture} into {folder}").ok()
}

fn surveying_text(alloc: Global, surveying: Surveying<'_>) -> Option<String> {
    let Surveying { capture, form } = surveying;
    let form = match form {
        SurveyForm::Text => "Text",
        SurveyForm::Json => "Json",
    };
    format!(in alloc; "survey {capture} {form}").ok()
}

// The request as a text, or what is wrong with the words.
fn request_text(alloc: Global, words: &[String]) -> Option<String> {
    match parse(alloc, words) {
        Ok(Request::Survey(surveying)) => surveying_text(alloc, surveying),
        Ok(Request::Draft(drafting)) => drafting_text(alloc, &drafting),
        Ok(Request::DraftAll(drafting)) => drafting_all_text(alloc, drafting),
        Ok(Request::Audit(auditing)) => auditing_text(alloc, &auditing),
        Ok(Request::Show(showing)) => showing_text(alloc, &showing),
        Ok(Request::Explain(explaining)) => explaining_text(alloc, &explaining),
        Ok(Request::Convert { capture }) => format!(in alloc; "convert {capture}").ok(),
        Err(error) => {
            let kind = error.kind();
            format!(in alloc; "{kind:?}").ok()
        }
    }
}

// Whether the words of a row ask for what it says.
fn is_asked(alloc: Global, row: &str) -> Option<bool> {
    let (words, want) = row.split_once(" | ")?;
    let list = words_in(alloc, words)?;
    Some(request_text(alloc, &list)?.as_str() == want)
}

// Words, and what they ask for.
const REQUESTS: &str = "\
survey c | survey c Text
survey /dev/stdin | survey /dev/stdin Text
survey -- -c | survey -c Text
survey -- --help | survey --help Text
survey survey | survey survey Text
survey c --json | survey c Json
survey --json -- -c | survey -c Json
draft c 1 | draft 1 of c
draft c 0 | draft 0 of c
draft c 018446744073709551615 | draft 18446744073709551615 of c
draft -- -c 7 | draft 7 of -c
draft c 1 --after 28 | draft 1 of c after 28 -
draft c 1 --after=28 p | draft 1 of c after 28 p
draft --after 4294967295 c 1 p | draft 1 of c after 4294967295 p
draft c --all d | draft all of c into d
draft --all=d -- -c | draft all of -c into d
audit c p | audit c [\"p\"] Text
audit - p q d/ | audit - [\"p\", \"q\", \"d/\"] Text
audit c p p --json | audit c [\"p\", \"p\"] Json
audit --json -- -c -p | audit -c [\"-p\"] Json
show c p | show c p None 1 4294967295
show -- -c -p | show -c -p None 1 4294967295
show c p --types data | show c p Some([Data]) 1 4294967295
show c p --types=6212,RETRRESP --record 7 | show c p Some([RetransmissionRequest, RetransmissionResponse]) 7 7
show --record 3-9 c p --types ConnReq,ConnResp,DiscReq,HB,RetrData,heartbeat | show c p \
Some([ConnectionRequest, ConnectionResponse, DisconnectionRequest, Heartbeat, RetransmittedData, Heartbeat]) 3 9
explain c p | explain c p - [] 0 Text
explain c p z | explain c p z [] 0 Text
explain -- -c -p -z | explain -c -p -z [] 0 Text
explain c p --without 7 | explain c p - [7] 0 Text
explain --without=7 c p z | explain c p z [7] 0 Text
explain c --without 9 p --without 2 z --without 9 | explain c p z [2, 9] 0 Text
explain c p --without 1 --without 4294967295 | explain c p - [1, 4294967295] 0 Text
explain c p --json | explain c p - [] 0 Json
explain c p --suppose 1 | explain c p - [] 1 Text
explain --suppose=16 c --without 7 p --json | explain c p - [7] 16 Json
explain --json c --without 7 p z | explain c p z [7] 0 Json
explain c p --summary | explain c p - [] 0 None false
explain c p --whole | explain c p - [] 0 Some(Selection { numbers: None, not_shown: false, of_record: None }) true
explain c p --messages 3-7 --not-shown --record 9 | explain c p - [] 0 \
Some(Selection { numbers: Some((3, 7)), not_shown: true, of_record: Some(9) }) false
explain c p --messages 0 | explain c p - [] 0 Some(Selection { numbers: Some((0, 0)), not_shown: false, of_record: None }) false
--help | DisplayHelp
help | DisplayHelp
survey --help | DisplayHelp
draft --help | DisplayHelp
show --help | DisplayHelp
explain --help | DisplayHelp
audit --help | DisplayHelp
--version | DisplayVersion
-V | DisplayVersion
 | MissingSubcommand
survy c | InvalidSubcommand
survey | MissingRequiredArgument
survey c p | UnknownArgument
survey -c | UnknownArgument
draft | MissingRequiredArgument
draft c | MissingRequiredArgument
draft c 1 2 | MissingRequiredArgument
draft c 1 --after 28 p 2 | UnknownArgument
draft c 1 --all d | ArgumentConflict
draft c --all d --after 7 | ArgumentConflict
draft c --all | InvalidValue
audit | MissingRequiredArgument
audit c | MissingRequiredArgument
audit c p --without 7 | UnknownArgument
draft c 1 --after 0 | ValueValidation
draft c 1 --after 4294967296 | ValueValidation
draft c 1 --after | InvalidValue
survey c --after 7 | UnknownArgument
draft 1 c | ValueValidation
draft c -1 | UnknownArgument
draft c 18446744073709551616 | ValueValidation
show c | MissingRequiredArgument
show c p z | UnknownArgument
show c p --types Data,Dat | ValueValidation
show c p --types 6299 | ValueValidation
show c p --types Data, | ValueValidation
show c p --record 0 | ValueValidation
show c p --record 0-2 | ValueValidation
show c p --record 3-2 | ValueValidation
show c p --record 3- | ValueValidation
show c p --record x | ValueValidation
show c p --record 4294967296 | ValueValidation
show c p --without 7 | UnknownArgument
explain c | MissingRequiredArgument
explain c p z x | UnknownArgument
explain c p --messages 7-3 | ValueValidation
explain c p --messages x | ValueValidation
explain c p --record 0 | ValueValidation
explain c p --summary --whole | ArgumentConflict
explain c p --not-shown --json | ArgumentConflict
explain c p --without 0 | ValueValidation
explain c p --without 4294967296 | ValueValidation
explain c p --without x | ValueValidation
explain c p --suppose 0 | ValueValidation
explain c p --suppose 17 | ValueValidation
explain c p --suppose | InvalidValue
explain c p z --suppose 1 | ArgumentConflict
audit c p --suppose 1 | UnknownArgument
explain c p --without | InvalidValue
explain c p --json 1 2 | UnknownArgument
explain c p --json=1 | TooManyValues
explain c p --json --json | ArgumentConflict
survey c --json --json | ArgumentConflict
survey c --summary | UnknownArgument
convert c | convert c
convert - | convert -
convert | MissingRequiredArgument
convert c d | UnknownArgument
survey c --without 7 | UnknownArgument
";

#[test]
fn requests_of_the_command_line(rt: HostRuntime) {
    for row in REQUESTS.lines() {
        assert_eq!(rt; is_asked(rt.alloc(), row), Some(true), "{row}");
    }
}
