//! The text of a draft, and what it answers where a writer goes wrong.
use crate::cases::{Case, MARK};
use crate::drafts::{draft_case_in, drafts};
use crate::files::file_with;
use crate::survey_tests::is_front;
use rasta_pcap::Counted;
use rasta_pcap::devices::FailAt;
use seatmelon_survey::{Behind, Connection, Survey, survey};
use std::alloc::Global;
use trials_rows::file_of;

fn draft_of(alloc: Global, connection: &Connection) -> Option<Vec<u8>> {
    let mut writer = Counted::new(Vec::new(alloc));
    connection.write_draft(&mut writer).ok()?;
    Some(writer.into_inner())
}

fn surveyed(alloc: Global, case: &Case<'_>, behind: Option<Behind>) -> Option<Survey> {
    let file = file_with(alloc, case.parts, case.changes)?;
    survey(alloc, &mut Counted::new(file.as_slice()), behind).ok()
}

// Whether the draft of a case is written as it is wanted.
fn is_drafted(alloc: Global, lines: &str) -> Option<bool> {
    let draft = draft_case_in(lines)?;
    let found = surveyed(alloc, &draft.case, draft.behind)?;
    let text = draft_of(alloc, found.connections().get(draft.place)?)?;
    Some(text.as_slice() == draft.case.want.as_bytes())
}

#[test]
fn drafts_are_written(rt: HostRuntime) {
    for lines in drafts().split(MARK).skip(1) {
        assert_eq!(rt; is_drafted(rt.alloc(), lines), Some(true), "{lines}");
    }
}

// Whether the draft of the first case is written, or its front up to a write that fails, which is told.
fn is_drafted_in_front(alloc: Global, call: u64) -> Option<bool> {
    let case = draft_case_in(drafts().split(MARK).nth(1)?)?.case;
    let found = surveyed(alloc, &case, None)?;
    let connection = found.connections().first()?;
    let mut writer = Counted::new(FailAt::new(Vec::new(alloc), call));
    let is_told = connection.write_draft(&mut writer).is_err();
    Some(is_front(writer, is_told, case.want))
}

// Each write fails in turn.
#[test]
fn failing_writes(rt: HostRuntime) {
    for call in 1..150 {
        assert_eq!(rt; is_drafted_in_front(rt.alloc(), call), Some(true), "{call}");
    }
}

const GAP: Case<'static> = Case {
    parts: "lost plain: 0 1 2 4 5 6 7 8 9 10 18",
    changes: "",
    name: "A packet is missing.",
    want: KEPT,
};

// The parameters of a file with codes, but for the window, and the quiet point behind record 4.
const KEPT: &str =
    r#"# The parameters of the file PARAMS, from a quiet point of the connection in the records 1 to 11 of a capture on.
# Each line tells where its value is from. The quiet point is a guess from the form of packets.

client_id = 96 # from PARAMS
server_id = 97 # from PARAMS
code_length = 16 # from PARAMS
md4_start = "67452301efcdab8998badcfe10325476" # from PARAMS
check_length = 0 # from PARAMS
n_sendmax = 20 # from PARAMS
t_max = 1800 # from PARAMS
slack = 0 # from PARAMS
first_record = 10 # the first record after the quiet point
last_record = 11 # the connection's last packet

# Packets before record 4 are not looked at, but for copies. After record 9 both ends seem to be up and to owe each other nothing: a quiet point.
# It is a premise of every answer: only the engineering data or a log can confirm it.
quiet.client = { next_sn = 108, clock = 1080, handed_ts = 1072 } # its last PDU is in record 9, its last data in record 8
quiet.server = { next_sn = 502, clock = 9060 } # its last PDU is in record 5

[[channel]]
client = "10.0.0.1:5000" # from PARAMS
server = "10.0.0.2:5000" # from PARAMS

[[channel]]
client = "10.0.1.1:5001" # from PARAMS
server = "10.0.1.2:5001" # from PARAMS
"#;

// Whether recorded parameters are kept in a draft.
fn are_kept(alloc: Global) -> Option<bool> {
    let (params, _) = file_of(alloc, "data code16", "0")?;
    let behind = Behind {
        place: 0,
        record: 4,
    };
    let found = surveyed(alloc, &GAP, Some(behind))?;
    let mut writer = Counted::new(Vec::new(alloc));
    let connection = found.connections().first()?;
    connection.write_kept_draft(&mut writer, &params).ok()?;
    Some(writer.into_inner().as_slice() == GAP.want.as_bytes())
}

#[test]
fn recorded_parameters_are_kept(rt: HostRuntime) {
    assert_eq!(rt; are_kept(rt.alloc()), Some(true));
}
