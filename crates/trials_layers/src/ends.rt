//! One end alone, by rows: what it takes and makes, what it answers last, and what it then is.
use rasta_end::{End, Phase, Why};
use rasta_pdu::{Fault, Params, Pdu, Side};
use std::alloc::Global;
use std::process::Abort;
use trials_rows::{datagrams, lines_of, params_of, pdu_of, side_of};

// A row: its name, its lines, its settings, its side; phase, accepted, made, offered, owed and handed up
// at its end; the fault that its last step answers, 0 where none; its steps, each that of a script with
// the place of a line. The steps before the last answer no fault.
const ROWS: &str = "\
a unit is lost | lost plain client | Up 2 8 2 0 0 | 0 | make 0 1000 open, take 1, make 2 1010 reply, make 3 1020 fresh, make 4 1030 fresh, take 5, make 6 1070 reply, make 7 1071 again 0, make 8 1072 again 1, make 9 1080 beat
a unit is lost | lost plain server | Up 8 3 0 0 2 | 0 | take 0, make 1 9000 reply, take 2, take 4, make 5 9060 ask, take 6, take 7, take 8, take 9, make 10 9090 beat
handed up once | data plain client | Up 1 3 1 0 0 | 0 | make 0 1000 open, take 1, make 2 1010 reply, make 3 1020 fresh
handed up once | data plain server | Up 3 2 0 0 1 | 0 | take 0, make 1 9000 reply, take 2, take 3, make 4 9050 beat
numbers wrap | wrapped plain client | Up 2 3 1 0 0 | 0 | make 0 4294967280 open, take 1, make 2 4294967300 reply, make 3 4294967310 fresh, take 4
numbers wrap | wrapped plain server | Up 3 2 0 0 1 | 0 | take 0, make 1 9000 reply, take 2, take 3, make 4 9050 beat
deadline after the wrap | wrapped plain client | Up 2 4 1 0 0 | 0 | make 0 4294967280 open, take 1, make 2 4294967300 reply, make 3 4294967310 fresh, take 4, make 5 4294969110 beat
deadline after the wrap | wrapped plain client | Up 2 3 1 0 0 | 38 | make 0 4294967280 open, take 1, make 2 4294967300 reply, make 3 4294967310 fresh, take 4, make 6 4294969111 beat
deadline after the wrap | wrapped plain client | Up 2 3 1 0 0 | 46 | make 0 4294967280 open, take 1, make 2 4294967300 reply, make 3 4294967310 fresh, take 4, make 7 4294969109 expired
deadline after the wrap | wrapped plain client | Closed 2 4 1 0 0 | 0 | make 0 4294967280 open, take 1, make 2 4294967300 reply, make 3 4294967310 fresh, take 4, make 8 4294969110 expired
clock falls at the wrap | wrapped plain client | Up 1 1 0 1 0 | 37 | make 0 4294967280 open, take 1, make 2 4 reply
the capture ends in a burst | lost plain client | Up 2 6 2 1 0 | 0 | make 0 1000 open, take 1, make 2 1010 reply, make 3 1020 fresh, make 4 1030 fresh, take 5, make 6 1070 reply, make 7 1071 again 0
the capture ends in a burst | lost plain server | RetrRun 6 3 0 0 1 | 0 | take 0, make 1 9000 reply, take 2, take 4, make 5 9060 ask, take 6, take 7, make 15 9080 beat
a resend is lost | lost plain client | Up 3 10 2 0 0 | 0 | make 0 1000 open, take 1, make 2 1010 reply, make 3 1020 fresh, make 4 1030 fresh, take 5, make 6 1070 reply, make 7 1071 again 0, make 8 1072 again 1, take 16, make 17 1090 reply, make 18 1091 again 0, make 19 1092 again 1
a resend is lost | lost plain server | RetrRun 10 4 0 0 2 | 0 | take 0, make 1 9000 reply, take 2, take 4, make 5 9060 ask, take 6, take 8, make 16 9080 ask, take 17, take 18, take 19, make 20 9100 beat
both ask | crossed plain client | RetrRun 7 9 2 0 2 | 0 | make 0 1000 open, take 1, make 2 1010 reply, make 3 1020 fresh, make 5 1030 fresh, take 6, make 7 1040 ask, take 8, make 9 1050 reply, make 10 1051 again 0, make 11 1052 again 1, take 12, take 13, take 14, make 15 1060 beat
both ask | crossed plain server | Up 9 8 2 0 2 | 0 | take 0, make 1 9000 reply, take 2, make 4 9020 fresh, make 6 9030 fresh, take 5, make 8 9040 ask, take 7, make 12 9050 reply, make 13 9051 again 0, make 14 9052 again 1, take 9, take 10, take 11, take 15, make 16 9060 beat
a second request | lost plain server | RetrReq 2 2 0 0 0 | 41 | take 0, make 1 9000 reply, take 2, take 4, make 5 9060 ask, make 11 9070 ask
data while a reply is owed | lost plain client | Up 2 4 2 3 0 | 42 | make 0 1000 open, take 1, make 2 1010 reply, make 3 1020 fresh, make 4 1030 fresh, take 5, make 12 1070 fresh
data in mid-burst | lost plain client | Up 2 6 2 1 0 | 42 | make 0 1000 open, take 1, make 2 1010 reply, make 3 1020 fresh, make 4 1030 fresh, take 5, make 6 1070 reply, make 7 1071 again 0, make 13 1072 fresh
messages of another unit | lost plain client | Up 2 6 2 1 0 | 43 | make 0 1000 open, take 1, make 2 1010 reply, make 3 1020 fresh, make 4 1030 fresh, take 5, make 6 1070 reply, make 7 1071 again 0, make 14 1072 again 1
a take is left out | lost plain server | RetrReq 2 2 0 0 0 | 39 | take 0, make 1 9000 reply, take 2, take 4, make 5 9060 ask, take 7, take 8, take 9, make 10 9090 beat
an invalid response | opened plain client | Start 0 1 0 0 0 | 0 | make 0 1000 open, take 3
the first heartbeat is owed | opened plain client | Up 1 1 0 1 0 | 0 | make 0 1000 open, take 1
a beat first | opened plain client | Up 1 1 0 1 0 | 42 | make 0 1000 open, take 1, make 2 1010 beat
not the next SN | opened plain client | Up 1 1 0 1 0 | 47 | make 0 1000 open, take 1, make 4 1010 reply
not the clock | opened plain client | Up 1 1 0 1 0 | 36 | make 0 1000 open, take 1, make 2 1009 reply
the clock falls | opened plain client | Up 1 1 0 1 0 | 37 | make 0 1000 open, take 1, make 5 999 reply
another CS | opened plain client | Up 1 1 0 1 0 | 39 | make 0 1000 open, take 1, make 6 1010 reply
another CTS | opened plain client | Up 1 1 0 1 0 | 40 | make 0 1000 open, take 1, make 7 1010 reply
data first | opened plain client | Closed 0 0 0 0 0 | 41 | make 8 1000 fresh
closed by a bye | opened plain client | Closed 1 2 0 0 0 | 44 | make 0 1000 open, take 1, make 9 1010 bye, make 10 1020 beat
deadline with slack 0 | timed plain server | Up 2 2 0 0 0 | 0 | take 0, make 1 9000 reply, take 2, make 4 10800 beat
deadline with slack 0 | timed plain server | Up 2 1 0 0 0 | 38 | take 0, make 1 9000 reply, take 2, make 5 10801 beat
deadline with slack 0 | timed plain server | Up 2 1 0 0 0 | 46 | take 0, make 1 9000 reply, take 2, make 8 10799 expired
deadline with slack 0 | timed plain server | Closed 2 2 0 0 0 | 0 | take 0, make 1 9000 reply, take 2, make 9 10800 expired
deadline with slack 5 | timed slack server | Up 2 2 0 0 0 | 0 | take 0, make 1 9000 reply, take 2, make 6 10805 beat
deadline with slack 5 | timed slack server | Up 2 1 0 0 0 | 38 | take 0, make 1 9000 reply, take 2, make 7 10806 beat
deadline with slack 5 | timed slack server | Up 2 1 0 0 0 | 46 | take 0, make 1 9000 reply, take 2, make 10 10794 expired
deadline with slack 5 | timed slack server | Closed 2 2 0 0 0 | 0 | take 0, make 1 9000 reply, take 2, make 11 10795 expired
a deadline below 0 | timed plain server | Up 2 1 0 0 0 | 38 | take 0, make 1 9000 reply, take 3, take 16
a deadline below 0 | timed plain server | Up 2 1 0 0 0 | 38 | take 0, make 1 9000 reply, take 3, make 12 9000 beat
a deadline below 0 | timed plain server | Closed 2 2 0 0 0 | 0 | take 0, make 1 9000 reply, take 3, make 13 9000 expired
the last ahead | timed narrow server | RetrReq 2 1 0 1 0 | 0 | take 0, make 1 9000 reply, take 2, take 14
past the last ahead | timed narrow server | Up 2 1 0 0 0 | 0 | take 0, make 1 9000 reply, take 2, take 15
a quiet start | quiet quiet client | Up 1 1 1 0 0 | 0 | make 0 1020 fresh
a quiet start | quiet quiet server | Up 2 1 0 0 1 | 0 | take 0, make 1 9050 beat
no quiet start | quiet plain client | Closed 0 0 0 0 0 | 41 | make 0 1020 fresh
another quiet SN | quiet other client | Up 1 0 0 0 0 | 47 | make 0 1020 fresh
no second opening | quiet quiet client | Closed 1 0 0 0 0 | 44 | take 2, make 3 1020 open
";

fn phase_of(phase: Phase) -> &'static str {
    match phase {
        Phase::Closed => "Closed",
        Phase::Down => "Down",
        Phase::Start => "Start",
        Phase::Up => "Up",
        Phase::RetrReq => "RetrReq",
        Phase::RetrRun => "RetrRun",
    }
}

fn why_of(word: &str, unit: Option<&str>) -> Option<Why> {
    match word {
        "open" => Some(Why::Open),
        "reply" => Some(Why::Reply),
        "beat" => Some(Why::Beat),
        "fresh" => Some(Why::Fresh),
        "again" => Some(Why::Again(unit?.parse().ok()?)),
        "ask" => Some(Why::Ask),
        "bye" => Some(Why::Bye),
        "expired" => Some(Why::Expired),
        _ => None,
    }
}

// What one call answers; none where the step is no step.
fn call<'a>(end: &mut End<'a>, pdu: &Pdu<'a>, step: &str) -> Option<Result<(), Fault>> {
    let mut words = step.split(' ');
    if words.next()? == "take" {
        return (end.accepted() < 1 << 63).then(|| end.take(pdu));
    }
    let clock = words.nth(1)?.parse().ok()?;
    let why = why_of(words.next()?, words.next())?;
    Some(end.make(pdu, clock, why))
}

// What a step with this PDU answers: where memory ran out, what a second call does.
fn answer<'a>(end: &mut End<'a>, pdu: &Pdu<'a>, step: &str) -> Option<u8> {
    let mut answer = call(end, pdu, step)?;
    if answer == Err(Fault::no_memory()) {
        answer = call(end, pdu, step)?;
    }
    Some(answer.err().map_or(0, |fault| fault.number))
}

// Whether this is the end: phase, accepted, made, offered, owed and handed up.
fn is_end(end: &End, want: &str) -> Option<bool> {
    let mut words = want.split(' ');
    Some(
        words.next()? == phase_of(end.phase())
            && words.next()?.parse().ok() == Some(end.accepted())
            && words.next()?.parse().ok() == Some(end.made())
            && words.next()?.parse().ok() == Some(end.offered())
            && words.next()?.parse().ok() == Some(end.owed())
            && words.next()?.parse().ok() == Some(end.handed().len()),
    )
}

// Runs the steps, and answers the fault of the last one; none where one before it has a fault.
fn run<'a>(
    params: &Params,
    lines: &str,
    all: &'a [Vec<u8>],
    end: &mut End<'a>,
    steps: &str,
) -> Option<u8> {
    let mut fault = 0;
    for step in steps.split(", ") {
        if fault != 0 {
            return None;
        }
        let place = step.split(' ').nth(1)?.parse().ok()?;
        let pdu = pdu_of(params, lines, all, place)?;
        fault = answer(end, &pdu, step)?;
    }
    Some(fault)
}

// The datagrams of some lines; made again where memory ran out.
fn datagrams_of(alloc: Global, params: &Params, lines: &str) -> Option<Vec<Vec<u8>>> {
    datagrams(alloc, params, lines).or_else(|| datagrams(alloc, params, lines))
}

// Whether an end that goes these steps has the fault and is then the end that are wanted.
fn ends_so(
    alloc: Global,
    params: &Params,
    lines: &str,
    side: Side,
    want: (&str, u8),
    steps: &str,
) -> Option<bool> {
    let all = datagrams_of(alloc, params, lines)?;
    let mut end = End::start(alloc, params, side);
    let fault = run(params, lines, all.as_slice(), &mut end, steps)?;
    Some(fault == want.1 && is_end(&end, want.0)?)
}

// Whether the end of a row is as it says.
fn is_as_told(alloc: Global, row: &str) -> Option<bool> {
    let mut parts = row.split(" | ").skip(1);
    let mut settings = parts.next()?.split(' ');
    let lines = lines_of(settings.next()?)?;
    let params = params_of(settings.next()?)?;
    let side = side_of(settings.next()?);
    let want = (parts.next()?, parts.next()?.parse().ok()?);
    ends_so(alloc, &params, lines, side, want, parts.next()?)
}

#[test]
fn ends_by_rows(rt: HostRuntime) {
    for row in ROWS.lines() {
        assert_eq!(rt; is_as_told(rt.alloc(), row), Some(true), "{row}");
    }
}

// Whether both ends are as they are before the opening.
fn are_unopened(alloc: Global) -> Option<bool> {
    let params = params_of("plain")?;
    let client = End::client(alloc, &params);
    let server = End::server(alloc, &params);
    Some(is_end(&client, "Closed 0 0 0 0 0")? && is_end(&server, "Down 0 0 0 0 0")?)
}

#[test]
fn ends_before_the_opening(rt: HostRuntime) {
    assert_eq!(rt; are_unopened(rt.alloc()), Some(true));
}

// A row: lines and side; steps; what is asked of the end then, and the answer, a dash where there is none:
// the redundancy number of what it made as the one of this number; the units conveyed through its position
// with this SN; the fault for which nothing may be taken at this moment.
const ASKED: &str = "\
lost client | make 0 1000 open, take 1, make 2 1010 reply, make 3 1020 fresh, make 4 1030 fresh, take 5, make 6 1070 reply, make 7 1071 again 0 | made 0 7, made 1 8, made 5 12, made 6 -, units 100 0, units 102 1, units 103 2, units 104 0, units 105 1, units 106 0, moment 1071 42
data server | take 0, make 1 9000 reply, take 2 | made 0 40, made 1 -, units 500 0, moment 10800 -, moment 10801 38
";

// Whether an end answers a question so.
fn answers(end: &End, question: &str) -> Option<bool> {
    let mut words = question.split(' ');
    let word = words.next()?;
    let number: u32 = words.next()?.parse().ok()?;
    let want = words.next()?.parse::<u32>().ok();
    let told = match word {
        "made" => end.made_at(number as usize).map(|pdu| pdu.number()),
        "units" => u32::try_from(end.units_confirmed(number)).ok(),
        "moment" => end.take_fault(u64::from(number)).map(u32::from),
        _ => None,
    };
    Some(told == want)
}

fn answers_all(end: &End, questions: &str) -> Option<bool> {
    for question in questions.split(", ") {
        if !answers(end, question)? {
            return Some(false);
        }
    }
    Some(true)
}

// Whether the end of a row answers as it says.
fn tells(alloc: Global, row: &str) -> Option<bool> {
    let mut parts = row.split(" | ");
    let (word, side) = parts.next()?.split_once(' ')?;
    let (steps, questions) = (parts.next()?, parts.next()?);
    let lines = lines_of(word)?;
    let params = params_of("plain")?;
    let all = datagrams(alloc, &params, lines)?;
    let mut end = End::start(alloc, &params, side_of(side));
    let fault = run(&params, lines, all.as_slice(), &mut end, steps)?;
    Some(fault == 0 && answers_all(&end, questions)?)
}

#[test]
fn ends_tell_what_they_are(rt: HostRuntime) {
    for row in ASKED.lines() {
        assert_eq!(rt; tells(rt.alloc(), row), Some(true), "{row}");
    }
}
