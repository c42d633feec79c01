//! The jobs that users wait for, over captures in memory.
use crate::dialogue::{Dialogue, Moment, Recorded, noise};
use crate::folding::{Folded, Folding};
use crate::port::make_port;
use crate::station::{Station, make_station};
use crate::traffic::{BURSTS, BUSY, DAY, LARGE, SINGLE, Traffic};
use rasta_cert::{Certificate, Entry};
use rasta_pcap::{Buffered, Counted};
use rasta_pdu::{Fault, Params, Side, Sink, Source};
use rasta_show::run_show;
use rasta_verdict::{run_audit, run_check};
use seatmelon_commands::{
    Answer, Explaining, Extent, Form, Inputs, explain_of, status_of_outcome, survey_of,
    write_answer,
};
use seatmelon_failures::{STANDARD_OUTPUT, params_in};
use seatmelon_many::{Auditing, Named, audit_of};
use seatmelon_tally::status_of;
use std::alloc::Global;
use std::io;
use std::io::{BufWriter, Write};

// How many bytes are read and written at once, as by the programs.
const BUFFER: usize = 65_536;

// Room in a capture for each record and for its messages.
const ROOM: usize = 128;

/// A job.
#[derive(Clone, Copy, PartialEq, Eq)]
pub enum Job {
    Explain,
    Json,
    Audit,
    Check,
    Survey,
    Show,

    /// A survey of a port where copies cross some packets later.
    Mirrored,

    /// A survey and the PDUs of one channel, where nothing crosses twice.
    Single,

    /// An audit of all connections of a station.
    Many,
}

// How often a capture is read: up to some moments, each later than the one before.
const READINGS: u32 = 3;

// A capture with what belongs to it: the text of its parameters, and what both ends did.
#[derive(Drop)]
struct Day {
    recorded: Recorded,
    parameters: String,
    params: Params,
    moments: Vec<Moment>,
}

// What a job reads: a capture up to a moment, its parameters, and a certificate, empty where none is asked for.
#[derive(Drop)]
struct Case<'a> {
    capture: &'a [u8],
    parameters: &'a str,
    params: Params,
    certificate: Vec<u8>,
}

impl Job {
    /// The job of this name.
    pub fn named(name: &str) -> Option<Job> {
        match name {
            "explain" => Some(Job::Explain),
            "json" => Some(Job::Json),
            "audit" => Some(Job::Audit),
            "check" => Some(Job::Check),
            "survey" => Some(Job::Survey),
            "show" => Some(Job::Show),
            "mirrored" => Some(Job::Mirrored),
            "single" => Some(Job::Single),
            "many" => Some(Job::Many),
            _ => None,
        }
    }

    // What crosses in each of its two captures.
    fn traffic(self) -> [Traffic; 2] {
        match self {
            Job::Explain | Job::Survey | Job::Mirrored | Job::Many => [DAY, DAY],
            Job::Json => [LARGE, LARGE],
            Job::Audit => [DAY, BURSTS],
            Job::Check => [BUSY, LARGE],
            Job::Show => [BUSY, BURSTS],
            Job::Single => [SINGLE, SINGLE],
        }
    }
}

// The text of the parameters of such a connection.
fn parameters(alloc: Global, traffic: Traffic) -> Option<String> {
    let code_length = traffic.code_length;
    let mut text = format!(in alloc;
        "client_id = 96\nserver_id = 97\ncode_length = {code_length}\ncheck_length = 0\n\
         n_sendmax = 20\nt_max = 1800\nslack = 0\n"
    )
    .ok()?;
    for channel in 0..traffic.channels.min(4) {
        let table = format!(in alloc;
            "[[channel]]\nclient = \"10.0.{channel}.1:5000\"\nserver = \"10.0.{channel}.2:5000\"\n"
        ).ok()?;
        text.push_str(table.as_str()).ok()?;
    }
    Some(text)
}

// Whether the next moment has come, of those at which a capture is read, when so many of all packets have crossed.
fn is_due(moments: usize, crossed: u32, packets: u32) -> bool {
    let tenths = u64::from(crossed) * 10;
    let due = (moments as u64)
        .saturating_add(8)
        .saturating_mul(u64::from(packets));
    (moments as u64) < u64::from(READINGS) - 1 && tenths >= due
}

// A conversation of two ends in which so many packets cross, and some more where PDUs are sent again, with its
// moments: when eight and nine tenths of them have crossed, and the last.
fn make_day(alloc: Global, traffic: Traffic, seed: u32, packets: u32) -> Option<Day> {
    let parameters = parameters(alloc, traffic)?;
    let params = params_in(alloc, "day.toml", parameters.as_bytes()).ok()?;
    let noise = noise(alloc, seed)?;
    let capacity = (packets as usize).checked_mul(ROOM)?;
    let mut dialogue = Dialogue::new(alloc, traffic, &params, &noise, seed, capacity)?;
    dialogue.open()?;
    let mut moments = Vec::new(alloc);
    let mut side = Side::Server;
    for _ in 0..packets {
        if dialogue.crossed() >= packets {
            break;
        }
        dialogue.go_on(side)?;
        side = side.other();
        if is_due(moments.len(), dialogue.crossed(), packets) {
            moments.push(dialogue.moment()).ok()?;
        }
    }
    moments.push(dialogue.moment()).ok()?;
    let recorded = dialogue.into_recorded();
    Some(Day {
        recorded,
        parameters,
        params,
        moments,
    })
}

// The first entries of a script.
fn entries_until(alloc: Global, script: &[Entry], count: usize) -> Option<Vec<Entry>> {
    let mut entries = Vec::new(alloc);
    entries.extend_from_slice(script.get(..count)?).ok()?;
    Some(entries)
}

// The text of the certificate of what both ends did up to a moment.
fn certificate(alloc: Global, recorded: &Recorded, moment: Moment) -> Option<Vec<u8>> {
    let client = entries_until(alloc, &recorded.client, moment.client)?;
    let server = entries_until(alloc, &recorded.server, moment.server)?;
    let certificate = Certificate::new(client, server).ok()?;
    let mut writer = Counted::new(Vec::new(alloc));
    rasta_cert::write(&certificate, &mut writer).ok()?;
    Some(writer.into_inner())
}

fn case_at<'a>(alloc: Global, job: Job, day: &'a Day, moment: Moment) -> Option<Case<'a>> {
    let certificate = match job {
        Job::Check => certificate(alloc, &day.recorded, moment)?,
        _ => Vec::new(alloc),
    };
    Some(Case {
        capture: day.recorded.capture.bytes().get(..moment.bytes)?,
        parameters: day.parameters.as_str(),
        params: day.params,
        certificate,
    })
}

// Does what `rasta_audit` does for a command.
fn run_command<R: Source, W: Sink>(
    alloc: Global,
    job: Job,
    case: &Case<'_>,
    reader: &mut R,
    writer: &mut W,
) -> Result<u8, Fault> {
    match job {
        Job::Show | Job::Single => run_show(alloc, &case.params, reader, writer),
        Job::Check => run_check(alloc, &case.params, reader, &case.certificate, writer),
        _ => run_audit(alloc, &case.params, reader, writer),
    }
}

fn command(alloc: Global, job: Job, case: &Case<'_>, folded: &mut Folded) -> Option<u8> {
    let source = Counted::new(case.capture);
    let mut reader = Buffered::new(alloc, source, BUFFER).ok()?;
    let output = BufWriter::with_capacity(alloc, BUFFER, Folding::new(folded)).ok()?;
    let mut writer = Counted::new(output);
    let status = run_command(alloc, job, case, &mut reader, &mut writer).ok()?;
    writer.into_inner().flush().ok()?;
    Some(status)
}

// Explains a capture, without these records.
fn explain(
    alloc: Global,
    job: Job,
    case: &Case<'_>,
    without: Vec<u32>,
    folded: &mut Folded,
) -> Option<u8> {
    let inputs = Inputs {
        params: case.params,
        parameters: String::from_str(alloc, case.parameters).ok()?.into_bytes(),
        certificate: None,
    };
    let explaining = Explaining {
        capture: "day.pcap",
        parameters: "day.toml",
        certificate: None,
        without,
        suppose: None,
        form: match job {
            Job::Json => Form::Json,
            _ => Form::Text(Extent::ALL),
        },
    };
    let device = Folding::new(folded);
    let explanation = explain_of(alloc, &explaining, &inputs, case.capture, device).ok()?;
    Some(status_of_outcome(explanation.outcome))
}

// The records that are left out every other time: one of each hundred thousand.
fn left_out(alloc: Global, turn: u32, packets: u32) -> Option<Vec<u32>> {
    let mut numbers = Vec::new(alloc);
    if turn % 2 == 0 {
        return Some(numbers);
    }
    for i in 1..=packets / 100_000 {
        numbers.push(i.checked_mul(100_000)?).ok()?;
    }
    Some(numbers)
}

// Surveys a port.
fn survey(alloc: Global, capture: &[u8], folded: &mut Folded) -> Option<u8> {
    let survey = survey_of(alloc, "port.pcap", capture, None).ok()?;
    let answer = Answer::Survey(&survey);
    write_answer(alloc, STANDARD_OUTPUT, &answer, Folding::new(folded)).ok()?;
    Some(u8::from(survey.connections().is_empty()))
}

// Prints what came of a job, and answers whether something did.
fn tell(rt: &(impl Print + AllocGlobal), status: Option<u8>, folded: Folded) -> io::Result<bool> {
    let Folded {
        len,
        sum,
        sums,
        rest,
    } = folded;
    match status {
        Some(status) => println!(rt; "status {status}, {len} bytes, {sum:x} {sums:x} {rest:x}")?,
        None => println!(rt; "nothing came of it")?,
    }
    Ok(status.is_some())
}

// How many PDUs cross at most between a packet and its copy, where these don't follow each other.
const BETWEEN: u32 = 10;

// Surveys the capture of a port, up to each of its moments.
fn run_survey(
    rt: &(impl Print + AllocGlobal),
    seed: u32,
    records: u32,
    waiting: u32,
) -> io::Result<bool> {
    let Some(port) = make_port(rt.alloc(), seed, records, waiting) else {
        return tell(rt, None, Folded::new());
    };
    let mut came = true;
    for part in &port.moments {
        let mut folded = Folded::new();
        let status = match port.capture.bytes().get(..*part) {
            Some(capture) => survey(rt.alloc(), capture, &mut folded),
            None => None,
        };
        came &= tell(rt, status, folded)?;
    }
    Ok(came)
}

// Audits the connections of a station, of whose parameters there are few.
fn audit_many(alloc: Global, capture: &[u8], station: &Station, folded: &mut Folded) -> Option<u8> {
    let auditing = Auditing {
        capture: "station.pcap",
        parameters: Vec::new(alloc),
        form: seatmelon_many::Form::Text,
    };
    let params = station.params.get(..station.params.len().min(4096))?;
    let device = Folding::new(folded);
    let named = Named {
        names: &station.names,
        sums: &[],
    };
    let audited = audit_of(alloc, &auditing, &named, params, capture, device).ok()?;
    Some(status_of(&audited.audit))
}

// Audits the connections of a station, up to each of its moments.
fn run_many(rt: &(impl Print + AllocGlobal), seed: u32, packets: u32) -> io::Result<bool> {
    let Some(station) = make_station(rt.alloc(), seed, packets) else {
        return tell(rt, None, Folded::new());
    };
    let mut came = true;
    for part in &station.moments {
        let mut folded = Folded::new();
        let status = match station.capture.bytes().get(..*part) {
            Some(capture) => audit_many(rt.alloc(), capture, &station, &mut folded),
            None => None,
        };
        came &= tell(rt, status, folded)?;
    }
    Ok(came)
}

// Surveys a capture, and then shows its PDUs.
fn survey_and_show(alloc: Global, case: &Case<'_>, folded: &mut Folded) -> Option<u8> {
    survey(alloc, case.capture, folded)?;
    command(alloc, Job::Single, case, folded)
}

// Does a job on a day, up to a moment.
fn run_case(
    alloc: Global,
    job: Job,
    turn: u32,
    packets: u32,
    day: &Day,
    moment: Moment,
    folded: &mut Folded,
) -> Option<u8> {
    let case = case_at(alloc, job, day, moment)?;
    match job {
        Job::Explain | Job::Json => {
            let without = left_out(alloc, turn, packets)?;
            explain(alloc, job, &case, without, folded)
        }
        Job::Single => survey_and_show(alloc, &case, folded),
        _ => command(alloc, job, &case, folded),
    }
}

// Does a job on the capture of a day, up to each of its moments.
fn run_day(
    rt: &(impl Print + AllocGlobal),
    job: Job,
    turn: u32,
    seed: u32,
    packets: u32,
) -> io::Result<bool> {
    let [first, second] = job.traffic();
    let traffic = if turn % 2 == 0 { first } else { second };
    let Some(day) = make_day(rt.alloc(), traffic, seed, packets) else {
        return tell(rt, None, Folded::new());
    };
    let mut came = true;
    for moment in &day.moments {
        let mut folded = Folded::new();
        let status = run_case(rt.alloc(), job, turn, packets, &day, *moment, &mut folded);
        came &= tell(rt, status, folded)?;
    }
    Ok(came)
}

/// Does a job on so many captures of at least so many packets, on each as a whole and twice up to a moment before its
/// end, and prints what came of it. Answers whether something came of each.
pub fn run_job(
    rt: &(impl Print + AllocGlobal),
    job: Job,
    seed: u32,
    turns: u32,
    packets: u32,
) -> io::Result<bool> {
    let mut came = true;
    for turn in 0..turns {
        let seed = seed.wrapping_add(turn.wrapping_mul(0x9e37_79b9));
        came &= match job {
            Job::Survey => run_survey(rt, seed, packets, 1)?,
            Job::Mirrored => run_survey(rt, seed, packets, BETWEEN)?,
            Job::Many => run_many(rt, seed, packets)?,
            _ => run_day(rt, job, turn, seed, packets)?,
        };
    }
    Ok(came)
}
