//! What becomes of each connection.
ghost use Rattle.std.specs.Prelude.{◌≡◌, ◌≢◌, ◌<◌, ◌^◌, List, length, IfOk};
ghost use Rattle.std.specs.Option.{option_or};
ghost use Rattle.rasta_pcap.specs.Fault.{no_memory};
ghost use Rattle.rasta_udp.specs.Frame.{Packet};
ghost use Rattle.rasta_pdu.specs.Pdu.{messages_in, value_of};
ghost use Rattle.rasta_check.specs.Capture.Building.{crossed_in};
ghost use Rattle.rasta_check.specs.Middle.Seen.{IsSeen};
ghost use Rattle.rasta_check.specs.Verdict.Report.{explained as report_of};
ghost use Rattle.seatmelon_middle.specs.Course.{crossed_course, disconnection_at, first_disconnection};
ghost use Rattle.seatmelon_middle.specs.Packets.{opens_first};
ghost use Rattle.seatmelon_audit.specs.Answers.{AreCounts, IsAnswerOf, IsAnswerOn, IsBefore, IsTold, IsToldOn, RefusesBy, subject_holding};
ghost use Rattle.seatmelon_audit.specs.Audits.{IsConnectionOf};
ghost use Rattle.seatmelon_audit.specs.Facts.{IsCourseOf};
ghost use Rattle.seatmelon_audit.specs.Messages.{added_by, messages_sent};
ghost use Rattle.seatmelon_audit.specs.Shown.{IsShownOf};
ghost use Rattle.seatmelon_audit.specs.declared.answer.Before.TheVariants.{Unexplained as IsUnexplainedBy};

use crate::facts::{Facts, facts_of};
use crate::line::{Line, Refusal, Stamp, Standing, Subject};
use rasta_check::{Report, SentList, Shown, SpanList, Store, Taken};
use rasta_pcap::{Fault, Side};
use rasta_pdu::{Kind, Params, Pdu};
use rasta_verdict::{Verdict, judge_by};
use seatmelon_middle::{Course, Disconnection, ShownCounts, disconnection_at, is_told};
use std::alloc::{AllocError, Global};

/// Of the messages that an end sent to the other.
#[derive(Clone, Copy)]
pub struct Conveyed {
    /// How many there are, each counted once.
    pub sent: u64,

    /// How many of them the other end surely took: the first ones.
    pub taken: u64,
}

/// What is counted of a connection that is explained.
#[derive(Clone, Copy)]
pub struct Explained {
    pub packets: u64,

    /// Of the client's messages.
    pub client: Conveyed,

    /// Of the server's messages.
    pub server: Conveyed,
}

/// What is known of what crossed before a refusal by a fault of the capture.
#[derive(Clone, Copy)]
pub enum Before {
    /// Nothing crossed before it, or it is none by a fault of the capture.
    Nothing,

    /// Two ends that keep the rules can have sent the packets before it.
    Explained(Explained),

    /// No run is found for so many packets before it, by this fault.
    Unexplained { packets: u64, fault: Fault },
}

/// What the packets of the window show alone, beside a refusal.
#[derive(Clone, Copy)]
pub struct ShownOf {
    /// How many captured messages were surely taken.
    pub counts: ShownCounts,

    /// The place of the first packet that doesn't fit to those before it, counted from 0: the counts are of the packets
    /// before it.
    pub unfit: Option<u32>,
}

/// What becomes of a connection.
#[derive(Clone, Copy)]
pub enum Answer {
    /// No packet of it is in its window.
    NoPackets,

    /// The capture is refused, or no run of two ends sends these packets.
    Refused {
        refusal: Refusal,

        /// Whether what crossed before is explained.
        before: Before,

        /// How many captured messages were surely taken, by the packets of the window alone, where that is told.
        shown: Option<ShownOf>,
    },

    /// Two ends that keep the rules can have sent the packets.
    Explained(Explained),

    /// There was no memory for it, which says nothing of the others.
    OutOfMemory,
}

/// What becomes of a connection, and what is told of its packets.
#[derive(Clone, Copy)]
pub struct Connection {
    pub answer: Answer,
    pub facts: Facts,
}

/// What becomes of each connection, and what was read.
#[derive(Drop)]
pub struct Audit {
    /// In the order of the parameters.
    pub connections: Vec<Connection>,

    /// How many records the capture has.
    pub records: u32,

    /// How many of them hold no packet of any of the connections in its window.
    pub others: u32,

    /// The fault that ends its records, if it isn't whole.
    pub fault: Option<Fault>,
}

// What was sent by an end: how many messages, and its first disconnection request.
#[derive(Clone, Copy)]
struct Sent {
    messages: u64,
    disconnection: Option<Disconnection>,
}

// How many messages a PDU has.
fn message_count(pdu: &Pdu<'_>) -> u64
    requires { length (messages_in (value_of pdu.now).safety.body) < 2 ^ 64 }
    ensures { result ≡ length (messages_in (value_of pdu.now).safety.body) }
{
    let mut count = 0u64;
    for _ in pdu.messages() {
        count += 1;
    }
    count
}

// How many messages a PDU adds to those that were sent: those of data.
fn count_added(pdu: &Pdu<'_>) -> u64
    requires { added_by (value_of pdu.now) < 2 ^ 64 }
    ensures { result ≡ added_by (value_of pdu.now) }
{
    if pdu.kind().is(Kind::Data) {
        message_count(pdu)
    } else {
        0
    }
}

// The disconnection request that was found, or else the one that a PDU of this side is.
fn first_of(
    found: Option<Disconnection>,
    side: Side,
    place: u32,
    pdu: &Pdu<'_>,
) -> Option<Disconnection>
    ensures { result ≡ option_or found (disconnection_at side place (value_of pdu.now)) }
{
    if found.is_some() {
        found
    } else {
        disconnection_at(side, place, pdu)
    }
}

// What a side sent.
fn sent_by(side: Side, list: &SpanList<'_>) -> Sent
    requires { length (messages_sent list.now) < 2 ^ 64 }
    ensures messages { result.messages ≡ length (messages_sent list.now) }
    ensures disconnection { result.disconnection ≡ first_disconnection side list.now }
{
    let mut messages = 0u64;
    let mut disconnection = None;
    for position in 0..list.len() {
        if let Some((place, pdu)) = list.get(position) {
            messages += count_added(&pdu);
            disconnection = first_of(disconnection, side, place, &pdu);
        }
    }
    Sent {
        messages,
        disconnection,
    }
}

// How many messages an end sent, of which these were surely taken.
fn conveyed_by(sent: &Sent, taken: &[Taken<'_>]) -> Conveyed
    ensures { (result.sent ≡ sent.now.messages) × (result.taken ≡ length taken.now) }
{
    Conveyed {
        sent: sent.messages,
        taken: taken.len() as u64,
    }
}

// What is counted of what crossed, on which this is the report, and its course.
fn explained_of(store: &Store, report: &Report<'_>) -> (Explained, Course)
    ensures counts { AreCounts store.now (report_of report.now) result.0 }
    ensures course { result.1 ≡ crossed_course store.now }
{
    let by_client = sent_by(Side::Client, &store.client());
    let by_server = sent_by(Side::Server, &store.server());
    let explained = Explained {
        packets: u64::from(store.len()),
        client: conveyed_by(&by_client, report.server_taken.as_slice()),
        server: conveyed_by(&by_server, report.client_taken.as_slice()),
    };
    let course = Course::of_crossed(store, by_client.disconnection, by_server.disconnection);
    (explained, course)
}

// The record that holds the packet at a place, counted from 1.
fn subject_holding(packets: &[Stamp], place: u32) -> Option<Subject>
    ensures { result ≡ subject_holding packets.now place }
{
    if place == 0 {
        return None;
    }
    let stamp = packets.get(place as usize - 1)?;
    Some(Subject {
        record: stamp.record,
        time: Some(stamp.time),
    })
}

// What is told beside a refusal by this fault of a connection whose packets show this, and whose first packet opens it
// or doesn't.
fn told_beside(
    alloc: Global,
    params: &Params,
    opens: Option<bool>,
    fault: Fault,
    shown: &Shown,
) -> Result<Option<ShownOf>, AllocError>
    ensures { IfOk result (λ told. (packets : List Packet) → IsSeen params.now packets shown.now
        → opens ≡ opens_first params.now packets → IsShownOf params.now packets fault told) }
{
    if !is_told(params, opens, fault) {
        return Ok(None);
    }
    let lists = shown.lists(alloc)?;
    Ok(Some(ShownOf {
        counts: ShownCounts::of(&lists),
        unfit: shown.contradiction(),
    }))
}

// A refusal of what crossed or behind it, with what is told beside it.
fn refused(
    alloc: Global,
    params: &Params,
    opens: Option<bool>,
    refusal: Refusal,
    before: Before,
    shown: &Shown,
) -> Answer
    ensures { (packets : List Packet) → IsSeen params.now packets shown.now
        → opens ≡ opens_first params.now packets → IsTold refusal before params.now packets result }
{
    match told_beside(alloc, params, opens, refusal.fault, shown) {
        Ok(shown) => Answer::Refused {
            refusal,
            before,
            shown,
        },
        Err(_) => Answer::OutOfMemory,
    }
}

// The refusal by a fault of what crossed; a lack of memory is none.
fn unexplained(
    alloc: Global,
    store: &Store,
    packets: &[Stamp],
    opens: Option<bool>,
    fault: Fault,
) -> Answer
    ensures { opens ≡ opens_first store.now.params store.now.packets → RefusesBy fault store.now packets.now result }
{
    if fault.number == Fault::NO_MEMORY {
        return Answer::OutOfMemory;
    }
    let subject = subject_holding(packets, fault.place);
    let refusal = Refusal { fault, subject };
    match Shown::of_store(alloc, store) {
        Ok(shown) => refused(
            alloc,
            &store.params(),
            opens,
            refusal,
            Before::Nothing,
            &shown,
        ),
        Err(_) => Answer::OutOfMemory,
    }
}

// What becomes of what crossed, and its course.
fn judged(alloc: Global, store: &Store, packets: &[Stamp], opens: Option<bool>) -> (Answer, Course)
    ensures answer { opens ≡ opens_first store.now.params store.now.packets → IsAnswerOn store.now packets.now result.0 }
    ensures course { result.1 ≡ crossed_course store.now }
{
    if store.len() == 0 {
        return (Answer::NoPackets, Course::of_store(store));
    }
    match judge_by(alloc, store, None) {
        Ok(Verdict::Explained(explanation)) => {
            let (explained, course) = explained_of(store, &explanation.report);
            (Answer::Explained(explained), course)
        }
        Ok(Verdict::Unscripted(fault)) => {
            let answer = unexplained(alloc, store, packets, opens, fault);
            (answer, Course::of_store(store))
        }
        // A certificate that is proposed fits, so that this is never met.
        Ok(Verdict::Refused(fault, _)) => {
            let answer = unexplained(alloc, store, packets, opens, fault);
            (answer, Course::of_store(store))
        }
        Err(_) => (Answer::OutOfMemory, Course::of_store(store)),
    }
}

// No run is found for so many packets that crossed before a refusal, by this fault; a lack of memory is none.
fn unexplained_before(packets: u32, fault: Fault) -> Result<Before, AllocError>
    ensures { IfOk result (λ before. (fault ≢ no_memory) × (before ≡ IsUnexplainedBy packets fault)) }
{
    if fault.number == Fault::NO_MEMORY {
        return Err(AllocError);
    }
    Ok(Before::Unexplained {
        packets: u64::from(packets),
        fault,
    })
}

// What is known of what crossed before a refusal.
fn before_by(alloc: Global, store: &Store) -> Result<Before, AllocError>
    ensures { IfOk result (λ before. IsBefore store.now before) }
{
    let packets = store.len();
    if packets == 0 {
        return Ok(Before::Nothing);
    }
    match judge_by(alloc, store, None) {
        Ok(Verdict::Explained(explanation)) => {
            let (explained, _) = explained_of(store, &explanation.report);
            Ok(Before::Explained(explained))
        }
        Ok(Verdict::Unscripted(fault)) => unexplained_before(packets, fault),
        // A certificate that is proposed fits, so that this is never met.
        Ok(Verdict::Refused(fault, _)) => unexplained_before(packets, fault),
        Err(_) => Err(AllocError),
    }
}

// The refusal of a connection by a fault of the capture.
fn refused_line(alloc: Global, line: &Line, refusal: Refusal) -> Answer
    ensures { (packets : List Packet) → IsSeen line.now.params packets line.now.shown
        → line.now.opens ≡ opens_first line.now.params packets
        → IsToldOn refusal (crossed_in line.now.builder) line.now.params packets result }
{
    match before_by(alloc, line.builder.store()) {
        Ok(before) => refused(
            alloc,
            &line.params,
            line.opens,
            refusal,
            before,
            &line.shown,
        ),
        Err(_) => Answer::OutOfMemory,
    }
}

// What becomes of a connection, and its course, if it is known.
fn outcome_of(alloc: Global, line: &Line) -> (Answer, Option<Course>)
    ensures answer { IsAnswerOf line.now result.0 }
    ensures course { IsCourseOf line.now result.0 result.1 }
{
    match line.standing {
        Standing::Reading => {
            let packets = line.packets.as_slice();
            let (answer, course) = judged(alloc, line.builder.store(), packets, line.opens);
            (answer, Some(course))
        }
        Standing::Refused(refusal) => (refused_line(alloc, line, refusal), line.course),
        Standing::OutOfMemory => (Answer::OutOfMemory, None),
    }
}

/// What becomes of a connection, of which all that is stored is let go, and what is told of its packets.
pub fn connection_of(alloc: Global, line: Line) -> Connection
    ensures { IsConnectionOf line result }
{
    let (answer, course) = outcome_of(alloc, &line);
    let facts = facts_of(&line, course);
    Connection { answer, facts }
}
