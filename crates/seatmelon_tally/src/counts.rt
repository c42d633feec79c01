//! What the answers of an audit come to.
ghost use Rattle.std.specs.Prelude.{◌≡◌};
ghost use Rattle.std.specs.List.{list_all};
ghost use Rattle.seatmelon_audit.specs.declared.answer.Connection.{Connection as Told};
ghost use Rattle.seatmelon_tally.specs.Counted.{count_answers, ends_file, is_cut, is_explained, is_explained_before, is_of, is_out_of_memory, is_refused, is_without_packets, status_in};

use rasta_pcap::Fault;
use seatmelon_audit::{Answer, Audit, Before, Connection};

/// What a connection has become.
#[derive(Clone, Copy)]
pub enum Kind {
    Explained,
    Cut,
    Refused,
    WithoutPackets,
    OutOfMemory,
}

/// How many connections have become what, and how many packets of them there are.
#[derive(Clone, Copy, Debug, PartialEq, Eq)]
pub struct Counts {
    pub explained: u64,

    /// Those that are refused by the fault that ends the file's records, and explained up to there.
    pub cut: u64,

    /// Those that are refused otherwise.
    pub refused: u64,
    pub without_packets: u64,

    /// Those for which there was no memory.
    pub out_of_memory: u64,

    /// The records that hold a packet of any of the connections in its window.
    pub packets: u32,
}

fn is_explained(answer: &Answer) -> bool
    ensures { result ≡ is_explained answer.now }
{
    matches!(answer, Answer::Explained(_))
}

// Whether what crossed before a refusal is explained.
fn is_explained_before(before: &Before) -> bool
    ensures { result ≡ is_explained_before before.now }
{
    matches!(before, Before::Explained(_))
}

// Whether a fault is the one that ends the records of the file.
fn ends_file(end: Option<Fault>, fault: Fault) -> bool
    ensures { result ≡ ends_file end fault }
{
    match end {
        Some(end) => fault.number == end.number && fault.place == end.place,
        None => false,
    }
}

/// Whether a connection is refused by the fault that ends the file's records, if one does, and explained up to there.
pub fn is_cut(fault: Option<Fault>, answer: &Answer) -> bool
    ensures { result ≡ is_cut fault answer.now }
{
    match answer {
        Answer::Refused {
            refusal,
            before,
            ..
        } => is_explained_before(before) && ends_file(fault, refusal.fault),
        Answer::NoPackets | Answer::Explained(_) | Answer::OutOfMemory => false,
    }
}

fn is_refused(fault: Option<Fault>, answer: &Answer) -> bool
    ensures { result ≡ is_refused fault answer.now }
{
    matches!(answer, Answer::Refused { .. }) && !is_cut(fault, answer)
}

fn is_without_packets(answer: &Answer) -> bool
    ensures { result ≡ is_without_packets answer.now }
{
    matches!(answer, Answer::NoPackets)
}

fn is_out_of_memory(answer: &Answer) -> bool
    ensures { result ≡ is_out_of_memory answer.now }
{
    matches!(answer, Answer::OutOfMemory)
}

// Whether an answer is of a kind, in a file whose records end in this fault, if one ends them.
fn is_of(kind: Kind, fault: Option<Fault>, answer: &Answer) -> bool
    ensures { result ≡ is_of kind fault answer.now }
{
    match kind {
        Kind::Explained => is_explained(answer),
        Kind::Cut => is_cut(fault, answer),
        Kind::Refused => is_refused(fault, answer),
        Kind::WithoutPackets => is_without_packets(answer),
        Kind::OutOfMemory => is_out_of_memory(answer),
    }
}

// How many connections have an answer of a kind, in a file whose records end in this fault, if one ends them.
fn count_of(kind: Kind, fault: Option<Fault>, connections: &[Connection]) -> usize
    ensures { result ≡ count_answers (is_of kind fault) connections.now }
{
    connections
        .iter()
        .filter(|connection| is_of(kind, fault, &connection.answer))
        .count()
}

impl Counts {
    ghost use Rattle.seatmelon_tally.specs.Counted.{counts_in};

    /// What an audit comes to.
    pub fn of(audit: &Audit) -> Counts
        ensures { result ≡ counts_in audit.now }
    {
        let connections = audit.connections.as_slice();
        let fault = audit.fault;
        Counts {
            explained: count_of(Kind::Explained, fault, connections) as u64,
            cut: count_of(Kind::Cut, fault, connections) as u64,
            refused: count_of(Kind::Refused, fault, connections) as u64,
            without_packets: count_of(Kind::WithoutPackets, fault, connections) as u64,
            out_of_memory: count_of(Kind::OutOfMemory, fault, connections) as u64,
            packets: audit.records.saturating_sub(audit.others),
        }
    }
}

fn are_explained(connections: &[Connection]) -> bool
    ensures { result ≡ list_all (λ (c : Told). is_explained c.answer) connections.now }
{
    connections
        .iter()
        .all(|connection| is_explained(&connection.answer))
}

/// The exit status: 0 where each connection is explained, else 1.
pub fn status_of(audit: &Audit) -> u8
    ensures { result ≡ status_in audit.now.connections.items }
{
    if are_explained(audit.connections.as_slice()) {
        0
    } else {
        1
    }
}
