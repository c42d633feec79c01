//! A station: many connections at once, each between hosts of its own, whose records take turns.
use crate::capture::{Capture, HEADER, record_at};
use crate::dialogue::{Dialogue, noise};
use crate::port::params_of;
use crate::traffic::DAY;
use rasta_pdu::{Params, Side};
use std::alloc::Global;

// How many connections there are.
const CONNECTIONS: u32 = 300;

// Room in a capture for each record.
const ROOM: usize = 128;

/// The capture of a station, its lengths at some moments, and the parameters of each connection with a name.
#[derive(Drop)]
pub struct Station {
    pub capture: Capture,
    pub moments: Vec<usize>,
    pub names: Vec<String>,
    pub params: Vec<Params>,
}

// What crosses of a connection, at least so many packets.
fn make_line(
    alloc: Global,
    params: &Params,
    noise: &[u8],
    seed: u32,
    packets: u32,
) -> Option<Capture> {
    let capacity = (packets as usize).checked_mul(ROOM)?;
    let mut dialogue = Dialogue::new(alloc, DAY, params, noise, seed, capacity)?;
    dialogue.open()?;
    let mut side = Side::Server;
    for _ in 0..packets {
        if dialogue.crossed() >= packets {
            break;
        }
        dialogue.go_on(side)?;
        side = side.other();
    }
    Some(dialogue.into_recorded().capture)
}

// What crosses of each connection, at least so many packets of each, and how many records these are.
fn make_lines(
    alloc: Global,
    params: &[Params],
    seed: u32,
    packets: u32,
) -> Option<(Vec<Reading>, u32)> {
    let noise = noise(alloc, seed)?;
    let mut lines = Vec::new(alloc);
    let (mut number, mut records) = (seed, 0u32);
    for params in params {
        number = number.wrapping_add(1);
        let line = make_line(alloc, params, &noise, number, packets)?;
        records = records.checked_add(line.records())?;
        lines.push(Reading::new(line)).ok()?;
    }
    Some((lines, records))
}

// How far a capture was read.
#[derive(Drop)]
struct Reading {
    line: Capture,
    at: usize,
}

impl Reading {
    fn new(line: Capture) -> Reading {
        Reading {
            line,
            at: HEADER.len(),
        }
    }

    // Adds the next record to a capture, if there is one.
    fn copy_next(&mut self, joined: &mut Capture) -> Option<()> {
        if let Some(record) = record_at(self.line.bytes(), self.at) {
            joined.add_record(record)?;
            self.at = self.at.checked_add(record.len())?;
        }
        Some(())
    }
}

// The moment has come, of those before the last, if so many of all records have crossed.
fn is_due(moments: usize, crossed: u32, records: u32) -> bool {
    let tenths = (moments as u64).saturating_add(8);
    moments < 2 && u64::from(crossed) * 10 >= tenths.saturating_mul(u64::from(records))
}

// A record of each connection in turn, until so many have crossed, with the moments at which eight and nine tenths of
// them have, and the last.
fn join(alloc: Global, lines: &mut Vec<Reading>, records: u32) -> Option<(Capture, Vec<usize>)> {
    let mut joined = Capture::new(alloc, (records as usize).checked_mul(ROOM)?)?;
    let mut moments = Vec::new(alloc);
    for _ in 0..records {
        if joined.records() >= records {
            break;
        }
        for line in lines.iter_mut() {
            line.copy_next(&mut joined)?;
        }
        if is_due(moments.len(), joined.records(), records) {
            moments.push(joined.bytes().len()).ok()?;
        }
    }
    moments.push(joined.bytes().len()).ok()?;
    Some((joined, moments))
}

/// What crosses at a station, at least so many packets.
pub fn make_station(alloc: Global, seed: u32, packets: u32) -> Option<Station> {
    let mut names = Vec::new(alloc);
    let mut params = Vec::new(alloc);
    for connection in 0..CONNECTIONS {
        let name = format!(in alloc; "connection-{connection}.toml").ok()?;
        names.push(name).ok()?;
        params.push(params_of(connection)?).ok()?;
    }
    let (mut lines, records) = make_lines(alloc, params.as_slice(), seed, packets / CONNECTIONS)?;
    let (capture, moments) = join(alloc, &mut lines, records)?;
    Some(Station {
        capture,
        moments,
        names,
        params,
    })
}
