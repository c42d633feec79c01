//! A mirrored port: many connections at once, among other traffic, whose openings came before.
use crate::capture::Capture;
use crate::dialogue::{NOISE, noise, way_of};
use rasta_pdu::{Body, Channel, Endpoint, Kind, Params, PduParts, Side, encode};
use std::alloc::Global;
use std::collections::VecDeque;
use trials_draws::Draws;

// How many connections cross the port.
const CONNECTIONS: u32 = 300;

const CODE_LENGTH: u8 = 8;

// The start words of RFC 1320, section 3.3.
const WORDS: [u32; 4] = [0x6745_2301, 0xefcd_ab89, 0x98ba_dcfe, 0x1032_5476];

// A PDU is data once in so many times, with a message of at least and at most so many bytes.
const DATA: u32 = 4;

const LEAST: u32 = 10;

const MOST: u32 = 60;

// Once in so many times a frame of no connection comes.
const FOREIGN: u32 = 5;

// Room in a capture for each record.
const ROOM: usize = 128;

// The microseconds between two PDUs.
const PERIOD: u32 = 2000;

// What an end sends next.
#[derive(Clone, Copy)]
struct Sender {
    number: u32,
    sn: u32,
    ts: u32,
}

// A connection: its parameters, and both ends.
#[derive(Drop)]
struct Line {
    params: Params,
    client: Sender,
    server: Sender,
}

impl Sender {
    fn new(random: &mut Draws) -> Sender {
        Sender {
            number: random.below(u32::MAX),
            sn: random.below(u32::MAX),
            ts: random.below(u32::MAX),
        }
    }

    fn go_on(&mut self, millis: u32) {
        self.number = self.number.wrapping_add(1);
        self.sn = self.sn.wrapping_add(1);
        self.ts = self.ts.wrapping_add(millis);
    }
}

// A host of the connection of this number.
fn endpoint(connection: u32, channel: u8, host: u8) -> Option<Endpoint> {
    let row = u8::try_from(connection / 100).ok()?;
    let place = u8::try_from(connection % 100).ok()?;
    Some(Endpoint {
        address: [10, channel, row, place.checked_add(host)?],
        port: 5000,
    })
}

fn channel(connection: u32, number: u8) -> Option<Channel> {
    Some(Channel {
        client: endpoint(connection, number, 1)?,
        server: endpoint(connection, number, 101)?,
    })
}

/// The parameters of the connection of this number.
pub fn params_of(connection: u32) -> Option<Params> {
    let channels = [channel(connection, 0)?, channel(connection, 1)?];
    let client = connection.checked_mul(2)?.checked_add(1000)?;
    let server = client.checked_add(1)?;
    Params::new(
        client,
        server,
        CODE_LENGTH,
        WORDS,
        0,
        20,
        1800,
        0,
        1,
        4_000_000_000,
        &channels,
        None,
    )
}

impl Line {
    fn new(connection: u32, random: &mut Draws) -> Option<Line> {
        Some(Line {
            params: params_of(connection)?,
            client: Sender::new(random),
            server: Sender::new(random),
        })
    }

    // Writes the next PDU of a side with this body.
    fn write_body(
        &mut self,
        side: Side,
        kind: Kind,
        body: Body<&[&[u8]]>,
        datagram: &mut Vec<u8>,
    ) -> Option<()> {
        let (sender, peer) = match side {
            Side::Client => (self.client, self.server),
            Side::Server => (self.server, self.client),
        };
        let parts = PduParts {
            number: sender.number,
            reserve: 0,
            kind,
            sn: sender.sn,
            cs: peer.sn.wrapping_sub(1),
            ts: sender.ts,
            cts: peer.ts,
            body,
            check_bytes: &[],
        };
        if !parts.fits(&self.params) {
            return None;
        }
        datagram.clear();
        encode(&self.params, side, &parts, datagram).ok()?;
        match side {
            Side::Client => self.client.go_on(300),
            Side::Server => self.server.go_on(300),
        }
        Some(())
    }

    // Writes the next PDU of a side: data with this message, or a heartbeat.
    fn write(&mut self, side: Side, message: Option<&[u8]>, datagram: &mut Vec<u8>) -> Option<()> {
        match message {
            Some(message) => {
                let messages = [message];
                self.write_body(
                    side,
                    Kind::Data,
                    Body::Messages(messages.as_slice()),
                    datagram,
                )
            }
            None => self.write_body(side, Kind::Heartbeat, Body::Empty, datagram),
        }
    }
}

// A message, once in a while.
fn message<'a>(random: &mut Draws, noise: &'a [u8]) -> Option<&'a [u8]> {
    if !random.happens(DATA) {
        return None;
    }
    let len = LEAST.checked_add(random.below(MOST - LEAST))?;
    let at = random.below((NOISE as u32) - MOST);
    noise.get(at as usize..at.checked_add(len)? as usize)
}

fn lines(alloc: Global, random: &mut Draws) -> Option<Vec<Line>> {
    let mut lines = Vec::new(alloc);
    for connection in 0..CONNECTIONS {
        lines.push(Line::new(connection, random)?).ok()?;
    }
    Some(lines)
}

// A copy that has still to cross, between these places.
#[derive(Drop)]
struct Copied {
    from: Endpoint,
    to: Endpoint,
    datagram: Vec<u8>,
}

// The copies that have still to cross, the oldest first, of which fewer than so many wait: with 1 each copy crosses
// right behind its packet.
#[derive(Drop)]
struct Waiting {
    copies: VecDeque<Copied>,
    most: u32,
}

impl Waiting {
    fn new(alloc: Global, most: u32) -> Waiting {
        Waiting {
            copies: VecDeque::new(alloc),
            most,
        }
    }

    fn add(&mut self, alloc: Global, from: Endpoint, to: Endpoint, bytes: &[u8]) -> Option<()> {
        let mut datagram = Vec::new(alloc);
        datagram.extend_from_slice(bytes).ok()?;
        let copied = Copied { from, to, datagram };
        self.copies.push_back(copied).ok()
    }

    // Lets the oldest copies cross until no more wait than may.
    fn release(&mut self, random: &mut Draws, capture: &mut Capture) -> Option<()> {
        let left = if self.most > 1 {
            random.below(self.most) as usize
        } else {
            0
        };
        for _ in left..self.copies.len() {
            let copied = self.copies.pop_front()?;
            capture.add_datagram(copied.from, copied.to, &copied.datagram)?;
        }
        Some(())
    }
}

// Lets the next PDU of a line cross on its first channel, and its copy on the second one at once or later.
fn cross(
    alloc: Global,
    line: &mut Line,
    random: &mut Draws,
    noise: &[u8],
    datagram: &mut Vec<u8>,
    waiting: &mut Waiting,
    capture: &mut Capture,
) -> Option<()> {
    let side = if random.happens(2) {
        Side::Client
    } else {
        Side::Server
    };
    line.write(side, message(random, noise), datagram)?;
    let [first, second] = *line.params.channel().first_chunk::<2>()?;
    let (from, to) = way_of(side, &first);
    capture.add_datagram(from, to, datagram)?;
    let (from, to) = way_of(side, &second);
    waiting.add(alloc, from, to, datagram)?;
    waiting.release(random, capture)
}

/// The capture of a port, and its lengths at some moments.
#[derive(Drop)]
pub struct Port {
    pub capture: Capture,
    pub moments: Vec<usize>,
}

/// What crosses a port, at least so many records, with the moments at which eight and nine tenths of them have crossed,
/// and the last. Before a copy crosses, fewer than `waiting` PDUs cross after its packet, mostly of other connections.
pub fn make_port(alloc: Global, seed: u32, records: u32, waiting: u32) -> Option<Port> {
    let noise = noise(alloc, seed)?;
    let mut random = Draws::sequence(seed, 3);
    let mut lines = lines(alloc, &mut random)?;
    let mut capture = Capture::new(alloc, (records as usize).checked_mul(ROOM)?)?;
    let mut datagram = Vec::new(alloc);
    let mut waiting = Waiting::new(alloc, waiting);
    let mut moments = Vec::new(alloc);
    for part in 8..=10 {
        let due = u64::from(records) * part / 10;
        for _ in 0..records {
            if u64::from(capture.records()) >= due {
                break;
            }
            let place = random.below(CONNECTIONS) as usize;
            let line = lines.get_mut(place)?;
            cross(
                alloc,
                line,
                &mut random,
                &noise,
                &mut datagram,
                &mut waiting,
                &mut capture,
            )?;
            if random.happens(FOREIGN) {
                capture.add_foreign()?;
            }
            capture.pass(random.below(PERIOD));
        }
        moments.push(capture.bytes().len()).ok()?;
    }
    Some(Port { capture, moments })
}
