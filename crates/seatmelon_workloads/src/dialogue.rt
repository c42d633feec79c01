//! Two ends that keep the rules, and the capture of what they send.
use crate::capture::Capture;
use crate::traffic::Traffic;
use rasta_cert::Entry;
use rasta_end::Why;
use rasta_pdu::{Body, Channel, Endpoint, Kind, Params, PduParts, Side, encode};
use std::alloc::Global;
use trials_draws::Draws;

/// How many random bytes messages are cut from.
pub const NOISE: usize = 65_536;

// No message is longer.
const LONGEST: u32 = 2048;

const OPENING: Body<&[&[u8]]> = Body::Opening {
    version: *b"0303",
    sendmax: 20,
    reserved: [0; 8],
};

// The most milliseconds between two PDUs of an end.
const PERIOD: u32 = 300;

/// What a PDU says, and why it is made.
#[derive(Clone, Copy)]
enum Says {
    Nothing(Kind, Why),
    Opens(Kind, Why),
    // The messages of a unit.
    Unit(Kind, Why, u32),
}

// An end: the numbers of its next PDU, its clock, what it accepted last, and how many units it offered.
#[derive(Clone, Copy)]
struct End {
    number: u32,
    sn: u32,
    clock: u64,
    accepted_sn: u32,
    accepted_ts: u32,
    units: u32,
}

impl End {
    fn new(random: &mut Draws) -> End {
        End {
            number: random.below(u32::MAX),
            sn: random.below(u32::MAX),
            clock: u64::from(random.below(100_000_000)),
            accepted_sn: 0,
            accepted_ts: 0,
            units: 0,
        }
    }
}

/// A moment: the bytes of the capture and the entries of both ends up to then.
#[derive(Clone, Copy)]
pub struct Moment {
    pub bytes: usize,
    pub client: usize,
    pub server: usize,
}

/// What crossed, and what each end did.
#[derive(Drop)]
pub struct Recorded {
    pub capture: Capture,
    pub client: Vec<Entry>,
    pub server: Vec<Entry>,
}

impl Recorded {
    /// The present moment.
    pub fn moment(&self) -> Moment {
        Moment {
            bytes: self.capture.bytes().len(),
            client: self.client.len(),
            server: self.server.len(),
        }
    }
}

/// Two ends, and what crossed between them.
#[derive(Drop)]
pub struct Dialogue<'a> {
    traffic: Traffic,
    params: &'a Params,
    noise: &'a [u8],
    seed: u32,
    random: Draws,
    client: End,
    server: End,
    recorded: Recorded,
    // How many packets of the connection crossed.
    crossed: u32,
    // The PDU on its way, and a sender's PDU whose copies come late.
    datagram: Vec<u8>,
    held: Vec<u8>,
    held_side: Side,
}

/// Bytes that look random.
pub fn noise(alloc: Global, seed: u32) -> Option<Vec<u8>> {
    let mut random = Draws::sequence(seed, 1);
    let mut bytes = Vec::new(alloc);
    bytes.try_reserve(NOISE).ok()?;
    for _ in 0..NOISE / 8 {
        bytes.extend_from_slice(&random.draw().to_le_bytes()).ok()?;
    }
    Some(bytes)
}

/// The two places between which a PDU of this side crosses on a channel.
pub fn way_of(side: Side, channel: &Channel) -> (Endpoint, Endpoint) {
    match side {
        Side::Client => (channel.client, channel.server),
        Side::Server => (channel.server, channel.client),
    }
}

impl<'a> Dialogue<'a> {
    /// Two ends that sent nothing yet; the capture has room for so many bytes.
    pub fn new(
        alloc: Global,
        traffic: Traffic,
        params: &'a Params,
        noise: &'a [u8],
        seed: u32,
        capacity: usize,
    ) -> Option<Dialogue<'a>> {
        let mut random = Draws::sequence(seed, 2);
        Some(Dialogue {
            traffic,
            params,
            noise,
            seed,
            client: End::new(&mut random),
            server: End::new(&mut random),
            random,
            recorded: Recorded {
                capture: Capture::new(alloc, capacity)?,
                client: Vec::new(alloc),
                server: Vec::new(alloc),
            },
            crossed: 0,
            datagram: Vec::new(alloc),
            held: Vec::new(alloc),
            held_side: Side::Client,
        })
    }

    /// How many packets of the connection crossed.
    pub fn crossed(&self) -> u32 {
        self.crossed
    }

    /// The present moment.
    pub fn moment(&self) -> Moment {
        self.recorded.moment()
    }

    /// What crossed, and what each end did.
    pub fn into_recorded(self) -> Recorded {
        let Dialogue { recorded, .. } = self;
        recorded
    }

    fn end(&mut self, side: Side) -> &mut End {
        match side {
            Side::Client => &mut self.client,
            Side::Server => &mut self.server,
        }
    }

    fn note(&mut self, side: Side, entry: Entry) -> Option<()> {
        match side {
            Side::Client => self.recorded.client.push(entry).ok(),
            Side::Server => self.recorded.server.push(entry).ok(),
        }
    }

    // Lets the time of both ends and of the tap go on.
    fn pass(&mut self, millis: u32) {
        self.client.clock = self.client.clock.wrapping_add(u64::from(millis));
        self.server.clock = self.server.clock.wrapping_add(u64::from(millis));
        self.recorded.capture.pass(millis.wrapping_mul(1000));
    }

    // The messages of a unit of this side, and how many they are: the same ones each time.
    fn unit(&self, side: Side, unit: u32) -> Option<([&'a [u8]; 3], usize)> {
        let sequence = match side {
            Side::Client => 1 << 32,
            Side::Server => 2 << 32,
        };
        let mut random = Draws::sequence(self.seed, sequence | u64::from(unit));
        let noise = self.noise;
        let mut messages: [&'a [u8]; 3] = [&[], &[], &[]];
        let count = random.below(self.traffic.messages.min(3)) as usize + 1;
        for message in &mut messages {
            let len = self
                .traffic
                .least
                .checked_add(random.below(self.traffic.range))?;
            let len = len.min(LONGEST) as usize;
            let at = random.below((NOISE as u32) - LONGEST) as usize;
            *message = noise.get(at..at.checked_add(len)?)?;
        }
        Some((messages, count))
    }

    // Writes a PDU with this body as the next one of its sender.
    fn write_body(&mut self, side: Side, kind: Kind, body: Body<&[&[u8]]>) -> Option<()> {
        let end = *self.end(side);
        let parts = PduParts {
            number: end.number,
            reserve: 0,
            kind,
            sn: end.sn,
            cs: end.accepted_sn,
            ts: u32::try_from(end.clock % (1 << 32)).ok()?,
            cts: end.accepted_ts,
            body,
            check_bytes: &[],
        };
        if !parts.fits(self.params) {
            return None;
        }
        self.datagram.clear();
        encode(self.params, side, &parts, &mut self.datagram).ok()
    }

    // Writes the PDU that says this as the next one of its sender.
    fn write(&mut self, side: Side, says: Says) -> Option<()> {
        match says {
            Says::Nothing(kind, _) => self.write_body(side, kind, Body::Empty),
            Says::Opens(kind, _) => self.write_body(side, kind, OPENING),
            Says::Unit(kind, _, unit) => {
                let (messages, count) = self.unit(side, unit)?;
                self.write_body(side, kind, Body::Messages(messages.get(..count)?))
            }
        }
    }

    // Lets the copies cross that were held back.
    fn release(&mut self) -> Option<()> {
        if self.held.is_empty() {
            return Some(());
        }
        for channel in 1..self.traffic.channels {
            let (from, to) = way_of(self.held_side, self.params.channel().get(channel)?);
            let capture = &mut self.recorded.capture;
            capture.add_datagram(from, to, &self.held)?;
            self.crossed = self.crossed.checked_add(1)?;
        }
        self.held.clear();
        Some(())
    }

    // Lets the PDU that was written cross on a channel.
    fn cross(&mut self, side: Side, channel: usize) -> Option<()> {
        let (from, to) = way_of(side, self.params.channel().get(channel)?);
        let capture = &mut self.recorded.capture;
        capture.add_datagram(from, to, &self.datagram)?;
        self.crossed = self.crossed.checked_add(1)?;
        Some(())
    }

    // Lets the PDU that was written cross on its first channel, and its copies on the others, or holds them back.
    fn cross_all(&mut self, side: Side) -> Option<()> {
        self.cross(side, 0)?;
        self.release()?;
        if self.random.happens(self.traffic.late) {
            self.held.extend_from_slice(&self.datagram).ok()?;
            self.held_side = side;
            return Some(());
        }
        for channel in 1..self.traffic.channels {
            self.cross(side, channel)?;
        }
        Some(())
    }

    // An end takes its peer's PDU of this number.
    fn take(&mut self, taker: Side, number: u32) -> Option<()> {
        let slot = self.crossed;
        self.note(taker, Entry::Take { slot, number })
    }

    // An end makes a PDU, and its peer takes and accepts it, unless it is lost.
    fn send(&mut self, side: Side, says: Says, is_lost: bool) -> Option<()> {
        self.write(side, says)?;
        let end = *self.end(side);
        let (Says::Nothing(_, why) | Says::Opens(_, why) | Says::Unit(_, why, _)) = says;
        let index = self.crossed;
        let clock = end.clock;
        self.note(side, Entry::Make { index, clock, why })?;
        self.cross_all(side)?;
        if self.random.happens(self.traffic.foreign) {
            self.recorded.capture.add_foreign()?;
        }
        if !is_lost {
            self.take(side.other(), end.number)?;
            let ts = u32::try_from(clock % (1 << 32)).ok()?;
            let peer = self.end(side.other());
            peer.accepted_sn = end.sn;
            peer.accepted_ts = ts;
        }
        let end = self.end(side);
        end.number = end.number.wrapping_add(1);
        end.sn = end.sn.wrapping_add(1);
        Some(())
    }

    /// The handshake.
    pub fn open(&mut self) -> Option<()> {
        let request = Says::Opens(Kind::ConnectionRequest, Why::Open);
        self.send(Side::Client, request, false)?;
        self.pass(10);
        let response = Says::Opens(Kind::ConnectionResponse, Why::Reply);
        self.send(Side::Server, response, false)?;
        self.pass(10);
        let heartbeat = Says::Nothing(Kind::Heartbeat, Why::Reply);
        self.send(Side::Client, heartbeat, false)
    }

    fn send_data(&mut self, side: Side, is_lost: bool) -> Option<()> {
        let unit = self.end(side).units;
        self.end(side).units = unit.wrapping_add(1);
        let data = Says::Unit(Kind::Data, Why::Fresh, unit);
        self.send(side, data, is_lost)
    }

    // Data of which the peer misses the first PDU, its request, and all of them again.
    fn send_again(&mut self, side: Side, count: u32) -> Option<()> {
        let peer = side.other();
        let first = *self.end(side);
        for i in 0..count {
            self.send_data(side, true)?;
            self.pass(i % 2);
        }
        self.take(peer, first.number.wrapping_add(1))?;
        let request = Says::Nothing(Kind::RetransmissionRequest, Why::Ask);
        self.send(peer, request, false)?;
        let response = Says::Nothing(Kind::RetransmissionResponse, Why::Reply);
        self.send(side, response, false)?;
        for i in 0..count {
            let unit = first.units.wrapping_add(i);
            let data = Says::Unit(Kind::RetransmittedData, Why::Again(unit), unit);
            self.send(side, data, false)?;
        }
        let heartbeat = Says::Nothing(Kind::Heartbeat, Why::Beat);
        self.send(side, heartbeat, false)
    }

    /// What an end does next: it sends data or a heartbeat, or much that is lost and sent again.
    pub fn go_on(&mut self, side: Side) -> Option<()> {
        let millis = self.random.below(PERIOD);
        self.pass(millis);
        if self.random.happens(self.traffic.bursts) {
            let count = self.random.below(self.traffic.units);
            self.send_again(side, count.max(2))
        } else if self.random.happens(self.traffic.data) {
            self.send_data(side, false)
        } else {
            let heartbeat = Says::Nothing(Kind::Heartbeat, Why::Beat);
            self.send(side, heartbeat, false)
        }
    }
}
