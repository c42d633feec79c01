//! How a connection goes on, and how it ends, as far as its packets tell.
ghost use Rattle.std.specs.Prelude.{◌≡◌, length, filter, nat_eq};
ghost use Rattle.rasta_udp.specs.Frame.{packet_of};
ghost use Rattle.rasta_pdu.specs.Pdu.{value_of};
ghost use Rattle.rasta_check.specs.Middle.Kept.{is_opening, offset_of};
ghost use Rattle.rasta_end.specs.State.{ahead_by};
ghost use Rattle.seatmelon_middle.specs.Course.{begins_another, crossed_course, disconnection_at, earlier_of, first_disconnection, further_behind, is_behind, is_new, is_of_before, is_sign, is_sign_of_life, latest_among, latest_in, latest_of, repeated_behind, skips, with_ending, with_gap, with_latest, with_new, with_packet, with_pdu, with_repeated};
ghost use Rattle.rasta_pcap.specs.declared.fault.Side.TheVariants.{Client, Server};

use rasta_check::{SentList, SpanList, Store};
use rasta_pcap::Side;
use rasta_pdu::{Body, Datagram, Kind, Params, Pdu, decode};

// Of two numbers that lie less than half of their range from each other, it is known which is ahead.
const HALF_RANGE: u32 = 1 << 31;

/// What the latest PDU of an end says.
#[derive(Clone, Copy)]
pub struct Latest {
    number: u32,

    // How far its SN lies ahead of its redundancy number.
    lead: u32,
    ts: u32,
}

/// A disconnection request.
#[derive(Clone, Copy)]
pub struct Disconnection {
    pub side: Side,

    /// The place of its first packet among those of the connection, counted from 0.
    pub place: u32,
    pub detail: u16,
    pub reason: u16,
}

/// How a connection goes on, and how it ends.
#[derive(Clone, Copy)]
pub struct Course {
    /// How many packets were taken in.
    pub packets: u32,

    client: Option<Latest>,
    server: Option<Latest>,

    /// The disconnection request that crossed first, if one did.
    pub ending: Option<Disconnection>,

    /// How many new PDUs crossed behind it.
    pub further: u64,

    /// How many PDUs that are none, as late copies, crossed behind it.
    pub repeated: u64,

    /// The place of the packet that opens another connection, if one does. What stands behind it isn't counted.
    pub reopening: Option<u32>,

    /// How many new PDUs behind what crossed have another number than the one after that of their end's latest.
    pub gaps: u64,

    /// The place of the last of these.
    pub last_gap: Option<u32>,
}

// How far the SN of a PDU lies ahead of its redundancy number.
fn lead_of(pdu: &Pdu<'_>) -> u32
    ensures { result ≡ offset_of (value_of pdu.now) }
{
    pdu.sn().wrapping_sub(pdu.number())
}

// Whether a PDU opens a connection.
fn is_opening(kind: Kind) -> bool
    ensures { result ≡ is_opening kind }
{
    matches!(kind, Kind::ConnectionRequest | Kind::ConnectionResponse)
}

/// The disconnection request that a side's PDU at a place is, if it is one.
pub fn disconnection_at(side: Side, place: u32, pdu: &Pdu<'_>) -> Option<Disconnection>
    ensures { result ≡ disconnection_at side place (value_of pdu.now) }
{
    if !pdu.kind().is(Kind::DisconnectionRequest) {
        return None;
    }
    match pdu.body() {
        Body::Bye { detail, reason } => Some(Disconnection {
            side,
            place,
            detail,
            reason,
        }),
        Body::Opening { .. } | Body::Messages(_) | Body::Empty => None,
    }
}

// The first disconnection request of a side that sent these first copies.
fn first_disconnection(side: Side, copies: &SpanList<'_>) -> Option<Disconnection>
    ensures { result ≡ first_disconnection side copies.now }
{
    for position in 0..copies.len() {
        if let Some((place, pdu)) = copies.get(position) {
            let found = disconnection_at(side, place, &pdu);
            if found.is_some() {
                return found;
            }
        }
    }
    None
}

// Of the first disconnection requests of both sides the one that crossed first.
fn earlier_of(one: Option<Disconnection>, other: Option<Disconnection>) -> Option<Disconnection>
    ensures { result ≡ earlier_of one other }
{
    match (one, other) {
        (Some(one), Some(other)) if one.place <= other.place => Some(one),
        (Some(one), None) => Some(one),
        _ => other,
    }
}

// How many of these first copies crossed behind a place.
fn count_behind(place: u32, copies: &SpanList<'_>) -> u32
    ensures { result ≡ length (filter (is_behind place) copies.now) }
{
    let mut count = 0;
    for position in 0..copies.len() {
        if let Some((at, _)) = copies.get(position) {
            if at > place {
                count += 1;
            }
        }
    }
    count
}

// How many first copies crossed behind a disconnection request.
fn further_behind(store: &Store, ending: Option<Disconnection>) -> u64
    ensures { result ≡ further_behind store.now ending }
{
    match ending {
        Some(ending) => {
            let client = count_behind(ending.place, &store.client());
            let server = count_behind(ending.place, &store.server());
            u64::from(client) + u64::from(server)
        }
        None => 0,
    }
}

// How many other packets did, where so many first copies did.
fn repeated_behind(store: &Store, ending: Option<Disconnection>, further: u64) -> u64
    requires { further ≡ further_behind store.now ending }
    ensures { result ≡ repeated_behind store.now ending }
{
    match ending {
        Some(ending) => u64::from(store.len())
            .saturating_sub(u64::from(ending.place) + 1)
            .saturating_sub(further),
        None => 0,
    }
}

impl Latest {
    fn of(pdu: &Pdu<'_>) -> Latest
        ensures { result ≡ latest_of (value_of pdu.now) }
    {
        Latest {
            number: pdu.number(),
            lead: lead_of(pdu),
            ts: pdu.ts(),
        }
    }

    // What the last one of these first copies says.
    fn among(copies: &SpanList<'_>) -> Option<Latest>
        ensures { result ≡ latest_among copies.now }
    {
        let last = copies.len().checked_sub(1)?;
        let (_, pdu) = copies.get(last)?;
        Some(Latest::of(&pdu))
    }

    // Whether a PDU has the number after this one's.
    fn is_followed_by(&self, pdu: &Pdu<'_>) -> bool
        ensures { result ≡ nat_eq (ahead_by (value_of pdu.now).number self.now.number) 1 }
    {
        pdu.number().wrapping_sub(self.number) == 1
    }

    // Whether the number of a PDU lies ahead.
    fn is_before(&self, pdu: &Pdu<'_>) -> bool
        ensures { result ≡ is_new (Some self.now) (value_of pdu.now) }
    {
        let ahead = pdu.number().wrapping_sub(self.number);
        0 < ahead && ahead < HALF_RANGE
    }

    // Whether a PDU can have been made before this one.
    fn is_behind(&self, pdu: &Pdu<'_>) -> bool
        ensures { result ≡ is_of_before self.now (value_of pdu.now) }
    {
        lead_of(pdu) == self.lead && self.ts.wrapping_sub(pdu.ts()) < HALF_RANGE
    }
}

impl Course {
    /// By what crossed, of whose sides these are the first disconnection requests.
    pub fn of_crossed(
        store: &Store,
        client: Option<Disconnection>,
        server: Option<Disconnection>,
    ) -> Course
        requires client { client ≡ first_disconnection Client store.now.client }
        requires server { server ≡ first_disconnection Server store.now.server }
        ensures { result ≡ crossed_course store.now }
    {
        let ending = earlier_of(client, server);
        let further = further_behind(store, ending);
        Course {
            packets: store.len(),
            client: Latest::among(&store.client()),
            server: Latest::among(&store.server()),
            ending,
            further,
            repeated: repeated_behind(store, ending, further),
            reopening: None,
            gaps: 0,
            last_gap: None,
        }
    }

    /// By what crossed.
    pub fn of_store(store: &Store) -> Course
        ensures { result ≡ crossed_course store.now }
    {
        let client = first_disconnection(Side::Client, &store.client());
        let server = first_disconnection(Side::Server, &store.server());
        Course::of_crossed(store, client, server)
    }

    // What the latest PDU of a side says.
    fn latest_in(&self, side: Side) -> Option<Latest>
        ensures { result ≡ latest_in self.now side }
    {
        match side {
            Side::Client => self.client,
            Side::Server => self.server,
        }
    }

    // Whether a PDU of a side is new.
    fn is_new(&self, side: Side, pdu: &Pdu<'_>) -> bool
        ensures { result ≡ is_new (latest_in self.now side) (value_of pdu.now) }
    {
        match self.latest_in(side) {
            Some(latest) => latest.is_before(pdu),
            None => true,
        }
    }

    // Whether a PDU of a side begins another connection.
    fn begins_another(&self, side: Side, pdu: &Pdu<'_>) -> bool
        ensures { result ≡ begins_another (latest_in self.now side) (value_of pdu.now) }
    {
        match self.latest_in(side) {
            Some(latest) => is_opening(pdu.kind()) && !latest.is_behind(pdu),
            None => false,
        }
    }

    // Whether a new PDU of a side isn't the one after its latest.
    fn skips(&self, side: Side, pdu: &Pdu<'_>) -> bool
        ensures { result ≡ skips (latest_in self.now side) (value_of pdu.now) }
    {
        match self.latest_in(side) {
            Some(latest) => !latest.is_followed_by(pdu),
            None => false,
        }
    }

    // Counts a new PDU of a side, if it isn't the one after its latest.
    fn count_gap(&mut self, side: Side, pdu: &Pdu<'_>)
        ensures { self.new ≡ with_gap self.old side (value_of pdu.now) }
    {
        if self.skips(side, pdu) {
            self.gaps = self.gaps.saturating_add(1);
            self.last_gap = Some(self.packets);
        }
    }

    // Keeps a disconnection request, or counts what is behind it.
    fn see_ending(&mut self, side: Side, pdu: &Pdu<'_>)
        ensures { self.new ≡ with_ending self.old side (value_of pdu.now) }
    {
        if self.ending.is_some() {
            self.further = self.further.saturating_add(1);
        } else {
            self.ending = disconnection_at(side, self.packets, pdu);
        }
    }

    fn set_latest(&mut self, side: Side, latest: Latest)
        ensures { self.new ≡ with_latest self.old side latest }
    {
        match side {
            Side::Client => self.client = Some(latest),
            Side::Server => self.server = Some(latest),
        }
    }

    // Takes in a new PDU of a side.
    fn add_new(&mut self, side: Side, pdu: &Pdu<'_>)
        ensures { self.new ≡ with_new self.old side (value_of pdu.now) }
    {
        self.count_gap(side, pdu);
        self.see_ending(side, pdu);
        self.set_latest(side, Latest::of(pdu));
    }

    // Takes in a PDU that is no new one.
    fn add_repeated(&mut self)
        ensures { self.new ≡ with_repeated self.old }
    {
        if self.ending.is_some() {
            self.repeated = self.repeated.saturating_add(1);
        }
    }

    // Takes in the PDU of the next packet, and answers whether it is a sign of life of its side.
    fn add_pdu(&mut self, side: Side, pdu: &Pdu<'_>) -> bool
        ensures course { self.new ≡ with_pdu self.old side (value_of pdu.now) }
        ensures sign { result ≡ is_sign self.old side (value_of pdu.now) }
    {
        if self.reopening.is_some() {
            return false;
        }
        if self.begins_another(side, pdu) {
            self.reopening = Some(self.packets);
            return false;
        }
        let is_new = self.is_new(side, pdu);
        if is_new {
            self.add_new(side, pdu);
        } else {
            self.add_repeated();
        }
        is_new
    }

    /// Takes in the next packet behind those that were taken in, and answers whether it is a sign of life of its end: a
    /// new PDU, and no late copy of an earlier one. From the first PDU on that opens another connection none is.
    pub fn add(&mut self, params: &Params, packet: &Datagram<'_>) -> bool
        ensures course { self.new ≡ with_packet params.now self.old (packet_of packet.now) }
        ensures sign { result ≡ is_sign_of_life params.now self.old (packet_of packet.now) }
    {
        let is_sign = match decode(params, packet.side, packet.payload) {
            Ok(pdu) => self.add_pdu(packet.side, &pdu),
            Err(_) => false,
        };
        self.packets = self.packets.saturating_add(1);
        is_sign
    }
}
