//! Runs of two ends and a network, by rows: step by step, and steps that are not allowed.
ghost use Rattle.trials_plain.specs.Moving.{IsBelow};

use super::checks::{ROWS, certificate};
use rasta_cert::{Certificate, Entry};
use rasta_end::Why;
use rasta_pdu::{Params, Side};
use std::alloc::Global;
use std::process::Abort;
use trials_plain::world::{Move, PlainWorld};
use trials_rows::{datagrams, lines_of, params_of, pdu_of, side_at};

// A row: its name; the steps that lead up to a move, and the move, which is not allowed. A step is that
// of a station: it waits up to a clock; it makes the PDU of a line on a channel, for a reason; its packet
// of a place crosses again on a channel; the PDU of a position of its peer arrives, or is taken.
const NOT_ALLOWED: &str = "\
clock that falls | client wait 1000 | client wait 999
arrival of what was never made | client wait 1000, client make 0 1 open | server arrive 1
take of what has not arrived | client wait 1000, client make 0 1 open | server take 0
take below the mark | client wait 1000, client make 0 1 open, server arrive 0, server take 0, server wait 9000, server make 1 1 reply | server take 0
take past the deadline | client wait 1000, client make 0 1 open, server arrive 0, server take 0, server wait 9000, server make 1 1 reply, client arrive 0, client take 0, client wait 1010, client make 2 1 reply, server arrive 1, server take 1, client wait 1020, client make 3 1 fresh, server arrive 2, server wait 10801 | server take 2
take twice at the deadline | client wait 1000, client make 0 1 open, server arrive 0, server take 0, server wait 9000, server make 1 1 reply, client arrive 0, client take 0, client wait 1010, client make 2 1 reply, server arrive 1, server take 1, client wait 1020, client make 3 1 fresh, server arrive 2, server wait 10800, server take 2 | server take 2
make for another reason | client wait 1000 | client make 0 1 reply
make at another clock | client wait 1001 | client make 0 1 open
make on a channel that is not recorded | client wait 1000 | client make 0 3 open
make under another redundancy number | client wait 1010 | client make 2 1 open
make of the other side's bytes | server wait 1000 | server make 0 1 open
copy of a packet of the other side | client wait 1000, client make 0 1 open, client repeat 0 2 | server repeat 0 1
copy of what never crossed | client wait 1000, client make 0 1 open | client repeat 1 1
copy on a channel that is not recorded | client wait 1000, client make 0 1 open | client repeat 0 0
";

// Whether a move is allowed; none where memory runs out.
fn may<'a>(world: &mut PlainWorld<'a>, side: Side, what: Move<'a>) -> Option<bool>
    requires { IsBelow what }
{
    world.moves(side, what).ok()
}

fn may_take(world: &mut PlainWorld, side: Side, position: u32) -> Option<bool> {
    if position < 1 << 31 {
        may(world, side, Move::Take { position })
    } else {
        None
    }
}

fn may_make<'a>(
    world: &mut PlainWorld<'a>,
    side: Side,
    channel: u8,
    payload: &'a [u8],
    why: Why,
) -> Option<bool> {
    may(
        world,
        side,
        Move::Make {
            channel,
            payload,
            why,
        },
    )
}

// The line of a packet, and its channel.
fn line_of(packet: &str) -> Option<(usize, u8)> {
    let mut parts = packet.split('@');
    let line = parts.next()?.parse().ok()?;
    Some((line, parts.next().unwrap_or("1").parse().ok()?))
}

// The place of the first packet of a line.
fn first_place(packets: &str, line: usize) -> Option<u32> {
    let mut place: u32 = 0;
    for packet in packets.split(' ') {
        if line_of(packet)?.0 == line {
            return Some(place);
        }
        place = place.checked_add(1)?;
    }
    None
}

// A row of verdicts: what crossed, and both scripts.
#[derive(Clone, Copy)]
struct Row<'a> {
    params: Params,
    lines: &'static str,
    all: &'a [Vec<u8>],
    packets: &'a str,
    certificate: &'a Certificate,
}

impl<'a> Row<'a> {
    fn script(&self, side: Side) -> &'a [Entry] {
        match side {
            Side::Client => self.certificate.client(),
            Side::Server => self.certificate.server(),
        }
    }

    // The redundancy number of a side's position 0, which is that of the quiet PDU at a quiet start.
    fn first_number(&self, side: Side) -> Option<u32> {
        let base = u32::from(self.params.quiet().is_some());
        for packet in self.packets.split(' ') {
            let line = line_of(packet)?.0;
            if side_at(self.lines, line)? == side {
                let first = pdu_of(&self.params, self.lines, self.all, line)?;
                return Some(first.number().wrapping_sub(base));
            }
        }
        None
    }

    // The position of the PDU with a redundancy number.
    fn position(&self, side: Side, number: u32) -> Option<u32> {
        Some(number.wrapping_sub(self.first_number(side)?))
    }

    // Takes what the script of a side takes after so many packets.
    fn takes(&self, world: &mut PlainWorld<'a>, side: Side, packets: u32) -> Option<bool> {
        for entry in self.script(side) {
            if let Entry::Take { slot, number } = *entry
                && slot == packets
            {
                let position = self.position(side.other(), number)?;
                let arrives = may(world, side, Move::Arrive { position })?;
                if !arrives || !may_take(world, side, position)? {
                    return Some(false);
                }
            }
        }
        Some(true)
    }

    // Sends the packet of a place: it is made where the script says so, else it is a copy.
    fn sends(&self, world: &mut PlainWorld<'a>, packet: &str, place: u32) -> Option<bool> {
        let (line, channel) = line_of(packet)?;
        let side = side_at(self.lines, line)?;
        for entry in self.script(side) {
            if let Entry::Make { index, clock, why } = *entry
                && index == place
            {
                let payload = self.all.get(line)?.as_slice();
                let waits = may(world, side, Move::Wait { clock })?;
                return Some(waits && may_make(world, side, channel, payload, why)?);
            }
        }
        let place = first_place(self.packets, line)?;
        may(world, side, Move::Repeat { place, channel })
    }

    // Whether each step of both scripts is allowed.
    fn runs(&self, world: &mut PlainWorld<'a>) -> Option<bool> {
        let mut place = 0;
        for packet in self.packets.split(' ') {
            if !self.takes(world, Side::Client, place)?
                || !self.takes(world, Side::Server, place)?
                || !self.sends(world, packet, place)?
            {
                return Some(false);
            }
            place = place.checked_add(1)?;
        }
        Some(self.takes(world, Side::Client, place)? && self.takes(world, Side::Server, place)?)
    }

    // Whether just the packets of the row crossed.
    fn are_crossed(&self, world: &PlainWorld) -> Option<bool> {
        let mut crossed = world.crossed().iter();
        for packet in self.packets.split(' ') {
            let (line, channel) = line_of(packet)?;
            let found = crossed.next()?;
            if found.channel != channel
                || found.side != side_at(self.lines, line)?
                || found.payload != self.all.get(line)?.as_slice()
            {
                return Some(false);
            }
        }
        Some(crossed.next().is_none())
    }
}

// Whether the packets of a row cross in a run that both scripts tell.
fn is_run(alloc: Global, row: &Row<'_>) -> Option<bool> {
    let client_number = row.first_number(Side::Client)?;
    let server_number = row.first_number(Side::Server)?;
    let mut world = PlainWorld::start(alloc, &row.params, client_number, server_number);
    Some(row.runs(&mut world)? && row.are_crossed(&world)?)
}

// The same for a row that is explained.
fn is_row_run(alloc: Global, row: &str) -> Option<bool> {
    let mut parts = row.split(" | ").skip(1);
    let (connection, word) = parts.next()?.split_once(' ')?;
    let lines = lines_of(connection)?;
    let params = params_of(word)?;
    let packets = parts.next()?;
    let (client, server) = (parts.next()?, parts.next()?);
    if !parts.next()?.contains(';') {
        return Some(true);
    }
    let all = datagrams(alloc, &params, lines)?;
    let certificate = certificate(alloc, client, server)?;
    let row = Row {
        params,
        lines,
        all: all.as_slice(),
        packets,
        certificate: &certificate,
    };
    is_run(alloc, &row)
}

#[test]
fn worked_rows_are_runs(rt: HostRuntime) {
    for row in ROWS.lines() {
        assert_eq!(rt; is_row_run(rt.alloc(), row), Some(true), "{row}");
    }
}

// The reason that a word of a certificate gives.
fn why_of(alloc: Global, word: &str) -> Option<Why> {
    let entry = format!(in alloc; "make 0 0 {word}").ok()?;
    match *certificate(alloc, entry.as_str(), "-")?.client().first()? {
        Entry::Make { why, .. } => Some(why),
        Entry::Take { .. } => None,
    }
}

// Whether the step is allowed; none where it is no step.
fn step<'a>(
    alloc: Global,
    world: &mut PlainWorld<'a>,
    all: &'a [Vec<u8>],
    text: &str,
) -> Option<bool> {
    let mut words = text.split(' ');
    let side = match words.next()? {
        "client" => Side::Client,
        _ => Side::Server,
    };
    let verb = words.next()?;
    let number: u32 = words.next()?.parse().ok()?;
    match verb {
        "wait" => may(
            world,
            side,
            Move::Wait {
                clock: u64::from(number),
            },
        ),
        "arrive" => may(world, side, Move::Arrive { position: number }),
        "take" => may_take(world, side, number),
        "repeat" => {
            let channel = words.next()?.parse().ok()?;
            may(
                world,
                side,
                Move::Repeat {
                    place: number,
                    channel,
                },
            )
        }
        _ => {
            let payload = all.get(number as usize)?.as_slice();
            let channel = words.next()?.parse().ok()?;
            let why = why_of(alloc, words.next()?)?;
            may_make(world, side, channel, payload, why)
        }
    }
}

// Whether the steps of a row are allowed, and its move isn't.
fn is_row_not_allowed(alloc: Global, row: &str) -> Option<bool> {
    let lines = lines_of("data")?;
    let params = params_of("plain")?;
    let all = datagrams(alloc, &params, lines)?;
    let mut world = PlainWorld::start(alloc, &params, 7, 40);
    let mut parts = row.split(" | ").skip(1);
    let (steps, last) = (parts.next()?, parts.next()?);
    for text in steps.split(", ") {
        if !step(alloc, &mut world, all.as_slice(), text)? {
            return Some(false);
        }
    }
    Some(!step(alloc, &mut world, all.as_slice(), last)?)
}

#[test]
fn some_moves_are_not_allowed(rt: HostRuntime) {
    for row in NOT_ALLOWED.lines() {
        assert_eq!(rt; is_row_not_allowed(rt.alloc(), row), Some(true), "{row}");
    }
}
