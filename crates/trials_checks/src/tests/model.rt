//! What two sent lists show, by rows: which units the ends surely took.
use rasta_pdu::{Params, Side};
use std::alloc::Global;
use std::process::Abort;
use trials_plain::taken::{FirstCopy, TakenUnit, surely_taken, units_conveyed};
use trials_rows::{datagrams, lines_of, params_of, pdu_of, side_at};

// A row: its name; its lines and parameters; the packets that crossed, each by its line; the units that
// the client surely took, and those that the server did. A unit is the number of its messages, the place
// of its data PDU among the packets, and the place of its proof.
const ROWS: &str = "\
handshake | data plain | 0 1 2 | - | -
handed up once | data plain | 0 1 2 3 4 | - | 2 3 4
no proof | data plain | 0 1 2 3 | - | -
numbers wrap | wrapped plain | 0 1 2 3 4 | - | 1 3 4
lost unit is resent | lost plain | 0 1 2 3 4 5 6 7 8 9 10 | - | 1 3 10, 1 4 10
capture ends in a burst | lost plain | 0 1 2 3 4 5 6 7 15 | - | 1 3 8
lost resend and second request | lost plain | 0 1 2 3 4 5 6 7 8 16 17 18 19 20 | - | 1 3 13, 1 4 13
both ends ask | crossed plain | 0 1 2 3 4 5 6 7 8 9 10 11 12 13 14 15 16 | 1 4 15, 1 6 15 | 1 3 16, 1 5 16
quiet start | quiet quiet | 0 1 | - | 2 0 1
";

// The packets of a side; none where a row is no row or memory runs out.
fn sent<'a>(
    alloc: Global,
    params: &Params,
    lines: &str,
    all: &'a [Vec<u8>],
    packets: &str,
    side: Side,
) -> Option<Vec<FirstCopy<'a>>> {
    let mut copies = Vec::new(alloc);
    for (place, line) in packets.split(' ').enumerate() {
        let line = line.parse().ok()?;
        if side_at(lines, line)? == side {
            let copy = FirstCopy {
                place: u32::try_from(place).ok()?,
                pdu: pdu_of(params, lines, all, line)?,
            };
            copies.push(copy).ok()?;
        }
    }
    Some(copies)
}

fn message_count(unit: &TakenUnit) -> usize {
    let mut count: usize = 0;
    for _ in unit.pdu.messages() {
        count = count.saturating_add(1);
    }
    count
}

fn is_unit(unit: &TakenUnit, want: &str) -> Option<bool> {
    let mut words = want.split(' ');
    Some(
        words.next()?.parse().ok() == Some(message_count(unit))
            && words.next()?.parse().ok() == Some(unit.data_place)
            && words.next()?.parse().ok() == Some(unit.proof_place),
    )
}

fn are_units(units: &[TakenUnit], want: &str) -> Option<bool> {
    let mut wanted = want.split(", ");
    if want == "-" {
        return Some(units.is_empty());
    }
    for unit in units {
        if !is_unit(unit, wanted.next()?)? {
            return Some(false);
        }
    }
    Some(wanted.next().is_none())
}

// Both lists of what crossed: the client's and the server's.
#[derive(Drop)]
struct Lists<'a> {
    client: Vec<FirstCopy<'a>>,
    server: Vec<FirstCopy<'a>>,
}

fn both_lists<'a>(
    alloc: Global,
    params: &Params,
    lines: &str,
    all: &'a [Vec<u8>],
    packets: &str,
) -> Option<Lists<'a>> {
    Some(Lists {
        client: sent(alloc, params, lines, all, packets, Side::Client)?,
        server: sent(alloc, params, lines, all, packets, Side::Server)?,
    })
}

#[test]
fn taken_by_rows(rt: HostRuntime) {
    for row in ROWS.lines() {
        assert_eq!(rt; is_told(rt.alloc(), row, Table::Taken), Some(true), "{row}");
    }
}

// A row: its name; its lines and parameters; the packets; and the units conveyed through each position of what the
// client made, and of what the server did. A retransmission response takes them back to what was asked for.
const CONVEYED: &str = "\
lost unit is resent | lost plain | 0 1 2 3 4 5 6 7 8 9 10 | [0, 0, 1, 2, 0, 1, 2, 2] | [0, 0, 0]
quiet start | quiet quiet | 0 1 | [0, 1] | [0, 0]
";

// What a table tells of the units of a side: those that its peer took, or how many each position conveyed.
#[derive(Clone, Copy)]
enum Table {
    Taken,
    Conveyed,
}

// Whether this is told of the units of a side.
fn are_told(
    alloc: Global,
    table: Table,
    params: &Params,
    side: Side,
    own: &[FirstCopy],
    peer: &[FirstCopy],
    want: &str,
) -> Option<bool> {
    match table {
        Table::Taken => {
            let taken = surely_taken(alloc, params, side, own, peer).ok()?;
            are_units(taken.as_slice(), want)
        }
        Table::Conveyed => {
            let units = units_conveyed(alloc, params, side, own, peer).ok()?;
            let text = format!(in alloc; "{:?}", units.as_slice()).ok()?;
            Some(text.as_str() == want)
        }
    }
}

// Whether the units of a row are as its table tells.
fn is_told(alloc: Global, row: &str, table: Table) -> Option<bool> {
    let mut parts = row.split(" | ").skip(1);
    let (connection, word) = parts.next()?.split_once(' ')?;
    let (lines, params) = (lines_of(connection)?, params_of(word)?);
    let packets = parts.next()?;
    let (first, second) = (parts.next()?, parts.next()?);
    let all = datagrams(alloc, &params, lines)?;
    let lists = both_lists(alloc, &params, lines, all.as_slice(), packets)?;
    let (client, server) = (lists.client.as_slice(), lists.server.as_slice());
    // What an end took is of its peer.
    let (of_client, of_server) = match table {
        Table::Taken => (second, first),
        Table::Conveyed => (first, second),
    };
    Some(
        are_told(
            alloc,
            table,
            &params,
            Side::Client,
            client,
            server,
            of_client,
        )? && are_told(
            alloc,
            table,
            &params,
            Side::Server,
            server,
            client,
            of_server,
        )?,
    )
}

#[test]
fn units_are_conveyed_so(rt: HostRuntime) {
    for row in CONVEYED.lines() {
        assert_eq!(rt;
            is_told(rt.alloc(), row, Table::Conveyed),
            Some(true),
            "{row}"
        );
    }
}
