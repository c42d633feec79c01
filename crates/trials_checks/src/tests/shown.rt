//! What packets that begin anywhere show.
use rasta_check::{ResentUnit, Shown, ShownLists, ShownUnit, store};
use rasta_pcap::Counted;
use rasta_pdu::{Datagram, Params};
use std::alloc::Global;
use std::process::Abort;
use trials_rows::{datagram, file_of, params_of, side_of};

// Packets in the order in which they crossed, and what they show: how many it rests on, the place from which on they
// can't be held together, then the client's data, the server's, the client's that were sent again, and the server's,
// each place with that of its proof. A line `-` is a packet that is no PDU.

// Both data are sent again; what is confirmed in between conveys one of them.
const BURST: &str = "\
server 1 6240 10 5 0 0 data01
server 2 6240 11 5 0 0 data02
server 3 6213 12 5 0 0 -
client 1 6220 50 12 0 0 -
server 4 6241 13 5 0 0 data01
client 2 6220 51 13 0 0 -
server 5 6241 14 5 0 0 data02
client 3 6220 52 14 0 0 -
server 6 6220 15 5 0 0 -";

// The burst isn't known to end.
const OPEN_BURST: &str = "\
server 1 6240 10 5 0 0 data01
server 2 6240 11 5 0 0 data02
server 3 6213 12 5 0 0 -
server 4 6241 13 5 0 0 data01
client 1 6220 50 13 0 0 -";

// A disconnection request ends no burst.
const CUT_BURST: &str = "\
server 1 6240 10 5 0 0 data01
server 2 6240 11 5 0 0 data02
server 3 6213 12 5 0 0 -
server 4 6241 13 5 0 0 data01
server 5 6216 14 5 0 0 bye0
client 1 6220 50 13 0 0 -";

// A PDU that the tap missed is confirmed, and the next one tells that no burst goes on there. SNs wrap, and a copy shows
// nothing new.
const HOLE: &str = "\
client 1 6240 4294967294 70 0 0 data11
server 1 6220 70 4294967293 0 0 -
client 2 6240 4294967295 70 0 0 data12
-
client 4 6240 1 70 0 0 data01
server 2 6240 71 0 0 0 data01
server 3 6220 72 2 0 0 -
client 4 6240 1 70 0 0 data01
client 5 6220 2 71 0 0 -";

// The packets begin in a burst, of which the last data wasn't confirmed.
const JOINED_BURST: &str = "\
client 9 6213 5 70 0 0 -
client 10 6241 6 70 0 0 data01
client 11 6241 7 70 0 0 data02
client 12 6220 8 70 0 0 -
server 1 6220 70 4 0 0 -
server 2 6220 71 6 0 0 -
client 13 6240 9 71 0 0 data03";

// Of both data that are sent again, the second was captured before.
const HALF_BURST: &str = "\
client 8 6240 3 70 0 0 data02
client 9 6213 4 70 0 0 -
client 10 6241 5 70 0 0 data01
client 11 6241 6 70 0 0 data02
server 1 6220 70 3 0 0 -
client 12 6240 7 70 0 0 data03
server 2 6220 71 7 0 0 -
client 13 6220 8 71 0 0 -";

// Two PDUs have one SN.
const TWO_TYPES: &str = "\
client 1 6240 3 70 0 0 data01
server 1 6220 70 3 0 0 -
client 1 6220 3 70 0 0 -
client 2 6240 4 70 0 0 data02
server 2 6220 71 4 0 0 -";

// Of two SNs it isn't known which is ahead.
const FAR_APART: &str = "\
client 1 6240 3 70 0 0 data01
client 2147483649 6240 2147483651 70 0 0 data02";

// Another connection begins, whose SNs lie otherwise ahead of the redundancy numbers; and one whose SNs lie so, but whose
// opening has a later TS than the PDUs before it.
const REOPENED: &str = "\
client 1 6240 3 70 0 0 data01
server 1 6220 70 3 0 0 -
client 0 6200 900 0 0 0 open
client 1 6240 901 70 0 0 data02
server 2 6220 71 901 0 0 -";

const RESTARTED: &str = "\
client 5 6240 5 70 100 0 data01
server 1 6220 70 5 100 0 -
client 0 6200 0 0 101 0 open";

// The opening crosses again.
const LATE_OPENING: &str = "\
client 5 6240 5 70 100 0 data01
client 0 6200 0 0 99 0 open
server 1 6220 70 5 100 0 -";

// A PDU lies 4,095 SNs behind one that was captured before it, and one 4,096.
const BEHIND: &str = "\
client 4096 6240 4098 70 0 0 data02
client 1 6240 3 70 0 0 data01";

const FAR_BEHIND: &str = "\
client 4097 6240 4099 70 0 0 data02
client 1 6240 3 70 0 0 data01";

// Data that are sent again lie 4,095 SNs ahead of the first, and 4,096.
const EARLY_BURST: &str = "\
client 9 6220 5 70 0 0 -
client 4104 6241 4100 70 0 0 data01
client 4105 6220 4101 70 0 0 -
server 1 6220 70 4100 0 0 -";

const LATE_BURST: &str = "\
client 9 6220 5 70 0 0 -
client 4105 6241 4101 70 0 0 data01
client 4106 6220 4102 70 0 0 -
server 1 6220 70 4101 0 0 -";

const ROWS: [(&str, &str); 15] = [
    (BURST, "9 None: ; 0>5 1>7; ; "),
    (OPEN_BURST, "5 None: ; 0>- 1>-; ; "),
    (CUT_BURST, "6 None: ; 0>- 1>-; ; "),
    (HOLE, "9 None: 0>5 2>5 4>6; 5>8; ; "),
    (JOINED_BURST, "7 None: 6>-; ; 1>5 2>-; "),
    (HALF_BURST, "8 None: 0>4 5>6; ; 2>6; "),
    (TWO_TYPES, "2 Some(2): 0>1; ; ; "),
    (FAR_APART, "1 Some(1): 0>-; ; ; "),
    (REOPENED, "2 Some(2): 0>1; ; ; "),
    (RESTARTED, "2 Some(2): 0>1; ; ; "),
    (LATE_OPENING, "3 None: 0>2; ; ; "),
    (BEHIND, "2 None: 1>- 0>-; ; ; "),
    (FAR_BEHIND, "1 Some(1): 0>-; ; ; "),
    (EARLY_BURST, "4 None: ; ; 1>3; "),
    (LATE_BURST, "4 None: ; ; ; "),
];

// A place, and that of its proof.
fn pair(alloc: Global, place: u32, proof: Option<u32>) -> Option<String> {
    match proof {
        Some(proof) => format!(in alloc; "{place}>{proof}").ok(),
        None => format!(in alloc; "{place}>-").ok(),
    }
}

// Adds a place to a list.
fn with_pair(alloc: Global, list: &str, place: u32, proof: Option<u32>) -> Option<String> {
    let pair = pair(alloc, place, proof)?;
    if list.is_empty() {
        return Some(pair);
    }
    format!(in alloc; "{list} {pair}").ok()
}

fn data(alloc: Global, units: &[ShownUnit]) -> Option<String> {
    let mut list = String::new(alloc);
    for unit in units {
        list = with_pair(alloc, list.as_str(), unit.data_place, unit.proof_place)?;
    }
    Some(list)
}

fn resent(alloc: Global, units: &[ResentUnit]) -> Option<String> {
    let mut list = String::new(alloc);
    for unit in units {
        list = with_pair(alloc, list.as_str(), unit.place, unit.proof_place)?;
    }
    Some(list)
}

// What is shown, as a row writes it.
fn text(alloc: Global, shown: &Shown) -> Option<String> {
    let lists: ShownLists = shown.lists(alloc).ok()?;
    let (client, server) = (data(alloc, &lists.client)?, data(alloc, &lists.server)?);
    let again = resent(alloc, &lists.client_resent)?;
    let server_again = resent(alloc, &lists.server_resent)?;
    let (packets, contradiction) = (lists.packets, shown.contradiction());
    format!(in alloc;
        "{packets} {contradiction:?}: {client}; {server}; {again}; {server_again}"
    ).ok()
}

// Takes in the packet of a line.
fn add(alloc: Global, params: &Params, shown: &mut Shown, line: &str) -> Option<()> {
    let payload = if line == "-" {
        Vec::new(alloc)
    } else {
        datagram(alloc, params, line)?
    };
    let packet = Datagram {
        side: side_of(line),
        channel: 1,
        payload: payload.as_slice(),
    };
    shown.add(&packet).ok()
}

// Whether the packets of these lines show what is wanted.
fn is_shown(alloc: Global, lines: &str, want: &str) -> Option<bool> {
    let params = params_of("plain")?;
    let mut shown = Shown::new(alloc, params);
    for line in lines.lines() {
        add(alloc, &params, &mut shown, line)?;
    }
    Some(text(alloc, &shown)?.as_str() == want)
}

#[test]
fn packets_show_so(rt: HostRuntime) {
    for (lines, want) in ROWS {
        assert_eq!(rt; is_shown(rt.alloc(), lines, want), Some(true), "{lines}");
    }
}

// Whether what is stored of a file shows what is wanted.
fn is_store_shown(alloc: Global, packets: &str, want: &str) -> Option<bool> {
    let (params, file) = file_of(alloc, "data plain", packets)?;
    let stored = store(alloc, params, &mut Counted::new(file.as_slice())).ok()?;
    let shown = Shown::of_store(alloc, &stored).ok()?;
    Some(text(alloc, &shown)?.as_str() == want)
}

#[test]
fn stores_show_so(rt: HostRuntime) {
    let want = "6 None: 4>5; ; ; ";
    assert_eq!(rt;
        is_store_shown(rt.alloc(), "0 0@2 1 2 3 4", want),
        Some(true)
    );
}
