//! Parameters as they are made: their values, ports and channels.
use rasta_pdu::{Channel, Endpoint, Params, Quiet, QuietEnd, are_distinct_routes};
use std::alloc::Global;
use std::process::Abort;
use trials_rows::{CHANNELS, RFC_WORDS, params};

/// All values, in the order of their keys.
pub fn values_of(alloc: Global, p: &Params) -> Option<String> {
    let [a, b, c, d] = p.md4_start();
    let words = format!(in alloc; "{a:08x}{b:08x}{c:08x}{d:08x}").ok()?;
    let lengths = (p.code_length(), p.check_length());
    let limits = (p.n_sendmax(), p.t_max(), p.slack());
    let window = (p.first_record(), p.last_record());
    let ids = (p.client_id(), p.server_id());
    let front = format!(in alloc; "{ids:?} {lengths:?} {words} {limits:?} {window:?}").ok()?;
    let channels = p.channel();
    let quiet = p.quiet();
    format!(in alloc; "{front} {channels:?} {quiet:?}").ok()
}

const VALUES: &str =
    "(96, 97) (16, 4) 67452301efcdab8998badcfe10325476 (20, 1800, 5) (3, 8) [Channel { client: Endpoint { address: [10, 0, 0, 1], port: 5000 }, server: Endpoint { address: [10, 0, 0, 2], port: 5000 } }, Channel { client: Endpoint { address: [10, 0, 1, 1], port: 5001 }, server: Endpoint { address: [10, 0, 1, 2], port: 5001 } }] Some(Quiet { client: QuietEnd { next_sn: 102, clock: 1010, deadline: None, handed_ts: None }, server: QuietEnd { next_sn: 501, clock: 9000, deadline: Some(10800), handed_ts: Some(9000) } })";

const CLIENT: QuietEnd = QuietEnd {
    next_sn: 102,
    clock: 1010,
    deadline: None,
    handed_ts: None,
};

const SERVER: QuietEnd = QuietEnd {
    next_sn: 501,
    clock: 9000,
    deadline: Some(10_800),
    handed_ts: Some(9000),
};

fn made() -> Option<Params> {
    let quiet = Quiet {
        client: CLIENT,
        server: SERVER,
    };
    Params::new(
        96,
        97,
        16,
        RFC_WORDS,
        4,
        20,
        1800,
        5,
        3,
        8,
        CHANNELS.as_slice(),
        Some(quiet),
    )
}

// Whether parameters are made, and have their values.
fn are_kept(alloc: Global) -> Option<bool> {
    Some(values_of(alloc, &made()?)?.as_str() == VALUES)
}

#[test]
fn values_are_kept(rt: HostRuntime) {
    assert_eq!(rt; are_kept(rt.alloc()), Some(true));
}

// The ports of the client and of the server, and whether there are such parameters.
const PORTS: &str = "\
0 5000 false
5000 0 false
1 5000 true
5000 1 true
65535 5000 true
5000 65535 true
";

fn are_parameters(client_port: u16, server_port: u16) -> bool {
    let channel = Channel {
        client: Endpoint {
            address: [10, 0, 0, 1],
            port: client_port,
        },
        server: Endpoint {
            address: [10, 0, 0, 2],
            port: server_port,
        },
    };
    Params::new(96, 97, 0, RFC_WORDS, 0, 20, 1800, 0, 1, 8, &[channel], None).is_some()
}

fn answer(row: &str) -> Option<bool> {
    let mut words = row.split(' ');
    let client = words.next()?.parse().ok()?;
    let server = words.next()?.parse().ok()?;
    Some(are_parameters(client, server) == (words.next()? == "true"))
}

#[test]
fn ports_begin_at_1(rt: HostRuntime) {
    for row in PORTS.lines() {
        assert_eq!(rt; answer(row), Some(true), "{row}");
    }
}

#[test]
fn channels_have_routes_of_their_own(rt: HostRuntime) {
    let [first, second] = CHANNELS;
    assert!(rt; are_distinct_routes(&[first, second]));
    assert!(rt; !are_distinct_routes(&[first, second, first]));
}

// The server's clock has passed its deadline by one more than a slack of 5.
#[test]
fn clock_is_not_past_its_deadline(rt: HostRuntime) {
    let late = QuietEnd {
        clock: 10_806,
        ..SERVER
    };
    let quiet = Quiet {
        client: CLIENT,
        server: late,
    };
    assert_eq!(rt; (quiet.is_valid(5), quiet.is_valid(6)), (false, true));
    assert!(rt; params(20, 5, Some(quiet)).is_none());
    assert!(rt; params(20, 6, Some(quiet)).is_some());
}
