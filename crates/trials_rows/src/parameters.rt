//! Parameters that rows name.
use rasta_pdu::{Channel, Endpoint, Params, Quiet, QuietEnd};

// The channel of these ports between the hosts of this number.
macro_rules! channel {
    ($hosts:literal, $port:literal) => {
        Channel {
            client: Endpoint { address: [10, 0, $hosts, 1], port: $port },
            server: Endpoint { address: [10, 0, $hosts, 2], port: $port },
        }
    };
}

/// Both channels of the rows.
pub const CHANNELS: [Channel; 2] = [channel!(0, 5000), channel!(1, 5001)];

/// The start words of RFC 1320, section 3.3.
pub const RFC_WORDS: [u32; 4] = [0x6745_2301, 0xefcd_ab89, 0x98ba_dcfe, 0x1032_5476];

// Parameters without codes, of the records up to this one.
fn uncoded(n_sendmax: u16, slack: u16, last_record: u32, quiet: Option<Quiet>) -> Option<Params> {
    Params::new(
        96,
        97,
        0,
        RFC_WORDS,
        0,
        n_sendmax,
        1800,
        slack,
        1,
        last_record,
        &CHANNELS,
        quiet,
    )
}

/// Parameters of the whole file, without codes.
pub fn params(n_sendmax: u16, slack: u16, quiet: Option<Quiet>) -> Option<Params> {
    uncoded(n_sendmax, slack, 4_000_000_000, quiet)
}

// Parameters with these lengths of codes and these start words.
fn coded(code_length: u8, words: [u32; 4], check_length: u8) -> Option<Params> {
    Params::new(
        96,
        97,
        code_length,
        words,
        check_length,
        20,
        1800,
        0,
        1,
        4_000_000_000,
        &CHANNELS,
        None,
    )
}

fn quiet_end(next_sn: u32, clock: u64, deadline: Option<u64>) -> QuietEnd {
    QuietEnd {
        next_sn,
        clock,
        deadline,
        handed_ts: None,
    }
}

// A quiet point with this SN and this deadline of the client.
fn quiet(next_sn: u32, deadline: Option<u64>) -> Option<Quiet> {
    Some(Quiet {
        client: quiet_end(next_sn, 1010, deadline),
        server: quiet_end(501, 9000, Some(10_800)),
    })
}

/// The parameters that a word names.
pub fn params_of(word: &str) -> Option<Params> {
    match word {
        "plain" => params(20, 0, None),
        "slack" => params(20, 5, None),
        "narrow" => params(1, 0, None),
        "quiet" => params(20, 0, quiet(102, None)),
        "other" => params(20, 0, quiet(103, None)),
        "far" => params(20, 0, quiet(102, Some(9_000_000_000_000))),
        "first2" => uncoded(20, 0, 2, None),
        "code16" => coded(16, RFC_WORDS, 0),
        "code8" => coded(8, RFC_WORDS, 0),
        "zeros16" => coded(16, [0; 4], 0),
        "check4" => coded(0, RFC_WORDS, 4),
        "check2" => coded(0, RFC_WORDS, 2),
        _ => None,
    }
}
