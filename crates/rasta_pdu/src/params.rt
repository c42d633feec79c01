//! The recorded parameters of a connection.
ghost use Rattle.std.specs.Prelude.{◌≡◌, ◌↔◌, length, IsTrue, IfSome};
ghost use Rattle.std.specs.List.{list_all};
ghost use Rattle.rasta_pdu.specs.Params.{Parameters, AreChannels, AreLengths, AreLimits, AreMade, AreParameters, IsQuiet, IsWindow, has_ports};

use crate::quiet_point::Quiet;
use crate::route::are_distinct_routes;
use rasta_udp::{Channel, Endpoint};
use std::marker::Model;

/// The parameters that are recorded of a connection: values that it can have, by which its capture is
/// read and judged.
#[derive(Clone, Copy)]
pub struct Params {
    client_id: u32,
    server_id: u32,
    code_length: u8,
    md4_start: [u32; 4],
    check_length: u8,
    n_sendmax: u16,
    t_max: u16,
    slack: u16,
    first_record: u32,
    last_record: u32,
    channels: [Channel; 4],
    channel_count: usize,
    quiet: Option<Quiet>,
}

impl Model for Params {
    ghost use Rattle.rasta_pdu.specs.Params.{Parameters};

    ghost Value = { Parameters };

    ghost use Rattle.rasta_pdu.specs.Stored.{parameters_of, AreStored, stored, stored-parameters_of};

    ghost view = { parameters_of };

    ghost invariant = { AreStored };

    ghost inverse = { stored };

    ghost inverse_ok = { stored-parameters_of };
}

const NOWHERE: Endpoint = Endpoint {
    address: [0; 4],
    port: 0,
};

const UNUSED: Channel = Channel {
    client: NOWHERE,
    server: NOWHERE,
};

fn are_lengths(code_length: u8, check_length: u8) -> bool
    ensures { IsTrue result ↔ AreLengths code_length check_length }
{
    matches!(code_length, 0 | 8 | 16) && matches!(check_length, 0 | 2 | 4)
}

fn are_limits(n_sendmax: u16, t_max: u16, slack: u16) -> bool
    ensures { IsTrue result ↔ AreLimits n_sendmax t_max slack }
{
    n_sendmax >= 1 && (1..=60_000).contains(&t_max) && slack <= 1000
}

fn is_window(first_record: u32, last_record: u32) -> bool
    ensures { IsTrue result ↔ IsWindow first_record last_record }
{
    1 <= first_record && first_record <= last_record && last_record <= 4_000_000_000
}

fn has_ports(channel: &Channel) -> bool
    ensures { result ≡ has_ports channel.now }
{
    channel.client.port >= 1 && channel.server.port >= 1
}

fn have_ports(channels: &[Channel]) -> bool
    ensures { result ≡ list_all has_ports channels.now }
{
    channels.iter().all(has_ports)
}

fn are_channels(channels: &[Channel]) -> bool
    ensures { IsTrue result ↔ AreChannels channels.now }
{
    let has_ports = have_ports(channels);
    (1..=4).contains(&channels.len()) && has_ports && are_distinct_routes(channels)
}

fn is_quiet(slack: u16, quiet: Option<Quiet>) -> bool
    ensures { IsTrue result ↔ IfSome quiet (IsQuiet slack) }
{
    match quiet {
        Some(quiet) => quiet.is_valid(slack),
        None => true,
    }
}

impl Params {
    /// The parameters of these values, in the order of their keys; none where a value is out of its
    /// range, where the ids are the same, where two of the channels' ways have the same source and
    /// destination, or where an end's clock at the quiet point has passed its deadline by more than the
    /// slack.
    ///
    /// `code_length` (0, 8 or 16) and `check_length` (0, 2 or 4) are bytes; `t_max` (1 to 60,000) and
    /// `slack` (0 to 1,000) are milliseconds; the records are numbered from 1 to 4,000,000,000; there are
    /// 1 to 4 channels, with UDP ports from 1. Without a quiet point both ends are followed from their
    /// opening.
    pub fn new(
        client_id: u32,
        server_id: u32,
        code_length: u8,
        md4_start: [u32; 4],
        check_length: u8,
        n_sendmax: u16,
        t_max: u16,
        slack: u16,
        first_record: u32,
        last_record: u32,
        channels: &[Channel],
        quiet: Option<Quiet>,
    ) -> Option<Params>
        ensures { AreMade result (record {
          client_id = client_id;
          server_id = server_id;
          code_length = code_length;
          md4_start = md4_start;
          check_length = check_length;
          n_sendmax = n_sendmax;
          t_max = t_max;
          slack = slack;
          first_record = first_record;
          last_record = last_record;
          channels = channels.now;
          quiet = quiet;
        }) }
    {
        let has_lengths = are_lengths(code_length, check_length);
        let has_limits = are_limits(n_sendmax, t_max, slack);
        let has_window = is_window(first_record, last_record);
        let has_channels = are_channels(channels);
        let has_quiet = is_quiet(slack, quiet);
        let is_valid = client_id != server_id
            && has_lengths
            && has_limits
            && has_window
            && has_channels
            && has_quiet;
        if !is_valid {
            return None;
        }
        let mut places = [UNUSED; 4];
        places[..channels.len()].copy_from_slice(channels);
        Some(Params {
            client_id,
            server_id,
            code_length,
            md4_start,
            check_length,
            n_sendmax,
            t_max,
            slack,
            first_record,
            last_record,
            channels: places,
            channel_count: channels.len(),
            quiet,
        })
    }

    /// The id of the client.
    pub fn client_id(&self) -> u32
        ensures value { result ≡ self.now.client_id }
        ensures valid { AreParameters self.now }
    {
        self.client_id
    }

    /// The id of the server.
    pub fn server_id(&self) -> u32
        ensures value { result ≡ self.now.server_id }
        ensures valid { AreParameters self.now }
    {
        self.server_id
    }

    /// The length of the safety code, in bytes.
    pub fn code_length(&self) -> u8
        ensures value { result ≡ self.now.code_length }
        ensures valid { AreParameters self.now }
    {
        self.code_length
    }

    /// The start words of the MD4 digest that safety codes are taken from.
    pub fn md4_start(&self) -> [u32; 4]
        ensures value { result ≡ self.now.md4_start }
        ensures valid { AreParameters self.now }
    {
        self.md4_start
    }

    /// The length of the check code of the redundancy layer, in bytes.
    pub fn check_length(&self) -> u8
        ensures value { result ≡ self.now.check_length }
        ensures valid { AreParameters self.now }
    {
        self.check_length
    }

    /// The recorded N_sendmax, by which sequence numbers ahead are told.
    pub fn n_sendmax(&self) -> u16
        ensures value { result ≡ self.now.n_sendmax }
        ensures valid { AreParameters self.now }
    {
        self.n_sendmax
    }

    /// The greatest age of a PDU, T_max, in milliseconds.
    pub fn t_max(&self) -> u16
        ensures value { result ≡ self.now.t_max }
        ensures valid { AreParameters self.now }
    {
        self.t_max
    }

    /// By how much a deadline may be missed, in milliseconds.
    pub fn slack(&self) -> u16
        ensures value { result ≡ self.now.slack }
        ensures valid { AreParameters self.now }
    {
        self.slack
    }

    /// The number of the first record of the window, from 1.
    pub fn first_record(&self) -> u32
        ensures value { result ≡ self.now.first_record }
        ensures valid { AreParameters self.now }
    {
        self.first_record
    }

    /// The number of the last record of the window.
    pub fn last_record(&self) -> u32
        ensures value { result ≡ self.now.last_record }
        ensures valid { AreParameters self.now }
    {
        self.last_record
    }

    /// The redundancy channels, in their order.
    pub fn channel(&self) -> &[Channel]
        ensures value { result.now ≡ self.now.channels }
        ensures valid { AreParameters self.now }
    {
        &self.channels[..self.channel_count]
    }

    /// The quiet point from which the ends are followed; none where they are followed from their
    /// opening.
    pub fn quiet(&self) -> Option<Quiet>
        ensures value { result ≡ self.now.quiet }
        ensures valid { AreParameters self.now }
    {
        self.quiet
    }
}
