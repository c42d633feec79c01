//! Certificates.
ghost use Rattle.std.specs.Prelude.{◌≡◌, ◌+◌, ◌≤◌, ◌<◌, length, MatchResult};
ghost use Rattle.rasta_pcap.specs.Fault.{fault_at, too_many_entries};
ghost use Rattle.rasta_cert.specs.Certificate.{is_few, most_entries};

use crate::entry::Entry;
use rasta_pcap::Fault;
use std::marker::Model;

/// The most entries of both scripts together.
pub const MOST_ENTRIES: usize = 4_000_000;

/// The scripts of both ends: at most 4,000,000 entries together.
#[derive(Drop)]
pub struct Certificate {
    client: Vec<Entry>,
    server: Vec<Entry>,
}

impl Model for Certificate {
    ghost use Rattle.std.specs.Prelude.{◌+◌, ◌≤◌, length};
    ghost use Rattle.rasta_cert.specs.Certificate.{Scripts, most_entries};

    ghost Value = { Scripts };

    ghost view = { λ c. record { client = c.client.items; server = c.server.items } };

    ghost invariant = { λ c. length c.client.items + length c.server.items ≤ most_entries };
}

impl Certificate {
    /// The certificate of these scripts. Refused by [`Fault::TOO_MANY_ENTRIES`] at place 0, and then the
    /// scripts are given up.
    pub fn new(client: Vec<Entry>, server: Vec<Entry>) -> Result<Certificate, Fault>
        ensures { MatchResult result
            (λ c. (c ≡ record { client = client.items; server = server.items }) × is_few c)
            (λ f. (f ≡ fault_at too_many_entries 0) × (most_entries < length client.items + length server.items)) }
    {
        if client.len() <= MOST_ENTRIES && server.len() <= MOST_ENTRIES - client.len() {
            Ok(Certificate { client, server })
        } else {
            Err(Fault::at(Fault::TOO_MANY_ENTRIES, 0))
        }
    }

    /// The client's script.
    pub fn client(&self) -> &[Entry]
        ensures script { result.now ≡ self.now.client }
        ensures few { is_few self.now }
    {
        self.client.as_slice()
    }

    /// The server's script.
    pub fn server(&self) -> &[Entry]
        ensures script { result.now ≡ self.now.server }
        ensures few { is_few self.now }
    {
        self.server.as_slice()
    }
}
