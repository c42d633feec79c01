//! The channels of a connection.
ghost use Rattle.std.specs.Prelude.{◌≡◌, ◌≤◌, IfErr, vec_capacity};
ghost use Rattle.rasta_pcap.specs.Fault.{no_memory};
ghost use Rattle.seatmelon_connections.specs.Hosts.{channel_of, knows_host, other_end, reversed, shares_host};

use rasta_pcap::Fault;
use rasta_udp::Channel;
use std::alloc::Global;

// How many channels of a connection are told apart.
const MOST_CHANNELS: usize = 16;

/// Which of the two ends.
#[derive(Clone, Copy)]
pub enum End {
    /// The one that sent the connection's first captured packet.
    First,

    /// The other one.
    Second,
}

impl End {
    /// The other one.
    pub(crate) fn other(self) -> End
        ensures { result ≡ other_end self }
    {
        match self {
            End::First => End::Second,
            End::Second => End::First,
        }
    }
}

/// How many packets crossed on a channel in each direction, and in which record the first one. Its client is
/// the first end.
#[derive(Clone, Copy)]
pub struct ChannelCounts {
    pub channel: Channel,
    pub first_record: u32,
    pub to_second: u64,
    pub to_first: u64,
}

/// The channel with its ends exchanged.
pub fn reversed(channel: &Channel) -> Channel
    ensures { result ≡ reversed channel.now }
{
    Channel {
        client: channel.server,
        server: channel.client,
    }
}

/// The channel of a packet that this end sent on this way.
pub fn channel_of(sender: End, route: &Channel) -> Channel
    ensures { result ≡ channel_of sender route.now }
{
    match sender {
        End::First => *route,
        End::Second => reversed(route),
    }
}

// Whether an end has the same address on both channels.
fn shares_host(one: &Channel, other: &Channel) -> bool
    ensures { result ≡ shares_host one.now other.now }
{
    one.client.address == other.client.address || one.server.address == other.server.address
}

impl ChannelCounts {
    // No packet yet; the first one is in this record.
    fn new(channel: Channel, first_record: u32) -> ChannelCounts {
        ChannelCounts {
            channel,
            first_record,
            to_second: 0,
            to_first: 0,
        }
    }

    // Counts a packet that this end sent.
    fn add(&mut self, sender: End) {
        match sender {
            End::First => self.to_second = self.to_second.saturating_add(1),
            End::Second => self.to_first = self.to_first.saturating_add(1),
        }
    }
}

/// The channels of a connection, of which 16 are told apart.
#[derive(Drop)]
pub struct Channels {
    counts: Vec<ChannelCounts>,

    /// How many packets crossed on others.
    pub on_others: u64,
    ghost has_room: { 16 ≤ vec_capacity counts },
}

impl Channels {
    /// None yet, with room for all that are told apart.
    ///
    /// Refused by [`Fault::NO_MEMORY`].
    pub(crate) fn new(alloc: Global) -> Result<Channels, Fault>
        ensures err { IfErr result (λ f. f ≡ no_memory) }
    {
        Ok(Channels {
            counts: Vec::with_capacity(alloc, MOST_CHANNELS)?,
            on_others: 0,
        })
    }

    /// The channels, in the order of their first packets.
    pub fn counts(&self) -> &[ChannelCounts] {
        self.counts.as_slice()
    }

    fn find(&self, channel: Channel) -> Option<usize> {
        self.counts
            .iter()
            .position(|counts| counts.channel == channel)
    }

    /// Whether one of the two hosts between which this end sends on this way has an address that its end has on one of
    /// these channels.
    pub(crate) fn knows_host(&self, sender: End, route: &Channel) -> bool
        ensures { result ≡ knows_host self.now.counts.items sender route.now }
    {
        let channel = channel_of(sender, route);
        self.counts
            .iter()
            .any(|counts| shares_host(&counts.channel, &channel))
    }

    /// Counts a packet in this record that this end sent on this way. No memory is taken.
    pub(crate) fn add(&mut self, sender: End, route: &Channel, record: u32) {
        let channel = channel_of(sender, route);
        if let Some(place) = self.find(channel) {
            if let Some(counts) = self.counts.get_mut(place) {
                counts.add(sender);
            }
            return;
        }
        if self.counts.len() >= MOST_CHANNELS {
            self.on_others = self.on_others.saturating_add(1);
            return;
        }
        let mut counts = ChannelCounts::new(channel, record);
        counts.add(sender);
        self.counts.push_reserved(counts);
    }
}
