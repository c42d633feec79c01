//! Which connections record which hosts.
ghost use Rattle.std.specs.Prelude.{◌≡◌, ◌<◌, ◌≤◌, ◌+◌, ◌^◌, ℕ, List, length, IfOk, OnOk};
ghost use Rattle.std.specs.List.{Contains};
ghost use Rattle.rasta_pdu.specs.Params.{Parameters};
ghost use Rattle.seatmelon_audit.specs.Hosts.{bucket_of, hosts_between};
ghost use Rattle.seatmelon_audit.specs.Ways.{AreSorted, AreStarts, AreWithin, KnowsAll, KnowsChannels, NamesAll, way_of, ways_between};
ghost use Rattle.seatmelon_audit.specs.declared.ways.Way.{Way};

use crate::hosts::{hosts_between, hosts_of};
use rasta_pdu::Params;
use rasta_udp::{Channel, Endpoint};
use std::alloc::{AllocError, Global};

// How many buckets there are for each way.
const BUCKETS_OF_WAY: usize = 4;

// More ways than these get no more buckets: there are at most 65,536.
const MOST_WAYS: usize = 0x4000;

// Spreads hosts over the buckets: the golden ratio in 64 bits.
const SPREAD: u64 = 0x9e37_79b9_7f4a_7c15;

/// A way from one host to another that a connection records.
#[derive(Clone, Copy)]
pub struct Way {
    /// The addresses of both hosts.
    pub hosts: u64,

    /// The place of the connection among all.
    pub line: u32,
}

/// The ways of all connections, in buckets by their hosts.
#[derive(Drop)]
pub struct Ways {
    pub(crate) sorted: Vec<Way>,
    // Where each bucket begins among the sorted, and where the last one ends.
    starts: Vec<usize>,
    buckets: u32,
    ghost some: { 0 < buckets },
    ghost size: { length starts.items ≡ buckets + 1 },
    ghost order: { AreStarts buckets sorted.items starts.items },
    ghost within: { AreWithin sorted.items starts.items },
}

// How many buckets there are for so many ways.
fn bucket_count(ways: usize) -> u32
    ensures some { 0 < result }
    ensures most { result ≤ 2 ^ 16 }
{
    (ways.clamp(1, MOST_WAYS) * BUCKETS_OF_WAY) as u32
}

// The bucket in which ways between these hosts are.
#[tactic(auto, unfolding(crate::specs::Hosts::bucket_of))]
fn bucket_of(hosts: u64, buckets: u32) -> u32
    ensures { result ≡ bucket_of hosts buckets }
{
    let spread = (hosts.wrapping_mul(SPREAD) >> 32) as u32;
    (u64::from(spread) * u64::from(buckets) >> 32) as u32
}

// Where each bucket begins, and where the last one ends.
fn starts_of(alloc: Global, sorted: &[Way], buckets: u32) -> Result<Vec<usize>, AllocError>
    requires sorted { AreSorted buckets sorted.now }
    requires most { buckets + 1 < 2 ^ 32 }
    ensures size { IfOk result (λ starts. length starts.items ≡ buckets + 1) }
    ensures order { IfOk result (λ starts. AreStarts buckets sorted.now starts.items) }
    ensures within { IfOk result (λ starts. AreWithin sorted.now starts.items) }
{
    let mut starts = Vec::new(alloc);
    for bucket in 0..buckets + 1 {
        starts.push(sorted.partition_point(|way| bucket_of(way.hosts, buckets) < bucket))?;
    }
    Ok(starts)
}

// Adds a way of a connection.
fn add_way(
    ways: &mut Vec<Way>,
    line: u32,
    source: &Endpoint,
    destination: &Endpoint,
) -> Result<(), AllocError>
    ensures added { OnOk result (Contains ways.new.items (way_of (hosts_between source.now destination.now) line)) }
    ensures kept { OnOk result ((w : Way) → Contains ways.old.items w → Contains ways.new.items w) }
{
    ways.push(Way {
        hosts: hosts_between(source, destination),
        line,
    })?;
    Ok(())
}

// Adds both ways over a channel of a connection.
fn add_channel(ways: &mut Vec<Way>, line: u32, channel: &Channel) -> Result<(), AllocError>
    ensures added { OnOk result (Contains ways.new.items (way_of (hosts_between channel.now.client channel.now.server) line)
        × Contains ways.new.items (way_of (hosts_between channel.now.server channel.now.client) line)) }
    ensures kept { OnOk result ((w : Way) → Contains ways.old.items w → Contains ways.new.items w) }
{
    add_way(ways, line, &channel.client, &channel.server)?;
    add_way(ways, line, &channel.server, &channel.client)
}

// Adds both ways over each channel of a connection.
fn add_channels(ways: &mut Vec<Way>, line: u32, channels: &[Channel]) -> Result<(), AllocError>
    ensures added { OnOk result (KnowsChannels ways.new.items line channels.now) }
    ensures kept { OnOk result ((w : Way) → Contains ways.old.items w → Contains ways.new.items w) }
{
    for channel in channels {
        add_channel(ways, line, channel)?;
    }
    Ok(())
}

// The ways of all connections.
fn ways_of(alloc: Global, params: &[Params]) -> Result<Vec<Way>, AllocError>
    requires { length params.now < 2 ^ 32 }
    ensures { IfOk result (λ ways. KnowsAll ways.items params.now) }
{
    let mut ways = Vec::new(alloc);
    for (line, recorded) in params.iter().enumerate() {
        add_channels(&mut ways, line as u32, recorded.channel())?;
    }
    Ok(ways)
}

impl Ways {
    ghost use Rattle.seatmelon_audit.specs.Sorting.{sorted_in};

    /// The ways of connections with these parameters.
    pub fn new(alloc: Global, params: &[Params]) -> Result<Ways, AllocError>
        requires { length params.now < 2 ^ 32 }
        ensures { IfOk result (λ ways. KnowsAll (sorted_in ways) params.now) }
    {
        let mut sorted = ways_of(alloc, params)?;
        let buckets = bucket_count(sorted.len());
        sorted.sort_unstable_by_key(|way| bucket_of(way.hosts, buckets));
        let starts = starts_of(alloc, &sorted, buckets)?;
        Ok(Ways {
            sorted,
            starts,
            buckets,
        })
    }

    // The ways between these hosts, and perhaps some of others in their bucket.
    fn between(&self, hosts: u64) -> &[Way]
        ensures { (w : Way) → w.hosts ≡ hosts → Contains (sorted_in self.now) w → Contains result.now w }
    {
        let bucket = bucket_of(hosts, self.buckets) as usize;
        let start = self.starts[bucket];
        let end = self.starts[bucket + 1];
        if start <= end {
            &self.sorted[start..end]
        } else {
            &[]
        }
    }

    /// The hosts of a frame, and the ways between them, perhaps with some of other hosts. Those between them name each
    /// connection of which it can hold a packet, or a faulty one of its hosts. A connection that records these hosts twice
    /// is named twice.
    pub fn of_frame(&self, frame: &[u8]) -> (u64, &[Way])
        ensures { (params : List Parameters) → KnowsAll (sorted_in self.now) params → NamesAll (ways_between result.0 result.1.now) params frame.now }
    {
        match hosts_of(frame) {
            Some(hosts) => (hosts, self.between(hosts)),
            None => (0, &[]),
        }
    }
}
