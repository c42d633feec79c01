//! What is noted of a capture's records: how many there are, and where the packets of the connection stand.
ghost use Rattle.std.specs.Prelude.{◌≡◌, suc, ◌++◌, ◌∷◌, [], ◌<◌, ◌≤◌, ◌⊎◌, ◌^◌, ℕ, Bool, List, length, None, Some, IfErr, OnOk};
ghost use Rattle.seatmelon_reading.specs.Times.{time_of};
ghost use Rattle.rasta_pcap.specs.Captured.{Captured, numbered};
ghost use Rattle.rasta_pcap.specs.Fault.{no_memory};
ghost use Rattle.rasta_pdu.specs.Params.{Parameters};
ghost use Rattle.rasta_udp.specs.Frame.{packet_of};
ghost use Rattle.seatmelon_reading.specs.Noted.{AreNotes, SameOutside, Seen, count_with, counts_of, last_inside, seen_in, why_passed};
ghost use Rattle.seatmelon_reading.specs.Sights.{IsSightOf};
ghost use Rattle.seatmelon_reading.specs.Window.{StandsSo};

use crate::passed_over::{PassedOver, WhyPassed};
use crate::sight::Sight;
use crate::tape::Tape;
use crate::times::{TimeNotes, time_told};
use crate::window::WindowPlace;
use rasta_pcap::{CaptureTime, Fault, Side};
use rasta_udp::Datagram;
use std::alloc::{AllocError, Global};

/// Where and when a packet was captured, on which channel, and who sent it.
#[derive(Clone, Copy)]
pub struct Sighting {
    /// The number of its record, from 1.
    pub record: u32,

    /// None where the packet has none.
    pub time: Option<CaptureTime>,

    /// The number of its channel, from 1.
    pub channel: u8,

    pub sender: Side,
}

/// The last record of the window.
#[derive(Clone, Copy)]
pub struct LastRecord {
    /// Its number, from 1.
    pub number: u32,

    /// When it was captured; none where it has no time.
    pub time: Option<CaptureTime>,
}

/// How many packets of each end a channel has.
#[derive(Clone, Copy)]
pub struct ChannelCount {
    pub client: u64,
    pub server: u64,
}

/// What is noted of the records that were read.
#[derive(Drop)]
pub struct Notes {
    /// How many there are.
    pub records: u32,

    /// The packets of the connection in the window, by place.
    pub packets: Vec<Sighting>,

    /// How many of these each channel has.
    pub channels: [ChannelCount; 4],

    /// How many packets of the recorded channels stand before the window, and how many behind it.
    pub before: u64,
    pub behind: u64,

    /// How many records hold no packet of the recorded channels.
    pub passed: PassedOver,

    pub times: TimeNotes,

    /// None where the window has no record.
    pub last: Option<LastRecord>,

    /// Whether a time of 0 is none, as in a pcapng file, whose packets may lack one.
    pub zero_is_no_time: bool,

    /// The packets with their datagrams, if they are kept.
    pub tape: Tape,
}

impl ChannelCount {
    // With one packet more of this end.
    fn with(self, side: Side) -> ChannelCount
        ensures { self.client < 2 ^ 32 → self.server < 2 ^ 32 → result ≡ count_with self side }
    {
        let ChannelCount { client, server } = self;
        match side {
            Side::Client => ChannelCount {
                client: client.saturating_add(1),
                server,
            },
            Side::Server => ChannelCount {
                client,
                server: server.saturating_add(1),
            },
        }
    }
}

// The place of a channel among the four that there can be.
fn place_of(channel: u8) -> usize
    ensures within { result < 4 → channel ≡ suc result }
    ensures beyond { 4 ≤ result → (channel ≡ 0) ⊎ (4 < channel) }
{
    usize::from(channel.wrapping_sub(1))
}

// Counts a packet that an end sent on a channel.
fn count(channels: &mut [ChannelCount; 4], channel: u8, sender: Side)
    ensures { (seen : List Seen) (s : Seen) → channels.old ≡ counts_of seen → length seen < 2 ^ 32 → channel ≡ s.packet.channel
        → sender ≡ s.packet.side → channels.new ≡ counts_of (seen ++ s ∷ []) }
{
    let place = place_of(channel);
    if place < channels.len() {
        channels[place] = channels[place].with(sender);
    }
}

// The last record of the window, with one record more, which stands so to it and was captured at this time, if it has one.
fn last_with(
    last: Option<LastRecord>,
    number: u32,
    time: Option<CaptureTime>,
    place: WindowPlace,
) -> Option<LastRecord>
    ensures { (p : Parameters) (zero : Bool) (records : List Captured) (r : Captured) → last ≡ last_inside p zero records → r.number ≡ number
        → time ≡ time_of zero r → StandsSo p number place → result ≡ last_inside p zero (records ++ r ∷ []) }
{
    match place {
        WindowPlace::Inside => Some(LastRecord { number, time }),
        WindowPlace::Before => last,
        WindowPlace::Behind => last,
    }
}

impl Notes {
    /// Of no record.
    pub fn new(alloc: Global, zero_is_no_time: bool, is_taped: bool) -> Notes
        ensures noted { (p : Parameters) (without : List ℕ) → AreNotes p without [] result }
        ensures untimed { result.zero_is_no_time ≡ zero_is_no_time }
    {
        let none = ChannelCount {
            client: 0,
            server: 0,
        };
        Notes {
            records: 0,
            packets: Vec::new(alloc),
            channels: [none; 4],
            before: 0,
            behind: 0,
            passed: PassedOver::NONE,
            times: TimeNotes::NONE,
            last: None,
            zero_is_no_time,
            tape: Tape::new(alloc, is_taped),
        }
    }

    // Takes in a record without a packet of the recorded channels, when it was captured, if it has a time, how it stands to
    // the window, and why.
    fn pass(&mut self, number: u32, time: Option<CaptureTime>, place: WindowPlace, why: WhyPassed)
        ensures noted { (p : Parameters) (without : List ℕ) (records : List Captured) (r : Captured) → AreNotes p without records self.old
            → r.number ≡ number → number ≡ suc (length records) → time ≡ time_of self.old.zero_is_no_time r → StandsSo p number place
            → seen_in p without r ≡ None → why_passed p without r ≡ Some why → AreNotes p without (records ++ r ∷ []) self.new }
        ensures kept { self.new.zero_is_no_time ≡ self.old.zero_is_no_time }
    {
        self.records = number;
        self.times.add(number, time);
        self.last = last_with(self.last, number, time, place);
        self.passed = self.passed.with(why);
    }

    // Takes in a packet in the window.
    fn add_inside(&mut self, sighting: Sighting) -> Result<(), AllocError>
        ensures packets { OnOk result (self.new.packets.items ≡ self.old.packets.items ++ sighting ∷ []) }
        ensures channels { (seen : List Seen) (s : Seen) → self.old.channels ≡ counts_of seen → length seen < 2 ^ 32
            → sighting.channel ≡ s.packet.channel → sighting.sender ≡ s.packet.side
            → OnOk result (self.new.channels ≡ counts_of (seen ++ s ∷ [])) }
        ensures kept { SameOutside self.old self.new }
    {
        self.packets.push(sighting)?;
        count(&mut self.channels, sighting.channel, sighting.sender);
        Ok(())
    }

    // Takes in a record with a packet, when it was captured, if it has a time, and how it stands to the window.
    fn add(
        &mut self,
        alloc: Global,
        number: u32,
        time: Option<CaptureTime>,
        place: WindowPlace,
        found: &Datagram<'_>,
    ) -> Result<(), Fault>
        ensures noted { OnOk result ((p : Parameters) (without : List ℕ) (records : List Captured) (s : Seen) → AreNotes p without records self.old
            → s.captured.number ≡ number → s.captured.number ≡ suc (length records) → time ≡ time_of self.old.zero_is_no_time s.captured
            → StandsSo p number place → seen_in p without s.captured ≡ Some s → s.packet ≡ packet_of found.now
            → AreNotes p without (records ++ s.captured ∷ []) self.new) }
        ensures kept { self.new.zero_is_no_time ≡ self.old.zero_is_no_time }
        ensures err { IfErr result (λ f. f ≡ no_memory) }
    {
        self.records = number;
        self.times.add(number, time);
        self.last = last_with(self.last, number, time, place);
        match place {
            WindowPlace::Before => self.before = self.before.saturating_add(1),
            WindowPlace::Behind => self.behind = self.behind.saturating_add(1),
            WindowPlace::Inside => {
                self.add_inside(Sighting {
                    record: number,
                    time,
                    channel: found.channel,
                    sender: found.side,
                })?;
                self.tape.add(alloc, number, found)?;
            }
        }
        Ok(())
    }

    /// Takes in what a record holds, of which this time was read, and how it stands to the window.
    pub fn note(
        &mut self,
        alloc: Global,
        number: u32,
        time: Option<CaptureTime>,
        place: WindowPlace,
        sight: &Sight<'_>,
    ) -> Result<(), Fault>
        ensures noted { OnOk result ((p : Parameters) (without : List ℕ) (records : List Captured) (r : Captured) → AreNotes p without records self.old
            → r.number ≡ number → r.number ≡ suc (length records) → time ≡ Some r.time → StandsSo p number place
            → IsSightOf p without (numbered r) sight.now → AreNotes p without (records ++ r ∷ []) self.new) }
        ensures kept { self.new.zero_is_no_time ≡ self.old.zero_is_no_time }
        ensures err { IfErr result (λ f. f ≡ no_memory) }
    {
        let time = time_told(self.zero_is_no_time, time);
        match sight.packet() {
            Ok(found) => self.add(alloc, number, time, place, found),
            Err(why) => {
                self.pass(number, time, place, why);
                Ok(())
            }
        }
    }
}
