//! Which packets of a window are signs of life of their end, how long the ends are silent, and how the connection goes on.
ghost use Rattle.std.specs.Prelude.{◌≡◌, ◌++◌, [], List, slice_get};
ghost use Rattle.std.specs.List.{cons_option};
ghost use Rattle.rasta_udp.specs.Frame.{packet_of};
ghost use Rattle.seatmelon_reading.specs.Silences.{IsSearch};
ghost use Rattle.seatmelon_reading.specs.Tapes.{taped_as};
ghost use Rattle.seatmelon_reading.specs.declared.notes.Sighting.{Sighting};
ghost use Rattle.seatmelon_reading.specs.declared.reading.Reading.{Reading};
ghost use Rattle.seatmelon_account.specs.Lives.{AreSilences, IsWatch, Lives, lives_crossed, lives_next, lives_of, lives_with_sign, sightings_of, silence_to_end};
ghost use Rattle.seatmelon_account.specs.Middle.{packet_of_numbered};

use rasta_check::{SentList, SpanList, Store};
use rasta_pcap::Side;
use rasta_pdu::{Datagram, Params};
use seatmelon_middle::{Course, Disconnection};
use seatmelon_reading::{
    LastRecord, LastSilence, Reading, Sighting, Silence, SilenceSearch, Taped,
};

/// How long an end gave no sign of life: no new PDU. Late copies of earlier PDUs are none.
#[derive(Clone, Copy)]
pub struct EndSilences {
    /// The longest silence between two signs of life, and the first of those that are as long; none where the end gave
    /// fewer than two.
    pub longest: Option<Silence>,

    /// From its last sign of life to the last record of the window; none where a disconnection request crossed, or the
    /// end gave no sign of life.
    pub to_end: Option<LastSilence>,
}

/// The packets so far: how the connection goes on, and the signs of life of both ends.
#[derive(Clone, Copy)]
pub struct Watch {
    course: Course,
    client: SilenceSearch,
    server: SilenceSearch,
}

// Takes in the packet at a place as a sign of life, if it was seen there.
fn add_at(search: &mut SilenceSearch, packets: &[Sighting], place: u32)
    ensures { (signs : List Sighting) → IsSearch signs search.old
        → IsSearch (signs ++ cons_option (slice_get packets.now place) []) search.new }
{
    if let Some(packet) = packets.get(place as usize) {
        search.add(*packet);
    }
}

// The signs of life of an end that sent these first copies.
fn search_of(packets: &[Sighting], copies: &SpanList<'_>) -> SilenceSearch
    ensures { IsSearch (sightings_of packets.now copies.now) result }
{
    let mut search = SilenceSearch::new();
    for position in 0..copies.len() {
        if let Some((place, _)) = copies.get(position) {
            add_at(&mut search, packets, place);
        }
    }
    search
}

impl Watch {
    // By what crossed.
    fn of_store(packets: &[Sighting], store: &Store) -> Watch
        ensures { IsWatch (lives_crossed packets.now store.now) result }
    {
        Watch {
            course: Course::of_store(store),
            client: search_of(packets, &store.client()),
            server: search_of(packets, &store.server()),
        }
    }

    // Takes in the packet at a place as a sign of life of an end.
    fn add_sign(&mut self, packets: &[Sighting], side: Side, place: u32)
        ensures { (l : Lives) → IsWatch l self.old → IsWatch (lives_with_sign packets.now l side place) self.new }
    {
        match side {
            Side::Client => add_at(&mut self.client, packets, place),
            Side::Server => add_at(&mut self.server, packets, place),
        }
    }

    // Takes in the next packet behind what crossed.
    fn add(&mut self, params: &Params, packets: &[Sighting], packet: &Datagram<'_>)
        ensures { (l : Lives) → IsWatch l self.old
            → IsWatch (lives_next params.now packets.now l (packet_of packet.now)) self.new }
    {
        let place = self.course.packets;
        if self.course.add(params, packet) {
            self.add_sign(packets, packet.side, place);
        }
    }

    // Takes in the next packet that was kept behind what crossed.
    fn add_taped(&mut self, params: &Params, packets: &[Sighting], taped: &Taped)
        ensures { (l : Lives) → IsWatch l self.old
            → IsWatch (lives_next params.now packets.now l (packet_of_numbered (taped_as taped.now))) self.new }
    {
        let packet = Datagram {
            side: taped.sender,
            channel: taped.channel,
            payload: taped.datagram.as_slice(),
        };
        self.add(params, packets, &packet);
    }
}

/// How the connection goes on by the packets of the window, and the signs of life of both ends.
pub fn watch_of(reading: &Reading) -> Watch
    ensures { IsWatch (lives_of reading.now) result }
{
    let packets = reading.notes.packets.as_slice();
    let params = reading.store.params();
    let mut watch = Watch::of_store(packets, &reading.store);
    for taped in &reading.unjudged.packets {
        watch.add_taped(&params, packets, taped);
    }
    watch
}

// From the last sign of life of an end to the last record of the window, unless a disconnection request crossed.
fn silence_to_end(
    ending: Option<Disconnection>,
    before: Option<Sighting>,
    last: Option<LastRecord>,
) -> Option<LastSilence>
    ensures { result ≡ silence_to_end ending before last }
{
    match (ending, before, last) {
        (None, Some(before), Some(end)) => Some(LastSilence { before, end }),
        _ => None,
    }
}

impl Watch {
    /// How the connection goes on.
    pub fn course(&self) -> Course
        ensures { result ≡ self.now.course }
    {
        self.course
    }

    // The silences of an end, by its signs of life.
    fn silences_by(&self, search: SilenceSearch, last: Option<LastRecord>) -> EndSilences
        ensures longest { result.longest ≡ search.longest }
        ensures to_end { result.to_end ≡ silence_to_end self.now.course.ending search.last last }
    {
        EndSilences {
            longest: search.longest,
            to_end: silence_to_end(self.course.ending, search.last, last),
        }
    }

    /// The silences of the client and of the server, by the packets of the window, whose last record is that.
    pub fn silences(&self, last: Option<LastRecord>) -> [EndSilences; 2]
        ensures { (r : Reading) → IsWatch (lives_of r) self.now → last ≡ r.notes.last → AreSilences r result }
    {
        [
            self.silences_by(self.client, last),
            self.silences_by(self.server, last),
        ]
    }
}
