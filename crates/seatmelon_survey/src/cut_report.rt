//! What a survey says of datagrams that weren't captured whole.
ghost use Rattle.rasta_pcap.specs.Devices.{AsWritten};

use crate::cuts::{CutCount, Cuts, Direction};
use crate::findings::Survey;
use crate::json_report::write_route;
use rasta_pcap::{Fault, Sink};
use rasta_udp::Channel;
use seatmelon_connections::Connection;
use seatmelon_text::json::write_long;
use seatmelon_text::{parts, tell, write_parts_if, write_words};

// How many pairs of ends are told one by one that are in no connection.
const MOST_TOLD: u64 = 32;

// Writes how many bytes of each frame were captured at most, in brackets, where that is known.
fn write_snapshot<W: Sink>(writer: &mut W, survey: &Survey) -> Result<(), Fault>
    ensures written { AsWritten W.failure_count result writer.old writer.new }
{
    match survey.header() {
        Some(header) => tell!(writer, " (snapshot length ", header.snapshot_length, ")"),
        None => Ok(()),
    }
}

/// Writes how many datagrams were captured cut, unless none was.
pub fn write_cuts<W: Sink>(writer: &mut W, survey: &Survey) -> Result<(), Fault>
    ensures written { AsWritten W.failure_count result writer.old writer.new }
{
    let datagrams = survey.cuts().datagrams();
    if datagrams == 0 {
        return Ok(());
    }
    write_words(writer, "UDP datagrams that were captured cut")?;
    write_snapshot(writer, survey)?;
    tell!(writer, ": ", datagrams, "\n")
}

// How many datagrams of a channel were captured cut, both ways.
fn count_of(cuts: &Cuts, channel: &Channel) -> CutCount {
    let there = Direction::of(channel);
    cuts.count(there).and(cuts.count(there.reverse()))
}

/// How many datagrams of a connection's channels were captured cut.
pub fn count_in(cuts: &Cuts, connection: &Connection) -> u64 {
    let mut count = 0u64;
    for counts in connection.channels().counts() {
        count = count.saturating_add(count_of(cuts, &counts.channel).datagrams);
    }
    count
}

/// Writes how many datagrams of a connection's hosts were captured cut, unless none was.
pub fn write_cut_of<W: Sink>(
    writer: &mut W,
    survey: &Survey,
    connection: &Connection,
) -> Result<(), Fault>
    ensures written { AsWritten W.failure_count result writer.old writer.new }
{
    let count = count_in(survey.cuts(), connection);
    if count == 0 {
        return Ok(());
    }
    let words = match count {
        1 => " datagram of these hosts was captured cut",
        _ => " datagrams of these hosts were captured cut",
    };
    tell!(writer, "  ", count, words)?;
    write_snapshot(writer, survey)?;
    write_words(writer, "\n")
}

// Whether a direction is that of some connection's channel, or of its way back.
fn is_known(survey: &Survey, direction: Direction) -> bool {
    let reverse = direction.reverse();
    survey.connections().iter().any(|connection| {
        connection.channels().counts().iter().any(|counts| {
            let there = Direction::of(&counts.channel);
            there == direction || there == reverse
        })
    })
}

// A pair of ends that is told at this place: of a direction that is in no connection, and that came before its way back.
fn pair_at(survey: &Survey, place: usize) -> Option<(Channel, u64)> {
    let cuts = survey.cuts();
    let direction = cuts.direction(place)?;
    let route = direction.route();
    let count = count_of(cuts, &route);
    match cuts.place_of(direction.reverse()) {
        Some(back) if back < place => None,
        _ if count.formed == 0 || is_known(survey, direction) => None,
        _ => Some((route, count.datagrams)),
    }
}

// Writes a pair of ends that is in no connection.
fn write_pair<W: Sink>(
    writer: &mut W,
    survey: &Survey,
    route: &Channel,
    datagrams: u64,
) -> Result<(), Fault>
    ensures written { AsWritten W.failure_count result writer.old writer.new }
{
    let words = match datagrams {
        1 => " datagram\n",
        _ => " datagrams\n",
    };
    write_words(writer, "only in datagrams that were captured cut")?;
    write_snapshot(writer, survey)?;
    tell!(
        writer,
        ": ",
        route.client,
        " - ",
        route.server,
        ", ",
        datagrams,
        words
    )
}

/// Writes between which ends datagrams were captured cut that have the form of RaSTA as far as they go, where no
/// connection has these ends: some of them, and then how many more.
pub fn write_cut_pairs<W: Sink>(writer: &mut W, survey: &Survey) -> Result<(), Fault>
    ensures written { AsWritten W.failure_count result writer.old writer.new }
{
    let mut told = 0u64;
    for place in 0..survey.cuts().directions() {
        let Some((route, datagrams)) = pair_at(survey, place) else {
            continue;
        };
        write_parts_if(writer, told == 0, &parts!["\n"])?;
        if told < MOST_TOLD {
            write_pair(writer, survey, &route, datagrams)?;
        }
        told = told.saturating_add(1);
    }
    let more = told.saturating_sub(MOST_TOLD);
    write_parts_if(
        writer,
        more > 0,
        &parts!["and between ", more, " more pairs of ends\n"],
    )?;
    let further = survey.cuts().further();
    write_parts_if(
        writer,
        further > 0,
        &parts![
            "datagrams of further ends that were captured cut, not told apart: ",
            further,
            "\n"
        ],
    )
}

// Writes a pair of ends that is in no connection, as JSON.
fn write_pair_json<W: Sink>(
    writer: &mut W,
    before: &'static str,
    route: &Channel,
    datagrams: u64,
) -> Result<(), Fault>
    ensures written { AsWritten W.failure_count result writer.old writer.new }
{
    tell!(writer, before, "{\"ends\":")?;
    write_route(writer, route)?;
    write_words(writer, ",\"datagrams\":")?;
    write_long(writer, datagrams)?;
    write_words(writer, "}")
}

/// Writes as JSON what [`write_cut_pairs`] writes as text.
pub fn write_cut_pairs_json<W: Sink>(writer: &mut W, survey: &Survey) -> Result<(), Fault>
    ensures written { AsWritten W.failure_count result writer.old writer.new }
{
    let mut told = 0u64;
    let mut before = "";
    write_words(writer, ",\"only_captured_cut\":[")?;
    for place in 0..survey.cuts().directions() {
        let Some((route, datagrams)) = pair_at(survey, place) else {
            continue;
        };
        if told < MOST_TOLD {
            write_pair_json(writer, before, &route, datagrams)?;
            before = ",";
        }
        told = told.saturating_add(1);
    }
    let more = told.saturating_sub(MOST_TOLD);
    tell!(writer, "],\"more_pairs\":", more, ",\"not_told_apart\":")?;
    write_long(writer, survey.cuts().further())
}
