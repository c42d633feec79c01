//! Writing a run, level by level.
ghost use Rattle.std.specs.Prelude.{◌≡◌, slice_get, IfOk};
ghost use Rattle.rasta_pcap.specs.Devices.{Writes, AsWritten};
ghost use Rattle.rasta_verdict.specs.RunText.{run_text};
ghost use Rattle.rasta_verdict.specs.Told.{IsAfter, IsAfterTakes, IsOrderedFrom, IsTold, of_side, takes_text, told_crossing, told_level, told_packet};
ghost use Rattle.rasta_verdict.specs.Passed.{makes_of, scripts_of};

use crate::run_lines::{Made, put_copy, put_make, put_take};
use crate::script_front::{next_take, pass_make};
use rasta_cert::{Certificate, Entry};
use rasta_check::Store;
use rasta_line::Line;
use rasta_pcap::write_all;
use rasta_pdu::{Fault, Side, Sink};

/// What is left of both scripts.
#[derive(Clone, Copy)]
pub struct Rests<'s> {
    pub client: &'s [Entry],
    pub server: &'s [Entry],
}

// Writes the takes of a level, and answers what is left of the script.
fn write_takes<'s, W: Sink>(
    level: u32,
    side: Side,
    script: &'s [Entry],
    line: &mut Line,
    writer: &mut W,
) -> Result<&'s [Entry], Fault>
    requires { IsOrderedFrom level script.now }
    ensures out { Writes result (W.contents writer.old) (W.contents writer.new) (takes_text level side script.entry.now) }
    ensures rest { IfOk result (λ r. IsAfterTakes level script.entry.now r.now) }
    ensures written { AsWritten W.failure_count result writer.old writer.new }
{
    let mut rest = script;
    while let Some((number, after)) = next_take(level, rest) {
        put_take(line, level, side, number);
        write_all(writer, line.as_bytes())?;
        rest = after;
    }
    Ok(rest)
}

// Makes the line of a packet: its end made it there, or it is a copy.
#[tactic(auto, unfolding(crate::specs::Told::told_crossing))]
fn put_crossed(line: &mut Line, place: u32, side: Side, number: u32, made: Option<Made>)
    ensures { line.new ≡ told_crossing place side number (makes_of made) }
{
    match made {
        Some(made) => put_make(line, place, side, number, made),
        None => put_copy(line, place, side, number),
    }
}

// The make of a side.
fn made_by(side: Side, client: Option<Made>, server: Option<Made>) -> Option<Made>
    ensures { makes_of result ≡ of_side (makes_of client) (makes_of server) side }
{
    match side {
        Side::Client => client,
        Side::Server => server,
    }
}

// Writes the packet at a place, if there is one, by what each script makes there.
fn write_crossed<W: Sink>(
    store: &Store,
    place: u32,
    client: Option<Made>,
    server: Option<Made>,
    line: &mut Line,
    writer: &mut W,
) -> Result<(), Fault>
    ensures out { Writes result (W.contents writer.old) (W.contents writer.new)
        (told_packet place (makes_of client) (makes_of server) (slice_get store.now.packets place)) }
    ensures written { AsWritten W.failure_count result writer.old writer.new }
{
    let Some((side, number)) = store.packet(place) else {
        return Ok(());
    };
    put_crossed(line, place, side, number, made_by(side, client, server));
    write_all(writer, line.as_bytes())
}

// Writes a level, and answers what is left of the scripts.
fn write_level<'s, W: Sink>(
    store: &Store,
    level: u32,
    scripts: Rests<'s>,
    line: &mut Line,
    writer: &mut W,
) -> Result<Rests<'s>, Fault>
    requires client { IsOrderedFrom level scripts.client.now }
    requires server { IsOrderedFrom level scripts.server.now }
    ensures out { Writes result (W.contents writer.old) (W.contents writer.new)
        (told_level store.now.packets (scripts_of scripts.entry) level) }
    ensures rests { IfOk result (λ r. IsAfter level scripts.entry.client.now r.client.now × IsAfter level scripts.entry.server.now r.server.now) }
    ensures written { AsWritten W.failure_count result writer.old writer.new }
{
    let client = write_takes(level, Side::Client, scripts.client, line, writer)?;
    let server = write_takes(level, Side::Server, scripts.server, line, writer)?;
    let (client_made, client) = pass_make(level, client);
    let (server_made, server) = pass_make(level, server);
    write_crossed(store, level, client_made, server_made, line, writer)?;
    Ok(Rests { client, server })
}

/// Writes the run that two scripts tell of the packets: a line for each take and each packet, level by
/// level. The scripts are passed once.
pub fn write_run<W: Sink>(
    store: &Store,
    certificate: &Certificate,
    line: &mut Line,
    writer: &mut W,
) -> Result<(), Fault>
    requires { IsTold store.now certificate.now }
    ensures out { Writes result (W.contents writer.old) (W.contents writer.new) (run_text store.now certificate.now) }
    ensures written { AsWritten W.failure_count result writer.old writer.new }
{
    let mut rests = Rests {
        client: certificate.client(),
        server: certificate.server(),
    };
    for level in 0..store.len() + 1 {
        rests = write_level(store, level, rests, line, writer)?;
    }
    Ok(())
}
