//! The draft of a parameter file.
ghost use Rattle.rasta_pcap.specs.Devices.{AsWritten};

use crate::channel::{ChannelCounts, reversed};
use crate::connection::Connection;
use crate::party::Party;
use crate::quiet_draft::write_quiet_points;
use crate::quiet_reasons::write_no_point;
use rasta_pcap::{Fault, Sink};
use rasta_pdu::Kind;
use rasta_udp::Channel;
use seatmelon_packets::{LengthFit, Offer, likeliest};
use seatmelon_text::{Part, numbered, parts, tell, write_parts, write_parts_if, write_words};

// How many channels a parameter file may have.
const MOST_CHANNELS: u64 = 4;

// An N_sendmax that stands where no end offered one.
const PLACEHOLDER_SENDMAX: u64 = 20;

// Which end is the client.
#[derive(Clone, Copy)]
struct Roles<'a> {
    client: &'a Party,
    server: &'a Party,
    is_first_client: bool,
}

// The sender of a connection request is the client, and that of a connection response the server. Without either
// the first end stands for the client.
fn roles_in(connection: &Connection) -> Roles<'_> {
    let responses = connection.first.kinds.count(Kind::ConnectionResponse);
    if connection.has_opening() || responses == 0 {
        Roles {
            client: &connection.first,
            server: &connection.second,
            is_first_client: true,
        }
    } else {
        Roles {
            client: &connection.second,
            server: &connection.first,
            is_first_client: false,
        }
    }
}

fn write_heading<W: Sink>(writer: &mut W, connection: &Connection) -> Result<(), Fault>
    ensures written { AsWritten W.failure_count result writer.old writer.new }
{
    tell!(
        writer,
        "# A draft of the parameters of the connection in the records ",
        connection.first_record(),
        " to ",
        connection.last_record(),
        " of a capture.\n",
        "# Each line tells where its value was seen; one from the engineering data is a placeholder.\n",
        "# A draft is a guess from the form of packets: compare each line with the engineering data.\n\n"
    )
}

/// Writes a key with a number.
pub fn write_number<W: Sink>(writer: &mut W, key: &'static str, value: u64) -> Result<(), Fault>
    ensures written { AsWritten W.failure_count result writer.old writer.new }
{
    tell!(writer, key, " = ", value, " # ")
}

fn write_ids<W: Sink>(
    writer: &mut W,
    client: &[Part<'_>],
    server: &[Part<'_>],
    roles: Roles<'_>,
) -> Result<(), Fault>
    ensures written { AsWritten W.failure_count result writer.old writer.new }
{
    write_number(writer, "client_id", u64::from(roles.client.id))?;
    write_parts(writer, client)?;
    write_number(writer, "server_id", u64::from(roles.server.id))?;
    write_parts(writer, server)
}

// Writes the ids, and by what the client is known.
fn write_roles<W: Sink>(
    writer: &mut W,
    connection: &Connection,
    roles: Roles<'_>,
) -> Result<(), Fault>
    ensures written { AsWritten W.failure_count result writer.old writer.new }
{
    if connection.has_opening() {
        let record = u64::from(connection.first_record());
        let request = numbered("sender of the connection request in record ", record);
        return write_ids(writer, &request, &parts!["its receiver\n"], roles);
    }
    if let Some(offer) = roles.server.offer {
        let record = u64::from(offer.record);
        let response = numbered("sender of the connection response in record ", record);
        return write_ids(
            writer,
            &parts!["receiver of what the server sent\n"],
            &response,
            roles,
        );
    }
    write_ids(
        writer,
        &parts!["from the engineering data: end 1 of the survey, which may be the server\n"],
        &parts!["from the engineering data: end 2 of the survey\n"],
        roles,
    )
}

// Writes the lengths other than the chosen one that fit some packets.
fn write_other_lengths<W: Sink>(
    writer: &mut W,
    chosen: LengthFit,
    lengths: &[LengthFit; 3],
) -> Result<(), Fault>
    ensures written { AsWritten W.failure_count result writer.old writer.new }
{
    for other in lengths {
        write_parts_if(
            writer,
            other.length != chosen.length && other.forms > 0,
            &parts!["; ", other.length, " fits ", other.forms],
        )?;
    }
    Ok(())
}

// Writes the likeliest length of a code.
fn write_length<W: Sink>(
    writer: &mut W,
    key: &'static str,
    lengths: &[LengthFit; 3],
    packets: u64,
) -> Result<(), Fault>
    ensures written { AsWritten W.failure_count result writer.old writer.new }
{
    let chosen = likeliest(lengths);
    write_number(writer, key, u64::from(chosen.length))?;
    let doubt = parts!["from the engineering data, since none fits all packets: "];
    write_parts_if(writer, chosen.forms < packets, &doubt)?;
    tell!(
        writer,
        "fits the length of ",
        chosen.forms,
        " of ",
        packets,
        " packets"
    )?;
    write_other_lengths(writer, chosen, lengths)?;
    write_words(writer, "\n")
}

// Writes MD4's own start words, and whether they fit the safety codes.
fn write_start_words<W: Sink>(writer: &mut W, code: LengthFit) -> Result<(), Fault>
    ensures written { AsWritten W.failure_count result writer.old writer.new }
{
    write_words(
        writer,
        "md4_start = \"67452301efcdab8998badcfe10325476\" # ",
    )?;
    if code.length == 0 {
        return write_words(
            writer,
            "MD4's own start words; without a safety code they have no effect\n",
        );
    }
    let doubt = parts!["from the engineering data: "];
    write_parts_if(writer, code.right < code.forms, &doubt)?;
    tell!(
        writer,
        "MD4's own start words fit ",
        code.right,
        " of ",
        code.forms,
        " safety codes\n"
    )
}

// An offer that a parameter file may repeat.
fn usable(offer: Option<Offer>) -> Option<Offer> {
    offer.filter(|offer| offer.sendmax > 0)
}

// Writes the N_sendmax that one end alone offered.
fn write_offer<W: Sink>(writer: &mut W, name: &'static str, offer: Offer) -> Result<(), Fault>
    ensures written { AsWritten W.failure_count result writer.old writer.new }
{
    write_number(writer, "n_sendmax", u64::from(offer.sendmax))?;
    tell!(
        writer,
        "offered by the ",
        name,
        " in record ",
        offer.record,
        "\n"
    )
}

// Writes what both ends offered: the greater N_sendmax, where they differ.
fn write_both_offers<W: Sink>(writer: &mut W, client: Offer, server: Offer) -> Result<(), Fault>
    ensures written { AsWritten W.failure_count result writer.old writer.new }
{
    write_number(
        writer,
        "n_sendmax",
        u64::from(client.sendmax.max(server.sendmax)),
    )?;
    let doubt = parts!["from the engineering data: "];
    write_parts_if(writer, client.sendmax != server.sendmax, &doubt)?;
    tell!(
        writer,
        "the client offered ",
        client.sendmax,
        " in record ",
        client.record,
        ", the server ",
        server.sendmax,
        " in record ",
        server.record,
        "\n"
    )
}

fn write_sendmax<W: Sink>(writer: &mut W, roles: Roles<'_>) -> Result<(), Fault>
    ensures written { AsWritten W.failure_count result writer.old writer.new }
{
    match (usable(roles.client.offer), usable(roles.server.offer)) {
        (Some(client), Some(server)) => write_both_offers(writer, client, server),
        (Some(client), None) => write_offer(writer, "client", client),
        (None, Some(server)) => write_offer(writer, "server", server),
        (None, None) => {
            write_number(writer, "n_sendmax", PLACEHOLDER_SENDMAX)?;
            write_words(
                writer,
                "from the engineering data: no offer of one was captured\n",
            )
        }
    }
}

// Writes what no packet tells.
fn write_limits<W: Sink>(writer: &mut W) -> Result<(), Fault>
    ensures written { AsWritten W.failure_count result writer.old writer.new }
{
    tell!(
        writer,
        "t_max = 1800 # from the engineering data, in milliseconds\n",
        "slack = 0 # from the engineering data, in milliseconds\n"
    )
}

/// Writes the records: those of the connection, or only those after a quiet point.
pub fn write_window<W: Sink>(writer: &mut W, connection: &Connection) -> Result<(), Fault>
    ensures written { AsWritten W.failure_count result writer.old writer.new }
{
    let earliest = match &connection.quiet {
        Some(quiet) => quiet.earliest(),
        None => None,
    };
    let (first, origin) = match earliest {
        Some(point) => (
            u64::from(point.record).saturating_add(1),
            "the first record after the quiet point\n",
        ),
        None => (
            u64::from(connection.first_record()),
            "the connection's first packet\n",
        ),
    };
    write_number(writer, "first_record", first)?;
    write_words(writer, origin)?;
    write_number(writer, "last_record", u64::from(connection.last_record()))?;
    write_words(writer, "the connection's last packet")?;
    let late = parts![", a late copy"];
    write_parts_if(writer, connection.is_last_late_copy, &late)?;
    write_words(writer, "\n")
}

// Writes a channel as a table.
fn write_table<W: Sink>(writer: &mut W, channel: Channel, record: u32) -> Result<(), Fault>
    ensures written { AsWritten W.failure_count result writer.old writer.new }
{
    tell!(
        writer,
        "\n[[channel]]\nclient = \"",
        channel.client,
        "\" # seen in record ",
        record,
        "\nserver = \"",
        channel.server,
        "\" # seen in record ",
        record,
        "\n"
    )
}

// Writes a channel as a comment.
fn write_left_out<W: Sink>(writer: &mut W, channel: Channel, record: u32) -> Result<(), Fault>
    ensures written { AsWritten W.failure_count result writer.old writer.new }
{
    tell!(
        writer,
        "\n# A further channel, seen in record ",
        record,
        ", which can't stand beside those above:\n# client ",
        channel.client,
        ", server ",
        channel.server,
        "\n"
    )
}

// Whether one of the channels leads the other way between the ends of this one.
fn has_reverse(channels: &[ChannelCounts], channel: Channel) -> bool {
    let back = reversed(&channel);
    channels.iter().any(|counts| counts.channel == back)
}

// Writes the channels, as many as a parameter file may have.
fn write_channels<W: Sink>(
    writer: &mut W,
    channels: &[ChannelCounts],
    is_first_client: bool,
) -> Result<(), Fault>
    ensures written { AsWritten W.failure_count result writer.old writer.new }
{
    let mut written = 0u64;
    for (place, counts) in channels.iter().enumerate() {
        let channel = if is_first_client {
            counts.channel
        } else {
            reversed(&counts.channel)
        };
        if written >= MOST_CHANNELS || has_reverse(&channels[..place], counts.channel) {
            write_left_out(writer, channel, counts.first_record)?;
        } else {
            write_table(writer, channel, counts.first_record)?;
            written = written.saturating_add(1);
        }
    }
    Ok(())
}

// Writes a parameter file for a connection.
fn write_keys<W: Sink>(
    writer: &mut W,
    connection: &Connection,
    roles: Roles<'_>,
) -> Result<(), Fault>
    ensures written { AsWritten W.failure_count result writer.old writer.new }
{
    let lengths = connection.lengths;
    write_heading(writer, connection)?;
    write_roles(writer, connection, roles)?;
    write_length(writer, "code_length", &lengths.of_code(), lengths.pdus)?;
    write_start_words(writer, likeliest(&lengths.of_code()))?;
    write_length(writer, "check_length", &lengths.of_check(), lengths.pdus)?;
    write_sendmax(writer, roles)?;
    write_limits(writer)?;
    write_window(writer, connection)?;
    if let Some(quiet) = &connection.quiet {
        write_quiet_points(writer, quiet, roles.is_first_client)?;
    }
    write_channels(writer, connection.channels.counts(), roles.is_first_client)
}

/// Writes a parameter file for a connection, with comments; or that the record behind which a quiet point is wanted has
/// none.
pub fn write_draft<W: Sink>(writer: &mut W, connection: &Connection) -> Result<(), Fault>
    ensures written { AsWritten W.failure_count result writer.old writer.new }
{
    let roles = roles_in(connection);
    match &connection.quiet {
        Some(quiet) if quiet.lacks_point() => {
            write_no_point(writer, connection, quiet, roles.is_first_client)
        }
        _ => write_keys(writer, connection, roles),
    }
}
