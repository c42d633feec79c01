//! The parameters, and what the ends offer, as JSON.
ghost use Rattle.std.specs.Prelude.{◌≡◌, IfErr};
ghost use Rattle.rasta_pcap.specs.Fault.{write_failed};

use crate::page::start_words;
use rasta_pcap::{Fault, Sink};
use rasta_pdu::Params;
use rasta_udp::Channel;
use seatmelon_account::{Offer, Offers, Versions};
use seatmelon_text::{Part, tell, write_words};

// Writes the addresses and ports of a channel.
fn write_channel<W: Sink>(
    writer: &mut W,
    before: &'static str,
    channel: &Channel,
) -> Result<(), Fault>
    ensures err { IfErr result (λ f. f ≡ write_failed) }
{
    tell!(
        writer,
        before,
        "{\"client\":\"",
        channel.client,
        "\",\"server\":\"",
        channel.server,
        "\"}"
    )
}

// Writes the addresses and ports of the channels.
fn write_channels<W: Sink>(writer: &mut W, params: &Params) -> Result<(), Fault>
    ensures err { IfErr result (λ f. f ≡ write_failed) }
{
    write_words(writer, ",\"channel\":[")?;
    let mut before = "";
    for channel in params.channel() {
        write_channel(writer, before, channel)?;
        before = ",";
    }
    write_words(writer, "]}")
}

/// Writes by which ids, lengths, limits and channels was judged.
pub fn write_params<W: Sink>(writer: &mut W, params: &Params) -> Result<(), Fault>
    ensures err { IfErr result (λ f. f ≡ write_failed) }
{
    let words = start_words(params);
    tell!(
        writer,
        ",\"judged_by\":{\"client_id\":",
        params.client_id(),
        ",\"server_id\":",
        params.server_id(),
        ",\"code_length\":",
        params.code_length(),
        ",\"md4_start\":\"",
        Part::Hex(&words),
        "\",\"check_length\":",
        params.check_length(),
        ",\"n_sendmax\":",
        params.n_sendmax(),
        ",\"t_max\":",
        params.t_max(),
        ",\"slack\":",
        params.slack()
    )?;
    write_channels(writer, params)
}

// Writes what an end offers, where the parameters have something else, and answers what stands before the next one.
fn write_offer<W: Sink>(
    writer: &mut W,
    before: &'static str,
    offer: Option<Offer>,
) -> Result<&'static str, Fault>
    ensures err { IfErr result (λ f. f ≡ write_failed) }
{
    let Some(offer) = offer else {
        return Ok(before);
    };
    tell!(
        writer,
        before,
        "{\"end\":\"",
        offer.end,
        "\",\"offered\":",
        offer.offered,
        ",\"recorded\":",
        offer.recorded,
        "}"
    )?;
    Ok(",")
}

// Writes the versions of both ends, where they differ, or null.
fn write_versions<W: Sink>(writer: &mut W, versions: Option<&Versions>) -> Result<(), Fault>
    ensures err { IfErr result (λ f. f ≡ write_failed) }
{
    let Some(versions) = versions else {
        return write_words(writer, "],\"versions\":null");
    };
    tell!(
        writer,
        "],\"versions\":{\"client\":\"",
        Part::Text(&versions.client),
        "\",\"server\":\"",
        Part::Text(&versions.server),
        "\"}"
    )
}

/// Writes what the ends offer at the opening, where it differs.
pub fn write_offers<W: Sink>(writer: &mut W, offers: &Offers) -> Result<(), Fault>
    ensures err { IfErr result (λ f. f ≡ write_failed) }
{
    write_words(writer, ",\"offers\":[")?;
    let before = write_offer(writer, "", offers.client)?;
    write_offer(writer, before, offers.server)?;
    write_versions(writer, offers.versions.as_ref())
}
