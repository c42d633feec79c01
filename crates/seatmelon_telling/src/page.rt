//! What was judged: what was read, and by which parameters.
ghost use Rattle.std.specs.Prelude.{◌≡◌, IfErr};
ghost use Rattle.rasta_pcap.specs.Fault.{write_failed};

use crate::ending::write_ending;
use crate::frames::write_named;
use crate::notes::{write_passed_over, write_times};
use rasta_pcap::{Fault, Sink};
use rasta_pdu::Params;
use rasta_udp::Channel;
use seatmelon_account::{Account, File, Offer, Offers};
use seatmelon_capture::AS_ETHERNET;
use seatmelon_pcapng::Format;
use seatmelon_reading::{ChannelCount, Sighting, Window};
use seatmelon_text::{PROGRAM, Part, parts, tell, write_parts, write_words};

// Writes a file's name and its SHA-256.
fn write_file<W: Sink>(writer: &mut W, what: &str, file: &File<'_>) -> Result<(), Fault>
    ensures err { IfErr result (λ f. f ≡ write_failed) }
{
    tell!(
        writer,
        "  ",
        what,
        ": ",
        file.name,
        "\n    SHA-256: ",
        Part::Hex(&file.sum),
        "\n"
    )
}

// Writes of which link type an interface is that isn't one of Ethernet, and what becomes of its packets, if one is told.
fn write_interface<W: Sink>(writer: &mut W, link_type: Option<u16>, fate: &str) -> Result<(), Fault>
    ensures err { IfErr result (λ f. f ≡ write_failed) }
{
    let Some(link_type) = link_type else {
        return Ok(());
    };
    write_words(writer, "; an interface of it has ")?;
    write_named(writer, link_type)?;
    tell!(writer, ", and its packets are ", fate)
}

// Writes in which format the capture was read, where that isn't the classic one.
fn write_format<W: Sink>(writer: &mut W, format: Format) -> Result<(), Fault>
    ensures err { IfErr result (λ f. f ≡ write_failed) }
{
    if !format.is_pcapng() {
        return Ok(());
    }
    write_words(writer, "    read as pcapng")?;
    let passed_over = "passed over as not IPv4 or UDP";
    write_interface(writer, format.other_link_type(), passed_over)?;
    write_interface(writer, format.cooked_link_type(), AS_ETHERNET)?;
    write_words(writer, "\n")
}

// Writes the name and the SHA-256 of the certificate, if one was given.
fn write_certificate<W: Sink>(writer: &mut W, account: &Account<'_>) -> Result<(), Fault>
    ensures err { IfErr result (λ f. f ≡ write_failed) }
{
    match &account.certificate {
        Some(file) => write_file(writer, "certificate", file),
        None => write_words(writer, "  certificate: none was given, so one is built\n"),
    }
}

/// Writes which records were left out, if some were, as the end of a phrase.
pub fn write_without<W: Sink>(writer: &mut W, without: &[u32]) -> Result<(), Fault>
    ensures err { IfErr result (λ f. f ≡ write_failed) }
{
    let mut before = " without record ";
    for number in without {
        let number = Part::Number(u64::from(*number));
        tell!(writer, before, number)?;
        before = ", record ";
    }
    Ok(())
}

// Writes which records were left out, if some were, as a line.
fn write_left_out<W: Sink>(writer: &mut W, without: &[u32]) -> Result<(), Fault>
    ensures err { IfErr result (λ f. f ≡ write_failed) }
{
    if without.is_empty() {
        return Ok(());
    }
    write_words(writer, "  read")?;
    write_without(writer, without)?;
    write_words(writer, ": left out as of no connection\n")
}

// Writes how many packets a channel has, behind its number.
fn write_channel<W: Sink>(
    writer: &mut W,
    channel: &Channel,
    count: ChannelCount,
) -> Result<(), Fault>
    ensures err { IfErr result (λ f. f ≡ write_failed) }
{
    tell!(writer, ", ", channel.client, " - ", channel.server, ": ")?;
    if count.client == 0 && count.server == 0 {
        return write_words(writer, "no packet\n");
    }
    tell!(
        writer,
        "from the client ",
        count.client,
        ", from the server ",
        count.server,
        "\n"
    )
}

// The words on the records of a window.
fn records_of(window: Window) -> [Part<'static>; 4] {
    match window.last_record {
        Some(last) => parts!["records ", window.first_record, " to ", last],
        None => parts!["records from ", window.first_record, " on", ""],
    }
}

/// Writes the records of the window after these words, where one is recorded.
pub fn write_records<W: Sink>(
    writer: &mut W,
    account: &Account<'_>,
    words: &str,
) -> Result<(), Fault>
    ensures err { IfErr result (λ f. f ≡ write_failed) }
{
    match account.window {
        Some(window) => {
            write_words(writer, words)?;
            write_parts(writer, &records_of(window))
        }
        None => Ok(()),
    }
}

// Writes which records are judged, where a window is recorded.
fn write_window<W: Sink>(writer: &mut W, account: &Account<'_>) -> Result<(), Fault>
    ensures err { IfErr result (λ f. f ≡ write_failed) }
{
    let Some(window) = account.window else {
        return Ok(());
    };
    write_records(writer, account, "  window: ")?;
    match window.last_record {
        Some(_) => write_words(writer, "\n"),
        None => write_words(writer, ", and the capture has none\n"),
    }
}

// Writes how many packets of the recorded channels stand outside the window, where one is recorded.
fn write_outside<W: Sink>(writer: &mut W, account: &Account<'_>) -> Result<(), Fault>
    ensures err { IfErr result (λ f. f ≡ write_failed) }
{
    if account.window.is_none() {
        return Ok(());
    }
    let notes = &account.reading.notes;
    tell!(
        writer,
        "  packets of the recorded channels before the window: ",
        notes.before,
        ", behind it: ",
        notes.behind,
        "\n"
    )
}

// Writes how many packets each recorded channel has.
fn write_channels<W: Sink>(writer: &mut W, account: &Account<'_>) -> Result<(), Fault>
    ensures err { IfErr result (λ f. f ≡ write_failed) }
{
    let recorded = account.inputs.params.channel().iter();
    for (place, (channel, count)) in recorded.zip(account.channels).enumerate() {
        tell!(writer, "    on channel ", (place as u64).saturating_add(1))?;
        write_channel(writer, channel, *count)?;
    }
    Ok(())
}

// Writes how many records were read, and what they are.
fn write_counts<W: Sink>(writer: &mut W, account: &Account<'_>) -> Result<(), Fault>
    ensures err { IfErr result (λ f. f ≡ write_failed) }
{
    let notes = &account.reading.notes;
    tell!(writer, "  records read: ", notes.records, "\n")?;
    write_left_out(writer, account.inputs.without)?;
    write_window(writer, account)?;
    let packets = notes.packets.len() as u64;
    tell!(writer, "  packets of the connection: ", packets, "\n")?;
    write_channels(writer, account)?;
    write_ending(writer, account)?;
    write_outside(writer, account)?;
    write_passed_over(writer, account)
}

/// The start words of the safety code's digest, highest digit first.
pub fn start_words(params: &Params) -> [u8; 16] {
    let [first, second, third, fourth] = params.md4_start();
    let mut bytes = [0; 16];
    bytes[..4].copy_from_slice(&first.to_be_bytes());
    bytes[4..8].copy_from_slice(&second.to_be_bytes());
    bytes[8..12].copy_from_slice(&third.to_be_bytes());
    bytes[12..].copy_from_slice(&fourth.to_be_bytes());
    bytes
}

// Writes ids, lengths and limits.
fn write_params<W: Sink>(writer: &mut W, params: &Params) -> Result<(), Fault>
    ensures err { IfErr result (λ f. f ≡ write_failed) }
{
    tell!(
        writer,
        "  ids: client ",
        params.client_id(),
        ", server ",
        params.server_id(),
        "\n  lengths: safety code ",
        params.code_length(),
        ", check code ",
        params.check_length(),
        "\n"
    )?;
    if params.code_length() > 0 {
        let words = start_words(params);
        tell!(writer, "  start words: ", Part::Hex(&words), "\n")?;
    }
    tell!(
        writer,
        "  limits: N_sendmax ",
        params.n_sendmax(),
        ", T_max ",
        params.t_max(),
        ", slack ",
        params.slack(),
        "\n"
    )
}

// Writes whether a quiet point is recorded.
fn write_quiet<W: Sink>(writer: &mut W, params: &Params) -> Result<(), Fault>
    ensures err { IfErr result (λ f. f ≡ write_failed) }
{
    match params.quiet() {
        Some(_) => tell!(
            writer,
            "  quiet point: before record ",
            params.first_record(),
            "\n"
        ),
        None => write_words(writer, "  quiet point: none\n"),
    }
}

// Writes what an end offers at the opening, where the parameters have something else.
fn write_offer<W: Sink>(writer: &mut W, offer: Option<Offer>) -> Result<(), Fault>
    ensures err { IfErr result (λ f. f ≡ write_failed) }
{
    let Some(offer) = offer else {
        return Ok(());
    };
    tell!(
        writer,
        "  the ",
        offer.end,
        "'s opening offers N_sendmax ",
        offer.offered,
        ", and the parameters have ",
        offer.recorded,
        "\n"
    )
}

// Writes what the ends offer at the opening, where it differs.
fn write_offers<W: Sink>(writer: &mut W, offers: &Offers) -> Result<(), Fault>
    ensures err { IfErr result (λ f. f ≡ write_failed) }
{
    write_offer(writer, offers.client)?;
    write_offer(writer, offers.server)?;
    let Some(versions) = &offers.versions else {
        return Ok(());
    };
    tell!(
        writer,
        "  the client's opening offers version ",
        Part::Text(&versions.client),
        ", and the server's ",
        Part::Text(&versions.server),
        "\n"
    )
}

/// Writes what was judged.
pub fn write_judged<W: Sink>(writer: &mut W, account: &Account<'_>) -> Result<(), Fault>
    ensures err { IfErr result (λ f. f ≡ write_failed) }
{
    let params = account.inputs.params;
    write_words(writer, "\nWhat was judged:\n")?;
    write_file(writer, "capture", &account.capture())?;
    write_format(writer, account.reading.format)?;
    write_file(writer, "parameters", &account.parameters)?;
    write_certificate(writer, account)?;
    tell!(writer, "  program: ", PROGRAM, "\n")?;
    write_counts(writer, account)?;
    write_params(writer, params)?;
    write_quiet(writer, params)?;
    write_offers(writer, &account.offers)?;
    write_times(writer, account)
}

// Record, time and channel of a packet.
fn sighting_in(sighting: &Sighting) -> [Part<'static>; 6] {
    let record = Part::Number(u64::from(sighting.record));
    let channel = Part::Number(u64::from(sighting.channel));
    match sighting.time {
        Some(time) => parts!["record ", record, ", ", time, " UTC, channel ", channel],
        None => parts!["record ", record, ", no time", "", ", channel ", channel],
    }
}

/// Record, time and channel of the packet at a place, as the rest of a line.
pub fn place_of(packets: &[Sighting], place: u32) -> [Part<'static>; 7] {
    match packets.get(place as usize) {
        Some(sighting) => {
            let [words, record, comma, time, on, channel] = sighting_in(sighting);
            parts![words, record, comma, time, on, channel, "\n"]
        }
        None => parts!["place ", place, "\n", "", "", "", ""],
    }
}

/// Writes record, time and channel of a packet.
pub fn write_sighting<W: Sink>(writer: &mut W, sighting: &Sighting) -> Result<(), Fault>
    ensures err { IfErr result (λ f. f ≡ write_failed) }
{
    write_parts(writer, &sighting_in(sighting))
}

/// Writes record, time and channel of the packet at a place, as the rest of a line.
pub fn write_place<W: Sink>(writer: &mut W, packets: &[Sighting], place: u32) -> Result<(), Fault>
    ensures err { IfErr result (λ f. f ≡ write_failed) }
{
    write_parts(writer, &place_of(packets, place))
}

/// Writes that no packet of the connection is in the window.
pub fn write_no_packets<W: Sink>(writer: &mut W, account: &Account<'_>) -> Result<(), Fault>
    ensures err { IfErr result (λ f. f ≡ write_failed) }
{
    write_words(writer, "no packet of the connection")?;
    write_records(writer, account, " in ")?;
    write_without(writer, account.inputs.without)?;
    write_words(
        writer,
        "

No record of the window was sent between the recorded addresses and ports.
This says nothing about the ends.
May be the cause: an address or a port of a channel is wrong, or the window is.
Look next at: seatmelon survey CAPTURE, which lists the connections that the capture seems to hold.
",
    )?;
    write_judged(writer, account)
}
