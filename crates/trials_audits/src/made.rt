//! Captures of several connections, and the parameters of these.
use rasta_pdu::{Channel, Endpoint, Params};
use std::alloc::Global;
use trials_rows::{
    FILE_HEADER, RFC_WORDS, datagram, lines_of, params_of, push_frame, push_record, side_of,
};

// The end of this number in a net.
fn end_in(net: u8, number: u8) -> Endpoint {
    Endpoint {
        address: [10, net, 0, number],
        port: 5000,
    }
}

// The channel between the hosts of a net.
fn channel_in(net: u8) -> Channel {
    Channel {
        client: end_in(net, 1),
        server: end_in(net, 2),
    }
}

/// The parameters of a connection, `NET FIRST LAST`: between the hosts of a net, for the records from the first to the
/// last; with a further word, from the quiet point of the parameters of this name.
pub fn params_in(words: &str) -> Option<Params> {
    let mut words = words.split(' ');
    let net = words.next()?.parse().ok()?;
    let first_record = words.next()?.parse().ok()?;
    let last_record = words.next()?.parse().ok()?;
    let quiet = match words.next() {
        Some(word) => params_of(word)?.quiet(),
        None => None,
    };
    Params::new(
        96,
        97,
        0,
        RFC_WORDS,
        0,
        20,
        1800,
        0,
        first_record,
        last_record,
        &[channel_in(net)],
        quiet,
    )
}

// Adds the record of a packet, `NET/CONNECTION/LINE`: that line of a connection of `trials_rows`, between the hosts of a
// net, so many seconds after the beginning of 1970.
fn push_packet(alloc: Global, file: &mut Vec<u8>, packet: &str, seconds: u32) -> Option<()> {
    let mut words = packet.split('/');
    let net = words.next()?.parse().ok()?;
    let lines = lines_of(words.next()?)?;
    let line = lines.lines().nth(words.next()?.parse().ok()?)?;
    let datagram = datagram(alloc, &params_of("plain")?, line)?;
    let mut frame = Vec::new(alloc);
    push_frame(&mut frame, side_of(line), &channel_in(net), &datagram)?;
    push_record(file, seconds, &frame)
}

/// A capture of these packets, in which the seconds of each record are its number; `cut` takes the last byte away.
pub fn capture_of(alloc: Global, packets: &str) -> Option<Vec<u8>> {
    let mut file = Vec::from_slice(alloc, FILE_HEADER).ok()?;
    let mut records = 0u32;
    for packet in packets.split(' ') {
        if packet == "cut" {
            let _ = file.pop()?;
        } else {
            records = records.checked_add(1)?;
            push_packet(alloc, &mut file, packet, records)?;
        }
    }
    Some(file)
}
