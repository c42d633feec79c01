//! What a capture says each side sent.
use rasta_check::{DenseList, MapList, Sent, SentList, Side, Store, sent, store};
use rasta_pcap::Counted;
use std::alloc::Global;
use std::process::Abort;
use trials_rows::{bytes_of, datagrams, file_of, lines_of, params_of};

// The handshake of the examples: a line for the file's header, and for each record its header and frame.
const HANDSHAKE: &str = "\
d4c3b2a10200040000000000000000000000040001000000
00b95569000000005c0000005c000000
02000000000202000000000108004500004e000000004011669d0a0000010a00000213881388003a0000320000000700
00002a00381861000000600000006400000000000000e8030000000000003033303314000000000000000000
00b95569881300005c0000005c000000
02000000000102000000000208004500004e000000004011669d0a0000020a00000113881388003a0000320000002800
00002a0039186000000061000000f40100006400000028230000e80300003033303314000000000000000000
00b95569102700004e0000004e000000
02000000000202000000000108004500004000000000401166ab0a0000010a00000213881388002c0000240000000800
00001c004c18610000006000000065000000f4010000f203000028230000
";

// The places and numbers of a list, where each is found by both, and no other is.
fn members<'a, S: SentList<'a>>(alloc: Global, list: &S) -> Option<String> {
    let mut text = String::new(alloc);
    for position in 0..list.len() {
        let (place, pdu) = list.get(position)?;
        let number = pdu.number();
        let found = (list.position_of(number)?, list.at_place(place)?);
        text = format!(in alloc; "{text}{place} {number} {found:?}, ").ok()?;
    }
    let absent = (list.position_of(6), list.at_place(3));
    format!(in alloc; "{text}{absent:?}").ok()
}

// Whether a list and the same list, dense, have the wanted members.
fn are_members<'a, S: SentList<'a>>(alloc: Global, list: &S, want: &str) -> Option<bool> {
    let dense = DenseList::of(alloc, list).ok()?;
    Some(members(alloc, list)?.as_str() == want && members(alloc, &dense)?.as_str() == want)
}

// The place and the number of the PDU of a side at a position.
fn first(read: &Sent, side: Side, position: u32) -> Option<(u32, u32)> {
    let (place, pdu) = read.first(side, position)?;
    Some((place, pdu.number()))
}

// The senders and numbers of the packets.
fn packets(alloc: Global, read: &Sent) -> Option<String> {
    let mut text = format!(in alloc; "{}:", read.len()).ok()?;
    for place in 0..4 {
        let packet = read.packet(place);
        text = format!(in alloc; "{text} {packet:?}").ok()?;
    }
    Some(text)
}

// Whether what was sent is that of the handshake.
fn is_handshake(alloc: Global, read: &Sent) -> Option<bool> {
    Some(
        packets(alloc, read)?.as_str()
            == "3: Some((Client, 7)) Some((Server, 40)) Some((Client, 8)) None"
            && are_members(alloc, read.client(), "0 7 (0, 0), 2 8 (1, 1), (None, None)")?
            && are_members(alloc, read.server(), "1 40 (0, 0), (None, None)")?,
    )
}

fn are_first_copies(read: &Sent) -> bool {
    first(read, Side::Client, 1) == Some((2, 8))
        && first(read, Side::Server, 0) == Some((1, 40))
        && first(read, Side::Server, 1) == None
}

fn is_read(alloc: Global) -> Option<bool> {
    let file = bytes_of(alloc, HANDSHAKE)?;
    let params = params_of("plain")?;
    let read = sent(alloc, params, &file).ok()?;
    let ids = (read.params().client_id(), read.params().server_id());
    Some(ids == (96, 97) && is_handshake(alloc, &read)? && are_first_copies(&read))
}

#[test]
fn handshake_is_read(rt: HostRuntime) {
    assert_eq!(rt; is_read(rt.alloc()), Some(true));
}

// Whether what is stored of these packets is so many of them, with the datagrams of these lines and no other
// bytes, and such lists.
fn is_stored(alloc: Global, packets: &str, want: &str) -> Option<bool> {
    let (params, file) = file_of(alloc, "data plain", packets)?;
    let stored = store(alloc, params, &mut Counted::new(file.as_slice())).ok()?;
    let found = stored_text(alloc, &stored)?;
    Some(found.as_str() == want && has_first_copies(alloc, &stored)?)
}

// The ids, the count of packets, one of them, and how many bytes are kept.
fn stored_text(alloc: Global, stored: &Store) -> Option<String> {
    let ids = (stored.params().client_id(), stored.params().server_id());
    let (len, bytes) = (stored.len(), stored.bytes().len());
    let packet = (stored.packet(3), stored.packet(len));
    format!(in alloc; "{ids:?} {len} {packet:?} {bytes}").ok()
}

// Whether a store keeps the first three datagrams of the connection, and lists their PDUs.
fn has_first_copies(alloc: Global, stored: &Store) -> Option<bool> {
    let all = datagrams(alloc, &stored.params(), lines_of("data")?)?;
    let mut bytes = Vec::new(alloc);
    for datagram in all.as_slice().get(..3)? {
        bytes.extend_from_slice(datagram).ok()?;
    }
    Some(
        stored.bytes() == bytes.as_slice()
            && are_members(
                alloc,
                &stored.client(),
                "0 7 (0, 0), 3 8 (1, 1), (None, Some(1))",
            )?
            && are_members(alloc, &stored.server(), "2 40 (0, 0), (None, None)")?,
    )
}

#[test]
fn first_copies_alone_are_stored(rt: HostRuntime) {
    let want = "(96, 97) 7 (Some((Client, 8)), None) 136";
    assert_eq!(rt;
        is_stored(rt.alloc(), "0 0@2 1 2 0@2 2@2 1@2", want),
        Some(true)
    );
}

#[test]
fn new_lists_are_empty(rt: HostRuntime) {
    assert_eq!(rt; DenseList::new(rt.alloc()).len(), 0);
    assert_eq!(rt; MapList::new(rt.alloc()).len(), 0);
}
