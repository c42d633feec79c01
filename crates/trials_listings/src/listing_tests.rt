//! The text of a listing.
use rasta_pcap::devices::{FailAt, Pieces};
use rasta_pcap::{Counted, Fault};
use rasta_pdu::{Kind, Params};
use seatmelon_show::{Choice, Listing, Types, list};
use std::alloc::Global;
use trials_rows::{CHANNELS, CUT_BLOCK, pcapng_with};

// The records 1, 7 and 8 of examples/flipped_bit.pcap, which are the records 1, 2 and 3 here.
const FILE: &[u8] = b"\xd4\xc3\xb2\xa1\x02\0\x04\0\0\0\0\0\0\0\0\0\0\0\x04\0\x01\0\0\0\
    \0\xb9Ui\0\0\0\0p\0\0\0p\0\0\0\
    \x02\0\0\0\0\x02\x02\0\0\0\0\x01\x08\0E\0\0b\0\0\0\0@\x11f\x89\x0a\0\0\x01\x0a\0\
    \0\x02\x13\x88\x13\x88\0N\0\0\
    F\0\0\0\x07\0\0\0:\08\x18a\0\0\0`\0\0\0d\0\0\0\0\0\0\0\xe8\x03\0\0\
    \0\0\0\00303\x14\0\0\0\0\0\0\0\0\04 q\xa0(|\xbe;\xb8\x84\xe5\x95\xba\xc4\
    \xde\xc7Is\xe4\x08\
    \0\xb9Ui0u\0\0h\0\0\0h\0\0\0\
    \x02\0\0\0\0\x02\x02\0\0\0\0\x01\x08\0E\0\0Z\0\0\0\0@\x11f\x91\x0a\0\0\x01\x0a\0\
    \0\x02\x13\x88\x13\x88\0F\0\0\
    >\0\0\0\x09\0\0\02\0`\x18a\0\0\0`\0\0\0f\0\0\0\xf4\x01\0\0\xf7\x03\0\0\
    (#\0\0\x02\0\xab\x01\0\0\xaa\xae#\xf9e\xad\x08i\xf7\x1c>\xf5\x9c\xf6\xad\xc8n\xf5R\x86\
    \0\xb9Ui\xb8\x88\0\0h\0\0\0h\0\0\0\
    \x02\0\0\0\0\x02\x02\0\0\0\0\x01\x08\0E\0\0Z\0\0\0\0@\x11d\x91\x0a\0\x01\x01\x0a\0\
    \x01\x02\x13\x89\x13\x89\0F\0\0\
    >\0\0\0\x09\0\0\02\0`\x18a\0\0\0`\0\0\0f\0\0\0\xf4\x01\0\0\xf7\x03\0\0\
    (#\0\0\x02\0\xab\0\0\0\xaa\xae#\xf9e\xad\x08i\xf7\x1c>\xf5\x9c\xf6\xad\xc8n\xf5R\x86";

// Where these stand in the file: the flags of the first frame, and the type of its PDU.
const FLAGS_AT: usize = 60;

const TYPE_AT: usize = 92;

const START: [u32; 4] = [0x0f1e_2d3c, 0x4b5a_6978, 0x8796_a5b4, 0xc3d2_e1f0];

// The parameters of the sample, with this client, from this record on.
fn params(client_id: u32, first_record: u32) -> Option<Params> {
    Params::new(
        client_id,
        97,
        16,
        START,
        4,
        20,
        1800,
        0,
        first_record,
        4_000_000_000,
        &CHANNELS,
        None,
    )
}

const ALL: Choice<'static> = Choice {
    types: Types::All,
    first_record: 1,
    last_record: 4_294_967_295,
};

const HEAD: &str = "\
packets of the recorded channels; nothing here is a verdict
  record  time (UTC)                  channel  sender      number  type                             \
SN          CS          TS         CTS  payload
";

// A listing, and what is wanted of it behind its head.
#[derive(Clone, Copy)]
struct Case<'a> {
    client_id: u32,
    first_record: u32,
    choice: Choice<'a>,
    want: &'a str,
}

// A listing of all packets.
fn listing_of(want: &'static str) -> Case<'static> {
    Case {
        client_id: 96,
        first_record: 1,
        choice: ALL,
        want,
    }
}

// The text of a file's listing.
fn text_of(alloc: Global, file: &[u8], case: &Case<'_>) -> Option<Vec<u8>> {
    let mut reader = Counted::new(Pieces::new(file, 7));
    let mut writer = Counted::new(Vec::new(alloc));
    let params = params(case.client_id, case.first_record)?;
    list(alloc, &params, &case.choice, &mut reader, &mut writer).ok()?;
    Some(writer.into_inner())
}

// Whether a file's listing is what is wanted.
fn is_listed(alloc: Global, file: &[u8], case: &Case<'_>) -> Option<bool> {
    let text = text_of(alloc, file, case)?;
    Some(text.strip_prefix(HEAD.as_bytes())? == case.want.as_bytes())
}

// The file with another byte at a place.
fn changed(alloc: Global, place: usize, byte: u8) -> Option<Vec<u8>> {
    let mut file = Vec::from_slice(alloc, FILE).ok()?;
    *file.get_mut(place)? = byte;
    Some(file)
}

// Whether the listing of a file with another byte there begins so, behind its head.
fn begins(alloc: Global, place: usize, byte: u8, want: &'static str) -> Option<bool> {
    let file = changed(alloc, place, byte)?;
    let text = text_of(alloc, &file, &listing_of(want))?;
    Some(
        text.strip_prefix(HEAD.as_bytes())?
            .starts_with(want.as_bytes()),
    )
}

const WHOLE: &str = "       \
1  2026-01-01 00:00:00.000000        1  client           7  connection request              100           0        1000           0  \
version 0303, N_sendmax 20
       2  2026-01-01 00:00:00.030000        1  client           9  data                            102         500        1015        9000  \
2 messages, 2 bytes
       3  2026-01-01 00:00:00.035000        2  client           9  data                            102         500        1015        9000  \
2 messages, 2 bytes; code doesn't fit
packets listed: 3 of 3 in the window; codes that don't fit: 1
";

const SECOND_DATA: &str = "       \
3  2026-01-01 00:00:00.035000        2  client           9  data                            102         500        1015        9000  \
2 messages, 2 bytes; code doesn't fit
packets listed: 1 of 2 in the window; codes that don't fit: 1
";

const STRANGE: &str = "       \
1  2026-01-01 00:00:00.000000        1  client           7  connection request              100           0        1000           0  \
can't be decoded: 26 Ids, sender 96, receiver 97
packets listed: 1 of 3 in the window
";

const CUT: &str = "       \
1  2026-01-01 00:00:00.000000        1  client           7  connection request              100           0        1000           0  \
version 0303, N_sendmax 20
the file ends inside record 2 (14 CutRecord): nothing from there on is listed
packets listed: 1 of 1 in the window
";

// The packet of the first record in a pcapng file, behind an interface of this link type, and what these words make
// behind it.
fn pcapng_of(alloc: Global, link_type: u16, behind: &str) -> Option<Vec<u8>> {
    pcapng_with(
        alloc,
        link_type,
        1_767_225_600_000_000,
        FILE.get(40..152)?,
        behind,
    )
}

// Whether the listing of the pcapng file with these words is what is wanted.
fn is_pcapng_listed(alloc: Global, behind: &str, want: &'static str) -> Option<bool> {
    is_listed(alloc, &pcapng_of(alloc, 1, behind)?, &listing_of(want))
}

const ONE: &str = "       \
1  2026-01-01 00:00:00.000000000        1  client           7  connection request              100           0        1000           0  \
version 0303, N_sendmax 20
packets listed: 1 of 1 in the window
";

const CUT_BEHIND: &str = "       \
1  2026-01-01 00:00:00.000000000        1  client           7  connection request              100           0        1000           0  \
version 0303, N_sendmax 20
after 1 record, at byte 192: the file ends inside a block (14 CutRecord): nothing from there on is listed
packets listed: 1 of 1 in the window
";

const CUT_BEFORE: &str = "\
after 0 records, at byte 48: the file ends inside a block (14 CutRecord): nothing from there on is listed
no packet of the recorded channels is in the window: check addresses and ports
";

const RAW: &str = "\
an interface of this file has link type 101 (raw IP): its packets are of no connection
no packet of the recorded channels is in the window: check addresses and ports
";

// Whether the listing of the pcapng file names the link type of its interface, of whose packets no bytes are told.
fn is_raw_listed(alloc: Global) -> Option<bool> {
    let file = pcapng_of(alloc, 101, "")?;
    is_listed(alloc, &file, &listing_of(RAW))
}

// The cooked header of that packet in place of that of Ethernet, which has 14 bytes.
const COOKED_HEADER: &[u8; 20] = b"\x08\0\0\0\0\0\0\x02\0\x01\0\x06\x02\0\0\0\0\x01\0\0";

const COOKED: &str = "       \
1  2026-01-01 00:00:00.000000000        1  client           7  connection request              100           0        1000           0  \
version 0303, N_sendmax 20
an interface of this file has link type 276 (Linux cooked capture v2): its packets are read as Ethernet frames, with zeros \
for addresses that they lack
packets listed: 1 of 1 in the window
";

// Whether the packet is listed where it has that header.
fn is_cooked_listed(alloc: Global) -> Option<bool> {
    let mut packet = Vec::new(alloc);
    packet.extend_from_slice(COOKED_HEADER).ok()?;
    packet.extend_from_slice(FILE.get(54..152)?).ok()?;
    let file = pcapng_with(alloc, 276, 1_767_225_600_000_000, packet.as_slice(), "")?;
    is_listed(alloc, &file, &listing_of(COOKED))
}

const NONE: &str = "\
no packet of the recorded channels is in the window: check addresses and ports
";

const UNKNOWN: &str = "       \
1  2026-01-01 00:00:00.000000        1  client           7                       56         100           0        1000           0  \
can't be decoded: 23 Type
";

const FRAGMENT: &str = "       \
1  2026-01-01 00:00:00.000000        -  -                -                        -           -           -           -           -  \
can't be decoded: 16 Fragment
";

#[test]
fn packets_of_a_sample(rt: HostRuntime) {
    let alloc = rt.alloc();
    assert_eq!(rt; is_listed(alloc, FILE, &listing_of(WHOLE)), Some(true));
    let cut = &FILE[..200];
    assert_eq!(rt; is_listed(alloc, cut, &listing_of(CUT)), Some(true));
    let none = Case {
        first_record: 4,
        ..listing_of(NONE)
    };
    assert_eq!(rt; is_listed(alloc, FILE, &none), Some(true));
}

#[test]
fn packets_of_a_pcapng_file(rt: HostRuntime) {
    let alloc = rt.alloc();
    assert_eq!(rt; is_pcapng_listed(alloc, "", ONE), Some(true));
    assert_eq!(rt; is_pcapng_listed(alloc, CUT_BLOCK, CUT_BEHIND), Some(true));
    assert_eq!(rt; is_pcapng_listed(alloc, " -4", CUT_BEFORE), Some(true));
    assert_eq!(rt; is_raw_listed(alloc), Some(true));
    assert_eq!(rt; is_cooked_listed(alloc), Some(true));
}

#[test]
fn packets_that_are_chosen(rt: HostRuntime) {
    let data = Choice {
        types: Types::Of(&[Kind::Heartbeat, Kind::Data]),
        first_record: 3,
        last_record: 4,
    };
    let case = Case {
        client_id: 96,
        first_record: 2,
        choice: data,
        want: SECOND_DATA,
    };
    assert_eq!(rt; is_listed(rt.alloc(), FILE, &case), Some(true));
    let requests = Choice {
        types: Types::Of(&[Kind::ConnectionRequest]),
        ..ALL
    };
    let case = Case {
        client_id: 95,
        first_record: 1,
        choice: requests,
        want: STRANGE,
    };
    assert_eq!(rt; is_listed(rt.alloc(), FILE, &case), Some(true));
}

#[test]
fn packets_that_cannot_be_decoded(rt: HostRuntime) {
    let alloc = rt.alloc();
    assert_eq!(rt; begins(alloc, TYPE_AT + 1, 0, UNKNOWN), Some(true));
    assert_eq!(rt; begins(alloc, FLAGS_AT, 0x20, FRAGMENT), Some(true));
}

// What a listing of a file comes to over a writer that fails at this call.
fn outcome(alloc: Global, file: &[u8], call: u64) -> Option<Result<Listing, Fault>> {
    let mut reader = Counted::new(Pieces::new(file, 7));
    let mut writer = Counted::new(FailAt::new(Vec::new(alloc), call));
    Some(list(alloc, &params(96, 1)?, &ALL, &mut reader, &mut writer))
}

#[test]
fn files_and_devices_that_fail(rt: HostRuntime) {
    let alloc = rt.alloc();
    let refused = Some(Err(Fault::at(Fault::CUT_HEADER, 0)));
    assert_eq!(rt; outcome(alloc, &FILE[..20], 1), refused);
    let failed = Some(Err(Fault::at(Fault::WRITE_FAILED, 0)));
    assert_eq!(rt; outcome(alloc, FILE, 1), failed);
    assert_eq!(rt; outcome(alloc, FILE, 5), failed);
}
