//! Faults, their numbers and their names.
use rasta_pcap::{Fault, Side};
use std::process::Abort;

// The constants, in the order of the rows.
const NUMBERS: &[u8] = &[
    Fault::NO_MEMORY,
    Fault::READ_FAILED,
    Fault::WRITE_FAILED,
    Fault::NOT_PCAP,
    Fault::VERSION,
    Fault::LINK_TYPE,
    Fault::CUT_HEADER,
    Fault::CUT_RECORD,
    Fault::CUT_PACKET,
    Fault::FRAGMENT,
    Fault::TOO_MANY,
    Fault::RECORD_TOO_LONG,
    Fault::BAD_UDP,
    Fault::REDUNDANCY_LENGTH,
    Fault::TOO_SHORT,
    Fault::SAFETY_LENGTH,
    Fault::TYPE,
    Fault::PAYLOAD,
    Fault::CODE,
    Fault::IDS,
    Fault::COPY_DIFFERS,
    Fault::NUMBER_GAP,
    Fault::TOO_LONG,
    Fault::SYNTAX,
    Fault::SLOT_ORDER,
    Fault::NOT_FIRST_COPY,
    Fault::MAKE_MISSING,
    Fault::NOT_YET_CROSSED,
    Fault::NOT_RISING,
    Fault::CLOCK_DIFFERS,
    Fault::CLOCK_FALLS,
    Fault::PAST_DEADLINE,
    Fault::CONFIRMED_NUMBER,
    Fault::CONFIRMED_TIME,
    Fault::NOT_ALLOWED,
    Fault::REPLY_OWED,
    Fault::RESEND_DIFFERS,
    Fault::CLOSED,
    Fault::TOO_MANY_ENTRIES,
    Fault::TOO_EARLY_TIMEOUT,
    Fault::SEQUENCE_NUMBER,
    Fault::TOML,
    Fault::MISSING_KEY,
    Fault::BAD_VALUE,
    Fault::NOT_FOUND,
];

const NAMES: &str = "\
1 NoMemory
2 ReadFailed
3 WriteFailed
10 NotPcap
11 Version
12 LinkType
13 CutHeader
14 CutRecord
15 CutPacket
16 Fragment
17 TooMany
18 RecordTooLong
19 BadUdp
20 RedundancyLength
21 TooShort
22 SafetyLength
23 Type
24 Payload
25 Code
26 Ids
27 CopyDiffers
28 NumberGap
29 TooLong
30 Syntax
31 SlotOrder
32 NotFirstCopy
33 MakeMissing
34 NotYetCrossed
35 NotRising
36 ClockDiffers
37 ClockFalls
38 PastDeadline
39 ConfirmedNumber
40 ConfirmedTime
41 NotAllowed
42 ReplyOwed
43 ResendDiffers
44 Closed
45 TooMany
46 TooEarlyTimeout
47 SequenceNumber
50 Toml
51 MissingKey
52 BadValue
60 NotFound
";

// Whether the row has a number and the name that a fault of this number has.
fn is_named(number: u8, row: &str) -> Option<bool> {
    let (word, name) = row.split_once(' ')?;
    Some(word.parse() == Ok(number) && Fault::at(number, 7).name() == name)
}

#[test]
fn faults_have_their_numbers_and_names(rt: HostRuntime) {
    let mut rows = NAMES.lines();
    for number in NUMBERS {
        let row = rows.next().unwrap_or("");
        assert_eq!(rt; is_named(*number, row), Some(true), "{row}");
    }
    assert_eq!(rt; rows.next(), None);
    assert_eq!(rt; Fault::at(49, 0).name(), "");
}

#[test]
fn faults_have_places_and_ends(rt: HostRuntime) {
    let fault = Fault::at(44, 7);
    assert_eq!(rt; (fault.number, fault.place, fault.end), (44, 7, None));
    let fault = Fault::of_end(44, 7, Side::Server);
    assert_eq!(rt;
        (fault.number, fault.place, fault.end),
        (44, 7, Some(Side::Server))
    );
}
