//! More connections than are told apart.
use crate::made::{MadePdu, datagram_of, frame_of};
use rasta_pcap::Record;
use rasta_pdu::Kind;
use seatmelon_survey::{MOST_CONNECTIONS, Survey};
use std::alloc::Global;

// The connection request of the end with this id.
fn request_of(sender: u32) -> MadePdu {
    MadePdu {
        sender,
        receiver: 1_000_000,
        code_length: 0,
        check_length: 0,
        kind: Kind::ConnectionRequest,
        number: 0,
        message_length: 0,
    }
}

// A survey of the connection requests of so many ends.
fn survey_of(alloc: Global, ends: u32) -> Option<Survey> {
    let mut survey = Survey::new(alloc, None);
    for number in 1..=ends {
        let datagram = datagram_of(alloc, &request_of(number))?;
        let frame = frame_of(alloc, 1, false, datagram.as_slice())?;
        let found = Record {
            number,
            bytes: frame.as_slice(),
        };
        survey.add_record(alloc, &found, None).ok()?;
    }
    Some(survey)
}

// How many connections there are, how many packets, and how many of them are left out.
fn counts_of(alloc: Global, ends: u32) -> Option<(usize, u64, u64)> {
    let survey = survey_of(alloc, ends)?;
    Some((
        survey.connections().len(),
        survey.packets(),
        survey.left_out(),
    ))
}

#[test]
fn further_connections_are_left_out(rt: HostRuntime) {
    let most = MOST_CONNECTIONS;
    assert_eq!(rt; counts_of(rt.alloc(), 1024), Some((most, 1024, 0)));
    assert_eq!(rt; counts_of(rt.alloc(), 1026), Some((most, 1026, 2)));
}
