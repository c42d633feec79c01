//! The rules by which no end makes a PDU.
use rasta_end::Phase;
use rasta_pdu::Kind;

/// What sets the deadline of an end: the PDU of the peer that it accepted last, of those that are time-relevant.
#[derive(Clone, Copy, PartialEq, Eq)]
pub struct Confirmation {
    /// The redundancy number of that PDU.
    pub number: u32,
    /// The time of the end that its CTS confirms, in milliseconds; none where that lies before 0.
    pub time: Option<u64>,
}

/// The rule by which an end that keeps the rules doesn't make a PDU at its place. A `number` is the redundancy
/// number of a PDU of the peer, and a `fault` the number of a [`rasta_pdu::Fault`].
#[derive(Clone, Copy, PartialEq, Eq)]
pub enum Rule {
    /// Its CS confirms a PDU of the peer, and none crosses.
    PeerIsSilent,
    /// Its CS is the SN of no PDU of the peer that crosses.
    ConfirmsNone,
    /// Its CS confirms a PDU that crosses later.
    ConfirmsLater {
        number: u32,
    },
    /// Its CS confirms an earlier PDU than that of this SN, which the end has confirmed before.
    ConfirmsEarlier {
        confirmed: u32,
    },
    /// The end waits for a retransmission response, and its CS confirms PDUs after the request, but none.
    NoResponse,
    /// By its CS the end would accept a PDU after one that comes later and was taken before.
    TakesEarlier {
        number: u32,
    },
    /// By its CS or its type the end would have taken a PDU that it can't take, by this fault.
    TakeRefused {
        number: u32,
        fault: u8,
    },
    /// Its CS confirms a PDU that the end wouldn't have accepted.
    NotAccepted {
        number: u32,
    },
    /// It is a retransmission response, and no request that it can answer has crossed.
    NothingToAnswer,
    /// It is a retransmission request, and no PDU that shows a gap has crossed.
    NothingToAskFor,
    /// It is retransmitted data, and the end owes none.
    NothingToResend,
    /// The clock that its time stamp tells is 2^64 or more.
    ClockTooLarge,
    /// The rule of making refuses it, by this fault, at an end in this phase.
    MakeRefused {
        fault: u8,
        phase: Phase,
    },
    /// It is made at this clock, past the deadline or, as a timeout, too early for it, by this fault. Nothing is
    /// confirmed where the deadline is that of the quiet point.
    Deadline {
        fault: u8,
        clock: u64,
        confirmed: Option<Confirmation>,
    },
}

impl Rule {
    /// Nothing has crossed that makes an end owe a PDU of this type.
    pub(crate) fn nothing_for(made: Kind) -> Rule {
        match made {
            Kind::RetransmissionRequest => Rule::NothingToAskFor,
            _ => Rule::NothingToAnswer,
        }
    }
}
