//! The words of each fault: what it means, what may be its cause, and what to look at next.
use rasta_pcap::Fault;
use seatmelon_capture::words_of_fault;

/// What a fault means, what may be its cause, and what to look at next.
#[derive(Clone, Copy)]
pub struct FaultWords {
    pub meaning: &'static str,
    pub cause: &'static str,
    pub next_step: &'static str,
}

// Causes of several faults, and what to look at.

const OTHER_FORMAT: &str = "the file has another format, or is compressed";

const CONVERT: &str =
    "editcap -F pcap IN OUT, which converts a capture (gunzip it first, if it is compressed)";

const NOT_WHOLE: &str = "the file is not whole";

const FOREIGN_FRAME: &str = "the frame isn't one of the connection, or is damaged";

const LEAVE_OUT: &str =
    "the frame; if it isn't part of the connection, leave it out with --without";

const TOO_LARGE: &str = "the window is too large";

const SMALLER: &str = "a smaller window";

const STRANGER: &str =
    "a stranger on the recorded addresses; an end that broke the rules; a damaged packet; or,
  at the first packet, a wrong length of a code in the parameters";

const SENDER: &str = "the packet's sender, and what --without with its record says";

const COPIES: &str =
    "how this packet differs from its first copy, and what --without with its record says";

/// What to look at behind a gap.
pub const BEHIND_GAP: &str =
    "the packets of this end around the missing number, with seatmelon show; if the tap may have missed
  PDUs, what --suppose N says; behind the gap the capture can be explained from a quiet point, of
  which seatmelon draft CAPTURE N --after RECORD PARAMS proposes some";

const WRONG_CERTIFICATE: &str =
    "the certificate is wrong: another one may explain the same packets";

const ENTRIES: &str =
    "the entry and those before it; and what seatmelon explain says without a certificate";

fn row(meaning: &'static str, cause: &'static str, next_step: &'static str) -> FaultWords {
    FaultWords {
        meaning,
        cause,
        next_step,
    }
}

// Of a fault of a certificate.
fn entry(meaning: &'static str) -> FaultWords {
    row(meaning, WRONG_CERTIFICATE, ENTRIES)
}

/// The words of the fault with this number.
pub fn words_of(number: u8) -> FaultWords {
    match number {
        0..=19 => words_of_capture(number),
        20..=29 => words_of_packet(number),
        30..=38 => words_of_entry(number),
        _ => words_of_step(number),
    }
}

fn words_of_capture(number: u8) -> FaultWords {
    match number {
        Fault::NOT_PCAP | Fault::VERSION => {
            row(words_of_fault(number).before, OTHER_FORMAT, CONVERT)
        }
        Fault::CUT_HEADER => row(
            words_of_fault(number).before,
            NOT_WHOLE,
            "where the file comes from: it has to be copied again",
        ),
        Fault::CUT_RECORD => row(
            "the file ends inside this record",
            NOT_WHOLE,
            "last_record in the parameters, which can end the window before it",
        ),
        Fault::CUT_PACKET => row(
            "a datagram between the recorded hosts was not captured whole",
            "the snapshot length of the capture was too small",
            "the settings of the capture, which has to be made again",
        ),
        Fault::FRAGMENT => row(
            "this is an IPv4 fragment between the recorded hosts",
            FOREIGN_FRAME,
            LEAVE_OUT,
        ),
        Fault::TOO_MANY => row(
            "this is one record, packet or PDU more than can be judged",
            TOO_LARGE,
            SMALLER,
        ),
        Fault::RECORD_TOO_LONG => row(
            "this record has more than 262144 bytes",
            "the file is damaged, or segmentation was offloaded",
            LEAVE_OUT,
        ),
        Fault::BAD_UDP => row(
            "the lengths of IPv4 and UDP contradict each other",
            FOREIGN_FRAME,
            LEAVE_OUT,
        ),
        _ => entry(""),
    }
}

fn words_of_packet(number: u8) -> FaultWords {
    match number {
        Fault::REDUNDANCY_LENGTH => row(
            "the length field isn't the datagram's length",
            STRANGER,
            SENDER,
        ),
        Fault::TOO_SHORT => row(
            "the datagram is too short for a PDU with these code lengths",
            STRANGER,
            SENDER,
        ),
        Fault::SAFETY_LENGTH => row(
            "the length field of the safety layer is wrong",
            STRANGER,
            SENDER,
        ),
        Fault::TYPE => row("this is none of the eight types of PDU", STRANGER, SENDER),
        Fault::PAYLOAD => row(
            "the payload doesn't have the layout of its type",
            STRANGER,
            SENDER,
        ),
        Fault::CODE => row(
            "the safety code is wrong",
            "a bit flipped on the line, if it is a later copy; a stranger; an end that broke the rules;
  or, at the first packet, wrong start words",
            COPIES,
        ),
        Fault::IDS => row(
            "sender or receiver isn't the recorded one",
            "a stranger on the recorded addresses, or a wrong id in the parameters",
            SENDER,
        ),
        Fault::COPY_DIFFERS => row(
            "this redundancy number has crossed before, with other bytes",
            "a bit flipped on the line; a stranger; or an end that used a number twice",
            COPIES,
        ),
        Fault::NUMBER_GAP => row(
            "this redundancy number has not crossed before, and isn't the next",
            "the tap missed a packet, or it was overtaken before the tap; an end left a number out; or,
  at the first records, this is a late copy of a packet from before the capture",
            BEHIND_GAP,
        ),
        _ => row("", STRANGER, SENDER),
    }
}

fn words_of_entry(number: u8) -> FaultWords {
    match number {
        Fault::SYNTAX => row(
            "this line isn't one that a certificate has there",
            WRONG_CERTIFICATE,
            "this line of the certificate",
        ),
        Fault::SLOT_ORDER => entry(
            "the entry's slot or place is out of order, or after the last packet",
        ),
        Fault::NOT_FIRST_COPY => entry("the packet at that place isn't a first copy of this end"),
        Fault::MAKE_MISSING => entry("a first copy of this end has no make before this entry"),
        Fault::NOT_YET_CROSSED => entry("the PDU that is taken has not crossed by the slot"),
        Fault::NOT_RISING => entry("the PDU that is taken doesn't come after the one taken last"),
        Fault::CLOCK_DIFFERS => entry("the PDU's time stamp isn't the clock of the make"),
        Fault::CLOCK_FALLS => entry("the clock is below that of the make before"),
        Fault::PAST_DEADLINE => entry("the deadline and the slack have passed"),
        _ => entry(""),
    }
}

fn words_of_step(number: u8) -> FaultWords {
    match number {
        Fault::CONFIRMED_NUMBER => entry("CS isn't the SN of the PDU accepted last"),
        Fault::CONFIRMED_TIME => entry("CTS is none of the time stamps that the end can confirm"),
        Fault::NOT_ALLOWED => entry("the end can't make this PDU in this phase for this reason"),
        Fault::REPLY_OWED => entry(
            "the end owes something else first, or may not take anything yet",
        ),
        Fault::RESEND_DIFFERS => entry("data that is sent again differs from what was sent first"),
        Fault::CLOSED => entry("the connection of this end is over"),
        Fault::TOO_MANY_ENTRIES => row(
            "this is one entry more than can be judged",
            TOO_LARGE,
            SMALLER,
        ),
        Fault::TOO_EARLY_TIMEOUT => entry("the end gave up before its deadline"),
        Fault::SEQUENCE_NUMBER => entry("SN isn't the next one of this end"),
        Fault::NOT_FOUND => row(
            "no two ends that keep the rules send packets that begin with those up to this one",
            "an end broke the rules; a stranger; a wrong parameter or quiet point; or an honest end
  repeated a retransmission request, both opened as client, or the connection was opened twice",
            "this packet and those before it, with seatmelon show; and what --without says",
        ),
        _ => entry(""),
    }
}
