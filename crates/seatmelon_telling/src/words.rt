//! What a refusal means, what may be its cause, and what to look at next.
use crate::blocks::{block_refused, hint_on_block};
use crate::causes::is_in_middle;
use crate::fault_words::{BEHIND_GAP, FaultWords, words_of};
use crate::frames::{hint_on_frames, meaning_of_frames};
use crate::gap::{Reason, reason_of};
use rasta_pcap::Fault;
use rasta_pdu::Fields;
use seatmelon_account::{Account, Gap, Refusal, RefusedPacket, Subject, Trouble};
use seatmelon_capture::FileHeader;
use seatmelon_reading::CodeCount;

/// What the fault of a capture with this header means.
pub fn meaning_in(fault: Fault, header: Option<FileHeader>) -> &'static str {
    match fault.number {
        Fault::LINK_TYPE => meaning_of_frames(header),
        number => words_of(number).meaning,
    }
}

/// What may be the cause of a fault, and what to look at next.
#[derive(Clone, Copy)]
pub struct Hint {
    pub cause: &'static str,
    pub next_step: &'static str,
}

// The hint on packets that begin in the middle of a connection, where no quiet point is recorded.
const WITHOUT_OPENING: Hint = Hint {
    cause: "the capture begins in the middle of the connection, and the parameters record no quiet point;
  or the opening is there, but outside the window or on a channel that isn't recorded",
    next_step: "the quiet points that seatmelon draft proposes, one of which the engineering data or a log
  has to confirm; or the window and the channels in the parameters",
};

// The hint on a first packet of an end, where the packets begin in the middle of a connection.
const IN_THE_MIDDLE: Hint = Hint {
    cause: "the capture begins in the middle of the connection, and the parameters record no quiet point;
  or the tap missed PDUs right at the beginning",
    next_step: "what the packets show alone, below; or a quiet point behind these packets, of which
  seatmelon draft CAPTURE N --after RECORD PARAMS proposes some",
};

// The hint on a packet that the other end should have sent.
const EXCHANGED: Hint = Hint {
    cause: "are client and server exchanged in the parameters?",
    next_step: "the ids and the channels in the parameters, and the engineering data",
};

// The hint where no safety code fits.
const WRONG_START_WORDS: Hint = Hint {
    cause: "the start words of the parameters are unknown or wrong; or their lengths of the codes are",
    next_step: "md4_start in the engineering data; what can be read without it, with seatmelon show",
};

const WITHOUT_COPY: &str = "what --without with its record says";

// The hint on a fault.
fn hint_on(number: u8) -> Hint {
    let FaultWords {
        cause,
        next_step,
        ..
    } = words_of(number);
    Hint { cause, next_step }
}

/// Whether no safety code of the capture fits the recorded start words.
pub fn fits_none(packet: &RefusedPacket<'_>, codes: CodeCount) -> bool {
    matches!(packet.trouble, Trouble::Code(..))
        && packet.is_first
        && codes.judged > 0
        && codes.fitting == 0
}

// Whether receiver and sender of a packet stand for each other.
fn has_exchanged_ids(packet: &RefusedPacket<'_>) -> bool {
    let Trouble::Ids { receiver, sender } = packet.trouble else {
        return false;
    };
    let fields = Fields::of(packet.datagram);
    fields.receiver == Some(sender) && fields.sender == Some(receiver)
}

// What a gap may come from.
fn cause_of_gap(gap: &Gap) -> &'static str {
    match (reason_of(gap), gap.has_opening) {
        (Reason::Overtaken, _) => "the packet that was due was overtaken before it reached the tap",
        (Reason::Late, true) => "a late copy of a packet of an earlier connection",
        (Reason::Late, false) => "a late copy of a packet from before the capture",
        (Reason::WholePdus, _) => "the tap missed whole PDUs, or they were cut from the file",
        (Reason::Numbers, _) => "an end left a number out",
    }
}

// The hint on a refused packet.
fn hint_on_packet(fault: u8, packet: &RefusedPacket<'_>, codes: CodeCount) -> Hint {
    let hint = hint_on(fault);
    match &packet.trouble {
        Trouble::Code(..) if fits_none(packet, codes) => WRONG_START_WORDS,
        Trouble::Code(_, None) | Trouble::Copy(None) => Hint {
            cause: hint.cause,
            next_step: WITHOUT_COPY,
        },
        Trouble::Gap(Some(gap)) => Hint {
            cause: cause_of_gap(gap),
            next_step: BEHIND_GAP,
        },
        Trouble::Ids { .. } if has_exchanged_ids(packet) => EXCHANGED,
        _ => hint,
    }
}

/// The hint on a refusal of a capture.
pub fn hint_of(account: &Account<'_>, refusal: &Refusal<'_>) -> Hint {
    let number = refusal.fault.number;
    if let Some(block) = block_refused(account, refusal.fault) {
        return hint_on_block(block.reason);
    }
    match &refusal.subject {
        Subject::Header if number == Fault::LINK_TYPE => hint_on_frames(account.reading.header),
        Subject::Unexplained {
            is_exchanged: true,
            ..
        } => EXCHANGED,
        Subject::Unexplained {
            lacks_opening: true,
            ..
        } => WITHOUT_OPENING,
        Subject::Record { .. } if is_in_middle(account, refusal) => IN_THE_MIDDLE,
        Subject::Record {
            packet: Some(packet),
            codes,
            ..
        } => hint_on_packet(number, packet, *codes),
        _ => hint_on(number),
    }
}
