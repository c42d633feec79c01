//! What is told of a block of a pcapng file that is refused.
use crate::words::Hint;
use rasta_pcap::Fault;
use seatmelon_account::Account;
use seatmelon_pcapng::{Reason, Refusal};
use seatmelon_text::{Part, parts};

/// The block that a fault of the capture speaks of, if it does.
pub fn block_refused(account: &Account<'_>, fault: Fault) -> Option<Refusal> {
    match fault.number {
        Fault::CUT_RECORD => account.reading.format.refusal(),
        _ => None,
    }
}

/// What is wrong with a block, and where it begins.
pub fn meaning_of_block(block: Refusal) -> [Part<'static>; 3] {
    parts![block.reason.words(), ", at byte ", block.at]
}

/// The hint on a capture that ends at a block that is refused.
pub fn hint_on_block(reason: Reason) -> Hint {
    Hint {
        cause: match reason {
            Reason::Cut => "the file is not whole",
            _ => "the file is damaged, or what wrote it doesn't keep to the pcapng format",
        },
        next_step: "last_record in the parameters, which can end the window before it",
    }
}
