//! An account in words.
ghost use Rattle.std.specs.Prelude.{◌≡◌, IfErr};
ghost use Rattle.rasta_pcap.specs.Fault.{write_failed};

use crate::explained::write_explained;
use crate::page::write_no_packets;
use crate::refusal::write_refusal;
use rasta_pcap::{Fault, Sink};
use seatmelon_account::{Account, Extent, Verdict};

/// Writes an account in words: the verdict, what was judged, and so much of the messages.
pub fn write_text<W: Sink>(
    writer: &mut W,
    account: &Account<'_>,
    extent: &Extent,
) -> Result<(), Fault>
    ensures err { IfErr result (λ f. f ≡ write_failed) }
{
    match &account.verdict {
        Verdict::NoPackets => write_no_packets(writer, account),
        Verdict::Refused(refusal) => write_refusal(writer, account, refusal, extent),
        Verdict::Explained(explained) => write_explained(writer, account, explained, extent),
    }
}
