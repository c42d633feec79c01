//! What a capture comes to, by its account.
ghost use Rattle.std.specs.Prelude.{◌≡◌, is_some, IfErr, IfOk, IfSome};
ghost use Rattle.rasta_pcap.specs.Fault.{no_memory};
ghost use Rattle.seatmelon_account.specs.Account.{most_in};
ghost use Rattle.seatmelon_account.specs.Hypotheses.{IsSupposed};
ghost use Rattle.seatmelon_account.specs.Outcomes.{IsMissing, asks_supposed, outcome_in};

use crate::account::{Account, Inputs, Verdict};
use rasta_pcap::Fault;
use seatmelon_reading::Reading;
use seatmelon_suppose::{Supposition, suppose};
use std::alloc::Global;

/// What an explanation came to.
#[derive(Clone, Copy, Debug, PartialEq, Eq)]
pub enum Outcome {
    /// Two ends that keep the rules can have sent the packets.
    Explained,

    /// The capture, its packets or the certificate are refused.
    Refused,

    /// No packet of the connection is in the window.
    NoPackets,

    /// The capture has no record of this number, which is to be left out, but so many records. Nothing is written.
    NoRecord { number: u32, records: u32 },
}

impl<'a> Account<'a> {
    /// What it tells that the capture comes to.
    pub fn outcome(&self) -> Outcome
        ensures { result ≡ outcome_in self.now.verdict }
    {
        match self.verdict {
            Verdict::NoPackets => Outcome::NoPackets,
            Verdict::Refused(_) => Outcome::Refused,
            Verdict::Explained(_) => Outcome::Explained,
        }
    }
}

/// The first record that is left out and that a capture of so many doesn't have.
pub fn missing_record(without: &[u32], records: u32) -> Option<u32>
    ensures { IsMissing without.now records result }
{
    without.iter().copied().find(|number| *number > records)
}

/// What is supposed of a capture that is refused at a gap, where that was asked for. Refused by [`Fault::NO_MEMORY`]
/// alone.
pub fn supposed(
    alloc: Global,
    inputs: &Inputs<'_>,
    reading: &Reading,
) -> Result<Option<Supposition>, Fault>
    ensures supposed { IfOk result (λ s. IfSome s (IsSupposed inputs.now.params.now reading.now.notes.tape (most_in inputs.now))) }
    ensures asked { IfOk result (λ s. is_some s ≡ asks_supposed inputs.now reading.now) }
    ensures err { IfErr result (λ f. f ≡ no_memory) }
{
    let tape = &reading.notes.tape;
    match (inputs.suppose, &reading.refusal) {
        (Some(most), Some(refusal)) if tape.is_kept && refusal.fault.number == Fault::NUMBER_GAP =>
            { Ok(Some(suppose(alloc, inputs.params, &tape.packets, most)?)) }
        _ => Ok(None),
    }
}
