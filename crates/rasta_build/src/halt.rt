//! Why a script can't go on, with the rule behind it.
ghost use Rattle.std.specs.Prelude.{◌≡◌};
ghost use Rattle.rasta_build.specs.Choices.{stuck_by};
ghost use Rattle.rasta_build.specs.Stopping.{IsHaltAt};

use crate::obstacles::{Obstacle, Stop};
use crate::rules::{Confirmation, Rule};
use crate::stuck::Stuck;
use rasta_end::Phase;
use rasta_pdu::{Fault, Side};
use std::marker::Model;

/// Why a script can't go on. A contract sees no rule.
#[derive(Drop)]
pub(crate) struct Halt {
    // None where the script is out of memory.
    rule: Option<Rule>,
}

impl Model for Halt {
    ghost use Rattle.rasta_build.specs.declared.stuck.Stuck.{Stuck};

    ghost Value = { Stuck };

    ghost use Rattle.rasta_build.specs.Choices.{stuck_for};

    ghost view = { λ h. stuck_for h.rule };
}

impl Halt {
    /// By the fault of a make in this phase and at this clock, where this sets the deadline of the end.
    pub(crate) fn of_make(
        fault: Fault,
        phase: Phase,
        clock: u64,
        confirmed: Option<Confirmation>,
    ) -> Halt
        ensures { result ≡ stuck_by fault }
    {
        let rule = match fault.number {
            Fault::PAST_DEADLINE | Fault::TOO_EARLY_TIMEOUT => Rule::Deadline {
                fault: fault.number,
                clock,
                confirmed,
            },
            number => Rule::MakeRefused {
                fault: number,
                phase,
            },
        };
        Halt::of(Stuck::from(fault), rule)
    }

    /// By this rule no step of the end explains the packet.
    pub(crate) fn by(rule: Rule) -> Halt
        ensures { result ≡ Stuck.Unexplained }
    {
        Halt { rule: Some(rule) }
    }

    /// Out of memory.
    pub(crate) fn no_memory() -> Halt
        ensures { result ≡ Stuck.NoMemory }
    {
        Halt { rule: None }
    }

    /// Out of memory, or else by this rule.
    pub(crate) fn of(stuck: Stuck, rule: Rule) -> Halt
        ensures { result ≡ stuck }
    {
        match stuck {
            Stuck::Unexplained => Halt::by(rule),
            Stuck::NoMemory => Halt::no_memory(),
        }
    }

    /// What stops a pass at the packet of this end and place.
    pub(crate) fn at(self, side: Side, place: u32) -> Stop
        ensures { IsHaltAt self side place result }
    {
        match self.rule {
            Some(rule) => Stop::Blocked(Obstacle { side, place, rule }),
            None => Stop::OutOfMemory,
        }
    }
}
