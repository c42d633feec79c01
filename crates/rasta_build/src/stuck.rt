//! Whether a script can't go on for want of a step or of memory.
ghost use Rattle.std.specs.Prelude.{◌≡◌};
ghost use Rattle.rasta_build.specs.Choices.{stuck_by};

use rasta_pdu::Fault;

/// Why a script can't go on.
#[derive(Clone, Copy, PartialEq, Eq)]
pub(crate) enum Stuck {
    /// No step of the end explains the packet.
    Unexplained,
    /// Out of memory.
    NoMemory,
}

impl From<Fault> for Stuck {
    ghost from_gives = { λ fault stuck. stuck ≡ stuck_by fault };

    // Any other fault of an end says that the step isn't its.
    fn from(fault: Fault) -> Stuck {
        if fault.number == Fault::NO_MEMORY {
            Stuck::NoMemory
        } else {
            Stuck::Unexplained
        }
    }
}
