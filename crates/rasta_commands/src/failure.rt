//! Why the program gives up.
ghost use Rattle.std.specs.Prelude.{◌≡◌};
ghost use Rattle.rasta_commands.specs.Failing.{status_of};

use rasta_line::end_name;
use rasta_pdu::Fault;
use thiserror::Error;

/// Why the program gives up. Its text is the line on standard error.
#[derive(Debug, Drop, Error)]
pub enum Failure {
    #[error("refused {} {} {} {}", .0.number, .0.name(), .0.place, end_name(.0.end))]
    Refused(Fault),
    #[error("usage")]
    Usage,
}

/// The exit status of a failure: 2 for words and parameters, 3 for memory and devices, else 1.
pub fn status(failure: &Failure) -> u8
    ensures { result ≡ status_of failure.now }
{
    match failure {
        Failure::Usage => 2,
        Failure::Refused(fault) => match fault.number {
            50..=52 => 2,
            1..=3 => 3,
            _ => 1,
        },
    }
}
