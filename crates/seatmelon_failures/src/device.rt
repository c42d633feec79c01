//! Failures of memory and of devices.
ghost use Rattle.std.specs.Prelude.{◌≡◌};

use std::alloc::{AllocError, Global};
use std::io;
use thiserror::Error;

/// What standard output is called in messages.
pub const STANDARD_OUTPUT: &str = "standard output";

/// Memory ran out, or a device failed.
#[derive(Debug, Drop, Error)]
pub enum DeviceFailure {
    #[error("out of memory")]
    OutOfMemory,
    #[error("{path}: {reason}")]
    Reading { path: String, reason: String },
    #[error("{path}: {reason}")]
    Writing { path: String, reason: String },
    /// Nobody reads standard output any more: of this nothing is told.
    #[error("standard output: nobody reads it")]
    ClosedPipe,
}

impl From<AllocError> for DeviceFailure {
    ghost use Rattle.seatmelon_failures.specs.declared.device.DeviceFailure.TheVariants.{OutOfMemory};

    ghost from_gives = { λ _ failure. failure ≡ OutOfMemory };

    fn from(_error: AllocError) -> DeviceFailure {
        DeviceFailure::OutOfMemory
    }
}

// The system's reason for an error, without the number that the library adds.
fn reason_of(alloc: Global, error: &io::Error) -> Result<String, AllocError> {
    let text = error.to_string(alloc)?;
    match text.split_once(" (os error ") {
        Some((reason, _)) => String::from_str(alloc, reason),
        None => String::from_str(alloc, text.as_str()),
    }
}

// Why a file can't be read, for this reason.
fn unread_for(alloc: Global, path: &str, reason: String) -> DeviceFailure {
    match String::from_str(alloc, path) {
        Ok(path) => DeviceFailure::Reading { path, reason },
        Err(_) => DeviceFailure::OutOfMemory,
    }
}

/// Why a file can't be read.
pub fn unread(alloc: Global, path: &str, error: Option<io::Error>) -> DeviceFailure {
    let reason = match error {
        Some(error) => reason_of(alloc, &error),
        None => String::from_str(alloc, "reading failed"),
    };
    match reason {
        Ok(reason) => unread_for(alloc, path, reason),
        Err(_) => DeviceFailure::OutOfMemory,
    }
}

// Why the device of that name can't be written to, for this reason.
fn unwritten_for(alloc: Global, name: &str, reason: String) -> DeviceFailure {
    match String::from_str(alloc, name) {
        Ok(path) => DeviceFailure::Writing { path, reason },
        Err(_) => DeviceFailure::OutOfMemory,
    }
}

/// Why the device of that name can't be written to.
pub fn unwritten_at(alloc: Global, name: &str, error: Option<io::Error>) -> DeviceFailure {
    let reason = match error {
        Some(error) if error.kind() == io::ErrorKind::BrokenPipe => {
            return DeviceFailure::ClosedPipe;
        }
        Some(error) => reason_of(alloc, &error),
        None => String::from_str(alloc, "writing failed"),
    };
    match reason {
        Ok(reason) => unwritten_for(alloc, name, reason),
        Err(_) => DeviceFailure::OutOfMemory,
    }
}

/// Why standard output can't be written to.
pub fn unwritten(alloc: Global, error: Option<io::Error>) -> DeviceFailure {
    unwritten_at(alloc, STANDARD_OUTPUT, error)
}
