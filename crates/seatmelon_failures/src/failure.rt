//! Why the program gives up: memory or a device failed, the words are wrong, or a capture is refused.
ghost use Rattle.std.specs.Prelude.{◌≡◌, ◌≤◌};
ghost use Rattle.seatmelon_failures.specs.Failing.{is_device_told, is_told, of_input, status_of};

use crate::device::DeviceFailure;
use crate::refusal::RefusedCapture;
use crate::words::{WordsFailure, WordsOrMemory};
use std::alloc::AllocError;
use thiserror::Error;

/// Why a capture isn't read.
#[derive(Debug, Drop, Error)]
pub enum CaptureFailure {
    #[error(transparent)]
    Device(DeviceFailure),
    #[error(transparent)]
    Refused(RefusedCapture),
}

/// Why there is no answer about a capture that isn't refused.
#[derive(Debug, Drop, Error)]
pub enum InputFailure {
    #[error(transparent)]
    Device(DeviceFailure),
    #[error(transparent)]
    Words(WordsFailure),
}

/// Why the program gives up. Its text is what standard error gets after the program's name.
#[derive(Debug, Drop, Error)]
pub enum Failure {
    #[error(transparent)]
    Device(DeviceFailure),
    #[error(transparent)]
    Words(WordsFailure),
    #[error(transparent)]
    Refused(RefusedCapture),
}

impl From<DeviceFailure> for CaptureFailure {
    ghost use Rattle.seatmelon_failures.specs.declared.failure.CaptureFailure.TheVariants.{Device};

    ghost from_gives = { λ device failure. failure ≡ Device device };

    fn from(failure: DeviceFailure) -> CaptureFailure {
        CaptureFailure::Device(failure)
    }
}

impl From<AllocError> for InputFailure {
    ghost use Rattle.seatmelon_failures.specs.Failing.{memory_for_input};

    ghost from_gives = { λ _ failure. failure ≡ memory_for_input };

    fn from(error: AllocError) -> InputFailure {
        InputFailure::Device(error.into())
    }
}

impl From<DeviceFailure> for InputFailure {
    ghost use Rattle.seatmelon_failures.specs.declared.failure.InputFailure.TheVariants.{Device};

    ghost from_gives = { λ device failure. failure ≡ Device device };

    fn from(failure: DeviceFailure) -> InputFailure {
        InputFailure::Device(failure)
    }
}

impl From<WordsOrMemory> for InputFailure {
    ghost use Rattle.seatmelon_failures.specs.Failing.{input_of_words};

    ghost from_gives = { λ words failure. failure ≡ input_of_words words };

    fn from(failure: WordsOrMemory) -> InputFailure {
        match failure {
            WordsOrMemory::OutOfMemory => InputFailure::Device(DeviceFailure::OutOfMemory),
            WordsOrMemory::Words(failure) => InputFailure::Words(failure),
        }
    }
}

impl From<DeviceFailure> for Failure {
    ghost use Rattle.seatmelon_failures.specs.declared.failure.Failure.TheVariants.{Device};

    ghost from_gives = { λ device failure. failure ≡ Device device };

    fn from(failure: DeviceFailure) -> Failure {
        Failure::Device(failure)
    }
}

impl From<CaptureFailure> for Failure {
    ghost use Rattle.seatmelon_failures.specs.Failing.{of_capture};

    ghost from_gives = { λ capture failure. failure ≡ of_capture capture };

    fn from(failure: CaptureFailure) -> Failure {
        match failure {
            CaptureFailure::Device(failure) => Failure::Device(failure),
            CaptureFailure::Refused(failure) => Failure::Refused(failure),
        }
    }
}

impl From<InputFailure> for Failure {
    ghost use Rattle.seatmelon_failures.specs.Failing.{of_input};

    ghost from_gives = { λ input failure. failure ≡ of_input input };

    fn from(failure: InputFailure) -> Failure {
        match failure {
            InputFailure::Device(failure) => Failure::Device(failure),
            InputFailure::Words(failure) => Failure::Words(failure),
        }
    }
}

impl From<WordsOrMemory> for Failure {
    ghost use Rattle.seatmelon_failures.specs.Failing.{input_of_words, of_input};

    ghost from_gives = { λ words failure. failure ≡ of_input (input_of_words words) };

    fn from(failure: WordsOrMemory) -> Failure {
        InputFailure::from(failure).into()
    }
}

// Whether standard error is told of a failed device.
fn is_device_told(failure: &DeviceFailure) -> bool
    ensures { result ≡ is_device_told failure.now }
{
    match failure {
        DeviceFailure::ClosedPipe => false,
        DeviceFailure::OutOfMemory => true,
        DeviceFailure::Reading { .. } | DeviceFailure::Writing { .. } => true,
    }
}

impl Failure {
    /// The exit status: 1 for a refused capture, 2 for words and parameters, 3 for memory and devices.
    pub fn status(&self) -> u8
        ensures { result ≡ status_of self.now }
    {
        match self {
            Failure::Refused(_) => 1,
            Failure::Words(_) => 2,
            Failure::Device(_) => 3,
        }
    }

    /// Whether standard error is told of it.
    pub fn is_told(&self) -> bool
        ensures { result ≡ is_told self.now }
    {
        match self {
            Failure::Device(failure) => is_device_told(failure),
            Failure::Words(_) | Failure::Refused(_) => true,
        }
    }
}

impl InputFailure {
    /// The exit status, that of the same failure among all.
    pub fn status(&self) -> u8
        ensures status { result ≡ status_of (of_input self.now) }
        ensures least { 2 ≤ result }
        ensures most { result ≤ 3 }
    {
        match self {
            InputFailure::Words(_) => 2,
            InputFailure::Device(_) => 3,
        }
    }

    /// The same failure of a file that wasn't named, but its folder: the text of refused parameters says how to leave out a
    /// file that seems to be none of parameters.
    pub fn of_folder(self) -> InputFailure
        ensures { status_of (of_input result) ≡ status_of (of_input self) }
    {
        match self {
            InputFailure::Words(WordsFailure::Parameters { path, refusal }) => {
                InputFailure::Words(WordsFailure::Parameters {
                    path,
                    refusal: refusal.of_folder(),
                })
            }
            other => other,
        }
    }
}
