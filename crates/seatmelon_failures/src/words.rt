//! Words that are wrong, and what they name beside a capture.
ghost use Rattle.std.specs.Prelude.{◌≡◌};

use crate::certificate::Mistaken;
use crate::parameters::ParameterRefusal;
use std::alloc::AllocError;
use thiserror::Error;

/// The words are wrong, or the parameters or the certificate that they name.
#[derive(Debug, Drop, Error)]
pub enum WordsFailure {
    #[error("an argument is not UTF-8 text")]
    Arguments,
    #[error("{path}: there is no connection {number}: a survey finds {count}")]
    NoConnection {
        path: String,
        number: u64,
        count: u64,
    },
    #[error("{path}: there is no record {number} to be left out: the capture has {records}")]
    NoRecord {
        path: String,
        number: u32,
        records: u32,
    },
    #[error("{path}: client_id and server_id are not those of connection {number}")]
    OtherIds {
        path: String,
        number: u64,
    },
    #[error("{path}: {refusal}")]
    Parameters {
        path: String,
        refusal: ParameterRefusal,
    },
    #[error("{path}: this looks like {mistaken}")]
    NoCertificate {
        path: String,
        mistaken: Mistaken,
    },
    #[error("{path}: the folder has no parameter file: their names end in .toml")]
    NoFiles {
        path: String,
    },
    #[error("there are more than {most} parameter files")]
    TooManyFiles {
        most: usize,
    },
}

/// The same, or memory ran out while that was told.
#[derive(Debug, Drop, Error)]
pub enum WordsOrMemory {
    #[error("out of memory")]
    OutOfMemory,
    #[error(transparent)]
    Words(WordsFailure),
}

impl From<AllocError> for WordsOrMemory {
    ghost use Rattle.seatmelon_failures.specs.declared.words.WordsOrMemory.TheVariants.{OutOfMemory};

    ghost from_gives = { λ _ failure. failure ≡ OutOfMemory };

    fn from(_error: AllocError) -> WordsOrMemory {
        WordsOrMemory::OutOfMemory
    }
}

impl From<WordsFailure> for WordsOrMemory {
    ghost use Rattle.seatmelon_failures.specs.declared.words.WordsOrMemory.TheVariants.{Words};

    ghost from_gives = { λ words failure. failure ≡ Words words };

    fn from(failure: WordsFailure) -> WordsOrMemory {
        WordsOrMemory::Words(failure)
    }
}
