//! Small captures, and a device that fails.
ghost use Rattle.std.specs.Prelude.{None};

use seatmelon_failures::Failure;
use std::alloc::Global;
use std::io;
use std::io::Read;
use trials_rows::{FILE_HEADER, file_of, pcapng_with};

/// A classic capture without a record.
pub const NO_RECORD: &[u8; 24] = FILE_HEADER;

/// A capture of one connection request; none where memory runs out.
pub fn one_request(alloc: Global) -> Option<Vec<u8>> {
    let (_, file) = file_of(alloc, "data plain", "0")?;
    Some(file)
}

// The length of the headers before its frame.
const HEADERS: usize = 40;

/// The packet of that capture in a pcapng file, and what these words make behind it.
pub fn pcapng_of(alloc: Global, behind: &str) -> Option<Vec<u8>> {
    pcapng_with(alloc, 1, 0, one_request(alloc)?.get(HEADERS..)?, behind)
}

/// A refused file, and what is said of it.
pub struct Refused {
    pub file: &'static [u8],
    pub text: &'static str,
}

/// The text of a failure, behind the program's status.
pub fn told<F: Into<Failure>>(alloc: Global, failure: F) -> Option<String> {
    let failure = failure.into();
    format!(in alloc; "{} {failure}", failure.status()).ok()
}

/// A device that the system refuses with this number.
#[derive(Drop)]
pub struct Broken {
    pub number: i32,
}

impl Read for Broken {
    ghost remaining = { λ b. None };

    fn read(&mut self, _buf: &mut [u8]) -> io::Result<usize> {
        Err(io::Error::from_raw_os_error(self.number))
    }
}
