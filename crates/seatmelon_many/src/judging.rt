//! Parameter files, all of them read and judged before the capture is.
ghost use Rattle.std.specs.Prelude.{◌≡◌, ◌≤◌, ◌+◌, ℕ, length, IfOk, OnOk};
ghost use Rattle.sha2.specs.Sha256.{sha256};
ghost use Rattle.seatmelon_many.specs.Files.{count_in};
ghost use Rattle.seatmelon_many.specs.Judged.{AreOf};

use crate::files::{Origin, ParameterFiles};
use rasta_pdu::Params;
use seatmelon_commands::whole_file;
use seatmelon_failures::{DeviceFailure, InputFailure, params_in};
use sha2::{Digest, Sha256};
use std::alloc::{AllocError, Global};
use std::rt::Files;

/// The parameters of files, and the SHA-256 of each file, in the order of the files.
#[derive(Drop)]
pub struct Recorded {
    pub params: Vec<Params>,
    pub sums: Vec<[u8; 32]>,
}

/// What parameter files come to.
#[derive(Drop)]
pub enum Judged {
    /// The parameters.
    All(Recorded),

    /// One of the files at least is refused, or can't be read, which was told: the program's status.
    Refused(u8),
}

// The parameters of a file, and its SHA-256.
#[derive(Clone, Copy)]
struct ParameterFile {
    params: Params,
    sum: [u8; 32],
}

impl Recorded {
    fn new(alloc: Global) -> Recorded
        ensures { length result.params.items ≡ 0 }
    {
        Recorded {
            params: Vec::new(alloc),
            sums: Vec::new(alloc),
        }
    }

    // Adds those of one more file.
    fn add(&mut self, file: ParameterFile) -> Result<(), AllocError>
        ensures { OnOk result (length self.new.params.items ≡ length self.old.params.items + 1) }
    {
        match (self.sums.push(file.sum), self.params.push(file.params)) {
            (Ok(()), Ok(())) => Ok(()),
            _ => Err(AllocError),
        }
    }
}

// The SHA-256 of a text.
fn sum_of(text: &[u8]) -> [u8; 32]
    ensures { result ≡ sha256 text.now }
{
    let mut sum = [0; 32];
    sum.copy_from_slice(&Sha256::digest(text));
    sum
}

// What the file of that path holds.
fn file_at<R: AllocGlobal + Files>(rt: &R, path: &str) -> Result<ParameterFile, InputFailure> {
    let text = whole_file(rt, path)?;
    let params = params_in(rt.alloc(), path, &text)?;
    let sum = sum_of(&text);
    Ok(ParameterFile { params, sum })
}

// Why a file that was named so has no parameters.
fn told_of(failure: InputFailure, origin: Origin) -> InputFailure {
    match origin {
        Origin::Named => failure,
        Origin::Folder => failure.of_folder(),
    }
}

// What the file of that path holds, which was named so.
fn file_of<R: AllocGlobal + Files>(
    rt: &R,
    path: &str,
    origin: Origin,
) -> Result<ParameterFile, InputFailure> {
    match file_at(rt, path) {
        Ok(file) => Ok(file),
        Err(failure) => Err(told_of(failure, origin)),
    }
}

// The status where one more file is refused by this failure, which is told; 3 stands over 2.
fn refused<R: Eprint>(rt: &R, judged: &Judged, failure: &InputFailure) -> u8
    ensures least { 2 ≤ result }
    ensures most { result ≤ 3 }
{
    // Where standard error fails too, the status alone tells.
    let _ = eprintln!(rt; "seatmelon: {failure}");
    match judged {
        Judged::Refused(3) => 3,
        Judged::All(_) | Judged::Refused(_) => failure.status(),
    }
}

// What the files come to with one more, of which this is read.
fn with_one<R: Eprint>(
    rt: &R,
    judged: Judged,
    read: Result<ParameterFile, InputFailure>,
) -> Result<Judged, AllocError>
    ensures { (n : ℕ) → AreOf n judged → IfOk result (AreOf (n + 1)) }
{
    match (read, judged) {
        (Ok(file), Judged::All(mut all)) => match all.add(file) {
            Ok(()) => Ok(Judged::All(all)),
            Err(error) => Err(error),
        },
        (Ok(_), refused) => Ok(refused),
        (Err(InputFailure::Device(DeviceFailure::OutOfMemory)), _) => Err(AllocError),
        (Err(failure), judged) => Ok(Judged::Refused(refused(rt, &judged, &failure))),
    }
}

/// Reads parameter files and judges them. Each that is refused, or can't be read, is told on standard error.
pub fn judge<R: AllocGlobal + Files + Eprint>(
    rt: &R,
    files: &ParameterFiles,
) -> Result<Judged, AllocError>
    ensures { IfOk result (AreOf (count_in files.now)) }
{
    let mut judged = Judged::All(Recorded::new(rt.alloc()));
    for (place, path) in files.names().iter().enumerate() {
        let read = file_of(rt, path.as_str(), files.origin(place));
        judged = with_one(rt, judged, read)?;
    }
    Ok(judged)
}
