//! Where the program writes.
ghost use Rattle.std.specs.Prelude.{◌≡◌, IfOk, Ok};

use crate::watched::Watched;
use rasta_pcap::{BUFFER, Counted, Fault};
use seatmelon_failures::{DeviceFailure, unread, unwritten, unwritten_at};
use std::alloc::Global;
use std::io;
use std::io::{BufWriter, Write};

/// A device that is written to by large pieces.
pub type Output<W> = Counted<BufWriter<Watched<W>>>;

/// A device to be written to by large pieces.
pub fn output_to<W: Write + Drop>(alloc: Global, device: W) -> Result<Output<W>, DeviceFailure> {
    match BufWriter::with_capacity(alloc, BUFFER, Watched::new(device)) {
        Ok(buffered) => Ok(Counted::new(buffered)),
        Err(_) => Err(DeviceFailure::OutOfMemory),
    }
}

/// Why an answer isn't written: a fault, and the error of the writer, if that failed.
#[derive(Clone, Copy)]
pub struct Stopped {
    pub fault: Fault,
    pub error: Option<io::Error>,
}

/// What the writing came to, once all that was written is out; nothing more is written where it failed.
pub fn flushed<W: Write + Drop, T: Drop>(
    output: Output<W>,
    outcome: Result<T, Fault>,
) -> Result<T, Stopped>
    ensures { IfOk result (λ answer. outcome ≡ Ok answer) }
{
    let mut buffered = output.into_inner();
    let fault = match outcome {
        Ok(answer) => match buffered.flush() {
            Ok(()) => return Ok(answer),
            Err(_) => Fault::at(Fault::WRITE_FAILED, 0),
        },
        Err(fault) => fault,
    };
    let (device, _) = buffered.into_parts();
    Err(Stopped {
        fault,
        error: device.error(),
    })
}

/// Why something failed that reads the file of that path and writes to standard output, with the error of the reader.
pub fn failed(
    alloc: Global,
    path: &str,
    stopped: Stopped,
    reading: Option<io::Error>,
) -> DeviceFailure {
    match stopped.fault.number {
        Fault::READ_FAILED => unread(alloc, path, reading),
        Fault::WRITE_FAILED => unwritten(alloc, stopped.error),
        _ => DeviceFailure::OutOfMemory,
    }
}

/// Ends what was written to the device of that name, which is all out then.
pub fn finish<W: Write + Drop>(
    alloc: Global,
    name: &str,
    output: Output<W>,
    written: Result<(), Fault>,
) -> Result<(), DeviceFailure> {
    match flushed(output, written) {
        Ok(()) => Ok(()),
        Err(stopped) => Err(unwritten_at(alloc, name, stopped.error)),
    }
}
