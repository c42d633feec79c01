//! Files that are read whole.
ghost use Rattle.std.specs.Prelude.{IfOk};
ghost use Rattle.seatmelon_commands.specs.Watching.{HoldsAll};

use crate::watched::Watched;
use rasta_pcap::{Counted, Fault, read_all};
use seatmelon_failures::{DeviceFailure, unread};
use std::alloc::Global;
use std::fs::File;
use std::io::Read;
use std::rt::Files;

/// All bytes that a reader gives; `path` is its name in the failure.
pub fn whole_of<D: Read + Drop>(
    alloc: Global,
    path: &str,
    file: D,
) -> Result<Vec<u8>, DeviceFailure>
    ensures { IfOk result (λ v. HoldsAll (D.remaining file) v.items) }
{
    let mut source = Counted::new(Watched::new(file));
    match read_all(alloc, &mut source) {
        Ok(bytes) => Ok(bytes),
        Err(fault) if fault.number == Fault::NO_MEMORY => Err(DeviceFailure::OutOfMemory),
        Err(_) => Err(unread(alloc, path, source.into_inner().error())),
    }
}

/// All bytes of the file of that path.
pub fn whole_file<R: AllocGlobal + Files>(rt: &R, path: &str) -> Result<Vec<u8>, DeviceFailure> {
    match File::open(rt, path) {
        Ok(file) => whole_of(rt.alloc(), path, file),
        Err(error) => Err(unread(rt.alloc(), path, Some(error))),
    }
}
