//! The audits of many connections in one reading of a capture.
ghost use Rattle.std.specs.Prelude.{◌≡◌, ◌⊎◌, ◌<◌, ◌^◌, length, IfErr, IfOk, IfSome};
ghost use Rattle.std.specs.List.{AllZip};
ghost use Rattle.rasta_pcap.specs.Fault.{no_memory, read_failed};
ghost use Rattle.seatmelon_audit.specs.All.{lines_in};
ghost use Rattle.seatmelon_audit.specs.Audits.{AreAudits, IsConnectionOf};

use crate::answer::{Audit, Connection, connection_of};
use crate::line::Line;
use crate::reading::{Reading, read_all};
use rasta_pcap::{Fault, Source};
use rasta_pdu::Params;
use std::alloc::{AllocError, Global};

// What becomes of each connection, which is let go as soon as it is answered.
fn connections_of(alloc: Global, lines: Vec<Line>) -> Result<Vec<Connection>, AllocError>
    ensures { IfOk result (λ connections. AllZip IsConnectionOf lines.items connections.items) }
{
    let mut connections = Vec::new(alloc);
    for line in lines {
        connections.push(connection_of(alloc, line))?;
    }
    Ok(connections)
}

/// Audits the connections with these parameters in one reading of a capture, to its end or to where no record can be
/// read. Each answer is that of an audit of the capture for that connection alone.
///
/// Memory holds what crosses of all connections at once, and of one that is refused also what its packets show. Refused
/// by [`Fault::NO_MEMORY`] where what is common to all has no room, and by [`Fault::READ_FAILED`]; a connection that has
/// no room is answered so by itself.
pub fn audit<R: Source>(alloc: Global, params: &[Params], reader: &mut R) -> Result<Audit, Fault>
    requires { length params.now < 2 ^ 32 }
    ensures count { IfOk result (λ a. length a.connections.items ≡ length params.now) }
    ensures audits { IfSome (R.remaining reader.old) (λ file. IfOk result (AreAudits params.now file)) }
    ensures err { IfErr result (λ f. (f ≡ no_memory) ⊎ (f ≡ read_failed)) }
{
    let Reading {
        lines,
        records,
        others,
        fault,
    } = read_all(alloc, params, reader)?;
    let connections = connections_of(alloc, lines.into_lines())?;
    Ok(Audit {
        connections,
        records,
        others,
        fault,
    })
}
