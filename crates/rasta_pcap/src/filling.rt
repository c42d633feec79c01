//! Reading as many bytes as are asked for.
ghost use Rattle.std.specs.Prelude.{◌≡◌, ◌≤◌, take, length, IfOk, IfErr, OnOk, OnErr};
ghost use Rattle.rasta_pcap.specs.Fault.{read_failed};
ghost use Rattle.rasta_pcap.specs.Devices.{HasFailed};
ghost use Rattle.rasta_pcap.specs.Filling.{IsFilled, ReadsUpTo};
ghost use Rattle.rasta_pcap.specs.Noting.{PassesOn};

use crate::counted::Source;
use crate::fault::Fault;

// Reads so many bytes into the front of the buffer, or all up to the end of input, and says how many
// came.
#[inline(always)]
pub fn fill<S: Source>(reader: &mut S, buf: &mut [u8], len: usize) -> Result<usize, Fault>
    requires { len ≤ length buf.old }
    ensures bound { IfOk result (λ n. n ≤ length buf.new) }
    ensures filled { IfOk result (λ n. IsFilled len (S.remaining reader.old) (S.remaining reader.new) (take n buf.new)) }
    ensures steady { OnOk result (S.failure_count reader.new ≡ S.failure_count reader.old) }
    ensures err { IfErr result (λ f. (f ≡ read_failed)
        × HasFailed (S.failure_count reader.old) (S.failure_count reader.new)) }
    ensures begun { OnErr result (ReadsUpTo len (S.remaining reader.old) (S.remaining reader.new)) }
    ensures passed { PassesOn S.remaining S.notes reader.old reader.new }
{
    let mut filled = 0;
    while filled < len {
        match reader.read(&mut buf[filled..len]) {
            Ok(0) => break,
            Ok(n) => filled += n,
            Err(_) => return Err(Fault::at(Fault::READ_FAILED, 0)),
        }
    }
    Ok(filled)
}
