//! Reading as many bytes as are asked for, and all that are left.
ghost use Rattle.std.specs.Prelude.{◌≡◌, ◌<◌, ◌≤◌, ◌⊎◌, ◌++◌, length, take, IfErr, IfOk, IfSome, OnOk};
ghost use Rattle.std.specs.Io.KnownBytes.{Appends};
ghost use Rattle.rasta_pcap.specs.Fault.{read_failed, write_failed};
ghost use Rattle.rasta_pcap.specs.Filling.{IsFilled};

use rasta_pcap::{Fault, Sink, Source, write_all};

/// Reads so many bytes into the front of the buffer, or all up to the end of input, and says how many came.
pub fn fill<S: Source>(source: &mut S, buf: &mut [u8], len: usize) -> Result<usize, Fault>
    requires { len ≤ length buf.old }
    ensures bound { IfOk result (λ n. n ≤ len) }
    ensures kept { length buf.new ≡ length buf.old }
    ensures filled { IfOk result (λ n. IsFilled len (S.remaining source.old) (S.remaining source.new) (take n buf.new)) }
    ensures err { IfErr result (λ f. f ≡ read_failed) }
{
    let mut filled = 0;
    while filled < len {
        match source.read(&mut buf[filled..len]) {
            Ok(0) => break,
            Ok(n) => filled += n,
            Err(_) => return Err(Fault::at(Fault::READ_FAILED, 0)),
        }
    }
    Ok(filled)
}

// Writes all that is left of a source.
fn copy<S: Source, W: Sink>(source: &mut S, buffer: &mut [u8], writer: &mut W) -> Result<(), Fault>
    requires { 0 < length buffer.old }
    ensures kept { length buffer.new ≡ length buffer.old }
    ensures written { IfSome (S.remaining source.old) (λ bytes. OnOk result (Appends (W.contents writer.old) (W.contents writer.new) bytes)) }
    ensures err { IfErr result (λ f. (f ≡ read_failed) ⊎ (f ≡ write_failed)) }
{
    for _ in 0..u64::MAX {
        let Ok(n) = source.read(buffer) else {
            return Err(Fault::at(Fault::READ_FAILED, 0));
        };
        if n == 0 {
            return Ok(());
        }
        write_all(writer, &buffer[..n])?;
    }
    // No file has so many bytes.
    Err(Fault::at(Fault::READ_FAILED, 0))
}

/// Writes what was read of a source, and then all that is left of it.
pub fn write_rest<S: Source, W: Sink>(
    front: &[u8],
    source: &mut S,
    buffer: &mut [u8],
    writer: &mut W,
) -> Result<(), Fault>
    requires { 0 < length buffer.old }
    ensures kept { length buffer.new ≡ length buffer.old }
    ensures written { IfSome (S.remaining source.old) (λ bytes. OnOk result
        (Appends (W.contents writer.old) (W.contents writer.new) (front.now ++ bytes))) }
    ensures err { IfErr result (λ f. (f ≡ read_failed) ⊎ (f ≡ write_failed)) }
{
    write_all(writer, front)?;
    copy(source, buffer, writer)
}
