//! Writing a certificate.
ghost use Rattle.std.specs.Prelude.{OnOk};
ghost use Rattle.rasta_pcap.specs.Devices.{Writes, AsWritten};
ghost use Rattle.rasta_cert.specs.Certificate.{AreEntries, IsCertificate, certificate_text, entries_text};

use crate::certificate::Certificate;
use crate::entry::Entry;
use crate::line::put_entry;
use rasta_line::Line;
use rasta_pcap::{Fault, Sink, write_all};

// Writes a line for each entry.
fn write_entries<W: Sink>(entries: &[Entry], writer: &mut W) -> Result<(), Fault>
    ensures out { Writes result (W.contents writer.old) (W.contents writer.new) (entries_text entries.now) }
    ensures valid { OnOk result (AreEntries entries.now) }
    ensures written { AsWritten W.failure_count result writer.old writer.new }
{
    let mut line = Line::new();
    for entry in entries {
        put_entry(&mut line, *entry);
        write_all(writer, line.as_bytes())?;
    }
    Ok(())
}

/// Writes the text of a certificate. No memory is taken.
///
/// Refused by [`Fault::WRITE_FAILED`], where the writer failed or took no byte; what was written is then
/// a beginning of the text.
pub fn write<W: Sink>(certificate: &Certificate, writer: &mut W) -> Result<(), Fault>
    ensures out { Writes result (W.contents writer.old) (W.contents writer.new) (certificate_text certificate.now) }
    ensures valid { OnOk result (IsCertificate certificate.now) }
    ensures written { AsWritten W.failure_count result writer.old writer.new }
{
    write_all(writer, b"rasta-certificate 1\nclient\n")?;
    write_entries(certificate.client(), writer)?;
    write_all(writer, b"server\n")?;
    write_entries(certificate.server(), writer)?;
    write_all(writer, b"end\n")
}
