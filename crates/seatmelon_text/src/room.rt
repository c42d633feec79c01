//! A room in which short parts of a text are gathered, so that many of them are written at once.
ghost use Rattle.std.specs.Prelude.{◌≡◌, ◌≤◌, IfErr};
ghost use Rattle.rasta_pcap.specs.Devices.{AsWritten};

use rasta_pcap::{Fault, Sink, write_all};

/// How many bytes of a text are written at once.
pub(crate) const ROOM: usize = 256;

/// Bytes that are yet to be written.
#[derive(Drop)]
pub struct Room {
    bytes: [u8; ROOM],
    len: usize,
    ghost within: { len ≤ 256 },
}

impl Room {
    /// A room with nothing in it.
    pub fn new() -> Room {
        Room {
            bytes: [0; ROOM],
            len: 0,
        }
    }

    // Puts bytes behind those that are there, if they fit, and answers whether they do.
    #[inline(always)]
    fn append(&mut self, bytes: &[u8]) -> bool {
        if bytes.len() > ROOM - self.len {
            return false;
        }
        let end = self.len + bytes.len();
        self.bytes[self.len..end].copy_from_slice(bytes);
        self.len = end;
        true
    }

    /// Puts bytes behind those that are there. Where they don't fit, those that are there are written first.
    #[inline(always)]
    pub fn put<W: Sink>(&mut self, writer: &mut W, bytes: &[u8]) -> Result<(), Fault>
        ensures written { AsWritten W.failure_count result writer.old writer.new }
    {
        if self.append(bytes) {
            Ok(())
        } else {
            self.put_behind(writer, bytes)
        }
    }

    // Writes what is there, and puts bytes in its place; those that are longer than the room are written too.
    #[inline(never)]
    fn put_behind<W: Sink>(&mut self, writer: &mut W, bytes: &[u8]) -> Result<(), Fault>
        ensures written { AsWritten W.failure_count result writer.old writer.new }
    {
        self.write(writer)?;
        if self.append(bytes) {
            Ok(())
        } else {
            write_all(writer, bytes)
        }
    }

    /// Writes what is there, and leaves the room empty.
    pub fn write<W: Sink>(&mut self, writer: &mut W) -> Result<(), Fault>
        ensures written { AsWritten W.failure_count result writer.old writer.new }
    {
        let len = self.len;
        self.len = 0;
        write_all(writer, &self.bytes[..len])
    }
}
