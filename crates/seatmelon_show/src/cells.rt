//! The cells of a line, each as wide as its column at least.
ghost use Rattle.rasta_pcap.specs.Devices.{AsWritten};

use itoa::Buffer;
use rasta_pcap::{Fault, Sink, write_all};

// As many blanks as the widest column has.
const BLANKS: [u8; 26] = [b' '; 26];

/// What stands in a cell.
#[derive(Clone, Copy)]
pub enum Cell<'a> {
    /// Words, at the left.
    Words(&'a str),

    /// A number, at the right, or a dash where there is none.
    Number(Option<u32>),
}

// Writes so many blanks, as far as a column is wide.
fn write_blanks<W: Sink>(writer: &mut W, count: usize) -> Result<(), Fault>
    ensures written { AsWritten W.failure_count result writer.old writer.new }
{
    write_all(writer, &BLANKS[..count.min(BLANKS.len())])
}

// Writes what stands at the right of a cell.
fn write_right<W: Sink>(writer: &mut W, text: &[u8], width: usize) -> Result<(), Fault>
    ensures written { AsWritten W.failure_count result writer.old writer.new }
{
    write_blanks(writer, width.saturating_sub(text.len()))?;
    write_all(writer, text)
}

fn write_number<W: Sink>(writer: &mut W, n: u32, width: usize) -> Result<(), Fault>
    ensures written { AsWritten W.failure_count result writer.old writer.new }
{
    let mut buffer = Buffer::new();
    write_right(writer, buffer.format(n).as_bytes(), width)
}

/// Writes a cell, and the blanks that part it from the next one.
pub fn write_cell<W: Sink>(writer: &mut W, cell: Cell<'_>, width: usize) -> Result<(), Fault>
    ensures written { AsWritten W.failure_count result writer.old writer.new }
{
    match cell {
        Cell::Words(words) => {
            write_all(writer, words.as_bytes())?;
            write_blanks(writer, width.saturating_sub(words.len()))?;
        }
        Cell::Number(Some(n)) => write_number(writer, n, width)?,
        Cell::Number(None) => write_right(writer, b"-", width)?,
    }
    write_all(writer, b"  ")
}
