//! The names of ends, and the line of a refusal.
ghost use Rattle.std.specs.Prelude.{◌≡◌, ◌≤◌, IfOk, length};
ghost use Rattle.rasta_pcap.specs.Devices.{Writes, AsWritten};
ghost use Rattle.rasta_line.specs.Texts.{end_text, refused_line};

use crate::line::Line;
use rasta_pcap::{Fault, Side, Sink, write_all};

/// The name of an end, `-` where there is none.
pub fn end_name(end: Option<Side>) -> &'static str
    ensures text { result.now ≡ end_text end }
    ensures short { length result.now ≤ 6 }
{
    match end {
        Some(Side::Client) => "client",
        Some(Side::Server) => "server",
        None => "-",
    }
}

/// The line of a refusal.
#[tactic(auto, unfolding(crate::specs::Texts::refused_line))]
pub fn refusal_line(fault: Fault) -> Line
    ensures { result ≡ refused_line fault }
{
    let mut line = Line::new();
    line.begin_with_word(end_name(fault.end).as_bytes());
    line.number(fault.place);
    line.word(fault.name().as_bytes());
    line.number(u32::from(fault.number));
    line.word(b"refused");
    line
}

/// Writes the refusal that ends a text, and answers the status of the program, 1.
pub fn write_refusal<W: Sink>(fault: Fault, writer: &mut W) -> Result<u8, Fault>
    ensures out { Writes result (W.contents writer.old) (W.contents writer.new) (refused_line fault) }
    ensures answered { IfOk result (λ status. status ≡ 1) }
    ensures written { AsWritten W.failure_count result writer.old writer.new }
{
    write_all(writer, refusal_line(fault).as_bytes())?;
    Ok(1)
}
