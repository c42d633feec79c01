//! Writing what a side surely took.
ghost use Rattle.std.specs.Prelude.{◌≡◌, ◌∷◌, [], map, decimal};
ghost use Rattle.rasta_pcap.specs.Devices.{Writes, AsWritten};
ghost use Rattle.rasta_check.specs.Verdict.Listed.{listed_of};
ghost use Rattle.rasta_line.specs.Texts.{words_before};
ghost use Rattle.rasta_verdict.specs.Verdict.{taken_count_line, taken_line, taken_lines, taken_text};

use rasta_check::Taken;
use rasta_line::{Line, end_name, write_message};
use rasta_pcap::write_all;
use rasta_pdu::{Fault, Side, Sink};

// Makes the line that says how many messages a side took.
#[tactic(auto, unfolding(crate::specs::Verdict::taken_count_line))]
fn put_count(line: &mut Line, side: Side, count: u64)
    ensures { line.new ≡ taken_count_line side count }
{
    line.begin_with_number(count);
    line.word(end_name(Some(side)).as_bytes());
    line.word(b"by");
    line.word(b"taken");
}

// Makes what comes before a message's bytes.
fn put_places(line: &mut Line, taken: &Taken<'_>)
    ensures { line.new ≡ words_before (decimal taken.now.message ∷ decimal taken.now.data_index ∷ decimal taken.now.proof_index ∷ []) [] }
{
    line.clear();
    line.number(taken.proof_index);
    line.number(taken.data_index);
    line.long_number(taken.message);
}

// Writes the line of a message.
fn write_taken_message<W: Sink>(
    taken: &Taken<'_>,
    line: &mut Line,
    writer: &mut W,
) -> Result<(), Fault>
    ensures out { Writes result (W.contents writer.old) (W.contents writer.new) (taken_line (listed_of taken.now)) }
    ensures written { AsWritten W.failure_count result writer.old writer.new }
{
    put_places(line, taken);
    write_all(writer, line.as_bytes())?;
    write_message(taken.bytes, writer)?;
    write_all(writer, b"\n")
}

// Writes a line for each message.
fn write_messages<W: Sink>(
    taken: &[Taken<'_>],
    line: &mut Line,
    writer: &mut W,
) -> Result<(), Fault>
    ensures out { Writes result (W.contents writer.old) (W.contents writer.new) (taken_lines (map listed_of taken.now)) }
    ensures written { AsWritten W.failure_count result writer.old writer.new }
{
    for message in taken {
        write_taken_message(message, line, writer)?;
    }
    Ok(())
}

/// Writes how many messages a side took, and which.
pub fn write_taken<W: Sink>(
    side: Side,
    taken: &[Taken<'_>],
    line: &mut Line,
    writer: &mut W,
) -> Result<(), Fault>
    ensures out { Writes result (W.contents writer.old) (W.contents writer.new) (taken_text side (map listed_of taken.now)) }
    ensures written { AsWritten W.failure_count result writer.old writer.new }
{
    put_count(line, side, taken.len() as u64);
    write_all(writer, line.as_bytes())?;
    write_messages(taken, line, writer)
}
