//! The lines of a run.
ghost use Rattle.std.specs.Prelude.{◌≡◌};
ghost use Rattle.rasta_verdict.specs.RunText.{copy_text, make_text, take_text};

use rasta_cert::begin_with_why;
use rasta_end::Why;
use rasta_line::{Line, end_name};
use rasta_pdu::Side;

/// When and why an end made a packet.
#[derive(Clone, Copy)]
pub struct Made {
    /// In milliseconds.
    pub clock: u64,
    pub why: Why,
}

/// Makes the line of a take: the slot, the end that takes, and the redundancy number.
#[tactic(auto, unfolding(crate::specs::RunText::take_text))]
pub fn put_take(line: &mut Line, level: u32, side: Side, number: u32)
    ensures { line.new ≡ take_text level side number }
{
    line.begin_with_number(u64::from(number));
    line.word(b"take");
    line.word(end_name(Some(side)).as_bytes());
    line.number(level);
}

/// Makes the line of a packet that its end made.
#[tactic(auto, unfolding(crate::specs::RunText::make_text))]
pub fn put_make(line: &mut Line, place: u32, side: Side, number: u32, made: Made)
    ensures { line.new ≡ make_text place side number (made.clock, made.why) }
{
    begin_with_why(line, made.why);
    line.long_number(made.clock);
    line.number(number);
    line.word(b"make");
    line.word(end_name(Some(side)).as_bytes());
    line.number(place);
}

/// Makes the line of a packet that is a copy of an earlier one.
#[tactic(auto, unfolding(crate::specs::RunText::copy_text))]
pub fn put_copy(line: &mut Line, place: u32, side: Side, number: u32)
    ensures { line.new ≡ copy_text place side number }
{
    line.begin_with_number(u64::from(number));
    line.word(b"copy");
    line.word(end_name(Some(side)).as_bytes());
    line.number(place);
}
