//! The last line of `show`.
ghost use Rattle.std.specs.Prelude.{◌≡◌};
ghost use Rattle.rasta_show.specs.Lines.{packets_line};

use rasta_line::Line;

/// The last line, where so many packets were shown.
#[tactic(auto, unfolding(crate::specs::Lines::packets_line))]
pub fn count_line(packets: u32) -> Line
    ensures { result ≡ packets_line packets }
{
    let mut line = Line::new();
    line.begin_with_number(u64::from(packets));
    line.word(b"packets");
    line
}
