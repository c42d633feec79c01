//! The lines of entries.
ghost use Rattle.std.specs.Prelude.{◌≡◌, ◌≤◌, length};
ghost use Rattle.rasta_cert.specs.Certificate.{IsEntry, entry_line, why_line};
ghost use Rattle.rasta_cert.specs.declared.entry.Entry.TheVariants.{Take, Make};

use crate::entry::Entry;
use rasta_end::Why;
use rasta_line::Line;

/// Begins a line with the reason of a make.
pub fn begin_with_why(line: &mut Line, why: Why)
    ensures line { line.new ≡ why_line why }
    ensures short { length line.new ≤ 27 }
{
    match why {
        Why::Open => line.begin_with_word(b"open"),
        Why::Reply => line.begin_with_word(b"reply"),
        Why::Beat => line.begin_with_word(b"beat"),
        Why::Fresh => line.begin_with_word(b"fresh"),
        Why::Again(unit) => {
            line.begin_with_number(u64::from(unit));
            line.word(b"again");
        }
        Why::Ask => line.begin_with_word(b"ask"),
        Why::Bye => line.begin_with_word(b"bye"),
        Why::Expired => line.begin_with_word(b"expired"),
    }
}

#[tactic(auto, unfolding(crate::specs::Certificate::entry_line))]
fn put_take(line: &mut Line, slot: u32, number: u32)
    ensures { line.new ≡ entry_line (Take slot number) }
{
    line.begin_with_number(u64::from(number));
    line.number(slot);
    line.word(b"take");
}

#[tactic(auto, unfolding(crate::specs::Certificate::entry_line))]
fn put_make(line: &mut Line, index: u32, clock: u64, why: Why)
    ensures { line.new ≡ entry_line (Make index clock why) }
{
    begin_with_why(line, why);
    line.long_number(clock);
    line.number(index);
    line.word(b"make");
}

/// Makes the line of an entry. What the line held doesn't matter.
pub fn put_entry(line: &mut Line, entry: Entry)
    ensures line { line.new ≡ entry_line entry }
    ensures valid { IsEntry entry }
{
    match entry {
        Entry::Take { slot, number } => put_take(line, slot, number),
        Entry::Make { index, clock, why } => put_make(line, index, clock, why),
    }
}
