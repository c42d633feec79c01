//! What a script begins with.
ghost use Rattle.std.specs.Prelude.{◌≡◌, ◌<◌, ℕ, suc, [], ◌∷◌, IfNone, IfSome, option_map};
ghost use Rattle.rasta_cert.specs.declared.entry.Entry.TheVariants.{Take};
ghost use Rattle.rasta_check.specs.Run.Levels.{made_in, makes_at, taken_in, takes_at};
ghost use Rattle.rasta_verdict.specs.Told.{IsOrderedFrom};
ghost use Rattle.rasta_verdict.specs.Passed.{clock_and_why, makes_of};

use crate::run_lines::Made;
use rasta_cert::Entry;

// The number that an entry takes, where its slot is this level.
fn taken(level: u32, entry: Entry) -> Option<u32>
    ensures { result ≡ taken_in level entry }
{
    match entry {
        Entry::Take { slot, number } => { if slot == level { Some(number) } else { None } }
        Entry::Make { .. } => None,
    }
}

// When and why an entry makes the packet at this place, if it does.
fn made(place: u32, entry: Entry) -> Option<Made>
    ensures { option_map clock_and_why result ≡ made_in place entry }
{
    match entry {
        Entry::Make { index, clock, why } => {
            if index == place {
                Some(Made { clock, why })
            } else {
                None
            }
        }
        Entry::Take { .. } => None,
    }
}

/// The number that a script takes first, where its slot is this level, and what is left of the script.
pub fn next_take(level: u32, script: &[Entry]) -> Option<(u32, &[Entry])>
    requires { IsOrderedFrom level script.now }
    ensures found { IfSome result (λ r. script.entry.now ≡ Take level r.0 ∷ r.1.now) }
    ensures none { IfNone result (takes_at level script.entry.now ≡ []) }
{
    let (entry, rest) = script.split_first()?;
    let number = taken(level, *entry)?;
    Some((number, rest))
}

/// The make of the packet at this place, where the script begins with it, and what is left of the script.
pub fn pass_make(place: u32, script: &[Entry]) -> (Option<Made>, &[Entry])
    requires order { IsOrderedFrom place script.now }
    requires no_takes { takes_at place script.now ≡ [] }
    ensures made { makes_of result.0 ≡ makes_at place script.entry.now }
    ensures order { IsOrderedFrom (suc place) result.1.now }
    ensures takes { (later : ℕ) → takes_at later result.1.now ≡ takes_at later script.entry.now }
    ensures makes { (later : ℕ) → place < later → makes_at later result.1.now ≡ makes_at later script.entry.now }
{
    let Some((entry, rest)) = script.split_first() else {
        return (None, script);
    };
    match made(place, *entry) {
        Some(made) => (Some(made), rest),
        None => (None, script),
    }
}
