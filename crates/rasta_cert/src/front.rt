//! The entry at the front of a text, read in one go: the end of its line isn't looked for first.
ghost use Rattle.std.specs.Prelude.{◌≡◌, ◌≢◌, ℕ, ◌<◌, ◌^◌, List, ◌++◌, ◌∷◌, IfNone, IfSome, codes, length, take};
ghost use Rattle.rasta_end.specs.declared.why.Why.{Why};
ghost use Rattle.rasta_cert.specs.declared.entry.Entry.{Entry};
ghost use Rattle.std.specs.Char.{digit_value};
ghost use Rattle.std.specs.Fmt.{decimal};
ghost use Rattle.std.specs.Option.{SomeIff};
ghost use Rattle.rasta_cert.specs.Certificate.{IsEntry, IsReason, entry_line, why_line};

use crate::entry::Entry;
use crate::fields::{number, parts};
use rasta_end::Why;

// The places of up to 18 digits, whose number has 64 bits at most, and of the byte after them.
const PLACES: usize = 19;

fn digit(byte: u8) -> Option<u64>
    ensures { SomeIff result (digit_value byte < 10) (digit_value byte) }
{
    let digit = u64::from(byte).wrapping_sub(u64::from(b'0'));
    if digit < 10 { Some(digit) } else { None }
}

// What follows so many bytes, at least one, and then this byte.
fn after(text: &[u8], count: usize, byte: u8) -> Option<&[u8]>
    requires { count < length text.now }
    ensures text { IfSome result (λ rest. text.entry.now ≡ take count text.entry.now ++ (byte ∷ rest.now)) }
    ensures some { IfSome result (λ rest. 0 < count) }
{
    if count > 0 && text[count] == byte {
        Some(&text[count + 1..])
    } else {
        None
    }
}

// The number whose decimal text stands at the front with this byte after it, and what follows both. A zero isn't
// read here, nor a number of more than 18 digits, nor what stands near the end of the text: so no place has to be
// compared with that end, and no digit takes the number out of 64 bits.
fn short_number_before(text: &[u8], byte: u8) -> Option<(u64, &[u8])>
    ensures text { IfSome result (λ p. text.entry.now ≡ decimal p.0 ++ (byte ∷ p.1.now)) }
    ensures fits { IfSome result (λ p. p.0 < 2 ^ 64) }
{
    if text.len() < PLACES || text[0] == b'0' {
        return None;
    }
    let mut value = 0;
    for count in 0..PLACES {
        let Some(digit) = digit(text[count]) else {
            let rest = after(text, count, byte)?;
            return Some((value, rest));
        };
        value = value * 10 + digit;
    }
    None
}

// The same for every number of 64 bits, wherever it stands: the byte is looked for first.
#[inline(never)]
fn any_number_before(text: &[u8], byte: u8) -> Option<(u64, &[u8])>
    requires { byte < 48 }
    ensures text { IfSome result (λ p. text.entry.now ≡ decimal p.0 ++ (byte ∷ p.1.now)) }
    ensures fits { IfSome result (λ p. p.0 < 2 ^ 64) }
    ensures none { IfNone result ((n : ℕ) (rest : List ℕ) → n < 2 ^ 64 → text.entry.now ≢ decimal n ++ (byte ∷ rest)) }
{
    let (digits, rest) = parts(text, byte)?;
    let value = number(digits, u64::MAX)?;
    Some((value, rest))
}

// The same for every number, first in the way that reads most of them.
fn number_before(text: &[u8], byte: u8) -> Option<(u64, &[u8])>
    requires { byte < 48 }
    ensures text { IfSome result (λ p. text.entry.now ≡ decimal p.0 ++ (byte ∷ p.1.now)) }
    ensures fits { IfSome result (λ p. p.0 < 2 ^ 64) }
    ensures none { IfNone result ((n : ℕ) (rest : List ℕ) → n < 2 ^ 64 → text.entry.now ≢ decimal n ++ (byte ∷ rest)) }
{
    match short_number_before(text, byte) {
        Some(found) => Some(found),
        None => any_number_before(text, byte),
    }
}

fn number_32_before(text: &[u8], byte: u8) -> Option<(u32, &[u8])>
    requires { byte < 48 }
    ensures text { IfSome result (λ p. text.entry.now ≡ decimal p.0 ++ (byte ∷ p.1.now)) }
    ensures fits { IfSome result (λ p. p.0 < 2 ^ 32) }
    ensures none { IfNone result ((n : ℕ) (rest : List ℕ) → n < 2 ^ 32 → text.entry.now ≢ decimal n ++ (byte ∷ rest)) }
{
    let (number, rest) = number_before(text, byte)?;
    if number <= 4294967295 {
        Some((number as u32, rest))
    } else {
        None
    }
}

// The entry whose line is `take`, a space and the front of the text, and what follows that line.
fn take(text: &[u8]) -> Option<(Entry, &[u8])>
    ensures line { IfSome result (λ p. codes "take " ++ text.entry.now ≡ entry_line p.0 ++ p.1.now) }
    ensures valid { IfSome result (λ p. IsEntry p.0) }
    ensures none { IfNone result ((e : Entry) (rest : List ℕ) → IsEntry e → codes "take " ++ text.entry.now ≢ entry_line e ++ rest) }
{
    let (slot, rest) = number_32_before(text, b' ')?;
    let (number, rest) = number_32_before(rest, b'\n')?;
    Some((Entry::Take { slot, number }, rest))
}

// The reason whose words stand at the front with the end of the line after them, and what follows both. The
// commonest are tried first.
fn reason(text: &[u8]) -> Option<(Why, &[u8])>
    ensures line { IfSome result (λ p. text.entry.now ≡ why_line p.0 ++ p.1.now) }
    ensures valid { IfSome result (λ p. IsReason p.0) }
    ensures none { IfNone result ((why : Why) (rest : List ℕ) → IsReason why → text.entry.now ≢ why_line why ++ rest) }
{
    if text.starts_with(b"fresh\n") {
        Some((Why::Fresh, &text[6..]))
    } else if text.starts_with(b"beat\n") {
        Some((Why::Beat, &text[5..]))
    } else if text.starts_with(b"reply\n") {
        Some((Why::Reply, &text[6..]))
    } else if text.starts_with(b"again ") {
        let (unit, rest) = number_32_before(&text[6..], b'\n')?;
        Some((Why::Again(unit), rest))
    } else if text.starts_with(b"ask\n") {
        Some((Why::Ask, &text[4..]))
    } else if text.starts_with(b"bye\n") {
        Some((Why::Bye, &text[4..]))
    } else if text.starts_with(b"open\n") {
        Some((Why::Open, &text[5..]))
    } else if text.starts_with(b"expired\n") {
        Some((Why::Expired, &text[8..]))
    } else {
        None
    }
}

// The entry whose line is `make`, a space and the front of the text, and what follows that line.
fn make(text: &[u8]) -> Option<(Entry, &[u8])>
    ensures line { IfSome result (λ p. codes "make " ++ text.entry.now ≡ entry_line p.0 ++ p.1.now) }
    ensures valid { IfSome result (λ p. IsEntry p.0) }
    ensures none { IfNone result ((e : Entry) (rest : List ℕ) → IsEntry e → codes "make " ++ text.entry.now ≢ entry_line e ++ rest) }
{
    let (index, rest) = number_32_before(text, b' ')?;
    let (clock, rest) = number_before(rest, b' ')?;
    let (why, rest) = reason(rest)?;
    Some((Entry::Make { index, clock, why }, rest))
}

/// The entry with whose line the text begins, and what follows that line.
pub fn front_entry(text: &[u8]) -> Option<(Entry, &[u8])>
    ensures line { IfSome result (λ p. text.entry.now ≡ entry_line p.0 ++ p.1.now) }
    ensures valid { IfSome result (λ p. IsEntry p.0) }
    ensures none { IfNone result ((e : Entry) (rest : List ℕ) → IsEntry e → text.entry.now ≢ entry_line e ++ rest) }
{
    if text.starts_with(b"take ") {
        take(&text[5..])
    } else if text.starts_with(b"make ") {
        make(&text[5..])
    } else {
        None
    }
}
