//! The fields of a line: the parts of a text, and the numbers that they spell.
ghost use Rattle.std.specs.Prelude.{◌≡◌, ◌+◌, ◌*◌, ◌<◌, ◌≤◌, ◌^◌, ◌==◌, ◌↔◌, IsTrue, IfSome, length, position, option_map, slice_index};
ghost use Rattle.std.specs.Char.{digit_value};
ghost use Rattle.std.specs.Option.{SomeIff};
ghost use Rattle.std.specs.Str.Parse.{AllDigits, digits_value};
ghost use Rattle.rasta_line.specs.Words.{cut, decimal_of};

fn position_of(text: &[u8], byte: u8) -> Option<usize>
    ensures { result ≡ position (λ b. b == byte) text.now }
{
    text.iter().position(|b| *b == byte)
}

/// The parts around the first of this byte.
#[tactic(auto, unfolding(rasta_line::specs::Words::cut))]
pub fn parts(text: &[u8], byte: u8) -> Option<(&[u8], &[u8])>
    ensures { option_map (λ p. (p.0.now, p.1.now)) result ≡ cut byte text.entry.now }
{
    let at = position_of(text, byte)?;
    Some((&text[..at], &text[at + 1..]))
}

// The number with one digit more, if it fits.
fn with_digit(value: u64, byte: u8) -> Option<u64>
    ensures { SomeIff result ((digit_value byte < 10) × (value * 10 + digit_value byte < 2 ^ 64)) (value * 10 + digit_value byte) }
{
    if !byte.is_ascii_digit() {
        return None;
    }
    let digit = u64::from(byte - b'0');
    if value < 1_000_000_000_000_000_000 {
        Some(value * 10 + digit)
    } else {
        value.checked_mul(10)?.checked_add(digit)
    }
}

// The number of these digits, with leading zeros or without.
fn digits(text: &[u8]) -> Option<u64>
    ensures { SomeIff result (AllDigits 10 text.now × (digits_value 10 text.now < 2 ^ 64)) (digits_value 10 text.now) }
{
    let mut value = 0;
    for byte in text {
        value = with_digit(value, *byte)?;
    }
    Some(value)
}

// Whether a number could be spelled so: not by nothing, and not with a leading zero.
fn has_no_leading_zero(text: &[u8]) -> bool
    ensures { IsTrue result ↔ ((0 < length text.now) × (slice_index text.now 0 ≡ 48 → length text.now ≡ 1)) }
{
    match text.first() {
        None => false,
        Some(first) => *first != b'0' || text.len() == 1,
    }
}

/// The number, not above the bound, whose decimal text this is.
pub fn number(text: &[u8], most: u64) -> Option<u64>
    ensures value { result ≡ decimal_of most text.now }
    ensures bound { IfSome result (λ n. n ≤ most) }
{
    if !has_no_leading_zero(text) {
        return None;
    }
    let value = digits(text)?;
    if value <= most { Some(value) } else { None }
}
