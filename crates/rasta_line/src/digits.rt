//! Hexadecimal digits of sixteen bytes at once.
ghost use Rattle.std.specs.Prelude.{◌≡◌, ◌/◌, ◌%◌, length, map, slice_index};
ghost use Rattle.hex.specs.Hex.{encode_lower, lower_digits};

use std::simd::u8x16;

const DIGITS: [u8; 16] = *b"0123456789abcdef";

// The digits of the high four bits of each byte: the table is asked for all of them at once.
#[inline(always)]
fn high_digits(bytes: u8x16) -> u8x16
    ensures { result ≡ map (λ x. slice_index lower_digits (x / 16)) bytes }
{
    u8x16::from_array(DIGITS).swizzle_dyn(bytes >> u8x16::splat(4))
}

// The digits of the low four bits of each byte.
#[inline(always)]
fn low_digits(bytes: u8x16) -> u8x16
    ensures { result ≡ map (λ x. slice_index lower_digits (x % 16)) bytes }
{
    u8x16::from_array(DIGITS).swizzle_dyn(bytes & u8x16::splat(15))
}

/// The digits of sixteen bytes, in lower case.
#[inline(always)]
pub fn digits_of_block(block: [u8; 16]) -> [u8; 32]
    ensures { result ≡ encode_lower block }
{
    let bytes = u8x16::from_array(block);
    let (first, second) = high_digits(bytes).interleave(low_digits(bytes));
    let mut digits = [0u8; 32];
    first.copy_to_slice(&mut digits[..16]);
    second.copy_to_slice(&mut digits[16..]);
    digits
}
