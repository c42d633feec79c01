//! The start words of a digest as a text.
ghost use Rattle.std.specs.Prelude.{◌≡◌, ◌↔◌, ◌+◌, ◌≤◌, length, IsSome};
ghost use Rattle.std.specs.List.{AllPass};
ghost use Rattle.std.specs.Result.{result_ok};
ghost use Rattle.hex.specs.Hex.{decode_sized, is_hex_digit};
ghost use Rattle.rasta_params.specs.StartWords.{four_words, big_word_at, words_of};

use hex::FromHex;

// The bytes of a text of 32 hexadecimal digits.
fn bytes_in(text: &str) -> Option<[u8; 16]>
    ensures value { result ≡ result_ok (decode_sized text.now 16) }
    ensures found { IsSome result ↔ ((length text.now ≡ 32) × AllPass is_hex_digit text.now) }
{
    <[u8; 16] as FromHex>::from_hex(text).ok()
}

// The word of the four bytes from a place on, highest byte first.
fn big_word_at(bytes: &[u8; 16], at: usize) -> u32
    requires { at + 4 ≤ 16 }
    ensures { result ≡ big_word_at bytes.now at }
{
    u32::from_be_bytes([bytes[at], bytes[at + 1], bytes[at + 2], bytes[at + 3]])
}

fn four_words(bytes: &[u8; 16]) -> [u32; 4]
    ensures { result ≡ four_words bytes.now }
{
    [
        big_word_at(bytes, 0),
        big_word_at(bytes, 4),
        big_word_at(bytes, 8),
        big_word_at(bytes, 12),
    ]
}

/// The words of a text of 32 hexadecimal digits of either case, eight digits a word, highest first.
#[tactic(auto, unfolding(crate::specs::StartWords::words_of))]
pub fn start_words_in(text: &str) -> Option<[u32; 4]>
    ensures value { result ≡ words_of text.now }
    ensures found { IsSome result ↔ ((length text.now ≡ 32) × AllPass is_hex_digit text.now) }
{
    match bytes_in(text) {
        Some(bytes) => Some(four_words(&bytes)),
        None => None,
    }
}
