//! Lines of words, made from their last word to their first in a small array.
ghost use Rattle.std.specs.Prelude.{◌≡◌, ◌+◌, ◌*◌, ◌≤◌, ◌++◌, ◌∷◌, [], length, drop, decimal};
ghost use Rattle.hex.specs.Hex.{encode_lower};

use std::marker::Model;

const ROOM: usize = 200;

/// The end of a line of at most 200 bytes, before which words are put.
#[derive(Drop)]
pub struct Line {
    room: [u8; 200],
    start: usize,
}

impl Model for Line {
    ghost use Rattle.std.specs.Prelude.{List, ℕ, drop, length, ◌≡◌, ◌≤◌};

    ghost Value = { List ℕ };

    ghost view = { λ l. drop l.start l.room };

    ghost invariant = { λ l. (length l.room ≡ 200) × (l.start ≤ 200) };
}

// Puts the bytes before what stands from `end` on, and answers where they begin.
fn put(room: &mut [u8], end: usize, bytes: &[u8]) -> usize
    requires fits { length bytes.now ≤ end }
    requires within { end ≤ length room.old }
    ensures start { result + length bytes.now ≡ end }
    ensures written { drop result room.new ≡ bytes.now ++ drop end room.old }
{
    let start = end - bytes.len();
    room[start..end].copy_from_slice(bytes);
    start
}

// The same for a number, in decimal.
fn put_number(room: &mut [u8], end: usize, n: u32) -> usize
    requires fits { 10 ≤ end }
    requires within { end ≤ length room.old }
    ensures start { result + length (decimal n) ≡ end }
    ensures written { drop result room.new ≡ decimal n ++ drop end room.old }
    ensures short { end ≤ result + 10 }
{
    itoa::write_digits(u64::from(n), room, end)
}

// The same for a number of 64 bits.
fn put_long_number(room: &mut [u8], end: usize, n: u64) -> usize
    requires fits { 20 ≤ end }
    requires within { end ≤ length room.old }
    ensures start { result + length (decimal n) ≡ end }
    ensures written { drop result room.new ≡ decimal n ++ drop end room.old }
    ensures short { end ≤ result + 20 }
{
    itoa::write_digits(n, room, end)
}

// The same for bytes, in lower case digits.
fn put_hex(room: &mut [u8], end: usize, bytes: &[u8]) -> usize
    requires fits { 2 * length bytes.now ≤ end }
    requires within { end ≤ length room.old }
    ensures start { result + 2 * length bytes.now ≡ end }
    ensures written { drop result room.new ≡ encode_lower bytes.now ++ drop end room.old }
{
    let start = end - 2 * bytes.len();
    if hex::encode_to_slice(bytes, &mut room[start..end]).is_err() {
        unreachable!();
    }
    start
}

impl Line {
    /// Nothing yet, and no end of a line.
    pub fn new() -> Line
        ensures { result ≡ [] }
    {
        Line {
            room: [0u8; ROOM],
            start: ROOM,
        }
    }

    /// Takes everything away, the end of the line too.
    pub fn clear(&mut self)
        ensures { self.new ≡ [] }
    {
        self.start = ROOM;
    }

    /// Begins anew with this last word.
    pub fn begin_with_word(&mut self, word: &[u8])
        requires { length word.now ≤ 10 }
        ensures line { self.new ≡ word.now ++ 10 ∷ [] }
    {
        let line_end = put(&mut self.room, ROOM, b"\n");
        self.start = put(&mut self.room, line_end, word);
    }

    /// Begins anew with this last number.
    pub fn begin_with_number(&mut self, n: u64)
        ensures line { self.new ≡ decimal n ++ 10 ∷ [] }
        ensures short { length self.new ≤ 21 }
    {
        let line_end = put(&mut self.room, ROOM, b"\n");
        self.start = put_long_number(&mut self.room, line_end, n);
    }

    /// Begins anew with these last bytes, in lower case digits.
    pub fn begin_with_hex(&mut self, bytes: &[u8])
        requires { 2 * length bytes.now ≤ 199 }
        ensures line { self.new ≡ encode_lower bytes.now ++ 10 ∷ [] }
        ensures short { length self.new ≤ 1 + 2 * length bytes.now }
    {
        let line_end = put(&mut self.room, ROOM, b"\n");
        self.start = put_hex(&mut self.room, line_end, bytes);
    }

    /// Prepends a space.
    pub fn space(&mut self)
        requires { length self.old ≤ 199 }
        ensures { self.new ≡ 32 ∷ self.old }
    {
        self.start = put(&mut self.room, self.start, b" ");
    }

    /// Prepends a word and a space after it.
    pub fn word(&mut self, word: &[u8])
        requires { length word.now + length self.old ≤ 199 }
        ensures line { self.new ≡ word.now ++ 32 ∷ self.old }
    {
        let space = put(&mut self.room, self.start, b" ");
        self.start = put(&mut self.room, space, word);
    }

    /// Prepends a number, in decimal, and a space after it.
    #[inline(always)]
    pub fn number(&mut self, n: u32)
        requires { length self.old ≤ 189 }
        ensures line { self.new ≡ decimal n ++ 32 ∷ self.old }
        ensures short { length self.new ≤ length self.old + 11 }
    {
        let space = put(&mut self.room, self.start, b" ");
        self.start = put_number(&mut self.room, space, n);
    }

    /// Prepends a number of 64 bits, in decimal, and a space after it.
    pub fn long_number(&mut self, n: u64)
        requires { length self.old ≤ 179 }
        ensures line { self.new ≡ decimal n ++ 32 ∷ self.old }
        ensures short { length self.new ≤ length self.old + 21 }
    {
        let space = put(&mut self.room, self.start, b" ");
        self.start = put_long_number(&mut self.room, space, n);
    }

    /// Prepends bytes, in lower case digits, and a space after them.
    pub fn hex(&mut self, bytes: &[u8])
        requires { 2 * length bytes.now + length self.old ≤ 199 }
        ensures line { self.new ≡ encode_lower bytes.now ++ 32 ∷ self.old }
        ensures short { length self.new ≤ length self.old + (1 + 2 * length bytes.now) }
    {
        let space = put(&mut self.room, self.start, b" ");
        self.start = put_hex(&mut self.room, space, bytes);
    }

    /// The bytes.
    pub fn as_bytes(&self) -> &[u8]
        ensures { result.now ≡ self.now }
    {
        &self.room[self.start..]
    }
}
