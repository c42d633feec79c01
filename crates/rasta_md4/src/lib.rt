//! The MD4 message digest (RFC 1320), from start words of the caller's choice.
//!
//! A message may come in pieces of any length; nothing is allocated. MD4 is broken as a
//! cryptographic hash.
#![tactic(auto)]

ghost use Rattle.std.specs.Prelude.{◌≡◌, ℕ, ◌+◌, ◌%◌, ◌<◌, ◌≤◌, List, [], ◌++◌, length, take, fold};
ghost use Rattle.std.specs.List.{flat_map};
ghost use Rattle.byteorder.specs.Endian.{little_bytes};
ghost use Rattle.rasta_md4.specs.Md4.{blocks, compress, md4, padding};
ghost use Rattle.rasta_md4.specs.Progress.{past_blocks, holding};

use crate::rounds::after_blocks;
use byteorder::{ByteOrder, LittleEndian};
use std::marker::Model;

mod rounds;

/// The length of a digest in bytes.
pub const DIGEST_LEN: usize = 16;

/// The start words of RFC 1320 (section 3.3).
pub const START_WORDS: [u32; 4] = [0x6745_2301, 0xefcd_ab89, 0x98ba_dcfe, 0x1032_5476];

// The length of a block in bytes.
const BLOCK_LEN: usize = 64;

// The length of the padding's length field in bytes.
const FIELD_LEN: usize = 8;

/// A message that comes in pieces, and its digest: `with_words`, an `update` for each piece in
/// order, and `finish`.
#[derive(Drop)]
pub struct Md4 {
    registers: [u32; 4],
    // Begins with the bytes after the last whole block, `count % 64` of them.
    buffer: [u8; BLOCK_LEN],
    // The length of the message in bytes, modulo 2^64.
    count: u64,
}

impl Model for Md4 {
    ghost use Rattle.std.specs.Prelude.{◌%◌, take};
    ghost use Rattle.rasta_md4.specs.Progress.{Progress};

    ghost Value = { Progress };

    ghost view = { λ s. record {
      registers = s.registers;
      waiting = take (s.count % 64) s.buffer;
      count = s.count;
    } };
}

impl Md4 {
    /// The empty message. The digest begins from `words`, the registers A, B, C and D in this
    /// order; those of RFC 1320 are [`START_WORDS`].
    pub fn with_words(words: [u32; 4]) -> Self
        ensures { result ≡ holding words [] }
    {
        Md4 {
            registers: words,
            buffer: [0; BLOCK_LEN],
            count: 0,
        }
    }

    /// Adds `bytes` at the end of the message.
    pub fn update(&mut self, bytes: &[u8])
        ensures { (words message : List ℕ) → self.old ≡ holding words message
            → self.new ≡ holding words (message ++ bytes.now) }
    {
        let used = (self.count % BLOCK_LEN as u64) as usize;
        self.registers = absorb(self.registers, &mut self.buffer, used, bytes);
        self.count = self.count.wrapping_add(bytes.len() as u64);
    }

    /// The digest of the message: its registers A, B, C and D in this order, low-order byte first.
    /// From 2^61 bytes on, the padding has the low-order 64 bits of the length in bits.
    pub fn finish(self) -> [u8; DIGEST_LEN]
        ensures { (words message : List ℕ) → self ≡ holding words message
            → result ≡ md4 words message }
    {
        let used = (self.count % BLOCK_LEN as u64) as usize;
        let tail = tail_of(&self.buffer[..used], self.count);
        let registers = after_blocks(self.registers, &tail[..tail_len(used)]);
        digest_of(registers)
    }
}

/// The digest of a whole message, of which only what follows its last whole block is copied.
pub fn digest(words: [u32; 4], message: &[u8]) -> [u8; DIGEST_LEN]
    ensures { result ≡ md4 words message.now }
{
    let used = message.len() % BLOCK_LEN;
    let tail = tail_of(&message[message.len() - used..], message.len() as u64);
    let whole = after_blocks(words, message);
    let registers = after_blocks(whole, &tail[..tail_len(used)]);
    digest_of(registers)
}

// Works off the blocks of the first `used` bytes of `buffer` followed by `bytes`, and leaves the
// bytes after them at the beginning of `buffer`.
#[inline]
fn absorb(registers: [u32; 4], buffer: &mut [u8; BLOCK_LEN], used: usize, bytes: &[u8]) -> [u32; 4]
    requires { used < 64 }
    ensures registers { result
        ≡ fold compress registers (blocks (take used buffer.old ++ bytes.now)) }
    ensures waiting { take ((used + length bytes.now) % 64) buffer.new
        ≡ past_blocks (take used buffer.old ++ bytes.now) }
{
    if used == 0 {
        return absorb_aligned(registers, buffer, bytes);
    }
    let room = BLOCK_LEN - used;
    if bytes.len() < room {
        buffer[used..used + bytes.len()].copy_from_slice(bytes);
        return registers;
    }
    buffer[used..].copy_from_slice(&bytes[..room]);
    let registers = after_blocks(registers, &*buffer);
    absorb_aligned(registers, buffer, &bytes[room..])
}

// Works off the blocks of `bytes`, and leaves the bytes after them at the beginning of `buffer`.
#[inline]
fn absorb_aligned(registers: [u32; 4], buffer: &mut [u8; BLOCK_LEN], bytes: &[u8]) -> [u32; 4]
    ensures registers { result ≡ fold compress registers (blocks bytes.now) }
    ensures waiting { take (length bytes.now % 64) buffer.new ≡ past_blocks bytes.now }
{
    let left = bytes.len() % BLOCK_LEN;
    let tail = &bytes[bytes.len() - left..];
    buffer[..left].copy_from_slice(tail);
    after_blocks(registers, bytes)
}

// How many bytes the last `used` bytes of a message and its padding have together.
#[inline]
fn tail_len(used: usize) -> usize
    requires { used < 64 }
    ensures len { result ≡ used + length (padding used) }
    ensures low { 64 ≤ result }
    ensures high { result ≤ 128 }
{
    if used < BLOCK_LEN - FIELD_LEN {
        BLOCK_LEN
    } else {
        2 * BLOCK_LEN
    }
}

// The bytes that wait at the end of a message of `count` bytes, and its padding.
#[inline]
fn tail_of(waiting: &[u8], count: u64) -> [u8; 2 * BLOCK_LEN]
    requires { length waiting.now ≡ count % 64 }
    ensures { take (count % 64 + length (padding count)) result ≡ waiting.now ++ padding count }
{
    let mut tail = [0; 2 * BLOCK_LEN];
    tail[..waiting.len()].copy_from_slice(waiting);
    tail[waiting.len()] = 0x80;
    let field = tail_len(waiting.len()) - FIELD_LEN;
    LittleEndian::write_u64(&mut tail[field..], count.wrapping_mul(8));
    tail
}

// The registers written out.
#[inline]
fn digest_of(registers: [u32; 4]) -> [u8; DIGEST_LEN]
    ensures { result ≡ flat_map (little_bytes 4) registers }
{
    let mut digest = [0; DIGEST_LEN];
    LittleEndian::write_u32_into(&registers, &mut digest);
    digest
}
