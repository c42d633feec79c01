//! The steps over a block of sixteen words (RFC 1320, section 3.4).

ghost use Rattle.std.specs.Prelude.{◌≡◌, ◌<◌, length, fold};
ghost use Rattle.rasta_md4.specs.Md4.{block_at, blocks, compress, conditional, first, majority, parity, round_1, round_2, round_3, second, step, third};

use crate::BLOCK_LEN;
use byteorder::{ByteOrder, LittleEndian};

// The constant of round 2: the square root of 2, in 30 bits after the binary point.
const ROOT_OF_2: u32 = 0x5a82_7999;

// The constant of round 3: the square root of 3, in 30 bits after the binary point.
const ROOT_OF_3: u32 = 0x6ed9_eba1;

// F, of round 1: in each bit, if x then y else z.
#[inline(always)]
fn conditional(x: u32, y: u32, z: u32) -> u32
    ensures { result ≡ conditional x y z }
{
    (x & y) | (!x & z)
}

// G, of round 2: in each bit, what at least two of the three have.
#[inline(always)]
fn majority(x: u32, y: u32, z: u32) -> u32
    ensures { result ≡ majority x y z }
{
    (x & y) | (x & z) | (y & z)
}

// H, of round 3: in each bit, the parity of the three.
#[inline(always)]
fn parity(x: u32, y: u32, z: u32) -> u32
    ensures { result ≡ parity x y z }
{
    x ^ y ^ z
}

// A step of round 1, with the word at `place` of the block.
#[inline(always)]
fn first(block: &[u32; 16], registers: [u32; 4], place: usize, shift: u32) -> [u32; 4]
    requires { place < 16 }
    ensures { result ≡ step block.now registers (first place shift) }
{
    let [a, b, c, d] = registers;
    // The function waits for the step before, so it is added last.
    let sum = a
        .wrapping_add(block[place])
        .wrapping_add(conditional(b, c, d));
    [d, sum.rotate_left(shift), b, c]
}

// A step of round 2, with the word at `place` of the block.
#[inline(always)]
fn second(block: &[u32; 16], registers: [u32; 4], place: usize, shift: u32) -> [u32; 4]
    requires { place < 16 }
    ensures { result ≡ step block.now registers (second place shift) }
{
    let [a, b, c, d] = registers;
    let sum = a
        .wrapping_add(block[place])
        .wrapping_add(ROOT_OF_2)
        .wrapping_add(majority(b, c, d));
    [d, sum.rotate_left(shift), b, c]
}

// A step of round 3, with the word at `place` of the block.
#[inline(always)]
fn third(block: &[u32; 16], registers: [u32; 4], place: usize, shift: u32) -> [u32; 4]
    requires { place < 16 }
    ensures { result ≡ step block.now registers (third place shift) }
{
    let [a, b, c, d] = registers;
    let sum = a
        .wrapping_add(block[place])
        .wrapping_add(ROOT_OF_3)
        .wrapping_add(parity(b, c, d));
    [d, sum.rotate_left(shift), b, c]
}

// Round 1: the words in order.
#[inline(always)]
fn round_1(block: &[u32; 16], registers: [u32; 4]) -> [u32; 4]
    ensures { result ≡ fold (step block.now) registers round_1 }
{
    let registers = first(block, registers, 0, 3);
    let registers = first(block, registers, 1, 7);
    let registers = first(block, registers, 2, 11);
    let registers = first(block, registers, 3, 19);
    let registers = first(block, registers, 4, 3);
    let registers = first(block, registers, 5, 7);
    let registers = first(block, registers, 6, 11);
    let registers = first(block, registers, 7, 19);
    let registers = first(block, registers, 8, 3);
    let registers = first(block, registers, 9, 7);
    let registers = first(block, registers, 10, 11);
    let registers = first(block, registers, 11, 19);
    let registers = first(block, registers, 12, 3);
    let registers = first(block, registers, 13, 7);
    let registers = first(block, registers, 14, 11);
    first(block, registers, 15, 19)
}

// Round 2: each fourth word, from word 0, 1, 2 and 3 on.
#[inline(always)]
fn round_2(block: &[u32; 16], registers: [u32; 4]) -> [u32; 4]
    ensures { result ≡ fold (step block.now) registers round_2 }
{
    let registers = second(block, registers, 0, 3);
    let registers = second(block, registers, 4, 5);
    let registers = second(block, registers, 8, 9);
    let registers = second(block, registers, 12, 13);
    let registers = second(block, registers, 1, 3);
    let registers = second(block, registers, 5, 5);
    let registers = second(block, registers, 9, 9);
    let registers = second(block, registers, 13, 13);
    let registers = second(block, registers, 2, 3);
    let registers = second(block, registers, 6, 5);
    let registers = second(block, registers, 10, 9);
    let registers = second(block, registers, 14, 13);
    let registers = second(block, registers, 3, 3);
    let registers = second(block, registers, 7, 5);
    let registers = second(block, registers, 11, 9);
    second(block, registers, 15, 13)
}

// Round 3: the words in the order of their places' four bits read backwards.
#[inline(always)]
fn round_3(block: &[u32; 16], registers: [u32; 4]) -> [u32; 4]
    ensures { result ≡ fold (step block.now) registers round_3 }
{
    let registers = third(block, registers, 0, 3);
    let registers = third(block, registers, 8, 9);
    let registers = third(block, registers, 4, 11);
    let registers = third(block, registers, 12, 15);
    let registers = third(block, registers, 2, 3);
    let registers = third(block, registers, 10, 9);
    let registers = third(block, registers, 6, 11);
    let registers = third(block, registers, 14, 15);
    let registers = third(block, registers, 1, 3);
    let registers = third(block, registers, 9, 9);
    let registers = third(block, registers, 5, 11);
    let registers = third(block, registers, 13, 15);
    let registers = third(block, registers, 3, 3);
    let registers = third(block, registers, 11, 9);
    let registers = third(block, registers, 7, 11);
    third(block, registers, 15, 15)
}

// Works off a block of 64 bytes.
#[inline]
fn compress(registers: &mut [u32; 4], bytes: &[u8])
    requires { length bytes.now ≡ 64 }
    ensures { registers.new ≡ compress registers.old (block_at bytes.now 0) }
{
    let mut block = [0; 16];
    LittleEndian::read_u32_into(bytes, &mut block);
    let [a, b, c, d] = *registers;
    let after = round_1(&block, *registers);
    let after = round_2(&block, after);
    let after = round_3(&block, after);
    *registers = [
        a.wrapping_add(after[0]),
        b.wrapping_add(after[1]),
        c.wrapping_add(after[2]),
        d.wrapping_add(after[3]),
    ];
}

/// The registers after the blocks of `bytes`, in order. Bytes after the last whole block are left
/// out.
pub fn after_blocks(registers: [u32; 4], bytes: &[u8]) -> [u32; 4]
    ensures { result ≡ fold compress registers (blocks bytes.now) }
{
    let mut after = registers;
    'each_block: for i in 0..bytes.len() / BLOCK_LEN {
        compress(&mut after, &bytes[BLOCK_LEN * i..BLOCK_LEN * i + BLOCK_LEN]);
    }
    after
}
