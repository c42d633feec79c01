//! The message schedules of a group of four blocks at once, a block a lane.

ghost use Rattle.std.specs.Prelude.{◌≡◌, ◌+◌, ◌<◌, ◌≤◌, List, ℕ, length, map};
ghost use Rattle.sha2.specs.Sha256.{small_sigma0, small_sigma1, word_at};
ghost use Rattle.rasta_sha256.specs.Lanes.{HoldsSums, HoldsWords};

use std::simd::u32x4;

// K, a constant for each round.
const CONSTANTS: [u32; 64] = [
    0x428A_2F98,
    0x7137_4491,
    0xB5C0_FBCF,
    0xE9B5_DBA5,
    0x3956_C25B,
    0x59F1_11F1,
    0x923F_82A4,
    0xAB1C_5ED5,
    0xD807_AA98,
    0x1283_5B01,
    0x2431_85BE,
    0x550C_7DC3,
    0x72BE_5D74,
    0x80DE_B1FE,
    0x9BDC_06A7,
    0xC19B_F174,
    0xE49B_69C1,
    0xEFBE_4786,
    0x0FC1_9DC6,
    0x240C_A1CC,
    0x2DE9_2C6F,
    0x4A74_84AA,
    0x5CB0_A9DC,
    0x76F9_88DA,
    0x983E_5152,
    0xA831_C66D,
    0xB003_27C8,
    0xBF59_7FC7,
    0xC6E0_0BF3,
    0xD5A7_9147,
    0x06CA_6351,
    0x1429_2967,
    0x27B7_0A85,
    0x2E1B_2138,
    0x4D2C_6DFC,
    0x5338_0D13,
    0x650A_7354,
    0x766A_0ABB,
    0x81C2_C92E,
    0x9272_2C85,
    0xA2BF_E8A1,
    0xA81A_664B,
    0xC24B_8B70,
    0xC76C_51A3,
    0xD192_E819,
    0xD699_0624,
    0xF40E_3585,
    0x106A_A070,
    0x19A4_C116,
    0x1E37_6C08,
    0x2748_774C,
    0x34B0_BCB5,
    0x391C_0CB3,
    0x4ED8_AA4A,
    0x5B9C_CA4F,
    0x682E_6FF3,
    0x748F_82EE,
    0x78A5_636F,
    0x84C8_7814,
    0x8CC7_0208,
    0x90BE_FFFA,
    0xA450_6CEB,
    0xBEF9_A3F7,
    0xC671_78F2,
];

// The outer rotation serves the lane and what the inner one makes of it.
#[inline(always)]
fn small_sigma0(x: u32x4) -> u32x4
    ensures { result ≡ map small_sigma0 x }
{
    let both = x ^ ((x >> u32x4::splat(11)) | (x << u32x4::splat(21)));
    ((both >> u32x4::splat(7)) | (both << u32x4::splat(25))) ^ (x >> u32x4::splat(3))
}

#[inline(always)]
fn small_sigma1(x: u32x4) -> u32x4
    ensures { result ≡ map small_sigma1 x }
{
    let both = x ^ ((x >> u32x4::splat(2)) | (x << u32x4::splat(30)));
    ((both >> u32x4::splat(17)) | (both << u32x4::splat(15))) ^ (x >> u32x4::splat(10))
}

#[inline(always)]
fn word_at(group: &[u8], at: usize) -> u32
    requires { at + 4 ≤ length group.now }
    ensures { result ≡ word_at group.now at }
{
    u32::from_be_bytes([group[at], group[at + 1], group[at + 2], group[at + 3]])
}

// Word `t` of each block, from its bytes.
#[inline(always)]
fn load(group: &[u8], words: &mut [[u32; 4]; 64], t: usize)
    requires whole { length group.now ≡ 256 }
    requires early { t < 16 }
    ensures { HoldsWords group.now words.old t → HoldsWords group.now words.new (t + 1) }
{
    words[t] = [
        word_at(group, 4 * t),
        word_at(group, 64 + 4 * t),
        word_at(group, 128 + 4 * t),
        word_at(group, 192 + 4 * t),
    ];
}

// Word `t` of each block, from the words before it.
#[inline(always)]
fn extend(words: &mut [[u32; 4]; 64], t: usize)
    requires low { 16 ≤ t }
    requires high { t < 64 }
    ensures { (group : List ℕ) → HoldsWords group words.old t → HoldsWords group words.new (t + 1) }
{
    let word = small_sigma1(u32x4::from_array(words[t - 2]))
        + u32x4::from_array(words[t - 7])
        + small_sigma0(u32x4::from_array(words[t - 15]))
        + u32x4::from_array(words[t - 16]);
    words[t] = word.to_array();
}

// Eight words a turn, so that most are still in registers where they are needed.
#[inline(always)]
fn extend_by_eight(words: &mut [[u32; 4]; 64], t: usize)
    requires low { 16 ≤ t }
    requires high { t + 8 ≤ 64 }
    ensures { (group : List ℕ) → HoldsWords group words.old t → HoldsWords group words.new (t + 8) }
{
    extend(words, t);
    extend(words, t + 1);
    extend(words, t + 2);
    extend(words, t + 3);
    extend(words, t + 4);
    extend(words, t + 5);
    extend(words, t + 6);
    extend(words, t + 7);
}

// Word `t` of the schedules of a group's four blocks, for each `t`.
#[inline(always)]
fn schedules(group: &[u8], words: &mut [[u32; 4]; 64])
    requires { length group.now ≡ 256 }
    ensures { HoldsWords group.now words.new 64 }
{
    'load: for t in 0..16 {
        load(group, words, t);
    }
    'extend: for turn in 2..8 {
        extend_by_eight(words, 8 * turn);
    }
}

// Adds constant `t` to word `t` of each block.
#[inline(always)]
fn add_constant(words: &mut [[u32; 4]; 64], t: usize)
    requires { t < 64 }
    ensures { (group : List ℕ) → HoldsSums group words.old t → HoldsSums group words.new (t + 1) }
{
    let sum = u32x4::from_array(words[t]) + u32x4::splat(CONSTANTS[t]);
    words[t] = sum.to_array();
}

#[inline(always)]
fn add_eight_constants(words: &mut [[u32; 4]; 64], t: usize)
    requires { t + 8 ≤ 64 }
    ensures { (group : List ℕ) → HoldsSums group words.old t → HoldsSums group words.new (t + 8) }
{
    add_constant(words, t);
    add_constant(words, t + 1);
    add_constant(words, t + 2);
    add_constant(words, t + 3);
    add_constant(words, t + 4);
    add_constant(words, t + 5);
    add_constant(words, t + 6);
    add_constant(words, t + 7);
}

// Adds its constant to each word. Without a loop, each vector of equal constants is ready in memory.
#[inline(always)]
fn add_constants(words: &mut [[u32; 4]; 64])
    ensures { (group : List ℕ) → HoldsWords group words.old 64 → HoldsSums group words.new 64 }
{
    add_eight_constants(words, 0);
    add_eight_constants(words, 8);
    add_eight_constants(words, 16);
    add_eight_constants(words, 24);
    add_eight_constants(words, 32);
    add_eight_constants(words, 40);
    add_eight_constants(words, 48);
    add_eight_constants(words, 56);
}

/// The sum of word `t` of the schedules of a group's four blocks and constant `t`, for each `t`.
#[inline]
pub fn summed_schedules(group: &[u8], words: &mut [[u32; 4]; 64])
    requires { length group.now ≡ 256 }
    ensures { HoldsSums group.now words.new 64 }
{
    schedules(group, words);
    add_constants(words);
}
