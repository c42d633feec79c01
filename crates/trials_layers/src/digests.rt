//! Digests of messages that come in two pieces.
use rasta_md4::{DIGEST_LEN, Md4, digest};
use std::alloc::Global;
use std::process::Abort;
use trials_rows::{RFC_WORDS, bytes_of};

// The start words, how often a piece is repeated, the piece, and the digest. The first seven rows are the
// test suite of RFC 1320, section A.5. A block has 64 bytes; padding fits it after 55 bytes and not after
// 56. The digests of the last four rows were computed by a Python program written from the text of RFC 1320
// alone, which also gives the first seven.
const ROWS: &str = "\
rfc 0 - 31d6cfe0d16ae931b73c59d7e0c089c0
rfc 1 a bde52cb31de33e46245e05fbdbd6fb24
rfc 1 abc a448017aaf21d8525fc10ae87aa6729d
rfc 1 message_digest d9130a8164549fe818874806e1c7014b
rfc 1 abcdefghijklmnopqrstuvwxyz d79e1c308aa5bbcdeea8ed63df412da9
rfc 1 ABCDEFGHIJKLMNOPQRSTUVWXYZabcdefghijklmnopqrstuvwxyz0123456789 043f8582f241db351ce627e153e7f0e4
rfc 8 1234567890 e33b4ddc9c38f2199c3e7b164fcc0536
rfc 55 a c889c81dd86c4d2e025778944ea02881
rfc 56 a d5f9a9e9257077a5f08b0b92f348b0ad
rfc 64 a 52f5076fabd22680234a3fa9f9dc5732
other 1 message_digest 44c3059bb877de586918a97409010d5d
";

const OTHER_WORDS: [u32; 4] = [0x0123_4567, 0x89ab_cdef, 0xfedc_ba98, 0x7654_3210];

fn words_of(word: &str) -> [u32; 4] {
    if word == "rfc" {
        RFC_WORDS
    } else {
        OTHER_WORDS
    }
}

fn digest_of_two(words: [u32; 4], first: &[u8], second: &[u8]) -> [u8; DIGEST_LEN] {
    let mut message = Md4::with_words(words);
    message.update(first);
    message.update(second);
    message.finish()
}

// Whether a message has the digest, whole and wherever it is cut.
fn has_digest(words: [u32; 4], message: &[u8], expected: &[u8]) -> bool {
    for cut in 0..=message.len() {
        let (first, second) = message.split_at(cut);
        if digest_of_two(words, first, second).as_slice() != expected {
            return false;
        }
    }
    digest(words, message).as_slice() == expected
}

// Whether the message of a row has its digest.
fn answer(alloc: Global, row: &str) -> Option<bool> {
    let mut parts = row.split(' ');
    let words = words_of(parts.next()?);
    let count: usize = parts.next()?.parse().ok()?;
    let (piece, digits) = (parts.next()?, parts.next()?);
    let piece = piece.replace(alloc, "_", " ").ok()?;
    let message = piece.repeat(alloc, count).ok()?;
    let digest = bytes_of(alloc, digits)?;
    Some(has_digest(words, message.as_bytes(), &digest))
}

#[test]
fn digests_however_cut(rt: HostRuntime) {
    for row in ROWS.lines() {
        assert_eq!(rt; answer(rt.alloc(), row), Some(true), "{row}");
    }
}
