//! SHA-256 of messages that come in pieces.
use rasta_sha256::{DIGEST_LEN, Sha256};
use std::alloc::Global;
use std::process::Abort;
use trials_rows::bytes_of;

// How often a piece is repeated, the piece, and the digest. The first four rows are examples of FIPS 180-4.
// A block has 64 bytes, and four of them are worked off together; padding fits a block after 55 bytes and
// not after 56, and four blocks after 247. The digests of the last rows were computed by Python's `hashlib`,
// which also gives the first four.
const ROWS: &str = "\
0 - e3b0c44298fc1c149afbf4c8996fb92427ae41e4649b934ca495991b7852b855
1 abc ba7816bf8f01cfea414140de5dae2223b00361a396177a9cb410ff61f20015ad
1 abcdbcdecdefdefgefghfghighijhijkijkljklmklmnlmnomnopnopq 248d6a61d20638b8e5c026930c3e6039a33ce45964ff2167f6ecedd419db06c1
1 abcdefghbcdefghicdefghijdefghijkefghijklfghijklmghijklmnhijklmnoijklmnopjklmnopqklmnopqrlmnopqrsmnopqrstnopqrstu cf5b16a778af8380036ce59e7b0492370b249b11e8f07a51afac45037afee9d1
55 a 9f4390f8d30c2dd92ec9f095b65e2b9ae9b0a925a5258e241c9f1e910f734318
56 a b35439a4ac6f0948b6d6f9e3c6af0f5f590ce20f1bde7090ef7970686ec6738a
64 a ffe054fe7ae0cb6dc65c3af9b61d5209f439851db43d0ba5997337df154668eb
247 a d1c97f05a04d45d67be0d82b39f93d8e06e52db3aeb4752067c9b5e61583b641
248 a fdff3ab023a901d4e6d47d39905cc6a4d394b9297d2605ac17efbf10da969fd2
256 a 02d7160d77e18c6447be80c2e355c7ed4388545271702c50253b0914c65ce5fe
311 a 405917f9905fa6a436429b115728eab061c624f26f97667e928b3b8ca9b47698
512 a 471be6558b665e4f6dd49f1184814d1491b0315d466beea768c153cc5500c836
";

// The digest of one million bytes `a`, the last example of FIPS 180-4.
const MILLION: &str = "cdc76e5c9914fb9281a1c7e284d73e67f1809a48a497200e046d39ccc7112cd0";

fn digest_of_two(first: &[u8], second: &[u8]) -> [u8; DIGEST_LEN] {
    let mut message = Sha256::new();
    message.update(first);
    message.update(second);
    message.finish()
}

// Whether a message has the digest, wherever it is cut.
fn has_digest(message: &[u8], expected: &[u8]) -> bool {
    for cut in 0..=message.len() {
        let (first, second) = message.split_at(cut);
        if digest_of_two(first, second).as_slice() != expected {
            return false;
        }
    }
    true
}

// Whether the message of a row has its digest.
fn answer(alloc: Global, row: &str) -> Option<bool> {
    let mut parts = row.split(' ');
    let count: usize = parts.next()?.parse().ok()?;
    let (piece, digits) = (parts.next()?, parts.next()?);
    let message = piece.repeat(alloc, count).ok()?;
    let digest = bytes_of(alloc, digits)?;
    Some(has_digest(message.as_bytes(), &digest))
}

#[test]
fn hashes_however_cut(rt: HostRuntime) {
    for row in ROWS.lines() {
        assert_eq!(rt; answer(rt.alloc(), row), Some(true), "{row}");
    }
}

#[test]
fn hash_of_many_pieces(rt: HostRuntime) {
    let mut message = Sha256::new();
    for _ in 0..10_000 {
        message.update(&[0x61; 100]);
    }
    let digest = bytes_of(rt.alloc(), MILLION);
    let digest = digest.as_ref().map(|bytes| bytes.as_slice());
    assert_eq!(rt; digest, Some(message.finish().as_slice()));
}
