//! A device that keeps no byte, but a number of all.
use std::io;
use std::io::Write;

// The bytes of a word.
const WORD: usize = 8;

/// What was written: how many bytes, and two sums of the words that they make, the second of which says where each
/// stood.
#[derive(Clone, Copy)]
pub struct Folded {
    pub len: u64,
    pub sum: u64,
    pub sums: u64,
    // The bytes after the last whole word.
    pub rest: u64,
}

/// A device that folds what is written to it, whatever the pieces in which it comes.
#[derive(Drop)]
pub struct Folding<'a> {
    folded: &'a mut Folded,
}

impl Folded {
    /// Nothing yet.
    pub fn new() -> Folded {
        Folded {
            len: 0,
            sum: 0,
            sums: 0,
            rest: 0,
        }
    }

    fn add_word(&mut self, word: u64) {
        self.sum = self.sum.wrapping_add(word);
        self.sums = self.sums.wrapping_add(self.sum);
    }

    fn add_byte(&mut self, byte: u8) {
        self.len = self.len.wrapping_add(1);
        self.rest = self.rest.wrapping_mul(256).wrapping_add(u64::from(byte));
        if self.len % 8 == 0 {
            self.add_word(self.rest);
            self.rest = 0;
        }
    }

    fn add_bytes(&mut self, bytes: &[u8]) {
        for byte in bytes {
            self.add_byte(*byte);
        }
    }

    /// Takes in bytes.
    pub fn add(&mut self, bytes: &[u8]) {
        // A word begins at each eighth byte of all that is written.
        let missing = (WORD - (self.len % 8) as usize) % WORD;
        let (front, rest) = bytes.split_at(missing.min(bytes.len()));
        self.add_bytes(front);
        let whole = rest.len() - rest.len() % WORD;
        for word in rest[..whole].chunks_exact(WORD) {
            if let Some(word) = word.first_chunk::<8>() {
                self.add_word(u64::from_be_bytes(*word));
            }
        }
        self.len = self.len.wrapping_add(whole as u64);
        self.add_bytes(&rest[whole..]);
    }
}

impl<'a> Folding<'a> {
    /// A device that folds into this.
    pub fn new(folded: &'a mut Folded) -> Folding<'a> {
        Folding { folded }
    }
}

impl<'a> Write for Folding<'a> {
    fn write(&mut self, buf: &[u8]) -> io::Result<usize> {
        self.folded.add(buf);
        Ok(buf.len())
    }

    fn flush(&mut self) -> io::Result<()> {
        Ok(())
    }
}
