//! Files that are made block by block, of the words of a row.
use std::alloc::Global;

/// The words that make the front of a block that isn't there.
pub const CUT_BLOCK: &str = " x0600000090000000";

// A section header of version 1.0, of unknown length.
const SECTION: &str = "[168627466 4:439041101 2:1 2:0 8:18446744073709551615 ]";

// An interface of Ethernet, without a bound and without options.
const ETHERNET: &str = "[1 2:1 2:0 4:0 ]";

#[derive(Drop)]
struct Maker {
    file: Vec<u8>,

    // The block that is made.
    kind: u64,
    body: Vec<u8>,
    is_big: bool,
}

impl Maker {
    fn push_number(&mut self, size: usize, number: u64) -> Option<()> {
        let bytes = number.to_le_bytes();
        let bytes = bytes.get(..size)?;
        if self.is_big {
            for byte in bytes.iter().rev() {
                self.body.push(*byte).ok()?;
            }
            return Some(());
        }
        self.body.extend_from_slice(bytes).ok()
    }

    fn push_zeros(&mut self, count: usize) -> Option<()> {
        for _ in 0..count {
            self.body.push(0).ok()?;
        }
        Some(())
    }

    // Moves what was made of a block into the file.
    fn flush(&mut self) -> Option<()> {
        self.file.extend_from_slice(self.body.as_slice()).ok()?;
        self.body.clear();
        Some(())
    }

    // Ends a block, with these lengths in the place of its own.
    fn end_block(&mut self, len: Option<u64>, trailer: Option<u64>) -> Option<()> {
        let len_so_far = self.body.len();
        self.push_zeros(len_so_far.wrapping_neg() % 4)?;
        let body = self.body.clone().ok()?;
        let own = u64::try_from(body.len()).ok()?.checked_add(12)?;
        self.body.clear();
        self.push_number(4, self.kind)?;
        self.push_number(4, len.unwrap_or(own))?;
        self.body.extend_from_slice(body.as_slice()).ok()?;
        self.push_number(4, trailer.unwrap_or(own))?;
        self.flush()
    }

    // One of: `[6` a block of this type begins; `]` it ends, and `]20/24` with these lengths; `2:7` a number of so many
    // bytes; `x0a0b` bytes; `z9` so many zeros; `-9` the file ends so many bytes before; `little` and `big`.
    fn push_word(&mut self, alloc: Global, word: &str) -> Option<()> {
        match word {
            "little" => self.is_big = false,
            "big" => self.is_big = true,
            "]" => self.end_block(None, None)?,
            _ => match word.split_once(':') {
                Some((size, number)) => {
                    self.push_number(size.parse().ok()?, number.parse().ok()?)?;
                }
                None => self.push_marked(alloc, word)?,
            },
        }
        Some(())
    }

    fn push_marked(&mut self, alloc: Global, word: &str) -> Option<()> {
        if let Some(kind) = word.strip_prefix('[') {
            self.kind = kind.parse().ok()?;
        } else if let Some(lengths) = word.strip_prefix(']') {
            let (len, trailer) = lengths.split_once('/')?;
            self.end_block(Some(len.parse().ok()?), Some(trailer.parse().ok()?))?;
        } else if let Some(digits) = word.strip_prefix('x') {
            let bytes = hex::decode(alloc, digits).ok()?;
            self.body.extend_from_slice(bytes.as_slice()).ok()?;
        } else if let Some(count) = word.strip_prefix('z') {
            self.push_zeros(count.parse().ok()?)?;
        } else {
            self.flush()?;
            let fewer: usize = word.strip_prefix('-')?.parse().ok()?;
            let left = self.file.len().checked_sub(fewer)?;
            self.file.truncate(left);
        }
        Some(())
    }

    fn push_words(&mut self, alloc: Global, words: &str) -> Option<()> {
        for word in words.split(' ') {
            self.push_word(alloc, word)?;
        }
        Some(())
    }
}

/// The bytes that the words of a row make; `section` and `ethernet` are a section header and an interface, and `.` is
/// nothing.
pub fn blocks_of(alloc: Global, row: &str) -> Option<Vec<u8>> {
    let mut maker = Maker {
        file: Vec::new(alloc),
        kind: 0,
        body: Vec::new(alloc),
        is_big: false,
    };
    for word in row.split(' ') {
        match word {
            "." => {}
            "section" => maker.push_words(alloc, SECTION)?,
            "ethernet" => maker.push_words(alloc, ETHERNET)?,
            _ => maker.push_word(alloc, word)?,
        }
    }
    maker.flush()?;
    let Maker { file, .. } = maker;
    Some(file)
}

/// A pcapng file of one packet of an interface of this link type, which was captured so many microseconds after the
/// beginning of 1970, and what further words make behind it, each with a space before it.
pub fn pcapng_with(
    alloc: Global,
    link_type: u16,
    micros: u64,
    frame: &[u8],
    behind: &str,
) -> Option<Vec<u8>> {
    let (high, low) = (micros / (1 << 32), micros % (1 << 32));
    let length = frame.len();
    let digits = hex::encode(alloc, frame).ok()?;
    let words = format!(in alloc;
        "section [1 2:{link_type} 2:0 4:262144 ] [6 4:0 4:{high} 4:{low} 4:{length} 4:{length} x{digits} ]{behind}"
    );
    blocks_of(alloc, words.ok()?.as_str())
}
