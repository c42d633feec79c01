//! Why a file is refused.
use std::fmt;

/// What is wrong with a block.
#[derive(Clone, Copy, Debug, PartialEq, Eq)]
pub enum Reason {
    /// The file doesn't begin with a section header.
    NotPcapng,

    /// A section header tells no byte order.
    ByteOrder,

    /// A section has another version than 1.0 and 1.2.
    Version,

    /// The file ends inside the block.
    Cut,

    /// Its length is no multiple of four, or less than a block of its type has.
    Length,

    /// It has more than 16 MiB.
    TooLong,

    /// The length at its end differs from that at its front.
    Trailer,

    /// Its packet is of an interface that its section doesn't describe.
    Interface,

    /// A section describes more than 65,536 interfaces.
    TooManyInterfaces,

    /// More bytes of its packet were captured than it has.
    CapturedBeyond,

    /// More than 262,144 bytes of its packet were captured.
    CapturedTooLong,
}

/// Why a file is refused, and at which block.
#[derive(Clone, Copy, Debug, PartialEq, Eq)]
pub struct Refusal {
    pub reason: Reason,

    /// The offset of the block in the file, in bytes.
    pub at: u64,
}

impl Reason {
    /// The reason in words, which go on with the place of the block.
    pub fn words(self) -> &'static str {
        match self {
            Reason::NotPcapng => "the file doesn't begin with a section header",
            Reason::ByteOrder => "a section header tells no byte order",
            Reason::Version => "a section has a version of the format that isn't known",
            Reason::Cut => "the file ends inside a block",
            Reason::Length => "a block has a length that can't be",
            Reason::TooLong => "a block has more than 16 MiB",
            Reason::Trailer => "the two lengths of a block differ",
            Reason::Interface => "a packet is of an interface that isn't described",
            Reason::TooManyInterfaces => "a section describes more than 65536 interfaces",
            Reason::CapturedBeyond => "more of a packet was captured than its block has",
            Reason::CapturedTooLong => "more than 262144 bytes of a packet were captured",
        }
    }
}

impl fmt::Display for Refusal {
    fn fmt<W: fmt::Write>(&self, f: &mut fmt::Formatter<W>) -> fmt::Result {
        f.write_str(self.reason.words())?;
        write!(f, ", at byte {}", self.at)
    }
}
