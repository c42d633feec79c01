//! In which format a file was read.
ghost use Rattle.std.specs.Prelude.{◌≡◌};
ghost use Rattle.seatmelon_pcapng.specs.Formats.{cooked_told, is_of_pcapng, other_told, refusal_told};

use crate::refusal::Refusal;
use crate::remarks::Remarks;

/// In which format a file was read.
#[derive(Clone, Copy, Debug)]
pub enum Format {
    /// As it is: a classic capture, or a file that is none.
    Classic,

    /// Pcapng; and what is told of the file beside its packets.
    Pcapng(Remarks),
}

impl Format {
    /// Whether it is pcapng.
    pub fn is_pcapng(self) -> bool
        ensures { result ≡ is_of_pcapng self }
    {
        match self {
            Format::Classic => false,
            Format::Pcapng(_) => true,
        }
    }

    /// Why a pcapng file is refused, if it is.
    pub fn refusal(self) -> Option<Refusal>
        ensures { result ≡ refusal_told self }
    {
        match self {
            Format::Classic => None,
            Format::Pcapng(remarks) => remarks.refusal,
        }
    }

    /// The link type of the interface of the first packet of a pcapng file of which no bytes are told, if it has any.
    pub fn other_link_type(self) -> Option<u16>
        ensures { result ≡ other_told self }
    {
        match self {
            Format::Classic => None,
            Format::Pcapng(remarks) => remarks.other_link_type,
        }
    }

    /// The link type of the interface of the first packet of a pcapng file that has a cooked header, if it has any.
    pub fn cooked_link_type(self) -> Option<u16>
        ensures { result ≡ cooked_told self }
    {
        match self {
            Format::Classic => None,
            Format::Pcapng(remarks) => remarks.cooked_link_type,
        }
    }
}
