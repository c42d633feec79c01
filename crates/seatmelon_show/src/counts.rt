//! How many packets there are, and how many of them were listed.
ghost use Rattle.std.specs.Prelude.{◌≡◌, [], ◌<◌, ◌^◌, ℕ, List, length};
ghost use Rattle.rasta_pdu.specs.Params.{Parameters};

use crate::decoding::Decoding;

/// How many packets the window has, and how many of them were listed.
#[derive(Clone, Copy, Debug, PartialEq, Eq)]
pub struct Counts {
    /// The packets of the recorded channels in the window, and the frames between the recorded hosts whose datagrams
    /// can't be read.
    pub packets: u64,

    /// Those of them that were listed.
    pub listed: u64,

    /// Those of the listed ones whose safety code isn't that of the recorded start words.
    pub other_codes: u64,
}

/// Of no packet.
pub const NO_COUNTS: Counts = Counts {
    packets: 0,
    listed: 0,
    other_codes: 0,
};

impl Counts {
    ghost use Rattle.seatmelon_show.specs.Counted.{AreSmall, counts_with, counts_past};

    /// Counts a packet that isn't listed.
    pub fn pass(&mut self)
        ensures { AreSmall self.old → self.new ≡ counts_past self.old }
    {
        self.packets = self.packets.saturating_add(1);
    }

    /// Counts a packet that is listed, and that is read so.
    pub fn add(&mut self, decoding: Decoding)
        ensures { AreSmall self.old → self.new ≡ counts_with self.old decoding }
    {
        self.packets = self.packets.saturating_add(1);
        self.listed = self.listed.saturating_add(1);
        if matches!(decoding, Decoding::OtherCode) {
            self.other_codes = self.other_codes.saturating_add(1);
        }
    }
}
