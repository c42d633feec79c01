//! How many PDUs of each type there are.
ghost use Rattle.std.specs.Prelude.{◌<◌};

use rasta_pdu::Kind;

fn place_of(kind: Kind) -> usize
    ensures { result < 8 }
{
    match kind {
        Kind::ConnectionRequest => 0,
        Kind::ConnectionResponse => 1,
        Kind::RetransmissionRequest => 2,
        Kind::RetransmissionResponse => 3,
        Kind::DisconnectionRequest => 4,
        Kind::Heartbeat => 5,
        Kind::Data => 6,
        Kind::RetransmittedData => 7,
    }
}

/// How many PDUs of each type there are.
#[derive(Clone, Copy)]
pub struct KindCounts {
    counts: [u64; 8],
}

impl KindCounts {
    /// Of no PDU yet.
    pub fn new() -> KindCounts {
        KindCounts { counts: [0; 8] }
    }

    /// Counts a PDU.
    pub fn add(&mut self, kind: Kind) {
        let place = place_of(kind);
        self.counts[place] = self.counts[place].saturating_add(1);
    }

    /// How many are of this type.
    pub fn count(&self, kind: Kind) -> u64 {
        self.counts[place_of(kind)]
    }
}
