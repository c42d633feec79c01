//! What a record holds for a connection.
ghost use Rattle.std.specs.Prelude.{◌≡◌, ℕ, List, None, Some, MatchResult};
ghost use Rattle.rasta_pcap.specs.Captured.{Captured, numbered};
ghost use Rattle.rasta_pdu.specs.Params.{Parameters};
ghost use Rattle.seatmelon_reading.specs.Noted.{seen_in, why_passed};
ghost use Rattle.seatmelon_reading.specs.Sights.{IsSightOf};
ghost use Rattle.seatmelon_reading.specs.declared.sight.Sight.TheVariants.{Packet};

use crate::frames::why_not;
use crate::passed_over::WhyPassed;
use rasta_pcap::{Fault, Record};
use rasta_pdu::Params;
use rasta_udp::{Datagram, datagram_in};

/// What a record holds for a connection.
#[derive(Drop)]
pub enum Sight<'r> {
    /// Nothing is asked of it.
    LeftOut,

    /// A packet of the recorded channels.
    Packet(Datagram<'r>),

    /// A packet between their hosts that can't be read, for this fault, which names no record.
    Unreadable(Fault),

    /// None of both, for this reason.
    Passed(WhyPassed),
}

impl<'r> Sight<'r> {
    /// That of a record, where the records of these numbers are left out.
    pub fn of(params: &Params, without: &[u32], record: &Record<'r>) -> Sight<'r>
        ensures { IsSightOf params.now without.now («record».now.number, «record».now.bytes.now) result }
    {
        if without.contains(&record.number) {
            return Sight::LeftOut;
        }
        let channels = params.channel();
        match datagram_in(record.bytes, channels) {
            Ok(Some(found)) => Sight::Packet(found),
            Ok(None) => Sight::Passed(why_not(record.bytes, channels)),
            Err(fault) => Sight::Unreadable(fault),
        }
    }
    /// The packet, or why there is none.
    pub fn packet(&self) -> Result<&Datagram<'r>, WhyPassed>
        ensures { MatchResult result (λ found. self.now ≡ Packet found.now)
            (λ why. (p : Parameters) (without : List ℕ) (r : Captured) → IsSightOf p without (numbered r) self.now
            → (seen_in p without r ≡ None) × (why_passed p without r ≡ Some why)) }
    {
        match self {
            Sight::Packet(found) => Ok(found),
            Sight::LeftOut => Err(WhyPassed::LeftOut),
            Sight::Unreadable(_) => Err(WhyPassed::Unreadable),
            Sight::Passed(why) => Err(*why),
        }
    }
}
