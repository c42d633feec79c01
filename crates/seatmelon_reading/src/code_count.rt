//! How many safety codes can be judged from a refused packet on, and how many of them are those that are due.
ghost use Rattle.std.specs.Prelude.{◌≡◌, ◌<◌, ◌^◌};
ghost use Rattle.rasta_udp.specs.Frame.{packet_of};
ghost use Rattle.seatmelon_reading.specs.Codes.{code_fit, codes_with, own_codes};

use rasta_pcap::{CaptureTime, Fault};
use rasta_pdu::{Params, decode};
use rasta_udp::{Datagram, datagram_in};

/// Of the packets of the connection in the window from the refused one on: how many have a safety code that can be
/// judged, and how many of these have the one that is due. Both are 0 where packets have no safety code.
#[derive(Clone, Copy)]
pub struct CodeCount {
    pub judged: u64,
    pub fitting: u64,
}

/// What is found of a packet's safety code.
#[derive(Clone, Copy)]
pub(crate) enum CodeFit {
    /// Packets have none, or this one has a fault that is judged before it.
    NotJudged,

    /// It isn't the one that is due.
    Wrong,

    /// It is the one that is due. The packet may have a fault that is judged after it.
    Fits,
}

// What is found of the safety code of a packet.
fn code_fit(params: &Params, packet: &Datagram<'_>) -> CodeFit
    ensures { result ≡ code_fit params.now (packet_of packet.now) }
{
    if params.code_length() == 0 {
        return CodeFit::NotJudged;
    }
    match decode(params, packet.side, packet.payload) {
        Err(fault) if fault.number == Fault::CODE => CodeFit::Wrong,
        Err(fault) if fault.number != Fault::IDS => CodeFit::NotJudged,
        _ => CodeFit::Fits,
    }
}

impl CodeCount {
    const NONE: CodeCount = CodeCount {
        judged: 0,
        fitting: 0,
    };

    // With one packet more, of whose code this is found.
    fn with(self, fit: CodeFit) -> CodeCount
        ensures { self.judged < 2 ^ 32 → self.fitting < 2 ^ 32 → result ≡ codes_with self fit }
    {
        let CodeCount { judged, fitting } = self;
        match fit {
            CodeFit::NotJudged => self,
            CodeFit::Wrong => CodeCount {
                judged: judged.saturating_add(1),
                fitting,
            },
            CodeFit::Fits => CodeCount {
                judged: judged.saturating_add(1),
                fitting: fitting.saturating_add(1),
            },
        }
    }

    /// With one packet more.
    pub fn with_packet(self, params: &Params, packet: &Datagram<'_>) -> CodeCount
        ensures { self.judged < 2 ^ 32 → self.fitting < 2 ^ 32 → result ≡ codes_with self (code_fit params.now (packet_of packet.now)) }
    {
        self.with(code_fit(params, packet))
    }

    /// Of the refused record alone, if it was read whole.
    pub fn of_record(params: &Params, frame: &[u8], time: Option<CaptureTime>) -> CodeCount
        ensures { result ≡ own_codes params.now frame.now time }
    {
        if time.is_none() {
            return CodeCount::NONE;
        }
        match datagram_in(frame, params.channel()) {
            Ok(Some(packet)) => CodeCount::NONE.with_packet(params, &packet),
            Ok(None) | Err(_) => CodeCount::NONE,
        }
    }
}
