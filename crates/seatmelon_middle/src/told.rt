//! When it is told what the packets of a connection show alone.
ghost use Rattle.std.specs.Prelude.{◌≡◌};
ghost use Rattle.seatmelon_middle.specs.Told.{tells};

use rasta_pcap::Fault;
use rasta_pdu::Params;

/// Whether it is told of a connection that is refused by this fault, and whose first packet opens the connection or
/// doesn't, if there is one: where numbers have a gap, where no run explains the packets, and where neither opening nor
/// quiet point is there.
pub fn is_told(params: &Params, opens: Option<bool>, fault: Fault) -> bool
    ensures { result ≡ tells params.now opens fault }
{
    match opens {
        Some(opens) => {
            (params.quiet().is_none() && !opens)
                || matches!(fault.number, Fault::NUMBER_GAP | Fault::NOT_FOUND)
        }
        None => false,
    }
}
