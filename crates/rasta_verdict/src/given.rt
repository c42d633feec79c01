//! What becomes of what crossed, by a certificate that is given or proposed.
ghost use Rattle.std.specs.Prelude.{◌≡◌, IfErr, IfOk, option_map};
ghost use Rattle.rasta_pcap.specs.Fault.{no_memory};
ghost use Rattle.rasta_verdict.specs.Given.{IsVerdictOn};

use crate::proposed::judge_proposed;
use crate::verdict::{Verdict, judge};
use rasta_check::Store;
use rasta_pdu::Fault;
use std::alloc::Global;

/// The verdict on what crossed and the text of a certificate; without one, a certificate is proposed. It is explained
/// only where the checker answers a report, which is then the explanation's.
///
/// Refused by [`Fault::NO_MEMORY`] alone.
pub fn judge_by<'a>(
    alloc: Global,
    store: &'a Store,
    certificate: Option<&[u8]>,
) -> Result<Verdict<'a>, Fault>
    ensures judged { IfOk result (IsVerdictOn store.now (option_map (λ text. text.now) certificate.entry)) }
    ensures err { IfErr result (λ f. f ≡ no_memory) }
{
    match certificate {
        Some(text) => judge(alloc, store, text),
        None => judge_proposed(alloc, store),
    }
}
