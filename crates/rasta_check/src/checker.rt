//! The checker: it follows a certificate, and never searches.
ghost use Rattle.std.specs.Prelude.{◌≡◌, ◌≤◌, ◌⊎◌, ℕ, [], length, Ok, Err, IfOk, OnOk, IfErr, MatchResult, List};
ghost use Rattle.rasta_pcap.specs.Fault.{no_memory};
ghost use Rattle.rasta_pcap.specs.Capture.{IsCapture};
ghost use Rattle.rasta_udp.specs.Frame.{Packet};
ghost use Rattle.rasta_check.specs.Capture.SentLists.{crossing_list};
ghost use Rattle.rasta_check.specs.Capture.Crossing.{AreSentLists, IsCrossing};
ghost use Rattle.rasta_end.specs.State.{EndState};
ghost use Rattle.rasta_check.specs.Internals.Checking;
ghost use Rattle.rasta_check.specs.Internals.Listing.{listed_with, proofs_from};
ghost use Rattle.rasta_check.specs.Internals.Checking.{verdict_of};
ghost use Rattle.rasta_check.specs.Verdict.Report.{BothFit, Explains, IsFileVerdict, IsScriptVerdict, explained, report_of};
ghost use Rattle.rasta_check.specs.Capture.Faults.{CrossedIn};
ghost use Rattle.rasta_check.specs.Verdict.Headline.{Headline, IsSharp};

use crate::follower::follow;
use crate::packet_store::Store;
use crate::report::Report;
use crate::sent_list::SentList;
use crate::sent_packets::Sent;
use crate::sent_reading::sent;
use crate::surely_taken::{proof_places, taken_list};
use rasta_cert::{Certificate, Entry};
use rasta_pcap::{Fault, Side};
use rasta_pdu::Params;
use std::alloc::{AllocError, Global};

// The places of the proofs of the units of an end, unit by unit, or the first fault of its script. The end is let go.
fn script_proofs<'a, S: SentList<'a>>(
    alloc: Global,
    p: &Params,
    side: Side,
    packets: u32,
    own: &S,
    peer: &S,
    script: &[Entry],
) -> Result<Vec<u32>, Fault>
    requires few { length script.now ≤ 4000000 }
    ensures { MatchResult result
        (λ places. (e : EndState) × (Checking.follow p.now side packets (S.content own.now) (S.content peer.now) script.now ≡ Ok e)
        × (places.items ≡ proofs_from e [] (S.content peer.now)))
        (λ f. (Checking.follow p.now side packets (S.content own.now) (S.content peer.now) script.now ≡ Err f) ⊎ (f ≡ no_memory)) }
{
    let end = follow(alloc, p, side, packets, own, peer, script)?;
    let places = proof_places(alloc, &end, peer)?;
    Ok(places)
}

// The report on both sent lists, by the places of the proofs of their units.
fn report<'a, S: SentList<'a>>(
    alloc: Global,
    packets: u32,
    client: (&S, &[u32]),
    server: (&S, &[u32]),
) -> Result<Report<'a>, AllocError>
    ensures { IfOk result (λ r. explained r ≡ record {
      packets = packets;
      client_taken = listed_with server.entry.1.now (S.content server.entry.0.now);
      server_taken = listed_with client.entry.1.now (S.content client.entry.0.now);
    }) }
{
    let client_taken = taken_list(alloc, server.0, server.1)?;
    let server_taken = taken_list(alloc, client.0, client.1)?;
    Ok(Report {
        packets,
        client_taken,
        server_taken,
    })
}

// The verdict over two sent lists.
#[tactic(auto, using(crate::proofs::Verdict::Headline::verdict_of_ends))]
fn verdict<'a, S: SentList<'a>>(
    alloc: Global,
    p: &Params,
    packets: u32,
    client: &S,
    server: &S,
    certificate: &Certificate,
) -> Result<Report<'a>, Fault>
    requires crossed { AreSentLists p.now packets (S.content client.now) (S.content server.now) }
    ensures { MatchResult result
        (λ r. verdict_of p.now packets (S.content client.now) (S.content server.now) certificate.now ≡ Ok (explained r))
        (λ f. (verdict_of p.now packets (S.content client.now) (S.content server.now) certificate.now ≡ Err f) ⊎ (f ≡ no_memory)) }
{
    let client_proofs = script_proofs(
        alloc,
        p,
        Side::Client,
        packets,
        client,
        server,
        certificate.client(),
    )?;
    let server_proofs = script_proofs(
        alloc,
        p,
        Side::Server,
        packets,
        server,
        client,
        certificate.server(),
    )?;
    let report = report(
        alloc,
        packets,
        (client, &client_proofs),
        (server, &server_proofs),
    )?;
    Ok(report)
}

/// The report on two sent lists, where the certificate's scripts explain them; else the first fault: the
/// client's script is followed whole, and then the server's.
///
/// A fault names the number of its entry, from 1, and its script's side. For a take it is
/// [`Fault::SLOT_ORDER`], [`Fault::NOT_YET_CROSSED`], [`Fault::NOT_RISING`] and then one of [`End::take`];
/// for a make [`Fault::SLOT_ORDER`], [`Fault::NOT_FIRST_COPY`], [`Fault::MAKE_MISSING`] and then one of
/// [`End::make`]; [`Fault::MAKE_MISSING`] after the last entry where a first copy is left unmade.
/// [`Fault::NO_MEMORY`] may stand in place of any answer.
///
/// Where this answers a report, some run of two RaSTA ends over a network that loses, repeats, delays and
/// reorders sends exactly the packets; and in every run that does, the far end handed up, once each and in
/// order, every message that the report lists as taken.
pub fn check_lists<'a, S: SentList<'a>>(
    alloc: Global,
    p: &Params,
    packets: u32,
    client: &S,
    server: &S,
    certificate: &Certificate,
) -> Result<Report<'a>, Fault>
    // Both are the sent lists of so many packets.
    requires crossed { AreSentLists p.now packets (S.content client.now) (S.content server.now) }
    // The report, or the first fault.
    ensures verdict { MatchResult result
        (λ r. IsScriptVerdict p.now packets (S.content client.now) (S.content server.now) certificate.now (Ok (explained r)))
        (λ f. IsScriptVerdict p.now packets (S.content client.now) (S.content server.now) certificate.now (Err f) ⊎ (f ≡ no_memory)) }
    // A report stands exactly where both scripts fit.
    ensures fits { OnOk result (BothFit p.now packets (S.content client.now) (S.content server.now) certificate.now) }
    ensures refused { IfErr result (λ f. (BothFit p.now packets (S.content client.now) (S.content server.now) certificate.now → ⊥) ⊎ (f ≡ no_memory)) }
    // Both scripts fit, and the report is that on these lists.
    ensures exact { IfOk result (λ r. BothFit p.now packets (S.content client.now) (S.content server.now) certificate.now
        × (explained r ≡ report_of p.now packets (S.content client.now) (S.content server.now))) }
    // The headline, for all packets of which these are the sent lists.
    ensures headline { IfOk result (λ r. (w : List Packet) → length w ≡ packets
        → IsCrossing (record { params = p.now; packets = w; client = S.content client.now; server = S.content server.now })
        → Headline p.now w (explained r)) }
    // No longer list is sure.
    ensures sharp { IfOk result (λ r. (w : List Packet) → length w ≡ packets
        → IsCrossing (record { params = p.now; packets = w; client = S.content client.now; server = S.content server.now })
        → IsSharp p.now w (explained r)) }
{
    verdict(alloc, p, packets, client, server, certificate)
}

/// The report on what crossed, where the certificate's scripts explain it; else the first fault, as of
/// [`check_lists`].
///
/// Where this answers a report, some run of two RaSTA ends over a network that loses, repeats, delays and
/// reorders sends exactly the packets; and in every run that does, the far end handed up, once each and in
/// order, every message that the report lists as taken.
#[tactic(auto, using(crate::proofs::Verdict::Headline::lent))]
pub fn check_sent<'a>(
    alloc: Global,
    p: &Params,
    sent: &Sent<'a>,
    certificate: &Certificate,
) -> Result<Report<'a>, Fault>
    requires same { sent.now.params ≡ p.now }
    ensures verdict { MatchResult result
        (λ r. IsScriptVerdict p.now (length sent.now.packets) sent.now.client sent.now.server certificate.now (Ok (explained r)))
        (λ f. IsScriptVerdict p.now (length sent.now.packets) sent.now.client sent.now.server certificate.now (Err f) ⊎ (f ≡ no_memory)) }
    ensures fits { OnOk result (BothFit p.now (length sent.now.packets) sent.now.client sent.now.server certificate.now) }
    ensures refused { IfErr result (λ f. (BothFit p.now (length sent.now.packets) sent.now.client sent.now.server certificate.now → ⊥) ⊎ (f ≡ no_memory)) }
    ensures exact { IfOk result (λ r. BothFit p.now (length sent.now.packets) sent.now.client sent.now.server certificate.now
        × (explained r ≡ report_of p.now (length sent.now.packets) sent.now.client sent.now.server)) }
    ensures headline { IfOk result (λ r. Headline p.now sent.now.packets (explained r)) }
    ensures sharp { IfOk result (λ r. IsSharp p.now sent.now.packets (explained r)) }
{
    check_lists(
        alloc,
        p,
        sent.len(),
        sent.client(),
        sent.server(),
        certificate,
    )
}

/// The report on what crossed, as of [`check_sent`], from a [`Store`].
///
/// Where this answers a report, some run of two RaSTA ends over a network that loses, repeats, delays and
/// reorders sends exactly the packets; and in every run that does, the far end handed up, once each and in
/// order, every message that the report lists as taken.
pub fn check_store<'a>(
    alloc: Global,
    p: &Params,
    store: &'a Store,
    certificate: &Certificate,
) -> Result<Report<'a>, Fault>
    requires same { store.now.params ≡ p.now }
    ensures verdict { MatchResult result
        (λ r. IsScriptVerdict p.now (length store.now.packets) store.now.client store.now.server certificate.now (Ok (explained r)))
        (λ f. IsScriptVerdict p.now (length store.now.packets) store.now.client store.now.server certificate.now (Err f) ⊎ (f ≡ no_memory)) }
    ensures fits { OnOk result (BothFit p.now (length store.now.packets) store.now.client store.now.server certificate.now) }
    ensures refused { IfErr result (λ f. (BothFit p.now (length store.now.packets) store.now.client store.now.server certificate.now → ⊥) ⊎ (f ≡ no_memory)) }
    ensures exact { IfOk result (λ r. BothFit p.now (length store.now.packets) store.now.client store.now.server certificate.now
        × (explained r ≡ report_of p.now (length store.now.packets) store.now.client store.now.server)) }
    ensures headline { IfOk result (λ r. Headline p.now store.now.packets (explained r)) }
    ensures sharp { IfOk result (λ r. IsSharp p.now store.now.packets (explained r)) }
    // What `check` answers for a capture of which this is the store.
    ensures of_file { (file : List ℕ) → CrossedIn p.now file store.now → MatchResult result
        (λ r. IsFileVerdict p.now file certificate.now (Ok (explained r)))
        (λ f. IsFileVerdict p.now file certificate.now (Err f) ⊎ (f ≡ no_memory)) }
{
    check_lists(
        alloc,
        p,
        store.len(),
        &store.client(),
        &store.server(),
        certificate,
    )
}

/// The report on a capture, where it has no fault and the certificate's scripts explain it; else the first
/// fault, as of [`sent`](crate::sent) and then as of [`check_lists`].
///
/// Where `check` answers a report for a capture's bytes, parameters and a certificate, some run of two
/// RaSTA ends over a network that loses, repeats, delays and reorders sends exactly the connection's
/// captured packets past the tap; and in every run that does, the far end handed up, once each and in
/// order, every message that the report lists as taken.
pub fn check<'a>(
    alloc: Global,
    p: &Params,
    file: &'a [u8],
    certificate: &Certificate,
) -> Result<Report<'a>, Fault>
    // The report, or the first fault.
    ensures verdict { MatchResult result
        (λ r. IsFileVerdict p.now file.now certificate.now (Ok (explained r)))
        (λ f. IsFileVerdict p.now file.now certificate.now (Err f) ⊎ (f ≡ no_memory)) }
    // A report stands exactly where the capture has no fault and both scripts fit.
    ensures explains { OnOk result (Explains p.now file.now certificate.now) }
    ensures refused { IfErr result (λ f. (Explains p.now file.now certificate.now → ⊥) ⊎ (f ≡ no_memory)) }
    // The capture's records hold packets of which its sides sent these lists, both scripts fit them, and the report is that on just
    // these lists.
    ensures exact { IfOk result (λ r. (e : Explains p.now file.now certificate.now)
        × (explained r ≡ report_of p.now (length (crossing_list p.now e.capture.records)) e.client e.server)) }
    // The headline, for the packets that the capture's records hold.
    ensures headline { IfOk result (λ r. (records : List (List ℕ)) → IsCapture p.now.last_record file.now records
        → Headline p.now (crossing_list p.now records) (explained r)) }
{
    let sent = sent(alloc, *p, file)?;
    check_sent(alloc, p, &sent, certificate)
}
