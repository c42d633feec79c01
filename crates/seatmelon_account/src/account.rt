//! What is told of a capture.
ghost use Rattle.std.specs.Prelude.{◌≡◌, ◌<◌, ℕ, List, Option, nat_lt, take, None, length, is_some, option_map, IfErr, IfOk, IfSome};
ghost use Rattle.sha2.specs.Sha256.{sha256};
ghost use Rattle.rasta_pcap.specs.Fault.{no_memory};
ghost use Rattle.rasta_verdict.specs.declared.verdict.Verdict.TheVariants as verdicts;
ghost use Rattle.rasta_verdict.specs.Given.{IsUnscripted, IsVerdictOn};
ghost use Rattle.rasta_pcap.specs.declared.fault.Side.TheVariants.{Client, Server};
ghost use Rattle.seatmelon_account.specs.Hypotheses.{IsHypothesis, IsSupposed, supposition_in};
ghost use Rattle.seatmelon_account.specs.Account.{IsAccount, IsToldOf, is_refused_behind_some, most_in, text_in};
ghost use Rattle.seatmelon_account.specs.Messages.{IsDirection};
ghost use Rattle.seatmelon_account.specs.Refusals.{TellsPlace};
ghost use Rattle.seatmelon_account.specs.Starts.{start_in};

use crate::explained::{Explained, start_of};
use crate::hypothesis::{Hypothesis, hypothesis_of};
use crate::lives::{EndSilences, watch_of};
use crate::messages::direction_of;
use crate::middle::{FromMiddle, middle_of, opens_first};
use crate::offers::{Offers, offers_in};
use crate::refusal::{Refusal, capture_refusal, scripts_refusal, text_refusal, unfound};
use rasta_check::Store;
use rasta_pcap::{Fault, Side};
use rasta_pdu::Params;
use rasta_verdict::judge_by;
use seatmelon_middle::Course;
use seatmelon_reading::{ChannelCount, Reading, Sighting, Window, count_untimed, window_in};
use seatmelon_suppose::Supposition;
use sha2::{Digest, Sha256};
use std::alloc::Global;

/// How the files are named.
#[derive(Clone, Copy)]
pub struct Names<'a> {
    pub capture: &'a str,
    pub parameters: &'a str,
    pub certificate: Option<&'a str>,
}

/// The small files, whole.
#[derive(Clone, Copy)]
pub struct Texts<'a> {
    pub parameters: &'a [u8],
    pub certificate: Option<&'a [u8]>,
}

/// What stands beside a capture.
#[derive(Clone, Copy)]
pub struct Inputs<'a> {
    pub names: Names<'a>,
    pub texts: Texts<'a>,
    pub params: &'a Params,

    /// The records that are left out, by their rising numbers.
    pub without: &'a [u32],

    /// How many PDUs the tap may be supposed to have missed, if any.
    pub suppose: Option<u32>,
}

/// A file that was read, and its SHA-256.
#[derive(Clone, Copy)]
pub struct File<'a> {
    pub name: &'a str,
    pub sum: [u8; 32],
}

/// The verdict, with all that is told of it.
#[derive(Drop)]
pub enum Verdict<'a> {
    /// No packet of the connection is in the window.
    NoPackets,

    /// The capture, its packets or the certificate are refused.
    Refused(Refusal<'a>),

    /// Two ends that keep the rules can have sent the packets.
    Explained(Explained<'a>),
}

/// What was read, and the verdict with all that is told of it.
#[derive(Drop)]
pub struct Account<'a> {
    /// What stands beside the capture.
    pub inputs: &'a Inputs<'a>,

    /// What was read.
    pub reading: &'a Reading,

    pub parameters: File<'a>,
    pub certificate: Option<File<'a>>,

    /// The window; none where no window is recorded.
    pub window: Option<Window>,

    /// How many packets of the connection in the window each recorded channel has.
    pub channels: &'a [ChannelCount],

    /// How many packets of the connection have no time of capture, as a pcapng file may have them.
    pub untimed: u64,

    /// How long the client, and how long the server gave no sign of life in the window.
    pub silences: [EndSilences; 2],

    /// Whether the first packet of the window opens the connection; none where there is no packet.
    pub opens: Option<bool>,

    /// How the connection goes on, and how it ends, by the packets of the window.
    pub course: Course,

    /// What the ends offer at the opening.
    pub offers: Offers,

    pub verdict: Verdict<'a>,

    /// What becomes of the packets before the refused one, judged alone, where the capture is refused behind some.
    pub before_fault: Option<Verdict<'a>>,

    /// What was surely taken by the packets of the window alone, where numbers have a gap, no run explains them, or
    /// neither opening nor quiet point is there.
    pub middle: Option<FromMiddle<'a>>,

    /// What is supposed of a capture that is refused at a gap, where that was asked for.
    pub hypothesis: Option<Hypothesis<'a>>,
}

impl<'a> Account<'a> {
    /// Name and SHA-256 of the capture.
    pub fn capture(&self) -> File<'a>
        ensures named { result.name.now ≡ self.now.inputs.now.names.capture.now }
        ensures summed { result.sum ≡ self.now.reading.now.digest }
    {
        let inputs = self.inputs;
        File {
            name: inputs.names.capture,
            sum: self.reading.digest,
        }
    }

    /// The packets of the connection in the window, by place.
    pub fn packets(&self) -> &'a [Sighting]
        ensures { result.now ≡ self.now.reading.now.notes.packets.items }
    {
        self.reading.notes.packets.as_slice()
    }
}

// A file and its SHA-256.
fn file_of<'a>(name: &'a str, text: &[u8]) -> File<'a>
    ensures named { result.name.now ≡ name.now }
    ensures summed { result.sum ≡ sha256 text.now }
{
    let mut sum = [0; 32];
    sum.copy_from_slice(&Sha256::digest(text));
    File { name, sum }
}

// What is told where there are no scripts: the text is no certificate's, or none are found.
fn unscripted<'a>(
    alloc: Global,
    store: &'a Store,
    certificate: Option<&[u8]>,
    fault: Fault,
) -> Result<Refusal<'a>, Fault>
    requires { IsUnscripted store.now (option_map (λ text. text.now) certificate) fault }
    ensures fault { IfOk result (λ refusal. refusal.fault ≡ fault) }
    ensures told { IfOk result (λ refusal. TellsPlace store.now (option_map (λ text. text.now) certificate.entry) fault refusal.subject) }
    ensures err { IfErr result (λ f. f ≡ no_memory) }
{
    match certificate {
        Some(text) => Ok(text_refusal(store, text, fault)),
        None => unfound(alloc, store, fault),
    }
}

// What is told of what explains a capture.
#[tactic(auto, using(crate::proofs::Told::client_first, crate::proofs::Told::server_first))]
fn explained<'a>(
    alloc: Global,
    params: &Params,
    reading: &'a Reading,
    explanation: &rasta_verdict::Explanation<'a>,
) -> Result<Explained<'a>, Fault>
    requires { (text : Option (List ℕ)) × IsVerdictOn reading.now.store text (verdicts.Explained explanation.now) }
    ensures packets { IfOk result (λ e. e.packets ≡ explanation.now.report.packets) }
    ensures has_code { IfOk result (λ e. e.has_code ≡ nat_lt 0 params.now.code_length) }
    ensures start { IfOk result (λ e. e.start ≡ start_in params.now reading.now.notes.before) }
    ensures client { IfOk result (λ e. IsDirection Client reading.now.store.client explanation.now.report.server_taken e.client) }
    ensures server { IfOk result (λ e. IsDirection Server reading.now.store.server explanation.now.report.client_taken e.server) }
    ensures err { IfErr result (λ f. f ≡ no_memory) }
{
    let store = &reading.store;
    let report = &explanation.report;
    let (client, server) = (store.list_of(Side::Client), store.list_of(Side::Server));
    Ok(Explained {
        packets: report.packets,
        has_code: params.code_length() > 0,
        start: start_of(params, &reading.notes),
        client: direction_of(alloc, Side::Client, &client, report.server_taken.as_slice())?,
        server: direction_of(alloc, Side::Server, &server, report.client_taken.as_slice())?,
    })
}

// The verdict on what crossed, by a certificate, if one is given.
fn judged<'a>(
    alloc: Global,
    params: &Params,
    certificate: Option<&[u8]>,
    reading: &'a Reading,
) -> Result<Verdict<'a>, Fault>
    requires { 0 < length reading.now.store.packets }
    ensures told { IfOk result (IsToldOf params.now reading.now.store reading.now.notes.before None (option_map (λ text. text.now) certificate.entry)) }
    ensures err { IfErr result (λ f. f ≡ no_memory) }
{
    let store = &reading.store;
    match judge_by(alloc, store, certificate)? {
        rasta_verdict::Verdict::Explained(explanation) => {
            let told = explained(alloc, params, reading, &explanation)?;
            Ok(Verdict::Explained(told))
        }
        rasta_verdict::Verdict::Refused(fault, certificate) => {
            Ok(Verdict::Refused(scripts_refusal(store, fault, &certificate)))
        }
        rasta_verdict::Verdict::Unscripted(fault) => {
            let refusal = unscripted(alloc, store, certificate, fault)?;
            Ok(Verdict::Refused(refusal))
        }
    }
}

// The verdict on what was read.
fn verdict_on<'a>(
    alloc: Global,
    inputs: &Inputs<'a>,
    reading: &'a Reading,
) -> Result<Verdict<'a>, Fault>
    ensures told { IfOk result (IsToldOf inputs.now.params.now reading.now.store reading.now.notes.before
        reading.now.refusal (text_in inputs.now)) }
    ensures err { IfErr result (λ f. f ≡ no_memory) }
{
    let store = &reading.store;
    match &reading.refusal {
        Some(refusal) => Ok(Verdict::Refused(capture_refusal(inputs.params, store, refusal))),
        None if store.len() == 0 => Ok(Verdict::NoPackets),
        None => judged(alloc, inputs.params, inputs.texts.certificate, reading),
    }
}

// What becomes of the packets before the refused one, judged alone, where the capture is refused behind some.
fn before_fault<'a>(
    alloc: Global,
    params: &Params,
    reading: &'a Reading,
) -> Result<Option<Verdict<'a>>, Fault>
    ensures verdict { IfOk result (λ v. IfSome v (IsToldOf params.now reading.now.store reading.now.notes.before None None)) }
    ensures told { IfOk result (λ v. is_some v ≡ is_refused_behind_some reading.now) }
    ensures err { IfErr result (λ f. f ≡ no_memory) }
{
    if reading.refusal.is_none() || reading.store.len() == 0 {
        return Ok(None);
    }
    let verdict = judged(alloc, params, None, reading)?;
    Ok(Some(verdict))
}

// The counts of the recorded channels.
fn channels_in<'a>(params: &Params, counts: &'a [ChannelCount]) -> &'a [ChannelCount]
    ensures { result.now ≡ take (length params.now.channels) counts.now }
{
    let recorded = params.channel().len();
    &counts[..recorded.min(counts.len())]
}

// What is told of what is supposed, if anything is.
fn hypothesis_in<'a>(
    alloc: Global,
    params: &Params,
    reading: &'a Reading,
    supposition: Option<Supposition>,
) -> Result<Option<Hypothesis<'a>>, Fault>
    ensures hypothesis { (most : ℕ) → IfSome supposition (IsSupposed params.now reading.now.notes.tape most)
        → IfOk result (λ h. IfSome h (IsHypothesis params.now reading.now.notes most)) }
    ensures told { IfOk result (λ h. option_map supposition_in h ≡ supposition) }
    ensures err { IfErr result (λ f. f ≡ no_memory) }
{
    match supposition {
        Some(supposition) => Ok(Some(hypothesis_of(alloc, params, &reading.notes, supposition)?)),
        None => Ok(None),
    }
}

/// What is told of a capture that was read, and of what is supposed of it, if anything is. Refused by [`Fault::NO_MEMORY`]
/// alone.
pub fn account_of<'a>(
    alloc: Global,
    inputs: &'a Inputs<'a>,
    reading: &'a Reading,
    supposition: Option<Supposition>,
) -> Result<Account<'a>, Fault>
    requires { IfSome supposition (IsSupposed inputs.now.params.now reading.now.notes.tape (most_in inputs.now)) }
    ensures account { IfOk result (IsAccount inputs.now reading.now) }
    // What is told of a supposition is told of the one that is passed.
    ensures passed { IfOk result (λ a. option_map supposition_in a.hypothesis ≡ supposition) }
    ensures told { IfOk result (λ a. is_some a.hypothesis ≡ is_some supposition) }
    ensures err { IfErr result (λ f. f ≡ no_memory) }
{
    let Inputs { names, texts, .. } = *inputs;
    let notes = &reading.notes;
    let name = names.certificate.unwrap_or("-");
    let verdict = verdict_on(alloc, inputs, reading)?;
    let watch = watch_of(reading);
    Ok(Account {
        inputs,
        reading,
        parameters: file_of(names.parameters, texts.parameters),
        certificate: texts.certificate.map(|text| file_of(name, text)),
        window: window_in(inputs.params, notes.records),
        channels: channels_in(inputs.params, &notes.channels),
        untimed: count_untimed(notes.packets.as_slice()),
        silences: watch.silences(notes.last),
        opens: opens_first(reading),
        course: watch.course(),
        offers: offers_in(inputs.params, &reading.store),
        middle: middle_of(alloc, reading, &verdict)?,
        verdict,
        before_fault: before_fault(alloc, inputs.params, reading)?,
        hypothesis: hypothesis_in(alloc, inputs.params, reading, supposition)?,
    })
}
