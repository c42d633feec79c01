//! The scripts of both ends.
ghost use Rattle.std.specs.Prelude.{◌≡◌, ◌⊎◌, ◌+◌, ◌<◌, ◌^◌, length, option_map, Ok, OnOk, IfOk, IfErr};
ghost use Rattle.rasta_pcap.specs.Fault.{no_memory};
ghost use Rattle.rasta_pcap.specs.declared.fault.Side.TheVariants.{Client, Server};
ghost use Rattle.rasta_pdu.specs.Pdu.{value_of};
ghost use Rattle.rasta_cert.specs.Certificate.{IsCertificate};
ghost use Rattle.rasta_check.specs.Capture.Lists.{copy_of};
ghost use Rattle.rasta_check.specs.Capture.Crossing.{AreSentLists};
ghost use Rattle.rasta_check.specs.Verdict.Report.{BothFit};
ghost use Rattle.rasta_build.specs.Choices;
ghost use Rattle.rasta_build.specs.Choices.{sided_copy, IsProposalFault};
ghost use Rattle.rasta_build.specs.Completeness.{IsAnswer, IsComplete};
ghost use Rattle.rasta_build.specs.Explaining.{explain};
ghost use Rattle.rasta_build.specs.Proposing;
ghost use Rattle.rasta_build.specs.Proposing.{all_copies, first_pass, one_more, passes, proposed_by};
ghost use Rattle.rasta_build.specs.Stopping.{IsMet, IsNextStop, IsPassStop, IsStopped};

use crate::obstacles::{Obstacle, Stop};
use crate::script_builder::ScriptBuilder;
use rasta_cert::Certificate;
use rasta_check::{FirstCopy, Sent, SentList};
use rasta_pdu::{Fault, Params, Pdu, Side};
use std::alloc::Global;
use std::marker::Model;

/// The first copy that crossed first, of the next ones of both sides, with its side.
fn first_of<'a>(
    client: Option<FirstCopy<'a>>,
    server: Option<FirstCopy<'a>>,
) -> Option<(Side, FirstCopy<'a>)>
    ensures { option_map sided_copy result ≡ Choices.first_of (option_map copy_of client.entry) (option_map copy_of server.entry) }
{
    match (client, server) {
        (Some(own), Some(other)) if own.0 < other.0 => Some((Side::Client, own)),
        (_, Some(other)) => Some((Side::Server, other)),
        (Some(own), None) => Some((Side::Client, own)),
        (None, None) => None,
    }
}

/// How far both sent lists have been gone through.
#[derive(Drop)]
struct Pass<'a> {
    // How many of the client's first copies are explained, and how many of the server's.
    made: u32,
    answered: u32,
    own: ScriptBuilder<'a>,
    other: ScriptBuilder<'a>,
}

impl<'a> Model for Pass<'a> {
    ghost use Rattle.rasta_build.specs.Proposing;

    ghost Value = { Proposing.Pass };

    ghost view = { λ t. record { made = t.made; answered = t.answered; own = t.own; other = t.other } };
}

impl<'a> Pass<'a> {
    fn new(alloc: Global, params: &Params) -> Pass<'a>
        ensures { result ≡ first_pass params.now }
    {
        Pass {
            made: 0,
            answered: 0,
            own: ScriptBuilder::new(alloc, params, Side::Client),
            other: ScriptBuilder::new(alloc, params, Side::Server),
        }
    }

    // Explains the client's next first copy, which crossed at this place.
    #[tactic(auto, using(crate::proofs::Answering::client_stops))]
    fn explain_client<S: SentList<'a>>(
        &mut self,
        params: &Params,
        server: &S,
        place: u32,
        pdu: &Pdu<'a>,
    ) -> Result<(), Stop>
        requires params { self.old.own.end.params ≡ params.now }
        requires accepted { self.old.own.end.state.accepted < 2 ^ 62 }
        requires few { self.old.made + 1 < 2 ^ 32 }
        ensures ok { OnOk result (Proposing.client_goes self.old place (explain (S.content server.now) place (value_of pdu.now).safety self.old.own) ≡ Ok self.new) }
        ensures err { IfErr result (IsPassStop Client (Proposing.client_goes self.old place (explain (S.content server.now) place (value_of pdu.now).safety self.old.own))) }
    {
        match self.own.explain(params, server, place, pdu) {
            Ok(()) => {
                self.made += 1;
                Ok(())
            }
            Err(halt) => Err(halt.at(Side::Client, place)),
        }
    }

    // Explains the server's next first copy, which crossed at this place.
    #[tactic(auto, using(crate::proofs::Answering::server_stops))]
    fn explain_server<S: SentList<'a>>(
        &mut self,
        params: &Params,
        client: &S,
        place: u32,
        pdu: &Pdu<'a>,
    ) -> Result<(), Stop>
        requires params { self.old.other.end.params ≡ params.now }
        requires accepted { self.old.other.end.state.accepted < 2 ^ 62 }
        requires few { self.old.answered + 1 < 2 ^ 32 }
        ensures ok { OnOk result (Proposing.server_goes self.old place (explain (S.content client.now) place (value_of pdu.now).safety self.old.other) ≡ Ok self.new) }
        ensures err { IfErr result (IsPassStop Server (Proposing.server_goes self.old place (explain (S.content client.now) place (value_of pdu.now).safety self.old.other))) }
    {
        match self.other.explain(params, client, place, pdu) {
            Ok(()) => {
                self.answered += 1;
                Ok(())
            }
            Err(halt) => Err(halt.at(Side::Server, place)),
        }
    }

    // Explains the first copy that crossed next, if one is left.
    fn explain_next<S: SentList<'a>>(
        &mut self,
        params: &Params,
        client: &S,
        server: &S,
    ) -> Result<(), Stop>
        requires params { (self.old.own.end.params ≡ params.now) × (self.old.other.end.params ≡ params.now) }
        requires accepted { (self.old.own.end.state.accepted < 2 ^ 62) × (self.old.other.end.state.accepted < 2 ^ 62) }
        requires few { (length (S.content client.now) < 2 ^ 32) × (length (S.content server.now) < 2 ^ 32) }
        ensures ok { OnOk result (one_more (S.content client.now) (S.content server.now) self.old ≡ Ok self.new) }
        ensures err { IfErr result (IsNextStop (S.content client.now) (S.content server.now) self.old) }
    {
        match first_of(client.get(self.made), server.get(self.answered)) {
            Some((Side::Client, (place, pdu))) => {
                self.explain_client(params, server, place, &pdu)
            }
            Some((Side::Server, (place, pdu))) => {
                self.explain_server(params, client, place, &pdu)
            }
            None => Ok(()),
        }
    }

    // Both scripts.
    fn into_certificate(self) -> Result<Certificate, Fault>
        ensures { result ≡ proposed_by (Ok self.entry) }
    {
        Certificate::new(self.own.into_script(), self.other.into_script())
    }
}

// Goes through the two sent lists of so many packets.
fn pass_through<'a, S: SentList<'a>>(
    alloc: Global,
    p: &Params,
    packets: u32,
    client: &S,
    server: &S,
) -> Result<Pass<'a>, Stop>
    requires { AreSentLists p.now packets (S.content client.now) (S.content server.now) }
    ensures ok { IfOk result (λ pass. passes p.now (S.content client.now) (S.content server.now) (all_copies (S.content client.now) (S.content server.now)) ≡ Ok pass) }
    ensures err { IfErr result (IsStopped p.now (S.content client.now) (S.content server.now)) }
{
    let mut pass = Pass::new(alloc, p);
    for _ in 0..u64::from(client.len()) + u64::from(server.len()) {
        pass.explain_next(p, client, server)?;
    }
    Ok(pass)
}

// Proposes scripts for the two sent lists of so many packets.
#[tactic(auto, using(crate::proofs::Answering::pass_answers, crate::proofs::Answering::stop_answers))]
fn answer<'a, S: SentList<'a>>(
    alloc: Global,
    p: &Params,
    packets: u32,
    client: &S,
    server: &S,
) -> Result<Certificate, Fault>
    requires { AreSentLists p.now packets (S.content client.now) (S.content server.now) }
    ensures { IsAnswer p.now (S.content client.now) (S.content server.now) result }
{
    match pass_through(alloc, p, packets, client, server) {
        Ok(pass) => pass.into_certificate(),
        Err(stop) => Err(stop.fault()),
    }
}

/// What a pass over the two sent lists of so many packets can't get over, as no part of any verdict: where
/// [`propose_lists`] answers [`Fault::NOT_FOUND`], the packet at its place, with its end and the rule that
/// refuses it.
///
/// Refused by [`Fault::NO_MEMORY`] alone.
#[tactic(auto, using(crate::proofs::Answering::none_met, crate::proofs::Answering::one_met))]
pub fn find_obstacle<'a, S: SentList<'a>>(
    alloc: Global,
    p: &Params,
    packets: u32,
    client: &S,
    server: &S,
) -> Result<Option<Obstacle>, Fault>
    // Both are the sent lists of so many packets.
    requires crossed { AreSentLists p.now packets (S.content client.now) (S.content server.now) }
    ensures met { IfOk result (IsMet p.now (S.content client.now) (S.content server.now)) }
    ensures err { IfErr result (λ f. f ≡ no_memory) }
{
    match pass_through(alloc, p, packets, client, server) {
        Ok(_) => Ok(None),
        Err(Stop::Blocked(met)) => Ok(Some(met)),
        Err(Stop::OutOfMemory) => Err(Fault::no_memory()),
    }
}

/// Proposes scripts for the two sent lists of so many packets: each first copy is explained in the order of
/// crossing, by what must have been taken before it. What is proposed fits what crossed.
///
/// Refused by [`Fault::NO_MEMORY`], or by [`Fault::NOT_FOUND`], which has as its place one more than that of
/// the first packet that couldn't be explained: no run within the limits sends packets that begin with those
/// up to that place, and some run sends exactly those before it.
pub fn propose_lists<'a, S: SentList<'a>>(
    alloc: Global,
    p: &Params,
    packets: u32,
    client: &S,
    server: &S,
) -> Result<Certificate, Fault>
    // Both are the sent lists of so many packets.
    requires crossed { AreSentLists p.now packets (S.content client.now) (S.content server.now) }
    ensures answer { IsAnswer p.now (S.content client.now) (S.content server.now) result }
    ensures complete { IsComplete p.now (S.content client.now) (S.content server.now) result }
    ensures fits { IfOk result (λ scripts. IsCertificate scripts × BothFit p.now packets (S.content client.now) (S.content server.now) scripts) }
    ensures refused { IfErr result (IsProposalFault (S.content client.now) (S.content server.now)) }
{
    answer(alloc, p, packets, client, server)
}

/// Proposes scripts for what crossed, as [`propose_lists`].
pub fn propose(alloc: Global, p: &Params, sent: &Sent<'_>) -> Result<Certificate, Fault>
    requires same { sent.now.params ≡ p.now }
    ensures answer { IsAnswer p.now sent.now.client sent.now.server result }
    ensures complete { IsComplete p.now sent.now.client sent.now.server result }
    ensures fits { IfOk result (λ scripts. IsCertificate scripts × BothFit p.now (length sent.now.packets) sent.now.client sent.now.server scripts) }
    ensures refused { IfErr result (IsProposalFault sent.now.client sent.now.server) }
{
    propose_lists(alloc, p, sent.len(), sent.client(), sent.server())
}
