//! Reading a certificate.
ghost use Rattle.std.specs.Prelude.{◌≡◌, ◌≢◌, ◌⊎◌, ◌+◌, ◌<◌, ◌≤◌, ◌^◌, ℕ, List, [], ◌++◌, IfErr, IfNone, IfOk, IfSome, MatchResult, length};
ghost use Rattle.rasta_pcap.specs.Fault.{fault_at, no_memory, wrong_syntax};
ghost use Rattle.rasta_cert.specs.Certificate.{IsCertificate, Scripts, certificate_text, line, most_entries};
ghost use Rattle.rasta_cert.specs.Reading.{BeginsWith, BeginsWithNone, IsBroken, IsScript};
ghost use Rattle.rasta_cert.specs.Refusals.{IsRefusedText, first_line};

use crate::certificate::{Certificate, MOST_ENTRIES};
use crate::entry::Entry;
use crate::fields::parts;
use crate::front::front_entry;
use rasta_pcap::Fault;
use std::alloc::Global;

// The first line, without its end, and what follows it; none where no line has an end.
fn next_line(text: &[u8]) -> Option<(&[u8], &[u8])>
    ensures found { IfSome result (λ p. text.entry.now ≡ line p.0.now ++ p.1.now) }
    ensures first { IfSome result (λ p. first_line text.entry.now ≡ line p.0.now) }
    ensures none { IfNone result ((words : List ℕ) → first_line text.entry.now ≢ line words) }
{
    parts(text, b'\n')
}

// What follows this line, where the text begins with it.
fn after_line<'a>(text: &'a [u8], words: &[u8]) -> Option<&'a [u8]>
    ensures found { IfSome result (λ rest. text.entry.now ≡ line words.now ++ rest.now) }
    ensures none { IfNone result (first_line text.entry.now ≢ line words.now) }
{
    let (line, rest) = next_line(text)?;
    if line == words { Some(rest) } else { None }
}

// The entry of the first line, and what follows that line.
fn next_entry(text: &[u8]) -> Option<(Entry, &[u8])>
    ensures found { IfSome result (λ p. BeginsWith text.entry.now p.0 p.1.now) }
    ensures shorter { IfSome result (λ p. length p.1.now < length text.entry.now) }
    ensures none { IfNone result (BeginsWithNone text.entry.now) }
{
    front_entry(text)
}

// The entries of a script, and what follows its closing line.
#[derive(Drop)]
struct Script<'a> {
    entries: Vec<Entry>,
    rest: &'a [u8],
}

// Reads a script whose entries begin in this line, at most so many of them.
fn read_script<'a>(
    alloc: Global,
    text: &'a [u8],
    close: &[u8],
    first: usize,
    most: usize,
) -> Result<Script<'a>, Fault>
    requires lines { first + most < 2 ^ 32 }
    ensures ok { IfOk result (λ s. IsScript close.now most text.entry.now s.entries.items s.rest.now) }
    ensures err { IfErr result (λ f. (f ≡ no_memory) ⊎ IsBroken close.now first most text.entry.now f) }
{
    let mut entries = Vec::new(alloc);
    let mut rest = text;
    while let Some((entry, after)) = next_entry(rest) {
        if entries.len() == most {
            let line = first + entries.len();
            return Err(Fault::at(Fault::TOO_MANY_ENTRIES, line as u32));
        }
        if entries.push(entry).is_err() {
            return Err(Fault::no_memory());
        }
        rest = after;
    }
    let line = first + entries.len();
    match after_line(rest, close) {
        Some(rest) => Ok(Script { entries, rest }),
        None => Err(Fault::at(Fault::SYNTAX, line as u32)),
    }
}

// Reads both scripts, and that nothing follows them.
fn read_scripts(alloc: Global, text: &[u8]) -> Result<Certificate, Fault>
    ensures ok { IfOk result (λ c. (text.now ≡ certificate_text c) × IsCertificate c) }
    ensures err { IfErr result (λ f. (f ≡ no_memory) ⊎ IsRefusedText text.now f) }
{
    let Some(rest) = after_line(text, b"rasta-certificate 1") else {
        return Err(Fault::at(Fault::SYNTAX, 1));
    };
    let Some(rest) = after_line(rest, b"client") else {
        return Err(Fault::at(Fault::SYNTAX, 2));
    };
    let client = read_script(alloc, rest, b"server", 3, MOST_ENTRIES)?;
    let first = 4 + client.entries.len();
    let most = MOST_ENTRIES - client.entries.len();
    let server = read_script(alloc, client.rest, b"end", first, most)?;
    if !server.rest.is_empty() {
        let line = first + server.entries.len() + 1;
        return Err(Fault::at(Fault::SYNTAX, line as u32));
    }
    Certificate::new(client.entries, server.entries)
}

/// The certificate whose text this is.
///
/// Refused at the first line that no certificate has there, where the place is the number of that line
/// from 1: by [`Fault::TOO_MANY_ENTRIES`] where it is one entry too many, and else by [`Fault::SYNTAX`].
/// Refused by [`Fault::NO_MEMORY`] at place 0.
pub fn read(alloc: Global, text: &[u8]) -> Result<Certificate, Fault>
    ensures ok { IfOk result (λ c. (text.now ≡ certificate_text c) × IsCertificate c) }
    ensures err { IfErr result (λ f. (f ≡ no_memory) ⊎ IsRefusedText text.now f) }
    ensures read_back { (c : Scripts) → IsCertificate c → text.now ≡ certificate_text c
        → MatchResult result (λ d. d ≡ c) (λ f. f ≡ no_memory) }
{
    read_scripts(alloc, text)
}
