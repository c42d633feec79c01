//! Endpoints as texts.
ghost use Rattle.std.specs.Prelude.{◌≡◌, ◌≢◌, ◌≤◌, ◌<◌, ℕ, ◌↔◌, IsTrue, IfNone, IfSome, option_map};
ghost use Rattle.std.specs.Fmt.{decimal};
ghost use Rattle.rasta_line.specs.Words.{cut, decimal_of};
ghost use Rattle.rasta_params.specs.Endpoints.{Four, HasText, IsEndpointText, address_in, endpoint_of, four_of, octet_of, port_of};
ghost use Rattle.rasta_params.specs.Stored.{four_texts};

use itoa::Buffer;
use rasta_pdu::Endpoint;

// Whether the text is that of the number, in decimal without leading zeros.
fn is_text_of(n: u32, text: &str) -> bool
    ensures { IsTrue result ↔ (text.now ≡ decimal n) }
{
    let mut buffer = Buffer::new();
    buffer.format(n) == text
}

// The number, not above the bound, whose text this is.
fn spelled(text: &str, most: u32) -> Option<u32>
    ensures found { IfSome result (λ n. (text.now ≡ decimal n) × (n ≤ most)) }
    ensures none { IfNone result ((n : ℕ) → n ≤ most → text.now ≢ decimal n) }
{
    match text.parse::<u32>() {
        Ok(n) => {
            if n <= most && is_text_of(n, text) {
                Some(n)
            } else {
                None
            }
        }
        Err(_) => None,
    }
}

fn number(text: &str, most: u32) -> Option<u32>
    ensures value { result ≡ decimal_of most text.now }
    ensures bound { IfSome result (λ n. n ≤ most) }
{
    spelled(text, most)
}

// The parts around the first separator, which is ASCII.
#[tactic(auto, unfolding(rasta_line::specs::Words::cut))]
fn parts<'a>(text: &'a str, separator: char) -> Option<(&'a str, &'a str)>
    requires { separator < 128 }
    ensures { option_map (λ p. (p.0.now, p.1.now)) result ≡ cut separator text.entry.now }
{
    text.split_once(separator)
}

// Four texts with points between them.
#[derive(Clone, Copy)]
struct Four<'a> {
    first: &'a str,
    second: &'a str,
    third: &'a str,
    fourth: &'a str,
}

#[tactic(auto, unfolding(crate::specs::Endpoints::four_of))]
fn quarters<'a>(text: &'a str) -> Option<Four<'a>>
    ensures { option_map four_texts result ≡ four_of text.entry.now }
{
    let (first, text) = parts(text, '.')?;
    let (second, text) = parts(text, '.')?;
    let (third, fourth) = parts(text, '.')?;
    Some(Four {
        first,
        second,
        third,
        fourth,
    })
}

fn octet(text: &str) -> Option<u8>
    ensures { result ≡ octet_of text.now }
{
    match number(text, 255) {
        Some(n) => Some(n as u8),
        None => None,
    }
}

#[tactic(auto, unfolding(crate::specs::Endpoints::address_in))]
fn address(parts: &Four<'_>) -> Option<[u8; 4]>
    ensures { result ≡ address_in (four_texts parts.now) }
{
    let a = octet(parts.first)?;
    let b = octet(parts.second)?;
    let c = octet(parts.third)?;
    let d = octet(parts.fourth)?;
    Some([a, b, c, d])
}

#[tactic(auto, unfolding(crate::specs::Endpoints::port_of))]
fn port(text: &str) -> Option<u16>
    ensures value { result ≡ port_of text.now }
    ensures from_one { IfSome result (λ n. 1 ≤ n) }
{
    match number(text, 65535) {
        Some(0) | None => None,
        Some(n) => Some(n as u16),
    }
}

#[tactic(auto, unfolding(crate::specs::Endpoints::endpoint_of))]
fn read(text: &str) -> Option<Endpoint>
    ensures value { result ≡ endpoint_of text.now }
    ensures port { IfSome result (λ e. 1 ≤ e.port) }
{
    let (host, port_text) = parts(text, ':')?;
    let address = address(&quarters(host)?)?;
    let port = port(port_text)?;
    Some(Endpoint { address, port })
}

/// The endpoint of a text `a.b.c.d:port`, in decimal without leading zeros, with a port from 1.
pub fn endpoint_in(text: &str) -> Option<Endpoint>
    ensures value { result ≡ endpoint_of text.now }
    ensures port { IfSome result (λ e. 1 ≤ e.port) }
    ensures spelled { IfSome result (λ e. HasText e text.now) }
    ensures none { IfNone result ((a b c d port : ℕ) → ¬ (IsEndpointText text.now a b c d port)) }
{
    read(text)
}
