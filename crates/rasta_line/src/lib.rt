//! What texts share: lines of words with a space between them, bytes in hexadecimal, the names of ends, and refusals.
#![tactic(auto)]

mod digits;
mod line;
mod messages;
mod texts;

pub use line::Line;
pub use messages::{write_hex, write_message};
pub use rasta_pcap::{Fault, Side, Sink, Source};
pub use texts::{end_name, refusal_line, write_refusal};
