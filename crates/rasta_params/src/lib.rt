//! Parameter files: the TOML text that records a connection, its window, and how its ends are judged.
#![tactic(auto)]

mod document;
mod endpoint;
mod key_values;
mod quiet_table;
mod start_words;

pub use document::{KEYS, params};
pub use rasta_pdu::{Fault, Side, Sink, Source};
