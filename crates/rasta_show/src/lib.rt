//! The PDUs of a capture as text: one exact line for each.
#![tactic(auto)]

mod messages;
mod packet;
mod show;
mod shown_packet;
mod texts;

pub use rasta_pdu::{Fault, Side, Sink, Source};
pub use show::run_show;
