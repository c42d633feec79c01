//! Certificates: what each end of a connection took and made, and when.
#![tactic(auto)]

mod certificate;
mod entry;
mod fields;
mod front;
pub mod laws;
mod line;
mod reading;
mod writing;

pub use certificate::Certificate;
pub use entry::Entry;
pub use line::begin_with_why;
pub use rasta_pcap::{Fault, Side, Sink, Source};
pub use reading::read;
pub use writing::write;
