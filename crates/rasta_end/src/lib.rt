//! One end of a RaSTA connection: what it may take and what it may make. The rules are this project's
//! profile, modelled on the standard.
#![tactic(auto)]

mod deadline;
mod end;
pub mod laws;
mod made_pdus;
mod make_row;
mod making;
mod owed;
mod phase;
mod sequence_checks;
mod take_effects;
mod take_row;
mod taking;
mod why;

pub use end::End;
pub use phase::Phase;
pub use rasta_pcap::{Fault, Side, Sink, Source};
pub use why::Why;
