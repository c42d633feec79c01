//! Captures of packets with Linux cooked headers, as those of the device `any`, written as captures of Ethernet frames.
#![tactic(auto)]

mod ethernet;
mod filling;
mod form;
mod frame;
mod order;
mod record;

pub use ethernet::{Frames, write_ethernet};
pub use form::Kind;
