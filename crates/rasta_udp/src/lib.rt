//! The datagram of a captured frame: Ethernet II, IPv4 and UDP.
#![tactic(auto)]

mod channel;
pub mod fields;
mod frame;
pub mod layout;
mod route;

pub use channel::{Channel, Datagram, Endpoint};
pub use frame::{datagram, datagram_in};
pub use rasta_pcap::{Fault, Record, Side, Sink, Source};
pub use route::route_in;
