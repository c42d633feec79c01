//! The PDUs of the safety and retransmission layer and of the redundancy layer, and the recorded
//! parameters of a connection.
#![tactic(auto)]

mod body;
mod code;
mod decoder;
pub mod fields;
mod ids;
mod kind;
mod last_datagram;
pub mod laws;
pub mod layout;
mod messages;
mod params;
mod parts;
mod pdu;
mod quiet_point;
mod ranges;
mod read;
mod records;
mod route;
mod write;

pub use body::Body;
pub use decoder::Decoder;
pub use fields::Fields;
pub use ids::recorded_ids;
pub use kind::Kind;
pub use last_datagram::LastDatagram;
pub use messages::{Messages, behind_messages};
pub use params::Params;
pub use parts::PduParts;
pub use pdu::Pdu;
pub use quiet_point::{Quiet, QuietEnd};
pub use ranges::{Coded, coded_in, least_length, payload_in, safety_length};
pub use rasta_udp::{Channel, Datagram, Endpoint, Fault, Record, Side, Sink, Source};
pub use read::{decode, read_decoded};
pub use records::recorded_packet;
pub use route::are_distinct_routes;
pub use write::encode;
