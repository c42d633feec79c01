//! What a connection that a capture seems to hold is found to be, packet by packet, and the draft of its parameter file.
#![tactic(auto)]

mod channel;
mod connection;
mod draft;
mod kept_draft;
mod late_copies;
mod numbers;
mod party;
mod quiet;
mod quiet_draft;
mod quiet_reasons;

pub use channel::{ChannelCounts, Channels};
pub use connection::Connection;
pub use late_copies::{Arrival, LateCopies};
pub use numbers::{Gap, NumberCounts, Numbers, Sighting};
pub use party::{Ending, Party};
