//! When it is told what the packets of a connection show alone, how many messages that are, and how the connection goes
//! on and ends. No verdict of `rasta_audit` depends on it.
#![tactic(auto)]

mod counts;
mod course;
mod told;

pub use counts::{Share, ShownCounts, count_captured};
pub use course::{Course, Disconnection, disconnection_at};
pub use told::is_told;
