//! The audits of many connections in one reading of a capture. Nothing here is trusted: the checker judges.
#![tactic(auto)]

mod answer;
mod audits;
mod facts;
mod hosts;
pub mod laws;
mod line;
mod lines;
mod reading;
mod ways;

pub use answer::{Answer, Audit, Before, Connection, Conveyed, Explained, ShownOf};
pub use audits::audit;
pub use facts::Facts;
pub use line::{Refusal, Span, Stamp, Subject};
pub use seatmelon_middle::{Course, Disconnection, Share, ShownCounts};
