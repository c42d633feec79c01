//! A listing of the packets of a connection: a line for each, for people, and no verdict.
#![tactic(auto)]

mod cells;
mod choice;
mod counts;
mod decoding;
mod line;
mod listing;
mod payload;
mod sight;

pub use choice::{Choice, Types};
pub use counts::Counts;
pub use decoding::Decoding;
pub use listing::{Listing, list};
pub use sight::{Found, Sight};
