//! What a capture seems to hold: the RaSTA connections in it, found without any recorded parameters.
#![tactic(auto)]

mod cut_report;
mod cuts;
mod findings;
mod json_report;
mod places;
mod reading;
mod report;

pub use cuts::{CutCount, Cuts, Direction, MOST_DIRECTIONS};
pub use findings::{Behind, MOST_CONNECTIONS, Survey};
pub use reading::survey;
pub use report::write_connection;
pub use seatmelon_connections::Connection;
pub use seatmelon_text::write_time;
