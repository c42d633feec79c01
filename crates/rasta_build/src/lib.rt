//! Finding scripts that explain what crossed, without a search. Nothing here is trusted: the checker judges
//! what is proposed.
#![tactic(auto)]

mod clock;
mod halt;
pub mod laws;
mod obstacles;
mod peer;
mod proposal;
mod rules;
mod script_builder;
mod stuck;

pub use obstacles::Obstacle;
pub use proposal::{find_obstacle, propose, propose_lists};
pub use rasta_pdu::{Fault, Side, Sink, Source};
pub use rules::{Confirmation, Rule};
