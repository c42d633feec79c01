//! The command line of the program `seatmelon`: what its words ask for. It stands apart from the commands, which have
//! must-fail edits: it has none, and is proved once.
#![tactic(auto)]

mod audit;
mod command;
mod show;

pub use command::{Request, parse};
