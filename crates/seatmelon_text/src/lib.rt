//! Lines of plain text: what they are made of, and how each part of them is spelled.
#![tactic(auto)]

pub mod json;
mod program;
mod room;
mod text;
mod time;

pub use program::PROGRAM;
pub use room::Room;
pub use text::{
    Part, numbered, put_parts, width, write_part, write_parts, write_parts_if, write_words,
};
pub use time::write_time;
