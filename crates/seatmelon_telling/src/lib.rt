//! An account in words, and as JSON.
#![tactic(auto)]

mod before_fault;
mod blocks;
mod causes;
mod code_lengths;
mod ending;
mod explained;
mod fault_words;
mod frames;
mod gap;
mod json;
mod json_explained;
mod json_middle;
mod json_notes;
mod json_packet;
mod json_params;
mod json_places;
mod json_refusal;
mod json_supposed;
mod layout;
mod messages;
mod middle;
mod notes;
mod packet_text;
mod page;
mod refusal;
mod rule;
mod supposed;
mod text;
mod words;

pub use json::write_json;
pub use text::write_text;
