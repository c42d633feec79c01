//! Audits of many connections in words, and as JSON.
#![tactic(auto)]

mod counts;
mod json;
mod json_facts;
mod json_inputs;
mod text;

pub use counts::{Counts, is_cut, status_of};
pub use json::write_audit_json;
pub use json_inputs::Inputs;
pub use text::write_audit;
