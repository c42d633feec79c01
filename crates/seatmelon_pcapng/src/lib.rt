//! Captures in the pcapng format (draft-ietf-opsawg-pcapng), read as classic ones.
#![tactic(auto)]

mod block;
mod capture;
mod classic;
mod coming;
mod enhanced;
mod format;
mod front;
mod interface;
pub mod laws;
mod link_types;
mod memory;
mod order;
mod peeked;
mod refusal;
mod remarks;
mod section;
mod time;

pub use capture::Capture;
pub use classic::Classic;
pub use format::Format;
pub use front::is_pcapng;
pub use peeked::Peeked;
pub use refusal::{Reason, Refusal};
pub use remarks::Remarks;
