//! What the header of a capture file says: the type of its frames, and how many bytes of each were captured at most; and the
//! faults of a capture, in words and as JSON. Nothing here is trusted: the checker judges.
#![tactic(auto)]

mod fault_json;
mod fault_words;
mod header;
mod interface_type;
mod keeping;
mod link_type;

pub use fault_json::write_fault_json;
pub use fault_words::{FaultWords, FileRefusal, words_of_fault, write_fault};
pub use header::{FileHeader, header_in};
pub use interface_type::{AS_ETHERNET, write_link_types, write_link_types_json};
pub use keeping::Keeping;
pub use link_type::link_type_name;
