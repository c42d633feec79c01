//! What explains a capture if the tap missed some PDUs, as a hypothesis. Nothing here is trusted: the checker judges.
#![tactic(auto)]

mod candidates;
mod common;
mod filling;
mod gap;
mod mending;
mod scene;
mod search;
mod sent;
mod supposed;
mod supposition;

pub use filling::{Filling, Listed};
pub use gap::Gap;
pub use search::{Filled, Tried};
pub use sent::SentMessage;
pub use supposed::{Fields, Supposed};
pub use supposition::{Messages, Supposition, suppose};
