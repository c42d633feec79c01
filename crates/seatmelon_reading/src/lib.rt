//! What is told of a capture rests on this: one reading of it, and its window of records. Nothing here is trusted: the
//! checker judges.
#![tactic(auto)]

mod capture_refusal;
mod code_count;
mod frames;
mod notes;
mod pass;
mod passed_over;
mod reading;
mod sight;
mod silence;
mod summed;
mod tape;
mod times;
mod window;

pub use capture_refusal::{Beside, CaptureRefusal};
pub use code_count::CodeCount;
pub use notes::{ChannelCount, LastRecord, Notes, Sighting};
pub use passed_over::PassedOver;
pub use reading::{Reading, drain, read_capture};
pub use silence::{LastSilence, Silence, SilenceSearch, count_untimed};
pub use summed::Summed;
pub use tape::{Tape, Taped};
pub use times::{Noticed, TimeNotes};
pub use window::{Window, window_in};
