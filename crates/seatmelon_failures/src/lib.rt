//! Why the program `seatmelon` gives up: failures as types, by what failed, with their exit status and in words; and the
//! judgement of parameters and certificates, of whose words they have most.
#![tactic(auto)]

mod certificate;
mod device;
mod failure;
mod file_kind;
mod key_lines;
mod parameters;
mod refusal;
mod unknown_key;
mod words;

pub use certificate::{Mistaken, judge_certificate};
pub use device::{DeviceFailure, STANDARD_OUTPUT, unread, unwritten, unwritten_at};
pub use failure::{CaptureFailure, Failure, InputFailure};
pub use file_kind::{FileKind, kind_of_start};
pub use parameters::{ParameterRefusal, params_in};
pub use refusal::{Refusal, RefusedCapture};
pub use words::{WordsFailure, WordsOrMemory};
