//! Verdicts on a capture: what `build`, `check` and `audit` write.
#![tactic(auto)]

mod audit;
mod check;
mod given;
mod proposed;
mod run_lines;
mod run_text;
mod script_front;
mod taken_text;
mod verdict;

pub use audit::{run_audit, run_build};
pub use check::{run_check, run_check_by_value};
pub use given::judge_by;
pub use rasta_pdu::{Fault, Side, Sink, Source};
pub use verdict::{Explanation, Verdict};
