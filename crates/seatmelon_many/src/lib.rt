//! The commands of the program `seatmelon` over many connections at once: the audit of all, and the drafts of all.
#![tactic(auto)]

mod auditing;
mod drafting;
mod files;
mod judging;

pub use auditing::{Audited, Auditing, Form, Named, audit_files, audit_of};
pub use drafting::{DraftingAll, draft_all};
