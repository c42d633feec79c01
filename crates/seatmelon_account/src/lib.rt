//! What is told of a capture, as one value: what was read, and the verdict with all that is told of it. Texts and data
//! are walks over it. Nothing here is trusted: the checker judges.
#![tactic(auto)]

mod account;
mod crossed;
mod differences;
mod entries;
mod explained;
mod gap;
mod hypothesis;
mod layout;
mod lives;
mod messages;
mod middle;
mod offers;
mod outcome;
mod refusal;
mod rules;
mod selection;
mod trouble;

pub use account::{Account, File, Inputs, Names, Texts, Verdict, account_of};
pub use crossed::Crossed;
pub use differences::{Codes, Difference, Differences};
pub use entries::{NamedPacket, RefusedEntry};
pub use explained::{Explained, Start};
pub use gap::{Gap, LastBefore, Numbers};
pub use hypothesis::Hypothesis;
pub use layout::{CutMessage, Layout};
pub use lives::EndSilences;
pub use messages::{Direction, Message};
pub use middle::FromMiddle;
pub use offers::{Offer, Offers, Versions};
pub use outcome::{Outcome, missing_record, supposed};
pub use refusal::{Refusal, RefusedPacket, Subject};
pub use rules::{BrokenRule, Deadline};
pub use selection::{Extent, Selection};
pub use trouble::{FirstCopy, Trouble};
