//! Packets that have the form of RaSTA, found without any recorded parameters: what each one holds, and which lengths
//! of the codes it fits.
#![tactic(auto)]

mod cut;
mod kinds;
mod lengths;
mod packet;
mod recognizer;

pub use cut::Cut;
pub use kinds::KindCounts;
pub use lengths::{Fit, FitCount, Fits, LengthFit, Lengths, Trials, likeliest};
pub use packet::{Offer, Packet, Sight, Way, packet_in, sight_in};
pub use recognizer::{Features, Recognizer, features_by};
