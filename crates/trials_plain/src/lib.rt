//! The definitions of the model as plain, slow programs, for examples and tests: what two sent lists
//! show, and a world of two ends that is moved step by step. The product stands on none of this.
#![tactic(auto)]

pub mod taken;
pub mod world;
