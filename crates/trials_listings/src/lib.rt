//! Tests of listings of the packets of a connection.
#![tactic(auto)]

#[cfg(test)]
mod listing_tests;
