//! Tests of pcapng files that are read as classic captures, by rows of text.
#![tactic(auto)]

#[cfg(test)]
mod conversion_tests;
#[cfg(test)]
mod peeked_tests;
