//! Tests of explanations, by rows of text, and over devices that go wrong.
#![tactic(auto)]

#[cfg(test)]
mod cases;
#[cfg(test)]
mod explain_tests;
#[cfg(test)]
mod json_tests;
#[cfg(test)]
mod message_tests;
