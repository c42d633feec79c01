//! Tests of audits of many connections and of their texts, by rows of text, and over devices that go wrong.
#![tactic(auto)]

#[cfg(test)]
mod audit_tests;
#[cfg(test)]
mod cases;
#[cfg(test)]
mod made;
