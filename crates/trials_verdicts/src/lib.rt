//! Tests of `show`, `build`, `check` and `audit` over captures in memory, by rows of text, and over devices
//! that go wrong.
#![tactic(auto)]

#[cfg(test)]
mod audit_tests;
#[cfg(test)]
mod cases;
#[cfg(test)]
mod check_tests;
#[cfg(test)]
mod device_tests;
#[cfg(test)]
mod form_tests;
#[cfg(test)]
mod piece_tests;
#[cfg(test)]
mod show_tests;
#[cfg(test)]
mod verdict_rows;
