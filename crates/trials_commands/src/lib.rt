//! Tests of the program `seatmelon` and its commands: what the command line asks for, what is told of files that are
//! refused, and what comes of devices that fail.
#![tactic(auto)]

#[cfg(test)]
mod tests;
