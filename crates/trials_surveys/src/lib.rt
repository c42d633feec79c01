//! Tests of the survey of a capture and of drafts: by rows of text, and over devices that go wrong; of packets as they were
//! made, of more connections than are told apart, and of times.
#![tactic(auto)]

#[cfg(test)]
mod cases;
#[cfg(test)]
mod draft_tests;
#[cfg(test)]
mod drafts;
#[cfg(test)]
mod files;
#[cfg(test)]
mod findings_tests;
#[cfg(test)]
mod made;
#[cfg(test)]
mod packet_tests;
#[cfg(test)]
mod survey_tests;
#[cfg(test)]
mod time_tests;
