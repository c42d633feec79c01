//! The tests, and the small captures that several of them read.
mod answers;
mod captures;
mod conversions;
mod drafts;
mod made;
mod parameters;
mod requests;
