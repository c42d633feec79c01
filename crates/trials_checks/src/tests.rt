//! The tests, and the rows that several of them read.
mod checks;
mod limits;
mod model;
mod proposals;
mod runs;
mod sent_lists;
mod shown;
