//! The commands of the program `rasta_audit`: what its words ask for, the files of a form, and carrying it out.
#![tactic(auto)]

mod command;
mod failure;
mod files;
mod forms;
mod running;

pub use command::{form, words};
pub use failure::{Failure, status};
pub use files::{capture_at, file_at, finish, output};
pub use forms::Form;
pub use rasta_pdu::{Fault, Side, Sink, Source};
pub use running::run_form;
