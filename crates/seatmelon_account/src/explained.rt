//! What is told of an explained capture.
ghost use Rattle.std.specs.Prelude.{◌≡◌};
ghost use Rattle.seatmelon_account.specs.Starts.{start_in};

use crate::messages::Direction;
use rasta_pdu::{Params, Quiet};
use seatmelon_reading::Notes;

/// Where what is judged begins.
#[derive(Clone, Copy)]
pub enum Start {
    /// Before the opening.
    Opening,

    /// Before the opening, and earlier packets stand before the window.
    LaterOpening,

    /// At the quiet point before this record.
    Quiet(u32, Quiet),
}

/// What explains a capture.
#[derive(Drop)]
pub struct Explained<'a> {
    /// How many packets are explained.
    pub packets: u32,

    /// Whether packets have a safety code.
    pub has_code: bool,

    pub start: Start,

    /// The messages that the client sent, and those that the server sent.
    pub client: Direction<'a>,
    pub server: Direction<'a>,
}

/// Where what is judged begins.
pub fn start_of(params: &Params, notes: &Notes) -> Start
    ensures { result ≡ start_in params.now notes.now.before }
{
    match params.quiet() {
        Some(quiet) => Start::Quiet(params.first_record(), quiet),
        None if notes.before > 0 => Start::LaterOpening,
        None => Start::Opening,
    }
}
