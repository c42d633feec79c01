//! The window of records that is judged.
ghost use Rattle.std.specs.Prelude.{◌↔◌, IsTrue, IsSome, IfSome};
ghost use Rattle.seatmelon_reading.specs.Window.{IsBounded, IsLastRead, IsToldOf, StandsSo};

use rasta_pcap::MAX_RECORDS;
use rasta_pdu::Params;

/// The recorded window, as it is told of a capture.
#[derive(Clone, Copy)]
pub struct Window {
    /// The recorded first record, from 1.
    pub first_record: u32,

    /// The last record of it that was read; none where the capture ends before its first one.
    pub last_record: Option<u32>,
}

/// Where a record stands.
#[derive(Clone, Copy, PartialEq, Eq)]
pub enum WindowPlace {
    Before,
    Inside,
    Behind,
}

/// Where a record stands to the window.
pub fn window_place(params: &Params, number: u32) -> WindowPlace
    ensures { StandsSo params.now number result }
{
    if number < params.first_record() {
        WindowPlace::Before
    } else if number <= params.last_record() {
        WindowPlace::Inside
    } else {
        WindowPlace::Behind
    }
}

// The last record of the window in a capture of so many records.
fn last_read(params: &Params, records: u32) -> Option<u32>
    ensures { IsLastRead params.now records result }
{
    if records < params.first_record() {
        None
    } else {
        Some(records.min(params.last_record()))
    }
}

// Whether a window is recorded.
fn is_bounded(params: &Params) -> bool
    ensures { IsTrue result ↔ IsBounded params.now }
{
    params.first_record() > 1 || params.last_record() < MAX_RECORDS
}

/// The window, in a capture of so many records; none where no window is recorded.
pub fn window_in(params: &Params, records: u32) -> Option<Window>
    ensures bounded { IsSome result ↔ IsBounded params.now }
    ensures told { IfSome result (IsToldOf params.now records) }
{
    if !is_bounded(params) {
        return None;
    }
    Some(Window {
        first_record: params.first_record(),
        last_record: last_read(params, records),
    })
}
