//! What crosses between two ends.

/// What two ends send, and what becomes of it on its way. A number of times of 0 is never.
#[derive(Clone, Copy)]
pub struct Traffic {
    /// Bytes of the safety code: 0, 8 or 16.
    pub code_length: u8,

    /// On how many channels each PDU crosses, up to four.
    pub channels: usize,

    /// Once in how many times an end sends data in place of a heartbeat.
    pub data: u32,

    /// The most messages of a data PDU, up to three.
    pub messages: u32,

    /// The fewest bytes of a message, and by how many more it has at most.
    pub least: u32,
    pub range: u32,

    /// Once in how many times data are lost and sent again, and how many PDUs at most.
    pub bursts: u32,
    pub units: u32,

    /// Once in how many times the copies of a PDU come late.
    pub late: u32,

    /// Once in how many times a frame of no connection comes.
    pub foreign: u32,
}

/// A day of one connection: heartbeats, and data now and then.
pub const DAY: Traffic = Traffic {
    code_length: 8,
    channels: 2,
    data: 3,
    messages: 1,
    least: 10,
    range: 50,
    bursts: 1000,
    units: 8,
    late: 200,
    foreign: 10,
};

/// Messages of some hundred bytes, several at once.
pub const LARGE: Traffic = Traffic {
    data: 2,
    messages: 3,
    least: 150,
    range: 250,
    ..DAY
};

/// Both ends lose a great deal in turn, and send it again in bursts, on four channels with late copies.
pub const BURSTS: Traffic = Traffic {
    code_length: 0,
    channels: 4,
    bursts: 20,
    units: 600,
    late: 10,
    ..DAY
};

/// One network alone: each PDU crosses once.
pub const SINGLE: Traffic = Traffic {
    code_length: 16,
    channels: 1,
    late: 0,
    foreign: 0,
    ..DAY
};

/// Longer safety codes, and data every other time.
pub const BUSY: Traffic = Traffic {
    code_length: 16,
    data: 2,
    foreign: 0,
    ..DAY
};
