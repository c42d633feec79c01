//! Faults and their names.
ghost use Rattle.std.specs.Prelude.{◌≡◌, ◌⊎◌, ◌↔◌, ◌≤◌, ◌<◌, IsTrue, length, nat_le, Option, None};
ghost use Rattle.rasta_pcap.specs.Fault.{fault_at, fault_of_end, name_of, no_memory, not_pcap, other_side};

use std::alloc::AllocError;

/// One of the two ends of the connection.
#[derive(Clone, Copy, Debug, PartialEq, Eq)]
pub enum Side {
    Client,
    Server,
}

impl Side {
    /// The peer's side.
    pub const fn other(self) -> Side
        ensures { result ≡ other_side self }
    {
        match self {
            Side::Client => Side::Server,
            Side::Server => Side::Client,
        }
    }
}

/// Why something was refused: the fault's number, the place it names (0 where it names none), and
/// the end that it speaks of.
#[derive(Clone, Copy, Debug, PartialEq, Eq)]
pub struct Fault {
    pub number: u8,
    pub place: u32,
    pub end: Option<Side>,
}

impl From<AllocError> for Fault {
    ghost from_gives = { λ _ fault. fault ≡ no_memory };

    fn from(_error: AllocError) -> Fault {
        Fault::no_memory()
    }
}

impl Fault {
    pub const NO_MEMORY: u8 = 1;

    pub const READ_FAILED: u8 = 2;

    pub const WRITE_FAILED: u8 = 3;

    pub const NOT_PCAP: u8 = 10;

    pub const VERSION: u8 = 11;

    pub const LINK_TYPE: u8 = 12;

    pub const CUT_HEADER: u8 = 13;

    pub const CUT_RECORD: u8 = 14;

    pub const CUT_PACKET: u8 = 15;

    pub const FRAGMENT: u8 = 16;

    pub const TOO_MANY: u8 = 17;

    pub const RECORD_TOO_LONG: u8 = 18;

    pub const BAD_UDP: u8 = 19;

    pub const REDUNDANCY_LENGTH: u8 = 20;

    pub const TOO_SHORT: u8 = 21;

    pub const SAFETY_LENGTH: u8 = 22;

    pub const TYPE: u8 = 23;

    pub const PAYLOAD: u8 = 24;

    pub const CODE: u8 = 25;

    pub const IDS: u8 = 26;

    pub const COPY_DIFFERS: u8 = 27;

    pub const NUMBER_GAP: u8 = 28;

    pub const TOO_LONG: u8 = 29;

    pub const SYNTAX: u8 = 30;

    pub const SLOT_ORDER: u8 = 31;

    pub const NOT_FIRST_COPY: u8 = 32;

    pub const MAKE_MISSING: u8 = 33;

    pub const NOT_YET_CROSSED: u8 = 34;

    pub const NOT_RISING: u8 = 35;

    pub const CLOCK_DIFFERS: u8 = 36;

    pub const CLOCK_FALLS: u8 = 37;

    pub const PAST_DEADLINE: u8 = 38;

    pub const CONFIRMED_NUMBER: u8 = 39;

    pub const CONFIRMED_TIME: u8 = 40;

    pub const NOT_ALLOWED: u8 = 41;

    pub const REPLY_OWED: u8 = 42;

    pub const RESEND_DIFFERS: u8 = 43;

    pub const CLOSED: u8 = 44;

    pub const TOO_MANY_ENTRIES: u8 = 45;

    pub const TOO_EARLY_TIMEOUT: u8 = 46;

    pub const SEQUENCE_NUMBER: u8 = 47;

    pub const TOML: u8 = 50;

    pub const MISSING_KEY: u8 = 51;

    pub const BAD_VALUE: u8 = 52;
    /// The builder found no scripts.
    pub const NOT_FOUND: u8 = 60;

    /// A fault that speaks of no end.
    pub const fn at(number: u8, place: u32) -> Fault
        ensures { result ≡ fault_at number place }
    {
        Fault {
            number,
            place,
            end: None,
        }
    }

    /// A fault that speaks of one end.
    pub const fn of_end(number: u8, place: u32, end: Side) -> Fault
        ensures { result ≡ fault_of_end number place end }
    {
        Fault {
            end: Some(end),
            ..Fault::at(number, place)
        }
    }

    /// Want of memory, which names no place and no end.
    pub const fn no_memory() -> Fault
        ensures { result ≡ no_memory }
    {
        Fault::at(Fault::NO_MEMORY, 0)
    }

    /// Whether it is told as the refusal of a capture; want of memory, and a device that failed, are errors of the run.
    pub fn is_refusal(self) -> bool
        ensures { result ≡ nat_le not_pcap self.number }
    {
        self.number >= Fault::NOT_PCAP
    }

    /// Whether it is want of memory or a failed read.
    pub fn is_failure(self) -> bool
        ensures { IsTrue result ↔ (self.number ≡ 1) ⊎ (self.number ≡ 2) }
    {
        matches!(self.number, Fault::NO_MEMORY | Fault::READ_FAILED)
    }

    /// The name that is printed, empty for a number that no fault has.
    pub fn name(&self) -> &'static str
        ensures text { result.now ≡ name_of self.now.number }
        ensures short { length result.now ≤ 16 }
    {
        if self.number < 30 {
            reading_name(self.number)
        } else {
            judging_name(self.number)
        }
    }
}

// The names of faults of devices, captures, datagrams and writing.
#[tactic(auto, unfolding(crate::specs::Fault::name_of))]
fn reading_name(number: u8) -> &'static str
    requires { number < 30 }
    ensures text { result.now ≡ name_of number }
    ensures short { length result.now ≤ 16 }
{
    match number {
        1 => "NoMemory",
        2 => "ReadFailed",
        3 => "WriteFailed",
        10 => "NotPcap",
        11 => "Version",
        12 => "LinkType",
        13 => "CutHeader",
        14 => "CutRecord",
        15 => "CutPacket",
        16 => "Fragment",
        17 => "TooMany",
        18 => "RecordTooLong",
        19 => "BadUdp",
        20 => "RedundancyLength",
        21 => "TooShort",
        22 => "SafetyLength",
        23 => "Type",
        24 => "Payload",
        25 => "Code",
        26 => "Ids",
        27 => "CopyDiffers",
        28 => "NumberGap",
        29 => "TooLong",
        _ => "",
    }
}

// The names of faults of certificates, ends, parameters and the builder.
#[tactic(auto, unfolding(crate::specs::Fault::name_of))]
fn judging_name(number: u8) -> &'static str
    requires { 30 ≤ number }
    ensures text { result.now ≡ name_of number }
    ensures short { length result.now ≤ 16 }
{
    match number {
        30 => "Syntax",
        31 => "SlotOrder",
        32 => "NotFirstCopy",
        33 => "MakeMissing",
        34 => "NotYetCrossed",
        35 => "NotRising",
        36 => "ClockDiffers",
        37 => "ClockFalls",
        38 => "PastDeadline",
        39 => "ConfirmedNumber",
        40 => "ConfirmedTime",
        41 => "NotAllowed",
        42 => "ReplyOwed",
        43 => "ResendDiffers",
        44 => "Closed",
        45 => "TooMany",
        46 => "TooEarlyTimeout",
        47 => "SequenceNumber",
        50 => "Toml",
        51 => "MissingKey",
        52 => "BadValue",
        60 => "NotFound",
        _ => "",
    }
}
