//! Late copies of a connection's opening, and of what came behind it.
ghost use Rattle.std.specs.Prelude.{◌≡◌};
ghost use Rattle.seatmelon_connections.specs.LateCopies.{is_late, late_copies_after};

/// How a packet comes to its connection.
#[derive(Clone, Copy)]
pub enum Arrival {
    /// In the connection's course.
    InCourse,

    /// As a late copy of its opening, or behind one.
    Late,

    /// So too, but another connection between its ends has begun since.
    LateBehindAnother,
}

impl Arrival {
    /// Whether it comes late.
    pub(crate) fn is_late(&self) -> bool
        ensures { result ≡ is_late self.now }
    {
        !matches!(self, Arrival::InCourse)
    }
}

/// How many late copies a connection took in, and in which records the first and the last one are.
#[derive(Clone, Copy)]
pub struct LateCopies {
    pub count: u64,
    pub first_record: u32,
    pub last_record: u32,
}

/// After one more late copy, in this record.
pub fn with_copy(copies: Option<LateCopies>, record: u32) -> LateCopies
    ensures { result ≡ late_copies_after copies «record» }
{
    match copies {
        None => LateCopies {
            count: 1,
            first_record: record,
            last_record: record,
        },
        Some(copies) => LateCopies {
            count: copies.count.saturating_add(1),
            first_record: copies.first_record,
            last_record: record,
        },
    }
}
