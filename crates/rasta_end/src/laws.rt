//! Laws on the definitions of one end: public functions without a body, whose contracts are the laws.
ghost use Rattle.rasta_end.specs.Meanings.{UnitsByPosition, DeadlineFollowsTheConfirmedTime};

/// The units conveyed through a position follow from its type, the asks and the positions before it.
pub fn units_by_position()
    ensures { UnitsByPosition }
{}

/// A deadline lies T_max after the time that a PDU confirms: the greatest that is not above the clock
/// of the end's last make and has the bits of the confirmed time stamp.
pub fn deadline_follows_the_confirmed_time()
    ensures { DeadlineFollowsTheConfirmedTime }
{}
