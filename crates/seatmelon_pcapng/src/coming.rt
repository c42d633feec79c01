//! What comes next in a file, as far as the bytes tell that are there.
ghost use Rattle.seatmelon_pcapng.specs.Comings.{Tells};

use crate::block::{Turn, turn_of};
use crate::front::{FRONT, Front};
use crate::interface::Interface;
use crate::order::Order;
use crate::refusal::Reason;

/// What comes next in a file.
#[derive(Clone, Copy)]
pub enum Coming {
    /// A block that says this.
    Block(Front, Turn),

    /// A block that is refused.
    Refused(Reason),

    /// That is told by so many bytes.
    Wanted(usize),
}

impl Coming {
    /// What comes next where these bytes follow, behind a section header that tells this order and these interfaces of its
    /// section.
    #[inline(always)]
    pub fn of(known: Option<Order>, interfaces: &[Interface], bytes: &[u8]) -> Coming
        ensures { Tells known interfaces.now bytes.now result }
    {
        if bytes.len() < FRONT {
            return Coming::Wanted(FRONT);
        }
        let front = match Front::of(known, bytes) {
            Ok(front) => front,
            Err(reason) => return Coming::Refused(reason),
        };
        if bytes.len() < front.len {
            return Coming::Wanted(front.len);
        }
        match turn_of(interfaces, front, &bytes[..front.len]) {
            Ok(turn) => Coming::Block(front, turn),
            Err(reason) => Coming::Refused(reason),
        }
    }
}
