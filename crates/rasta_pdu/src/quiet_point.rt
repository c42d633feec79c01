//! A recorded point of a connection at which both ends are up and owe each other nothing.
ghost use Rattle.std.specs.Prelude.{◌≡◌, ◌↔◌, ◌+◌, ◌≤◌, IsTrue};
ghost use Rattle.rasta_pdu.specs.Params.{IsQuiet, IsQuietEnd, most_clock, quiet_of};

use rasta_pcap::Side;

/// One end at a quiet point.
#[derive(Clone, Copy, Debug, PartialEq, Eq)]
pub struct QuietEnd {
    /// The sequence number of the end's next PDU.
    pub next_sn: u32,
    /// The end's clock at its last make, in milliseconds, up to 9,223,372,036,854,775,807.
    pub clock: u64,
    /// The clock at which the end gives up, if it has one; the same range.
    pub deadline: Option<u64>,
    /// The time stamp of the end's last PDU that the other end handed up, if there is one.
    pub handed_ts: Option<u32>,
}

/// Both ends at a quiet point.
#[derive(Clone, Copy, Debug, PartialEq, Eq)]
pub struct Quiet {
    pub client: QuietEnd,
    pub server: QuietEnd,
}

const MOST_CLOCK: u64 = 9_223_372_036_854_775_807;

// Whether the clock has not passed the deadline by more than the slack.
fn is_in_time(slack: u16, clock: u64, deadline: u64) -> bool
    requires { deadline ≤ most_clock }
    ensures { IsTrue result ↔ (clock ≤ deadline + slack) }
{
    clock <= deadline + u64::from(slack)
}

impl QuietEnd {
    fn is_valid(self, slack: u16) -> bool
        ensures { IsTrue result ↔ IsQuietEnd slack self }
    {
        self.clock <= MOST_CLOCK
            && match self.deadline {
                Some(deadline) => {
                    deadline <= MOST_CLOCK && is_in_time(slack, self.clock, deadline)
                }
                None => true,
            }
    }
}

impl Quiet {
    /// The end of this side.
    pub const fn of(self, side: Side) -> QuietEnd
        ensures { result ≡ quiet_of self side }
    {
        match side {
            Side::Client => self.client,
            Side::Server => self.server,
        }
    }

    /// Whether clocks and deadlines are in their ranges, and no clock has passed its deadline by more
    /// than the slack, which is in milliseconds.
    pub fn is_valid(self, slack: u16) -> bool
        ensures { IsTrue result ↔ IsQuiet slack self }
    {
        self.client.is_valid(slack) && self.server.is_valid(slack)
    }
}
