//! How many records hold no packet of the recorded channels, by why.
ghost use Rattle.std.specs.Prelude.{◌≡◌, ◌<◌, ◌^◌};
ghost use Rattle.seatmelon_reading.specs.PassedOver.{AreFew, passed_with, total_of};

/// Why a record holds no packet of the recorded channels.
#[derive(Clone, Copy)]
pub enum WhyPassed {
    LeftOut,
    NotUdp,
    Tagged,
    Elsewhere,
    Unreadable,
}

/// How many records hold no packet of the recorded channels, by why.
#[derive(Clone, Copy)]
pub struct PassedOver {
    /// Left out on request.
    pub left_out: u64,

    /// Of the others: frames that hold no UDP over IPv4, behind at most one tag of IEEE 802.1Q.
    pub not_udp: u64,

    /// Frames behind two tags, or behind one of IEEE 802.1ad, that hold a packet of the recorded channels, or a faulty
    /// one of the recorded hosts, without their outer tag or tags.
    pub tagged: u64,

    /// UDP over IPv4 between other addresses or ports.
    pub elsewhere: u64,

    /// Between recorded hosts, but not readable: fragments, cut datagrams, lengths that contradict each other.
    pub unreadable: u64,
}

impl PassedOver {
    pub(crate) const NONE: PassedOver = PassedOver {
        left_out: 0,
        not_udp: 0,
        tagged: 0,
        elsewhere: 0,
        unreadable: 0,
    };

    // With one record more of this sort.
    pub(crate) fn with(self, why: WhyPassed) -> PassedOver
        ensures { AreFew self → result ≡ passed_with self why }
    {
        match why {
            WhyPassed::LeftOut => PassedOver {
                left_out: self.left_out.saturating_add(1),
                ..self
            },
            WhyPassed::NotUdp => PassedOver {
                not_udp: self.not_udp.saturating_add(1),
                ..self
            },
            WhyPassed::Tagged => PassedOver {
                tagged: self.tagged.saturating_add(1),
                ..self
            },
            WhyPassed::Elsewhere => PassedOver {
                elsewhere: self.elsewhere.saturating_add(1),
                ..self
            },
            WhyPassed::Unreadable => PassedOver {
                unreadable: self.unreadable.saturating_add(1),
                ..self
            },
        }
    }

    /// How many records these are in all.
    pub fn total(&self) -> u64
        ensures { total_of self.now < 2 ^ 64 → result ≡ total_of self.now }
    {
        self.left_out
            .saturating_add(self.not_udp)
            .saturating_add(self.tagged)
            .saturating_add(self.elsewhere)
            .saturating_add(self.unreadable)
    }
}
