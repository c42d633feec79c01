//! The link types of the first packets that aren't frames of Ethernet.
ghost use Rattle.std.specs.Prelude.{◌≡◌, Some};

/// The link types of the first packets that aren't frames of Ethernet, if there are any.
#[derive(Clone, Copy)]
pub struct LinkTypes {
    /// That of the first packet of which no bytes are told.
    pub other: Option<u16>,

    /// That of the first packet with a cooked header.
    pub cooked: Option<u16>,
}

/// Where no such packet is met.
pub const NO_LINK_TYPES: LinkTypes = LinkTypes {
    other: None,
    cooked: None,
};

impl LinkTypes {
    ghost use Rattle.seatmelon_pcapng.specs.LinkTypes.{first_of};

    /// Behind a packet of which no bytes are told.
    pub fn meet_other(&mut self, link_type: u16)
        ensures { self.new ≡ first_of self.old (record { other = Some link_type; cooked = None }) }
    {
        self.other = self.other.or(Some(link_type));
    }

    /// Behind a packet with a cooked header.
    pub fn meet_cooked(&mut self, link_type: u16)
        ensures { self.new ≡ first_of self.old (record { other = None; cooked = Some link_type }) }
    {
        self.cooked = self.cooked.or(Some(link_type));
    }
}
