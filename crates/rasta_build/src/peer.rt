//! The peer's PDUs, by the positions of an end.
ghost use Rattle.std.specs.Prelude.{◌≡◌, ◌-◌, option_map};
ghost use Rattle.rasta_check.specs.Capture.Lists.{copy_of};
ghost use Rattle.rasta_build.specs.Choices;
ghost use Rattle.rasta_build.specs.Choices.{peer_quiet_sn, member_at, copy_at, is_before};
ghost use Rattle.rasta_build.specs.Explaining;

use rasta_check::{FirstCopy, SentList};
use rasta_pdu::{Kind, Params, Side};

/// Where the positions of a peer begin: after a quiet point its quiet PDU is position 0, and its sent list
/// begins at 1.
#[derive(Clone, Copy)]
pub(crate) struct Peer {
    quiet_sn: Option<u32>,
}

impl Peer {
    /// The peer of this side.
    pub(crate) fn of(params: &Params, side: Side) -> Peer
        ensures { result.quiet_sn ≡ peer_quiet_sn params.now.quiet side }
    {
        let quiet_sn = params
            .quiet()
            .map(|quiet| quiet.of(side.other()).next_sn.wrapping_sub(1));
        Peer { quiet_sn }
    }

    // The member of the peer's sent list that stands at a position.
    fn member(self, position: u64) -> Option<u64>
        ensures { result ≡ member_at self.quiet_sn position }
    {
        match self.quiet_sn {
            Some(_) => position.checked_sub(1),
            None => Some(position),
        }
    }

    /// The place and the PDU at a position, if it crossed.
    pub(crate) fn get<'a, S: SentList<'a>>(self, list: &S, position: u64) -> Option<FirstCopy<'a>>
        ensures { option_map copy_of result ≡ copy_at self.quiet_sn (S.content list.now) position }
    {
        let member = self.member(position)?;
        if member >= u64::from(list.len()) {
            return None;
        }
        list.get(member as u32)
    }

    /// The position that a CS names; none where nothing tells the peer's first SN.
    pub(crate) fn position_named<'a, S: SentList<'a>>(self, list: &S, cs: u32) -> Option<u32>
        ensures { result ≡ Choices.position_named self.quiet_sn (S.content list.now) cs }
    {
        let first = match self.quiet_sn {
            Some(sn) => sn,
            None => list.get(0)?.1.sn(),
        };
        Some(cs.wrapping_sub(first))
    }

    /// Whether the PDU at a position crossed before a place.
    pub(crate) fn has_crossed<'a, S: SentList<'a>>(
        self,
        list: &S,
        position: u64,
        place: u32,
    ) -> bool
        ensures { result ≡ is_before (copy_at self.quiet_sn (S.content list.now) position) place }
    {
        match self.get(list, position) {
            Some((crossed_at, _)) => crossed_at < place,
            None => false,
        }
    }

    // Whether the PDU at a position is a retransmission response.
    fn is_response<'a, S: SentList<'a>>(self, list: &S, position: u64) -> bool
        ensures { result ≡ Choices.is_response (copy_at self.quiet_sn (S.content list.now) position) }
    {
        match self.get(list, position) {
            Some((_, pdu)) => matches!(pdu.kind(), Kind::RetransmissionResponse),
            None => false,
        }
    }

    /// The last position from one on, before another, at which a retransmission response stands.
    pub(crate) fn last_response<'a, S: SentList<'a>>(
        self,
        list: &S,
        next: u64,
        bound: u64,
    ) -> Option<u64>
        ensures { result ≡ Explaining.last_response self.quiet_sn (S.content list.now) next (bound - next) }
    {
        let mut found = None;
        for position in next..bound {
            if self.is_response(list, position) {
                found = Some(position);
            }
        }
        found
    }
}
