//! The messages of a payload.
ghost use Rattle.std.specs.Prelude.{◌≡◌, ◌+◌, ◌≤◌, MatchOption, IsTrue, false, length};
ghost use Rattle.std.specs.Iterator.{YieldsFirstRef, item_count};
ghost use Rattle.rasta_pdu.specs.Pdu.{messages_left};
ghost use Rattle.rasta_pdu.specs.Messages.{are_messages, behind_messages, has_message, first_message, after_message, messages_of, payload_of_messages};

use crate::fields::u16_at;
use crate::layout::LENGTH_LEN;

/// The messages of a payload, in their order. Each is a slice of the datagram.
#[derive(Clone, Drop)]
pub struct Messages<'a> {
    pub(crate) rest: &'a [u8],
}

impl<'a> Iterator for Messages<'a> {
    type Item = &'a [u8];

    ghost next_gives = { YieldsFirstRef (λ s. messages_of s.rest.now) };

    ghost remaining = { item_count (λ s. messages_of s.rest.now) };

    fn next(&mut self) -> Option<&'a [u8]> {
        let (message, after) = split_message(self.rest)?;
        self.rest = after;
        Some(message)
    }
}

// The message that begins there, and the bytes after it; none where the bytes end too soon.
fn split_message<'a>(bytes: &'a [u8]) -> Option<(&'a [u8], &'a [u8])>
    ensures { MatchOption result (has_message bytes.now ≡ false)
        (λ parts. IsTrue (has_message bytes.now) × (parts.0.now ≡ first_message bytes.now) × (parts.1.now ≡ after_message bytes.now)) }
{
    if bytes.len() < LENGTH_LEN {
        return None;
    }
    let end = LENGTH_LEN + usize::from(u16_at(bytes, 0));
    if bytes.len() < end {
        return None;
    }
    Some((&bytes[LENGTH_LEN..end], &bytes[end..]))
}

impl<'a> Messages<'a> {
    /// The whole messages with which a payload begins.
    pub fn of(payload: &'a [u8]) -> Messages<'a>
        ensures { messages_left result ≡ messages_of payload.now }
    {
        Messages { rest: payload }
    }
}

/// What a payload has behind the whole messages with which it begins.
pub fn behind_messages(payload: &[u8]) -> &[u8]
    ensures rest { result.now ≡ behind_messages payload.now }
    ensures lengths { length (payload_of_messages (messages_of payload.now)) + length result.now ≡ length payload.now }
{
    let mut rest = payload;
    while let Some((_, after)) = split_message(rest) {
        rest = after;
    }
    rest
}

// Whether a payload is one or more messages, one after the other, and nothing else.
pub fn are_messages(payload: &[u8]) -> bool
    ensures { result ≡ are_messages payload.now }
{
    !payload.is_empty() && behind_messages(payload).is_empty()
}
