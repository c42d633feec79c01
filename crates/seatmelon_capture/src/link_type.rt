//! The names of link types.
ghost use Rattle.std.specs.Prelude.{◌≡◌, option_map};
ghost use Rattle.seatmelon_capture.specs.LinkTypes.{name_of};

/// What the frames of a link type are, in plain words, as the public registry has it; `None` for a type that is told by
/// its number alone.
#[tactic(auto, unfolding(crate::specs::LinkTypes::name_of))]
pub fn link_type_name(number: u16) -> Option<&'static str>
    ensures { option_map (λ text. text.now) result ≡ name_of number }
{
    Some(match number {
        0 => "BSD loopback",
        1 => "Ethernet",
        6 => "IEEE 802.5 token ring",
        9 => "PPP",
        10 => "FDDI",
        12 | 14 => "raw IP of some systems",
        101 => "raw IP",
        105 => "IEEE 802.11 wireless LAN",
        107 => "Frame Relay",
        108 => "OpenBSD loopback",
        113 => "Linux cooked capture",
        127 => "IEEE 802.11 wireless LAN with radiotap",
        147..=162 => "reserved for private use",
        228 => "raw IPv4",
        229 => "raw IPv6",
        276 => "Linux cooked capture v2",
        _ => return None,
    })
}
