//! What the frames of a capture are, where they can't be judged.
ghost use Rattle.std.specs.Prelude.{◌≡◌, IfErr};
ghost use Rattle.rasta_pcap.specs.Fault.{write_failed};

use crate::json_places::write_number_if;
use crate::words::Hint;
use rasta_pcap::{Fault, Sink};
use seatmelon_capture::{FileHeader, link_type_name};
use seatmelon_text::json::write_string;
use seatmelon_text::{Part, tell, write_words};

// Link types: Ethernet, and what Linux captures on the interface 'any', in two versions.
const ETHERNET: u16 = 1;

const COOKED: u16 = 113;

const COOKED_2: u16 = 276;

// The hint on frames of Linux's interface 'any'.
const ON_ANY: Hint = Hint {
    cause: "the capture was made on the interface 'any'",
    next_step: "the capture of Ethernet frames that this command makes of it: seatmelon convert CAPTURE > OUT",
};

// The hint on frames of another link type.
const ON_ANOTHER: Hint = Hint {
    cause: "the capture was made on another kind of interface",
    next_step: "an Ethernet interface, on which to capture again",
};

// The hint on Ethernet frames of which more is said.
const WITH_MORE: Hint = Hint {
    cause: "each frame ends with its check sequence, as the field of the link type can say",
    next_step: "the settings of the capture, which has to be made again without the check sequences",
};

/// The hint on a capture that is refused for its link type.
pub fn hint_on_frames(header: Option<FileHeader>) -> Hint {
    match header.map(|header| header.link_type) {
        Some(ETHERNET) => WITH_MORE,
        Some(COOKED | COOKED_2) => ON_ANY,
        _ => ON_ANOTHER,
    }
}

/// What a refusal for the link type means.
pub fn meaning_of_frames(header: Option<FileHeader>) -> &'static str {
    match header.map(|header| header.link_type) {
        Some(ETHERNET) =>
            "the field of the link type says more of the frames than that they are Ethernet",
        _ => "the frames are not Ethernet frames",
    }
}

/// The link type that a fault speaks of.
pub fn refused_link_type(fault: Fault, header: Option<FileHeader>) -> Option<u16> {
    match fault.number {
        Fault::LINK_TYPE => Some(header?.link_type),
        _ => None,
    }
}

/// Writes number and name of a link type, if it has a name.
pub fn write_named<W: Sink>(writer: &mut W, link_type: u16) -> Result<(), Fault>
    ensures err { IfErr result (λ f. f ≡ write_failed) }
{
    tell!(writer, "link type ", link_type)?;
    match link_type_name(link_type) {
        Some(name) => tell!(writer, " (", name, ")"),
        None => Ok(()),
    }
}

/// Writes of which link type the frames are, behind what the fault means, if it is refused.
pub fn write_link_type<W: Sink>(
    writer: &mut W,
    fault: Fault,
    header: Option<FileHeader>,
) -> Result<(), Fault>
    ensures err { IfErr result (λ f. f ≡ write_failed) }
{
    match refused_link_type(fault, header) {
        None | Some(ETHERNET) => Ok(()),
        Some(link_type) => {
            write_words(writer, " but of ")?;
            write_named(writer, link_type)
        }
    }
}

// How many bytes of each frame were captured at most, where a fault says that a packet wasn't captured whole.
fn told_snapshot(fault: Fault, header: Option<FileHeader>) -> Option<u32> {
    match fault.number {
        Fault::CUT_PACKET => Some(header?.snapshot_length),
        _ => None,
    }
}

/// Writes how many bytes of each frame were captured at most, as a line, where a packet wasn't captured whole.
pub fn write_snapshot<W: Sink>(
    writer: &mut W,
    fault: Fault,
    header: Option<FileHeader>,
) -> Result<(), Fault>
    ensures err { IfErr result (λ f. f ≡ write_failed) }
{
    match told_snapshot(fault, header) {
        Some(length) => tell!(
            writer,
            "  snapshot length in the file's header: ",
            length,
            " bytes\n"
        ),
        None => Ok(()),
    }
}

/// Writes how many bytes of each frame were captured at most, as JSON, where a packet wasn't captured whole, or null.
pub fn write_snapshot_json<W: Sink>(
    writer: &mut W,
    fault: Fault,
    header: Option<FileHeader>,
) -> Result<(), Fault>
    ensures err { IfErr result (λ f. f ≡ write_failed) }
{
    write_words(writer, ",\"snapshot_length\":")?;
    write_number_if(writer, told_snapshot(fault, header))
}

/// Writes number and name of the link type that is refused, as JSON, or null.
pub fn write_link_type_json<W: Sink>(
    writer: &mut W,
    fault: Fault,
    header: Option<FileHeader>,
) -> Result<(), Fault>
    ensures err { IfErr result (λ f. f ≡ write_failed) }
{
    let Some(link_type) = refused_link_type(fault, header) else {
        return write_words(writer, ",\"link_type\":null,\"link_type_name\":null");
    };
    tell!(writer, ",\"link_type\":", link_type, ",\"link_type_name\":")?;
    match link_type_name(link_type) {
        Some(name) => write_string(writer, name),
        None => write_words(writer, "null"),
    }
}
