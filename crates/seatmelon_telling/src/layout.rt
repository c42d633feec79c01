//! The text on a payload that doesn't have the layout of its type.
ghost use Rattle.std.specs.Prelude.{◌≡◌, IfErr};
ghost use Rattle.rasta_pcap.specs.Fault.{write_failed};

use rasta_pcap::{Fault, Sink};
use rasta_pdu::Kind;
use seatmelon_account::{CutMessage, Layout};
use seatmelon_text::{Part, tell, write_words};

/// What a type has as its payload.
pub fn layout_of(kind: Option<Kind>) -> &'static str {
    match kind {
        Some(Kind::ConnectionRequest | Kind::ConnectionResponse) => {
            "14 bytes, which begin with a version of four digits"
        }
        Some(Kind::DisconnectionRequest) => "4 bytes",
        Some(Kind::Data | Kind::RetransmittedData) => {
            "one or more messages, each after its length in 2 bytes, and nothing else"
        }
        _ => "none",
    }
}

// Writes where the payload ends too soon for its next message.
fn write_cut_message<W: Sink>(writer: &mut W, cut: CutMessage) -> Result<(), Fault>
    ensures err { IfErr result (λ f. f ≡ write_failed) }
{
    tell!(
        writer,
        "  length of the message at byte ",
        cut.at as u64,
        " of the payload: "
    )?;
    let Some(len) = cut.len else {
        return write_words(writer, "cut after one byte\n");
    };
    tell!(
        writer,
        len,
        "\n  bytes of the payload after it: ",
        cut.left as u64,
        "\n"
    )
}

// Writes the version of an opening.
fn write_version<W: Sink>(writer: &mut W, version: &[u8]) -> Result<(), Fault>
    ensures err { IfErr result (λ f. f ≡ write_failed) }
{
    tell!(
        writer,
        "  version found: hex ",
        Part::Hex(version),
        ", text ",
        Part::Text(version),
        "\n"
    )
}

/// Writes which payload is due for the type of a datagram, and what was found.
pub fn write_payload_due<W: Sink>(writer: &mut W, layout: &Layout<'_>) -> Result<(), Fault>
    ensures err { IfErr result (λ f. f ≡ write_failed) }
{
    tell!(
        writer,
        "  payload due: ",
        layout_of(layout.kind),
        "\n  bytes of the payload: ",
        layout.len as u64,
        "\n"
    )?;
    match (layout.version, layout.cut) {
        (Some(version), _) => write_version(writer, version),
        (None, Some(cut)) => write_cut_message(writer, cut),
        (None, None) => Ok(()),
    }
}
