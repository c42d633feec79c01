//! The files of an audit, as JSON.
ghost use Rattle.std.specs.Prelude.{◌≡◌, IfErr};
ghost use Rattle.rasta_pcap.specs.Fault.{write_failed};

use rasta_pcap::{Fault, Sink};
use seatmelon_text::json::write_string;
use seatmelon_text::{PROGRAM, Part, tell, write_words};

/// The files of an audit, and the SHA-256 of each.
#[derive(Clone, Copy)]
pub struct Inputs<'a> {
    /// The path of the capture.
    pub capture: &'a str,
    pub capture_sum: [u8; 32],

    /// The paths of the parameter files, in the order of the connections.
    pub names: &'a [String],

    /// One of each parameter file, in that order.
    pub sums: &'a [[u8; 32]],
}

// Writes path and SHA-256 of a file.
fn write_file<W: Sink>(
    writer: &mut W,
    before: &'static str,
    name: &str,
    sum: &[u8; 32],
) -> Result<(), Fault>
    ensures err { IfErr result (λ f. f ≡ write_failed) }
{
    tell!(writer, before, "{\"name\":")?;
    write_string(writer, name)?;
    tell!(writer, ",\"sha256\":\"", Part::Hex(sum), "\"}")
}

// Writes path and SHA-256 of each parameter file.
fn write_parameters<W: Sink>(writer: &mut W, inputs: &Inputs<'_>) -> Result<(), Fault>
    ensures err { IfErr result (λ f. f ≡ write_failed) }
{
    let mut before = "";
    for (name, sum) in inputs.names.iter().zip(inputs.sums.iter()) {
        write_file(writer, before, name.as_str(), sum)?;
        before = ",";
    }
    Ok(())
}

/// Writes the program that audits and the files of which it does, as the first members of an object.
pub fn write_inputs<W: Sink>(writer: &mut W, inputs: &Inputs<'_>) -> Result<(), Fault>
    ensures err { IfErr result (λ f. f ≡ write_failed) }
{
    tell!(writer, "{\"program\":\"", PROGRAM, "\",")?;
    write_file(writer, "\"capture\":", inputs.capture, &inputs.capture_sum)?;
    write_words(writer, ",\"parameters\":[")?;
    write_parameters(writer, inputs)?;
    write_words(writer, "]")
}
