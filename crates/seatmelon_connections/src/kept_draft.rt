//! The draft of a parameter file with recorded parameters.
ghost use Rattle.rasta_pcap.specs.Devices.{AsWritten};

use crate::connection::Connection;
use crate::draft::{write_number, write_window};
use crate::quiet::QuietPoints;
use crate::quiet_draft::write_quiet_points;
use crate::quiet_reasons::write_no_point;
use rasta_pcap::{Fault, Sink, write_all};
use rasta_pdu::{Channel, Params};
use seatmelon_text::{tell, write_words};

// Where a value is from.
const FROM_PARAMS: &str = "from PARAMS\n";

fn write_heading<W: Sink>(writer: &mut W, connection: &Connection) -> Result<(), Fault>
    ensures written { AsWritten W.failure_count result writer.old writer.new }
{
    tell!(
        writer,
        "# The parameters of the file PARAMS, from a quiet point of the connection in the records ",
        connection.first_record(),
        " to ",
        connection.last_record(),
        " of a capture on.\n",
        "# Each line tells where its value is from. The quiet point is a guess from the form of packets.\n\n"
    )
}

// Writes a key with a number of the recorded parameters.
fn write_kept<W: Sink>(writer: &mut W, key: &'static str, value: u64) -> Result<(), Fault>
    ensures written { AsWritten W.failure_count result writer.old writer.new }
{
    write_number(writer, key, value)?;
    write_words(writer, FROM_PARAMS)
}

// A digit in hexadecimal.
fn hex_digit(value: u32) -> u8 {
    match (value % 16) as u8 {
        digit @ 0..=9 => b'0' + digit,
        digit => b'a' + (digit - 10),
    }
}

// The eight hexadecimal digits of a word, highest first.
fn hex_digits(word: u32) -> [u8; 8] {
    let mut digits = [0; 8];
    let mut rest = word;
    for digit in digits.iter_mut().rev() {
        *digit = hex_digit(rest);
        rest /= 16;
    }
    digits
}

fn write_start_words<W: Sink>(writer: &mut W, words: [u32; 4]) -> Result<(), Fault>
    ensures written { AsWritten W.failure_count result writer.old writer.new }
{
    let [first, second, third, fourth] = words;
    write_words(writer, "md4_start = \"")?;
    write_all(writer, &hex_digits(first))?;
    write_all(writer, &hex_digits(second))?;
    write_all(writer, &hex_digits(third))?;
    write_all(writer, &hex_digits(fourth))?;
    write_words(writer, "\" # ")?;
    write_words(writer, FROM_PARAMS)
}

fn write_channels<W: Sink>(writer: &mut W, channels: &[Channel]) -> Result<(), Fault>
    ensures written { AsWritten W.failure_count result writer.old writer.new }
{
    for channel in channels {
        tell!(
            writer,
            "\n[[channel]]\nclient = \"",
            channel.client,
            "\" # ",
            FROM_PARAMS,
            "server = \"",
            channel.server,
            "\" # ",
            FROM_PARAMS
        )?;
    }
    Ok(())
}

// Writes all keys that stand before the window.
fn write_values<W: Sink>(writer: &mut W, params: &Params) -> Result<(), Fault>
    ensures written { AsWritten W.failure_count result writer.old writer.new }
{
    write_kept(writer, "client_id", u64::from(params.client_id()))?;
    write_kept(writer, "server_id", u64::from(params.server_id()))?;
    write_kept(writer, "code_length", u64::from(params.code_length()))?;
    write_start_words(writer, params.md4_start())?;
    write_kept(writer, "check_length", u64::from(params.check_length()))?;
    write_kept(writer, "n_sendmax", u64::from(params.n_sendmax()))?;
    write_kept(writer, "t_max", u64::from(params.t_max()))?;
    write_kept(writer, "slack", u64::from(params.slack()))
}

/// Writes a parameter file with recorded parameters of a connection, but for the window and the quiet point; or that the
/// record behind which one is wanted has none.
pub fn write_kept_draft<W: Sink>(
    writer: &mut W,
    connection: &Connection,
    quiet: &QuietPoints,
    params: &Params,
) -> Result<(), Fault>
    ensures written { AsWritten W.failure_count result writer.old writer.new }
{
    let is_first_client = params.client_id() == connection.first.id;
    if quiet.lacks_point() {
        return write_no_point(writer, connection, quiet, is_first_client);
    }
    write_heading(writer, connection)?;
    write_values(writer, params)?;
    write_window(writer, connection)?;
    write_quiet_points(writer, quiet, is_first_client)?;
    write_channels(writer, params.channel())
}
