//! The line of a packet.
ghost use Rattle.std.specs.Prelude.{◌≡◌, ◌+◌, ◌*◌, ◌≤◌, ◌++◌, [], ◌∷◌, length};
ghost use Rattle.rasta_pcap.specs.Devices.{Writes, AsWritten};
ghost use Rattle.rasta_pdu.specs.Pdu.{Bye, Empty, Opening, read_code, value_of};
ghost use Rattle.rasta_show.specs.Codes.{HasShortCodes};
ghost use Rattle.rasta_show.specs.Lines.{body_words, code_text, codes_line, front_words, packet_line};
ghost use Rattle.rasta_line.specs.Texts.{words_before};
ghost use Rattle.rasta_show.specs.Shown.{data_front, data_line, packet_of};

use crate::messages::write_messages;
use crate::shown_packet::ShownPacket;
use rasta_line::{Line, end_name};
use rasta_pcap::write_all;
use rasta_pdu::{Body, Fault, Pdu, Sink};

// Begins the line with this last code.
fn begin_with_code(line: &mut Line, code: &[u8])
    requires { length code.now ≤ 16 }
    ensures line { line.new ≡ code_text code.now ++ 10 ∷ [] }
    ensures short { length line.new ≤ 2 + 2 * length code.now }
{
    if code.is_empty() {
        line.begin_with_word(b"-");
    } else {
        line.begin_with_hex(code);
    }
}

// Prepends a code.
fn put_code(line: &mut Line, code: &[u8])
    requires short { length code.now ≤ 16 }
    requires fits { length line.old ≤ 160 }
    ensures line { line.new ≡ code_text code.now ++ 32 ∷ line.old }
    ensures short { length line.new ≤ length line.old + (2 + 2 * length code.now) }
{
    if code.is_empty() {
        line.word(b"-");
    } else {
        line.hex(code);
    }
}

// Begins the line with safety code and check code.
fn put_codes(line: &mut Line, pdu: &Pdu<'_>)
    requires { HasShortCodes pdu.now }
    ensures line { line.new ≡ codes_line (read_code pdu.now) (value_of pdu.now).check_bytes }
    ensures short { length line.new ≤ 44 }
{
    begin_with_code(line, pdu.check_bytes());
    put_code(line, pdu.code());
}

// Prepends the body of a connection request or response.
fn put_opening(line: &mut Line, version: [u8; 4], sendmax: u16, reserved: [u8; 8])
    requires { length line.old ≤ 44 }
    ensures line { line.new ≡ words_before (body_words (Opening version sendmax reserved)) line.old }
    ensures short { length line.new ≤ 82 }
{
    line.hex(&reserved);
    line.number(u32::from(sendmax));
    line.word(&version);
    line.word(b"open");
}

// The same of a disconnection request.
fn put_bye(line: &mut Line, detail: u16, reason: u16)
    requires { length line.old ≤ 44 }
    ensures line { line.new ≡ words_before (body_words (Bye detail reason)) line.old }
    ensures short { length line.new ≤ 82 }
{
    line.number(u32::from(reason));
    line.number(u32::from(detail));
    line.word(b"bye");
}

impl ShownPacket<'_> {
    // Prepends what comes before the body.
    fn put_front(&self, place: u32, line: &mut Line)
        requires { length line.old ≤ 82 }
        ensures { line.new ≡ words_before (front_words place (packet_of self.now)) line.old }
    {
        let pdu = self.pdu;
        line.number(pdu.cts());
        line.number(pdu.ts());
        line.number(pdu.cs());
        line.number(pdu.sn());
        line.number(u32::from(pdu.kind().number()));
        line.number(u32::from(pdu.reserve()));
        line.number(pdu.number());
        line.word(end_name(Some(self.side)).as_bytes());
        line.number(u32::from(self.channel));
        line.number(self.record);
        line.number(place);
    }

    // Writes the line of this end, which the body begins.
    fn write<W: Sink>(&self, place: u32, end: &mut Line, writer: &mut W) -> Result<(), Fault>
        requires { length end.old ≤ 82 }
        ensures out { Writes result (W.contents writer.old) (W.contents writer.new)
            (words_before (front_words place (packet_of self.now)) end.old) }
        ensures written { AsWritten W.failure_count result writer.old writer.new }
    {
        self.put_front(place, end);
        write_all(writer, end.as_bytes())
    }

    // Prepends what comes before messages.
    fn put_data_front(&self, place: u32, line: &mut Line)
        ensures { line.new ≡ data_front place (packet_of self.now) }
    {
        line.clear();
        line.word(b"data");
        self.put_front(place, line);
    }

    // Prepends what follows messages.
    fn put_data_end(&self, line: &mut Line)
        ensures { line.new ≡ 32 ∷ codes_line (packet_of self.now).code (packet_of self.now).pdu.check_bytes }
    {
        put_codes(line, &self.pdu);
        line.space();
    }

    // Writes the line of a packet with messages.
    fn write_data<W: Sink>(&self, place: u32, line: &mut Line, writer: &mut W) -> Result<(), Fault>
        ensures out { Writes result (W.contents writer.old) (W.contents writer.new) (data_line place (packet_of self.now)) }
        ensures written { AsWritten W.failure_count result writer.old writer.new }
    {
        self.put_data_front(place, line);
        write_all(writer, line.as_bytes())?;
        write_messages(self.pdu.messages(), writer)?;
        self.put_data_end(line);
        write_all(writer, line.as_bytes())
    }
}

/// Writes the line of a packet at its place. What the room held doesn't matter.
#[tactic(auto, unfolding(crate::specs::Lines::packet_line))]
pub fn write_packet<W: Sink>(
    packet: &ShownPacket<'_>,
    place: u32,
    room: &mut Line,
    writer: &mut W,
) -> Result<(), Fault>
    ensures out { Writes result (W.contents writer.old) (W.contents writer.new) (packet_line place (packet_of packet.now)) }
    ensures written { AsWritten W.failure_count result writer.old writer.new }
{
    match packet.pdu.body() {
        Body::Opening {
            version,
            sendmax,
            reserved,
        } => {
            put_codes(room, &packet.pdu);
            put_opening(room, version, sendmax, reserved);
            packet.write(place, room, writer)
        }
        Body::Bye { detail, reason } => {
            put_codes(room, &packet.pdu);
            put_bye(room, detail, reason);
            packet.write(place, room, writer)
        }
        Body::Empty => {
            put_codes(room, &packet.pdu);
            room.word(b"-");
            packet.write(place, room, writer)
        }
        Body::Messages(_) => packet.write_data(place, room, writer),
    }
}
