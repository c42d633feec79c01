//! The text of `show`.
ghost use Rattle.std.specs.Prelude.{◌≡◌, IfOk, IfErr, OnErr};
ghost use Rattle.rasta_pcap.specs.Extent.{ReadsUpToRecord};
ghost use Rattle.rasta_pcap.specs.Stream.{order_in, progress_of};
ghost use Rattle.rasta_pcap.specs.declared.stream.Progress.TheVariants.{Reading};
ghost use Rattle.rasta_pdu.specs.Params.{AreParameters};
ghost use Rattle.rasta_pdu.specs.Pdu.{decode_of};
ghost use Rattle.rasta_show.specs.Show.{show_status, show_text, sight_of, sight_of_pdu};
ghost use Rattle.rasta_show.specs.Shown.{sight_in, status_left, text_left};
ghost use Rattle.rasta_udp.specs.Frame.{packet_of};
ghost use Rattle.rasta_line.specs.Runs.{GoesUpToRecord, IsRunFault, WritesBeginning, WritesText};

use crate::packet::write_packet;
use crate::shown_packet::ShownPacket;
use crate::texts::count_line;
use rasta_line::{Line, write_refusal};
use rasta_pcap::stream::RecordReader;
use rasta_pcap::{Record, write_all};
use rasta_pdu::{Datagram, Decoder, Fault, Params, Sink, Source, recorded_packet};
use std::alloc::Global;

/// What a record is: of no interest, a packet of the connection, or refused.
#[derive(Clone, Copy)]
pub enum Seen<'a> {
    PassedOver,
    Packet(ShownPacket<'a>),
    Refused(Fault),
}

// What a datagram of the connection shows. A PDU's fault speaks of its sender.
fn sight_of_datagram<'a>(decoder: &mut Decoder<'_>, number: u32, found: Datagram<'a>) -> Seen<'a>
    requires { AreParameters decoder.old }
    ensures sight { sight_in result ≡ (sight_of_pdu decoder.old number (packet_of found.entry)
        (decode_of decoder.old found.entry.side found.entry.payload.now)) }
    ensures params { decoder.new ≡ decoder.old }
{
    match decoder.decode(found.side, found.payload) {
        Ok(pdu) => Seen::Packet(ShownPacket {
            record: number,
            channel: found.channel,
            side: found.side,
            pdu,
        }),
        Err(fault) => Seen::Refused(Fault {
            number: fault.number,
            place: number,
            end: Some(found.side),
        }),
    }
}

// What a record shows.
#[tactic(auto, unfolding(crate::specs::Show::sight_of))]
fn sight<'a>(params: &Params, decoder: &mut Decoder<'_>, record: &Record<'a>) -> Seen<'a>
    requires { decoder.old ≡ params.now }
    ensures sight { sight_in result ≡ (sight_of params.now («record».now.number, «record».now.bytes.now)) }
    ensures params { decoder.new ≡ decoder.old }
{
    match recorded_packet(params, record) {
        Ok(None) => Seen::PassedOver,
        Ok(Some(found)) => sight_of_datagram(decoder, record.number, found),
        Err(fault) => Seen::Refused(fault),
    }
}

// Writes what the records from here on show, each before the next is read.
fn write_records<R: Source, W: Sink>(
    alloc: Global,
    params: &Params,
    mut records: RecordReader,
    reader: &mut R,
    writer: &mut W,
) -> Result<u8, Fault>
    requires { progress_of records ≡ Reading }
    ensures text { IfOk result (λ status. WritesText (text_left params.now records) (status_left params.now records) status
        (R.remaining reader.old) (R.remaining reader.new) (W.contents writer.old) (W.contents writer.new)) }
    ensures begun { OnErr result (WritesBeginning (text_left params.now records)
        (R.remaining reader.old) (R.remaining reader.new) (W.contents writer.old) (W.contents writer.new)) }
    ensures bounded { GoesUpToRecord (order_in records) params.now.last_record (R.remaining reader.old) (R.remaining reader.new) }
    ensures err { IfErr result (λ f. IsRunFault f (R.failure_count reader.old) (R.failure_count reader.new)
        (W.failure_count writer.old) (W.failure_count writer.new)) }
{
    let mut decoder = Decoder::new(alloc, params);
    let mut line = Line::new();
    let mut place = 0u32;
    for _ in 0..params.last_record() {
        let number = match records.advance(reader) {
            Ok(Some(number)) => number,
            Ok(None) => break,
            Err(fault) if fault.is_refusal() => return write_refusal(fault, writer),
            Err(fault) => return Err(fault),
        };
        let bytes = records.buffer();
        match sight(params, &mut decoder, &Record { number, bytes }) {
            Seen::PassedOver => {}
            Seen::Packet(packet) => {
                write_packet(&packet, place, &mut line, writer)?;
                place += 1;
            }
            Seen::Refused(fault) => return write_refusal(fault, writer),
        }
    }
    write_all(writer, count_line(place).as_bytes())?;
    Ok(0)
}

/// Writes what `show` says of a capture and nothing else: a line for each packet of the connection in the
/// window, up to the first fault, and then their count or the refusal. Each line is written before the next
/// record is read, and nothing after the window's last record is read.
///
/// Answers the status of the program: 0, or 1 where the last line is a refusal. [`Fault::NO_MEMORY`],
/// [`Fault::READ_FAILED`] and [`Fault::WRITE_FAILED`] alone are errors.
pub fn run_show<R: Source, W: Sink>(
    alloc: Global,
    params: &Params,
    reader: &mut R,
    writer: &mut W,
) -> Result<u8, Fault>
    ensures text { IfOk result (λ status. WritesText (show_text params.now) (show_status params.now) status
        (R.remaining reader.old) (R.remaining reader.new) (W.contents writer.old) (W.contents writer.new)) }
    ensures begun { OnErr result (WritesBeginning (show_text params.now)
        (R.remaining reader.old) (R.remaining reader.new) (W.contents writer.old) (W.contents writer.new)) }
    ensures bounded { ReadsUpToRecord params.now.last_record (R.remaining reader.old) (R.remaining reader.new) }
    ensures err { IfErr result (λ f. IsRunFault f (R.failure_count reader.old) (R.failure_count reader.new)
        (W.failure_count writer.old) (W.failure_count writer.new)) }
{
    match RecordReader::open(alloc, reader) {
        Ok(records) => write_records(alloc, params, records, reader, writer),
        Err(fault) if fault.is_refusal() => write_refusal(fault, writer),
        Err(fault) => Err(fault),
    }
}
