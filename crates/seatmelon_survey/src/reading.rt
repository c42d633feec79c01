//! Reading a capture.
ghost use Rattle.std.specs.Prelude.{◌≡◌, ◌⊎◌, IfErr, IfOk, None, nat_le};
ghost use Rattle.rasta_pcap.specs.Fault.{no_memory, not_pcap, read_failed};
ghost use Rattle.rasta_pcap.specs.Devices.{HasFailed};
ghost use Rattle.rasta_pcap.specs.Noting.{PassesOn};
ghost use Rattle.rasta_pcap.specs.Stream.{RefusesHeader};
ghost use Rattle.seatmelon_survey.specs.CutRecords.{CountsCuts};
ghost use Rattle.seatmelon_survey.specs.Extents.{ReadsRecords};
ghost use Rattle.seatmelon_survey.specs.Survey.{cuts_of, fault_in, records_in};

use crate::findings::{Behind, Survey};
use rasta_pcap::stream::RecordReader;
use rasta_pcap::{Fault, Record, Source};
use std::alloc::Global;

/// Reads a capture to its end, or up to a record that has a fault, and answers the connections that it seems to hold.
/// What isn't RaSTA over UDP is passed over. The quiet points of one connection may be wanted behind a record.
///
/// Refused by [`Fault::NO_MEMORY`], [`Fault::READ_FAILED`], and as the capture's header is refused. The fault of a record
/// is part of the survey.
pub fn survey<R: Source>(
    alloc: Global,
    reader: &mut R,
    behind: Option<Behind>,
) -> Result<Survey, Fault>
    ensures records { IfOk result (λ s. ReadsRecords (fault_in s) (records_in s) (R.remaining reader.old) (R.remaining reader.new)) }
    ensures steady { IfOk result (λ s. fault_in s ≡ None → R.failure_count reader.new ≡ R.failure_count reader.old) }
    ensures err { IfErr result (λ f. (f ≡ no_memory)
        ⊎ (((f ≡ read_failed) × HasFailed (R.failure_count reader.old) (R.failure_count reader.new))
        ⊎ RefusesHeader f (R.remaining reader.old) (R.remaining reader.new))) }
    ensures cuts { IfOk result (λ s. CountsCuts (records_in s) (R.remaining reader.old) (cuts_of s)) }
    ensures passed { PassesOn R.remaining R.notes reader.old reader.new }
{
    let mut records = RecordReader::open(alloc, reader)?;
    let mut survey = Survey::new(alloc, behind);
    for _ in 0..u64::MAX {
        let number = match records.advance(reader) {
            Ok(Some(number)) => number,
            Ok(None) => return Ok(survey),
            Err(fault) if fault.is_refusal() => {
                survey.set_fault(fault);
                return Ok(survey);
            }
            Err(fault) => return Err(fault),
        };
        let bytes = records.buffer();
        survey.add_record(alloc, &Record { number, bytes }, records.time())?;
    }
    unreachable!()
}
