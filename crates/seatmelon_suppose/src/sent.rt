//! The messages that an end sent, by a filling.
ghost use Rattle.std.specs.Prelude.{◌≡◌, ◌∷◌, ◌++◌, [], IfOk, OnOk};
ghost use Rattle.rasta_pdu.specs.Pdu.{messages_in, value_of};
ghost use Rattle.rasta_check.specs.Capture.Crossing.{sent_by};
ghost use Rattle.rasta_check.specs.Capture.Lists.{copy_of};
ghost use Rattle.seatmelon_suppose.specs.Sent.{messages_from, sent_messages};

use crate::filling::{Judged, origin_at};
use rasta_check::SentList;
use rasta_pcap::Side;
use rasta_pdu::{Kind, Pdu};
use std::alloc::{AllocError, Global};

/// A message that an end sent.
#[derive(Clone, Copy)]
pub struct SentMessage {
    /// The place of the captured packet of its data; none of a supposed PDU.
    pub data: Option<usize>,

    /// Its number among the messages of its data, from 0.
    pub index: usize,
}

// Adds the messages of a data PDU, which was captured there, if at all.
fn add_messages(
    sent: &mut Vec<SentMessage>,
    origin: Option<usize>,
    pdu: &Pdu<'_>,
) -> Result<(), AllocError>
    ensures { OnOk result (sent.new.items ≡ sent.old.items ++ messages_from origin 0 (messages_in (value_of pdu.now).safety.body)) }
{
    let before = sent.len();
    for _message in pdu.messages() {
        let index = sent.len() - before;
        sent.push(SentMessage {
            data: origin,
            index,
        })?;
    }
    Ok(())
}

// Adds the messages of a first copy, if it is data.
fn add_copy(
    sent: &mut Vec<SentMessage>,
    origins: &[Option<usize>],
    place: u32,
    pdu: &Pdu<'_>,
) -> Result<(), AllocError>
    ensures { OnOk result (sent.new.items ≡ sent.old.items ++ sent_messages origins.now (copy_of (place, pdu.now) ∷ [])) }
{
    if pdu.kind().is(Kind::Data) {
        add_messages(sent, origin_at(origins, place), pdu)?;
    }
    Ok(())
}

/// All messages that an end sent in what was judged, in order.
pub fn sent_by(alloc: Global, judged: &Judged, sender: Side) -> Result<Vec<SentMessage>, AllocError>
    ensures { IfOk result (λ sent. sent.items ≡ sent_messages judged.now.origins.items (sent_by judged.now.store sender)) }
{
    let list = judged.store.list_of(sender);
    let mut sent = Vec::new(alloc);
    for position in 0..list.len() {
        if let Some((place, pdu)) = list.get(position) {
            add_copy(&mut sent, &judged.origins, place, &pdu)?;
        }
    }
    Ok(sent)
}
