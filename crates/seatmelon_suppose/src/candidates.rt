//! The ways in which a gap is filled.
use crate::gap::Gap;
use crate::scene::Scene;
use crate::supposed::{Fields, Supposed};
use rasta_pdu::Kind;
use std::alloc::{AllocError, Global};

/// The types that are tried for a missing PDU, in their order.
pub const KINDS: [Kind; 5] = [
    Kind::Heartbeat,
    Kind::Data,
    Kind::RetransmittedData,
    Kind::RetransmissionRequest,
    Kind::RetransmissionResponse,
];

// CS and CTS of a PDU: what its sender accepted last.
#[derive(Clone, Copy, PartialEq, Eq)]
struct Confirmed {
    cs: u32,
    cts: u32,
}

// What is tried for the PDUs of a gap: the type of the first one, its time, what they confirm, and which messages.
#[derive(Clone, Copy)]
struct Guess {
    kind: Kind,
    ts: u32,
    confirmed: Confirmed,
    like: Option<usize>,
}

// The type of a PDU behind the first one of a gap.
fn kind_behind(first: Kind) -> Kind {
    match first {
        Kind::Data => Kind::Data,
        Kind::RetransmittedData | Kind::RetransmissionResponse => Kind::RetransmittedData,
        _ => Kind::Heartbeat,
    }
}

// Adds what isn't there yet.
fn add_new<T: Clone + PartialEq + Drop>(list: &mut Vec<T>, one: T) -> Result<(), AllocError> {
    if !list.contains(&one) {
        match list.push(one) {
            Ok(()) => {}
            Err(error) => return Err(AllocError::from(error)),
        }
    }
    Ok(())
}

// The times that are tried.
fn times(alloc: Global, gap: &Gap, scene: &Scene) -> Result<Vec<u32>, AllocError> {
    let mut times = Vec::new(alloc);
    if let Some(echo) = scene.echo {
        add_new(&mut times, echo)?;
    }
    add_new(&mut times, gap.before.ts)?;
    add_new(&mut times, gap.behind.ts)?;
    Ok(times)
}

fn confirmed_by(fields: &Fields) -> Confirmed {
    Confirmed {
        cs: fields.cs,
        cts: fields.cts,
    }
}

fn accepting(fields: &Fields) -> Confirmed {
    Confirmed {
        cs: fields.sn,
        cts: fields.ts,
    }
}

// What the PDUs may confirm.
fn confirmations(
    alloc: Global,
    gap: &Gap,
    scene: &Scene,
    kind: Kind,
) -> Result<Vec<Confirmed>, AllocError> {
    let mut all = Vec::new(alloc);
    if kind == Kind::RetransmissionResponse {
        for request in &scene.requests {
            add_new(&mut all, accepting(request))?;
        }
    }
    add_new(&mut all, confirmed_by(&gap.before))?;
    add_new(&mut all, confirmed_by(&gap.behind))?;
    let most = if kind == Kind::RetransmissionRequest {
        scene.accepted.len()
    } else {
        1
    };
    for accepted in scene.accepted.iter().take(most) {
        add_new(&mut all, accepting(accepted))?;
    }
    Ok(all)
}

// Whether an end that accepted this last may have missed the next PDU of the peer: a later one has crossed.
fn may_ask(scene: &Scene, confirmed: Confirmed) -> bool {
    match scene.accepted.first() {
        Some(last) => {
            let ahead = last.sn.wrapping_sub(confirmed.cs);
            ahead > 1 && ahead < 1 << 31
        }
        None => false,
    }
}

// Whether a PDU of this type can be missing there.
fn is_possible(gap: &Gap, scene: &Scene, kind: Kind) -> bool {
    let is_in_burst = matches!(
        gap.before.kind,
        Kind::RetransmissionResponse | Kind::RetransmittedData
    );
    match kind {
        Kind::RetransmittedData => is_in_burst && !scene.again.is_empty(),
        Kind::RetransmissionResponse => !scene.requests.is_empty(),
        _ => true,
    }
}

// The numbers of the packets whose messages are tried, among the units or what is sent again.
fn likes(alloc: Global, scene: &Scene, kind: Kind) -> Result<Vec<Option<usize>>, AllocError> {
    let mut likes = Vec::new(alloc);
    match kind {
        Kind::RetransmittedData => {
            for number in &scene.again {
                likes.push(Some(*number))?;
            }
        }
        Kind::Data => {
            likes.push(None)?;
            for number in 0..scene.resent.len() {
                likes.push(Some(number))?;
            }
        }
        _ => likes.push(None)?,
    }
    Ok(likes)
}

// The place of the packet whose messages the PDU of this number in the gap has.
fn like_of(scene: &Scene, guess: Guess, number: u32) -> Option<usize> {
    let first = guess.like?;
    match guess.kind {
        Kind::Data if number == 0 => scene.resent.get(first).copied(),
        Kind::RetransmittedData => {
            scene
                .units
                .get(first.checked_sub(number as usize)?)
                .copied()
        }
        _ => None,
    }
}

// The PDUs of a gap by a guess.
fn filled(
    alloc: Global,
    gap: &Gap,
    scene: &Scene,
    guess: Guess,
) -> Result<Vec<Supposed>, AllocError> {
    let mut pdus = Vec::new(alloc);
    for number in 0..gap.missing {
        let kind = if number == 0 {
            guess.kind
        } else {
            kind_behind(guess.kind)
        };
        let step = number.wrapping_add(1);
        let fields = Fields {
            kind,
            number: gap.before.number.wrapping_add(step),
            sn: gap.before.sn.wrapping_add(step),
            cs: guess.confirmed.cs,
            ts: guess.ts,
            cts: guess.confirmed.cts,
        };
        pdus.push(Supposed {
            before: scene
                .shown
                .get(number as usize)
                .copied()
                .unwrap_or(gap.place),
            sender: gap.sender,
            fields,
            like: like_of(scene, guess, number),
        })?;
    }
    Ok(pdus)
}

/// The ways in which a gap is filled by PDUs of which the first is of this type, in the order in which they are tried.
pub fn candidates(
    alloc: Global,
    gap: &Gap,
    scene: &Scene,
    kind: Kind,
) -> Result<Vec<Vec<Supposed>>, AllocError> {
    let mut all = Vec::new(alloc);
    if !is_possible(gap, scene, kind) {
        return Ok(all);
    }
    let times = times(alloc, gap, scene)?;
    let confirmations = confirmations(alloc, gap, scene, kind)?;
    for like in likes(alloc, scene, kind)? {
        for ts in &times {
            for confirmed in &confirmations {
                if kind == Kind::RetransmissionRequest && !may_ask(scene, *confirmed) {
                    continue;
                }
                let guess = Guess {
                    kind,
                    ts: *ts,
                    confirmed: *confirmed,
                    like,
                };
                match all.push(filled(alloc, gap, scene, guess)?) {
                    Ok(()) => {}
                    Err(error) => return Err(AllocError::from(error)),
                }
            }
        }
    }
    Ok(all)
}
