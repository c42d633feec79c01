//! Where the connection between two ends stands.
ghost use Rattle.std.specs.Prelude.{◌≡◌, ◌≤◌, min, max, if◌then◌else◌, Some, None, IfErr, OnOk};
ghost use Rattle.std.specs.HashMap.{spare};
ghost use Rattle.std.specs.Map.{lookup};
ghost use Rattle.rasta_pcap.specs.Fault.{no_memory};
ghost use Rattle.seatmelon_survey.specs.Places.{is_opening, last_at, opened_at, same_ends, same_opening};
ghost use Rattle.seatmelon_survey.specs.declared.places.Ends.{Ends};
ghost use Rattle.seatmelon_survey.specs.declared.places.Opening.{Opening};

use rasta_pcap::Fault;
use seatmelon_packets::Way;
use std::alloc::Global;
use std::collections::HashMap;
use std::marker::Model;

/// The ids of two ends, the lower one first: packets both ways have the same.
#[derive(Clone, Copy, PartialEq, Eq, Hash)]
pub struct Ends {
    low: u32,
    high: u32,
}

impl Ends {
    /// The ends between which a PDU goes this way.
    pub fn of(way: &Way) -> Ends
        ensures low { result.low ≡ min way.now.sender way.now.receiver }
        ensures high { result.high ≡ max way.now.sender way.now.receiver }
    {
        Ends {
            low: way.sender.min(way.receiver),
            high: way.sender.max(way.receiver),
        }
    }
}

// Two ends, and the place of the last connection between them.
#[derive(Clone, Copy)]
struct Placed {
    ends: Ends,
    place: usize,
}

/// A connection request between two ends, by the hash of its bytes.
#[derive(Clone, Copy, PartialEq, Eq, Hash)]
pub struct Opening {
    pub ends: Ends,
    pub hash: u64,
}

/// Where connections stand: the last one between two ends, and the one that a request opened. Tables find them in
/// constant time, however many connections there are. The ends that were found or set last are asked before their
/// table: mostly the next packet is between them too.
#[derive(Drop)]
pub struct Places {
    last: HashMap<Ends, usize>,
    recent: Option<Placed>,
    opened: HashMap<Opening, usize>,
}

impl Model for Places {
    ghost use Rattle.std.specs.Prelude.{min};
    ghost use Rattle.std.specs.HashMap.{spare};
    ghost use Rattle.seatmelon_survey.specs.Places.{IsAsTableHasIt, Tables};

    ghost Value = { Tables };

    ghost view = { λ p. record { last = p.last.entries; opened = p.opened.entries; room = min (spare p.last) (spare p.opened) } };

    ghost invariant = { λ p. IsAsTableHasIt p.last.entries p.recent };
}

impl Places {
    /// None yet.
    pub fn new(alloc: Global) -> Places
        ensures last { (e : Ends) → last_at result e ≡ None }
        ensures opened { (o : Opening) → opened_at result o ≡ None }
    {
        Places {
            last: HashMap::new(alloc),
            recent: None,
            opened: HashMap::new(alloc),
        }
    }

    /// The place of the last connection between these ends, if there is one.
    pub fn find(&mut self, ends: Ends) -> Option<usize>
        ensures value { result ≡ last_at self.old ends }
        ensures unchanged { self.new ≡ self.old }
    {
        if let Some(recent) = self.recent
            && recent.ends == ends
        {
            return Some(recent.place);
        }
        let place = self.last.get(&ends).copied()?;
        self.recent = Some(Placed { ends, place });
        Some(place)
    }

    /// The place of the connection that this request opened, if there is one.
    pub fn find_opened(&self, opening: Opening) -> Option<usize>
        ensures { result ≡ opened_at self.now opening }
    {
        self.opened.get(&opening).copied()
    }

    /// Makes room for one more connection. Refused by [`Fault::NO_MEMORY`].
    pub fn reserve(&mut self) -> Result<(), Fault>
        ensures last { (e : Ends) → last_at self.new e ≡ last_at self.old e }
        ensures opened { (o : Opening) → opened_at self.new o ≡ opened_at self.old o }
        ensures room { OnOk result (1 ≤ self.new.room) }
        ensures err { IfErr result (λ f. f ≡ no_memory) }
    {
        self.last.try_reserve(1)?;
        self.opened.try_reserve(1)?;
        Ok(())
    }

    /// Sets the place of a connection that begins between these ends, and which this request opened, if one did. There
    /// is room.
    pub fn set(&mut self, ends: Ends, opening: Option<Opening>, place: usize)
        requires { 1 ≤ self.old.room }
        ensures last { (e : Ends) → last_at self.new e ≡ (if same_ends ends e then Some place else last_at self.old e) }
        ensures opened { (o : Opening) → opened_at self.new o ≡ (if is_opening opening o then Some place else opened_at self.old o) }
    {
        set_opened(&mut self.opened, opening, place);
        set_last(&mut self.last, ends, place);
        self.recent = Some(Placed { ends, place });
    }
}

// Sets the place of the last connection between these ends. There is room.
fn set_last(last: &mut HashMap<Ends, usize>, ends: Ends, place: usize)
    requires { 1 ≤ spare last.old }
    ensures { (e : Ends) → lookup (same_ends e) last.new.entries ≡ (if same_ends ends e then Some place else lookup (same_ends e) last.old.entries) }
{
    if last.insert(ends, place).is_err() {
        unreachable!()
    }
}

// Sets the place of the connection that this request opened, if one did. There is room.
fn set_opened(opened: &mut HashMap<Opening, usize>, opening: Option<Opening>, place: usize)
    requires { 1 ≤ spare opened.old }
    ensures { (o : Opening) → lookup (same_opening o) opened.new.entries ≡ (if is_opening opening o then Some place else lookup (same_opening o) opened.old.entries) }
{
    let Some(opening) = opening else {
        return;
    };
    if opened.insert(opening, place).is_err() {
        unreachable!()
    }
}
