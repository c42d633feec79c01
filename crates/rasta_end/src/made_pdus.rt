//! The PDUs that an end made, and the asks that it answers.
ghost use Rattle.std.specs.Prelude.{true, false, ◌≡◌, ◌≤◌, ◌<◌, ◌+◌, ◌^◌, length, [], ◌∷◌, ◌++◌, slice_get, option_map, OnOk, OnErr, if◌then◌else◌};
ghost use Rattle.std.specs.Borrow.{Bor};
ghost use Rattle.rasta_pdu.specs.Pdu.{value_of, is_kind};
ghost use Rattle.rasta_pdu.specs.declared.kind.Kind.TheVariants.{RetransmissionResponse, Data};
ghost use Rattle.rasta_end.specs.State;
ghost use Rattle.rasta_end.specs.State.{kinds};
ghost use Rattle.rasta_end.specs.MakeRule.{contents};
ghost use Rattle.rasta_end.specs.Units;
ghost use Rattle.rasta_end.specs.Units.{units_conveyed, all_units_conveyed, conveyed, last_of, responses_in};
ghost use Rattle.rasta_end.specs.Kept.{made_of, quiet_made, quiet_count, OwnPdus};

use rasta_pdu::{Body, Kind, Pdu};
use std::alloc::{AllocError, Global};
use std::marker::Model;

/// What an end made last before a quiet point, as far as it is recorded.
#[derive(Clone, Copy)]
pub struct QuietPdu {
    pub sn: u32,
    pub cs: u32,
    pub ts: u32,
    pub cts: u32,
}

/// A PDU that was made, with the number of its unit and the units conveyed through it.
#[derive(Clone, Copy)]
pub struct MadePdu<'a> {
    pdu: Pdu<'a>,
    unit: Option<usize>,
    conveyed: usize,
}

/// The PDUs that an end made, from a quiet point on after the quiet PDU; the contents of the units
/// among them; and the own positions that the peer's retransmission requests confirm.
#[derive(Drop)]
pub struct MadePdus<'a> {
    quiet: Option<QuietPdu>,
    made: Vec<MadePdu<'a>>,
    contents: Vec<&'a [u8]>,
    responses: usize,
    asks: Vec<usize>,
}

impl<'a> Model for MadePdus<'a> {
    ghost use Rattle.rasta_end.specs.Kept.{OwnPdus, made_inside, AreOwn};

    ghost Value = { OwnPdus };

    ghost view = { λ o. record { quiet = o.quiet; made = made_inside o; asks = o.asks.items } };

    ghost invariant = { AreOwn };
}

/// The bytes of the messages of data, else none.
pub fn content<'a>(pdu: &Pdu<'a>) -> &'a [u8]
    ensures { result.now ≡ State.content_of (value_of pdu.now).safety.body }
{
    match pdu.body() {
        Body::Messages(payload) => payload,
        _ => &[],
    }
}

impl<'a> MadePdus<'a> {
    /// Before the first make: the quiet point's PDU, where one is recorded.
    pub fn new(alloc: Global, quiet: Option<QuietPdu>) -> MadePdus<'a>
        ensures { result ≡ record { quiet = quiet; made = quiet_made quiet; asks = [] } }
    {
        MadePdus {
            quiet,
            made: Vec::new(alloc),
            contents: Vec::new(alloc),
            responses: 0,
            asks: Vec::new(alloc),
        }
    }

    /// Makes room for so many PDUs more; nothing else changes.
    pub fn reserve(&mut self, additional: usize) -> Result<(), AllocError>
        ensures { self.new ≡ self.old }
    {
        self.made.try_reserve_exact(additional)
    }

    /// How many PDUs there are, the quiet one too.
    pub fn len(&self) -> usize
        ensures value { result ≡ length self.now.made }
        ensures room { result + 2 ^ 33 < 2 ^ 64 }
    {
        usize::from(self.quiet.is_some()) + self.made.len()
    }

    /// How many PDUs there are after the quiet one.
    pub fn made(&self) -> usize
        ensures { quiet_count self.now.quiet + result ≡ length self.now.made }
    {
        self.made.len()
    }

    /// The PDU of this number after the quiet one, from 0.
    pub fn get(&self, index: usize) -> Option<Pdu<'a>>
        ensures { option_map (λ (p : Pdu). (value_of p).safety) result ≡ option_map (λ (m : State.Made). m.pdu) (slice_get self.now.made (quiet_count self.now.quiet + index)) }
    {
        match self.made.get(index) {
            Some(made) => Some(made.pdu),
            None => None,
        }
    }

    /// The SN of the first PDU, 0 where there is none.
    pub fn first_sn(&self) -> u32
        ensures { result ≡ State.first_sn self.now.made }
    {
        match (&self.quiet, self.made.first()) {
            (Some(quiet), _) => quiet.sn,
            (None, Some(first)) => first.pdu.sn(),
            (None, None) => 0,
        }
    }

    /// The SN of a position.
    pub fn sn_at(&self, position: usize) -> u32
        ensures { result ≡ State.sn_at self.now.made position }
    {
        self.first_sn().wrapping_add((position % (1 << 32)) as u32)
    }

    /// The units conveyed through a position.
    pub fn units_through(&self, position: usize) -> usize
        ensures { result ≡ units_conveyed self.now.asks (kinds self.now.made) position }
    {
        if self.quiet.is_none() {
            self.made.get(position).map_or(0, |made| made.conveyed)
        } else if position == 0 {
            0
        } else {
            self.made.get(position - 1).map_or(0, |made| made.conveyed)
        }
    }

    /// The content of the unit of this number.
    pub fn content(&self, unit: u32) -> Option<&'a [u8]>
        ensures { option_map (λ b. b.now) result ≡ slice_get (contents self.now.made) unit }
    {
        self.contents.get(unit as usize).copied()
    }

    // The units conveyed through the last of the PDUs.
    fn last_units(&self) -> usize
        ensures { result ≡ last_of (all_units_conveyed self.now.asks (kinds self.now.made)) }
    {
        match self.len() {
            0 => 0,
            len => self.units_through(len - 1),
        }
    }

    // The units conveyed through the position that an answered ask names.
    fn asked_units(&self) -> usize
        ensures { result ≡ Units.units_at (all_units_conveyed self.now.asks (kinds self.now.made)) (slice_get self.now.asks (responses_in (kinds self.now.made))) }
    {
        match self.asks.get(self.responses) {
            Some(position) => self.units_through(*position),
            None => 0,
        }
    }

    // The units conveyed through a next PDU of this type.
    fn units_after(&self, kind: Kind) -> usize
        ensures room { length self.now.made + 2 ^ 33 < 2 ^ 64 }
        ensures value { result ≡ Units.units_after self.now.asks (all_units_conveyed self.now.asks (kinds self.now.made)) (conveyed self.now.asks (kinds self.now.made)).responses kind }
    {
        if self.len() == 0 {
            return 0;
        }
        match kind {
            Kind::RetransmissionResponse => self.asked_units(),
            Kind::Data | Kind::RetransmittedData => self.last_units() + 1,
            _ => self.last_units(),
        }
    }

    // The PDU as it is kept.
    fn made_pdu(&self, pdu: &Pdu<'a>, unit: Option<usize>) -> MadePdu<'a>
        ensures pdu { made_of result ≡ record { pdu = (value_of pdu.now).safety; unit = unit } }
        ensures room { length self.now.made + 2 ^ 33 < 2 ^ 64 }
        ensures conveyed { result.conveyed ≡ Units.units_after self.now.asks (all_units_conveyed self.now.asks (kinds self.now.made)) (conveyed self.now.asks (kinds self.now.made)).responses (value_of pdu.now).safety.kind }
    {
        MadePdu {
            pdu: *pdu,
            unit,
            conveyed: self.units_after(pdu.kind()),
        }
    }

    fn push_data(&mut self, pdu: &Pdu<'a>, unit: Option<usize>) -> Result<(), AllocError>
        requires { is_kind Data (value_of pdu.now).safety.kind ≡ true }
        ensures room { length self.old.made + 2 ^ 33 < 2 ^ 64 }
        ensures ok { OnOk result (self.new ≡ record self.old { made = self.old.made ++ record { pdu = (value_of pdu.now).safety; unit = unit } ∷ [] }) }
        ensures err { OnErr result (self.new ≡ self.old) }
    {
        let made = self.made_pdu(pdu, unit);
        self.contents.try_reserve(1)?;
        if self.made.push(made).is_err() {
            return Err(AllocError);
        }
        self.contents.push_reserved(content(pdu));
        Ok(())
    }

    fn push_response(&mut self, pdu: &Pdu<'a>, unit: Option<usize>) -> Result<(), AllocError>
        requires { is_kind RetransmissionResponse (value_of pdu.now).safety.kind ≡ true }
        ensures room { length self.old.made + 2 ^ 33 < 2 ^ 64 }
        ensures ok { OnOk result (self.new ≡ record self.old { made = self.old.made ++ record { pdu = (value_of pdu.now).safety; unit = unit } ∷ [] }) }
        ensures err { OnErr result (self.new ≡ self.old) }
    {
        let made = self.made_pdu(pdu, unit);
        if self.made.push(made).is_err() {
            return Err(AllocError);
        }
        self.responses += 1;
        Ok(())
    }

    fn push_other(&mut self, pdu: &Pdu<'a>, unit: Option<usize>) -> Result<(), AllocError>
        requires data { is_kind Data (value_of pdu.now).safety.kind ≡ false }
        requires response { is_kind RetransmissionResponse (value_of pdu.now).safety.kind ≡ false }
        ensures room { length self.old.made + 2 ^ 33 < 2 ^ 64 }
        ensures ok { OnOk result (self.new ≡ record self.old { made = self.old.made ++ record { pdu = (value_of pdu.now).safety; unit = unit } ∷ [] }) }
        ensures err { OnErr result (self.new ≡ self.old) }
    {
        let made = self.made_pdu(pdu, unit);
        if self.made.push(made).is_err() {
            return Err(AllocError);
        }
        Ok(())
    }

    /// Appends a PDU that was made; nothing changes where memory runs out.
    pub fn push(&mut self, pdu: &Pdu<'a>, unit: Option<usize>) -> Result<(), AllocError>
        ensures room { length self.old.made + 2 ^ 33 < 2 ^ 64 }
        ensures ok { OnOk result (self.new ≡ record self.old { made = self.old.made ++ record { pdu = (value_of pdu.now).safety; unit = unit } ∷ [] }) }
        ensures err { OnErr result (self.new ≡ self.old) }
    {
        let kind = pdu.kind();
        if kind.is(Kind::Data) {
            self.push_data(pdu, unit)
        } else if kind.is(Kind::RetransmissionResponse) {
            self.push_response(pdu, unit)
        } else {
            self.push_other(pdu, unit)
        }
    }

    /// Appends an ask; nothing changes where memory runs out.
    pub fn ask(&mut self, position: usize) -> Result<(), AllocError>
        requires { responses_in (kinds self.old.made) ≤ length self.old.asks }
        ensures ok { OnOk result (self.new ≡ record self.old { asks = self.old.asks ++ position ∷ [] }) }
        ensures err { OnErr result (self.new ≡ self.old) }
    {
        if self.asks.push(position).is_err() {
            return Err(AllocError);
        }
        Ok(())
    }
}
