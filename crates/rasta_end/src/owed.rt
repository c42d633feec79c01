//! What an end owes.
ghost use Rattle.std.specs.Prelude.{◌≡◌, ◌<◌, ◌+◌, ◌^◌, ◌≤◌, not, length, drop, [], ◌∷◌, None, Some};
ghost use Rattle.rasta_end.specs.State.{is_owing};
ghost use Rattle.rasta_end.specs.MakeRule;
ghost use Rattle.rasta_end.specs.MakeRule.{demand_of};
ghost use Rattle.rasta_end.specs.Kept.{owed_list, owed_reply, owed_request, first_owed};

use crate::make_row::MakeRow;

/// Something owed, named by the PDU that pays it.
#[derive(Clone, Copy)]
pub enum Owed {
    ConnectionResponse,
    FirstHeartbeat,
    RetransmissionResponse,
    /// The unit of this number, retransmitted.
    Resend(usize),
    RetransmissionRequest,
}

/// What a row of the make table wants of what is owed.
#[derive(Clone, Copy)]
pub enum Demand {
    First(Owed),
    Nothing,
    Anything,
}

impl Owed {
    fn is_same(self, other: Owed) -> bool
        ensures { result ≡ MakeRule.same_owed self other }
    {
        match (self, other) {
            (Owed::ConnectionResponse, Owed::ConnectionResponse) => true,
            (Owed::FirstHeartbeat, Owed::FirstHeartbeat) => true,
            (Owed::RetransmissionResponse, Owed::RetransmissionResponse) => true,
            (Owed::Resend(j), Owed::Resend(k)) => j == k,
            (Owed::RetransmissionRequest, Owed::RetransmissionRequest) => true,
            _ => false,
        }
    }
}

impl Demand {
    /// What a row of the make table demands of what is owed.
    pub fn of(row: MakeRow) -> Demand
        ensures { result ≡ demand_of row }
    {
        match row {
            MakeRow::Opens => Demand::Anything,
            MakeRow::Answers => Demand::First(Owed::ConnectionResponse),
            MakeRow::StartsBeating => Demand::First(Owed::FirstHeartbeat),
            MakeRow::Resumes => Demand::First(Owed::RetransmissionResponse),
            MakeRow::Resends(unit) => Demand::First(Owed::Resend(unit as usize)),
            MakeRow::Requests => Demand::First(Owed::RetransmissionRequest),
            MakeRow::Beats => Demand::Nothing,
            MakeRow::Offers => Demand::Nothing,
            MakeRow::Leaves => Demand::Anything,
            MakeRow::TimesOut => Demand::Anything,
        }
    }
}

/// What an end owes, in order: a reply, units to be sent again, a retransmission request.
#[derive(Clone, Copy)]
pub struct Owes {
    pub reply: Option<Owed>,
    /// The number of the first of the units.
    pub unit: usize,
    /// How many units there are.
    pub units: usize,
    pub request: bool,
}

fn replies(reply: Option<Owed>) -> usize
    ensures value { result ≡ length (owed_reply reply) }
    ensures bound { result ≤ 1 }
{
    match reply {
        Some(_) => 1,
        None => 0,
    }
}

fn requests(request: bool) -> usize
    ensures value { result ≡ length (owed_request request) }
    ensures bound { result ≤ 1 }
{
    if request { 1 } else { 0 }
}

impl Owes {
    /// An end that owes nothing.
    pub fn nothing() -> Owes
        ensures list { owed_list result ≡ [] }
        ensures reply { result.reply ≡ None }
        ensures units { result.unit + result.units ≡ 0 }
    {
        Owes {
            reply: None,
            unit: 0,
            units: 0,
            request: false,
        }
    }

    /// An end that owes this reply alone.
    pub fn reply(owed: Owed) -> Owes
        ensures list { owed_list result ≡ owed ∷ [] }
        ensures reply { result.reply ≡ Some owed }
        ensures units { result.unit + result.units ≡ 0 }
    {
        Owes {
            reply: Some(owed),
            unit: 0,
            units: 0,
            request: false,
        }
    }

    /// Whether anything is owed.
    pub fn is_some(self) -> bool
        ensures { result ≡ is_owing (owed_list self) }
    {
        self.reply.is_some() || self.units > 0 || self.request
    }

    /// How many PDUs are owed.
    pub fn len(self) -> usize
        requires { self.units + 2 < 2 ^ 64 }
        ensures value { result ≡ length (owed_list self) }
        ensures bound { result ≤ self.units + 2 }
    {
        replies(self.reply) + self.units + requests(self.request)
    }

    /// At most a reply, the units and a request are owed. For proofs alone.
    pub fn are_few(self)
        ensures { length (owed_list self) ≤ self.units + 2 }
    {}

    /// What is to be made next.
    pub fn first(self) -> Option<Owed>
        ensures { result ≡ first_owed (owed_list self) }
    {
        if self.reply.is_some() {
            self.reply
        } else if self.units > 0 {
            Some(Owed::Resend(self.unit))
        } else if self.request {
            Some(Owed::RetransmissionRequest)
        } else {
            None
        }
    }

    /// Whether the row wants something owed, and nothing is.
    pub fn lacks(self, demand: Demand) -> bool
        ensures { result ≡ MakeRule.lacks demand (owed_list self) }
    {
        match demand {
            Demand::First(_) => !self.is_some(),
            _ => false,
        }
    }

    /// Whether the row wants something else owed, or nothing.
    pub fn owes_else(self, demand: Demand) -> bool
        ensures { result ≡ MakeRule.owes_else demand (owed_list self) }
    {
        match (demand, self.first()) {
            (Demand::First(wanted), Some(first)) => !first.is_same(wanted),
            (Demand::Nothing, Some(_)) => true,
            _ => false,
        }
    }

    /// What is left once the first was made.
    pub fn without_first(self) -> Owes
        requires { self.unit + self.units < 2 ^ 64 }
        ensures list { owed_list result ≡ drop 1 (owed_list self) }
        ensures reply { result.reply ≡ None }
        ensures units { result.unit + result.units ≤ self.unit + self.units }
    {
        if self.reply.is_some() {
            Owes {
                reply: None,
                ..self
            }
        } else if self.units > 0 {
            Owes {
                unit: self.unit + 1,
                units: self.units - 1,
                ..self
            }
        } else {
            Owes {
                request: false,
                ..self
            }
        }
    }
}
