//! The lengths of codes that fit.
ghost use Rattle.std.specs.Prelude.{◌≡◌, Some};
ghost use Rattle.rasta_pdu.specs.Params.{AreLengths};
ghost use Rattle.seatmelon_packets.specs.Features.{fit_by, fits_any, fits_by, fits_by_codes};
ghost use Rattle.seatmelon_packets.specs.Trials.{all_trials, codes_tried, trial_of};

use rasta_md4::START_WORDS;
use rasta_pdu::{Channel, Fault, Params, Side, decode};
use rasta_udp::Endpoint;

/// How a PDU fits a length of the safety code.
#[derive(Clone, Copy, PartialEq, Eq)]
pub enum Fit {
    /// Its form doesn't fit.
    None,

    /// Its form fits, but not its safety code if the digest begins with MD4's own start words.
    Form,

    /// Both fit.
    StartWords,
}

/// How a PDU fits each length of the safety code (none, 8 bytes, 16 bytes), and how long its check code is.
#[derive(Clone, Copy, PartialEq, Eq)]
pub struct Fits {
    pub no_code: Fit,
    pub short_code: Fit,
    pub long_code: Fit,

    /// In bytes: 0, 2 or 4.
    pub check_length: u8,
}

/// Of a datagram that fits no length.
pub const NO_FITS: Fits = Fits {
    no_code: Fit::None,
    short_code: Fit::None,
    long_code: Fit::None,
    check_length: 0,
};

impl Fits {
    /// Whether the form fits any length.
    pub(crate) fn any(&self) -> bool
        ensures { result ≡ fits_any self.now }
    {
        self.no_code != Fit::None || self.short_code != Fit::None || self.long_code != Fit::None
    }
}

// Reading a datagram asks for no channel, and for the ids only once its form and its safety code are right.
const ANY_CHANNEL: Channel = Channel {
    client: Endpoint {
        address: [0; 4],
        port: 1,
    },
    server: Endpoint {
        address: [0; 4],
        port: 2,
    },
};

// Parameters with codes of these lengths, in bytes.
fn trial(code_length: u8, check_length: u8) -> Option<Params>
    requires { AreLengths code_length check_length }
    ensures { result ≡ Some (trial_of code_length check_length) }
{
    Params::new(
        1,
        2,
        code_length,
        START_WORDS,
        check_length,
        1,
        1,
        0,
        1,
        1,
        &[ANY_CHANNEL],
        None,
    )
}

#[inline(always)]
fn fit_of(params: &Option<Params>, datagram: &[u8]) -> Fit
    ensures { result ≡ fit_by params.now datagram.now }
{
    let Some(params) = params else {
        return Fit::None;
    };
    match decode(params, Side::Client, datagram) {
        Err(fault) if fault.number == Fault::CODE => Fit::Form,
        Err(fault) if fault.number != Fault::IDS => Fit::None,
        _ => Fit::StartWords,
    }
}

// The parameters by which each length of the safety code is tried.
#[derive(Clone, Copy)]
struct CodeTrials {
    no_code: Option<Params>,
    short_code: Option<Params>,
    long_code: Option<Params>,
}

impl CodeTrials {
    // With a check code of this length, in bytes.
    fn new(check_length: u8) -> CodeTrials
        requires { AreLengths 0 check_length }
        ensures { result ≡ codes_tried check_length }
    {
        CodeTrials {
            no_code: trial(0, check_length),
            short_code: trial(8, check_length),
            long_code: trial(16, check_length),
        }
    }

    // How a datagram with a check code of this length fits each length of the safety code.
    fn fits_of(&self, datagram: &[u8], check_length: u8) -> Fits
        ensures { result ≡ fits_by_codes self.now check_length datagram.now }
    {
        Fits {
            no_code: fit_of(&self.no_code, datagram),
            short_code: fit_of(&self.short_code, datagram),
            long_code: fit_of(&self.long_code, datagram),
            check_length,
        }
    }
}

/// The parameters by which the lengths of the codes are tried.
#[derive(Clone, Copy)]
pub struct Trials {
    no_check: CodeTrials,
    short_check: CodeTrials,
    long_check: CodeTrials,
}

impl Trials {
    /// Of each length that the codes can have.
    pub fn new() -> Trials
        ensures { result ≡ all_trials }
    {
        Trials {
            no_check: CodeTrials::new(0),
            short_check: CodeTrials::new(2),
            long_check: CodeTrials::new(4),
        }
    }

    /// How a datagram fits each length of the safety code, whatever its ids.
    #[tactic(auto, unfolding(crate::specs::Features::fits_by))]
    pub(crate) fn fits_of(&self, datagram: &[u8], check_length: u8) -> Fits
        ensures { result ≡ fits_by self.now check_length datagram.now }
    {
        let trials = match check_length {
            0 => &self.no_check,
            2 => &self.short_check,
            _ => &self.long_check,
        };
        trials.fits_of(datagram, check_length)
    }
}

/// How many PDUs fit a length of the safety code.
#[derive(Clone, Copy)]
pub struct FitCount {
    /// Those whose form fits.
    pub forms: u64,

    /// Those of them whose safety code is right if the digest begins with MD4's own start words.
    pub start_words: u64,
}

impl FitCount {
    fn add(&mut self, fit: Fit) {
        match fit {
            Fit::None => {}
            Fit::Form => self.forms = self.forms.saturating_add(1),
            Fit::StartWords => {
                self.forms = self.forms.saturating_add(1);
                self.start_words = self.start_words.saturating_add(1);
            }
        }
    }
}

/// A length of a code in bytes, how many PDUs have the form that it asks for, and in how many of these the code
/// is right.
#[derive(Clone, Copy)]
pub struct LengthFit {
    pub length: u8,
    pub forms: u64,
    pub right: u64,
}

impl LengthFit {
    // Whether this length is more likely than a shorter one. Where the codes decide nothing, it isn't: messages
    // may stand where a code would, but a code's bytes are hardly ever messages.
    fn is_likelier_than(&self, shorter: &LengthFit) -> bool {
        let is_confirmed = self.right > 0 && self.right >= shorter.right;
        self.forms > shorter.forms || (self.forms == shorter.forms && is_confirmed)
    }
}

/// The likeliest of some lengths, which rise: one that fits the most PDUs, and of these the one whose codes are
/// right, or else the shortest.
pub fn likeliest(lengths: &[LengthFit; 3]) -> LengthFit {
    let [none, short, long] = *lengths;
    let best = if short.is_likelier_than(&none) {
        short
    } else {
        none
    };
    if long.is_likelier_than(&best) {
        long
    } else {
        best
    }
}

fn code_fit(length: u8, count: FitCount) -> LengthFit {
    LengthFit {
        length,
        forms: count.forms,
        right: if length == 0 { 0 } else { count.start_words },
    }
}

fn check_fit(length: u8, forms: u64) -> LengthFit {
    LengthFit {
        length,
        forms,
        right: 0,
    }
}

const NONE: FitCount = FitCount {
    forms: 0,
    start_words: 0,
};

/// How many PDUs of a connection fit each length of its codes: safety codes of 0, 8 and 16 bytes, and check codes of 0, 2
/// and 4 bytes.
#[derive(Clone, Copy)]
pub struct Lengths {
    pub pdus: u64,
    pub no_code: FitCount,
    pub short_code: FitCount,
    pub long_code: FitCount,
    pub no_check: u64,
    pub short_check: u64,
    pub long_check: u64,
}

impl Lengths {
    /// Of no PDU yet.
    pub fn new() -> Lengths {
        Lengths {
            pdus: 0,
            no_code: NONE,
            short_code: NONE,
            long_code: NONE,
            no_check: 0,
            short_check: 0,
            long_check: 0,
        }
    }

    /// Counts a PDU.
    pub fn add(&mut self, fits: &Fits) {
        self.pdus = self.pdus.saturating_add(1);
        self.no_code.add(fits.no_code);
        self.short_code.add(fits.short_code);
        self.long_code.add(fits.long_code);
        match fits.check_length {
            0 => self.no_check = self.no_check.saturating_add(1),
            2 => self.short_check = self.short_check.saturating_add(1),
            _ => self.long_check = self.long_check.saturating_add(1),
        }
    }

    /// The lengths of the safety code. A code is right if it is that of MD4's own start words.
    pub fn of_code(&self) -> [LengthFit; 3] {
        [
            code_fit(0, self.no_code),
            code_fit(8, self.short_code),
            code_fit(16, self.long_code),
        ]
    }

    /// The lengths of the check code, which nothing confirms.
    pub fn of_check(&self) -> [LengthFit; 3] {
        [
            check_fit(0, self.no_check),
            check_fit(2, self.short_check),
            check_fit(4, self.long_check),
        ]
    }
}
