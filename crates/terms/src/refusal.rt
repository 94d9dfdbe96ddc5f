ghost use Rattle.std.specs.Prelude.{◌≡◌};
ghost use Rattle.terms.specs.Refusals.{number};

use std::error::Error;
use std::fmt;

/// Why a record, a call or a query is refused, by the number that tells it (document 01, What a record gets; document 02, Papers 2 and 4).
#[derive(Clone, Copy, Debug, PartialEq, Eq)]
pub enum Refusal {
    CutShort = 1,
    UnknownTag = 2,
    WrongLength = 3,
    // A call's kind, or a rule's action.
    UnknownKind = 4,
    OutOfRange = 5,
    DeadProcess = 6,
    Taken = 7,
    Missing = 8,
    SameTwice = 9,
    NoFile = 10,
    RulesFull = 11,
    BrokenAlready = 12,
    SliceShort = 13,
    DescriptorClosed = 14,
    NameUnbound = 15,
    NoLink = 16,
    CountFull = 17,
}

impl Refusal {
    pub fn number(self) -> u8
        ensures { result ≡ number self }
    {
        self as u8
    }
}

impl From<Refusal> for u8 {
    ghost from_gives = { λ refusal n. n ≡ number refusal };

    fn from(refusal: Refusal) -> u8 {
        refusal.number()
    }
}

impl fmt::Display for Refusal {
    fn fmt<W: fmt::Write>(&self, f: &mut fmt::Formatter<W>) -> fmt::Result {
        write!(f, "refused {}", self.number())
    }
}

impl Error for Refusal {}
