// Why a call on a comparison is refused.
ghost use Rattle.std.specs.Prelude.{◌≡◌, Some, decimal};
ghost use Rattle.comparison.specs.Refusals.{refusal_number};

use crate::stage::Open;
use std::error::Error;
use std::fmt;

#[derive(Clone, Copy, PartialEq, Eq, Debug)]
pub enum Refusal {
    ActionsDiffer = 20,
    OtherSystems = 21,
    SheetShort = 22,
    AfterStill = 23,
    Undecided = 24,
    RoundsSpent = 25,
}

// a refusal that gives the comparison back
#[derive(Debug, Drop)]
pub struct Refused {
    pub refusal: Refusal,
    pub comparison: Open,
}

impl Open {
    pub(crate) fn refused(self, refusal: Refusal) -> Refused
        ensures { result ≡ record { «refusal» = refusal; comparison = self } }
    {
        Refused {
            refusal,
            comparison: self,
        }
    }
}

// This and the impls below stand in each crate: the traits are written for each type.
impl From<Refusal> for u8 {
    ghost from_gives = { λ r n. n ≡ refusal_number r };

    fn from(refusal: Refusal) -> u8 {
        refusal as u8
    }
}

// the number, in decimal digits
impl fmt::Display for Refusal {
    ghost output = { λ r. Some (decimal (refusal_number r)) };

    fn fmt<W: fmt::Write>(&self, f: &mut fmt::Formatter<W>) -> fmt::Result {
        let number = u8::from(*self);
        write!(f, "{number}")
    }
}

impl Error for Refusal {}

// the refusal's number
impl fmt::Display for Refused {
    ghost output = { λ x. Some (decimal (refusal_number x.refusal)) };

    fn fmt<W: fmt::Write>(&self, f: &mut fmt::Formatter<W>) -> fmt::Result {
        let refusal = self.refusal;
        write!(f, "{refusal}")
    }
}

impl Error for Refused {}
