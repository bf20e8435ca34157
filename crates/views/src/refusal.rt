// Why a call of this crate is refused.
ghost use Rattle.std.specs.Prelude.{◌≡◌, Some, decimal};
ghost use Rattle.views.specs.Refusal.{refusal_number};

use std::error::Error;
use std::fmt;

#[derive(Clone, Copy, PartialEq, Eq, Debug)]
pub enum Refusal {
    // a lent sheet has fewer cells than the system needs
    SheetShort = 33,
}

// This and the impls below stand in each crate: the traits are written for each type.
impl From<Refusal> for u8 {
    ghost from_gives = { λ r n. n ≡ refusal_number r };

    fn from(refusal: Refusal) -> u8 {
        refusal as u8
    }
}

// the number, in decimal digits
impl fmt::Display for Refusal {
    ghost output = { λ r. Some (decimal (refusal_number r)) };

    fn fmt<W: fmt::Write>(&self, f: &mut fmt::Formatter<W>) -> fmt::Result {
        let number = u8::from(*self);
        write!(f, "{number}")
    }
}

impl Error for Refusal {}
