// Why judging refuses.
ghost use Rattle.std.specs.Prelude.{◌≡◌, Some, decimal};
ghost use Rattle.formulas.specs.Refusal.{refusal_number};

use std::error::Error;
use std::fmt;

#[derive(Clone, Copy, PartialEq, Eq, Debug)]
pub enum Refusal {
    // the lowest faulty node
    Node(usize),
    // the answer sheet has fewer cells than there are nodes
    AnswersShort,
}

// This and the impls below stand in each crate: the traits are written for each type.
impl From<Refusal> for u8 {
    ghost from_gives = { λ r n. n ≡ refusal_number r };

    fn from(refusal: Refusal) -> u8 {
        match refusal {
            Refusal::Node(_) => 51,
            Refusal::AnswersShort => 52,
        }
    }
}

// the number, in decimal digits
impl fmt::Display for Refusal {
    ghost output = { λ r. Some (decimal (refusal_number r)) };

    fn fmt<W: fmt::Write>(&self, f: &mut fmt::Formatter<W>) -> fmt::Result {
        let number = u8::from(*self);
        write!(f, "{number}")
    }
}

impl Error for Refusal {}
