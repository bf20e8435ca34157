// What can be wrong with a file.
ghost use Rattle.std.specs.Prelude.{◌≡◌, Some};
ghost use Rattle.std.specs.Fmt.{decimal};
ghost use Rattle.filing.specs.Faults.{cause_number, fault_text};

use std::error::Error;
use std::fmt;

#[derive(Clone, Copy, PartialEq, Eq, Debug)]
pub enum Cause {
    NoSystem = 1,
    UnknownMark = 2,
    CutShort = 3,
    BadSystem = 4,
    Absent = 5,
    SecondLabel = 6,
}

// a cause, and the byte at which the faulty record begins
#[derive(Clone, Copy, PartialEq, Eq, Debug)]
pub struct Fault {
    pub cause: Cause,
    pub byte: usize,
}

impl Cause {
    // the fault, at the byte at which the faulty record begins
    pub fn at(self, byte: usize) -> Fault
        ensures { result ≡ record { cause = self; byte = byte } }
    {
        Fault { cause: self, byte }
    }
}

// This and the impls below stand in each crate that refuses: the traits are written for each type.
impl From<Cause> for u8 {
    ghost from_gives = { λ cause n. n ≡ cause_number cause };

    fn from(cause: Cause) -> u8 {
        cause as u8
    }
}

// the number, in decimal digits
impl fmt::Display for Cause {
    ghost output = { λ cause. Some (decimal (cause_number cause)) };

    fn fmt<W: fmt::Write>(&self, f: &mut fmt::Formatter<W>) -> fmt::Result {
        write!(f, "{}", u8::from(*self))
    }
}

// the number and the byte, as `5 at 7`
impl fmt::Display for Fault {
    ghost output = { λ fault. Some (fault_text fault) };

    fn fmt<W: fmt::Write>(&self, f: &mut fmt::Formatter<W>) -> fmt::Result {
        write!(f, "{} at {}", self.cause, self.byte)
    }
}

impl Error for Fault {}
