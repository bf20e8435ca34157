// The two label kinds: ranks and permits.
ghost use Rattle.std.specs.Prelude.{◌≡◌, ℕ, ◌<◌, take, nat_le, slice_index};
ghost use Rattle.systems.specs.Label.{number_of};
ghost use Rattle.systems.specs.Sets.{contained};
ghost use Rattle.std.proofs.Common.{rules};
ghost use Rattle.systems.specs.Containment.{contained_refl, contained_trans};

use crate::label::Label;
use crate::masks::is_within;
use crate::sheet::{cell_or, write_first};

// A rank is a number; below means at most.
#[derive(Clone, Copy, PartialEq, Eq, Debug)]
pub struct Rank {
    pub value: u16,
}

// A permit is a set of numbers below 64; below means contained in.
#[derive(Clone, Copy, PartialEq, Eq, Debug)]
pub struct Permit {
    pub members: u64,
}

impl Label for Rank {
    const CODE: u8 = 0;

    ghost CODE = { 0 };

    const WIDTH: usize = 2;

    ghost WIDTH = { 2 };

    ghost below = { λ x y. nat_le x.value y.value };

    ghost plain = { record { value = 0 } };

    ghost read = { λ bs. record { value = number_of (take 2 bs) } };

    ghost order = { Prim.search rules };

    fn is_below(&self, other: &Self) -> bool {
        self.value <= other.value
    }

    fn unlabelled() -> Self {
        Rank { value: 0 }
    }

    fn from_bytes(source: &[u8]) -> Self {
        Rank {
            value: u16::from_le_bytes(first_bytes(source)),
        }
    }
}

impl Label for Permit {
    const CODE: u8 = 1;

    ghost CODE = { 1 };

    const WIDTH: usize = 8;

    ghost WIDTH = { 8 };

    ghost below = { λ x y. contained 64 x.members y.members };

    ghost plain = { record { members = 0 } };

    ghost read = { λ bs. record { members = number_of (take 8 bs) } };

    ghost order = { record {
      reflexive = λ x. contained_refl 64 x.members;
      transitive = λ x y z. contained_trans 64 x.members y.members z.members;
    } };

    fn is_below(&self, other: &Self) -> bool {
        is_within(self.members, other.members)
    }

    fn unlabelled() -> Self {
        Permit { members: 0 }
    }

    fn from_bytes(source: &[u8]) -> Self {
        Permit {
            members: u64::from_le_bytes(first_bytes(source)),
        }
    }
}

// the first N bytes; a byte that is not there is 0
fn first_bytes<const N: usize>(source: &[u8]) -> [u8; N]
    ensures { (i : ℕ) → i < N → slice_index result i ≡ slice_index source.now i }
{
    let mut bytes = [0; N];
    write_first(&mut bytes, N, |i| cell_or(source, i, 0));
    bytes
}
