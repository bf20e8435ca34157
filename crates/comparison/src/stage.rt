// The three stages of a comparison. None can be copied: each call takes the comparison and gives it back.
ghost use Rattle.std.specs.Prelude.{◌≡◌};
ghost use Rattle.comparison.specs.Calls.{pairs};
ghost use Rattle.comparison.specs.History.{is_closed, rounds_of};

use crate::grid::Grid;

// the counts and the starts of a comparison's two systems
#[derive(Clone, Copy, PartialEq, Eq, Debug)]
pub struct Shape {
    pub first_states: u8,
    pub second_states: u8,
    pub actions: u8,
    pub first_start: u8,
    pub second_start: u8,
}

// an open comparison: how many rounds it has done, and whether the last one was still
#[derive(Debug, Drop)]
pub struct Open {
    pub(crate) shape: Shape,
    pub(crate) rounds: u16,
    pub(crate) still: bool,
}

// A comparison that was closed as yes. It is a type of its own, though like the next, so that a call for a no cannot be handed it.
#[derive(Drop)]
pub struct Yes {
    pub(crate) shape: Shape,
    pub(crate) rounds: u16,
}

// a comparison that was closed as no
#[derive(Drop)]
pub struct No {
    pub(crate) shape: Shape,
    pub(crate) rounds: u16,
}

#[derive(Drop)]
pub enum Verdict {
    Yes(Yes),
    No(No),
}

impl Shape {
    // a cell for each pair of a first state and a second state
    pub fn grid(&self) -> Grid
        ensures { result ≡ record { height = self.now.first_states; width = self.now.second_states } }
    {
        Grid {
            height: self.first_states,
            width: self.second_states,
        }
    }

    // how many pairs there are
    pub fn pairs(&self) -> usize
        ensures { result ≡ pairs self.now }
    {
        self.grid().len()
    }
}

impl Open {
    pub fn rounds(&self) -> u16
        ensures { result ≡ self.now.rounds }
    {
        self.rounds
    }
}

impl Verdict {
    pub fn rounds(&self) -> u16
        ensures { result ≡ rounds_of (is_closed self.now) }
    {
        match self {
            Verdict::Yes(yes) => yes.rounds,
            Verdict::No(no) => no.rounds,
        }
    }
}
