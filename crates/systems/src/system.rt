// The interface of a system: what it means, and the six questions that give the meaning's own values.
ghost use Rattle.std.specs.Prelude.{◌≡◌};
ghost use Rattle.systems.specs.Meaning.{Meaning, Bounded};
ghost use Rattle.systems.specs.Sets.{set_of};

use crate::label::Label;

// No question is refused: of an absent state or action the sets are empty, and an absent state has the start state's label.
pub trait System<L: Label> {
    ghost meaning: { Self → Meaning L };

    fn states(&self) -> u8
        ensures { result ≡ (meaning self.now).states };

    fn actions(&self) -> u8
        ensures { result ≡ (meaning self.now).actions };

    fn start(&self) -> u8
        ensures { result ≡ (meaning self.now).start };

    // the set of the states that p reaches by a
    fn reach(&self, p: u8, a: u8) -> u64
        ensures { result ≡ set_of 64 ((meaning self.now).moves p a) };

    // the set of the actions that p is open on
    fn open_on(&self, p: u8) -> u32
        ensures { result ≡ set_of 32 ((meaning self.now).marks p) };

    fn label(&self, p: u8) -> L
        ensures { result ≡ (meaning self.now).label p };

    ghost bounded: { (s : Self) → Bounded (meaning s) };
}
