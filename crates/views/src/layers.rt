// A layer: the system below it with other marks. The open layer sets every mark, the closed layer none.
ghost use Rattle.std.specs.Prelude.{◌≡◌, ℕ, ◌<◌, Bool, true, false};
ghost use Rattle.systems.specs.Sets.{set_of};
ghost use Rattle.views.specs.Layers.{marked, present};
ghost use Rattle.views.specs.Bounds.{marked_bounded, present_within};
ghost use Rattle.std.proofs.Common.{rules};

use crate::sets::actions_below;
use std::marker::PhantomData;
use systems::label::Label;
use systems::system::System;

// Which marks a layer sets in a system, by its counts.
pub trait Marking {
    // whether state p is open on action a
    ghost is_open: { ℕ → ℕ → ℕ → ℕ → Bool };

    // the set of the actions that p is open on
    fn open_on(states: u8, actions: u8, p: u8) -> u32
        ensures { result ≡ set_of 32 (is_open states actions p) };

    ghost within: { (states actions p a : ℕ) → is_open states actions p a ≡ true → (p < states) × (a < actions) };
}

// Every present state is open on every present action.
#[derive(Clone, Copy)]
pub struct EveryMark;

// No state is open on any action.
#[derive(Clone, Copy)]
pub struct NoMark;

impl Marking for EveryMark {
    ghost is_open = { present };

    ghost within = { present_within };

    fn open_on(states: u8, actions: u8, p: u8) -> u32 {
        if p < states {
            actions_below(actions)
        } else {
            0
        }
    }
}

impl Marking for NoMark {
    ghost is_open = { λ states actions p a. false };

    ghost within = { Prim.search rules };

    fn open_on(_states: u8, _actions: u8, _p: u8) -> u32 {
        0
    }
}

// Both fields are public, so that a layer can stand in a constant, which may call no function.
#[derive(Drop)]
pub struct Layer<S, M> {
    pub below: S,
    pub marking: PhantomData<M>,
}

pub type AllOpen<S> = Layer<S, EveryMark>;

pub type AllClosed<S> = Layer<S, NoMark>;

impl<S, M> Layer<S, M> {
    pub fn over(below: S) -> Self
        ensures { result.below ≡ below }
    {
        Layer {
            below,
            marking: PhantomData,
        }
    }
}

impl<L: Label, S: System<L>, M: Marking> System<L> for Layer<S, M> {
    ghost meaning = { λ s. let m = S.System.meaning s.below in marked m (M.is_open m.states m.actions) };

    ghost bounded = { λ s. let m = S.System.meaning s.below in marked_bounded m (S.System.bounded s.below) _ (M.within m.states m.actions) };

    fn states(&self) -> u8 {
        self.below.states()
    }

    fn actions(&self) -> u8 {
        self.below.actions()
    }

    fn start(&self) -> u8 {
        self.below.start()
    }

    fn reach(&self, p: u8, a: u8) -> u64 {
        self.below.reach(p, a)
    }

    fn open_on(&self, p: u8) -> u32 {
        M::open_on(self.below.states(), self.below.actions(), p)
    }

    fn label(&self, p: u8) -> L {
        self.below.label(p)
    }
}
