// The weak view of a system, with its silent closures and its diverging states computed once.
ghost use Rattle.std.specs.Prelude.{◌≡◌};
ghost use Rattle.systems.specs.Sets.{set_of};
ghost use Rattle.views.specs.Weak.{in_rows, overlap, view_moves, view_over, silent_rows, diverging, WeakView};
ghost use Rattle.views.specs.Bounds.{view_bounded};

use crate::closure::{closure, diverging_states, join, union_of};
use crate::sets::actions_below;
use systems::label::Label;
use systems::masks::{all_below, as_actions, contains, meets, set_where};
use systems::system::System;

// Its meaning is the view by what the two tables hold; `weak_view` computes them, once.
#[derive(Drop)]
pub struct Weak<S> {
    pub(crate) below: S,
    // for each state the set of the states that it comes to by silent moves; 64 rows for any count, as nothing here takes memory
    pub(crate) closure: [u64; 64],
    // the set of the states from which silent moves go on for ever
    pub(crate) diverging: u64,
}

// The weak view of a system: action 0 is silent.
pub fn weak_view<L: Label, S: System<L>>(below: S) -> Weak<S>
    ensures kept { result.below ≡ below }
    ensures rows { result.closure ≡ silent_rows (S.System.meaning below) }
    ensures set { result.diverging ≡ set_of 64 (diverging (S.System.meaning below)) }
    ensures view { WeakView (S.System.meaning below) (view_over (S.System.meaning result.below) result.closure result.diverging) }
{
    let closure = closure(&below);
    let diverging = diverging_states(&below, &closure);
    Weak {
        below,
        closure,
        diverging,
    }
}

impl<S> Weak<S> {
    // whether p moves by a, in the view, to a state that diverges
    fn diverges_after<L: Label>(&self, p: u8, a: u8) -> bool
    where
        S: System<L>,
        ensures { result ≡ overlap (set_of 64 (view_moves (S.System.meaning self.now.below) (in_rows self.now.closure) p a)) self.now.diverging }
    {
        meets(self.reach(p, a), self.diverging)
    }
}

impl<L: Label, S: System<L>> System<L> for Weak<S> {
    ghost meaning = { λ w. view_over (S.System.meaning w.below) w.closure w.diverging };

    ghost bounded = { λ s. view_bounded (S.System.meaning s.below) (S.System.bounded s.below) _ _ };

    fn states(&self) -> u8 {
        self.below.states()
    }

    fn actions(&self) -> u8 {
        self.below.actions()
    }

    fn start(&self) -> u8 {
        self.below.start()
    }

    fn reach(&self, p: u8, a: u8) -> u64 {
        let states = self.below.states();
        if p >= states || a >= self.below.actions() {
            return 0;
        }
        let silently = self.closure[p as usize];
        let reached = if a == 0 {
            silently
        } else {
            let onward = union_of(states, silently, |q| self.below.reach(q, a));
            join(&self.closure, states, onward)
        };
        reached & all_below(states)
    }

    fn open_on(&self, p: u8) -> u32 {
        if p >= self.below.states() {
            return 0;
        }
        let actions = self.below.actions();
        if contains(self.diverging, p) {
            return actions_below(actions);
        }
        as_actions(set_where(actions, |a| self.diverges_after::<L>(p, a)))
    }

    fn label(&self, p: u8) -> L {
        self.below.label(p)
    }
}
