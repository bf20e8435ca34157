// Why a round strikes a pair: the first kind of reason, then the lowest action, then the lowest target.
ghost use Rattle.std.specs.Prelude.{◌≡◌, ℕ, Option, not, ◌&&◌, bit_or};
ghost use Rattle.std.specs.Option.{option_map};
ghost use Rattle.systems.specs.Sets.{has, set_of};
ghost use Rattle.preorder.specs.Reason.{back_reason, first, forth_reason, mark_reason, reason};
ghost use Rattle.comparison.specs.Search.{found, lowest, relation_of, unmatched};

use crate::moves::unanswered;
use crate::striking::Round;
use systems::label::Label;
use systems::masks::contains;
use systems::system::System;

#[derive(Clone, Copy)]
pub(crate) enum Kind {
    // a move of the first system that the second does not answer
    Forth = 1,
    // an action that the second state is open on and the first is not
    Mark = 2,
    // a move of the second system that the first does not answer, where both are closed
    Back = 3,
}

#[derive(Clone, Copy)]
pub(crate) struct Reason {
    pub(crate) kind: Kind,
    pub(crate) action: u8,
    pub(crate) target: u8,
}

impl<L: Label, A: System<L>, B: System<L>> Round<'_, L, A, B> {
    #[tactic(auto, unfolding(preorder::specs::Reason::reason, preorder::specs::Reason::or_else))]
    pub(crate) fn first_reason(&self, p: u8, q: u8) -> Option<Reason>
        ensures { found result ≡ reason (A.System.meaning self.now.first.now) (B.System.meaning self.now.second.now) (relation_of self.now.related.rows) p q }
    {
        // not by or_else: tried, and the proof does not close, since nothing is inferred of what its closures ensure here
        if let Some(reason) = self.forth(p, q) {
            return Some(reason);
        }
        if let Some(reason) = self.mark(p, q) {
            return Some(reason);
        }
        self.back(p, q)
    }

    fn forth(&self, p: u8, q: u8) -> Option<Reason>
        ensures { found result ≡ forth_reason (A.System.meaning self.now.first.now) (B.System.meaning self.now.second.now) (relation_of self.now.related.rows) p q }
    {
        let rows = &self.related.rows;
        first_of(Kind::Forth, self.first.actions(), |a| {
            unanswered(self.first, self.second, rows, p, q, a)
        })
    }

    fn mark(&self, p: u8, q: u8) -> Option<Reason>
        ensures { found result ≡ mark_reason (A.System.meaning self.now.first.now) (B.System.meaning self.now.second.now) (relation_of self.now.related.rows) p q }
    {
        let first_open = self.first.open_on(p);
        let second_open = self.second.open_on(q);
        first_of(Kind::Mark, self.first.actions(), |a| {
            opens(first_open, second_open, a).then_some(0)
        })
    }

    fn back(&self, p: u8, q: u8) -> Option<Reason>
        ensures { found result ≡ back_reason (A.System.meaning self.now.first.now) (B.System.meaning self.now.second.now) (relation_of self.now.related.rows) p q }
    {
        let open = self.first.open_on(p) | self.second.open_on(q);
        first_of(
            Kind::Back,
            self.first.actions(),
            |a| self.unmatched(open, p, q, a),
        )
    }

    // the lowest target that q reaches by an action that neither is open on and that p does not answer
    fn unmatched(&self, open: u32, p: u8, q: u8, a: u8) -> Option<u8>
        requires { «open» ≡ bit_or (set_of 32 ((A.System.meaning self.now.first.now).marks p)) (set_of 32 ((B.System.meaning self.now.second.now).marks q)) }
        ensures { result ≡ lowest (B.System.meaning self.now.second.now).states (unmatched (A.System.meaning self.now.first.now) (B.System.meaning self.now.second.now) (relation_of self.now.related.rows) p q a) }
    {
        if contains(u64::from(open), a) {
            return None;
        }
        unanswered(self.second, self.first, &self.related.columns, q, p, a)
    }
}

// The reason by the lowest action that has a target, whichever function T gives the targets.
fn first_of<F: Fn(u8) -> Option<u8>>(kind: Kind, actions: u8, target: F) -> Option<Reason>
    requires { F.IsAlwaysCallable target }
    ensures { (T : ℕ → Option ℕ) → ((a : ℕ) (o : Option ℕ) → F.post target a o → o ≡ T a) → result ≡ first actions (λ a. option_map (λ t. record { «kind» = kind; action = a; target = t }) (T a)) }
{
    (0..actions).find_map(|action| {
        target(action).map(|target| Reason {
            kind,
            action,
            target,
        })
    })
}

// whether the second is open on an action that the first is closed on
fn opens(first_open: u32, second_open: u32, a: u8) -> bool
    ensures { result ≡ (not (has first_open a) && has second_open a) }
{
    !contains(u64::from(first_open), a) && contains(u64::from(second_open), a)
}
