// The test of a move, for both sides and every two systems.
ghost use Rattle.std.specs.Prelude.{◌≡◌, ℕ, ◌<◌, Bool, ◌&&◌, length, ◌==◌, bit_and};
ghost use Rattle.systems.specs.Sets.{has};
ghost use Rattle.preorder.specs.Reason.{unanswered};
ghost use Rattle.comparison.specs.Search.{lowest, relation_of};

use systems::label::Label;
use systems::masks::contains;
use systems::system::System;

// The lowest target that the mover reaches from p by a and the other does not answer from q.
pub(crate) fn unanswered<L: Label, M: System<L>, O: System<L>>(
    mover: &M,
    other: &O,
    related: &[u64],
    p: u8,
    q: u8,
    a: u8,
) -> Option<u8>
    requires { length related.now ≡ 64 }
    ensures { result ≡ lowest (M.System.meaning mover.now).states (unanswered (M.System.meaning mover.now) (O.System.meaning other.now) (relation_of related.now) p q a) }
{
    let reached = mover.reach(p, a);
    let answers = other.reach(q, a);
    lowest_where(mover.states(), |t| {
        is_lost(reached, related[usize::from(t)], answers, t)
    })
}

// The lowest number below n that passes the test, whichever test T it is that the closure answers. By a loop of its own: through `find` a
// round takes 1.4 times as long.
fn lowest_where<F: Fn(u8) -> bool>(n: u8, test: F) -> Option<u8>
    requires { (i : ℕ) → i < n → F.pre test i }
    ensures { (T : ℕ → Bool) → ((i : ℕ) (b : Bool) → i < n → F.post test i b → b ≡ T i) → result ≡ lowest n T }
{
    for i in 0..n {
        if test(i) {
            return Some(i);
        }
    }
    None
}

// whether a target is reached and none of the states related to it is an answer
fn is_lost(reached: u64, related: u64, answers: u64, t: u8) -> bool
    ensures { result ≡ (has reached t && bit_and related answers == 0) }
{
    contains(reached, t) && related & answers == 0
}
