// Tabulating a system onto lent sheets, and the system that sheets stand for: every question is one look-up.
ghost use Rattle.std.specs.Prelude.{◌≡◌, length};
ghost use Rattle.views.specs.Tabled.{room, Tabulates, by_sheets, Over};
ghost use Rattle.std.proofs.Common.{rules};

use crate::refusal::Refusal;
use crate::sets::actions_below;
use crate::sheets::Shape;
use systems::label::Label;
use systems::masks::all_below;
use systems::sheet::{cell_or, write_first};
use systems::system::System;

fn has_room<L>(shape: &Shape, moves: &[u64], marks: &[u32], labels: &[L]) -> bool
    ensures { result ≡ room shape.now.states shape.now.actions (length moves.now) (length marks.now) (length labels.now) }
{
    let states = shape.states as usize;
    states * shape.actions as usize <= moves.len()
        && (states <= marks.len() && states <= labels.len())
}

// Writes the tables of a system onto the sheets, and answers its counts and start. Cells past those needed stay. The sheets are lent and
// three, each with cells of its own type.
pub fn tabulate<L: Label, S: System<L>>(
    system: &S,
    moves: &mut [u64],
    marks: &mut [u32],
    labels: &mut [L],
) -> Result<Shape, Refusal>
    ensures { Tabulates (S.System.meaning system.now) L.Label.plain moves.old marks.old labels.old result moves.new marks.new labels.new }
{
    let shape = Shape {
        states: system.states(),
        actions: system.actions(),
        start: system.start(),
    };
    if !has_room(&shape, moves, marks, labels) {
        return Err(Refusal::SheetShort);
    }
    let states = shape.states as usize;
    let actions = shape.actions as usize;
    write_first(moves, states * actions, |k| {
        system.reach((k / actions) as u8, (k % actions) as u8)
    });
    write_first(marks, states, |p| system.open_on(p as u8));
    write_first(labels, states, |p| system.label(p as u8));
    Ok(shape)
}

// The system that a shape and three lent sheets stand for: a set of states for each state and action, a set of actions for
// each state, and a label for each state.
#[derive(Drop)]
pub struct Tabled<'a, L> {
    pub(crate) shape: Shape,
    pub(crate) moves: &'a [u64],
    pub(crate) marks: &'a [u32],
    pub(crate) labels: &'a [L],
}

// The system that three lent sheets stand for, whatever they hold: cells that are not there count as empty.
pub fn over<'a, L: Label>(
    shape: Shape,
    moves: &'a [u64],
    marks: &'a [u32],
    labels: &'a [L],
) -> Tabled<'a, L>
    ensures { Over L.Label.plain shape moves.now marks.now labels.now result }
{
    Tabled {
        shape,
        moves,
        marks,
        labels,
    }
}

impl<'a, L: Label> System<L> for Tabled<'a, L> {
    ghost meaning = { λ t. by_sheets L.Label.plain t.shape t.moves.now t.marks.now t.labels.now };

    ghost bounded = { Prim.search rules };

    fn states(&self) -> u8 {
        self.shape.states
    }

    fn actions(&self) -> u8 {
        self.shape.actions
    }

    fn start(&self) -> u8 {
        self.shape.start
    }

    fn reach(&self, p: u8, a: u8) -> u64 {
        if p >= self.shape.states || a >= self.shape.actions {
            return 0;
        }
        let cell = p as usize * self.shape.actions as usize + a as usize;
        cell_or(self.moves, cell, 0) & all_below(self.shape.states)
    }

    fn open_on(&self, p: u8) -> u32 {
        if p >= self.shape.states {
            return 0;
        }
        cell_or(self.marks, p as usize, 0) & actions_below(self.shape.actions)
    }

    fn label(&self, p: u8) -> L {
        let state = if p < self.shape.states {
            p
        } else {
            self.shape.start
        };
        cell_or(self.labels, state as usize, L::unlabelled())
    }
}
