// The strikes that a round makes.
ghost use Rattle.std.specs.Prelude.{◌≡◌, ◌<◌};
ghost use Rattle.systems.specs.Sets.{count};
ghost use Rattle.preorder.specs.Strikes.{count_pairs};
ghost use Rattle.comparison.specs.Grid.{laid};
ghost use Rattle.comparison.specs.Search.{relation_of, row_filled, strike_for, strike_over, strikes_over, struck_over};
ghost use Rattle.comparison.specs.Sheet.{cells_of};

use crate::grid::Grid;
use crate::relation::Related;
use crate::strike::Strike;
use std::marker::PhantomData;
use systems::label::Label;
use systems::masks::contains;
use systems::system::System;

// round k of two systems, over the pairs that it calls related
#[derive(Drop)]
pub(crate) struct Round<'a, L, A, B> {
    pub(crate) first: &'a A,
    pub(crate) second: &'a B,
    pub(crate) k: u16,
    pub(crate) related: Related,
    pub(crate) labels: PhantomData<L>,
}

impl<L: Label, A: System<L>, B: System<L>> Round<'_, L, A, B> {
    // Strikes the pairs that are related and have a reason, and counts them.
    pub(crate) fn strike_rows(&self, sheet: &mut [Strike]) -> u32
        ensures struck { result ≡ count_pairs (A.System.meaning self.now.first.now).states (B.System.meaning self.now.second.now).states (struck_over (A.System.meaning self.now.first.now) (B.System.meaning self.now.second.now) (relation_of self.now.related.rows)) }
        ensures cells { sheet.new ≡ laid (A.System.meaning self.now.first.now).states (B.System.meaning self.now.second.now).states (strike_over (A.System.meaning self.now.first.now) (B.System.meaning self.now.second.now) (relation_of self.now.related.rows) self.now.k (cells_of (B.System.meaning self.now.second.now).states sheet.old)) sheet.old }
    {
        let mut struck = 0;
        for p in 0..self.first.states() {
            struck += self.strike_row(p, sheet);
        }
        struck
    }

    // the pairs of row p
    fn strike_row(&self, p: u8, sheet: &mut [Strike]) -> u32
        requires { p < 64 }
        ensures struck { result ≡ count (B.System.meaning self.now.second.now).states (struck_over (A.System.meaning self.now.first.now) (B.System.meaning self.now.second.now) (relation_of self.now.related.rows) p) }
        ensures cells { sheet.new ≡ row_filled (B.System.meaning self.now.second.now).states p (B.System.meaning self.now.second.now).states (strike_over (A.System.meaning self.now.first.now) (B.System.meaning self.now.second.now) (relation_of self.now.related.rows) self.now.k (cells_of (B.System.meaning self.now.second.now).states sheet.old) p) sheet.old }
    {
        let grid = Grid {
            height: self.first.states(),
            width: self.second.states(),
        };
        let mut struck = 0;
        for q in 0..grid.width {
            if let Some(strike) = self.strike_of(p, q) {
                grid.set(sheet, p, q, strike);
                struck += 1;
            }
        }
        struck
    }

    // the strike of a pair that is related and has a reason
    #[tactic(auto, unfolding(crate::specs::Search::relation_of, crate::specs::Search::strike_for, crate::specs::Search::strikes_over))]
    fn strike_of(&self, p: u8, q: u8) -> Option<Strike>
        requires { p < 64 }
        ensures { result ≡ strike_for self.now.k (strikes_over (A.System.meaning self.now.first.now) (B.System.meaning self.now.second.now) (relation_of self.now.related.rows) p q) }
    {
        if !contains(self.related.rows[usize::from(p)], q) {
            return None;
        }
        let reason = self.first_reason(p, q)?;
        Some(Strike {
            round: self.k,
            kind: reason.kind as u8,
            action: reason.action,
            target: reason.target,
        })
    }
}
