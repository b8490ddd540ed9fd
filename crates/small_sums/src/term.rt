ghost use Rattle.std.specs.Prelude.{◌≡◌, length, OnOk, IfErr, Ok, Err};
ghost use Rattle.lin_rows.specs.Combining.{rows_added};
ghost use Rattle.lin_rows.specs.Proving.{AreRowNumbers};
ghost use Rattle.lin_rows.specs.Rows.{lins, HaveRoom};
ghost use Rattle.small_sums.specs.Terms.{factor_of, term_of, multipliers_of};

use lin_rows::{Comb, Row};
use q128::{Q, TooWide};

/// A row by its number, counted from 1, once or twice.
#[derive(Clone, Copy)]
pub struct Term {
    pub number: u32,
    pub twice: bool,
}

/// The rows of a small sum, in the order of their numbers.
#[derive(Clone, Copy)]
pub enum Terms {
    Zero,
    One(Term),
    Two(Term, Term),
}

/// A small sum: its rows, and its constant.
#[derive(Clone, Copy)]
pub struct Sum {
    pub terms: Terms,
    pub constant: i128,
}

impl Term {
    /// How often the row is taken.
    pub fn factor(self) -> Q
        ensures { result ≡ factor_of self.twice }
    {
        Q::whole(if self.twice { 2 } else { 1 })
    }

    /// The row's number with its factor.
    pub fn multiplier(self) -> (u32, Q)
        ensures { result ≡ term_of self }
    {
        (self.number, self.factor())
    }
}

impl Terms {
    /// Adds the rows to a sum, one after another.
    pub(crate) fn add_to(self, sum: &mut Comb, rows: &[Row]) -> Result<(), TooWide>
        requires numbers { AreRowNumbers (length rows.now) (multipliers_of self) }
        requires room { HaveRoom (length sum.old.coefficients) (lins rows.now) }
        ensures ok { OnOk result (rows_added (lins rows.now) sum.old (multipliers_of self) ≡ Ok sum.new) }
        ensures err { IfErr result (λ e. rows_added (lins rows.now) sum.old (multipliers_of self) ≡ Err e) }
        ensures places { length sum.new.coefficients ≡ length sum.old.coefficients }
    {
        match self {
            Terms::Zero => sum.add_rows(rows, &[]),
            Terms::One(last) => sum.add_rows(rows, &[last.multiplier()]),
            Terms::Two(first, last) => sum.add_rows(rows, &[first.multiplier(), last.multiplier()]),
        }
    }
}
