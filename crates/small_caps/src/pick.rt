//! The rows of a sum of at most three, by their places.

ghost use Rattle.std.specs.Prelude.{◌≡◌, ◌↔◌, ◌*◌, ◌<◌, ◌^◌, length, IsTrue, OnOk, IfOk, IfErr, Ok, Err};
ghost use Rattle.lin_rows.specs.Combining.{rows_added};
ghost use Rattle.lin_rows.specs.Rows.{lins, HaveRoom};
ghost use Rattle.small_cert.specs.Multiples.{times_of};
ghost use Rattle.small_cert.specs.Small.{AreShared};
ghost use Rattle.small_caps.specs.inside.Picks.{multipliers_in, IsFront, IsBehind};

use lin_rows::{Comb, Mults, Row};
use q128::TooWide;
use small_cert::{Multiple, push_share};
use small_sums::term_of;
use std::alloc::{AllocError, Global};

/// The places of the rows of a sum but the last, in the order of their rows.
#[derive(Clone, Copy)]
pub enum Front {
    Zero,
    One(usize),
    Two(usize, usize),
}

/// The places of the rows of a sum.
#[derive(Clone, Copy)]
pub struct Pick {
    pub front: Front,
    pub last: usize,
}

impl Front {
    /// Whether the row of the place is behind these.
    pub fn is_before(self, last: usize) -> bool
        ensures { IsTrue result ↔ IsBehind self last }
    {
        match self {
            Front::Zero => true,
            Front::One(a) => a / 2 < last / 2,
            Front::Two(_, b) => b / 2 < last / 2,
        }
    }
}

impl Pick {
    /// Adds the rows to a sum, one after another.
    pub fn add_to(self, sum: &mut Comb, rows: &[Row]) -> Result<(), TooWide>
        requires size { length rows.now < 2 ^ 32 }
        requires front { IsFront (2 * length rows.now) self.front }
        requires last { self.last < 2 * length rows.now }
        requires room { HaveRoom (length sum.old.coefficients) (lins rows.now) }
        ensures ok { OnOk result (rows_added (lins rows.now) sum.old (multipliers_in self.front self.last) ≡ Ok sum.new) }
        ensures err { IfErr result (λ e. rows_added (lins rows.now) sum.old (multipliers_in self.front self.last) ≡ Err e) }
        ensures places { length sum.new.coefficients ≡ length sum.old.coefficients }
    {
        let last = term_of(self.last).multiplier();
        match self.front {
            Front::Zero => sum.add_rows(rows, &[last]),
            Front::One(a) => sum.add_rows(rows, &[term_of(a).multiplier(), last]),
            Front::Two(a, b) => {
                sum.add_rows(
                    rows,
                    &[term_of(a).multiplier(), term_of(b).multiplier(), last],
                )
            }
        }
    }

    /// Multipliers of an inequality, where the rows are those of a multiple of it.
    pub fn mults(self, alloc: Global, multiple: Multiple) -> Result<Mults, AllocError>
        requires front { IsFront 8589934590 self.front }
        requires last { self.last < 8589934590 }
        ensures { IfOk result (λ n. AreShared n (multipliers_in self.front self.last) (times_of multiple)) }
    {
        let mut mults = Mults::new(alloc);
        match self.front {
            Front::Zero => {}
            Front::One(a) => push_share(&mut mults, term_of(a), multiple)?,
            Front::Two(a, b) => {
                push_share(&mut mults, term_of(a), multiple)?;
                push_share(&mut mults, term_of(b), multiple)?;
            }
        }
        push_share(&mut mults, term_of(self.last), multiple)?;
        Ok(mults)
    }
}
