ghost use Rattle.std.specs.Prelude.{◌≡◌, ◌≤◌, ◌↔◌, ℕ, pos, ◌≤ℤ◌, List, length, IsTrue, IfOk, Ok, Err, true};
ghost use Rattle.q128.specs.Fraction.{Fraction, IsSame, IsAtMost};
ghost use Rattle.lin_rows.specs.Points.{HoldsAt, RowsHoldAt};
ghost use Rattle.lin_rows.specs.Proving.{AreRowNumbers, NotNegative, IsSum, Reaches};
ghost use Rattle.lin_rows.specs.Combining.{zeros, rows_added, IsUnder};
ghost use Rattle.lin_rows.specs.Rows.{lins, longest_of, HaveRoom};
ghost use Rattle.lin_rows.specs.Gives.{Gives};

use crate::comb::Comb;
use crate::fault::CombFault;
use crate::lin::Lin;
use crate::mults::Mults;
use crate::row::Row;
use q128::{Q, TooWide};
use std::alloc::Global;

/// How many places the longest list of coefficients takes.
pub fn longest(rows: &[Row]) -> u32
    ensures value { result ≡ longest_of (lins rows.now) }
    ensures room { HaveRoom result (lins rows.now) }
{
    let mut longest = 0;
    for row in rows {
        longest = row.lin.len().max(longest);
    }
    longest
}

/// The sum of the rows times their factors, exactly.
pub fn combine(alloc: Global, rows: &[Row], m: &Mults) -> Result<Comb, CombFault>
    requires { AreRowNumbers (length rows.now) m.now }
    ensures exact { IfOk result (λ s. IsSum (lins rows.now) m.now s.coefficients s.constant) }
    // The sum, or the fault, exactly by the rule, unless memory runs out.
    ensures answer { Gives result (rows_added (lins rows.now) (zeros (longest_of (lins rows.now))) m.now) }
{
    let mut sum = Comb::room(alloc, longest(rows))?;
    sum.add_rows(rows, m.as_slice())?;
    Ok(sum)
}

/// Whether no factor is negative.
fn has_no_negative(m: &[(u32, Q)]) -> bool
    ensures { IsTrue result ↔ NotNegative m.now }
{
    m.iter().all(|p| p.1.numerator() >= 0)
}

/// Whether no factor is negative, and the sum has the goal's coefficients and at most its constant.
fn is_reached(m: &Mults, sum: &Comb, goal: &Lin) -> bool
    requires { length goal.now.coefficients ≤ length sum.now.coefficients }
    ensures { IsTrue result ↔ (NotNegative m.now × IsUnder sum.now goal.now) }
{
    has_no_negative(m.as_slice()) && sum.is_under(goal)
}

/// Whether the multipliers aren't negative and the sum of the rows times them has the goal's
/// coefficients and at most its constant. The sum is made in the scratch, which may hold anything
/// before and afterwards. Takes no memory.
pub fn reaches(rows: &[Row], m: &Mults, goal: &Row, scratch: &mut Comb) -> Result<bool, TooWide>
    requires numbers { AreRowNumbers (length rows.now) m.now }
    requires room { HaveRoom (length scratch.old.coefficients) (lins rows.now) }
    requires goal_room { length goal.now.lin.coefficients ≤ length scratch.old.coefficients }
    ensures exact { IfOk result (λ b. IsTrue b ↔ Reaches (lins rows.now) m.now goal.now.lin) }
    // The fault comes exactly where a number of the rule leaves `i128`.
    ensures wide { (e : TooWide) → (result ≡ Err e) ↔ (rows_added (lins rows.now) (zeros (length scratch.old.coefficients)) m.now ≡ Err e) }
    // Where it says yes, the goal holds wherever the rows hold.
    ensures sound { result ≡ Ok true → (t : Fraction) (v : List Fraction) → pos 0 ≤ℤ t.num → RowsHoldAt (lins rows.now) t v → HoldsAt goal.now.lin t v }
    ensures places { length scratch.new.coefficients ≡ length scratch.old.coefficients }
{
    scratch.clear();
    scratch.add_rows(rows, m.as_slice())?;
    Ok(is_reached(m, scratch, &goal.lin))
}
