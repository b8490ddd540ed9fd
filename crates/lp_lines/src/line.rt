ghost use Rattle.std.specs.Prelude.{◌≡◌, ◌≢◌, ◌<◌, pos, length, false, [], All, OnOk, IfOk, IfErr};
ghost use Rattle.lp_lines.specs.Numbers.{IsNumber, place_of};
ghost use Rattle.lp_lines.specs.inside.First.{first_line};
ghost use Rattle.lp_lines.specs.inside.Lines.{solved_number, rest_number, solved_unless, rest_unless, IsSolvedLine, FailsSolving, IsRestLine, FailsRest, IsNext};

use lin_rows::Lin;
use q128::{Q, TooWide};
use std::alloc::{AllocError, Global};
use std::marker::Model;

/// The numbers of an expression: a coefficient for each column, and then the constant.
#[derive(Drop)]
pub(crate) struct Line {
    numbers: Vec<Q>,
}

impl Model for Line {
    ghost use Rattle.std.specs.Prelude.{List};
    ghost use Rattle.q128.specs.Fraction.{Fraction};

    ghost Value = { List Fraction };

    ghost view = { λ l. l.numbers.items };
}

impl Line {
    /// A line without numbers. Takes no memory.
    pub(crate) fn empty(alloc: Global) -> Line
        ensures { result ≡ [] }
    {
        Line {
            numbers: Vec::new(alloc),
        }
    }

    /// The row itself, as an expression over so many variables.
    pub(crate) fn of_row(alloc: Global, lin: &Lin, variables: u32) -> Result<Line, AllocError>
        ensures line { IfOk result (λ l. l ≡ first_line variables lin.now) }
        ensures numbers { IfOk result (λ l. All IsNumber l) }
    {
        let mut numbers = Vec::new(alloc);
        for v in 0..variables {
            numbers.push(Q::whole(lin.get(v)))?;
        }
        numbers.push(Q::whole(lin.constant()))?;
        Ok(Line { numbers })
    }

    /// The number at a place.
    pub(crate) fn number(&self, place: usize) -> Q
        requires { place < length self.now }
        ensures { result ≡ place_of self.now place }
    {
        self.numbers[place]
    }

    /// Solves the expression for the number of a column.
    pub(crate) fn solve(&mut self, column: usize) -> Result<(), TooWide>
        requires within { column < length self.old }
        requires some { (place_of self.old column).num ≢ pos 0 }
        ensures ok { OnOk result (IsSolvedLine column self.old self.new) }
        ensures err { IfErr result (λ e. FailsSolving column self.old e) }
    {
        solve(&mut self.numbers, column)
    }

    /// Puts the solved expression in, unless the line stays as it is. A line whose number in the
    /// column is 0 has no use for it. `pivot` is the line that is solved, as it was before.
    pub(crate) fn put_in_unless(
        &mut self,
        stays: bool,
        column: usize,
        pivot: &Line,
    ) -> Result<(), TooWide>
        requires within { stays ≡ false → column < length self.old }
        requires same { stays ≡ false → length pivot.now ≡ length self.old }
        requires some { (place_of pivot.now column).num ≢ pos 0 }
        ensures ok { stays ≡ false → OnOk result (IsNext column pivot.now self.old self.new) }
        ensures err { IfErr result (λ e. FailsRest column pivot.now self.old e) }
        ensures changes { IfErr result (λ e. stays ≡ false) }
    {
        if stays || self.numbers[column].numerator() == 0 {
            return Ok(());
        }
        put_in(&mut self.numbers, column, pivot.numbers.as_slice())
    }
}

/// `0 - q / k`. A 0 needs no operation.
#[tactic(auto, unfolding(crate::specs::inside::Lines::solved_number))]
fn solved(q: Q, k: Q) -> Result<Q, TooWide>
    requires { k.num ≢ pos 0 }
    ensures { result ≡ solved_number k q }
{
    if q.numerator() == 0 {
        return Ok(q);
    }
    let share = q.div(k)?;
    Q::whole(0).sub(share)
}

/// `own - share * q`. A `q` of 0 needs no operation.
#[tactic(auto, unfolding(crate::specs::inside::Lines::rest_number))]
fn rest(own: Q, share: Q, q: Q) -> Result<Q, TooWide>
    ensures { result ≡ rest_number share own q }
{
    if q.numerator() == 0 {
        return Ok(own);
    }
    let product = share.mul(q)?;
    own.sub(product)
}

#[tactic(auto, unfolding(crate::specs::inside::Lines::solved_unless))]
fn solved_unless(stays: bool, q: Q, k: Q) -> Result<Q, TooWide>
    requires { k.num ≢ pos 0 }
    ensures { result ≡ solved_unless stays k q }
{
    if stays { Ok(q) } else { solved(q, k) }
}

#[tactic(auto, unfolding(crate::specs::inside::Lines::rest_unless))]
fn rest_unless(stays: bool, own: Q, share: Q, q: Q) -> Result<Q, TooWide>
    ensures { result ≡ rest_unless stays share own q }
{
    if stays { Ok(own) } else { rest(own, share, q) }
}

/// Solves the expression of a line for the number of a column.
fn solve(line: &mut Vec<Q>, column: usize) -> Result<(), TooWide>
    requires within { column < length line.old.items }
    requires some { (place_of line.old.items column).num ≢ pos 0 }
    ensures ok { OnOk result (IsSolvedLine column line.old.items line.new.items) }
    ensures err { IfErr result (λ e. FailsSolving column line.old.items e) }
{
    let k = line[column];
    let inverse = Q::whole(1).div(k)?;
    for p in 0..line.len() {
        line[p] = solved_unless(p == column, line[p], k)?;
    }
    line[column] = inverse;
    Ok(())
}

/// Puts the solved expression into that of another line. `pivot` is the line that is solved, as it
/// was before.
fn put_in(line: &mut Vec<Q>, column: usize, pivot: &[Q]) -> Result<(), TooWide>
    requires within { column < length line.old.items }
    requires same { length pivot.now ≡ length line.old.items }
    requires some { (place_of pivot.now column).num ≢ pos 0 }
    ensures ok { OnOk result (IsRestLine column pivot.now line.old.items line.new.items) }
    ensures err { IfErr result (λ e. FailsRest column pivot.now line.old.items e) }
{
    let share = line[column].div(pivot[column])?;
    for p in 0..line.len() {
        line[p] = rest_unless(p == column, line[p], share, pivot[p])?;
    }
    line[column] = share;
    Ok(())
}
