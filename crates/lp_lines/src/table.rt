ghost use Rattle.std.specs.Prelude.{ℕ, ◌≡◌, ◌≢◌, ◌+◌, ◌<◌, ◌^◌, suc, pos, List, [], length, slice_index_or, OnOk, IfOk, IfErr};
ghost use Rattle.std.specs.List.{range_with_len};
ghost use Rattle.lin_rows.specs.Linear.{Linear};
ghost use Rattle.lin_rows.specs.Rows.{lins};
ghost use Rattle.solver_paths.specs.Choices.{variable_count, first_choice};
ghost use Rattle.lp_lines.specs.Numbers.{place_of};
ghost use Rattle.lp_lines.specs.Tables.{line_at, number_in, number_out, IsTableau, HasPivotAt, IsPivoted, IsWidePivot};
ghost use Rattle.lp_lines.specs.inside.Lines.{FailsRest, IsNext};
ghost use Rattle.lp_lines.specs.inside.Moves.{IsPivotedAt, FailsPivotAt, PutInAll, FailsPutting};
ghost use Rattle.lp_lines.specs.inside.First.{first_lines, AreNumbers};

use crate::line::Line;
use lin_rows::{Row, longest};
use q128::{Q, TooWide};
use std::alloc::{AllocError, Global};
use std::marker::Model;
use std::mem;

/// The numbers of a choice's dictionary, a line for each number outside the choice.
#[derive(Drop)]
pub struct Table {
    chosen: Vec<usize>,
    outside: Vec<usize>,
    lines: Vec<Line>,
}

impl Model for Table {
    ghost use Rattle.lp_lines.specs.Tables.{Tableau};

    ghost Value = { Tableau };

    ghost view = { λ t. record { chosen = t.chosen.items; outside = t.outside.items; lines = t.lines.items } };
}

/// As many numbers from the first one on.
fn numbers(alloc: Global, first: usize, count: usize) -> Result<Vec<usize>, AllocError>
    requires { first + count < 2 ^ 64 }
    ensures { IfOk result (λ ns. ns.items ≡ range_with_len first count) }
{
    let mut numbers = Vec::new(alloc);
    for i in 0..count {
        numbers.push(first + i)?;
    }
    Ok(numbers)
}

/// A line for each row.
fn first_lines(alloc: Global, rows: &[Row], variables: u32) -> Result<Vec<Line>, AllocError>
    ensures lines { IfOk result (λ ls. ls.items ≡ first_lines variables (lins rows.now)) }
    ensures numbers { IfOk result (λ ls. AreNumbers ls.items) }
{
    let mut lines = Vec::new(alloc);
    for row in rows {
        lines.push(Line::of_row(alloc, &row.lin, variables)?)?;
    }
    Ok(lines)
}

/// Puts the solved expression into each line but that of the pivot.
fn put_in_all(
    lines: &mut Vec<Line>,
    line: usize,
    column: usize,
    pivot: &Line,
) -> Result<(), TooWide>
    requires within { column < length pivot.now }
    requires widths { (h : ℕ) → h < length lines.old.items → h ≢ line → length (slice_index_or lines.old.items h []) ≡ length pivot.now }
    requires some { (place_of pivot.now column).num ≢ pos 0 }
    ensures ok { OnOk result (PutInAll line column pivot.now lines.old.items lines.new.items) }
    ensures err { IfErr result (λ e. FailsPutting line column pivot.now lines.old.items e) }
{
    for h in 0..lines.len() {
        lines[h].put_in_unless(h == line, column, pivot)?;
    }
    Ok(())
}

impl Table {
    /// The table of the first choice: the rows themselves, as expressions over the variables.
    pub fn new(alloc: Global, rows: &[Row]) -> Result<Table, AllocError>
        ensures table { IfOk result (IsTableau (lins rows.now)) }
        ensures chosen { IfOk result (λ t. t.chosen ≡ first_choice (lins rows.now)) }
        ensures outside { IfOk result (λ t. t.outside ≡ range_with_len (variable_count (lins rows.now)) (length rows.now)) }
    {
        let variables = longest(rows);
        let width = variables as usize;
        Ok(Table {
            chosen: numbers(alloc, 0, width)?,
            outside: numbers(alloc, width, rows.len())?,
            lines: first_lines(alloc, rows, variables)?,
        })
    }

    /// How many numbers are chosen.
    pub fn columns(&self) -> usize
        ensures { result ≡ length self.now.chosen }
    {
        self.chosen.len()
    }

    /// How many numbers stand outside.
    pub fn lines(&self) -> usize
        ensures { result ≡ length self.now.outside }
    {
        self.outside.len()
    }

    /// The number of a column.
    pub fn chosen(&self, column: usize) -> usize
        requires { column < length self.now.chosen }
        ensures { result ≡ number_in self.now column }
    {
        self.chosen[column]
    }

    /// The number of a line.
    pub fn outside(&self, line: usize) -> usize
        requires { line < length self.now.outside }
        ensures { result ≡ number_out self.now line }
    {
        self.outside[line]
    }

    /// The number at a place of a line: a coefficient, or the constant behind the last column.
    pub fn number(&self, line: usize, place: usize) -> Q
        requires line { line < length self.now.lines }
        requires place { place < length (line_at self.now line) }
        ensures { result ≡ place_of (line_at self.now line) place }
    {
        self.lines[line].number(place)
    }

    /// The pivot at a line and a column: the number of the line is chosen, and that of the column
    /// stands outside. After an operation that is too wide the table is of no use.
    pub fn pivot(&mut self, alloc: Global, line: usize, column: usize) -> Result<(), TooWide>
        requires { HasPivotAt line column self.old }
        // The table is the dictionary of the choice after it, and no number of the pivot is too wide.
        ensures kept { (rows : List Linear) → IsTableau rows self.old → OnOk result (IsPivoted rows line column self.old self.new) }
        // Or an operation of the pivot is too wide.
        ensures wide { (rows : List Linear) → IsTableau rows self.old → IfErr result (λ e. IsWidePivot rows line column self.old e) }
    {
        self.pivot_at(alloc, line, column)
    }

    /// The pivot at a line and a column: the number of the line is chosen, and that of the column
    /// stands outside. After an operation that is too wide the table is of no use.
    fn pivot_at(&mut self, alloc: Global, line: usize, column: usize) -> Result<(), TooWide>
        requires { HasPivotAt line column self.old }
        ensures ok { OnOk result (IsPivotedAt line column self.old self.new) }
        ensures err { IfErr result (λ e. FailsPivotAt line column self.old e) }
    {
        let mut pivot = mem::replace(&mut self.lines[line], Line::empty(alloc));
        put_in_all(&mut self.lines, line, column, &pivot)?;
        pivot.solve(column)?;
        self.lines[line] = pivot;
        let entering = self.outside[line];
        self.outside[line] = self.chosen[column];
        self.chosen[column] = entering;
        Ok(())
    }
}
