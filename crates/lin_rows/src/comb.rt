ghost use Rattle.std.specs.Prelude.{◌≡◌, ◌==◌, ◌≤◌, ◌↔◌, IsTrue, All, [], length, replicate, slice_index_or, pos, OnOk, IfOk, IfErr, Ok, Err};
ghost use Rattle.q128.specs.Fraction.{whole};
ghost use Rattle.lin_rows.specs.Combining.{zeros, places_added, row_added, rows_added, HasCoefficients, IsUnder};
ghost use Rattle.lin_rows.specs.Proving.{AreRowNumbers};
ghost use Rattle.lin_rows.specs.Rows.{lins, HaveRoom};

use crate::lin::Lin;
use crate::row::Row;
use crate::term::{add_term, is_at_most, is_same};
use q128::{Q, TooWide};
use std::alloc::{AllocError, Global};
use std::marker::Model;

/// A sum of rows: a fraction for each variable, and the constant.
#[derive(Debug, Drop)]
pub struct Comb {
    places: Vec<Q>,
    constant: Q,
}

impl Model for Comb {
    ghost use Rattle.std.specs.Prelude.{◌<◌, ◌^◌, length};
    ghost use Rattle.lin_rows.specs.Combining.{Combination};

    ghost Value = { Combination };

    ghost view = { λ s. record { coefficients = s.places.items; constant = s.constant } };

    ghost invariant = { λ s. length s.places.items < 2 ^ 32 };
}

impl Comb {
    /// No row yet, with a place for so many variables.
    pub fn room(alloc: Global, variables: u32) -> Result<Comb, AllocError>
        ensures { IfOk result (λ s. s ≡ zeros variables) }
    {
        Ok(Comb {
            places: vec![in alloc; Q::whole(0); variables as usize]?,
            constant: Q::whole(0),
        })
    }

    /// The fraction of a variable, 0 past the places.
    pub fn get(&self, v: u32) -> Q
        ensures { result ≡ slice_index_or self.now.coefficients v (whole (pos 0)) }
    {
        let v = v as usize;
        if v < self.places.len() {
            self.places[v]
        } else {
            Q::whole(0)
        }
    }

    /// The constant.
    pub fn constant(&self) -> Q
        ensures { result ≡ self.now.constant }
    {
        self.constant
    }

    /// How many places there are.
    pub fn len(&self) -> u32
        ensures { result ≡ length self.now.coefficients }
    {
        self.places.len() as u32
    }

    /// Whether there is no place.
    pub fn is_empty(&self) -> bool
        ensures { result ≡ (length self.now.coefficients == 0) }
    {
        self.places.is_empty()
    }

    /// Whether each variable of the rows has a place.
    pub fn has_room(&self, rows: &[Row]) -> bool
        ensures { IsTrue result ↔ HaveRoom (length self.now.coefficients) (lins rows.now) }
    {
        have_room(self.len(), rows)
    }

    /// Takes all rows out. The places stay.
    pub fn clear(&mut self)
        ensures { self.new ≡ zeros (length self.old.coefficients) }
    {
        clear_places(&mut self.places);
        self.constant = Q::whole(0);
    }

    /// Whether the coefficients are those of the expression, which has no more of them.
    fn has_coefficients(&self, goal: &Lin) -> bool
        requires { length goal.now.coefficients ≤ length self.now.coefficients }
        ensures { IsTrue result ↔ HasCoefficients self.now goal.now }
    {
        for i in 0..self.places.len() {
            if !is_same(self.places[i], Q::whole(goal.get(i as u32))) {
                return false;
            }
        }
        true
    }

    /// Whether the coefficients are those of the expression, and the constant is at most its own.
    pub(crate) fn is_under(&self, goal: &Lin) -> bool
        requires { length goal.now.coefficients ≤ length self.now.coefficients }
        ensures { IsTrue result ↔ IsUnder self.now goal.now }
    {
        self.has_coefficients(goal) && is_at_most(self.constant, Q::whole(goal.constant()))
    }

    /// Adds the row times its factor.
    #[tactic(auto, unfolding(crate::specs::Combining::row_added))]
    fn add_row(&mut self, q: Q, lin: &Lin) -> Result<(), TooWide>
        requires { length lin.now.coefficients ≤ length self.old.coefficients }
        ensures ok { OnOk result (row_added self.old q lin.now ≡ Ok self.new) }
        ensures err { IfErr result (λ e. row_added self.old q lin.now ≡ Err e) }
        ensures places { length self.new.coefficients ≡ length self.old.coefficients }
    {
        add_places(&mut self.places, q, lin.coefficients())?;
        self.constant = add_term(self.constant, q, lin.constant())?;
        Ok(())
    }

    /// Adds all rows times their factors, in order.
    pub fn add_rows(&mut self, rows: &[Row], m: &[(u32, Q)]) -> Result<(), TooWide>
        requires numbers { AreRowNumbers (length rows.now) m.now }
        requires room { HaveRoom (length self.old.coefficients) (lins rows.now) }
        ensures ok { OnOk result (rows_added (lins rows.now) self.old m.now ≡ Ok self.new) }
        ensures err { IfErr result (λ e. rows_added (lins rows.now) self.old m.now ≡ Err e) }
        ensures places { length self.new.coefficients ≡ length self.old.coefficients }
    {
        for i in 0..m.len() {
            let term = m[i];
            let row = &rows[term.0 as usize - 1];
            self.add_row(term.1, &row.lin)?;
        }
        Ok(())
    }
}

/// Whether none of the rows has more coefficients than there are places.
fn have_room(places: u32, rows: &[Row]) -> bool
    ensures { IsTrue result ↔ All (λ row. length row.lin.coefficients ≤ places) rows.now }
{
    rows.iter().all(|row| row.lin.len() <= places)
}

fn clear_places(places: &mut Vec<Q>)
    ensures { places.new.items ≡ replicate (length places.old.items) (whole (pos 0)) }
{
    for i in 0..places.len() {
        places[i] = Q::whole(0);
    }
}

/// Adds `q` times the coefficients, place by place.
fn add_places(places: &mut Vec<Q>, q: Q, coefficients: &[i128]) -> Result<(), TooWide>
    requires { length coefficients.now ≤ length places.old.items }
    ensures ok { OnOk result (places_added [] places.old.items q coefficients.now ≡ Ok places.new.items) }
    ensures err { IfErr result (λ e. places_added [] places.old.items q coefficients.now ≡ Err e) }
    ensures len { length places.new.items ≡ length places.old.items }
{
    for i in 0..coefficients.len() {
        places[i] = add_term(places[i], q, coefficients[i])?;
    }
    Ok(())
}
