//! Expressions of a rule in a call's place, made of the call's arguments and of numbered variables.

ghost use Rattle.std.specs.Prelude.{◌≡◌, ◌<◌, ℤ, Some, None, [], pos, length, slice_set, slice_index_or, if◌then◌else◌, IfOk, MatchOption};
ghost use Rattle.std.specs.Ordering.{int_eq};
ghost use Rattle.base_relations.specs.inside.Gives.{MadeBy};
ghost use Rattle.base_relations.specs.Substitution.{zeros, number_added, places_added, lin_added, variable_added, number_of, term_added, terms_added, lin_replaced, places_moved, lin_numbered};

use crate::fault::UnfoldFault;
use crate::numbers::{number_added, sum};
use lin_rows::Lin;
use std::alloc::{AllocError, Global};
use std::marker::Model;

/// A sum that is being made: a place for each variable, and the constant.
#[derive(Drop)]
struct Sum {
    places: Vec<i128>,
    constant: i128,
}

impl Model for Sum {
    ghost use Rattle.std.specs.Prelude.{◌<◌, ◌^◌, length};
    ghost use Rattle.lin_rows.specs.Linear.{Linear};

    ghost Value = { Linear };

    ghost view = { λ s. record { coefficients = s.places.items; constant = s.constant } };

    ghost invariant = { λ s. length s.places.items < 2 ^ 32 };
}

/// Adds `c * e` at a place.
fn add_at(places: &mut Vec<i128>, i: usize, c: i128, e: i128) -> Option<()>
    requires { i < length places.old.items }
    ensures answer { MatchOption result (number_added (slice_index_or places.old.items i (pos 0)) c e ≡ None)
        (λ _. (y : ℤ) × (number_added (slice_index_or places.old.items i (pos 0)) c e ≡ Some y) × (places.new.items ≡ slice_set places.old.items i y)) }
    ensures len { length places.new.items ≡ length places.old.items }
{
    places[i] = number_added(places[i], c, e)?;
    Some(())
}

/// Adds `c` times the coefficients, place by place.
fn add_places(places: &mut Vec<i128>, c: i128, coefficients: &[i128]) -> Option<()>
    ensures answer { MatchOption result (places_added [] places.old.items c coefficients.now ≡ None)
        (λ _. places_added [] places.old.items c coefficients.now ≡ Some places.new.items) }
    ensures len { length places.new.items ≡ length places.old.items }
{
    for i in 0..coefficients.len().min(places.len()) {
        add_at(places, i, c, coefficients[i])?;
    }
    Some(())
}

impl Sum {
    /// Nothing yet, with so many places.
    fn zeros(alloc: Global, n: u32) -> Result<Sum, AllocError>
        ensures { IfOk result (λ s. s ≡ zeros n) }
    {
        Ok(Sum {
            places: vec![in alloc; 0; n as usize]?,
            constant: 0,
        })
    }

    /// Adds `c` times an expression.
    #[tactic(auto, unfolding(crate::specs::Substitution::lin_added))]
    fn add_lin(&mut self, c: i128, e: &Lin) -> Option<()>
        ensures { MatchOption result (lin_added self.old c e.now ≡ None) (λ _. lin_added self.old c e.now ≡ Some self.new) }
    {
        add_places(&mut self.places, c, e.coefficients())?;
        self.constant = number_added(self.constant, c, e.constant())?;
        Some(())
    }

    /// Adds `c` times a variable.
    #[tactic(auto, unfolding(crate::specs::Substitution::variable_added))]
    fn add_variable(&mut self, c: i128, u: u32) -> Option<()>
        ensures { MatchOption result (variable_added self.old c u ≡ None) (λ _. variable_added self.old c u ≡ Some self.new) }
    {
        let at = u as usize;
        let before = if at < self.places.len() {
            self.places[at]
        } else {
            0
        };
        let now = number_added(before, c, 1)?;
        if at < self.places.len() {
            self.places[at] = now;
        }
        Some(())
    }

    /// Adds `c` times what stands for a variable.
    #[tactic(auto, unfolding(crate::specs::Substitution::term_added))]
    fn add_term(&mut self, args: &[Lin], made: &[(u32, u32)], v: u32, c: i128) -> Option<()>
        ensures { MatchOption result (term_added args.now made.now self.old v c ≡ None)
            (λ _. term_added args.now made.now self.old v c ≡ Some self.new) }
    {
        if c == 0 {
            return Some(());
        }
        if (v as usize) < args.len() {
            self.add_lin(c, &args[v as usize])
        } else {
            self.add_variable(c, number_of(made, v))
        }
    }

    /// Adds each coefficient times what stands for its variable.
    fn add_terms(&mut self, args: &[Lin], made: &[(u32, u32)], l: &Lin) -> Option<()>
        ensures { MatchOption result (terms_added args.now made.now self.old 0 l.now.coefficients ≡ None)
            (λ _. terms_added args.now made.now self.old 0 l.now.coefficients ≡ Some self.new) }
    {
        for v in 0..l.len() {
            self.add_term(args, made, v, l.get(v))?;
        }
        Some(())
    }
}

/// The number of a variable that was made; another variable keeps its own.
fn number_of(made: &[(u32, u32)], v: u32) -> u32
    ensures { result ≡ number_of made.now v }
{
    for p in made {
        if p.0 == v {
            return p.1;
        }
    }
    v
}

/// An expression of a rule in a call's place, over so many variables.
#[tactic(auto, unfolding(crate::specs::Substitution::lin_replaced))]
pub(crate) fn lin_replaced(
    alloc: Global,
    args: &[Lin],
    made: &[(u32, u32)],
    n: u32,
    l: &Lin,
) -> Result<Lin, UnfoldFault>
    ensures { MadeBy (lin_replaced args.now made.now n l.now) result }
{
    let mut total = Sum::zeros(alloc, n)?;
    if total.add_terms(args, made, l).is_none() {
        return Err(UnfoldFault::TooLarge);
    }
    let Some(constant) = sum(total.constant, l.constant()) else {
        return Err(UnfoldFault::TooLarge);
    };
    Ok(Lin::new(alloc, &total.places, constant)?)
}

/// Puts each coefficient other than 0 at the number of its variable.
fn move_places(places: &mut Vec<i128>, made: &[(u32, u32)], l: &Lin)
    ensures moved { places.new.items ≡ places_moved made.now places.old.items 0 l.now.coefficients }
    ensures len { length places.new.items ≡ length places.old.items }
{
    for v in 0..l.len() {
        put(places, number_of(made, v), l.get(v));
    }
}

/// Puts a coefficient other than 0 at a place, where there is the place.
fn put(places: &mut Vec<i128>, at: u32, c: i128)
    ensures put { places.new.items ≡ (if int_eq c (pos 0) then places.old.items else slice_set places.old.items at c) }
    ensures len { length places.new.items ≡ length places.old.items }
{
    let at = at as usize;
    if c != 0 && at < places.len() {
        places[at] = c;
    }
}

/// An expression of the rule that has the calls, over so many variables.
pub(crate) fn lin_numbered(
    alloc: Global,
    made: &[(u32, u32)],
    n: u32,
    l: &Lin,
) -> Result<Lin, AllocError>
    ensures { IfOk result (λ k. k ≡ lin_numbered made.now n l.now) }
{
    let mut places = vec![in alloc; 0; n as usize]?;
    move_places(&mut places, made, l);
    Lin::new(alloc, &places, l.constant())
}
