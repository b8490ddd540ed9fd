ghost use Rattle.std.specs.Prelude.{◌≡◌, ◌≤◌, ◌<◌, ◌+◌, ◌*◌, ◌^◌, ℕ, List, Ok, [], length, IfOk, IfSome, IfNone, Result};
ghost use Rattle.std.specs.List.{list_all, list_any};
ghost use Rattle.lin_rows.specs.Linear.{Linear};
ghost use Rattle.rule_terms.specs.declared.item.Item.TheVariants as items;
ghost use Rattle.rule_terms.specs.Terms.{term_of};
ghost use Rattle.relations.specs.declared.fault.RelFault.{RelFault};
ghost use Rattle.relations.specs.Relation.{sizes_of};
ghost use Rattle.relations.specs.Scope.{is_bound, lin_bound, lin_terms, args_terms_of, item_fault, item_terms, term_limit};
ghost use Rattle.relations.specs.inside.Walk.{AreSmall, made_of, makes, marks_walk, term_walk, Resumes, Restarts, Steps, Gives, WithinLimit};

use crate::fault::RelFault;
use crate::node::Node;
use lin_rows::{Lin, Row};
use rule_terms::{Rule, Stack};
use std::alloc::Global;

// The greatest number of items and coefficients in a relation.
const TERM_LIMIT: u64 = 16_777_216;

/// What stands on the way to a part of a rule: a variable that was made, or the second part of a split whose first part is
/// read, with what was counted on the way to the split.
#[derive(Drop)]
pub(crate) enum Mark<'a> {
    Made(u32),
    Second(&'a Rule, u64),
}

/// What is counted once a rule is read, or its first fault: the count so far, and each item once for each way that it is on.
#[tactic(auto, using(crate::proofs::Faults::stops))]
pub(crate) fn walk(
    alloc: Global,
    nodes: &[Node],
    sizes: u32,
    count: u64,
    rule: &Rule,
) -> Result<u64, RelFault>
    requires sizes { AreSmall (sizes_of nodes.now) }
    requires count { count ≤ term_limit }
    ensures walked { Gives (term_walk (sizes_of nodes.now) sizes [] 0 count (term_of rule.now)) result }
    ensures room { IfOk result (λ n. n ≤ term_limit) }
{
    let mut marks = Stack::new(alloc);
    let mut below = rule;
    let mut along = 0;
    let mut before = count;
    loop {
        match below {
            Rule::Stop => {
                before += along;
                match next_second(&mut marks) {
                    None => return Ok(before),
                    Some((second, earlier)) => {
                        along = restart(before, earlier)?;
                        below = second;
                    }
                }
            }
            Rule::Assume(row, rest) => {
                along += row_terms(sizes, &marks, before + along, row)?;
                below = rest;
            }
            Rule::Spend(_, rest) => {
                along += spend_terms(before + along)?;
                below = rest;
            }
            Rule::Fresh(v, rest) => {
                along += fresh_terms(sizes, &marks, before + along, *v)?;
                marks.push(Mark::Made(*v))?;
                below = rest;
            }
            Rule::Call(node, args, rest) => {
                along += call_terms(nodes, sizes, &marks, before + along, *node, args.as_slice())?;
                below = rest;
            }
            Rule::Split(first, second) => {
                marks.push(Mark::Second(second, along))?;
                below = first;
            }
        }
    }
}

// The second part that is read next, with what was counted on the way to it.
fn next_second<'a>(marks: &mut Stack<Mark<'a>>) -> Option<(&'a Rule, u64)>
    ensures some { (nodes : List ℕ) (sizes : ℕ) (counted : Result ℕ RelFault) → IfSome result
        (λ p. Resumes nodes sizes marks.old marks.new counted (term_of p.0.now) p.1) }
    ensures none { (nodes : List ℕ) (sizes : ℕ) (counted : Result ℕ RelFault) →
        IfNone result (marks_walk nodes sizes marks.old counted ≡ counted) }
{
    while let Some(mark) = marks.pop() {
        if let Mark::Second(rule, along) = mark {
            return Some((rule, along));
        }
    }
    None
}

// So many terms more, where they don't pass the limit.
fn within(count: u64, terms: u64) -> Result<u64, RelFault>
    requires { count ≤ term_limit }
    ensures { WithinLimit count terms result }
{
    if terms <= TERM_LIMIT - count {
        Ok(terms)
    } else {
        Err(RelFault::TooManyTerms)
    }
}

// What was counted on the way to a split, where it may be counted once more.
fn restart(before: u64, along: u64) -> Result<u64, RelFault>
    requires { before ≤ term_limit }
    ensures { Restarts before along result }
{
    within(before, along)
}

// The terms of an amount that is spent, or its fault.
fn spend_terms(count: u64) -> Result<u64, RelFault>
    requires { count ≤ term_limit }
    ensures steps { (nodes : List ℕ) (sizes : ℕ) (made : List ℕ) (n : ℕ) → Steps (item_fault nodes sizes made count (items.Spend n)) 1 result }
    ensures room { IfOk result (λ n. count + n ≤ term_limit) }
{
    within(count, 1)
}

// The terms of a row, or its fault.
fn row_terms(sizes: u32, marks: &Stack<Mark<'_>>, count: u64, row: &Row) -> Result<u64, RelFault>
    requires { count ≤ term_limit }
    ensures steps { (nodes : List ℕ) → Steps (item_fault nodes sizes (made_of marks.now) count (items.Assume row.now)) (item_terms (items.Assume row.now)) result }
    ensures room { IfOk result (λ n. count + n ≤ term_limit) }
{
    if !are_known(sizes, marks, &row.lin) {
        return Err(RelFault::Range);
    }
    within(count, 1 + terms(&row.lin))
}

// The terms of a variable that is made, or its fault.
fn fresh_terms(sizes: u32, marks: &Stack<Mark<'_>>, count: u64, v: u32) -> Result<u64, RelFault>
    requires { count ≤ term_limit }
    ensures steps { (nodes : List ℕ) → Steps (item_fault nodes sizes (made_of marks.now) count (items.Fresh v)) 1 result }
    ensures room { IfOk result (λ n. count + n ≤ term_limit) }
{
    if is_known(sizes, marks, v) {
        return Err(RelFault::Range);
    }
    within(count, 1)
}

// The terms of a call, or its fault.
fn call_terms(
    nodes: &[Node],
    sizes: u32,
    marks: &Stack<Mark<'_>>,
    count: u64,
    node: u32,
    args: &[Lin],
) -> Result<u64, RelFault>
    requires sizes { AreSmall (sizes_of nodes.now) }
    requires count { count ≤ term_limit }
    ensures steps { Steps (item_fault (sizes_of nodes.now) sizes (made_of marks.now) count (items.Call node args.now)) (item_terms (items.Call node args.now)) result }
    ensures room { IfOk result (λ n. count + n ≤ term_limit) }
{
    let node = node as usize;
    if node >= nodes.len() {
        return Err(RelFault::Range);
    }
    if !all_known(sizes, marks, args) {
        return Err(RelFault::Range);
    }
    if args.len() != nodes[node].lengths.len() {
        return Err(RelFault::Arity);
    }
    within(count, 1 + args_terms(args))
}

// Whether each expression names variables alone that are known.
fn all_known(sizes: u32, marks: &Stack<Mark<'_>>, lins: &[Lin]) -> bool
    ensures { result ≡ list_all (λ (l : Linear). lin_bound sizes (made_of marks.now) l) lins.now }
{
    for lin in lins {
        if !are_known(sizes, marks, lin) {
            return false;
        }
    }
    true
}

// Whether an expression names variables alone that are known.
fn are_known(sizes: u32, marks: &Stack<Mark<'_>>, lin: &Lin) -> bool
    ensures { result ≡ lin_bound sizes (made_of marks.now) lin.now }
{
    for v in 0..lin.len() {
        if lin.get(v) != 0 && !is_known(sizes, marks, v) {
            return false;
        }
    }
    true
}

// Whether a variable is a size or was made on the way.
fn is_known(sizes: u32, marks: &Stack<Mark<'_>>, v: u32) -> bool
    ensures { result ≡ is_bound sizes (made_of marks.now) v }
{
    v < sizes || is_made(marks.from_below(), v)
}

// Whether a variable was made on the way.
fn is_made(marks: &[Mark<'_>], v: u32) -> bool
    ensures { result ≡ list_any (makes v) marks.now }
{
    marks.iter().any(|mark| is_of(mark, v))
}

// Whether the variable was made at the mark.
fn is_of(mark: &Mark<'_>, v: u32) -> bool
    ensures { result ≡ makes v mark.now }
{
    match mark {
        Mark::Made(w) => v == *w,
        Mark::Second(..) => false,
    }
}

// The terms of a call's arguments.
fn args_terms(args: &[Lin]) -> u64
    requires { length args.now ≤ 32 }
    ensures is { result ≡ args_terms_of args.now }
    ensures small { result ≤ 32 * 2 ^ 32 }
{
    let mut total = 0;
    for lin in args {
        total += terms(lin);
    }
    total
}

// How many coefficients of an expression aren't 0.
fn terms(lin: &Lin) -> u64
    ensures is { result ≡ lin_terms lin.now }
    ensures small { result ≤ 2 ^ 32 }
{
    let mut total = 0;
    for v in 0..lin.len() {
        if lin.get(v) != 0 {
            total += 1;
        }
    }
    total
}
