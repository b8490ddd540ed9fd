//! The rules of base relations.

ghost use Rattle.std.specs.Prelude.{◌≡◌, ◌<◌, ◌≤◌, ◌+◌, [], map, reverse, length, slice_index_or};
ghost use Rattle.base_relations.specs.Steps.{steps_of};
ghost use Rattle.base_relations.specs.Unfolding.{ways_at, node_traces};
ghost use Rattle.base_relations.specs.Limits.{total, items_at, fresh_at, rows_at, rule_made, rules_made};
ghost use Rattle.base_relations.specs.inside.Gives.{Gives, TurnedInto};
ghost use Rattle.base_relations.specs.inside.Trails.{AreGood, IsPlanned, AreGoodWays, ways_traces, done_step, unfolded_of};

use crate::fault::UnfoldFault;
use crate::making::items_made;
use crate::part::Done;
use crate::plan::Plan;
use crate::tracing::{Trail, back, forward};
use lin_rows::Sequence;
use rule_terms::{Item, RulePath};
use std::alloc::Global;

// The greatest number of rules of a base relation.
const RULE_LIMIT: usize = 1024;
// The greatest number of variables that a rule makes.
const FRESH_LIMIT: usize = 512;
// The greatest number of rows of a rule.
const ROW_LIMIT: usize = 1024;

/// How many variables are made.
fn fresh_in(parts: &[Done<'_>]) -> usize
    ensures { result ≡ total fresh_at (map done_step parts.now) }
{
    let mut count = 0;
    for part in parts {
        if let Done::Item(Item::Fresh(_)) = part {
            count += 1;
        }
    }
    count
}

/// How many rows there are.
fn rows_in(parts: &[Done<'_>]) -> usize
    ensures { result ≡ total rows_at (map done_step parts.now) }
{
    let mut count = 0;
    for part in parts {
        if let Done::Item(Item::Assume(_)) = part {
            count += 1;
        }
    }
    count
}

/// A rule of a node that has so many sizes, or its first fault. It has no more items than a rule may have.
#[tactic(auto, unfolding(crate::specs::Limits::rule_made))]
fn rule_made(alloc: Global, sizes: u32, parts: &[Done<'_>]) -> Result<RulePath, UnfoldFault>
    requires sizes { sizes ≤ 32 }
    requires few { total items_at (map done_step parts.now) ≤ 4096 }
    ensures { Gives (rule_made sizes (map done_step parts.now)) result }
{
    if fresh_in(parts) > FRESH_LIMIT {
        return Err(UnfoldFault::TooManyFresh);
    }
    if rows_in(parts) > ROW_LIMIT {
        return Err(UnfoldFault::TooManyRows);
    }
    items_made(alloc, sizes, parts)
}

/// Adds the rules that come of a way.
fn add_way(
    alloc: Global,
    plan: &Plan,
    sizes: u32,
    way: &[Item],
    rules: &mut Sequence<RulePath>,
) -> Result<(), UnfoldFault>
    requires plan { IsPlanned plan.now }
    requires good { AreGood plan.now.ways plan.now.covers.covers (steps_of way.now) }
    requires sizes { sizes ≤ 32 }
    ensures { TurnedInto (rules_made sizes rules.old (unfolded_of plan.now (steps_of way.now))) rules.new result }
{
    let mut trail = Trail::start(alloc, way)?;
    loop {
        if rules.len() >= RULE_LIMIT {
            return Err(UnfoldFault::TooManyRules);
        }
        forward(plan, &mut trail)?;
        rules.push(rule_made(alloc, sizes, trail.done.from_below())?)?;
        if !back(plan, &mut trail)? {
            return Ok(());
        }
    }
}

/// The rules that come of ways, in a node that has so many sizes.
fn ways_rules(
    alloc: Global,
    plan: &Plan,
    sizes: u32,
    ways: &[RulePath],
) -> Result<Sequence<RulePath>, UnfoldFault>
    requires plan { IsPlanned plan.now }
    requires good { AreGoodWays plan.now ways.now }
    requires sizes { sizes ≤ 32 }
    ensures { Gives (rules_made sizes [] (ways_traces plan.now ways.now)) result }
{
    let mut rules = Sequence::new(alloc);
    for way in ways {
        add_way(alloc, plan, sizes, way.as_slice(), &mut rules)?;
    }
    Ok(rules)
}

/// The rules of the base relation of a node that has so many sizes.
pub(crate) fn node_rules(
    alloc: Global,
    plan: &Plan,
    sizes: u32,
    node: u32,
) -> Result<Sequence<RulePath>, UnfoldFault>
    requires plan { IsPlanned plan.now }
    requires node { node < length plan.now.ways }
    requires sizes { sizes ≤ 32 }
    ensures { Gives (rules_made sizes [] (node_traces (unfolded_of plan.now) plan.now.ways node)) result }
{
    let ways = plan.ways.as_slice()[node as usize].as_slice();
    ways_rules(alloc, plan, sizes, ways)
}
