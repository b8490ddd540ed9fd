//! The ways of all nodes, and the covers of the graph of calls.

ghost use Rattle.std.specs.Prelude.{◌≡◌, ◌<◌, ◌≤◌, ◌^◌, ◌⊎◌, ◌↔◌, ℕ, length, IfOk, OnOk, MatchResult};
ghost use Rattle.graph_core.specs.Graphs.{HasEdge};
ghost use Rattle.relations.specs.Relation.{ways_of};
ghost use Rattle.base_relations.specs.Unfolding.{node_ways, Calls, ways_at, IsCallGraph};
ghost use Rattle.base_relations.specs.inside.Plans.{IsCallOf, CallsIn, Adds, PlansFor, TellsNoPlan};

use crate::fault::UnfoldFault;
use graph_core::Graph;
use graph_covers::cover::{CoverFault, Covers};
use graph_covers::covers;
use lin_rows::Sequence;
use relations::Relations;
use rule_terms::{Item, Rule, RulePath, paths};
use std::alloc::{AllocError, Global};

/// The ways through the rules of each node, and the covers of the graph of calls.
#[derive(Drop)]
pub(crate) struct Plan {
    pub(crate) ways: Sequence<Sequence<RulePath>>,
    pub(crate) covers: Covers,
}

/// The ways through rules.
fn rules_ways(alloc: Global, rules: &[Rule]) -> Result<Sequence<RulePath>, AllocError>
    ensures { IfOk result (λ ways. ways ≡ ways_of rules.now) }
{
    let mut ways = Vec::new(alloc);
    for rule in rules {
        ways.append(&mut paths(alloc, rule)?)?;
    }
    Ok(Sequence::from(ways))
}

/// The ways of all nodes.
fn all_ways(alloc: Global, r: &Relations) -> Result<Sequence<Sequence<RulePath>>, AllocError>
    ensures { IfOk result (λ ways. ways ≡ node_ways r.now) }
{
    let mut ways = Sequence::new(alloc);
    for node in 0..r.nodes() {
        ways.push(rules_ways(alloc, r.rules(node))?)?;
    }
    Ok(ways)
}

/// Adds the call that an item of a node is. A call of a node that isn't there doesn't count.
fn add_call(g: &mut Graph, a: u32, item: &Item) -> Result<(), AllocError>
    requires { a < length g.old }
    ensures nodes { length g.new ≡ length g.old }
    ensures edges { OnOk result (Adds g.old g.new a (IsCallOf item.now)) }
{
    let Item::Call(b, _) = item else {
        return Ok(());
    };
    if *b >= g.nodes() {
        return Ok(());
    }
    g.add(a, *b)?;
    Ok(())
}

/// Adds the calls of a way of a node.
fn add_way_calls(g: &mut Graph, a: u32, way: &[Item]) -> Result<(), AllocError>
    requires { a < length g.old }
    ensures nodes { length g.new ≡ length g.old }
    ensures edges { OnOk result (Adds g.old g.new a (CallsIn way.now)) }
{
    for item in way {
        add_call(g, a, item)?;
    }
    Ok(())
}

/// Adds the calls of a node's ways.
pub(crate) fn add_calls(g: &mut Graph, a: u32, ways: &[RulePath]) -> Result<(), AllocError>
    requires { a < length g.old }
    ensures nodes { length g.new ≡ length g.old }
    ensures edges { OnOk result (Adds g.old g.new a (Calls ways.now)) }
{
    for way in ways {
        add_way_calls(g, a, way.as_slice())?;
    }
    Ok(())
}

/// The graph of calls.
fn call_graph(alloc: Global, ways: &[Sequence<RulePath>]) -> Result<Graph, AllocError>
    requires few { length ways.now < 2 ^ 32 }
    requires held { (a b : ℕ) → Calls (ways_at ways.now a) b → b < length ways.now }
    ensures { IfOk result (λ g. IsCallGraph ways.now g) }
{
    let nodes = ways.len() as u32;
    let mut g = Graph::new(alloc, nodes)?;
    for a in 0..nodes {
        add_calls(&mut g, a, ways[a as usize].as_slice())?;
    }
    Ok(g)
}

/// The plan of a relation, where its components have covers.
pub(crate) fn plan_of(alloc: Global, r: &Relations) -> Result<Plan, UnfoldFault>
    ensures { MatchResult result (λ plan. PlansFor r.now plan) (λ fault. TellsNoPlan r.now fault) }
{
    let _nodes = r.nodes();
    let ways = all_ways(alloc, r)?;
    let g = call_graph(alloc, ways.as_slice())?;
    match covers(alloc, &g) {
        Ok(covers) => Ok(Plan { ways, covers }),
        Err(CoverFault::NoCover { avoided }) => Err(UnfoldFault::NoCover {
            avoided: Sequence::from(avoided),
        }),
        Err(CoverFault::Memory) => Err(UnfoldFault::Memory),
    }
}
