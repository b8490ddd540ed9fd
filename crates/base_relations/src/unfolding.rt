//! The base relations of a relation.

ghost use Rattle.std.specs.Prelude.{◌≡◌, ◌≢◌, ◌<◌, ◌≤◌, ◌^◌, ◌↔◌, ℕ, Ok, Err, [], All, length, map, is_some, slice_index, slice_index_or, slice_set, None, IfOk, OnOk, MatchResult};
ghost use Rattle.graph_core.specs.Graphs.{HasEdge};
ghost use Rattle.relations.specs.Relation.{sizes_of};
ghost use Rattle.base_relations.specs.Unfolding.{Calls, node_traces};
ghost use Rattle.base_relations.specs.Limits.{has_base, base_rules, bases_made};
ghost use Rattle.base_relations.specs.Direct.{Succeeds, Tells, IsBase, IsBaseAt, AreNamed, AreCalled, CallsOf, IsBaseGraph, AreBasesTo, AreBases};
ghost use Rattle.base_relations.specs.declared.fault.UnfoldFault.TheVariants as faults;
ghost use Rattle.relations.specs.declared.direct.Called as calls;
ghost use Rattle.base_relations.specs.inside.Gives.{Gives};
ghost use Rattle.base_relations.specs.inside.Plans.{Adds};
ghost use Rattle.base_relations.specs.inside.Trails.{IsPlanned, unfolded_of};

use crate::direct::Direct;
use crate::fault::UnfoldFault;
use crate::plan::{Plan, add_calls, plan_of};
use crate::rules::node_rules;
use class_pool::Target;
use graph_core::Graph;
use graph_order::callees_first;
use lin_rows::Sequence;
use relations::{Called, DirectNode, NodeName, Relations};
use rule_terms::RulePath;
use std::alloc::{AllocError, Global};
use std::mem;

/// Whether a node is a cover or the target.
fn has_base(plan: &Plan, target: u32, node: u32) -> bool
    requires { node < length plan.now.covers.covers }
    ensures { result ≡ has_base plan.now.covers.covers target node }
{
    plan.covers.cover(node) == node || node == target
}

/// The rules of a node, which has so many sizes, where it has a base relation.
fn base_rules(
    alloc: Global,
    plan: &Plan,
    target: u32,
    sizes: u32,
    node: u32,
) -> Result<Option<Sequence<RulePath>>, UnfoldFault>
    requires plan { IsPlanned plan.now }
    requires node { node < length plan.now.ways }
    requires covers { length plan.now.covers.covers ≡ length plan.now.ways }
    requires sizes { sizes ≤ 32 }
    ensures { Gives (base_rules (has_base plan.now.covers.covers target node) sizes (node_traces (unfolded_of plan.now) plan.now.ways node)) result }
{
    if !has_base(plan, target, node) {
        return Ok(None);
    }
    Ok(Some(node_rules(alloc, plan, sizes, node)?))
}

/// How many sizes a node has.
fn sizes(r: &Relations, node: u32) -> u32
    requires { node < length r.now }
    ensures is { slice_index (sizes_of r.now) node ≡ result }
    ensures small { result ≤ 32 }
{
    let _nodes = r.nodes();
    r.lengths(node).len() as u32
}

/// The rules of all base relations.
fn all_rules(
    alloc: Global,
    plan: &Plan,
    r: &Relations,
    target: u32,
) -> Result<Vec<Option<Sequence<RulePath>>>, UnfoldFault>
    requires plan { IsPlanned plan.now }
    requires ways { length plan.now.ways ≡ length r.now }
    requires covers { length plan.now.covers.covers ≡ length r.now }
    ensures count { IfOk result (λ bases. length bases.items ≡ length r.now) }
    ensures answer { MatchResult result
        (λ bases. bases_made (has_base plan.now.covers.covers target) (node_traces (unfolded_of plan.now) plan.now.ways) [] 0 (sizes_of r.now) ≡ Ok bases.items)
        (λ e. e ≢ faults.Memory → bases_made (has_base plan.now.covers.covers target) (node_traces (unfolded_of plan.now) plan.now.ways) [] 0 (sizes_of r.now) ≡ Err e) }
{
    let mut rules = Vec::new(alloc);
    for node in 0..r.nodes() {
        rules.push(base_rules(alloc, plan, target, sizes(r, node), node)?)?;
    }
    Ok(rules)
}

/// Adds the calls of a node's base relation, where it has one.
fn add_base_calls(
    g: &mut Graph,
    a: u32,
    rules: &Option<Sequence<RulePath>>,
) -> Result<(), AllocError>
    requires { a < length g.old }
    ensures nodes { length g.new ≡ length g.old }
    ensures edges { OnOk result (Adds g.old g.new a (CallsOf rules.now)) }
{
    let Some(rules) = rules else {
        return Ok(());
    };
    add_calls(g, a, rules.as_slice())?;
    Ok(())
}

/// The graph of calls of base relations.
fn base_graph(alloc: Global, bases: &[Option<Sequence<RulePath>>]) -> Result<Graph, AllocError>
    requires { length bases.now < 2 ^ 32 }
    ensures { IfOk result (λ g. IsBaseGraph bases.now g) }
{
    let nodes = bases.len() as u32;
    let mut g = Graph::new(alloc, nodes)?;
    for a in 0..nodes {
        add_base_calls(&mut g, a, &bases[a as usize])?;
    }
    Ok(g)
}

/// The same name.
fn name_of(name: &NodeName) -> Result<NodeName, AllocError>
    ensures { IfOk result (λ copy. copy ≡ name.now) }
{
    Ok(NodeName {
        target: Target {
            class: name.target.class.share()?,
            method: name.target.method.share()?,
            desc: name.target.desc.share()?,
        },
        pc: name.pc,
    })
}

/// Nodes with their names.
fn called_of(alloc: Global, r: &Relations, nodes: &[u32]) -> Result<Sequence<Called>, AllocError>
    requires { All (λ b. b < length r.now) nodes.now }
    ensures nodes { IfOk result (λ called. map (λ (c : calls.Called). c.node) called ≡ nodes.now) }
    ensures names { IfOk result (λ called. AreNamed r.now called) }
{
    let mut called = Sequence::new(alloc);
    for node in nodes {
        let name = name_of(r.name(*node))?;
        called.push(Called { node: *node, name })?;
    }
    Ok(called)
}

/// The nodes that the rules of a node call.
fn node_calls(
    alloc: Global,
    r: &Relations,
    g: &Graph,
    node: u32,
    rules: &Sequence<RulePath>,
) -> Result<Sequence<Called>, AllocError>
    requires node { node < length g.now }
    requires nodes { length g.now ≡ length r.now }
    requires edges { (b : ℕ) → HasEdge g.now node b ↔ (Calls rules.now b × (b < length r.now)) }
    ensures { IfOk result (λ called. AreCalled r.now rules.now called) }
{
    let _rules = rules;
    let called = called_of(alloc, r, g.successors(node))?;
    Ok(called)
}

/// The base relation of a node with these rules.
fn base_node(
    alloc: Global,
    r: &Relations,
    g: &Graph,
    node: u32,
    rules: Sequence<RulePath>,
) -> Result<DirectNode, AllocError>
    requires node { node < length r.now }
    requires nodes { length g.now ≡ length r.now }
    requires edges { (b : ℕ) → HasEdge g.now node b ↔ (Calls rules b × (b < length r.now)) }
    ensures { IfOk result (λ base. IsBase r.now node rules base) }
{
    let name = name_of(r.name(node))?;
    let lengths = Vec::from_slice(alloc, r.lengths(node))?;
    let called = node_calls(alloc, r, g, node, &rules)?;
    Ok(DirectNode {
        node,
        name,
        lengths: Sequence::from(lengths),
        rules,
        called,
    })
}

/// Which nodes have rules.
fn chosen(alloc: Global, bases: &[Option<Sequence<RulePath>>]) -> Result<Vec<bool>, AllocError>
    ensures { IfOk result (λ marks. marks.items ≡ map is_some bases.now) }
{
    let mut marks = Vec::new(alloc);
    for rules in bases {
        marks.push(rules.is_some())?;
    }
    Ok(marks)
}

/// The base relation of a node that has one.
fn base_of(
    alloc: Global,
    r: &Relations,
    g: &Graph,
    node: u32,
    rules: Option<Sequence<RulePath>>,
) -> Result<Option<DirectNode>, AllocError>
    requires node { node < length r.now }
    requires nodes { length g.now ≡ length r.now }
    requires edges { (b : ℕ) → HasEdge g.now node b ↔ (CallsOf rules b × (b < length r.now)) }
    ensures { IfOk result (λ base. IsBaseAt r.now node rules base) }
{
    match rules {
        Some(rules) => Ok(Some(base_node(alloc, r, g, node, rules)?)),
        None => Ok(None),
    }
}

/// The base relations with these rules, and their order.
fn assembled(
    alloc: Global,
    r: &Relations,
    bases: Vec<Option<Sequence<RulePath>>>,
) -> Result<Direct, AllocError>
    requires { length bases.items ≡ length r.now }
    ensures { IfOk result (λ direct. AreBases r.now bases.items direct) }
{
    let _nodes = r.nodes();
    let g = base_graph(alloc, &bases)?;
    let marks = chosen(alloc, &bases)?;
    let order = callees_first(alloc, &g, &marks)?;
    let nodes = base_nodes(alloc, r, &g, bases)?;
    Ok(Direct { nodes, order })
}

/// Takes the rules of a node out.
fn take_rules(
    bases: &mut Vec<Option<Sequence<RulePath>>>,
    node: usize,
) -> Option<Sequence<RulePath>>
    requires { node < length bases.old.items }
    ensures taken { result ≡ slice_index_or bases.old.items node None }
    ensures left { bases.new.items ≡ slice_set bases.old.items node None }
{
    mem::replace(&mut bases[node], None)
}

/// The base relation of each node that has one.
fn base_nodes(
    alloc: Global,
    r: &Relations,
    g: &Graph,
    mut bases: Vec<Option<Sequence<RulePath>>>,
) -> Result<Vec<Option<DirectNode>>, AllocError>
    requires count { length bases.items ≡ length r.now }
    requires graph { IsBaseGraph bases.items g.now }
    ensures { IfOk result (λ nodes. AreBasesTo r.now bases.items nodes.items (length bases.items)) }
{
    let mut nodes = Vec::new(alloc);
    for node in 0..r.nodes() {
        let rules = take_rules(&mut bases, node as usize);
        nodes.push(base_of(alloc, r, g, node, rules)?)?;
    }
    Ok(nodes)
}

/// The base relations of the covers and of the target: their rules in which each call of a node that is no
/// cover was replaced, in order, by each rule of that node. Nothing calls itself: a chain of calls may be
/// as long as memory holds.
pub fn unfold(alloc: Global, r: &Relations, target: u32) -> Result<Direct, UnfoldFault>
    requires { target < length r.now }
    ensures { MatchResult result (λ direct. Succeeds r.now target direct) (λ fault. Tells r.now target fault) }
{
    let plan = plan_of(alloc, r)?;
    let bases = all_rules(alloc, &plan, r, target)?;
    Ok(assembled(alloc, r, bases)?)
}
