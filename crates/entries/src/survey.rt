//! What the references of a heap reach.

ghost use Rattle.std.specs.Prelude.{◌≡◌, ◌<◌, ◌^◌, ◌∷◌, [], ◌↔◌, ℕ, IfOk, OnOk, IsTrue, length, map};
ghost use Rattle.graph_core.specs.Numbers.{AreComponents};
ghost use Rattle.graph_core.specs.Search.{IsSearch};
ghost use Rattle.frames.specs.Heap.{cell_at};
ghost use Rattle.entries.specs.Entry.{values_in};
ghost use Rattle.entries.specs.inside.Survey.{AddsTo, AllPass, AreMarks, IsGraph, IsMark, IsSurvey, OnCycle, PassesAt, passes};

use crate::cells::is_held;
use frames::{Cell, Heap, Value};
use graph_core::{Components, FirstPaths, Graph, components, first_paths};
use std::alloc::{AllocError, Global};
use world::{MemberId, World};

// What is told of a number of the heap.
#[derive(Clone, Copy)]
pub(crate) struct Mark {
    // Whether a good object or array stands there.
    held: bool,
    // Whether its references lead back to it.
    cyclic: bool,
}

// The references of a heap as a graph, and what is told of each number.
#[derive(Drop)]
pub(crate) struct Survey {
    graph: Graph,
    marks: Vec<Mark>,
}

// An edge for the value, where it is a reference to a node.
#[tactic(auto, using(crate::proofs::Marks::adds_none, crate::proofs::Marks::adds_past, crate::proofs::Marks::adds_one))]
fn note(g: &mut Graph, a: u32, value: Value) -> Result<(), AllocError>
    requires { a < length g.old }
    ensures nodes { length g.new ≡ length g.old }
    ensures noted { OnOk result (AddsTo g.old g.new a (value ∷ [])) }
{
    match value {
        Value::Ref(b) => {
            if b < g.nodes() {
                g.add(a, b)?;
            }
        }
        _ => {}
    }
    Ok(())
}

// The same for each of an array's elements.
fn note_items(g: &mut Graph, a: u32, items: &[Value]) -> Result<(), AllocError>
    requires { a < length g.old }
    ensures nodes { length g.new ≡ length g.old }
    ensures noted { OnOk result (AddsTo g.old g.new a items.now) }
{
    for value in items {
        note(g, a, *value)?;
    }
    Ok(())
}

// The same for the value of each of an object's fields.
fn note_fields(g: &mut Graph, a: u32, fields: &[(MemberId, Value)]) -> Result<(), AllocError>
    requires { a < length g.old }
    ensures nodes { length g.new ≡ length g.old }
    ensures noted { OnOk result (AddsTo g.old g.new a (map (λ f. f.1) fields.now)) }
{
    for f in fields {
        note(g, a, f.1)?;
    }
    Ok(())
}

// The same for all values in what has the number.
#[tactic(auto, using(crate::proofs::Marks::adds_nothing))]
fn note_cell(g: &mut Graph, heap: &Heap, a: u32) -> Result<(), AllocError>
    requires { a < length g.old }
    ensures nodes { length g.new ≡ length g.old }
    ensures noted { OnOk result (AddsTo g.old g.new a (values_in (cell_at heap.now a))) }
{
    match heap.get(a) {
        Some(Cell::Object { fields, .. }) => note_fields(g, a, fields.as_slice()),
        Some(Cell::Array { items, .. }) => note_items(g, a, items.as_slice()),
        None => Ok(()),
    }
}

// A node for each number of the heap, and an edge for each reference.
fn graph_of(alloc: Global, heap: &Heap) -> Result<Graph, AllocError>
    requires { length heap.now < 2 ^ 32 }
    ensures { IfOk result (λ g. IsGraph heap.now g) }
{
    let nodes = heap.len() as u32;
    let mut g = Graph::new(alloc, nodes)?;
    for a in 0..nodes {
        note_cell(&mut g, heap, a)?;
    }
    Ok(g)
}

// Whether an edge leads from the node into its own component.
fn is_on_cycle(g: &Graph, components: &Components, b: u32) -> bool
    requires numbers { AreComponents g.now components.now }
    requires node { b < length g.now }
    ensures { IsTrue result ↔ OnCycle g.now b }
{
    for c in g.successors(b) {
        if components.of(*c) == components.of(b) {
            return true;
        }
    }
    false
}

fn mark_of(
    alloc: Global,
    w: &World,
    heap: &Heap,
    g: &Graph,
    components: &Components,
    b: u32,
) -> Result<Mark, AllocError>
    requires numbers { AreComponents g.now components.now }
    requires node { b < length g.now }
    ensures { IfOk result (λ mark. IsMark w.now heap.now g.now b mark) }
{
    let held = is_held(alloc, w, heap, b)?;
    let cyclic = is_on_cycle(g, components, b);
    Ok(Mark { held, cyclic })
}

// What is told of each number.
fn marks_of(
    alloc: Global,
    w: &World,
    heap: &Heap,
    g: &Graph,
    components: &Components,
) -> Result<Vec<Mark>, AllocError>
    requires { AreComponents g.now components.now }
    ensures count { IfOk result (λ marks. length marks.items ≡ length g.now) }
    ensures marks { IfOk result (λ marks. AreMarks w.now heap.now g.now marks.items) }
{
    let mut marks = Vec::new(alloc);
    for b in 0..g.nodes() {
        let mark = mark_of(alloc, w, heap, g, components, b)?;
        marks.push(mark)?;
    }
    Ok(marks)
}

// What is told of the heap.
pub(crate) fn survey_of(alloc: Global, w: &World, heap: &Heap) -> Result<Survey, AllocError>
    requires { length heap.now < 2 ^ 32 }
    ensures { IfOk result (λ survey. IsSurvey w.now heap.now survey) }
{
    let graph = graph_of(alloc, heap)?;
    let numbers = components(alloc, &graph)?;
    let marks = marks_of(alloc, w, heap, &graph, &numbers)?;
    Ok(Survey { graph, marks })
}

// Whether what has a number is good, and on no cycle where none is allowed.
fn passes(acyclic: bool, mark: Mark) -> bool
    ensures { result ≡ passes acyclic mark }
{
    mark.held && !(acyclic && mark.cyclic)
}

// Whether the number passes where it is reached.
fn passes_at(paths: &FirstPaths, survey: &Survey, acyclic: bool, b: u32) -> bool
    requires node { b < length paths.now.numbers }
    requires mark { b < length survey.now.marks.items }
    ensures { (root : ℕ) → IsSearch survey.now.graph root paths.now → (IsTrue result ↔ PassesAt acyclic survey.now.graph survey.now.marks.items root b) }
{
    if !paths.reaches(b) {
        return true;
    }
    passes(acyclic, survey.marks[b as usize])
}

// Whether all numbers pass that the root reaches.
pub(crate) fn all_pass(
    alloc: Global,
    survey: &Survey,
    root: u32,
    acyclic: bool,
) -> Result<bool, AllocError>
    requires root { root < length survey.now.graph }
    requires count { length survey.now.marks.items ≡ length survey.now.graph }
    ensures { IfOk result (λ r. IsTrue r ↔ AllPass acyclic survey.now.graph survey.now.marks.items root) }
{
    let paths = first_paths(alloc, &survey.graph, root)?;
    for b in 0..survey.graph.nodes() {
        if !passes_at(&paths, survey, acyclic, b) {
            return Ok(false);
        }
    }
    Ok(true)
}
