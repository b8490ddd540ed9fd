//! Cycles of superclasses and superinterfaces.

ghost use Rattle.std.specs.Prelude.{◌≡◌, ◌+◌, ◌<◌, IfOk, OnOk, length};
ghost use Rattle.class_hierarchy.specs.Building.{IsCyclic};
ghost use Rattle.class_hierarchy.specs.Ranks.{IsGraphBelow, number_in, has_peer, FindsPeer};
ghost use Rattle.class_hierarchy.specs.Orders.{IsOrder};

use crate::classes::Classes;
use graph_core::{Components, Graph, components};
use std::alloc::{AllocError, Global};

/// Adds an edge from the class to each class that it names.
fn add_supers(
    alloc: Global,
    classes: &Classes,
    class: u32,
    graph: &mut Graph,
) -> Result<(), AllocError>
    requires class { class < length classes.now }
    requires below { IsGraphBelow classes.now class graph.old }
    ensures { OnOk result (IsGraphBelow classes.now (class + 1) graph.new) }
{
    let supers = classes.supers(alloc, class)?;
    for other in &supers {
        graph.add(class, *other)?;
    }
    Ok(())
}

/// The graph of what each class names.
fn graph_of(alloc: Global, classes: &Classes) -> Result<Graph, AllocError>
    ensures { IfOk result (λ g. IsGraphBelow classes.now (length classes.now) g) }
{
    let mut graph = Graph::new(alloc, classes.len())?;
    for class in 0..classes.len() {
        add_supers(alloc, classes, class, &mut graph)?;
    }
    Ok(graph)
}

/// The number of a class.
pub(crate) fn number_in(numbers: &[u32], class: u32) -> u32
    ensures { result ≡ number_in numbers.now class }
{
    match numbers.get(class as usize) {
        Some(number) => *number,
        None => 0,
    }
}

/// Whether the class names one of its own component.
fn has_peer(graph: &Graph, numbers: &[u32], class: u32) -> bool
    requires { class < length graph.now }
    ensures { result ≡ has_peer graph.now numbers.now class }
{
    let number = number_in(numbers, class);
    graph
        .successors(class)
        .iter()
        .any(|other| number_in(numbers, *other) == number)
}

/// The first class that names one of its own component.
fn first_peer(graph: &Graph, numbers: &[u32]) -> Option<u32>
    ensures { FindsPeer graph.now numbers.now result }
{
    for class in 0..graph.nodes() {
        if has_peer(graph, numbers, class) {
            return Some(class);
        }
    }
    None
}

/// What the names of superclasses and superinterfaces lead to.
#[derive(Drop)]
pub(crate) enum Order {
    /// No class leads back to itself. Each class has a higher number than what it names.
    Ranked { ranks: Components },
    /// The first class that leads back to itself.
    Cyclic { class: u32 },
}

/// The first class that leads back to itself, or a number for each, higher than those of what it names. A class leads
/// back to itself exactly where it names one of its own component.
pub(crate) fn order_of(alloc: Global, classes: &Classes) -> Result<Order, AllocError>
    ensures { IfOk result (λ order. IsOrder classes.now order) }
{
    let graph = graph_of(alloc, classes)?;
    let numbers = components(alloc, &graph)?;
    match first_peer(&graph, numbers.as_slice()) {
        Some(class) => Ok(Order::Cyclic { class }),
        None => Ok(Order::Ranked { ranks: numbers }),
    }
}
