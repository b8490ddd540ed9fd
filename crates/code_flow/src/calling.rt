//! The graph of the calls of the methods that are listed.

ghost use Rattle.std.specs.Prelude.{◌≡◌, ◌<◌, ◌≤◌, ℕ, length, map, take, flat_map, OnOk, IfOk, [], ◌∷◌};
ghost use Rattle.class_hierarchy.specs.World.{World as Classes};
ghost use Rattle.code_flow.specs.Listing.{most_methods};
ghost use Rattle.code_flow.specs.Scanning.{scan_of};
ghost use Rattle.code_flow.specs.Scanned.{site_targets};
ghost use Rattle.code_flow.specs.Returning.{Adds, IsGraphTo};

use crate::found::Found;
use crate::scanning::{Scan, Site};
use graph_core::Graph;
use std::alloc::{AllocError, Global};
use world::MemberId;

// Adds the edge of a call of the method t from the i-th method.
fn add_call(graph: &mut Graph, found: &Found, i: u32, t: MemberId) -> Result<(), AllocError>
    requires node { i < length graph.old }
    requires count { length graph.old ≡ length found.now }
    requires few { length found.now ≤ most_methods }
    ensures nodes { length graph.new ≡ length graph.old }
    ensures added { OnOk result (Adds found.now i (t ∷ []) graph.old graph.new) }
{
    match found.place(t) {
        Some(place) => graph.add(i, place as u32),
        None => Ok(()),
    }
}

// Adds the edges of calls of these methods.
fn add_calls(
    graph: &mut Graph,
    found: &Found,
    i: u32,
    targets: &[MemberId],
) -> Result<(), AllocError>
    requires node { i < length graph.old }
    requires count { length graph.old ≡ length found.now }
    requires few { length found.now ≤ most_methods }
    ensures nodes { length graph.new ≡ length graph.old }
    ensures added { OnOk result (Adds found.now i targets.now graph.old graph.new) }
{
    for t in targets {
        add_call(graph, found, i, *t)?;
    }
    Ok(())
}

// Adds the edges of the calls of an instruction.
fn add_site(graph: &mut Graph, found: &Found, i: u32, site: &Site) -> Result<(), AllocError>
    requires node { i < length graph.old }
    requires count { length graph.old ≡ length found.now }
    requires few { length found.now ≤ most_methods }
    ensures nodes { length graph.new ≡ length graph.old }
    ensures added { OnOk result (Adds found.now i (site_targets site.now) graph.old graph.new) }
{
    match &site.verdict {
        Ok(targets) => add_calls(graph, found, i, targets.as_slice()),
        Err(_) => Ok(()),
    }
}

// Adds the edges of the calls of all instructions.
fn add_sites(graph: &mut Graph, found: &Found, i: u32, sites: &[Site]) -> Result<(), AllocError>
    requires node { i < length graph.old }
    requires count { length graph.old ≡ length found.now }
    requires few { length found.now ≤ most_methods }
    ensures nodes { length graph.new ≡ length graph.old }
    ensures added { OnOk result (Adds found.now i (flat_map site_targets sites.now) graph.old graph.new) }
{
    for site in sites {
        add_site(graph, found, i, site)?;
    }
    Ok(())
}

/// The graph of the calls, where all methods are listed. The nodes are the places of the methods.
pub(crate) fn graph_of(alloc: Global, found: &Found, scans: &[Scan]) -> Result<Graph, AllocError>
    requires few { length found.now ≤ most_methods }
    requires count { length scans.now ≡ length found.now }
    ensures { IfOk result (λ g. (w : Classes) → scans.now ≡ map (scan_of w) found.now → IsGraphTo w found.now (length found.now) g) }
{
    let mut graph = Graph::new(alloc, found.as_slice().len() as u32)?;
    for (i, scan) in scans.iter().enumerate() {
        add_sites(&mut graph, found, i as u32, scan.body.sites.as_slice())?;
    }
    Ok(graph)
}
