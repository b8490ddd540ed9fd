ghost use Rattle.std.specs.Prelude.{◌≡◌, ◌<◌, [], true, false, length, slice_index_or, slice_set, IfOk, OnOk};
ghost use Rattle.graph_core.specs.Graphs.{IsRising};
ghost use Rattle.graph_core.specs.MarkLists.{IsListed};

use std::alloc::{AllocError, Global};

/// Nodes that are marked, and the list of them, by which their marks are taken away again.
#[derive(Drop)]
pub(crate) struct Listed {
    pub(crate) marks: Vec<bool>,
    pub(crate) nodes: Vec<u32>,
}

/// Marks for so many nodes, of which none is marked.
pub(crate) fn none_listed(alloc: Global, nodes: u32) -> Result<Listed, AllocError>
    ensures count { IfOk result (λ listed. length listed.marks.items ≡ nodes) }
    ensures listed { IfOk result (λ listed. IsListed listed.marks.items listed.nodes.items) }
    ensures none { IfOk result (λ listed. listed.nodes.items ≡ []) }
{
    let marks = vec![in alloc; false; nodes as usize]?;
    Ok(Listed {
        marks,
        nodes: Vec::new(alloc),
    })
}

/// Marks a node, which has no mark.
pub(crate) fn list(listed: &mut Listed, x: u32) -> Result<(), AllocError>
    requires listed { IsListed listed.old.marks.items listed.old.nodes.items }
    requires x { x < length listed.old.marks.items }
    requires unmarked { slice_index_or listed.old.marks.items x false ≡ false }
    ensures marks { OnOk result (listed.new.marks.items ≡ slice_set listed.old.marks.items x true) }
    ensures listed { OnOk result (IsListed listed.new.marks.items listed.new.nodes.items) }
{
    listed.nodes.push(x)?;
    listed.marks[x as usize] = true;
    Ok(())
}

/// Brings the list into rising order.
pub(crate) fn sort(listed: &mut Listed)
    requires listed { IsListed listed.old.marks.items listed.old.nodes.items }
    ensures marks { listed.new.marks.items ≡ listed.old.marks.items }
    ensures listed { IsListed listed.new.marks.items listed.new.nodes.items }
    ensures rising { IsRising listed.new.nodes.items }
{
    listed.nodes.sort_unstable();
}

/// Takes all marks away.
pub(crate) fn clear(listed: &mut Listed)
    requires listed { IsListed listed.old.marks.items listed.old.nodes.items }
    ensures count { length listed.new.marks.items ≡ length listed.old.marks.items }
    ensures listed { IsListed listed.new.marks.items listed.new.nodes.items }
    ensures none { listed.new.nodes.items ≡ [] }
{
    for i in 0..listed.nodes.len() {
        let x = listed.nodes[i];
        listed.marks[x as usize] = false;
    }
    listed.nodes.clear();
}
