//! The order of methods in which each stands behind those that it calls.

ghost use Rattle.std.specs.Prelude.{◌≡◌, ◌≤◌, length, IfOk, slice_index};
ghost use Rattle.code_flow.specs.Listing.{most_methods};
ghost use Rattle.code_flow.specs.CalleeOrder.{AreBelow, IsByNumber};

use std::alloc::{AllocError, Global};

// The numbers below the count.
fn numbers_below(alloc: Global, count: u32) -> Result<Vec<u32>, AllocError>
    ensures { IfOk result (λ nodes. AreBelow count nodes.items) }
{
    let mut nodes = Vec::new(alloc);
    for k in 0..count {
        nodes.push(k)?;
    }
    Ok(nodes)
}

// The number of a node's component.
fn number_of(numbers: &[u32], node: u32) -> u32
    ensures { result ≡ slice_index numbers.now node }
{
    match numbers.get(node as usize) {
        Some(number) => *number,
        None => 0,
    }
}

/// The nodes by the numbers of their components: an edge leads to no greater number.
pub(crate) fn order_of(alloc: Global, numbers: &[u32]) -> Result<Vec<u32>, AllocError>
    requires { length numbers.now ≤ most_methods }
    ensures { IfOk result (λ order. IsByNumber numbers.now order.items) }
{
    let mut order = numbers_below(alloc, numbers.len() as u32)?;
    order.sort_unstable_by_key(|node| number_of(numbers, *node));
    Ok(order)
}
