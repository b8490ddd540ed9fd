//! Whether the self calls of a node make steps that a ranking is looked for.

ghost use Rattle.std.specs.Prelude.{◌≡◌, ◌<◌, ◌^◌, ◌↔◌, length, IsTrue, IfOk};
ghost use Rattle.rankings.specs.SelfCalls.{self_steps};
ghost use Rattle.node_certificates.specs.Nodes.{AreStepsOf};

use crate::steps::self_steps;
use lin_rows::Transition;
use relations::DirectNode;
use std::alloc::{AllocError, Global};

/// Whether numbers of 32 bits count the rows of a step, and it has a next value for each size.
fn is_step_of(sizes: usize, step: &Transition) -> bool
    ensures { IsTrue result ↔ ((length step.now.rows < 2 ^ 32) × (length step.now.next ≡ sizes)) }
{
    step.rows.len() <= u32::MAX as usize && step.next.len() == sizes
}

/// Whether each step is such a one.
fn are_steps_of(sizes: usize, steps: &[Transition]) -> bool
    ensures { IsTrue result ↔ AreStepsOf sizes steps.now }
{
    steps.iter().all(|step| is_step_of(sizes, step))
}

/// Whether the self calls of a node make steps of which `rank` tells a ranking.
pub fn has_steps(alloc: Global, node: &DirectNode) -> Result<bool, AllocError>
    ensures { IfOk result (λ b. IsTrue b ↔ AreStepsOf (length node.now.lengths) (self_steps node.now.node node.now.rules)) }
{
    let steps = self_steps(alloc, node)?;
    Ok(are_steps_of(node.lengths.len(), steps.as_slice()))
}
