//! The small ranking of a node.

ghost use Rattle.std.specs.Prelude.{length, IfOk, MatchOption};
ghost use Rattle.rankings.specs.Rankings.{IsRanking};
ghost use Rattle.rankings.specs.SelfCalls.{self_steps};
ghost use Rattle.small_rank.specs.Answer.{IsSmallRank, HasNoSmallRank};
ghost use Rattle.node_certificates.specs.Nodes.{AreStepsOf};

use crate::steps::self_steps;
use relations::DirectNode;
use small_rank::{SmallRank, small_rank};
use std::alloc::{AllocError, Global};

/// The first small ranking of the self calls of a node, or None exactly where there is none (Podelski and Rybalchenko, A
/// complete method for the synthesis of linear ranking functions, 2004).
pub fn rank(alloc: Global, node: &DirectNode) -> Result<Option<SmallRank>, AllocError>
    requires { AreStepsOf (length node.now.lengths) (self_steps node.now.node node.now.rules) }
    ensures answer { IfOk result (λ answer. MatchOption answer (HasNoSmallRank (self_steps node.now.node node.now.rules)) (IsSmallRank (self_steps node.now.node node.now.rules))) }
    // It is a ranking over the rational points of each live step.
    ensures ranking { IfOk result (λ answer. MatchOption answer (Unit {0}) (λ r. IsRanking (length node.now.lengths) (self_steps node.now.node node.now.rules) r.f r.c r.d)) }
{
    let steps = self_steps(alloc, node)?;
    small_rank(alloc, steps.as_slice())
}
