ghost use Rattle.std.specs.Prelude.{◌≡◌, ℕ, ◌<◌};
ghost use Rattle.fix_engine.specs.Solution.{IsLeast, gathered};

use crate::flow::Flow;

/// A lawful flow has one least solution: two agree at each point.
pub fn least_is_one<F: Flow>(flow: &F)
    ensures { (s t : ℕ → F.Fact)
        → IsLeast F.Fact.order (F.problem flow.now) s
        → IsLeast F.Fact.order (F.problem flow.now) t
        → (k : ℕ) → k < (F.problem flow.now).points → s k ≡ t k }
{}

/// The least solution is, at each point, the join of the start there and of what each edge that leads
/// there makes of it.
pub fn least_is_gathered<F: Flow>(flow: &F)
    ensures { (s : ℕ → F.Fact) → IsLeast F.Fact.order (F.problem flow.now) s
        → (k : ℕ) → k < (F.problem flow.now).points
        → s k ≡ gathered F.Fact.order (F.problem flow.now) s k (F.problem flow.now).edges }
{}
