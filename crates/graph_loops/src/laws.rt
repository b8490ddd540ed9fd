ghost use Rattle.std.specs.Prelude.{◌⊎◌, ◌∷◌, ℕ, List, All, Contains};
ghost use Rattle.graph_core.specs.Paths.{Reaches};
ghost use Rattle.graph_core.specs.Components.{Closes};
ghost use Rattle.graph_core.specs.Loops.{HasLoop, IsInLoop};
ghost use Rattle.graph_loops.specs.Nesting.{LiesWithin};

/// A law: of two loops that have a node in common, one lies in the other. Does nothing.
pub fn loops_lie_apart_or_within()
    ensures { (g : List (List ℕ)) (root h k x : ℕ) → IsInLoop g root h x → IsInLoop g root k x
        → LiesWithin g root h k ⊎ LiesWithin g root k h }
{}

/// A law: the root reaches the nodes of each loop. Does nothing.
pub fn loops_are_reached()
    ensures { (g : List (List ℕ)) (root h x : ℕ) → HasLoop g root h → IsInLoop g root h x → Reaches g root x }
{}

/// A law: each cycle of nodes that the root reaches lies in the loop of one of its nodes, and so it passes the entry.
/// Does nothing.
pub fn cycles_lie_in_loops()
    ensures { (g : List (List ℕ)) (root a : ℕ) (rest : List ℕ) → Reaches g root a → Closes g a a rest
        → (h : ℕ) × Contains (a ∷ rest) h × HasLoop g root h × All (IsInLoop g root h) (a ∷ rest) }
{}
