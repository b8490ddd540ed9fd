ghost use Rattle.std.specs.Prelude.{◌≡◌, ◌<◌, ◌≤◌, ℕ, Bool, List, length, slice_index};
ghost use Rattle.graph_core.specs.Paths.{Reaches};
ghost use Rattle.graph_order.specs.CalleesFirst.{IsCalleeFirst};

/// A law: a graph has one callee-first order. Does nothing.
pub fn callee_first_order_is_one()
    ensures { (g : List (List ℕ)) (chosen : List Bool) (xs ys : List ℕ)
        → IsCalleeFirst g chosen xs → IsCalleeFirst g chosen ys → xs ≡ ys }
{}

/// A law: what a component in the order calls into, directly or through others, doesn't stand after it. Does
/// nothing.
pub fn callees_stand_before()
    ensures { (g : List (List ℕ)) (chosen : List Bool) (order : List ℕ) → IsCalleeFirst g chosen order
        → (i j : ℕ) → i < length order → j < length order
        → Reaches g (slice_index order i) (slice_index order j) → j ≤ i }
{}
