ghost use Rattle.std.specs.Prelude.{◌≡◌, ℕ, List};
ghost use Rattle.graph_core.specs.Paths.{IsFirstPath};

/// A node has one first path at most.
pub fn first_path_is_one()
    ensures { (g : List (List ℕ)) (root b : ℕ) (p q : List ℕ)
        → IsFirstPath g root p b → IsFirstPath g root q b → p ≡ q }
{}
