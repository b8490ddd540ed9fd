//! What holds of each world.

ghost use Rattle.std.specs.Prelude.{◌≡◌, ◌<◌, ◌↔◌, ℕ, List, [], ◌∷◌, length, Some, IsTrue};
ghost use Rattle.std.specs.List.{flat_map};
ghost use Rattle.std.specs.Option.{option_map_or};
ghost use Rattle.class_hierarchy.specs.World.{World, class_at, number_of, superclass, interfaces, line, above, is_below};
ghost use Rattle.class_hierarchy.specs.Building.{IsWellBuilt};
ghost use Rattle.class_hierarchy.specs.Instances.{IsInstance};

/// A law: each class is found by its name. Does nothing.
pub fn names_are_own()
    ensures { (w : World) → IsWellBuilt w → (c : ℕ) → c < length w → number_of w (class_at w c).name ≡ Some c }
{}

/// A law: a class that names a superclass has one, of this name (JVMS 4.1). Does nothing.
pub fn superclasses_are_there()
    ensures { (w : World) → IsWellBuilt w → (c : ℕ) (name : List ℕ) → c < length w → (class_at w c).super_name ≡ Some name → (d : ℕ) × (d < length w) × (superclass w c ≡ Some d) × ((class_at w d).name ≡ name) }
{}

/// A law: a class and its superclasses are the class, and then the superclass and its superclasses. Does nothing.
pub fn lines_are_whole()
    ensures { (w : World) → IsWellBuilt w → (c : ℕ) → c < length w → line w c ≡ c ∷ option_map_or (λ s. line w s) (superclass w c) [] }
{}

/// A law: above a class stand its direct superinterfaces, each before what stands above it. Does nothing.
pub fn interfaces_are_whole()
    ensures { (w : World) → IsWellBuilt w → (c : ℕ) → above w c ≡ flat_map (λ i. i ∷ above w i) (interfaces w c) }
{}

/// A law: a class is below another exactly where a chain of names of superclasses, and then of superinterfaces, leads
/// there (JVMS 6.5.instanceof). Does nothing.
pub fn instances_are_chains()
    ensures { (w : World) → IsWellBuilt w → (c d : ℕ) → c < length w → (IsTrue (is_below w c d) ↔ IsInstance w c d) }
{}
