//! Laws of lists, tests and numbers that the proofs of several crates use. The lemmas stand in
//! `proofs`, a file for each subject; the contracts here say what each file is for.
#![tactic(auto)]

ghost use Rattle.std.specs.Prelude.{◌≡◌, ◌↔◌, ℕ, ◌<◌, ◌≤◌, Bool, true, false, nat_eq, List, length, map, find, slice_get, slice_index_or, flat_map, Option, Some, None, AllPairs, Contains};
ghost use Rattle.std.specs.List.{list_any, position};
ghost use Rattle.std.specs.Option.{option_or};

/// A law: the members of a list stand at its places. Does nothing.
pub fn members_have_places<T>()
    ensures { (xs : List T) (x : T) → Contains xs x ↔ ((i : ℕ) × (slice_get xs i ≡ Some x)) }
{}

/// A law: the members of a list that is mapped are the images of its members. Does nothing.
pub fn images_are_members<T, U>()
    ensures { (f : T → U) (xs : List T) (y : U) → Contains (map f xs) y ↔ ((x : T) × Contains xs x × (f x ≡ y)) }
{}

/// A law: the members of joined lists are those of each. Does nothing.
pub fn joined_members<T, U>()
    ensures { (f : T → List U) (xs : List T) (y : U) → Contains (flat_map f xs) y ↔ ((x : T) × Contains xs x × Contains (f x) y) }
{}

/// A law: a test passes in a list where it passes at a member. Does nothing.
pub fn tests_pass_at_members<T>()
    ensures { (p : T → Bool) (xs : List T) → (list_any p xs ≡ true) ↔ ((x : T) × Contains xs x × (p x ≡ true)) }
{}

/// A law: what a search finds is a member that passes, and where it finds none, none passes. Does nothing.
pub fn searches_find_members<T>()
    ensures found { (p : T → Bool) (xs : List T) (x : T) → find p xs ≡ Some x → Contains xs x × (p x ≡ true) }
    ensures none { (p : T → Bool) (xs : List T) → find p xs ≡ None → list_any p xs ≡ false }
{}

/// A law: a number is a member where the test for it passes. Does nothing.
pub fn numbers_are_listed()
    ensures { (d : ℕ) (xs : List ℕ) → (list_any (nat_eq d) xs ≡ true) ↔ Contains xs d }
{}

/// A law: a place that passes behind places that don't is the first one. Does nothing.
pub fn first_places<T>()
    ensures { (p : T → Bool) (xs : List T) (i : ℕ) (d : T) → i < length xs → p (slice_index_or xs i d) ≡ true → ((k : ℕ) → k < i → p (slice_index_or xs k d) ≡ false) → position p xs ≡ Some i }
{}

/// A law: of one answer or another there is none where neither is there. Does nothing.
pub fn choices_are_none<T>()
    ensures { (a b : Option T) → option_or a b ≡ None → (a ≡ None) × (b ≡ None) }
{}

/// A law: a list without repeat is no longer than a list that has its members. Does nothing.
pub fn lists_without_repeat_are_short<T>()
    ensures { (xs ys : List T) → AllPairs (λ (x y : T). ¬ (x ≡ y)) xs → ((x : T) → Contains xs x → Contains ys x) → length xs ≤ length ys }
{}

/// A law: two lists in a strict order with the same members are the same. Does nothing.
pub fn ordered_lists_are_one()
    ensures { (xs ys : List ℕ) → AllPairs (λ (x y : ℕ). x < y) xs → AllPairs (λ (x y : ℕ). x < y) ys → ((x : ℕ) → Contains xs x ↔ Contains ys x) → xs ≡ ys }
{}
