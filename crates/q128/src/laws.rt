//! Laws about the definitions. Nothing runs here: each contract is the law.

ghost use Rattle.std.specs.Prelude.{ℤ};
ghost use Rattle.q128.specs.Laws.{AreOrderedField, IsNarrow, RuleOnWholes};

/// Fractions up to being the same rational are an ordered field.
pub fn fractions_are_an_ordered_field()
    ensures { AreOrderedField }
{}

/// What the rule makes of whole numbers, of which each operation's result is whole.
pub fn whole_numbers_stay_whole()
    ensures { (a b : ℤ) → IsNarrow a → IsNarrow b → RuleOnWholes a b }
{}
