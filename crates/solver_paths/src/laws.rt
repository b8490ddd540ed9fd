//! Laws about the definitions. Nothing runs here: each contract is the law.

ghost use Rattle.solver_paths.specs.Laws.{PivotsClash, PathsEnd, NoChoiceTwice, OneDictionary, EndsExclude, PointsHold, ContradictionsHold};
ghost use Rattle.std.specs.Prelude.{ℕ, List};
ghost use Rattle.lin_rows.specs.Linear.{Linear};
ghost use Rattle.solver_paths.specs.Paths.{Goes};
ghost use Rattle.solver_paths.specs.Dictionaries.{PivotsKeepSolutions, RowsStart};
ghost use Rattle.solver_paths.specs.Rulers.{RulersAreShort};

/// A law: of the pivots at two choices one lets a row enter, the other lets it leave for a lower
/// row, and the higher rows chosen at the second are chosen at the first. Then one of them isn't
/// the solver's. Does nothing.
pub fn pivots_clash()
    ensures { PivotsClash }
{}

/// A law: a ruler of numbers below n is shorter than the n-th power of 2. Does nothing.
pub fn rulers_are_short()
    ensures { RulersAreShort }
{}

/// A law: the solver's pivots, from whatever choice, come to an end. Does nothing.
pub fn paths_end()
    ensures { (rows : List Linear) (first last : List ℕ) (ps : List (ℕ × ℕ)) → Goes rows first ps last → PathsEnd rows first last ps }
{}

/// A law: the solver's path comes to no choice twice. Does nothing.
pub fn no_choice_comes_twice()
    ensures { NoChoiceTwice }
{}

/// A law: a choice has one dictionary, whatever its order. Does nothing.
pub fn a_choice_has_one_dictionary()
    ensures { OneDictionary }
{}

/// A law: of a point, a contradiction and an operation that is too wide, a problem's path ends with
/// one alone. Does nothing.
pub fn ends_exclude()
    ensures { (rows : List Linear) → EndsExclude rows }
{}

/// A law: a pivot keeps the solutions, so what it makes of a dictionary is the dictionary of the
/// choice after it. Does nothing.
pub fn pivots_keep_solutions()
    ensures { PivotsKeepSolutions }
{}

/// A law: the rows themselves are the dictionary of the first choice. Does nothing.
pub fn rows_are_the_first_dictionary()
    ensures { RowsStart }
{}

/// A law: the point of a choice that meets all rows is a point of the rows. Does nothing.
pub fn points_hold()
    ensures { PointsHold }
{}

/// A law: the multipliers of a stuck choice contradict the rows. Does nothing.
pub fn contradictions_hold()
    ensures { ContradictionsHold }
{}
