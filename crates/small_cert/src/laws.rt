//! Laws about the definitions. Nothing runs here: each contract is the law.

ghost use Rattle.std.specs.Prelude.{ℤ, List};
ghost use Rattle.lin_rows.specs.Linear.{Linear};
ghost use Rattle.lin_rows.specs.Proving.{Multipliers, Reaches};
ghost use Rattle.small_cert.specs.Small.{IsSmallBy, AreShared};

/// A small row is reached by its multipliers: it holds wherever the rows hold.
pub fn small_rows_are_reached()
    ensures { (rows : List Linear) (l : Linear) (n m : Multipliers) (k : ℤ) → IsSmallBy rows l m k → AreShared n m k → Reaches rows n l }
{}
