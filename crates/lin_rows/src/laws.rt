//! Laws about the definitions. Nothing runs here: each contract is the law.

ghost use Rattle.std.specs.Prelude.{ℤ, List};
ghost use Rattle.q128.specs.Fraction.{Fraction};
ghost use Rattle.lin_rows.specs.Linear.{Linear};
ghost use Rattle.lin_rows.specs.Laws.{ReachedHolds, NoPoint, ProvedHolds, ProvedHoldsAtWhole, StepOnWholes, StepAt, ProvedFalls, ProvedFallsAtWhole, RoomIsFree};

/// A row that multipliers prove holds at each point and at all whole numbers at which the given rows hold. At a ray it
/// does so where the sum has the row's own coefficients: rows that contradict each other may hold at a ray.
pub fn proving_is_sound()
    // At each point and ray, where the sum has the row's coefficients and at most its constant.
    ensures reached { ReachedHolds }
    // At each point.
    ensures points { ProvedHolds }
    // At all whole numbers.
    ensures whole_numbers { ProvedHoldsAtWhole }
    // Rows that contradict each other hold together at no point.
    ensures contradiction { NoPoint }
{}

/// What an expression after a step and its drop are worth.
pub fn steps_are_substitutions()
    ensures wholes { (f : Linear) (next : List Linear) (d : ℤ) (zs : List ℤ) → StepOnWholes f next d zs }
    // At points and rays.
    ensures fractions { (f : Linear) (next : List Linear) (d : ℤ) (t : Fraction) (v : List Fraction) → StepAt f next d t v }
    // A drop that is proved happens at each step.
    ensures falls { ProvedFalls }
    ensures falls_at_wholes { ProvedFallsAtWhole }
{}

/// How much room a sum of rows is given has no part in what it is.
pub fn room_is_free()
    ensures { RoomIsFree }
{}
