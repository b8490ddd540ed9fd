ghost use Rattle.steps.specs.Row.{OutcomesAreRows, RowsAreOutcomes, AtMostOneStep, SpentNeverFalls};

/// A law of all instructions: what each makes of what it sees is a row of the table, and each row that doesn't stop is
/// what the instruction makes.
pub fn outcomes_are_rows()
    ensures outcomes { OutcomesAreRows }
    ensures rows { RowsAreOutcomes }
{}

/// A law of all steps: a configuration has at most one next, and no step takes back what was spent.
pub fn at_most_one_step()
    ensures one { AtMostOneStep }
    ensures grows { SpentNeverFalls }
{}
