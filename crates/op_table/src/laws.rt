ghost use Rattle.op_table.specs.Laws.{CasesRise, InstrsAreDetermined, InstrsFit, OnlyOutsideIsOutside};

/// A law of the instructions: each takes a byte at least, and stands within the code.
pub fn instrs_fit()
    ensures { InstrsFit }
{}

/// A law of the instructions: what stands at a place of the code is given by the place and by the bytes that
/// it takes.
pub fn instrs_are_determined()
    ensures { InstrsAreDetermined }
{}

/// A law of the switches: the values of their cases rise.
pub fn cases_rise()
    ensures { CasesRise }
{}

/// A law of the actions: an instruction that stands in code has none only where its opcode is outside.
pub fn only_outside_is_outside()
    ensures { OnlyOutsideIsOutside }
{}
