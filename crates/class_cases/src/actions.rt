//! What the instruction does that code begins with (JVMS 6.5).

use crate::instructions::{code_of, decode_in};
use case_texts::Case;
use op_table::action_of;

pub fn answer(case: &mut Case<'_>) {
    let code = code_of(case);
    match decode_in(code.as_slice(), 0) {
        Ok(instr) => case.show_debug(&action_of(&instr)),
        Err(_) => case.malformed("no instruction"),
    }
}
