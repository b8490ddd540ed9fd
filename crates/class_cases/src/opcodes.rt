//! Opcodes (JVMS 7): the number of the opcode of a number, its mnemonic, and whether it is analysed or as what construct it
//! is not.

use case_texts::Case;
use op_table::{Op, Support, support};

fn put_opcode(case: &mut Case<'_>, op: Op) {
    case.show(&op.number());
    case.put_word(op.name());
    match support(op) {
        Support::Yes => case.put_word("yes"),
        Support::No(construct) => case.put_word(construct.word()),
    }
}

pub fn answer(case: &mut Case<'_>) {
    match Op::from_number(case.number()) {
        Some(op) => put_opcode(case, op),
        None => case.put("none"),
    }
}
