//! What opcodes and instructions cost where each costs 1. The input is the number of an opcode, or `code` and the bytes of
//! an instruction, or `all` for each opcode, with the first from which on a cost is another one.

use crate::instructions::{code_of, decode_in};
use crate::summaries::Summary;
use case_texts::Case;
use cost_model::CostModel;
use op_table::Op;

fn put_cost(case: &mut Case<'_>, number: u8) {
    match Op::from_number(number) {
        Some(op) => case.show(&CostModel::counting().charge(op)),
        None => case.put("no opcode"),
    }
}

fn tell_all(case: &mut Case<'_>) {
    let mut summary = Summary::new(case.alloc());
    for number in 0..=255u8 {
        let mut cost = Case::new(case.alloc(), "", "");
        put_cost(&mut cost, number);
        summary.add(case, usize::from(number), cost);
    }
}

fn tell_instruction(case: &mut Case<'_>) {
    let code = code_of(case);
    match decode_in(code.as_slice(), 0) {
        Ok(instr) => {
            case.put(instr.op.name());
            case.show_word(&CostModel::counting().charge_instr(&instr));
        }
        Err(fault) => case.show_debug(&fault),
    }
}

pub fn answer(case: &mut Case<'_>) {
    match case.word() {
        "all" => tell_all(case),
        "code" => tell_instruction(case),
        number => {
            let number = case.parsed(number);
            put_cost(case, number);
        }
    }
}
