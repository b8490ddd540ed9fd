//! Instructions (JVMS 6.5). A case is a place and code, parted by `: `. Shown are the opcode's number, whether it is wide, its
//! length and what its operands say. Where an instruction stands there, also each shorter code that isn't said to be
//! too short is shown, and so are bytes that stand behind the instruction. The case `behind wide` decodes each byte
//! behind `wide`, with the operands 1, 2, -1 and -2, and counts those that are said to be no opcodes.

use case_texts::Case;
use case_texts::texts::bytes_of;
use op_table::{Instr, OpFault, decode};

/// The code that comes next, up to the end.
pub fn code_of(case: &mut Case<'_>) -> Vec<u8> {
    let digits = case.rest();
    bytes_of(case, digits)
}

/// What stands at a place of the code.
pub fn decode_in(code: &[u8], pc: u32) -> Result<Instr, OpFault> {
    if (pc as usize) < code.len() && code.len() <= 65535 {
        decode(code, pc)
    } else {
        Err(OpFault::Short { pc })
    }
}

fn put_instruction(case: &mut Case<'_>, instr: &Instr) {
    case.show(&instr.op.number());
    case.put(" ");
    case.show(&instr.wide);
    case.put(" ");
    case.show(&instr.len);
    case.put(" ");
    case.show_debug(&instr.args);
}

fn put_found(case: &mut Case<'_>, found: &Result<Instr, OpFault>) {
    match found {
        Ok(instr) => put_instruction(case, instr),
        Err(fault) => case.show_debug(fault),
    }
}

/// Shows each front of the code in which something else than `Short` is found.
fn put_fronts(case: &mut Case<'_>, code: &[u8], pc: u32) {
    for end in 0..code.len() {
        let found = decode_in(&code[..end], pc);
        if found != Err(OpFault::Short { pc }) {
            case.put("; with ");
            case.show(&end);
            case.put(" bytes ");
            put_found(case, &found);
        }
    }
}

/// Where the instruction ends, if this isn't where the code ends.
fn put_end(case: &mut Case<'_>, code: &[u8], pc: u32, instr: &Instr) {
    let end = u64::from(pc).wrapping_add(u64::from(instr.len));
    if end != code.len() as u64 {
        case.put("; ends at ");
        case.show(&end);
    }
}

fn tell(case: &mut Case<'_>, code: &[u8], pc: u32) {
    let found = decode_in(code, pc);
    put_found(case, &found);
    if let Ok(instr) = &found {
        put_fronts(case, code, pc);
        put_end(case, code, pc, instr);
    }
}

fn tell_wide(case: &mut Case<'_>) {
    let mut unknown = 0u32;
    for byte in 0..=255u8 {
        let found = decode(&[0xc4, byte, 1, 2, 0xff, 0xfe], 0);
        if found == Err(OpFault::UnknownOp { pc: 0, byte }) {
            unknown = unknown.wrapping_add(1);
        } else {
            put_found(case, &found);
            case.put("; ");
        }
    }
    case.show(&unknown);
    case.put(" unknown");
}

pub fn answer(case: &mut Case<'_>) {
    match case.until(": ") {
        "behind wide" => tell_wide(case),
        pc => {
            let pc = case.parsed(pc);
            let code = code_of(case);
            tell(case, code.as_slice(), pc);
        }
    }
}
