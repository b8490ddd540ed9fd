//! The cases of switches (JVMS 6.5.tableswitch, 6.5.lookupswitch). `PC: CODE` shows each case of the switch at a place of
//! code, as its value and its jump. `longest HEAD SIZE COUNT` puts so many cases behind the head of a switch, the i-th
//! with the value and the jump i in so many bytes, and three more bytes; it shows how long the code is, and the last case.

ghost use Rattle.std.specs.Prelude.{◌≡◌};
ghost use Rattle.op_table.specs.Cases.{case_count};

use crate::instructions::{code_of, decode_in};
use case_texts::Case;
use case_texts::texts::bytes_of;
use op_table::{Args, Instr, case as case_at, decode};

/// How many cases the instruction has.
fn count_of(instr: &Instr) -> u32
    ensures { result ≡ case_count instr.now.args }
{
    match instr.args {
        Args::Switch { count, .. } => count,
        _ => 0,
    }
}

/// A case of the switch at a place of the code.
fn case_in(code: &[u8], pc: u32, i: u32) -> Option<(i32, i32)> {
    if (pc as usize) >= code.len() || code.len() > 65535 {
        return None;
    }
    let found = decode(code, pc).ok()?;
    if i < count_of(&found) {
        Some(case_at(code, pc, i))
    } else {
        None
    }
}

/// How many cases the switch at a place of the code has.
fn count_in(code: &[u8], pc: u32) -> u32 {
    match decode_in(code, pc) {
        Ok(instr) => count_of(&instr),
        Err(_) => 0,
    }
}

fn put_cases(case: &mut Case<'_>, code: &[u8], pc: u32) {
    let count = count_in(code, pc);
    case.show(&count);
    for i in 0..count {
        if let Some((value, jump)) = case_in(code, pc, i) {
            case.put(", ");
            case.show(&value);
            case.put(" by ");
            case.show(&jump);
        }
    }
}

/// Adds the cases of a switch: the jump of each, and its value before it where a case has eight bytes.
fn push_cases(case: &mut Case<'_>, code: &mut Vec<u8>, size: u32, count: u32) {
    for i in 0..count {
        if size == 8 {
            case.append(code, &i.to_be_bytes());
        }
        case.append(code, &i.to_be_bytes());
    }
    case.append(code, &[0; 3]);
}

fn tell_longest(case: &mut Case<'_>) {
    let head = case.word();
    let mut code = bytes_of(case, head);
    let (size, count): (u32, u32) = (case.number(), case.number());
    push_cases(case, &mut code, size, count);
    case.show(&code.len());
    case.put(" bytes, ");
    case.show_debug(&case_in(code.as_slice(), 0, count.wrapping_sub(1)));
}

pub fn answer(case: &mut Case<'_>) {
    match case.word() {
        "longest" => tell_longest(case),
        pc => {
            let pc = case.parsed(pc.trim_end_matches(':'));
            let code = code_of(case);
            put_cases(case, code.as_slice(), pc);
        }
    }
}
