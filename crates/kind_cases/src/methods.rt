//! Methods: the table gives a class, and a case is the name of one of its methods with code. Shown are the frames before each
//! instruction, or what is asked of them, or the place at which they disagree, with two frames.

ghost use Rattle.std.specs.Prelude.{◌≡◌, length, Contains, Some};
ghost use Rattle.method_body.specs.Bodies.{HasSoundCode};

use crate::loops;
use crate::shown::put_fact;
use crate::soundness::is_sound;
use case_texts::Case;
use case_texts::assembler::assembled;
use class_reader::{Class, ClassRecord, Code, Method, read};
use frame_kinds::{KindFault, Kinds, kinds};
use kind_frames::KindFact;
use method_body::Body;

/// What is asked of a method.
#[derive(Clone, Copy)]
pub enum Asked {
    Kinds,
    Loops,
}

// The class that the table gives.
fn class_given(case: &mut Case<'_>) -> Option<Class> {
    let bytes = assembled(case, case.given());
    if bytes.len() > u32::MAX as usize {
        return None;
    }
    read(case.alloc(), bytes.as_slice()).ok()
}

fn put_frame(case: &mut Case<'_>, pc: u32, fact: &KindFact) {
    case.part("; ");
    case.show(&pc);
    case.put(": ");
    put_fact(case, fact);
}

fn put_kinds(case: &mut Case<'_>, body: &Body<'_>, kinds: &Kinds)
    requires { length kinds.now ≡ length body.now.code.bytes }
{
    let size = body.code().bytes.as_slice().len();
    for i in body.instructions() {
        if (i.pc as usize) < size {
            put_frame(case, i.pc, kinds.before(i.pc));
        }
    }
}

fn put_fault(case: &mut Case<'_>, fault: &KindFault) {
    match fault {
        KindFault::Disagree { pc, first, second } => {
            case.put("disagree ");
            case.show(pc);
            case.put(": ");
            put_fact(case, first);
            case.put("; ");
            put_fact(case, second);
        }
        KindFault::Memory => case.put("memory"),
    }
}

fn put_body(case: &mut Case<'_>, body: &Body<'_>, asked: Asked) {
    match kinds(case.alloc(), body) {
        Ok(found) => match asked {
            Asked::Kinds => put_kinds(case, body, &found),
            Asked::Loops => loops::put(case, body, &found),
        },
        Err(fault) => put_fault(case, &fault),
    }
}

fn put_sound(case: &mut Case<'_>, class: &ClassRecord, method: &Method, code: &Code, asked: Asked)
    requires declared { Contains class.now.methods method.now }
    requires sound { HasSoundCode method.now code.now }
{
    let body = Body::new(case.alloc(), class, method, code);
    if let Some(body) = case.made(body) {
        put_body(case, &body, asked);
    }
}

fn put_code(case: &mut Case<'_>, class: &ClassRecord, method: &Method, code: &Code, asked: Asked)
    requires declared { Contains class.now.methods method.now }
    requires own { method.now.code ≡ Some code.now }
{
    let bytes = code.bytes.as_slice();
    if bytes.len() < 1 || bytes.len() > 65535 {
        return;
    }
    match is_sound(case.alloc(), bytes) {
        Ok(true) => put_sound(case, class, method, code, asked),
        Ok(false) => case.malformed("the code isn't sound"),
        Err(error) => case.keep(Err(error)),
    }
}

fn put_method(case: &mut Case<'_>, class: &ClassRecord, name: &str, asked: Asked) {
    for method in class.methods.as_slice() {
        if method.name.is_same(name.as_bytes()) {
            if let Some(code) = &method.code {
                put_code(case, class, method, code, asked);
            }
        }
    }
}

/// Answers what is asked of the method that the case names.
pub fn answer(case: &mut Case<'_>, asked: Asked) {
    let name = case.rest();
    match class_given(case) {
        Some(class) => put_method(case, class.record(), name, asked),
        None => case.malformed("no class is given"),
    }
}
