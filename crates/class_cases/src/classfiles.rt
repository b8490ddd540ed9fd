//! Class files (JVMS 4). `read FILE` says whether the file is a class, or its fault; `fronts FILE` says the same of its first
//! bytes, from which number of them on; `class`, `fields` and `method N` show what is read of it, and `long N` a long of
//! its pool; `written` names the file that has the bytes that are written of the class. A file is named and may be edited.

use crate::edits::{edited_file, name_with};
use crate::pools::name_of;
use crate::summaries::Summary;
use case_texts::Case;
use class_pool::PoolFault;
use class_reader::{Class, ClassFault, ClassRecord, Code, Field, Handler, Method, read};
use class_writer::write;
use std::alloc::Global;

/// How many bytes a table's file has at most.
const MOST: usize = 65535;

/// The class that the bytes are.
fn class_in(alloc: Global, bytes: &[u8]) -> Result<Class, ClassFault> {
    if bytes.len() > MOST {
        return Err(ClassFault::Memory);
    }
    read(alloc, bytes)
}

fn put_read(case: &mut Case<'_>, bytes: &[u8]) {
    match class_in(case.alloc(), bytes) {
        Ok(_) => case.put("read"),
        Err(fault) => case.show_debug(&fault),
    }
}

/// Whether the fault is that a file which ends so ends too early.
fn is_short(fault: &ClassFault, end: usize) -> bool {
    match fault {
        ClassFault::Short { at } | ClassFault::Pool(PoolFault::Short { at }) => {
            *at as usize == end
        }
        _ => false,
    }
}

/// What becomes of the first bytes: `short` where they end too early, and are said to end where they do.
fn put_front(case: &mut Case<'_>, front: &[u8]) {
    match class_in(case.alloc(), front) {
        Ok(_) => case.put("read"),
        Err(fault) if is_short(&fault, front.len()) => case.put("short"),
        Err(fault) => case.show_debug(&fault),
    }
}

/// What becomes of the first bytes, from which number of them on.
fn put_fronts(case: &mut Case<'_>, bytes: &[u8]) {
    let mut summary = Summary::new(case.alloc());
    for count in 0..=bytes.len() {
        let mut front = Case::new(case.alloc(), "", "");
        put_front(&mut front, bytes.get(..count).unwrap_or(bytes));
        summary.add(case, count, front);
    }
}

/// The version, the flags, and the names of the class, its superclass and its interfaces.
fn put_class(case: &mut Case<'_>, class: &ClassRecord) {
    case.show(&class.major);
    case.put(" ");
    case.show_bytes(&class.flags.to_be_bytes());
    case.put_word(name_of(&class.name));
    match class.super_name.as_ref() {
        Some(name) => case.put_word(name_of(name)),
        None => case.put_word("none"),
    }
    for interface in class.interfaces.as_slice() {
        case.put_word(name_of(interface));
    }
}

fn put_field(case: &mut Case<'_>, field: &Field) {
    case.put(", ");
    case.show_bytes(&field.flags.to_be_bytes());
    case.put_word(name_of(&field.name));
    case.put_word(name_of(&field.desc));
}

fn put_fields(case: &mut Case<'_>, class: &ClassRecord) {
    case.show(&class.fields.len());
    case.put(" fields");
    for field in class.fields.as_slice() {
        put_field(case, field);
    }
}

fn put_handler(case: &mut Case<'_>, handler: &Handler) {
    case.put(", from ");
    case.show(&handler.start);
    case.put(" before ");
    case.show(&handler.end);
    case.put(" to ");
    case.show(&handler.handler);
    match handler.catch.as_ref() {
        Some(name) => case.put_word(name_of(name)),
        None => case.put_word("any"),
    }
}

fn put_code(case: &mut Case<'_>, code: &Code) {
    case.put(", stack ");
    case.show(&code.max_stack);
    case.put(" locals ");
    case.show(&code.max_locals);
    case.put(" code ");
    case.show_bytes(code.bytes.as_slice());
    for handler in code.handlers.as_slice() {
        put_handler(case, handler);
    }
}

fn put_method(case: &mut Case<'_>, method: &Method) {
    case.show_bytes(&method.flags.to_be_bytes());
    case.put_word(name_of(&method.name));
    case.put_word(name_of(&method.desc));
    if let Some(code) = method.code.as_ref() {
        put_code(case, code);
    }
}

/// The method with this number, where there is one.
fn put_method_at(case: &mut Case<'_>, class: &ClassRecord, number: usize) {
    match class.methods.as_slice().get(number) {
        Some(method) => put_method(case, method),
        None => case.put("none"),
    }
}

fn put_long(case: &mut Case<'_>, class: &ClassRecord, index: u16) {
    match class.pool.long(index) {
        Some(long) => case.show(&long),
        None => case.put("none"),
    }
}

/// The name of the file that is written of the class.
fn put_written(case: &mut Case<'_>, class: &Class) {
    match write(case.alloc(), class) {
        Ok(bytes) => {
            let name = name_with(case, bytes.as_slice());
            case.put(name);
        }
        Err(fault) => case.show_debug(&fault),
    }
}

/// What a word asks of a class that is read, with its number.
fn put_part(case: &mut Case<'_>, verb: &str, number: u16, class: &Class) {
    match verb {
        "class" => put_class(case, class.record()),
        "fields" => put_fields(case, class.record()),
        "long" => put_long(case, class.record(), number),
        "method" => put_method_at(case, class.record(), usize::from(number)),
        _ => put_written(case, class),
    }
}

/// What a word asks of a file, with its number.
fn tell(case: &mut Case<'_>, verb: &str, number: u16, bytes: &[u8]) {
    match verb {
        "read" => put_read(case, bytes),
        "fronts" => put_fronts(case, bytes),
        _ => match class_in(case.alloc(), bytes) {
            Ok(class) => put_part(case, verb, number, &class),
            Err(_) => case.malformed("no class"),
        },
    }
}

pub fn answer(case: &mut Case<'_>) {
    let verb = case.word();
    let number = if matches!(verb, "method" | "long") {
        case.number()
    } else {
        0
    };
    let bytes = edited_file(case);
    tell(case, verb, number, bytes.as_slice());
}
