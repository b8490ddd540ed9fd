//! Constant pools, at the offset 8 of a file (JVMS 4.4). `read FILE` says where the pool ends, how many bytes stand behind
//! it and how many indices it has, or its fault; `fronts FILE` says the same of the first bytes of the file, from which
//! number of them on; `at INDEX FILE` shows an entry, and what is found at its index. A file is named and may be edited.

use crate::edits::edited_file;
use crate::summaries::Summary;
use case_texts::Case;
use class_pool::{Constant, Cursor, Pool, PoolFault, Text};
use std::alloc::Global;
use std::str;

/// How many bytes a table's pool has at most.
const MOST: usize = 65535;

/// The pool that the bytes begin with, and what stands behind it.
fn pool_in<'a>(alloc: Global, bytes: &'a [u8]) -> Result<(Pool, Cursor<'a>), PoolFault> {
    if bytes.len() > MOST {
        return Err(PoolFault::Memory);
    }
    Pool::read(alloc, Cursor::new(bytes, 8))
}

/// Where the pool ends, and what is behind it and in it.
fn put_read(case: &mut Case<'_>, pool: &Pool, cursor: &Cursor<'_>) {
    case.put("to ");
    case.show(&cursor.at());
    case.put(", ");
    case.show(&cursor.left());
    case.put(" left, ");
    case.show(&pool.entries().len());
    case.put(" indices");
}

fn tell(case: &mut Case<'_>, bytes: &[u8]) {
    match pool_in(case.alloc(), bytes) {
        Ok((pool, cursor)) => put_read(case, &pool, &cursor),
        Err(fault) => case.show_debug(&fault),
    }
}

/// What becomes of the first bytes: `short` where they end too early, and are said to end where they do.
fn put_front(case: &mut Case<'_>, front: &[u8]) {
    let end = front.len().wrapping_add(8);
    match pool_in(case.alloc(), front) {
        Ok(_) => case.put("read"),
        Err(PoolFault::Short { at }) if at as usize == end => case.put("short"),
        Err(fault) => case.show_debug(&fault),
    }
}

/// What becomes of the first bytes, from which number of them on.
fn tell_fronts(case: &mut Case<'_>, bytes: &[u8]) {
    let mut summary = Summary::new(case.alloc());
    for count in 0..=bytes.len() {
        let mut front = Case::new(case.alloc(), "", "");
        put_front(&mut front, bytes.get(..count).unwrap_or(bytes));
        summary.add(case, count, front);
    }
}

/// The text as text, and `?` where it has bytes that are none.
pub fn name_of(text: &Text) -> &str {
    str::from_utf8(text.as_slice()).unwrap_or("?")
}

fn kind_of(entry: &Constant) -> &'static str {
    match entry {
        Constant::Utf8(_) => "Utf8",
        Constant::Integer(_) => "Integer",
        Constant::Float(_) => "Float",
        Constant::Long(_) => "Long",
        Constant::Double(_) => "Double",
        Constant::Class(_) => "Class",
        Constant::String(_) => "String",
        Constant::Fieldref { .. } => "Fieldref",
        Constant::Methodref { .. } => "Methodref",
        Constant::InterfaceMethodref { .. } => "InterfaceMethodref",
        Constant::NameAndType { .. } => "NameAndType",
        Constant::MethodHandle { .. } => "MethodHandle",
        Constant::MethodType(_) => "MethodType",
        Constant::Dynamic { .. } => "Dynamic",
        Constant::InvokeDynamic { .. } => "InvokeDynamic",
        Constant::Module(_) => "Module",
        Constant::Package(_) => "Package",
    }
}

fn put_pair(case: &mut Case<'_>, first: u16, second: u16) {
    case.show_word(&first);
    case.show_word(&second);
}

/// What stands in an entry that names others by their indices, behind its tag.
fn put_indices(case: &mut Case<'_>, entry: &Constant) {
    match entry {
        Constant::Class(index)
        | Constant::String(index)
        | Constant::MethodType(index)
        | Constant::Module(index)
        | Constant::Package(index) => case.show_word(index),
        Constant::MethodHandle { kind, reference } => put_pair(case, u16::from(*kind), *reference),
        Constant::NameAndType { name, descriptor } => put_pair(case, *name, *descriptor),
        Constant::Fieldref {
            class,
            name_and_type,
        }
        | Constant::Methodref {
            class,
            name_and_type,
        }
        | Constant::InterfaceMethodref {
            class,
            name_and_type,
        } => put_pair(case, *class, *name_and_type),
        Constant::Dynamic {
            bootstrap,
            name_and_type,
        }
        | Constant::InvokeDynamic {
            bootstrap,
            name_and_type,
        } => put_pair(case, *bootstrap, *name_and_type),
        _ => {}
    }
}

/// What stands in an entry behind its tag.
fn put_body(case: &mut Case<'_>, entry: &Constant) {
    match entry {
        Constant::Utf8(text) => case.put_word(name_of(text)),
        Constant::Integer(bits) | Constant::Float(bits) => {
            case.put(" ");
            case.show_bytes(&bits.to_be_bytes());
        }
        Constant::Long(bits) | Constant::Double(bits) => {
            case.put(" ");
            case.show_bytes(&bits.to_be_bytes());
        }
        _ => put_indices(case, entry),
    }
}

/// The entry of an index, or what stands there in place of one.
fn put_entry(case: &mut Case<'_>, pool: &Pool, index: u16) {
    let place = usize::from(index).wrapping_sub(1);
    match pool.entries().get(place) {
        None => case.put("nothing"),
        Some(None) => case.put("a gap"),
        Some(Some(entry)) => {
            case.put(if entry.is_wide() { "wide " } else { "" });
            case.put(kind_of(entry));
            put_body(case, entry);
        }
    }
}

/// The text and the class that are found at an index.
fn put_name(case: &mut Case<'_>, pool: &Pool, index: u16) {
    if let Some(text) = pool.utf8(index) {
        case.put("; text ");
        case.put(name_of(text));
    }
    if let Some(name) = pool.class_name(index) {
        case.put("; class ");
        case.put(name_of(name));
    }
}

/// The names of a member that are found at an index.
fn put_member(case: &mut Case<'_>, pool: &Pool, index: u16) {
    if let Some((name, desc)) = pool.name_and_type(index) {
        case.put("; name");
        case.put_word(name_of(name));
        case.put_word(name_of(desc));
    }
    if let Some((tag, class, name, desc)) = pool.member(index) {
        case.put("; member");
        case.show_word(&tag);
        case.put_word(name_of(class));
        case.put_word(name_of(name));
        case.put_word(name_of(desc));
    }
}

/// The numbers that are found at an index.
fn put_numbers(case: &mut Case<'_>, pool: &Pool, index: u16) {
    if let Some(int) = pool.int(index) {
        case.put("; int ");
        case.show(&int);
    }
    if let Some(long) = pool.long(index) {
        case.put("; long ");
        case.show(&long);
    }
}

fn tell_at(case: &mut Case<'_>, bytes: &[u8], index: u16) {
    match pool_in(case.alloc(), bytes) {
        Ok((pool, _)) => {
            put_entry(case, &pool, index);
            put_name(case, &pool, index);
            put_member(case, &pool, index);
            put_numbers(case, &pool, index);
        }
        Err(_) => case.malformed("no pool"),
    }
}

pub fn answer(case: &mut Case<'_>) {
    let verb = case.word();
    let index = if verb == "at" { case.number() } else { 0 };
    let bytes = edited_file(case);
    match verb {
        "at" => tell_at(case, bytes.as_slice(), index),
        "fronts" => tell_fronts(case, bytes.as_slice()),
        _ => tell(case, bytes.as_slice()),
    }
}
