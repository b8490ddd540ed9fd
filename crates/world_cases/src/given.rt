//! The classes that a table gives, as texts that are parted by empty lines; worlds of them; and what their names and
//! methods are in the texts of cases.

ghost use Rattle.std.specs.Prelude.{◌≤◌, ◌↔◌, IsTrue, length};

use case_texts::Case;
use case_texts::assembler::assembled;
use class_hierarchy::WorldFault;
use class_pool::{Target, Text};
use class_reader::{Class, read};
use std::str;
use world::{MemberId, World};

/// How many classes a case names at most.
const MOST_CLASSES: usize = 1000;

/// The text of the class of this name.
fn text_named<'a>(given: &'a str, name: &str) -> Option<&'a str> {
    for text in given.split("\n\n") {
        if text.starts_with("class ") && text.split(' ').nth(1) == Some(name) {
            return Some(text);
        }
    }
    None
}

/// The class that the bytes are.
fn class_in(case: &mut Case<'_>, bytes: &[u8]) -> Option<Class> {
    if bytes.len() > u32::MAX as usize {
        case.malformed("a class is too long");
        return None;
    }
    let class = read(case.alloc(), bytes).ok();
    if class.is_none() {
        case.malformed("a class isn't one");
    }
    class
}

/// The class of this name.
fn class_of(case: &mut Case<'_>, name: &str) -> Option<Class> {
    let Some(text) = text_named(case.given(), name) else {
        case.malformed("a class isn't given");
        return None;
    };
    let bytes = assembled(case, text);
    class_in(case, &bytes)
}

/// The classes whose names stand behind the word `in`, in order: there are few. They are cut off the input.
pub fn classes_of(case: &mut Case<'_>) -> Vec<Class> {
    let names = case.behind(" in ");
    let mut classes = Vec::new(case.alloc());
    for name in names.split(' ') {
        if let Some(class) = class_of(case, name) {
            case.add(&mut classes, class);
        }
    }
    classes
}

/// Whether these are not too many for a world.
pub fn are_few(classes: &[Class]) -> bool
    ensures { IsTrue result ↔ (length classes.now ≤ 1000) }
{
    classes.len() <= MOST_CLASSES
}

fn put_about(case: &mut Case<'_>, what: &str, name: &Text) {
    case.put(what);
    case.put(shown(name));
}

fn put_between(case: &mut Case<'_>, what: &str, class: &Text, name: &Text) {
    put_about(case, what, class);
    put_about(case, " ", name);
}

/// Why the classes are no world.
pub fn put_fault(case: &mut Case<'_>, fault: &WorldFault) {
    match fault {
        WorldFault::Twice { name } => put_about(case, "twice ", name),
        WorldFault::MissingSuper { class, name } => {
            put_between(case, "missing super ", class, name)
        }
        WorldFault::WrongSuper { class, name } => put_between(case, "wrong super ", class, name),
        WorldFault::SuperCycle { name } => put_about(case, "super cycle ", name),
        WorldFault::FinalSuper { class, name } => put_between(case, "final super ", class, name),
        WorldFault::Memory => case.put("memory"),
    }
}

/// The world of the classes that the case names. Where there is none, the answer is the fault.
pub fn world_of(case: &mut Case<'_>) -> Option<World> {
    let classes = classes_of(case);
    if !are_few(&classes) {
        case.malformed("too many classes");
        return None;
    }
    match World::build(case.alloc(), classes) {
        Ok(world) => Some(world),
        Err(fault) => {
            put_fault(case, &fault);
            None
        }
    }
}

/// The text as a word of an answer.
pub fn shown(text: &Text) -> &str {
    str::from_utf8(text.as_slice()).unwrap_or("?")
}

/// The name of the class with this number.
pub fn class_name(world: &World, class: u32) -> &str {
    if class < world.count() {
        shown(world.name_at(class))
    } else {
        "?"
    }
}

/// Adds the method with this number to the answer, as `CLASS.NAME`.
pub fn put_method(case: &mut Case<'_>, world: &World, m: MemberId) {
    case.put(class_name(world, m.class));
    case.put(".");
    match world.find_method(m) {
        Some(method) => case.put(shown(&method.name)),
        None => case.put("?"),
    }
}

/// The name that a word is.
pub fn name_of(case: &mut Case<'_>, word: &str) -> Option<Text> {
    let name = Text::from_slice(case.alloc(), word.as_bytes());
    case.made(name)
}

/// The method that the next word `CLASS.NAME:DESCRIPTOR` names.
pub fn target_of(case: &mut Case<'_>) -> Option<Target> {
    let (class, method, desc) = (case.until("."), case.until(":"), case.word());
    Some(Target {
        class: name_of(case, class)?,
        method: name_of(case, method)?,
        desc: name_of(case, desc)?,
    })
}
