//! What stands above given classes: a question, the word `in`, and the classes' names.

use crate::given::{are_few, classes_of, put_fault, shown};
use case_texts::Case;
use class_hierarchy::Hierarchy;
use std::alloc::AllocError;

fn hierarchy_of(case: &mut Case<'_>) -> Option<Hierarchy> {
    let classes = classes_of(case);
    if !are_few(&classes) {
        case.malformed("too many classes");
        return None;
    }
    match Hierarchy::build(case.alloc(), classes) {
        Ok(hierarchy) => Some(hierarchy),
        Err(fault) => {
            put_fault(case, &fault);
            None
        }
    }
}

/// The names of the classes with these numbers.
fn put_names(case: &mut Case<'_>, hierarchy: &Hierarchy, classes: &[u32]) {
    for class in classes {
        case.put_word(shown(&hierarchy.record(*class).name));
    }
}

/// The names of the classes that were found.
fn put_found(case: &mut Case<'_>, hierarchy: &Hierarchy, found: Result<Vec<u32>, AllocError>) {
    if let Some(classes) = case.made(found) {
        put_names(case, hierarchy, &classes);
    }
}

/// The class that the next word names.
fn class_of(case: &mut Case<'_>, hierarchy: &Hierarchy) -> Option<u32> {
    let found = hierarchy.number(case.word().as_bytes());
    if found.is_none() {
        case.malformed("no such class");
    }
    found
}

/// The classes that the words name.
fn classes_named(case: &mut Case<'_>, hierarchy: &Hierarchy) -> Vec<u32> {
    let mut classes = Vec::new(case.alloc());
    for name in case.rest().split_whitespace() {
        match hierarchy.number(name.as_bytes()) {
            Some(class) => case.add(&mut classes, class),
            None => case.malformed("no such class"),
        }
    }
    classes
}

/// The name of the direct superclass.
fn above(hierarchy: &Hierarchy, class: u32) -> &str {
    match hierarchy.superclass(class) {
        Some(above) => shown(&hierarchy.record(above).name),
        None => "nothing",
    }
}

/// The number of the class, its direct superclass and its origin.
fn put_class(case: &mut Case<'_>, hierarchy: &Hierarchy, class: u32) {
    if class >= hierarchy.count() {
        case.put("none");
        return;
    }
    case.show(&class);
    match hierarchy.file(class) {
        Some(file) => case.put_word(shown(&file.record().name)),
        None => case.put_word("built in"),
    }
    case.put_word("under");
    case.put_word(above(hierarchy, class));
}

/// The direct superinterfaces.
fn put_interfaces(case: &mut Case<'_>, hierarchy: &Hierarchy, class: u32) {
    if class < hierarchy.count() {
        put_names(case, hierarchy, hierarchy.interfaces(class));
    } else {
        case.put("none");
    }
}

/// The classes and interfaces above a class.
fn put_ancestors(case: &mut Case<'_>, hierarchy: &Hierarchy, class: u32) {
    let found = hierarchy.ancestors(case.alloc(), class);
    if let Some(classes) = case.made(found) {
        put_names(case, hierarchy, classes.as_slice());
    }
}

/// The answer to a question about what stands above a class.
fn tell_above(case: &mut Case<'_>, hierarchy: &Hierarchy, what: &str, class: u32) {
    let found = match what {
        "ancestors" => return put_ancestors(case, hierarchy, class),
        "line" => hierarchy.line(case.alloc(), class),
        _ => hierarchy.superinterfaces(case.alloc(), class),
    };
    put_found(case, hierarchy, found);
}

/// The answer to a question about a class.
fn tell_class(case: &mut Case<'_>, hierarchy: &Hierarchy, what: &str, class: u32) {
    match what {
        "class" => put_class(case, hierarchy, class),
        "instantiable" => case.show(&hierarchy.is_instantiable(class)),
        "interface" => case.show(&hierarchy.is_interface(class)),
        "interfaces" => put_interfaces(case, hierarchy, class),
        _ => tell_above(case, hierarchy, what, class),
    }
}

/// The classes above all of those that the words name.
fn put_above_all(case: &mut Case<'_>, hierarchy: &Hierarchy) {
    let classes = classes_named(case, hierarchy);
    let found = hierarchy.above_all(case.alloc(), &classes);
    put_found(case, hierarchy, found);
}

/// Whether the one class that the next words name stands above the other, or below it.
fn put_relation(case: &mut Case<'_>, hierarchy: &Hierarchy, is_above: bool) {
    let one = class_of(case, hierarchy);
    let other = class_of(case, hierarchy);
    if let (Some(one), Some(other)) = (one, other) {
        let holds = if is_above {
            hierarchy.is_above(one, other)
        } else {
            hierarchy.is_below(one, other)
        };
        case.show(&holds);
    }
}

/// The answer to a question.
fn tell(case: &mut Case<'_>, hierarchy: &Hierarchy, what: &str) {
    match what {
        "above" => put_relation(case, hierarchy, true),
        "all" => put_above_all(case, hierarchy),
        "below" => put_relation(case, hierarchy, false),
        "order" => put_names(case, hierarchy, hierarchy.supers_first()),
        _ => {
            if let Some(class) = class_of(case, hierarchy) {
                tell_class(case, hierarchy, what, class);
            }
        }
    }
}

pub fn answer(case: &mut Case<'_>) {
    if let Some(hierarchy) = hierarchy_of(case) {
        let what = case.word();
        tell(case, &hierarchy, what);
    }
}
