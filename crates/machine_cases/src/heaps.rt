//! What stands at a number of the heap that a table gives: a number, the word `in`, and the names of classes.
//!
//! The heap is the part that begins with a line `heap`. A line for each object is `object CLASS VALUES`, with the values
//! of the first fields that its class declares, two at most, or of an array `array ELEMENT VALUES`.

ghost use Rattle.std.specs.Prelude.{◌≢◌, ◌<◌, ◌^◌, length, IfSome, AllPairs};

use crate::values::{put_value, values_of};
use case_texts::Case;
use class_pool::Text;
use machine::{Cell, Heap, Value};
use world::{MemberId, World};
use world_cases::{class_name, name_of, shown, world_of};

/// How many objects and arrays a case has at most.
const MOST_CELLS: usize = 1000;

/// Values for the first fields of a class.
fn fields_of(case: &mut Case<'_>, class: u32, values: &[Value]) -> Option<Vec<(MemberId, Value)>>
    ensures { IfSome result (λ v. AllPairs (λ f g. f.0 ≢ g.0) v.items) }
{
    let first = MemberId { class, member: 0 };
    let second = MemberId { class, member: 1 };
    match values {
        [] => Some(Vec::new(case.alloc())),
        [one] => [(first, *one)].to_vec(case.alloc()).ok(),
        [one, two] => [(first, *one), (second, *two)].to_vec(case.alloc()).ok(),
        _ => None,
    }
}

/// Adds an object with these values in its first fields.
fn add_object(case: &mut Case<'_>, heap: &mut Heap, class: u32, values: &[Value])
    requires { length heap.old < 2 ^ 32 }
{
    match fields_of(case, class, values) {
        Some(fields) => {
            let added = heap.object(class, fields);
            case.made(added);
        }
        None => case.malformed("too many fields"),
    }
}

/// Adds an array of elements of this type.
fn add_array(case: &mut Case<'_>, heap: &mut Heap, element: Text, values: Vec<Value>)
    requires { length heap.old < 2 ^ 32 }
{
    let added = heap.array(element, values);
    case.made(added);
}

/// Adds the object or array of this line.
fn add(case: &mut Case<'_>, world: &World, heap: &mut Heap, line: &str) {
    let (kind, line) = case.halves(line, " ");
    let (name, values) = line.split_once(' ').unwrap_or((line, ""));
    let values = values_of(case, values);
    if heap.len() >= MOST_CELLS {
        case.malformed("too many objects");
    } else if kind == "array" {
        if let Some(element) = name_of(case, name) {
            add_array(case, heap, element, values);
        }
    } else if let Some(class) = world.class_named(name.as_bytes()) {
        add_object(case, heap, class, &values);
    } else {
        case.malformed("no such class");
    }
}

/// The heap that the table gives.
pub fn heap_of(case: &mut Case<'_>, world: &World) -> Heap {
    let mut heap = Heap::new(case.alloc());
    let (_, lines) = case.given().split_once("\n\nheap\n").unwrap_or(("", ""));
    for line in lines.lines() {
        add(case, world, &mut heap, line);
    }
    heap
}

fn put_object(case: &mut Case<'_>, world: &World, class: u32, fields: &[(MemberId, Value)]) {
    case.put("object ");
    case.put(class_name(world, class));
    for (field, value) in fields {
        case.show_word(&field.member);
        case.put("=");
        put_value(case, *value);
    }
}

fn put_array(case: &mut Case<'_>, element: &Text, items: &[Value]) {
    case.put("array ");
    case.put(shown(element));
    for value in items {
        case.put(" ");
        put_value(case, *value);
    }
}

fn put_cell(case: &mut Case<'_>, world: &World, cell: &Cell) {
    match cell {
        Cell::Object { class, fields } => put_object(case, world, *class, fields.as_slice()),
        Cell::Array { element, items } => put_array(case, element, items.as_slice()),
    }
}

pub fn answer(case: &mut Case<'_>) {
    if let Some(world) = world_of(case) {
        let heap = heap_of(case, &world);
        match heap.get(case.number()) {
            Some(cell) => put_cell(case, &world, cell),
            None => case.put("none"),
        }
        case.put(" of ");
        case.show(&heap.len());
    }
}
