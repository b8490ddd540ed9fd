//! How many objects the longest chain from an array has, in a heap of arrays alone.
//!
//! The heap is `list N`, in which each of N arrays refers to the one before it, `ring N`, in which the first refers to
//! the last too, or `arrays`, with the values of each array behind a `/`. The length is that of the last array.

ghost use Rattle.std.specs.Prelude.{◌↔◌, All, IsTrue};
ghost use Rattle.frames.specs.declared.value.Value.TheVariants as values;
ghost use Rattle.path_length.specs.Lengths.{HoldsReached};
ghost use Rattle.machine_cases.specs.Closed.{HoldsValues, IsClosed, IsHeldValue};

use crate::values::values_of;
use case_texts::Case;
use machine::{Cell, Heap, Value};
use path_length::length;
use world_cases::name_of;

/// How many arrays a case has at most.
const MOST_ARRAYS: usize = 1 << 20;

fn is_held(heap: &Heap, value: Value) -> bool
    ensures { IsTrue result ↔ IsHeldValue heap.now value }
{
    match value {
        Value::Ref(r) => heap.get(r).is_some(),
        Value::Int(_) | Value::Long(_) | Value::Null | Value::Pad => true,
    }
}

fn are_held(heap: &Heap, items: &[Value]) -> bool
    ensures { IsTrue result ↔ All (IsHeldValue heap.now) items.now }
{
    items.iter().all(|item| is_held(heap, *item))
}

/// Whether the heap holds what an array refers to.
fn holds_values(heap: &Heap, number: u32) -> bool
    ensures { IsTrue result → HoldsValues heap.now number }
{
    match heap.get(number) {
        Some(Cell::Array { items, .. }) => are_held(heap, items.as_slice()),
        _ => false,
    }
}

/// Whether the heap has few arrays and holds whatever they refer to.
fn is_closed(heap: &Heap) -> bool
    ensures { IsTrue result → IsClosed heap.now }
{
    if heap.len() > MOST_ARRAYS {
        return false;
    }
    for number in 0..heap.len() {
        if !holds_values(heap, number as u32) {
            return false;
        }
    }
    true
}

/// Adds an array of these values.
fn add(case: &mut Case<'_>, heap: &mut Heap, values: Vec<Value>) {
    if heap.len() >= MOST_ARRAYS {
        case.malformed("too many arrays");
    } else if let Some(element) = name_of(case, "Ljava/lang/Object;") {
        let added = heap.array(element, values);
        case.made(added);
    }
}

fn add_one(case: &mut Case<'_>, heap: &mut Heap, value: Value) {
    let made = [value].to_vec(case.alloc());
    if let Some(values) = case.made(made) {
        add(case, heap, values);
    }
}

/// Adds so many arrays, each of which refers to the one before it, and the first to the value.
fn add_line(case: &mut Case<'_>, heap: &mut Heap, first: Value, count: u32) {
    let mut value = first;
    for number in 0..count {
        add_one(case, heap, value);
        value = Value::Ref(number);
    }
}

fn add_given(case: &mut Case<'_>, heap: &mut Heap) {
    let given = case.rest();
    for words in given.split('/') {
        let values = values_of(case, words);
        add(case, heap, values);
    }
}

/// The heap of the case.
fn heap_of(case: &mut Case<'_>) -> Heap {
    let mut heap = Heap::new(case.alloc());
    match case.word() {
        "list" => {
            let count = case.number();
            add_line(case, &mut heap, Value::Null, count);
        }
        "ring" => {
            let count: u32 = case.number();
            add_line(case, &mut heap, Value::Ref(count.saturating_sub(1)), count);
        }
        "arrays" => add_given(case, &mut heap),
        _ => case.malformed("no heap"),
    }
    heap
}

fn put_length(case: &mut Case<'_>, heap: &Heap, number: u32)
    requires { HoldsReached heap.now (values.Ref number) }
{
    let found = length(case.alloc(), heap, Value::Ref(number));
    match case.made(found) {
        Some(Some(length)) => case.show(&length),
        Some(None) => case.put("cycle"),
        None => {}
    }
}

/// The number of the last array.
fn last(heap: &Heap) -> u32 {
    u32::try_from(heap.len().saturating_sub(1)).unwrap_or(u32::MAX)
}

pub fn answer(case: &mut Case<'_>) {
    let heap = heap_of(case);
    let number = last(&heap);
    if is_closed(&heap) && heap.get(number).is_some() {
        put_length(case, &heap, number);
    } else {
        case.put("not held");
    }
}
