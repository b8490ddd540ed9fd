//! Elements of arrays, and how many there are (JVMS 6.5.aaload, 6.5.aastore, 6.5.arraylength).

ghost use Rattle.std.specs.Prelude.{◌≡◌, ◌<◌, ◌≤◌, ◌+◌, length, drop, option_map, Ok, OnErr, IfOk, IfSome, MatchResult};
ghost use Rattle.std.specs.Option.{option_copied};
ghost use Rattle.frames.specs.Heap.{cell_at};
ghost use Rattle.frames.specs.Tops.{kind_words};
ghost use Rattle.frames.specs.Outcome.{HasGone};
ghost use Rattle.object_steps.specs.After.{does, reads};
ghost use Rattle.object_steps.specs.Arrays.{array_length, element_read, elements_in, elements_of, index_in, is_element, is_storable, kind_of, length_in, length_of, load, store, writes, written};
ghost use Rattle.object_steps.specs.inside.Steps.{IsPossible, elements_seen};

use crate::ending::{MISFIT, MISFITS, has_room, push_read};
use crate::tops::place_at;
use class_pool::Text;
use frames::{
    Cell, Failure, Fetched, Going, Heap, Here, Raised, Value, is_of_type, is_reference_type,
    value_on, words_of,
};
use op_table::acts::{Element, Kind};
use std::alloc::AllocError;
use word_steps::narrowed_to;
use world::World;

// The greatest int.
const MOST: usize = 2_147_483_647;

const OUTSIDE: Failure = Failure::Throws(Raised::ArrayIndex);

// An array: its number, the type of its elements, and these.
#[derive(Clone, Copy)]
pub(crate) struct Found<'h> {
    pub(crate) number: u32,
    pub(crate) element: &'h Text,
    pub(crate) items: &'h [Value],
}

// What goes where in an array.
#[derive(Clone, Copy)]
pub(crate) struct ElementWrite {
    pub(crate) array: u32,
    pub(crate) index: usize,
    pub(crate) value: Value,
}

// Whether the elements are of such a type.
fn is_element(element: Element, desc: &[u8]) -> bool
    ensures { result ≡ is_element element desc.now }
{
    match element {
        Element::Int => desc == b"I".as_slice(),
        Element::Long => desc == b"J".as_slice(),
        Element::Reference => is_reference_type(desc),
        Element::Byte => desc == b"B".as_slice() || desc == b"Z".as_slice(),
        Element::Char => desc == b"C".as_slice(),
        Element::Short => desc == b"S".as_slice(),
    }
}

// What elements are computed with as.
fn kind_of(element: Element) -> Kind
    ensures { result ≡ kind_of element }
{
    match element {
        Element::Long => Kind::Long,
        Element::Reference => Kind::Reference,
        _ => Kind::Int,
    }
}

// The array of such elements with this number.
fn elements_in<'h>(element: Element, heap: &'h Heap, number: u32) -> Option<Found<'h>>
    ensures { option_map elements_seen result ≡ elements_in element number (cell_at heap.now number) }
{
    match heap.get(number) {
        Some(
            Cell::Array {
                element: desc,
                items,
            },
        ) if is_element(element, desc.as_slice()) => {
            Some(Found {
                number,
                element: desc,
                items: items.as_slice(),
            })
        }
        _ => None,
    }
}

// The array of such elements that a reference refers to, or why there is none.
fn elements_of<'h>(element: Element, heap: &'h Heap, reference: Value) -> Result<Found<'h>, Failure>
    ensures { MatchResult result
        (λ a. elements_of element heap.now reference ≡ Ok (elements_seen a))
        (λ failure. elements_of element heap.now reference ≡ Err failure) }
{
    match reference {
        Value::Null => Err(Failure::Throws(Raised::NullPointer)),
        Value::Ref(number) => match elements_in(element, heap, number) {
            Some(found) => Ok(found),
            None => Err(MISFIT),
        },
        _ => Err(MISFIT),
    }
}

// An index as that of one of the values.
fn index_in(index: i32, items: &[Value]) -> Option<usize>
    ensures place { result ≡ index_in index items.now }
    ensures within { IfSome result (λ i. i < length items.now) }
{
    let place = index.unsigned_abs() as usize;
    if index >= 0 && place < items.len() {
        Some(place)
    } else {
        None
    }
}

// The element that a reference and an index lead to, or why there is none.
fn element_read(
    element: Element,
    heap: &Heap,
    reference: Value,
    index: i32,
) -> Result<Value, Failure>
    ensures { result ≡ element_read element heap.now reference index }
{
    let array = elements_of(element, heap, reference)?;
    match index_in(index, array.items) {
        None => Err(OUTSIDE),
        Some(place) => Ok(array.items[place]),
    }
}

// What a load reads in the place of two words, or why it reads nothing.
fn loaded(element: Element, here: &Here) -> Result<Value, Failure>
    ensures same { load here.now element ≡ reads here.now (drop 2 here.now.frame.stack) result }
    ensures there { IfOk result (λ _. 2 ≤ length here.now.frame.stack) }
{
    match place_at(0, &here.frame.stack) {
        None => Err(MISFIT),
        Some((reference, index)) => element_read(element, &here.heap, reference, index),
    }
}

// Reads an element. An `Err` changes nothing.
pub(crate) fn load(
    element: Element,
    fetched: &Fetched<'_>,
    here: &mut Here,
) -> Result<Going, AllocError>
    requires { fetched.now.next ≡ here.old.frame.pc + fetched.now.standing.instr.len }
    ensures gone { IfOk result (λ going. HasGone going here.old here.new (does fetched.now.standing here.old (load here.old element))) }
    ensures err { OnErr result (here.new ≡ here.old) }
{
    let read = loaded(element, here);
    push_read(read, 2, fetched, here)
}

// Whether a value can be stored among elements of the type.
fn is_storable(world: &World, heap: &Heap, element: Element, desc: &[u8], value: Value) -> bool
    ensures { result ≡ is_storable world.now heap.now element desc.now value }
{
    match element {
        Element::Reference => is_of_type(world, heap, desc, value),
        _ => true,
    }
}

// Where a reference and an index lead, and what a value is there; or why it goes nowhere.
fn written(
    world: &World,
    heap: &Heap,
    element: Element,
    value: Value,
    reference: Value,
    index: i32,
) -> Result<ElementWrite, Failure>
    ensures same { result ≡ written world.now heap.now element value reference index }
    ensures there { IfOk result (IsPossible heap.now) }
{
    let array = elements_of(element, heap, reference)?;
    let desc = array.element.as_slice();
    match index_in(index, array.items) {
        None => Err(OUTSIDE),
        Some(index) => {
            if is_storable(world, heap, element, desc, value) {
                Ok(ElementWrite {
                    array: array.number,
                    index,
                    value: narrowed_to(desc, value),
                })
            } else {
                Err(Failure::Throws(Raised::ArrayStore))
            }
        }
    }
}

// What a store writes when it takes two words behind the value's, or why it writes nothing.
fn stored(world: &World, element: Element, here: &Here) -> Result<ElementWrite, Failure>
    ensures same { store world.now here.now element ≡ writes here.now (drop (kind_words (kind_of element) + 2) here.now.frame.stack) result }
    ensures there { IfOk result (λ t. (kind_words (kind_of element) + 2 ≤ length here.now.frame.stack) × IsPossible here.now.heap t) }
{
    let kind = kind_of(element);
    let Some(value) = value_on(kind, &here.frame.stack) else {
        return Err(MISFIT);
    };
    match place_at(words_of(kind), &here.frame.stack) {
        None => Err(MISFIT),
        Some((reference, index)) => { written(world, &here.heap, element, value, reference, index) }
    }
}

// Writes an element.
pub(crate) fn store(
    world: &World,
    element: Element,
    fetched: &Fetched<'_>,
    here: &mut Here,
) -> Going
    requires { fetched.now.next ≡ here.old.frame.pc + fetched.now.standing.instr.len }
    ensures { HasGone result here.old here.new (does fetched.now.standing here.old (store world.now here.old element)) }
{
    let taken = words_of(kind_of(element)) + 2;
    match stored(world, element, here) {
        Err(failure) => Going::Fails(failure),
        Ok(written) => write(written, taken, fetched, here),
    }
}

// Puts what is written into its array when so many words are taken, and goes on, where there is room.
fn write(written: ElementWrite, taken: usize, fetched: &Fetched<'_>, here: &mut Here) -> Going
    requires next { fetched.now.next ≡ here.old.frame.pc + fetched.now.standing.instr.len }
    requires taken { taken ≤ length here.old.frame.stack }
    requires there { IsPossible here.old.heap written }
    ensures { HasGone result here.old here.new (does fetched.now.standing here.old (writes here.old (drop taken here.old.frame.stack) (Ok written))) }
{
    if !has_room(fetched, here, taken, 0) {
        return MISFITS;
    }
    here.frame.stack.cut(taken);
    here.heap
        .set_element(written.array, written.index, written.value);
    here.frame.pc = fetched.next;
    Going::Goes
}

// The length of the array that a reference refers to, or why there is none.
fn length_of(heap: &Heap, reference: Value) -> Result<Value, Failure>
    ensures { result ≡ length_of heap.now reference }
{
    match reference {
        Value::Null => Err(Failure::Throws(Raised::NullPointer)),
        Value::Ref(number) => length_in(heap.get(number)),
        _ => Err(MISFIT),
    }
}

// The length of an array, where an int counts it.
fn length_in(cell: Option<&Cell>) -> Result<Value, Failure>
    ensures { result ≡ length_in (option_copied cell.entry) }
{
    match cell {
        Some(Cell::Array { items, .. }) if items.len() <= MOST => {
            Ok(Value::Int(items.len() as i32))
        }
        _ => Err(MISFIT),
    }
}

// Reads the length of an array. An `Err` changes nothing.
pub(crate) fn array_length(fetched: &Fetched<'_>, here: &mut Here) -> Result<Going, AllocError>
    requires { fetched.now.next ≡ here.old.frame.pc + fetched.now.standing.instr.len }
    ensures gone { IfOk result (λ going. HasGone going here.old here.new (does fetched.now.standing here.old (array_length here.old))) }
    ensures err { OnErr result (here.new ≡ here.old) }
{
    let read = match value_on(Kind::Reference, &here.frame.stack) {
        None => Err(MISFIT),
        Some(reference) => length_of(&here.heap, reference),
    };
    push_read(read, 1, fetched, here)
}
