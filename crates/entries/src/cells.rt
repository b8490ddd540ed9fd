//! Which objects and arrays of a heap a method can be entered with (JVMS 2.3, 2.4).

ghost use Rattle.std.specs.Prelude.{◌≡◌, ◌<◌, ◌∷◌, ◌↔◌, All, IfOk, IsTrue, false, length, slice_get};
ghost use Rattle.std.specs.Option.{option_map_or};
ghost use Rattle.std.specs.List.{list_all, list_any};
ghost use Rattle.descriptors.specs.Grammar.{IsFieldDescriptor};
ghost use Rattle.frames.specs.Heap.{cell_at, is_object_field};
ghost use Rattle.entries.specs.Entry.{IsArray, IsHeld};
ghost use Rattle.entries.specs.inside.Cells.{agrees, are_distinct, are_items, are_known, has_each, has_own, has_value, is_in_range, is_known, is_member, is_object, own_holds};

use class_reader::{ClassRecord, Field};
use descriptors::is_field_descriptor;
use frames::{Cell, Heap, Value, is_object_field, is_of_type};
use std::alloc::{AllocError, Global};
use word_steps::left_in;
use world::{MemberId, World};

/// How many elements an array has at most.
const MAX_ELEMENTS: usize = 2147483647;

// Whether nothing of a number is lost in the type (JVMS 2.3.1, 2.3.4).
fn is_in_range(desc: &[u8], value: Value) -> bool
    ensures { result ≡ is_in_range desc.now value }
{
    match value {
        Value::Int(n) => left_in(desc, n) == n,
        _ => true,
    }
}

// Whether a value agrees with the type.
pub(crate) fn agrees(w: &World, heap: &Heap, desc: &[u8], value: Value) -> bool
    ensures { result ≡ agrees w.now heap.now desc.now value }
{
    is_of_type(w, heap, desc, value) && is_in_range(desc, value)
}

fn is_member(m: MemberId, n: MemberId) -> bool
    ensures { result ≡ is_member m n }
{
    m.class == n.class && m.member == n.member
}

// Whether a value stands for the field of the type, and agrees.
fn has_value(w: &World, heap: &Heap, fields: &[(MemberId, Value)], m: MemberId, desc: &[u8]) -> bool
    ensures { result ≡ has_value w.now heap.now fields.now (m, desc.now) }
{
    fields
        .iter()
        .any(|f| is_member(m, f.0) && agrees(w, heap, desc, f.1))
}

// Whether a value stands for the field at this place of a class, where objects have one.
fn has_one(w: &World, heap: &Heap, fields: &[(MemberId, Value)], m: MemberId, field: &Field) -> bool
    ensures { result ≡ own_holds (has_value w.now heap.now fields.now) m.class m.member field.now }
{
    !is_object_field(field) || has_value(w, heap, fields, m, field.desc.as_slice())
}

// Whether values stand for all fields of objects that the class itself declares.
#[tactic(auto, using(crate::proofs::Objects::own_at))]
fn has_own(w: &World, heap: &Heap, fields: &[(MemberId, Value)], class: u32) -> bool
    requires { class < length w.now }
    ensures { result ≡ has_own w.now heap.now fields.now class }
{
    let declared = w.record_at(class).fields.as_slice();
    for place in 0..declared.len() {
        let member = place as u32;
        if !has_one(
            w,
            heap,
            fields,
            MemberId { class, member },
            &declared[place],
        ) {
            return false;
        }
    }
    true
}

// The same of all these classes.
fn has_each(w: &World, heap: &Heap, fields: &[(MemberId, Value)], classes: &[u32]) -> bool
    requires { All (λ d. d < length w.now) classes.now }
    ensures { result ≡ has_each w.now heap.now fields.now classes.now }
{
    for d in classes {
        if !has_own(w, heap, fields, *d) {
            return false;
        }
    }
    true
}

// Whether the class has a field of objects at this place.
fn declares(class: &ClassRecord, place: u32) -> bool
    ensures { result ≡ option_map_or is_object_field (slice_get class.now.fields place) false }
{
    match class.fields.as_slice().get(place as usize) {
        Some(field) => is_object_field(field),
        None => false,
    }
}

// Whether one of these classes has the field.
fn is_known(w: &World, classes: &[u32], m: MemberId) -> bool
    requires { All (λ d. d < length w.now) classes.now }
    ensures { result ≡ is_known w.now classes.now m }
{
    if !classes.contains(&m.class) {
        return false;
    }
    declares(w.record_at(m.class), m.member)
}

// Whether values stand for fields of these classes alone.
fn are_known(w: &World, classes: &[u32], fields: &[(MemberId, Value)]) -> bool
    requires { All (λ d. d < length w.now) classes.now }
    ensures { result ≡ are_known w.now classes.now fields.now }
{
    for f in fields {
        if !is_known(w, classes, f.0) {
            return false;
        }
    }
    true
}

fn has_member(fields: &[(MemberId, Value)], m: MemberId) -> bool
    ensures { result ≡ list_any (λ f. is_member m f.0) fields.now }
{
    fields.iter().any(|f| is_member(m, f.0))
}

// Whether no field stands there twice.
fn are_distinct(fields: &[(MemberId, Value)]) -> bool
    ensures { result ≡ are_distinct fields.now }
{
    let mut left = fields;
    while let [first, rest @ ..] = left {
        if has_member(rest, first.0) {
            return false;
        }
        left = rest;
    }
    true
}

// Whether the object has a value of each field of its class, which agrees with it, and no other one.
fn is_object(
    alloc: Global,
    w: &World,
    heap: &Heap,
    class: u32,
    fields: &[(MemberId, Value)],
) -> Result<bool, AllocError>
    ensures { IfOk result (λ r. r ≡ is_object w.now heap.now class fields.now) }
{
    if class >= w.count() {
        return Ok(false);
    }
    let classes = w.line(alloc, class)?;
    Ok(
        w.is_instantiable(class)
            && are_distinct(fields)
            && has_each(w, heap, fields, &classes)
            && are_known(w, &classes, fields),
    )
}

fn all_agree(w: &World, heap: &Heap, element: &[u8], items: &[Value]) -> bool
    ensures { result ≡ list_all (agrees w.now heap.now element.now) items.now }
{
    items.iter().all(|value| agrees(w, heap, element, *value))
}

// Whether the elements are of the type, and not too many.
fn are_items(w: &World, heap: &Heap, element: &[u8], items: &[Value]) -> bool
    ensures { result ≡ are_items w.now heap.now element.now items.now }
{
    items.len() <= MAX_ELEMENTS && all_agree(w, heap, element, items)
}

// Whether the text is the descriptor of an array's elements (JVMS 4.3.2).
fn is_element(alloc: Global, element: &[u8]) -> Result<bool, AllocError>
    ensures { IfOk result (λ r. IsTrue r ↔ IsFieldDescriptor (91 ∷ element.now)) }
{
    let mut desc = vec![in alloc; b'[']?;
    desc.extend_from_slice(element)?;
    Ok(is_field_descriptor(&desc))
}

// Whether the array has elements of its type, and not too many.
#[tactic(auto, using(crate::proofs::Objects::array_is))]
fn is_array(
    alloc: Global,
    w: &World,
    heap: &Heap,
    element: &[u8],
    items: &[Value],
) -> Result<bool, AllocError>
    ensures { IfOk result (λ r. IsTrue r ↔ IsArray w.now heap.now element.now items.now) }
{
    if is_element(alloc, element)? {
        Ok(are_items(w, heap, element, items))
    } else {
        Ok(false)
    }
}

// Whether an object or array that is good stands at the number.
#[tactic(auto, using(crate::proofs::Objects::object_is))]
pub(crate) fn is_held(
    alloc: Global,
    w: &World,
    heap: &Heap,
    number: u32,
) -> Result<bool, AllocError>
    ensures { IfOk result (λ r. IsTrue r ↔ IsHeld w.now heap.now (cell_at heap.now number)) }
{
    match heap.get(number) {
        Some(Cell::Object { class, fields }) => {
            let good = is_object(alloc, w, heap, *class, fields.as_slice())?;
            Ok(good)
        }
        Some(Cell::Array { element, items }) => {
            let good = is_array(alloc, w, heap, element.as_slice(), items.as_slice())?;
            Ok(good)
        }
        None => Ok(false),
    }
}
