//! The kinds of values by their types (JVMS 4.3.2, 2.11.1).
ghost use Rattle.std.specs.Prelude.{◌≡◌, ◌≤◌, ◌∷◌, ◌++◌, [], drop, length, IfOk, OnOk};
ghost use Rattle.std.specs.Option.{option_copied};
ghost use Rattle.slot_facts.specs.declared.kind.Kind.TheVariants as kinds;
ghost use Rattle.kind_effects.specs.Types.{long_kinds, kinds_of_number, kinds_of_type, kinds_of_result, kind_of_reference, type_named, kind_named, array_named, array_of_numbers, kind_of_element, kind_cast};

use class_pool::Text;
use descriptors::{is_array, is_reference};
use slot_facts::Kind;
use std::alloc::{AllocError, Global};

// Adds the two slots of a long.
pub(crate) fn add_long(kinds: &mut Vec<Kind>) -> Result<(), AllocError>
    ensures { OnOk result (kinds.new.items ≡ kinds.old.items ++ long_kinds) }
{
    kinds.push(Kind::Long)?;
    kinds.push(Kind::Pad)?;
    Ok(())
}

// The text behind its first byte.
fn behind_first(text: &[u8]) -> &[u8]
    ensures { result.now ≡ drop 1 text.now }
{
    match text {
        [_, rest @ ..] => rest,
        [] => text,
    }
}

// The kind of a reference of this type.
fn reference(alloc: Global, desc: &[u8]) -> Result<Kind, AllocError>
    ensures { IfOk result (λ kind. kind ≡ kind_of_reference desc.now) }
{
    if !is_array(desc) {
        return Ok(Kind::Obj);
    }
    Ok(Kind::Arr(Text::from_slice(alloc, behind_first(desc))?))
}

// Adds the kinds of a number's slots, by the letter of its type.
fn add_number(kinds: &mut Vec<Kind>, desc: &[u8]) -> Result<(), AllocError>
    ensures { OnOk result (kinds.new.items ≡ kinds.old.items ++ kinds_of_number desc.now) }
{
    if desc == b"J".as_slice() {
        return add_long(kinds);
    }
    if desc == b"F".as_slice() {
        kinds.push(Kind::Top)?;
        return Ok(());
    }
    if desc == b"D".as_slice() {
        kinds.push(Kind::Top)?;
        kinds.push(Kind::Top)?;
        return Ok(());
    }
    kinds.push(Kind::Int)?;
    Ok(())
}

/// Adds the kinds of the slots that a value of the type takes. `Err` is want of memory.
#[tactic(auto, unfolding(crate::specs::Types::kinds_of_type))]
pub fn add_type(alloc: Global, kinds: &mut Vec<Kind>, desc: &[u8]) -> Result<(), AllocError>
    ensures { OnOk result (kinds.new.items ≡ kinds.old.items ++ kinds_of_type desc.now) }
{
    if !is_reference(desc) {
        return add_number(kinds, desc);
    }
    kinds.push(reference(alloc, desc)?)?;
    Ok(())
}

/// How many slots a value of the type takes.
#[tactic(auto, unfolding(crate::specs::Types::kinds_of_type))]
pub fn type_words(desc: &[u8]) -> usize
    ensures words { result ≡ length (kinds_of_type desc.now) }
    ensures few { result ≤ 2 }
{
    if desc == b"J".as_slice() || desc == b"D".as_slice() {
        2
    } else {
        1
    }
}

/// The kinds of a result's slots: none for `V`. `Err` is want of memory.
pub fn kinds_of_result(alloc: Global, desc: &[u8]) -> Result<Vec<Kind>, AllocError>
    ensures { IfOk result (λ kinds. kinds.items ≡ kinds_of_result desc.now) }
{
    let mut kinds = Vec::new(alloc);
    if desc != b"V".as_slice() {
        add_type(alloc, &mut kinds, desc)?;
    }
    Ok(kinds)
}

// The bytes of the type of this name.
fn type_bytes(alloc: Global, name: &[u8]) -> Result<Vec<u8>, AllocError>
    ensures { IfOk result (λ bytes. bytes.items ≡ type_named name.now) }
{
    if is_array(name) {
        return Vec::from_slice(alloc, name);
    }
    let mut bytes = Vec::new(alloc);
    bytes.push(b'L')?;
    bytes.extend_from_slice(name)?;
    bytes.push(b';')?;
    Ok(bytes)
}

/// The kind of a class or an array by its name: of any reference where nothing is named. `Err` is want of memory.
pub fn kind_named(alloc: Global, name: Option<&Text>) -> Result<Kind, AllocError>
    ensures { IfOk result (λ kind. kind ≡ kind_named (option_copied name.entry)) }
{
    match name {
        Some(name) => reference(alloc, name.as_slice()),
        None => Ok(Kind::Obj),
    }
}

/// The kind of an array of elements of this name. `Err` is want of memory.
pub fn array_named(alloc: Global, name: Option<&Text>) -> Result<Kind, AllocError>
    ensures { IfOk result (λ kind. kind ≡ array_named (option_copied name.entry)) }
{
    let Some(name) = name else {
        return Ok(Kind::Obj);
    };
    let bytes = type_bytes(alloc, name.as_slice())?;
    Ok(Kind::Arr(Text::from_slice(alloc, bytes.as_slice())?))
}

// The kind of an array with elements of this type.
fn array_of(alloc: Global, element: &[u8]) -> Result<Kind, AllocError>
    ensures { IfOk result (λ kind. kind ≡ kinds.Arr element.now) }
{
    Ok(Kind::Arr(Text::from_slice(alloc, element)?))
}

/// The kind of an array that `newarray` makes, by its operand. `Err` is want of memory.
pub fn array_of_numbers(alloc: Global, number: i32) -> Result<Kind, AllocError>
    ensures { IfOk result (λ kind. kind ≡ array_of_numbers number) }
{
    match number {
        4 => array_of(alloc, b"Z".as_slice()),
        5 => array_of(alloc, b"C".as_slice()),
        8 => array_of(alloc, b"B".as_slice()),
        9 => array_of(alloc, b"S".as_slice()),
        10 => array_of(alloc, b"I".as_slice()),
        11 => array_of(alloc, b"J".as_slice()),
        _ => Ok(Kind::Obj),
    }
}

/// The kind of an element of an array of references. `Err` is want of memory.
pub fn kind_of_element(alloc: Global, array: &Kind) -> Result<Kind, AllocError>
    ensures { IfOk result (λ kind. kind ≡ kind_of_element array.now) }
{
    match array {
        Kind::Arr(element) => reference(alloc, element.as_slice()),
        Kind::Obj => Ok(Kind::Obj),
        Kind::Null => Ok(Kind::Null),
        _ => Ok(Kind::Top),
    }
}

/// What a cast to a class or an array of this kind gives.
pub fn kind_cast(class: Kind, kind: &Kind) -> Kind
    ensures { result ≡ kind_cast class kind.now }
{
    match kind {
        Kind::Null => Kind::Null,
        _ => class,
    }
}
