//! The texts of a pool, each looked at once.

ghost use Rattle.std.specs.Prelude.{◌≡◌, IfOk, OnOk, length, map, option_map, unwrap_or};
ghost use Rattle.std.specs.Option.{option_copied};
ghost use Rattle.class_pool.specs.Pool.{text_of};
ghost use Rattle.class_reader.specs.TextTable.{facts_of, slot_facts, facts_at, first_in, NotesFirst, HasFirsts, IsTextTable};

use class_pool::{Constant, Pool};
use descriptors::{is_field_descriptor, is_method_descriptor};
use std::alloc::{AllocError, Global};
use std::collections::BTreeMap;

/// What is known of a text of the pool.
#[derive(Clone, Copy)]
pub(crate) struct TextFacts {
    /// How many entries stand before the first one with this text.
    pub first: usize,
    /// Whether it is the descriptor of a field.
    pub is_field: bool,
    /// Whether it is the descriptor of a method with a receiver.
    pub is_method: bool,
    /// Whether it is the descriptor of a method without one.
    pub is_static_method: bool,
}

fn facts_of(first: usize, text: &[u8]) -> TextFacts
    ensures { result ≡ facts_of first text.now }
{
    TextFacts {
        first,
        is_field: is_field_descriptor(text),
        is_method: is_method_descriptor(false, text),
        is_static_method: is_method_descriptor(true, text),
    }
}

/// The text of a Utf8 entry.
fn text_of(slot: &Option<Constant>) -> Option<&[u8]>
    ensures { option_map (λ text. text.now) result ≡ text_of slot.now }
{
    match slot {
        Some(Constant::Utf8(text)) => Some(text.as_slice()),
        _ => None,
    }
}

/// Notes that the entry with so many before it is the first with its text, where none was noted.
fn note_first<'p>(
    firsts: &mut BTreeMap<&'p [u8], usize>,
    slot: &'p Option<Constant>,
    at: usize,
) -> Result<(), AllocError>
    ensures { OnOk result (NotesFirst (text_of slot.now) at (first_in firsts.old) (first_in firsts.new)) }
{
    let Some(text) = text_of(slot) else {
        return Ok(());
    };
    if !firsts.contains_key(text) {
        firsts.insert(text, at)?;
    }
    Ok(())
}

/// Where each text stands first.
fn firsts_of<'p>(
    alloc: Global,
    slots: &'p [Option<Constant>],
) -> Result<BTreeMap<&'p [u8], usize>, AllocError>
    ensures { IfOk result (λ firsts. HasFirsts slots.now (length slots.now) (first_in firsts)) }
{
    let mut firsts = BTreeMap::new(alloc);
    for (i, slot) in slots.iter().enumerate() {
        note_first(&mut firsts, slot, i)?;
    }
    Ok(firsts)
}

/// What is known of the text of an entry.
fn slot_facts(firsts: &BTreeMap<&[u8], usize>, slot: &Option<Constant>) -> Option<TextFacts>
    ensures { result ≡ slot_facts (λ text. unwrap_or (first_in firsts.now text) 0) slot.now }
{
    let text = text_of(slot)?;
    let first = firsts.get(text).copied().unwrap_or(0);
    Some(facts_of(first, text))
}

/// What is known of the text of each entry.
fn all_facts(
    alloc: Global,
    firsts: &BTreeMap<&[u8], usize>,
    slots: &[Option<Constant>],
) -> Result<Vec<Option<TextFacts>>, AllocError>
    ensures { IfOk result (λ facts. facts.items ≡ map (slot_facts (λ text. unwrap_or (first_in firsts.now text) 0)) slots.now) }
{
    slots
        .iter()
        .map(|slot| slot_facts(firsts, slot))
        .collect(alloc)
}

/// What is known of the texts of a pool, entry by entry.
pub(crate) fn text_facts(alloc: Global, pool: &Pool) -> Result<Vec<Option<TextFacts>>, AllocError>
    ensures { IfOk result (λ facts. IsTextTable pool.now facts.items) }
{
    let slots = pool.entries();
    let firsts = firsts_of(alloc, slots)?;
    let facts = all_facts(alloc, &firsts, slots)?;
    Ok(facts)
}

/// What is known of the text with this index.
pub(crate) fn facts_at(facts: &[Option<TextFacts>], index: u16) -> Option<&TextFacts>
    ensures { option_copied result ≡ facts_at facts.now index }
{
    match index {
        0 => None,
        _ => facts.get((index - 1) as usize)?.as_ref(),
    }
}
