//! The indices of the names of a class (JVMS 4.4.1, 4.4.7).

ghost use Rattle.std.specs.Prelude.{◌≡◌, ◌+◌, ◌<◌, ◌^◌, length, IfOk, OnOk, option_map};
ghost use Rattle.class_pool.specs.Pool.{text_of};
ghost use Rattle.class_writer.specs.Indexing.{HasFirst, Notes};
ghost use Rattle.class_writer.specs.Writing.{index_from, class_name_of};

use class_pool::{Constant, Pool};
use std::alloc::{AllocError, Global};
use std::collections::BTreeMap;
use std::marker::Model;

/// The indices of the texts and of the classes of a pool, by name. Contracts see the pool.
#[derive(Drop)]
pub(crate) struct Indices<'p> {
    pool: &'p Pool,
    texts: BTreeMap<&'p [u8], u16>,
    classes: BTreeMap<&'p [u8], u16>,
}

impl<'p> Model for Indices<'p> {
    ghost use Rattle.std.specs.Prelude.{List, Option};
    ghost use Rattle.class_pool.specs.declared.constant.Constant.{Constant};
    ghost use Rattle.class_pool.specs.Pool.{text_of};
    ghost use Rattle.class_writer.specs.Indexing.{HasFirst};
    ghost use Rattle.class_writer.specs.Writing.{class_name_of};

    ghost Value = { List (Option Constant) };

    ghost view = { λ i. i.pool.now };

    ghost invariant = { λ i. HasFirst text_of 1 i.pool.now i.texts × HasFirst (class_name_of i.pool.now) 1 i.pool.now i.classes };
}

/// The text of a Utf8 entry.
fn text_of(slot: &Option<Constant>) -> Option<&[u8]>
    ensures { option_map (λ text. text.now) result ≡ text_of slot.now }
{
    match slot {
        Some(Constant::Utf8(text)) => Some(text.as_slice()),
        _ => None,
    }
}

/// The name of a Class entry.
fn class_name_of<'p>(pool: &'p Pool, slot: &Option<Constant>) -> Option<&'p [u8]>
    ensures { option_map (λ text. text.now) result ≡ class_name_of pool.now slot.now }
{
    match slot {
        Some(Constant::Class(name)) => Some(pool.utf8(*name)?.as_slice()),
        _ => None,
    }
}

/// From now on the name, if there is one, has the index.
fn note<'p>(
    table: &mut BTreeMap<&'p [u8], u16>,
    name: Option<&'p [u8]>,
    index: u16,
) -> Result<(), AllocError>
    ensures { OnOk result (Notes (option_map (λ text. text.now) name.entry) index table.old table.new) }
{
    if let Some(name) = name {
        table.insert(name, index)?;
    }
    Ok(())
}

/// The first index of each text.
fn index_texts(alloc: Global, pool: &Pool) -> Result<BTreeMap<&[u8], u16>, AllocError>
    requires { length pool.now + 1 < 2 ^ 16 }
    ensures { IfOk result (HasFirst text_of 1 pool.now) }
{
    let slots = pool.entries();
    let mut texts = BTreeMap::new(alloc);
    // From the last on, so that the first index of a text stays.
    let mut index = slots.len();
    while index > 0 {
        let name = text_of(&slots[index - 1]);
        note(&mut texts, name, index as u16)?;
        index -= 1;
    }
    Ok(texts)
}

/// The first index of each class.
fn index_classes(alloc: Global, pool: &Pool) -> Result<BTreeMap<&[u8], u16>, AllocError>
    requires { length pool.now + 1 < 2 ^ 16 }
    ensures { IfOk result (HasFirst (class_name_of pool.now) 1 pool.now) }
{
    let slots = pool.entries();
    let mut classes = BTreeMap::new(alloc);
    let mut index = slots.len();
    while index > 0 {
        let name = class_name_of(pool, &slots[index - 1]);
        note(&mut classes, name, index as u16)?;
        index -= 1;
    }
    Ok(classes)
}

impl<'p> Indices<'p> {
    /// The indices of a pool.
    pub(crate) fn of(alloc: Global, pool: &'p Pool) -> Result<Indices<'p>, AllocError>
        requires { length pool.now + 1 < 2 ^ 16 }
        ensures { IfOk result (λ indices. indices ≡ pool.now) }
    {
        Ok(Indices {
            pool,
            texts: index_texts(alloc, pool)?,
            classes: index_classes(alloc, pool)?,
        })
    }

    /// The pool.
    pub(crate) fn pool(&self) -> &'p Pool
        ensures { result.now ≡ self.now }
    {
        self.pool
    }

    /// The first index of a text, 0 where there is none.
    pub(crate) fn utf8(&self, text: &[u8]) -> u16
        ensures { result ≡ index_from text_of text.now 1 self.now }
    {
        self.texts.get(text).copied().unwrap_or(0)
    }

    /// The first index of a class with this name, 0 where there is none.
    pub(crate) fn class(&self, name: &[u8]) -> u16
        ensures { result ≡ index_from (class_name_of self.now) name.now 1 self.now }
    {
        self.classes.get(name).copied().unwrap_or(0)
    }
}
