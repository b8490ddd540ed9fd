//! The fields or the methods that a class declares, by name and descriptor.

ghost use Rattle.std.specs.Prelude.{◌≡◌, ℕ, [], ◌∷◌, ◌++◌, IfOk, OnOk, OnErr, IfSome, true, if◌then◌else◌};
ghost use Rattle.std.specs.BTreeMap.{is_at};
ghost use Rattle.class_pool.specs.Pool.{utf8_at};
ghost use Rattle.class_reader.specs.ClassReading.{is_repeated, with_member};
ghost use Rattle.class_reader.specs.MemberReading.{descriptor_test};
ghost use Rattle.class_reader.specs.TextTable.{pair_cmp, has_key, key_of};

use crate::flags::is_static;
use crate::texts::{TextFacts, facts_at, text_facts};
use class_pool::Pool;
use std::alloc::{AllocError, Global};
use std::collections::BTreeSet;
use std::marker::Model;

/// What a class declares.
#[derive(Clone, Copy)]
pub(crate) enum MemberKind {
    Field,
    Method,
}

/// The members of one kind that were read. Contracts see the class's pool, and their names and descriptors.
#[derive(Drop)]
pub(crate) struct Declared<'p> {
    pool: &'p Pool,
    /// What is known of the text of each entry of the pool.
    facts: Vec<Option<TextFacts>>,
    /// The indices of the name and the descriptor of each member, in order.
    pairs: Vec<(u16, u16)>,
    /// Where those texts stand first.
    keys: BTreeSet<(usize, usize)>,
}

impl<'p> Model for Declared<'p> {
    ghost use Rattle.class_reader.specs.MemberReading.{Declarations};
    ghost use Rattle.class_reader.specs.TextTable.{members_in, IsIndexed};

    ghost Value = { Declarations };

    ghost view = { λ d. record { pool = d.pool.now; members = members_in d.pool.now d.pairs.items } };

    ghost invariant = { λ d. IsIndexed d.pool.now d.facts.items d.keys.keys d.pairs.items };
}

/// Where the texts of two indices stand first.
fn key_of(facts: &[Option<TextFacts>], pair: (u16, u16)) -> Option<(usize, usize)>
    ensures { result ≡ key_of facts.now pair }
{
    let name = facts_at(facts, pair.0)?;
    let desc = facts_at(facts, pair.1)?;
    Some((name.first, desc.first))
}

/// Adds a pair and its key, and answers whether the key was there. An `Err` changes nothing.
fn add_pair(
    pairs: &mut Vec<(u16, u16)>,
    keys: &mut BTreeSet<(usize, usize)>,
    pair: (u16, u16),
    key: (usize, usize),
) -> Result<bool, AllocError>
    ensures met { IfOk result (λ is_met. is_met ≡ has_key keys.old.keys key) }
    ensures keys { OnOk result ((other : ℕ × ℕ) → has_key keys.new.keys other ≡ (if is_at (pair_cmp key) other then true else has_key keys.old.keys other)) }
    ensures pairs { OnOk result (pairs.new.items ≡ pairs.old.items ++ pair ∷ []) }
    ensures err { OnErr result ((keys.new.keys ≡ keys.old.keys) × (pairs.new.items ≡ pairs.old.items)) }
{
    pairs.reserve(1)?;
    let is_new = keys.insert(key)?;
    pairs.push(pair)?;
    Ok(!is_new)
}

impl<'p> Declared<'p> {
    /// No members, of a class with this pool.
    pub(crate) fn of(alloc: Global, pool: &'p Pool) -> Result<Declared<'p>, AllocError>
        ensures { IfOk result (λ d. d ≡ record { pool = pool.now; members = [] }) }
    {
        let facts = text_facts(alloc, pool)?;
        Ok(Declared {
            pool,
            facts,
            pairs: Vec::new(alloc),
            keys: BTreeSet::new(alloc),
        })
    }

    /// The pool of the class.
    pub(crate) fn pool(&self) -> &'p Pool
        ensures { result.now ≡ self.now.pool }
    {
        self.pool
    }

    /// Forgets the members.
    pub(crate) fn clear(&mut self)
        ensures { self.new ≡ record self.old { members = [] } }
    {
        self.pairs.clear();
        self.keys.clear();
    }

    /// Whether the text with this index is a descriptor of a member of this kind with these flags.
    pub(crate) fn is_descriptor(&self, kind: MemberKind, flags: u16, index: u16) -> bool
        ensures { IfSome (utf8_at self.now.pool index) (λ text. result ≡ descriptor_test kind flags text) }
    {
        let Some(facts) = facts_at(&self.facts, index) else {
            return false;
        };
        match kind {
            MemberKind::Field => facts.is_field,
            MemberKind::Method if is_static(flags) => facts.is_static_method,
            MemberKind::Method => facts.is_method,
        }
    }

    /// Adds a member with the indices of its name and its descriptor, and answers whether one before has both.
    /// Where an index names no text nothing is added.
    pub(crate) fn add(&mut self, name: u16, desc: u16) -> Result<bool, AllocError>
        ensures { IfOk result (λ is_met. (is_met ≡ is_repeated self.old.members (utf8_at self.old.pool name) (utf8_at self.old.pool desc)) × (self.new ≡ record self.old { members = with_member self.old.members (utf8_at self.old.pool name) (utf8_at self.old.pool desc) })) }
    {
        let Some(key) = key_of(&self.facts, (name, desc)) else {
            return Ok(false);
        };
        let is_met = add_pair(&mut self.pairs, &mut self.keys, (name, desc), key)?;
        Ok(is_met)
    }
}
