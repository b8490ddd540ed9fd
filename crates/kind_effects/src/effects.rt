//! What each instruction does to the kinds of a frame's slots (JVMS 6.5).
ghost use Rattle.std.specs.Prelude.{◌≡◌, ◌≤◌, ◌+◌, ◌∷◌, ◌++◌, ◌<◌, [], take, drop, slice_set, slice_index_or, IfOk, OnOk};
ghost use Rattle.std.specs.List.{list_any};
ghost use Rattle.slot_facts.specs.declared.kind.Kind.TheVariants as kinds;
ghost use Rattle.kind_frames.specs.Kinds.{is_top};
ghost use Rattle.kind_effects.specs.Types.{long_kinds, kinds_of_type, kinds_of_result, kind_named, kind_cast, array_named, array_of_numbers};
ghost use Rattle.class_pool.specs.Pool.{class_name_at};
ghost use Rattle.kind_effects.specs.Effects.{kind_at, number_kinds, value_words, width_words, element_words, descriptor_at, top_size, below_size, moved, receiver_words, pops, lowest, loaded, element_kinds, pushed, stored, locals_after, value_in, locals_read};

use crate::types::{
    add_long, add_type, array_named, array_of_numbers, kind_cast, kind_named, kind_of_element,
    kinds_of_result, type_words,
};
use class_pool::Pool;
use descriptors::{parameter_words, result_of};
use op_table::acts;
use op_table::acts::{Action, Call, Element, Shuffle, Width};
use slot_facts::Kind;
use std::alloc::{AllocError, Global};

// ---- values

fn width_words(width: Width) -> usize
    ensures words { result ≡ width_words width }
    ensures few { result ≤ 2 }
{
    match width {
        Width::Int => 1,
        Width::Long => 2,
    }
}

fn value_words(kind: acts::Kind) -> usize
    ensures { result ≡ value_words kind }
{
    match kind {
        acts::Kind::Long => 2,
        _ => 1,
    }
}

fn element_words(element: Element) -> usize
    ensures words { result ≡ element_words element }
    ensures few { result ≤ 2 }
{
    match element {
        Element::Long => 2,
        _ => 1,
    }
}

// The descriptor of the member with this index: no text where there is none.
fn descriptor_at(pool: &Pool, index: u16) -> &[u8]
    ensures { result.now ≡ descriptor_at pool.now index }
{
    match pool.member(index) {
        Some((_, _, _, desc)) => desc.as_slice(),
        None => b"".as_slice(),
    }
}

// ---- moves on the operand stack

fn top_size(shuffle: Shuffle) -> usize
    ensures size { result ≡ top_size shuffle }
    ensures few { result ≤ 2 }
{
    match shuffle {
        Shuffle::Pop2 | Shuffle::Dup2 | Shuffle::Dup2X1 | Shuffle::Dup2X2 => 2,
        _ => 1,
    }
}

fn below_size(shuffle: Shuffle) -> usize
    ensures size { result ≡ below_size shuffle }
    ensures few { result ≤ 2 }
{
    match shuffle {
        Shuffle::DupX1 | Shuffle::Dup2X1 | Shuffle::Swap => 1,
        Shuffle::DupX2 | Shuffle::Dup2X2 => 2,
        _ => 0,
    }
}

/// Adds these kinds. `Err` is want of memory.
pub(crate) fn add_all(kinds: &mut Vec<Kind>, some: &[Kind]) -> Result<(), AllocError>
    ensures { OnOk result (kinds.new.items ≡ kinds.old.items ++ some.now) }
{
    for kind in some {
        kinds.push(kind.share()?)?;
    }
    Ok(())
}

// Adds the group on top, the one below it, and the group on top again.
fn add_around(kinds: &mut Vec<Kind>, below: &[Kind], top: &[Kind]) -> Result<(), AllocError>
    ensures { OnOk result (kinds.new.items ≡ kinds.old.items ++ (top.now ++ below.now ++ top.now)) }
{
    add_all(kinds, top)?;
    add_all(kinds, below)?;
    add_all(kinds, top)
}

// Adds the group on top twice.
fn add_twice(kinds: &mut Vec<Kind>, top: &[Kind]) -> Result<(), AllocError>
    ensures { OnOk result (kinds.new.items ≡ kinds.old.items ++ (top.now ++ top.now)) }
{
    add_all(kinds, top)?;
    add_all(kinds, top)
}

// Adds the group on top, and the one below it.
fn add_swapped(kinds: &mut Vec<Kind>, below: &[Kind], top: &[Kind]) -> Result<(), AllocError>
    ensures { OnOk result (kinds.new.items ≡ kinds.old.items ++ (top.now ++ below.now)) }
{
    add_all(kinds, top)?;
    add_all(kinds, below)
}

// What stands in the place of the two groups.
fn moved(
    alloc: Global,
    shuffle: Shuffle,
    below: &[Kind],
    top: &[Kind],
) -> Result<Vec<Kind>, AllocError>
    ensures { IfOk result (λ kinds. kinds.items ≡ moved shuffle below.now top.now) }
{
    let mut kinds = Vec::new(alloc);
    match shuffle {
        Shuffle::Pop | Shuffle::Pop2 => {}
        Shuffle::Dup | Shuffle::Dup2 => add_twice(&mut kinds, top)?,
        Shuffle::Swap => add_swapped(&mut kinds, below, top)?,
        _ => add_around(&mut kinds, below, top)?,
    }
    Ok(kinds)
}

// ---- words that are popped

fn receiver_words(call: Call) -> usize
    ensures words { result ≡ receiver_words call }
    ensures few { result ≤ 1 }
{
    match call {
        Call::Static => 0,
        _ => 1,
    }
}

/// How many words the action pops.
#[tactic(auto, unfolding(crate::specs::Effects::pops))]
pub fn pops(pool: &Pool, action: Action) -> usize
    ensures { result ≡ pops pool.now action }
{
    match action {
        Action::Store(kind, _) => value_words(kind),
        Action::LoadElement(_) => 2,
        Action::StoreElement(element) => 2 + element_words(element),
        Action::Shuffle(shuffle) => below_size(shuffle) + top_size(shuffle),
        Action::Arithmetic(_, width) => 2 * width_words(width),
        Action::Negate(width) => width_words(width),
        Action::Shift(_, width) => width_words(width) + 1,
        Action::Logic(_, width) => 2 * width_words(width),
        Action::IntToLong | Action::Narrow(_) => 1,
        Action::LongToInt => 2,
        Action::CompareLongs => 4,
        Action::IfZero(..) | Action::IfNull(..) | Action::Switch { .. } => 1,
        Action::IfInts(..) | Action::IfSame(..) => 2,
        Action::Return(kind) => value_words(kind),
        Action::PutStatic(index) => type_words(descriptor_at(pool, index)),
        Action::GetField(_) => 1,
        Action::PutField(index) => 1 + type_words(descriptor_at(pool, index)),
        Action::Call(call, index) => {
            receiver_words(call) + parameter_words(descriptor_at(pool, index))
        }
        Action::NewArray(_) | Action::NewReferenceArray(_) | Action::ArrayLength => 1,
        Action::Throw | Action::CheckCast(_) | Action::InstanceOf(_) => 1,
        _ => 0,
    }
}

// ---- words that are pushed

// The kind of a local: nothing is known of one that isn't there.
fn kind_at(locals: &[Kind], n: usize) -> Result<Kind, AllocError>
    ensures { IfOk result (λ kind. kind ≡ kind_at locals.now n) }
{
    match locals.get(n) {
        Some(kind) => kind.share(),
        None => Ok(Kind::Top),
    }
}

fn one(alloc: Global, kind: Kind) -> Result<Vec<Kind>, AllocError>
    ensures { IfOk result (λ kinds. kinds.items ≡ kind ∷ []) }
{
    let mut kinds = Vec::new(alloc);
    kinds.push(kind)?;
    Ok(kinds)
}

fn long(alloc: Global) -> Result<Vec<Kind>, AllocError>
    ensures { IfOk result (λ kinds. kinds.items ≡ long_kinds) }
{
    let mut kinds = Vec::new(alloc);
    add_long(&mut kinds)?;
    Ok(kinds)
}

fn number(alloc: Global, width: Width) -> Result<Vec<Kind>, AllocError>
    ensures { IfOk result (λ kinds. kinds.items ≡ number_kinds width) }
{
    match width {
        Width::Int => one(alloc, Kind::Int),
        Width::Long => long(alloc),
    }
}

fn loaded(
    alloc: Global,
    kind: acts::Kind,
    locals: &[Kind],
    n: usize,
) -> Result<Vec<Kind>, AllocError>
    ensures { IfOk result (λ kinds. kinds.items ≡ loaded kind locals.now n) }
{
    match kind {
        acts::Kind::Int => one(alloc, Kind::Int),
        acts::Kind::Long => long(alloc),
        acts::Kind::Reference => one(alloc, kind_at(locals, n)?),
    }
}

fn element(alloc: Global, element: Element, words: &[Kind]) -> Result<Vec<Kind>, AllocError>
    ensures { IfOk result (λ kinds. kinds.items ≡ element_kinds element (lowest words.now)) }
{
    match element {
        Element::Long => long(alloc),
        Element::Reference => one(alloc, kind_of_element(alloc, &kind_at(words, 0)?)?),
        _ => one(alloc, Kind::Int),
    }
}

fn typed(alloc: Global, desc: &[u8]) -> Result<Vec<Kind>, AllocError>
    ensures { IfOk result (λ kinds. kinds.items ≡ kinds_of_type desc.now) }
{
    let mut kinds = Vec::new(alloc);
    add_type(alloc, &mut kinds, desc)?;
    Ok(kinds)
}

fn shuffled(alloc: Global, shuffle: Shuffle, words: &[Kind]) -> Result<Vec<Kind>, AllocError>
    ensures { IfOk result (λ kinds. kinds.items ≡ moved shuffle (take (below_size shuffle) words.now) (drop (below_size shuffle) words.now)) }
{
    let below = below_size(shuffle).min(words.len());
    moved(alloc, shuffle, &words[..below], &words[below..])
}

fn cast(alloc: Global, pool: &Pool, index: u16, words: &[Kind]) -> Result<Vec<Kind>, AllocError>
    ensures { IfOk result (λ kinds. kinds.items ≡ kind_cast (kind_named (class_name_at pool.now index)) (lowest words.now) ∷ []) }
{
    let class = kind_named(alloc, pool.class_name(index))?;
    one(alloc, kind_cast(class, &kind_at(words, 0)?))
}

/// What the action pushes, by the locals and the words that it popped. `Err` is want of memory.
#[tactic(auto, unfolding(crate::specs::Effects::pushed))]
pub fn pushed(
    alloc: Global,
    pool: &Pool,
    action: Action,
    locals: &[Kind],
    words: &[Kind],
) -> Result<Vec<Kind>, AllocError>
    ensures { IfOk result (λ kinds. kinds.items ≡ pushed pool.now action locals.now words.now) }
{
    match action {
        Action::PushNull => one(alloc, Kind::Null),
        Action::PushInt(_) | Action::PushConstant(_) => one(alloc, Kind::Int),
        Action::PushLong(_) | Action::PushLongConstant(_) | Action::IntToLong => long(alloc),
        Action::Load(kind, n) => loaded(alloc, kind, locals, usize::from(n)),
        Action::LoadElement(kind) => element(alloc, kind, words),
        Action::Shuffle(shuffle) => shuffled(alloc, shuffle, words),
        Action::Arithmetic(_, width) => number(alloc, width),
        Action::Negate(width) => number(alloc, width),
        Action::Shift(_, width) => number(alloc, width),
        Action::Logic(_, width) => number(alloc, width),
        Action::LongToInt | Action::Narrow(_) | Action::CompareLongs => one(alloc, Kind::Int),
        Action::GetStatic(index) => typed(alloc, descriptor_at(pool, index)),
        Action::GetField(index) => typed(alloc, descriptor_at(pool, index)),
        Action::Call(_, index) => kinds_of_result(alloc, result_of(descriptor_at(pool, index))),
        Action::New(_) => one(alloc, Kind::Obj),
        Action::NewArray(number) => one(alloc, array_of_numbers(alloc, number)?),
        Action::NewReferenceArray(index) => one(alloc, array_named(alloc, pool.class_name(index))?),
        Action::CheckCast(index) => cast(alloc, pool, index, words),
        Action::ArrayLength | Action::InstanceOf(_) => one(alloc, Kind::Int),
        _ => Ok(Vec::new(alloc)),
    }
}

// ---- locals

// Puts a kind in a local: one that isn't there stays away.
fn put(locals: &mut Vec<Kind>, n: usize, kind: Kind)
    ensures { locals.new.items ≡ slice_set locals.old.items n kind }
{
    if n < locals.len() {
        locals[n] = kind;
    }
}

fn store(locals: &mut Vec<Kind>, kind: acts::Kind, n: usize, word: Kind)
    requires { n < 65536 }
    ensures { locals.new.items ≡ stored kind locals.old.items n word }
{
    match kind {
        acts::Kind::Int => put(locals, n, Kind::Int),
        acts::Kind::Long => {
            put(locals, n, Kind::Long);
            put(locals, n + 1, Kind::Pad);
        }
        acts::Kind::Reference => put(locals, n, word),
    }
}

/// The locals behind the action, by the words that it popped. `Err` is want of memory.
#[tactic(auto, unfolding(crate::specs::Effects::locals_after))]
pub fn locals_after(
    alloc: Global,
    action: Action,
    locals: &[Kind],
    words: &[Kind],
) -> Result<Vec<Kind>, AllocError>
    ensures { IfOk result (λ kinds. kinds.items ≡ locals_after action locals.now words.now) }
{
    let mut kinds = Vec::new(alloc);
    add_all(&mut kinds, locals)?;
    match action {
        Action::Store(kind, n) => store(&mut kinds, kind, usize::from(n), kind_at(words, 0)?),
        Action::Increment(n, _) => put(&mut kinds, usize::from(n), Kind::Int),
        _ => {}
    }
    Ok(kinds)
}

// Whether nothing is known of a local, or it isn't there.
fn is_top_at(locals: &[Kind], n: usize) -> bool
    ensures { result ≡ is_top (kind_at locals.now n) }
{
    match locals.get(n) {
        Some(kind) => matches!(kind, Kind::Top),
        None => true,
    }
}

fn has_top_value(kind: acts::Kind, locals: &[Kind], n: usize) -> bool
    requires { n < 65536 }
    ensures { result ≡ list_any is_top (value_in kind locals.now n) }
{
    match kind {
        acts::Kind::Long => is_top_at(locals, n) || is_top_at(locals, n + 1),
        _ => is_top_at(locals, n),
    }
}

/// Whether nothing is known of a local that the action reads.
#[tactic(auto, unfolding(crate::specs::Effects::locals_read))]
pub fn reads_top(action: Action, locals: &[Kind]) -> bool
    ensures { result ≡ list_any is_top (locals_read action locals.now) }
{
    match action {
        Action::Load(kind, n) => has_top_value(kind, locals, usize::from(n)),
        Action::Increment(n, _) => is_top_at(locals, usize::from(n)),
        _ => false,
    }
}
