//! What is known of null behind an instruction, and at the start of a method that it calls.
ghost use Rattle.std.specs.Prelude.{◌≡◌, ◌∷◌, ◌++◌, false, length, map, replicate, slice_set, IfOk, OnOk};
ghost use Rattle.null_flow.specs.declared.fact.NullFact.TheVariants as facts;
ghost use Rattle.null_flow.specs.Facts.{flag_at};
ghost use Rattle.null_flow.specs.Effects.{top_words, below_words, is_new, with_stored, slots_left, slots_after, slots_handed, slots_caught, slots_along, fitted, fact_along};

use crate::edge::{NullEdge, Way};
use crate::fact::NullFact;
use crate::flags::Flags;
use crate::origins::{Origin, Stored, pushes, stores};
use op_table::acts::Action;
use std::alloc::{AllocError, Global};

// The n words on top.
fn top_words(n: usize, stack: &[bool]) -> &[bool]
    ensures { result.now ≡ top_words n stack.now }
{
    &stack[stack.len().saturating_sub(n)..]
}

// What lies below the n words on top.
fn below_words(n: usize, stack: &[bool]) -> &[bool]
    ensures { result.now ≡ below_words n stack.now }
{
    &stack[..stack.len().saturating_sub(n)]
}

fn flag_at(flags: &[bool], n: u32) -> bool
    ensures { result ≡ flag_at flags.now n }
{
    match flags.get(n as usize) {
        Some(flag) => *flag,
        None => false,
    }
}

// Whether a value from there is no null.
fn is_new(locals: &[bool], words: &[bool], origin: Origin) -> bool
    ensures { result ≡ is_new locals.now words.now origin }
{
    match origin {
        Origin::New => true,
        Origin::Local(n) => flag_at(locals, n),
        Origin::Word(n) => flag_at(words, n),
        Origin::Number => false,
    }
}

fn add_all(flags: &mut Vec<bool>, some: &[bool]) -> Result<(), AllocError>
    ensures { OnOk result (flags.new.items ≡ flags.old.items ++ some.now) }
{
    for flag in some {
        flags.push(*flag)?;
    }
    Ok(())
}

// Adds what is known of the values from there.
fn add_new(
    flags: &mut Vec<bool>,
    locals: &[bool],
    words: &[bool],
    origins: &[Origin],
) -> Result<(), AllocError>
    ensures { OnOk result (flags.new.items ≡ flags.old.items ++ map (is_new locals.now words.now) origins.now) }
{
    for origin in origins {
        flags.push(is_new(locals, words, *origin))?;
    }
    Ok(())
}

// Puts a flag in a local: one that isn't there stays away.
fn put(flags: &mut Vec<bool>, n: u32, flag: bool)
    ensures { flags.new.items ≡ slice_set flags.old.items n flag }
{
    let n = n as usize;
    if n < flags.len() {
        flags[n] = flag;
    }
}

// Stores each value.
fn store_all(flags: &mut Vec<bool>, locals: &[bool], words: &[bool], stored: &[Stored])
    ensures { flags.new.items ≡ with_stored (is_new locals.now words.now) stored.now flags.old.items }
{
    for value in stored {
        put(flags, value.local, is_new(locals, words, value.origin));
    }
}

fn slots_left(
    alloc: Global,
    action: Action,
    pops: usize,
    locals: &[bool],
    stack: &[bool],
) -> Result<Vec<bool>, AllocError>
    ensures { IfOk result (λ flags. flags.items ≡ slots_left action pops locals.now stack.now) }
{
    let words = top_words(pops, stack);
    let stored = stores(alloc, action)?;
    let pushed = pushes(alloc, action)?;
    let mut flags = Vec::new(alloc);
    add_all(&mut flags, locals)?;
    store_all(&mut flags, locals, words, stored.as_slice());
    add_all(&mut flags, below_words(pops, stack))?;
    add_new(&mut flags, locals, words, pushed.as_slice())?;
    Ok(flags)
}

// The slots behind an instruction that does this.
#[tactic(auto, unfolding(crate::specs::Effects::slots_after))]
fn slots_after(
    alloc: Global,
    action: Action,
    pops: usize,
    locals: usize,
    slots: &[bool],
) -> Result<Vec<bool>, AllocError>
    ensures { IfOk result (λ flags. flags.items ≡ slots_after action pops locals slots.now) }
{
    let (locals, stack) = slots.split_at(locals.min(slots.len()));
    slots_left(alloc, action, pops, locals, stack)
}

// The words that a call hands to its method.
#[tactic(auto, unfolding(crate::specs::Effects::slots_handed))]
fn slots_handed(
    alloc: Global,
    receiver: bool,
    pops: usize,
    locals: usize,
    slots: &[bool],
) -> Result<Vec<bool>, AllocError>
    ensures { IfOk result (λ flags. flags.items ≡ slots_handed receiver pops locals slots.now) }
{
    let words = top_words(pops, &slots[locals.min(slots.len())..]);
    let mut flags = Vec::new(alloc);
    if receiver {
        flags.push(true)?;
        add_all(&mut flags, &words[1.min(words.len())..])?;
    } else {
        add_all(&mut flags, words)?;
    }
    Ok(flags)
}

// The slots where an exception is caught.
#[tactic(auto, unfolding(crate::specs::Effects::slots_caught))]
fn slots_caught(alloc: Global, locals: usize, slots: &[bool]) -> Result<Vec<bool>, AllocError>
    ensures { IfOk result (λ flags. flags.items ≡ slots_caught locals slots.now) }
{
    let mut flags = Vec::new(alloc);
    add_all(&mut flags, &slots[..locals.min(slots.len())])?;
    flags.push(true)?;
    Ok(flags)
}

// Adds so many slots of which nothing is known.
fn add_unknown(flags: &mut Vec<bool>, count: usize) -> Result<(), AllocError>
    ensures { OnOk result (flags.new.items ≡ flags.old.items ++ replicate count false) }
{
    for _ in 0..count {
        flags.push(false)?;
    }
    Ok(())
}

// These slots and those of which nothing is known, so many in all.
#[tactic(auto, using(crate::proofs::Fitting::fitted_parts))]
fn fitted(alloc: Global, size: usize, slots: &[bool]) -> Result<Vec<bool>, AllocError>
    ensures { IfOk result (λ flags. flags.items ≡ fitted size slots.now) }
{
    let mut flags = Vec::new(alloc);
    add_all(&mut flags, &slots[..size.min(slots.len())])?;
    add_unknown(&mut flags, size.saturating_sub(slots.len()))?;
    Ok(flags)
}

pub(crate) fn known(alloc: Global, size: u32, slots: &[bool]) -> Result<NullFact, AllocError>
    ensures { IfOk result (λ fact. fact ≡ facts.Known (fitted size slots.now)) }
{
    Ok(NullFact::Known(Flags::of(fitted(alloc, size as usize, slots)?)))
}

// The slots of a frame that comes along the edge.
fn slots_along(alloc: Global, edge: &NullEdge, slots: &[bool]) -> Result<Vec<bool>, AllocError>
    ensures { IfOk result (λ flags. flags.items ≡ slots_along edge.now.way edge.now.pops edge.now.locals slots.now) }
{
    let locals = usize::from(edge.locals);
    match edge.way {
        Way::Behind(action) => slots_after(alloc, action, edge.pops, locals, slots),
        Way::Enters(receiver) => slots_handed(alloc, receiver, edge.pops, locals, slots),
        Way::Caught => slots_caught(alloc, locals, slots),
    }
}

/// What an edge makes of what is known where it leads from, at a place where frames have so many slots. `Err` is want of
/// memory.
pub fn fact_along(
    alloc: Global,
    edge: &NullEdge,
    size: u32,
    fact: &NullFact,
) -> Result<NullFact, AllocError>
    ensures { IfOk result (λ made. made ≡ fact_along edge.now size fact.now) }
{
    match fact {
        NullFact::Unreached => Ok(NullFact::Unreached),
        NullFact::Known(flags) => {
            let slots = slots_along(alloc, edge, flags.as_slice())?;
            known(alloc, size, slots.as_slice())
        }
    }
}
