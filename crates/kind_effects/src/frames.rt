//! What is known of frames behind an instruction, by what is known before it.
ghost use Rattle.std.specs.Prelude.{◌≡◌, ◌≤◌, ◌<◌, ◌+◌, ◌-◌, ◌*◌, ◌^◌, ◌||◌, ◌∷◌, ◌++◌, [], true, pos, neg_ℤ, ◌≤ℤ◌, ◌<ℤ◌, ◌+ℤ◌, ◌-ℤ◌, take, drop, length, replicate, flat_map, if◌then◌else◌, IfOk, OnOk};
ghost use Rattle.std.specs.List.{list_any};
ghost use Rattle.slot_facts.specs.declared.kind.Kind.TheVariants.{Top};
ghost use Rattle.kind_frames.specs.Kinds.{is_top};
ghost use Rattle.kind_frames.specs.declared.fact.KindFact.TheVariants as facts;
ghost use Rattle.kind_effects.specs.Effects.{locals_after};
ghost use Rattle.kind_effects.specs.Frames.{top_words, below_words, missing, frame_after, uses_top, most_words, is_within, limited, fact_after, IsFact};

use crate::effects::{add_all, locals_after, pops, pushed, reads_top};
use class_pool::Pool;
use kind_frames::{KindFact, KindFrame, Slots};
use op_table::acts::Action;
use slot_facts::Kind;
use std::alloc::{AllocError, Global};

/// How many words the operand stack has at most, and how many at most are missing up to its bottom, in a frame of which
/// anything is known.
pub const MOST_WORDS: i64 = 0x100_0000_0000;

// Adds so many kinds of slots of which nothing is known.
pub(crate) fn add_unknown(kinds: &mut Vec<Kind>, count: usize) -> Result<(), AllocError>
    ensures { OnOk result (kinds.new.items ≡ kinds.old.items ++ replicate count Top) }
{
    for _ in 0..count {
        kinds.push(Kind::Top)?;
    }
    Ok(())
}

// The n words on top.
fn top_words(alloc: Global, n: usize, stack: &[Kind]) -> Result<Vec<Kind>, AllocError>
    ensures words { IfOk result (λ words. words.items ≡ top_words n stack.now) }
    ensures count { IfOk result (λ words. length words.items ≡ n) }
{
    let mut words = Vec::new(alloc);
    add_unknown(&mut words, n.saturating_sub(stack.len()))?;
    add_all(&mut words, &stack[stack.len().saturating_sub(n)..])?;
    Ok(words)
}

// What lies below the n words on top.
fn below_words(n: usize, stack: &[Kind]) -> &[Kind]
    ensures { result.now ≡ below_words n stack.now }
{
    &stack[..stack.len().saturating_sub(n)]
}

// The height where so many words are popped.
fn height_below(height: i64, pops: usize) -> i128
    ensures { result ≡ height -ℤ pos pops }
{
    i128::from(height) - pops as i128
}

// The height where so many words are pushed on it.
fn height_above(below: i128, pushed: usize) -> i128
    requires low { neg_ℤ (pos (2 ^ 65)) ≤ℤ below }
    requires high { below ≤ℤ pos (2 ^ 63) }
    ensures { result ≡ below +ℤ pos pushed }
{
    below + pushed as i128
}

// How many words are missing up to the bottom.
fn missing(below: i128) -> usize
    requires low { neg_ℤ (pos (2 ^ 64)) <ℤ below }
    ensures { result ≡ missing below }
{
    if below < 0 { (-below) as usize } else { 0 }
}

// The kinds without the first n.
fn behind(n: usize, kinds: &[Kind]) -> &[Kind]
    ensures { result.now ≡ drop n kinds.now }
{
    &kinds[n.min(kinds.len())..]
}

fn is_within(height: i128) -> bool
    ensures { result ≡ is_within height }
{
    i128::from(-MOST_WORDS) <= height && height <= i128::from(MOST_WORDS)
}

// The frame of this height and these slots.
fn known(height: i128, slots: Vec<Kind>) -> KindFact
    requires { is_within height ≡ true }
    ensures { result ≡ facts.Known (record { height = height; slots = slots.items }) }
{
    KindFact::Known(KindFrame {
        height: height as i64,
        slots: Slots::of(slots),
    })
}

// The slots behind the action, where it pushes these words.
fn slots_after(
    alloc: Global,
    action: Action,
    locals: &[Kind],
    stack: &[Kind],
    words: &[Kind],
    pushed: &[Kind],
) -> Result<Vec<Kind>, AllocError>
    ensures { IfOk result (λ slots. slots.items
        ≡ locals_after action locals.now words.now ++ below_words (length words.now) stack.now ++ pushed.now) }
{
    let mut slots = locals_after(alloc, action, locals, words)?;
    add_all(&mut slots, below_words(words.len(), stack))?;
    add_all(&mut slots, pushed)?;
    Ok(slots)
}

// The fact behind an instruction that does this, of a frame.
#[tactic(auto, unfolding(crate::specs::Frames::frame_after))]
fn known_after(
    alloc: Global,
    pool: &Pool,
    action: Action,
    locals: u16,
    frame: &KindFrame,
) -> Result<KindFact, AllocError>
    requires { IsFact locals (facts.Known frame.now) }
    ensures { IfOk result (λ fact. fact ≡ limited (frame_after pool.now action locals frame.now)) }
{
    let (locals, stack) = frame.slots.as_slice().split_at(usize::from(locals));
    let words = top_words(alloc, pops(pool, action), stack)?;
    let words = words.as_slice();
    let pushed = pushed(alloc, pool, action, locals, words)?;
    let below = height_below(frame.height, words.len());
    let height = height_above(below, pushed.len());
    if !is_within(height) {
        return Ok(KindFact::Mixed);
    }
    let pushed = behind(missing(below), pushed.as_slice());
    let slots = slots_after(alloc, action, locals, stack, words, pushed)?;
    Ok(known(height, slots))
}

/// What is known behind an instruction that does this, of a method with so many locals. `Err` is want of memory.
pub fn fact_after(
    alloc: Global,
    pool: &Pool,
    action: Action,
    locals: u16,
    fact: &KindFact,
) -> Result<KindFact, AllocError>
    requires { IsFact locals fact.now }
    ensures { IfOk result (λ after. after ≡ fact_after pool.now action locals fact.now) }
{
    match fact {
        KindFact::Unreached => Ok(KindFact::Unreached),
        KindFact::Known(frame) => known_after(alloc, pool, action, locals, frame),
        KindFact::Mixed => Ok(KindFact::Mixed),
    }
}

// Whether nothing is known of one of the slots.
fn has_top(kinds: &[Kind]) -> bool
    ensures { result ≡ list_any is_top kinds.now }
{
    kinds.iter().any(|kind| matches!(kind, Kind::Top))
}

// Whether nothing is known of one of the n words on top.
fn pops_top(n: usize, stack: &[Kind]) -> bool
    ensures { result ≡ list_any is_top (top_words n stack.now) }
{
    n > stack.len() || has_top(&stack[stack.len() - n..])
}

/// Whether nothing is known of a slot that an instruction uses which does this, in a frame of a method with so many locals:
/// of a word that it pops or a local that it reads.
#[tactic(auto, unfolding(crate::specs::Frames::kinds_used))]
pub fn uses_top(pool: &Pool, action: Action, locals: u16, frame: &KindFrame) -> bool
    ensures { result ≡ uses_top pool.now action locals frame.now }
{
    let slots = frame.slots.as_slice();
    let (locals, stack) = slots.split_at(usize::from(locals).min(slots.len()));
    pops_top(pops(pool, action), stack) || reads_top(action, locals)
}
