//! What is known of a frame at a method's start (JVMS 2.6.1).
ghost use Rattle.std.specs.Prelude.{◌≡◌, ◌∷◌, ◌++◌, [], take, replicate, flat_map, if◌then◌else◌, IfOk, OnOk};
ghost use Rattle.descriptors.specs.Pieces.{types_of};
ghost use Rattle.kind_effects.specs.Types.{kinds_of_type};
ghost use Rattle.kind_effects.specs.Entry.{kinds_handed, entry_frame};

use crate::frames::add_unknown;
use crate::types::add_type;
use descriptors::{behind_open, first_type};
use kind_frames::{KindFrame, Slots};
use slot_facts::Kind;
use std::alloc::{AllocError, Global};

// Adds the kinds of values of the types.
fn add_types(alloc: Global, kinds: &mut Vec<Kind>, types: &[u8]) -> Result<(), AllocError>
    ensures { OnOk result (kinds.new.items ≡ kinds.old.items ++ flat_map kinds_of_type (types_of types.now)) }
{
    let mut left = types;
    while let Some((desc, rest)) = first_type(left) {
        add_type(alloc, kinds, desc)?;
        left = rest;
    }
    Ok(())
}

/// The kinds of the words that are handed to a method: a receiver, where it isn't static, and the arguments of this
/// descriptor. `Err` is want of memory.
pub fn kinds_handed(alloc: Global, is_static: bool, desc: &[u8]) -> Result<Vec<Kind>, AllocError>
    ensures { IfOk result (λ kinds. kinds.items ≡ kinds_handed is_static desc.now) }
{
    let mut kinds = Vec::new(alloc);
    if !is_static {
        kinds.push(Kind::Obj)?;
    }
    add_types(alloc, &mut kinds, behind_open(desc))?;
    Ok(kinds)
}

/// The frame at the start of a method with so many locals and this descriptor. `Err` is want of memory.
pub fn entry_frame(
    alloc: Global,
    locals: u16,
    is_static: bool,
    desc: &[u8],
) -> Result<KindFrame, AllocError>
    ensures { IfOk result (λ frame. frame ≡ entry_frame locals is_static desc.now) }
{
    let mut slots = kinds_handed(alloc, is_static, desc)?;
    add_unknown(&mut slots, usize::from(locals))?;
    slots.truncate(usize::from(locals));
    Ok(KindFrame {
        height: 0,
        slots: Slots::of(slots),
    })
}
