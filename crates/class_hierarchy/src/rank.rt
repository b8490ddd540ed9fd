//! Classes in the order in which all that a class names stands before it.

ghost use Rattle.std.specs.Prelude.{◌≡◌, ◌<◌, ◌^◌, length, map, IfOk};
ghost use Rattle.class_hierarchy.specs.declared.rank.Ranked.{Ranked as Numbered};
ghost use Rattle.class_hierarchy.specs.Ranks.{AreRanks, IsByRank};
ghost use Rattle.class_hierarchy.specs.Orders.{IsSupersFirst};

use crate::classes::Classes;
use std::alloc::{AllocError, Global};

/// A class and its rank.
#[derive(Clone, Copy)]
pub(crate) struct Ranked {
    pub rank: u32,
    pub class: u32,
}

/// The classes by rising rank.
pub(crate) fn by_rank(alloc: Global, ranks: &[u32]) -> Result<Vec<Ranked>, AllocError>
    requires { length ranks.now < 2 ^ 32 }
    ensures { IfOk result (λ order. IsByRank ranks.now order.items) }
{
    let mut order = Vec::new(alloc);
    for (class, rank) in ranks.iter().enumerate() {
        order.push(Ranked {
            rank: *rank,
            class: class as u32,
        })?;
    }
    order.sort_unstable_by_key(|ranked| ranked.rank);
    Ok(order)
}

/// The classes, without their ranks.
fn classes_of(alloc: Global, order: &[Ranked]) -> Result<Vec<u32>, AllocError>
    ensures { IfOk result (λ v. v.items ≡ map (λ (r : Numbered). r.class) order.now) }
{
    order.iter().map(|ranked| ranked.class).collect(alloc)
}

/// The classes, each behind all that it names.
pub(crate) fn supers_first(
    alloc: Global,
    classes: &Classes,
    ranks: &[u32],
) -> Result<Vec<u32>, AllocError>
    requires { AreRanks classes.now ranks.now }
    ensures { IfOk result (λ order. IsSupersFirst classes.now order.items) }
{
    let _ = classes.len();
    let ranked = by_rank(alloc, ranks)?;
    let order = classes_of(alloc, &ranked)?;
    Ok(order)
}
