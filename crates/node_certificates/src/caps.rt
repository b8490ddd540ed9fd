//! Small caps at calls of a node.

ghost use Rattle.std.specs.Prelude.{◌≡◌, ◌<◌, ◌^◌, length, IfOk, MatchOption};
ghost use Rattle.std.specs.List.{range_with_len};
ghost use Rattle.lin_rows.specs.Rows.{lins};
ghost use Rattle.small_caps.specs.Caps.{IsSmallCap, HasNoCap};
ghost use Rattle.rankings.specs.Templates.{shifted, visit_rows};
ghost use Rattle.rankings.specs.Caps.{IsCap, cap_rows, cap_goal, entry_sizes};

use crate::visits::{shifted, visit_rows};
use lin_rows::{Lin, Row};
use small_caps::{SmallCap, small_cap};
use std::alloc::{AllocError, Global};

/// The first small cap of an expression over entry sizes, or None exactly where there is none.
pub fn cap(
    alloc: Global,
    rows: &[Row],
    l: &Lin,
    entry: &[u32],
) -> Result<Option<SmallCap>, AllocError>
    requires { length rows.now < 2 ^ 32 }
    ensures answer { IfOk result (λ answer. MatchOption answer (HasNoCap (lins rows.now) l.now entry.now)
        (λ c. IsSmallCap (lins rows.now) l.now entry.now c.cap c.mults)) }
    // Its multipliers prove it from the rows.
    ensures cap { IfOk result (λ answer. MatchOption answer (Unit {0}) (λ c. IsCap (lins rows.now) entry.now l.now c.cap 1 c.mults)) }
{
    small_cap(alloc, rows, l, entry)
}

/// The numbers of the sizes at the entry.
fn entry_numbers(alloc: Global, sizes: u32) -> Result<Vec<u32>, AllocError>
    ensures { IfOk result (λ numbers. numbers.items ≡ entry_sizes sizes) }
{
    let mut numbers = Vec::new(alloc);
    for v in 0..sizes {
        numbers.push(v)?;
    }
    Ok(numbers)
}

/// The first small cap of an expression at a call of a node that calls itself, behind these rows and with the kept
/// templates, or None exactly where there is none.
fn cap_at_visit(
    alloc: Global,
    sizes: u32,
    rows: &[Row],
    kept: &[Row],
    l: &Lin,
) -> Result<Option<SmallCap>, AllocError>
    ensures answer { IfOk result (λ answer. MatchOption answer (HasNoCap (visit_rows sizes (lins rows.now) (lins kept.now)) (shifted sizes l.now) (entry_sizes sizes))
        (λ c. IsSmallCap (visit_rows sizes (lins rows.now) (lins kept.now)) (shifted sizes l.now) (entry_sizes sizes) c.cap c.mults)) }
    ensures cap { IfOk result (λ answer. MatchOption answer (Unit {0}) (λ c. IsCap (visit_rows sizes (lins rows.now) (lins kept.now)) (entry_sizes sizes) (shifted sizes l.now) c.cap 1 c.mults)) }
{
    let entry = entry_numbers(alloc, sizes)?;
    let all = visit_rows(alloc, sizes, rows, kept)?;
    let l = shifted(alloc, sizes, l)?;
    cap(alloc, &all, &l, &entry)
}

/// The first small cap of an expression at a call of a node of so many sizes, behind these rows, or None exactly where
/// there is none. In a node that calls itself the kept templates count too.
pub fn cap_at(
    alloc: Global,
    recursive: bool,
    sizes: u32,
    rows: &[Row],
    kept: &[Row],
    l: &Lin,
) -> Result<Option<SmallCap>, AllocError>
    requires { length rows.now < 2 ^ 32 }
    ensures answer { IfOk result (λ answer. MatchOption answer (HasNoCap (cap_rows recursive sizes (lins rows.now) (lins kept.now)) (cap_goal recursive sizes l.now) (entry_sizes sizes))
        (λ c. IsSmallCap (cap_rows recursive sizes (lins rows.now) (lins kept.now)) (cap_goal recursive sizes l.now) (entry_sizes sizes) c.cap c.mults)) }
    // It is a cap there, with its multipliers.
    ensures cap { IfOk result (λ answer. MatchOption answer (Unit {0}) (λ c. IsCap (cap_rows recursive sizes (lins rows.now) (lins kept.now)) (entry_sizes sizes) (cap_goal recursive sizes l.now) c.cap 1 c.mults)) }
{
    if recursive {
        cap_at_visit(alloc, sizes, rows, kept, l)
    } else {
        let entry = entry_numbers(alloc, sizes)?;
        cap(alloc, rows, l, &entry)
    }
}
