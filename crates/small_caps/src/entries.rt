//! Entry sizes: whether an expression has no other variables, and what is left of it without them.

ghost use Rattle.std.specs.Prelude.{◌≡◌, ◌↔◌, pos, Contains, IsTrue, IfOk};
ghost use Rattle.lin_rows.specs.Linear.{coefficient_of};
ghost use Rattle.lin_rows.specs.Rows.{lins};
ghost use Rattle.small_caps.specs.Caps.{IsOver};
ghost use Rattle.small_caps.specs.inside.Entries.{IsMasked, AreMasked};

use lin_rows::{Lin, Row};
use std::alloc::{AllocError, Global};

/// Whether the variable is an entry size.
pub fn is_entry(entry: &[u32], v: u32) -> bool
    ensures { IsTrue result ↔ Contains entry.now v }
{
    entry.contains(&v)
}

/// Whether each variable of the expression is an entry size.
pub fn is_over(l: &Lin, entry: &[u32]) -> bool
    ensures { IsTrue result ↔ IsOver entry.now l.now }
{
    for v in 0..l.len() {
        if l.get(v) != 0 && !is_entry(entry, v) {
            return false;
        }
    }
    true
}

/// The coefficient of a variable that is no entry size.
fn masked_at(l: &Lin, entry: &[u32], v: u32) -> i128
    ensures inside { Contains entry.now v → result ≡ pos 0 }
    ensures outside { (Contains entry.now v → ⊥) → result ≡ coefficient_of l.now v }
{
    if is_entry(entry, v) { 0 } else { l.get(v) }
}

/// The expression without its coefficients of entry sizes.
pub fn masked(alloc: Global, l: &Lin, entry: &[u32]) -> Result<Lin, AllocError>
    ensures { IfOk result (IsMasked entry.now l.now) }
{
    let mut list = Vec::new(alloc);
    for v in 0..l.len() {
        list.push(masked_at(l, entry, v))?;
    }
    Lin::new(alloc, &list, 0)
}

/// The rows without their coefficients of entry sizes.
pub fn masked_rows(alloc: Global, rows: &[Row], entry: &[u32]) -> Result<Vec<Row>, AllocError>
    ensures { IfOk result (λ made. AreMasked entry.now (lins rows.now) (lins made.items)) }
{
    let mut made = Vec::new(alloc);
    for row in rows {
        let lin = masked(alloc, &row.lin, entry)?;
        made.push(Row { lin })?;
    }
    Ok(made)
}
