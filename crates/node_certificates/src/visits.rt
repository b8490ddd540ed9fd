//! The rows at a visit of a node: behind the sizes at the entry stand those at the visit.

ghost use Rattle.std.specs.Prelude.{◌≡◌, ◌<◌, ◌^◌, ◌++◌, map, length, IfOk, OnOk};
ghost use Rattle.lin_rows.specs.Rows.{lins};
ghost use Rattle.rankings.specs.Templates.{shifted, visit_rows};

use lin_rows::{Lin, Row};
use std::alloc::{AllocError, Global};

/// The expression over variables that stand behind so many others.
pub(crate) fn shifted(alloc: Global, sizes: u32, l: &Lin) -> Result<Lin, AllocError>
    ensures { IfOk result (λ made. made ≡ shifted sizes l.now) }
{
    let mut places = vec![in alloc; 0; sizes as usize]?;
    places.extend_from_slice(l.coefficients())?;
    if places.len() > u32::MAX as usize {
        return Err(AllocError);
    }
    Lin::new(alloc, &places, l.constant())
}

/// Adds rows behind so many others.
fn add_shifted(
    alloc: Global,
    sizes: u32,
    rows: &[Row],
    all: &mut Vec<Row>,
) -> Result<(), AllocError>
    ensures { OnOk result (lins all.new.items ≡ lins all.old.items ++ map (shifted sizes) (lins rows.now)) }
{
    for row in rows {
        let lin = shifted(alloc, sizes, &row.lin)?;
        all.push(Row { lin })?;
    }
    Ok(())
}

/// Adds rows as they are.
fn add_rows(rows: &[Row], all: &mut Vec<Row>) -> Result<(), AllocError>
    ensures { OnOk result (lins all.new.items ≡ lins all.old.items ++ lins rows.now) }
{
    for row in rows {
        all.push(row.clone()?)?;
    }
    Ok(())
}

/// The rows at a visit, and then the templates. More than 32 bits count are want of memory.
pub(crate) fn visit_rows(
    alloc: Global,
    sizes: u32,
    rows: &[Row],
    kept: &[Row],
) -> Result<Vec<Row>, AllocError>
    ensures rows { IfOk result (λ all. lins all.items ≡ visit_rows sizes (lins rows.now) (lins kept.now)) }
    ensures count { IfOk result (λ all. length all.items < 2 ^ 32) }
{
    let mut all = Vec::new(alloc);
    add_shifted(alloc, sizes, rows, &mut all)?;
    add_rows(kept, &mut all)?;
    if all.len() > u32::MAX as usize {
        return Err(AllocError);
    }
    Ok(all)
}
