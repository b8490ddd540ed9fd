//! What stands above classes by names of interfaces. Above a class with one direct superinterface stand that one and what
//! is above it, so that a class has a row of its own only where it names several.

ghost use Rattle.std.specs.Prelude.{◌≡◌, ◌<◌, ◌++◌, not, true, ℕ, length, nat_eq, OnOk, IfOk};
ghost use Rattle.std.specs.List.{flat_map, list_any};
ghost use Rattle.indexmap.specs.IndexSet.{insert_key};
ghost use Rattle.class_hierarchy.specs.World.{interfaces, above};
ghost use Rattle.class_hierarchy.specs.Building.{IsWellBuilt};
ghost use Rattle.class_hierarchy.specs.Orders.{IsSupersFirst};
ghost use Rattle.class_hierarchy.specs.Tables.{SameFirst, AreLinks, with_above, AreRows, SetsRow, Shows, IsClosed, IsOpenAt};

use crate::classes::Classes;
use crate::table::{empty_rows, has_class, row_in};
use class_pool::Sequence;
use indexmap::IndexSet;
use std::alloc::{AllocError, Global};

/// Adds a class, and tells whether it wasn't there.
fn add(found: &mut IndexSet<u32>, class: u32) -> Result<bool, AllocError>
    ensures new { IfOk result (λ new. new ≡ not (list_any (nat_eq class) found.old.keys)) }
    ensures keys { OnOk result (found.new.keys ≡ insert_key nat_eq found.old.keys class) }
{
    let new = found.insert(class)?;
    Ok(new)
}

/// Adds the classes that aren't there, in order.
fn add_all(found: &mut IndexSet<u32>, classes: &[u32]) -> Result<(), AllocError>
    ensures { OnOk result (SameFirst found.new.keys (found.old.keys ++ classes.now)) }
{
    for class in classes {
        add(found, *class)?;
    }
    Ok(())
}

/// Adds what stands above a class that is there. It goes from one superinterface to the next, up to one that is there
/// already, or to a class with a row.
fn add_above(
    found: &mut IndexSet<u32>,
    classes: &Classes,
    links: &[Sequence<u32>],
    rows: &[Sequence<u32>],
    class: u32,
) -> Result<(), AllocError>
    requires shows { Shows classes.now links.now rows.now class }
    requires met { IsOpenAt classes.now found.old.keys class }
    ensures { OnOk result (SameFirst found.new.keys (found.old.keys ++ above classes.now class)) }
{
    let mut at = class;
    for _ in 0..classes.len() {
        let direct = row_in(links, at);
        if direct.len() > 1 {
            add_all(found, row_in(rows, at))?;
            return Ok(());
        }
        match direct.first() {
            Some(only) => {
                if !add(found, *only)? {
                    return Ok(());
                }
                at = *only;
            }
            None => return Ok(()),
        }
    }
    Ok(())
}

/// Adds a class and what stands above it. Where it is there already, all of that is there too.
fn add_with_above(
    found: &mut IndexSet<u32>,
    classes: &Classes,
    links: &[Sequence<u32>],
    rows: &[Sequence<u32>],
    class: u32,
) -> Result<(), AllocError>
    requires shows { Shows classes.now links.now rows.now class }
    requires closed { IsClosed classes.now found.old.keys }
    ensures same { OnOk result (SameFirst found.new.keys (found.old.keys ++ with_above classes.now class)) }
    ensures closed { OnOk result (IsClosed classes.now found.new.keys) }
{
    if !add(found, class)? {
        return Ok(());
    }
    add_above(found, classes, links, rows, class)?;
    Ok(())
}

/// Adds each of the classes and what stands above it.
fn add_each(
    found: &mut IndexSet<u32>,
    classes: &Classes,
    links: &[Sequence<u32>],
    rows: &[Sequence<u32>],
    among: &[u32],
) -> Result<(), AllocError>
    requires shows { (c : ℕ) → list_any (nat_eq c) among.now ≡ true → Shows classes.now links.now rows.now c }
    requires closed { IsClosed classes.now found.old.keys }
    ensures same { OnOk result (SameFirst found.new.keys (found.old.keys ++ flat_map (with_above classes.now) among.now)) }
    ensures closed { OnOk result (IsClosed classes.now found.new.keys) }
{
    for class in among {
        add_with_above(found, classes, links, rows, *class)?;
    }
    Ok(())
}

/// The classes that were found, in order.
fn listed(alloc: Global, found: &IndexSet<u32>) -> Result<Vec<u32>, AllocError>
    ensures { IfOk result (λ v. v.items ≡ found.now.keys) }
{
    let mut list = Vec::new(alloc);
    list.extend_from_slice(found.as_slice())?;
    Ok(list)
}

/// The classes, each before what stands above it, and each once.
pub(crate) fn row_of(
    alloc: Global,
    classes: &Classes,
    links: &[Sequence<u32>],
    rows: &[Sequence<u32>],
    among: &[u32],
) -> Result<Sequence<u32>, AllocError>
    requires { (c : ℕ) → list_any (nat_eq c) among.now ≡ true → Shows classes.now links.now rows.now c }
    ensures { IfOk result (λ row. SameFirst row (flat_map (with_above classes.now) among.now)) }
{
    let mut found = IndexSet::new(alloc);
    add_each(&mut found, classes, links, rows, among)?;
    Ok(Sequence::from(listed(alloc, &found)?))
}

/// What stands above the classes, each once.
pub(crate) fn above_of(
    alloc: Global,
    classes: &Classes,
    links: &[Sequence<u32>],
    rows: &[Sequence<u32>],
    among: &[u32],
) -> Result<Vec<u32>, AllocError>
    requires { (c : ℕ) → list_any (nat_eq c) among.now ≡ true → Shows classes.now links.now rows.now c }
    ensures { IfOk result (λ v. SameFirst v.items (flat_map (above classes.now) among.now)) }
{
    let mut found = IndexSet::new(alloc);
    for class in among {
        add_each(&mut found, classes, links, rows, row_in(links, *class))?;
    }
    listed(alloc, &found)
}

/// Whether the other class stands above this one.
pub(crate) fn stands_above(
    classes: &Classes,
    links: &[Sequence<u32>],
    rows: &[Sequence<u32>],
    class: u32,
    other: u32,
) -> bool
    requires well_built { IsWellBuilt classes.now }
    requires links { AreLinks classes.now links.now }
    requires rows { AreRows classes.now rows.now }
    ensures { result ≡ list_any (nat_eq other) (above classes.now class) }
{
    let mut at = class;
    for _ in 0..classes.len() {
        let direct = row_in(links, at);
        if direct.len() > 1 {
            return has_class(row_in(rows, at), other);
        }
        match direct.first() {
            Some(only) => {
                if other == *only {
                    return true;
                }
                at = *only;
            }
            None => return false,
        }
    }
    false
}

/// Gives a class its row, where it has several direct superinterfaces.
fn set_row(
    alloc: Global,
    classes: &Classes,
    links: &[Sequence<u32>],
    class: u32,
    rows: &mut Vec<Sequence<u32>>,
) -> Result<(), AllocError>
    requires well_built { IsWellBuilt classes.now }
    requires links { AreLinks classes.now links.now }
    requires inside { class < length rows.old.items }
    requires shows { (c : ℕ) → list_any (nat_eq c) (interfaces classes.now class) ≡ true → Shows classes.now links.now rows.old.items c }
    ensures { OnOk result (SetsRow classes.now class rows.old.items rows.new.items) }
{
    let direct = row_in(links, class);
    if direct.len() < 2 {
        return Ok(());
    }
    let row = row_of(alloc, classes, links, rows, direct)?;
    rows[class as usize] = row;
    Ok(())
}

/// The rows, made for each class behind those of all that it names.
pub(crate) fn rows_of(
    alloc: Global,
    classes: &Classes,
    links: &[Sequence<u32>],
    order: &[u32],
) -> Result<Vec<Sequence<u32>>, AllocError>
    requires well_built { IsWellBuilt classes.now }
    requires links { AreLinks classes.now links.now }
    requires order { IsSupersFirst classes.now order.now }
    ensures { IfOk result (λ rows. AreRows classes.now rows.items) }
{
    let mut rows = empty_rows(alloc, links.len())?;
    for class in order {
        set_row(alloc, classes, links, *class, &mut rows)?;
    }
    Ok(rows)
}
