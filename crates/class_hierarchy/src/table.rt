//! Tables of the direct superclasses and superinterfaces.

ghost use Rattle.std.specs.Prelude.{◌≡◌, ℕ, [], length, nat_eq, IfOk};
ghost use Rattle.std.specs.List.{list_any};
ghost use Rattle.class_hierarchy.specs.Tables.{super_at, row_at, AreSuperclasses, AreLinks};

use crate::classes::Classes;
use class_pool::Sequence;
use std::alloc::{AllocError, Global};

/// The direct superclass of a class.
pub(crate) fn super_in(supers: &[Option<u32>], class: u32) -> Option<u32>
    ensures { result ≡ super_at supers.now class }
{
    match supers.get(class as usize) {
        Some(found) => *found,
        None => None,
    }
}

/// The row of a class.
pub(crate) fn row_in(rows: &[Sequence<u32>], class: u32) -> &[u32]
    ensures { result.now ≡ row_at rows.now class }
{
    match rows.get(class as usize) {
        Some(row) => row.as_slice(),
        None => &[],
    }
}

/// Whether the class is among these.
pub(crate) fn has_class(among: &[u32], class: u32) -> bool
    ensures { result ≡ list_any (nat_eq class) among.now }
{
    among.iter().any(|other| class == *other)
}

/// The direct superclass of each class.
pub(crate) fn supers_of(alloc: Global, classes: &Classes) -> Result<Vec<Option<u32>>, AllocError>
    ensures { IfOk result (λ supers. AreSuperclasses classes.now supers.items) }
{
    let mut supers = Vec::new(alloc);
    for class in 0..classes.len() {
        supers.push(classes.superclass(class))?;
    }
    Ok(supers)
}

/// The direct superinterfaces of each class.
pub(crate) fn links_of(alloc: Global, classes: &Classes) -> Result<Vec<Sequence<u32>>, AllocError>
    ensures { IfOk result (λ links. AreLinks classes.now links.items) }
{
    let mut links = Vec::new(alloc);
    for class in 0..classes.len() {
        links.push(Sequence::from(classes.interfaces(alloc, class)?))?;
    }
    Ok(links)
}

/// No rows yet: an empty one for each class.
pub(crate) fn empty_rows(alloc: Global, count: usize) -> Result<Vec<Sequence<u32>>, AllocError>
    ensures { IfOk result (λ rows. (length rows.items ≡ count) × ((c : ℕ) → row_at rows.items c ≡ [])) }
{
    let mut rows = Vec::new(alloc);
    for _ in 0..count {
        rows.push(Sequence::new(alloc))?;
    }
    Ok(rows)
}
