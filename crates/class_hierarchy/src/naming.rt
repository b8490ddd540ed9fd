//! The numbers of classes by name.

ghost use Rattle.std.specs.Prelude.{◌≡◌, ◌∷◌, IfOk, OnOk, length, ◌<◌, ◌^◌};
ghost use Rattle.class_hierarchy.specs.Names.{noted, NotesName, AreNumbers};

use class_reader::{Class, ClassRecord};
use std::alloc::{AllocError, Global};
use std::collections::BTreeMap;

/// Notes the number of a name that has none. An ordered map answers in few steps whatever the names are, which
/// a map by hashes that strangers can foresee does not.
fn note(
    names: &mut BTreeMap<Vec<u8>, u32>,
    alloc: Global,
    name: &[u8],
    number: u32,
) -> Result<(), AllocError>
    ensures { OnOk result (NotesName name.now number (noted names.old) (noted names.new)) }
{
    if !names.contains_key(name) {
        names.insert(Vec::from_slice(alloc, name)?, number)?;
    }
    Ok(())
}

/// The number of the first class with each name.
pub(crate) fn numbers_of(
    alloc: Global,
    object: &ClassRecord,
    files: &[Class],
) -> Result<BTreeMap<Vec<u8>, u32>, AllocError>
    requires { length files.now < 2 ^ 31 }
    ensures { IfOk result (λ names. AreNumbers (object.now ∷ files.now) (noted names)) }
{
    let mut names = BTreeMap::new(alloc);
    note(&mut names, alloc, object.name.as_slice(), 0)?;
    for (i, file) in files.iter().enumerate() {
        note(
            &mut names,
            alloc,
            file.record().name.as_slice(),
            i as u32 + 1,
        )?;
    }
    Ok(names)
}
