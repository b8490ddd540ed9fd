//! The class that is built in.

ghost use Rattle.std.specs.Prelude.{◌≡◌, [], ◌∷◌, IfOk, IfErr, length, ◌<◌, ◌^◌};
ghost use Rattle.class_hierarchy.specs.World.{constructor, object_class};

use crate::fault::WorldFault;
use class_pool::{Cursor, Pool, Sequence, Text};
use class_reader::{ClassRecord, Code, Method};
use std::alloc::{AllocError, Global};

/// The public constructor `<init>()V` with the code `return`.
fn constructor(alloc: Global) -> Result<Method, AllocError>
    ensures { IfOk result (λ m. m ≡ constructor) }
{
    let mut bytes = Sequence::new(alloc);
    bytes.push(177)?;
    Ok(Method {
        flags: 0x0001,
        name: Text::from_slice(alloc, b"<init>")?,
        desc: Text::from_slice(alloc, b"()V")?,
        code: Some(Code {
            max_stack: 0,
            max_locals: 1,
            bytes,
            handlers: Sequence::new(alloc),
        }),
    })
}

/// The pool without entries.
fn empty_pool(alloc: Global) -> Result<Pool, AllocError>
    ensures { IfOk result (λ p. p ≡ []) }
{
    match Pool::read(alloc, Cursor::new(&[0, 1], 0)) {
        Ok((pool, _)) => Ok(pool),
        Err(_) => Err(AllocError),
    }
}

/// `java/lang/Object`.
pub(crate) fn object_class(alloc: Global) -> Result<ClassRecord, AllocError>
    ensures { IfOk result (λ class. class ≡ object_class) }
{
    let mut methods = Sequence::new(alloc);
    methods.push(constructor(alloc)?)?;
    Ok(ClassRecord {
        major: 52,
        flags: 0x0021,
        name: Text::from_slice(alloc, b"java/lang/Object")?,
        super_name: None,
        interfaces: Sequence::new(alloc),
        fields: Sequence::new(alloc),
        methods,
        pool: empty_pool(alloc)?,
    })
}
