ghost use Rattle.std.specs.Prelude.{◌≡◌, ◌<◌, ◌≤◌, ◌^◌, ℕ, Err, Some, length, IfOk};
ghost use Rattle.class_reader.specs.ClassFile.{IsClassFile};
ghost use Rattle.class_reader.specs.declared.fault.ClassFault.TheVariants as faults;
ghost use Rattle.analyser.specs.declared.status.FaultKind as kinds;
ghost use Rattle.analyser.specs.Files.{total, most_bytes};
ghost use Rattle.analyser.specs.Classes.{AreClasses, IsBadClass, IsFault, told_of};
ghost use Rattle.analyser.specs.declared.classes.Unread.TheVariants.{Memory};

use crate::FaultKind;
use crate::fetching::File;
use class_pool::PoolFault;
use class_reader::{Class, ClassFault, read};
use std::alloc::{AllocError, AllocFailed, Global};

/// Why not all files were read.
#[derive(Clone, Copy)]
pub enum Unread {
    /// The file that this word names is the first that is no class, and this is its first fault.
    Bad {
        word: u64,
        offset: u32,
        kind: FaultKind,
    },
    /// Memory ran out.
    Memory,
}

impl From<AllocError> for Unread {
    ghost from_gives = { λ _ e. e ≡ Memory };

    fn from(_e: AllocError) -> Unread {
        Unread::Memory
    }
}

impl<T: Drop> From<AllocFailed<T>> for Unread {
    ghost from_gives = { λ _ e. e ≡ Memory };

    fn from(_e: AllocFailed<T>) -> Unread {
        Unread::Memory
    }
}

fn pool_fault(fault: PoolFault) -> Option<(u32, FaultKind)>
    ensures { result ≡ told_of (faults.Pool fault) }
{
    match fault {
        PoolFault::Short { at } => Some((at, FaultKind::Short)),
        PoolFault::BadTag { at, .. } => Some((at, FaultKind::Tag)),
        PoolFault::BadIndex { at, .. } => Some((at, FaultKind::Index)),
        PoolFault::BadUtf8 { at } => Some((at, FaultKind::Utf8)),
        PoolFault::Memory => None,
    }
}

// Where a fault stands, and its kind. Want of memory is none.
fn told_of(fault: ClassFault) -> Option<(u32, FaultKind)>
    ensures { result ≡ told_of fault }
{
    match fault {
        ClassFault::Magic { at } => Some((at, FaultKind::Magic)),
        ClassFault::Version { at } => Some((at, FaultKind::Version)),
        ClassFault::Short { at } => Some((at, FaultKind::Short)),
        ClassFault::Pool(fault) => pool_fault(fault),
        ClassFault::BadDesc { at } => Some((at, FaultKind::Descriptor)),
        ClassFault::BadCode { at } => Some((at, FaultKind::Code)),
        ClassFault::Repeated { at } => Some((at, FaultKind::Repeated)),
        ClassFault::Reserved { at } => Some((at, FaultKind::Reserved)),
        ClassFault::Trailing { at } => Some((at, FaultKind::Trailing)),
        ClassFault::Memory => None,
    }
}

fn refusal(word: u64, fault: ClassFault) -> Unread
    ensures told { (at : ℕ) (offset : ℕ) (kind : kinds.FaultKind) → result ≡ Unread.Bad at offset kind → (at ≡ word) × (told_of fault ≡ Some (offset, kind)) }
{
    match told_of(fault) {
        Some((offset, kind)) => Unread::Bad { word, offset, kind },
        None => Unread::Memory,
    }
}

fn class_of(alloc: Global, file: &File) -> Result<Class, Unread>
    requires { length file.now.bytes < 2 ^ 32 }
    ensures found { IfOk result (λ class. IsClassFile file.now.bytes class) }
    ensures word { (word offset : ℕ) (kind : kinds.FaultKind) → result ≡ Err (Unread.Bad word offset kind) → word ≡ file.now.word }
    ensures fault { (word offset : ℕ) (kind : kinds.FaultKind) → result ≡ Err (Unread.Bad word offset kind) → IsFault file.now.bytes offset kind }
{
    match read(alloc, file.bytes.as_slice()) {
        Ok(class) => Ok(class),
        Err(fault) => Err(refusal(file.word, fault)),
    }
}

/// The classes that the files are, in their order, or the first file that is none.
pub fn classes_of(alloc: Global, files: &[File]) -> Result<Vec<Class>, Unread>
    requires { total files.now ≤ most_bytes }
    ensures found { IfOk result (λ v. AreClasses files.now v.items) }
    ensures bad { (word offset : ℕ) (kind : kinds.FaultKind) → result ≡ Err (Unread.Bad word offset kind) → IsBadClass files.now word offset kind }
{
    let mut classes = Vec::new(alloc);
    for file in files {
        let class = class_of(alloc, file)?;
        classes.push(class)?;
    }
    Ok(classes)
}
