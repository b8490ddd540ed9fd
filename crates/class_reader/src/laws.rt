ghost use Rattle.std.specs.Prelude.{◌≡◌, ◌↔◌, ℕ, List, Ok, Err};
ghost use Rattle.class_pool.specs.Place.{IsBytes};
ghost use Rattle.class_reader.specs.declared.class.ClassRecord.{ClassRecord};
ghost use Rattle.class_reader.specs.declared.fault.ClassFault.{ClassFault};
ghost use Rattle.class_reader.specs.ClassFile.{IsClassFile};
ghost use Rattle.class_reader.specs.FirstFault.{IsFirstFault, IsDecided};
ghost use Rattle.class_reader.specs.Verdict.{verdict};
ghost use Rattle.class_reader.specs.Valid.{IsClass};

/// A law: reading past faults finds the class of the grammar, or the first fault. Does nothing.
pub(crate) fn reading_is_exact()
    ensures class { (bytes : List ℕ) → IsBytes bytes → (c : ClassRecord) → (verdict bytes ≡ Ok c) ↔ IsClassFile bytes c }
    ensures fault { (bytes : List ℕ) → IsBytes bytes → (f : ClassFault) → (verdict bytes ≡ Err f) ↔ IsFirstFault bytes f }
{}

/// A law: bytes are one class file or have one first fault, and not both. Does nothing.
pub fn is_decided()
    ensures { (bytes : List ℕ) → IsBytes bytes → IsDecided bytes }
{}

/// A law: what a class file says of a class is valid (JVMS 4.1). Does nothing.
pub fn read_is_class()
    ensures { (bytes : List ℕ) (c : ClassRecord) → IsClassFile bytes c → IsClass c }
{}
