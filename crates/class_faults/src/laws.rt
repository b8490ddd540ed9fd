ghost use Rattle.std.specs.Prelude.{ℕ, List};
ghost use Rattle.class_pool.specs.Place.{IsBytes};
ghost use Rattle.class_reader.specs.declared.class.ClassRecord.{ClassRecord};
ghost use Rattle.class_reader.specs.declared.fault.ClassFault.{ClassFault};
ghost use Rattle.class_reader.specs.ClassFile.{IsClassFile};
ghost use Rattle.class_reader.specs.FirstFault.{IsFirstFault};
ghost use Rattle.class_faults.specs.Faults.{StandsAt};

/// A law: a first fault is there. Does nothing.
pub fn faults_stand()
    ensures { (bytes : List ℕ) → IsBytes bytes → (fault : ClassFault) → IsFirstFault bytes fault → StandsAt bytes fault }
{}

/// A law: bytes in which a fault is there are no class file. Does nothing.
pub fn faulty_bytes_are_no_class()
    ensures { (bytes : List ℕ) (fault : ClassFault) (class : ClassRecord) → StandsAt bytes fault → IsClassFile bytes class → ⊥ }
{}
