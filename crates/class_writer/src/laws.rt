ghost use Rattle.std.specs.Prelude.{◌≡◌, ◌↔◌, None};
ghost use Rattle.class_reader.specs.declared.class.ClassRecord.{ClassRecord};
ghost use Rattle.class_reader.specs.ClassFile.{IsClassFile};
ghost use Rattle.class_reader.specs.Valid.{IsClass};
ghost use Rattle.class_writer.specs.Counts.{CountsFit, over};
ghost use Rattle.class_writer.specs.Writing.{class_bytes};

/// A law: what is written of a class whose counts fit is a class file of it (JVMS 4.1). Does nothing.
pub fn written_is_class_file()
    ensures { (c : ClassRecord) → IsClass c → CountsFit c → IsClassFile (class_bytes c) c }
{}

/// A law: nothing is over exactly where all counts of the class fit (JVMS 4.1). Does nothing.
pub fn over_is_none()
    ensures { (c : ClassRecord) → (over c ≡ None) ↔ CountsFit c }
{}
