//! What holds of heaps.

ghost use Rattle.frames.specs.Kept.{ElementsKeep, FieldsKeep, NewCellsKeep, TypesKeep};

/// A law: what has a number keeps it, with its class and its fields, or with the type of its elements and how many there
/// are, when something is added, and when an element or a field gets a value; and where all numbers are kept, values stay
/// of their types. Does nothing.
pub fn numbers_are_kept()
    ensures cells { NewCellsKeep }
    ensures elements { ElementsKeep }
    ensures fields { FieldsKeep }
    ensures types { TypesKeep }
{}
