ghost use Rattle.object_steps.specs.ArrayCases.{ArrayCasesAreLeft, ArrayCasesAreThrown, ArraysAreCases};
ghost use Rattle.object_steps.specs.CastCases.{CastCasesAreLeft, CastCasesAreThrown, CastsAreCases};
ghost use Rattle.object_steps.specs.FieldCases.{FieldCasesAreLeft, FieldCasesAreThrown, FieldsAreCases};
ghost use Rattle.object_steps.specs.HeapChanges.{ArraysChange, CastsChange, ChangesKeep, FieldsChange};

/// A law of the instructions on arrays: what each leaves or throws is one of the cases, or it stops; and each of the
/// cases is met. Does nothing.
pub fn arrays_are_cases()
    ensures cases { ArraysAreCases }
    ensures left { ArrayCasesAreLeft }
    ensures thrown { ArrayCasesAreThrown }
{}

/// The same law of the instructions on fields. Does nothing.
pub fn fields_are_cases()
    ensures cases { FieldsAreCases }
    ensures left { FieldCasesAreLeft }
    ensures thrown { FieldCasesAreThrown }
{}

/// The same law of those that ask what a reference is an instance of. Does nothing.
pub fn casts_are_cases()
    ensures cases { CastsAreCases }
    ensures left { CastCasesAreLeft }
    ensures thrown { CastCasesAreThrown }
{}

/// A law: an instruction changes one element, one field, adds one array, or changes nothing in the heap; and so what has
/// a number keeps it. Does nothing.
pub fn heaps_are_kept()
    ensures arrays { ArraysChange }
    ensures fields { FieldsChange }
    ensures casts { CastsChange }
    ensures kept { ChangesKeep }
{}
