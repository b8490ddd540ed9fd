//! Laws of descriptors. These functions do nothing: their contracts say what holds.

ghost use Rattle.descriptors.specs.Laws.{MethodTextsAreJoined, TypesAreFound};

/// A law: a method descriptor is `(`, its parameters joined, `)` and its result.
pub fn method_texts_are_joined()
    ensures { MethodTextsAreJoined }
{}

/// A law: the descriptor of parameters and a result is cut into these.
pub fn types_are_found()
    ensures { TypesAreFound }
{}
