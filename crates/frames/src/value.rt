/// What a word of a local or of the operand stack holds (JVMS 2.6). A long takes two words, of which the second
/// one is `Pad`.
#[derive(Clone, Copy)]
pub enum Value {
    Int(i32),
    Long(i64),
    /// The second word of a long; in a local, also nothing that was stored.
    Pad,
    Null,
    /// The object or array with this number.
    Ref(u32),
}
