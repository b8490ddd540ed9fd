use crate::Construct;

/// What an instruction does, for all opcodes that do it alike (JVMS 6.5). Distances are in bytes from the
/// instruction's first, places are of the constant pool.
#[derive(Clone, Copy, Debug)]
pub enum Action {
    /// `nop`.
    Nothing,
    PushNull,
    PushInt(i32),
    PushLong(i64),
    /// `ldc` and `ldc_w`: the constant at a place.
    PushConstant(u16),
    /// `ldc2_w`: the constant of two slots at a place.
    PushLongConstant(u16),
    /// Pushes the value of a local.
    Load(Kind, u16),
    /// Pops a value into a local.
    Store(Kind, u16),
    /// Pops an array and an index, and pushes the element.
    LoadElement(Element),
    /// Pops an array, an index and a value, and puts it there.
    StoreElement(Element),
    /// Moves slots of the operand stack.
    Shuffle(Shuffle),
    /// Pops two numbers and pushes what they make.
    Arithmetic(Arithmetic, Width),
    /// Pops a number and pushes its negative.
    Negate(Width),
    /// Pops a number and, above it, an int, by which it shifts the number.
    Shift(Shift, Width),
    /// Pops two numbers and pushes what their bits make.
    Logic(Logic, Width),
    /// Adds to the int of a local.
    Increment(u16, i16),
    /// `i2l`.
    IntToLong,
    /// `l2i`.
    LongToInt,
    /// Pops an int and pushes what is left of it in a smaller type.
    Narrow(Small),
    /// `lcmp`.
    CompareLongs,
    /// Jumps so far where the test holds of the int popped and 0.
    IfZero(Test, i32),
    /// Jumps so far where the test holds of the two ints popped.
    IfInts(Test, i32),
    /// Jumps so far where the references popped are the same, or where they are not.
    IfSame(bool, i32),
    /// Jumps so far where the reference popped is null, or where it is not.
    IfNull(bool, i32),
    Goto(i32),
    Switch {
        default: i32,
        low: i32,
        count: u32,
        pairs: bool,
    },
    /// Returns a value.
    Return(Kind),
    ReturnNothing,
    GetStatic(u16),
    PutStatic(u16),
    GetField(u16),
    PutField(u16),
    /// Calls the method at a place.
    Call(Call, u16),
    New(u16),
    /// `newarray`: the number stands for the kind of the elements.
    NewArray(i32),
    NewReferenceArray(u16),
    ArrayLength,
    Throw,
    CheckCast(u16),
    InstanceOf(u16),
    /// The opcode is outside what is analysed.
    Outside(Construct),
}

/// What a value is computed with as (JVMS 2.11.1).
#[derive(Clone, Copy, Debug)]
pub enum Kind {
    Int,
    Long,
    Reference,
}

/// The types of numbers that are computed with.
#[derive(Clone, Copy, Debug)]
pub enum Width {
    Int,
    Long,
}

/// The types of array elements. `baload` and `bastore` take bytes and booleans.
#[derive(Clone, Copy, Debug)]
pub enum Element {
    Int,
    Long,
    Reference,
    Byte,
    Char,
    Short,
}

/// The types that an int is narrowed to.
#[derive(Clone, Copy, Debug)]
pub enum Small {
    Byte,
    Char,
    Short,
}

/// A move of slots at the top of the operand stack, by its opcode.
#[derive(Clone, Copy, Debug)]
pub enum Shuffle {
    Pop,
    Pop2,
    Dup,
    DupX1,
    DupX2,
    Dup2,
    Dup2X1,
    Dup2X2,
    Swap,
}

/// An operation on two numbers.
#[derive(Clone, Copy, Debug)]
pub enum Arithmetic {
    Add,
    Subtract,
    Multiply,
    Divide,
    Remainder,
}

/// A shift of the bits of a number. `Right` keeps the sign.
#[derive(Clone, Copy, Debug)]
pub enum Shift {
    Left,
    Right,
    UnsignedRight,
}

/// An operation on the bits of two numbers.
#[derive(Clone, Copy, Debug)]
pub enum Logic {
    And,
    Or,
    Xor,
}

/// A test of an int against another.
#[derive(Clone, Copy, Debug)]
pub enum Test {
    Equal,
    NotEqual,
    Less,
    GreaterOrEqual,
    Greater,
    LessOrEqual,
}

/// How the method of a call is found.
#[derive(Clone, Copy, Debug)]
pub enum Call {
    Virtual,
    Special,
    Static,
    Interface,
}
