use class_hierarchy::WorldFault;
use class_pool::Target;
use op_table::Construct;

/// What a limit counts.
#[derive(Clone, Copy)]
pub enum LimitKind {
    /// The files that are named: 1,024 at most.
    Files,
    /// The bytes of all files that were fetched: 268,435,456 at most.
    Bytes,
    /// The methods that the target reaches: 4,096 at most.
    Methods,
    /// A number in the bound of the target or of a method that it reaches: 2^127 - 1 at most.
    Coefficient,
}

/// What is wrong first with a file that is no class.
#[derive(Clone, Copy)]
pub enum FaultKind {
    /// It doesn't begin with CAFEBABE.
    Magic,
    /// The major version isn't one of 45 to 65.
    Version,
    /// It ends too early.
    Short,
    /// An entry of the constant pool has no kind that there is.
    Tag,
    /// An index names no entry of the kind that it must name.
    Index,
    /// A text isn't in modified UTF-8.
    Utf8,
    /// A descriptor isn't in its grammar, or too long.
    Descriptor,
    /// A method has a Code that it may not have, or none, or one that isn't filled.
    Code,
    /// Two fields or methods have one name and descriptor.
    Repeated,
    /// The class is `java/lang/Object`, which is built in.
    Reserved,
    /// Bytes stand behind the class.
    Trailing,
}

/// What the call answers.
#[derive(Drop)]
pub enum Status {
    /// The cost of the method is at most so much.
    Bound(u128),
    /// This construct stands at this place of the method's code, in bytes. It is the first of the code that the
    /// target reaches, in breadth-first order.
    Unsupported {
        method: Target,
        pc: u32,
        construct: Construct,
    },
    /// More than this number are needed.
    Limit {
        kind: LimitKind,
        number: u128,
    },
    /// The word, counted from 1, asks for what is not built yet.
    NotYet {
        word: u64,
    },
    /// The file that this word names is the first that is no class. Its first fault stands at this offset.
    BadClass {
        word: u64,
        offset: u32,
        kind: FaultKind,
    },
    /// The classes of the files are no world, for this reason, which is never want of memory.
    BadWorld(WorldFault),
    /// No class has such a method, with code.
    NoMethod(Target),
    /// The first word, counted from 1, that is wrong.
    Usage {
        index: u64,
    },
    /// The file that this word names could not be fetched.
    FetchFault {
        word: u64,
    },
    /// The file that this word names has more than 16,777,216 bytes.
    TooLong {
        word: u64,
    },
    /// The report could not be put.
    OutFault,
    /// Memory ran out.
    Memory,
}
