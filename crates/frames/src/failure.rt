//! Why an instruction doesn't do what it is to do (JVMS 2.10, 6.5).

ghost use Rattle.std.specs.Prelude.{◌≡◌};
ghost use Rattle.frames.specs.Outcome.{stop_of};

use op_table::Construct;

/// What an instruction raises (JVMS 2.10): an exception of the machine's own, or the object that `athrow` is given, by
/// its number.
#[derive(Clone, Copy)]
pub enum Raised {
    NullPointer,
    ArrayIndex,
    NegativeSize,
    ArrayStore,
    ClassCast,
    Arithmetic,
    Given(u32),
}

/// Why a run stopped.
#[derive(Clone, Copy, PartialEq, Eq)]
pub enum Stop {
    /// A kind, a height, a local's number, a descriptor or a pc doesn't fit.
    Shape,
    /// A constant or a member doesn't resolve.
    Link,
    /// The receiver of a call is no instance of the class that is named.
    Receiver,
    /// An instruction that the machine doesn't make.
    Support,
}

/// Why an instruction changes nothing.
#[derive(Clone, Copy)]
pub enum Failure {
    Throws(Raised),
    Stops(Stop),
}

/// How an instruction that stays in its frame ends: the exact result fitted its type, or it didn't, or the instruction
/// failed.
#[derive(Clone, Copy)]
pub enum Going {
    Goes,
    Wraps,
    Fails(Failure),
}

/// How the run stops where this stands against an instruction: what isn't analysed is outside of the machine, and
/// anything else doesn't resolve.
pub fn stop_of(construct: Construct) -> Stop
    ensures { result ≡ stop_of construct }
{
    match construct {
        Construct::Float | Construct::StaticRef | Construct::Native | Construct::ArrayMethod =>
            Stop::Support,
        _ => Stop::Link,
    }
}
