//! Configurations of the machine (JVMS 2.5, 2.11).

use frames::{Frame, Here, Stack, Stop};

/// What an instruction throws (JVMS 2.10).
#[derive(Clone, Copy, PartialEq, Eq)]
pub enum Thrown {
    NullPointer,
    ArrayIndex,
    NegativeSize,
    ArrayStore,
    ClassCast,
    Arithmetic,
    /// What `athrow` is given.
    Given,
}

/// Whether a run goes on.
#[derive(Clone, Copy, PartialEq, Eq)]
pub enum Status {
    Running,
    /// The first method has returned. Its frame stands as it did before the return.
    Ended,
    Thrown(Thrown),
    Stopped(Stop),
}

/// A configuration of the machine.
#[derive(Drop)]
pub struct State {
    pub here: Here,
    /// The frames that wait for a return, the last caller first.
    pub callers: Stack<Frame>,
    /// The cost of all steps so far.
    pub spent: u128,
    pub status: Status,
}

/// What a step was.
#[derive(Clone, Copy, PartialEq, Eq)]
pub enum Event {
    /// The run goes on.
    Went,
    /// The run goes on, and the exact result did not fit its type.
    Wrapped,
    Ended,
    Thrown(Thrown),
    Stopped(Stop),
}
