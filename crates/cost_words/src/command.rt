use crate::Word;
use class_pool::{Sequence, Target};

/// A path, and the index of the word that holds it, counted from 1.
#[derive(Drop)]
pub struct PathWord {
    pub path: Word,
    pub index: u64,
}

/// What is counted.
#[derive(Drop)]
pub enum Cost {
    /// Each instruction costs 1.
    Instructions,
    /// Each `new`, `newarray` and `anewarray` costs 1.
    Objects,
    /// Each instruction costs what the file at this path says.
    Weights(PathWord),
}

/// What the words ask for.
#[derive(Drop)]
pub enum Command {
    /// The bound of the target, with its proof where asked.
    Bound {
        cost: Cost,
        proof: bool,
        target: Target,
        files: Sequence<PathWord>,
    },
    /// Whether a report holds.
    Check {
        cost: Cost,
        report: PathWord,
        target: Target,
        files: Sequence<PathWord>,
    },
    /// The base relations of the target.
    Relations {
        cost: Cost,
        target: Target,
        files: Sequence<PathWord>,
    },
    /// A run of the target of at most so many steps, from 1 to 100,000,000.
    Run {
        cost: Cost,
        steps: u64,
        target: Target,
        args: Sequence<Word>,
        files: Sequence<PathWord>,
    },
    /// A class made from a number, with so many methods, from 1 to 2,000.
    Sample {
        number: u32,
        methods: u32,
    },
}
