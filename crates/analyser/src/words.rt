ghost use Rattle.std.specs.Prelude.{◌≡◌, Err, IfOk};
ghost use Rattle.cost_words.specs.Reading.{words_of};
ghost use Rattle.analyser.specs.Words.{proof_word, bound_asked, asked_by, request_of};

use crate::Status;
use class_pool::{Sequence, Target};
use cost_words::{Command, Cost, PathWord, WordFault, read};
use std::alloc::{AllocError, Global};

/// What is asked for: a bound of this method, in the class files at these paths.
#[derive(Drop)]
pub struct Request {
    pub target: Target,
    pub files: Sequence<PathWord>,
}

// The word `--proof`, where it is given: between it and the first file stands the target alone.
fn proof_word(files: &[PathWord]) -> u64
    ensures { result ≡ proof_word files.now }
{
    match files {
        [] => 0,
        [file, ..] => file.index.saturating_sub(2),
    }
}

// A cost option is the second word.
fn bound_asked(
    cost: Cost,
    proof: bool,
    target: Target,
    files: Sequence<PathWord>,
) -> Result<Request, Status>
    ensures asked { result ≡ bound_asked cost proof target files }
    ensures told { result ≡ Err Status.Memory → ⊥ }
{
    match cost {
        Cost::Instructions => {
            if proof {
                let word = proof_word(files.as_slice());
                Err(Status::NotYet { word })
            } else {
                Ok(Request { target, files })
            }
        }
        Cost::Objects | Cost::Weights(_) => Err(Status::NotYet { word: 2 }),
    }
}

// What a command asks for, or the first of its words that asks for what isn't built yet.
fn asked_by(command: Command) -> Result<Request, Status>
    ensures asked { result ≡ asked_by command }
    ensures told { result ≡ Err Status.Memory → ⊥ }
{
    match command {
        Command::Bound {
            cost,
            proof,
            target,
            files,
        } => bound_asked(cost, proof, target, files),
        _ => Err(Status::NotYet { word: 1 }),
    }
}

/// What the words of the command line ask for, or what is answered to the words alone: the first that is
/// wrong, or that asks for what isn't built yet.
pub fn request_of(alloc: Global, words: &[String]) -> Result<Result<Request, Status>, AllocError>
    ensures asked { IfOk result (λ r. r ≡ request_of (words_of words.now)) }
    ensures told { IfOk result (λ r. r ≡ Err Status.Memory → ⊥) }
{
    match read(alloc, words) {
        Ok(command) => Ok(asked_by(command)),
        Err(WordFault::Wrong { index, .. }) => Ok(Err(Status::Usage { index })),
        Err(WordFault::Memory) => Err(AllocError),
    }
}
