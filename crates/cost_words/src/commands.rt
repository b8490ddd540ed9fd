ghost use Rattle.std.specs.Prelude.{◌≡◌, ◌∷◌};
ghost use Rattle.cost_words.specs.Target.{is_empty};
ghost use Rattle.cost_words.specs.Reading.{Reads, left, words_of};
ghost use Rattle.cost_words.specs.Grammar.{word_at, end_at, number_at, target_at, target_word, bound_at, check_at, relations_at, run_at, sample_at, named_at, command_of};

use crate::Command;
use crate::fault::{WordFault, WordKind, wrong};
use crate::number::number_within;
use crate::options::{cost_option, is_option, proof_option, steps_option};
use crate::paths::{args_at, files_at, report_at};
use crate::rest::Rest;
use crate::target::target_of;
use class_pool::Target;
use std::alloc::Global;

fn word_at(rest: Rest<'_>) -> Result<(&str, Rest<'_>), WordFault>
    ensures { Reads (λ x. (x.0.now, left x.1.index (words_of x.1.words.now))) result (word_at rest.entry.index (words_of rest.entry.words.now)) }
{
    match rest.split() {
        Some(next) => Ok(next),
        None => Err(wrong(WordKind::Missing, rest.index)),
    }
}

fn end_at(rest: Rest<'_>) -> Result<(), WordFault>
    ensures { Reads (λ _. 0) result (end_at rest.entry.index (words_of rest.entry.words.now)) }
{
    match rest.split() {
        Some(_) => Err(wrong(WordKind::Extra, rest.index)),
        None => Ok(()),
    }
}

fn number_at(low: u64, high: u64, index: u64, word: &str) -> Result<u64, WordFault>
    ensures { Reads (λ n. n) result (number_at low high index word.now) }
{
    if word.is_empty() {
        return Err(wrong(WordKind::Missing, index));
    }
    match number_within(low, high, word) {
        Some(n) => Ok(n),
        None => Err(wrong(WordKind::BadNumber, index)),
    }
}

fn target_at(alloc: Global, index: u64, word: &str) -> Result<Target, WordFault>
    ensures { Reads (λ t. t) result (target_at index word.now) }
{
    if is_option(word) {
        return Err(wrong(WordKind::Extra, index));
    }
    if word.is_empty() {
        return Err(wrong(WordKind::Missing, index));
    }
    match target_of(alloc, word)? {
        Some(target) => Ok(target),
        None => Err(wrong(WordKind::BadTarget, index)),
    }
}

#[tactic(auto, unfolding(crate::specs::Grammar::target_word))]
fn target_word(alloc: Global, rest: Rest<'_>) -> Result<(Target, Rest<'_>), WordFault>
    ensures { Reads (λ x. (x.0, left x.1.index (words_of x.1.words.now))) result (target_word rest.entry.index (words_of rest.entry.words.now)) }
{
    let (word, behind) = word_at(rest)?;
    let target = target_at(alloc, rest.index, word)?;
    Ok((target, behind))
}

// `[--cost=C] [--proof] TARGET FILE..`
#[tactic(auto, unfolding(crate::specs::Grammar::bound_at))]
fn bound_at(alloc: Global, rest: Rest<'_>) -> Result<Command, WordFault>
    ensures { Reads (λ c. c) result (bound_at rest.entry.index (words_of rest.entry.words.now)) }
{
    let (cost, rest) = cost_option(alloc, rest)?;
    let (proof, rest) = proof_option(rest);
    let (target, rest) = target_word(alloc, rest)?;
    let files = files_at(alloc, rest)?;
    Ok(Command::Bound {
        cost,
        proof,
        target,
        files,
    })
}

// `[--cost=C] REPORT TARGET FILE..`
#[tactic(auto, unfolding(crate::specs::Grammar::check_at))]
fn check_at(alloc: Global, rest: Rest<'_>) -> Result<Command, WordFault>
    ensures { Reads (λ c. c) result (check_at rest.entry.index (words_of rest.entry.words.now)) }
{
    let (cost, rest) = cost_option(alloc, rest)?;
    let (word, behind) = word_at(rest)?;
    let report = report_at(alloc, rest.index, word)?;
    let (target, rest) = target_word(alloc, behind)?;
    let files = files_at(alloc, rest)?;
    Ok(Command::Check {
        cost,
        report,
        target,
        files,
    })
}

// `[--cost=C] TARGET FILE..`
#[tactic(auto, unfolding(crate::specs::Grammar::relations_at))]
fn relations_at(alloc: Global, rest: Rest<'_>) -> Result<Command, WordFault>
    ensures { Reads (λ c. c) result (relations_at rest.entry.index (words_of rest.entry.words.now)) }
{
    let (cost, rest) = cost_option(alloc, rest)?;
    let (target, rest) = target_word(alloc, rest)?;
    let files = files_at(alloc, rest)?;
    Ok(Command::Relations {
        cost,
        target,
        files,
    })
}

// `[--cost=C] [--steps=N] TARGET ARG.. -- FILE..`
#[tactic(auto, unfolding(crate::specs::Grammar::run_at))]
fn run_at(alloc: Global, rest: Rest<'_>) -> Result<Command, WordFault>
    ensures { Reads (λ c. c) result (run_at rest.entry.index (words_of rest.entry.words.now)) }
{
    let (cost, rest) = cost_option(alloc, rest)?;
    let (steps, rest) = steps_option(rest)?;
    let (target, rest) = target_word(alloc, rest)?;
    let (args, rest) = args_at(alloc, rest)?;
    let files = files_at(alloc, rest)?;
    Ok(Command::Run {
        cost,
        steps,
        target,
        args,
        files,
    })
}

// `N M`
#[tactic(auto, unfolding(crate::specs::Grammar::sample_at))]
fn sample_at(rest: Rest<'_>) -> Result<Command, WordFault>
    ensures { Reads (λ c. c) result (sample_at rest.entry.index (words_of rest.entry.words.now)) }
{
    let (first, behind) = word_at(rest)?;
    let number = number_at(0, 4_294_967_295, rest.index, first)?;
    let (second, end) = word_at(behind)?;
    let methods = number_at(1, 2_000, behind.index, second)?;
    end_at(end)?;
    Ok(Command::Sample {
        number: number as u32,
        methods: methods as u32,
    })
}

// What stands behind the name of a command.
#[tactic(auto, unfolding(crate::specs::Grammar::named_at))]
fn named_at(alloc: Global, name: &str, rest: Rest<'_>) -> Result<Command, WordFault>
    ensures { Reads (λ c. c) result (named_at name.now rest.entry.index (words_of rest.entry.words.now)) }
{
    match name {
        "bound" => bound_at(alloc, rest),
        "check" => check_at(alloc, rest),
        "relations" => relations_at(alloc, rest),
        "run" => run_at(alloc, rest),
        "sample" => sample_at(rest),
        _ => Err(wrong(WordKind::UnknownCommand, 1)),
    }
}

/// What the words of the command line ask for, without the program's own name, or the first word that
/// is wrong.
///
/// - `bound [--cost=C] [--proof] TARGET FILE..`
/// - `check [--cost=C] REPORT TARGET FILE..`
/// - `relations [--cost=C] TARGET FILE..`
/// - `run [--cost=C] [--steps=N] TARGET ARG.. -- FILE..`, N from 1 to 100,000,000, which is its default
/// - `sample N M`, N from 0 to 4,294,967,295 and M from 1 to 2,000
///
/// C is `instructions`, the default, `objects` or `weights:PATH`. TARGET is `CLASS.METHOD:DESC`, cut at
/// its first `.` and then at the first `:(` behind it, where `\xHH` names a byte, neither CLASS nor
/// METHOD is empty, and DESC is a method descriptor (JVMS 4.3.3). Numbers are decimal, without a sign
/// and leading zeros. No FILE, REPORT or PATH is empty.
pub fn read(alloc: Global, words: &[String]) -> Result<Command, WordFault>
    ensures { Reads (λ c. c) result (command_of (words_of words.now)) }
{
    match words {
        [] => Err(wrong(WordKind::NoCommand, 1)),
        [name, words @ ..] => named_at(alloc, name.as_str(), Rest { words, index: 2 }),
    }
}
