ghost use Rattle.std.specs.Prelude.{◌≡◌, ◌∷◌, []};
ghost use Rattle.cost_words.specs.Target.{is_empty};
ghost use Rattle.cost_words.specs.Reading.{Reads, left, words_of};
ghost use Rattle.cost_words.specs.Grammar.{is, path_at, report_at, paths_from, files_at, args_at};

use crate::fault::{WordFault, WordKind, wrong};
use crate::options::is_option;
use crate::rest::Rest;
use crate::{PathWord, Word};
use class_pool::Sequence;
use std::alloc::Global;

// A path, which isn't empty.
pub(crate) fn path_at(alloc: Global, index: u64, word: &str) -> Result<PathWord, WordFault>
    ensures { Reads (λ p. p) result (path_at index word.now) }
{
    if word.is_empty() {
        return Err(wrong(WordKind::Missing, index));
    }
    Ok(PathWord {
        path: Word::new(alloc, word)?,
        index,
    })
}

// The path of a report, which can't be an option.
pub(crate) fn report_at(alloc: Global, index: u64, word: &str) -> Result<PathWord, WordFault>
    ensures { Reads (λ p. p) result (report_at index word.now) }
{
    if is_option(word) {
        return Err(wrong(WordKind::Extra, index));
    }
    path_at(alloc, index, word)
}

// All words as paths.
fn paths_from(alloc: Global, rest: Rest<'_>) -> Result<Sequence<PathWord>, WordFault>
    ensures { Reads (λ p. p) result (paths_from rest.entry.index (words_of rest.entry.words.now)) }
{
    let mut paths = Sequence::new(alloc);
    let mut left = rest;
    while let Some((word, behind)) = left.split() {
        let path = path_at(alloc, left.index, word)?;
        paths.push(path)?;
        left = behind;
    }
    Ok(paths)
}

// `FILE..`, at least one.
pub(crate) fn files_at(alloc: Global, rest: Rest<'_>) -> Result<Sequence<PathWord>, WordFault>
    ensures { Reads (λ p. p) result (files_at rest.entry.index (words_of rest.entry.words.now)) }
{
    if rest.split().is_none() {
        return Err(wrong(WordKind::Missing, rest.index));
    }
    paths_from(alloc, rest)
}

fn is_end(word: &str) -> bool
    ensures { result ≡ is word.now (45 ∷ 45 ∷ []) }
{
    word == "--"
}

// `ARG.. --`, and what is left behind it.
pub(crate) fn args_at(
    alloc: Global,
    rest: Rest<'_>,
) -> Result<(Sequence<Word>, Rest<'_>), WordFault>
    ensures { Reads (λ x. (x.0, left x.1.index (words_of x.1.words.now))) result (args_at rest.entry.index (words_of rest.entry.words.now)) }
{
    let mut args = Sequence::new(alloc);
    let mut left = rest;
    while let Some((word, behind)) = left.split() {
        if is_end(word) {
            return Ok((args, behind));
        }
        args.push(Word::new(alloc, word)?)?;
        left = behind;
    }
    Err(wrong(WordKind::Missing, left.index))
}
