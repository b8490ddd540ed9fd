ghost use Rattle.std.specs.Prelude.{◌≡◌, codes, option_map};
ghost use Rattle.cost_words.specs.Reading.{Reads, left, words_of};
ghost use Rattle.cost_words.specs.Grammar.{is_option, behind, option_at, weights_at, cost_at, cost_if, cost_option, steps_if, steps_option, proof_option, or_wrong, number_within, most_steps};

use crate::Cost;
use crate::fault::{WordFault, WordKind, wrong};
use crate::number::number_within;
use crate::paths::path_at;
use crate::rest::Rest;
use std::alloc::Global;

// How many steps a run has at most, where the words don't say.
const MOST_STEPS: u64 = 100_000_000;

// What stands behind this beginning of a word.
fn behind<'a>(front: &str, word: &'a str) -> Option<&'a str>
    ensures { option_map (λ text. text.now) result ≡ behind front.now word.now }
{
    word.strip_prefix(front)
}

// Whether a word can only be an option.
pub(crate) fn is_option(word: &str) -> bool
    ensures { result ≡ is_option word.now }
{
    word.starts_with("--")
}

// What stands behind this beginning of the next word, and what is left behind that word.
fn option_at<'a>(front: &str, rest: Rest<'a>) -> Option<(&'a str, Rest<'a>)>
    ensures { option_map (λ o. (o.0.now, left o.1.index (words_of o.1.words.now))) result ≡ option_at front.now rest.entry.index (words_of rest.entry.words.now) }
{
    let (word, behind_it) = rest.split()?;
    let text = behind(front, word)?;
    Some((text, behind_it))
}

#[tactic(auto, unfolding(crate::specs::Grammar::cost_at))]
fn cost_at(alloc: Global, index: u64, text: &str) -> Result<Cost, WordFault>
    ensures { Reads (λ c. c) result (cost_at index text.now) }
{
    if text == "instructions" {
        return Ok(Cost::Instructions);
    }
    if text == "objects" {
        return Ok(Cost::Objects);
    }
    match behind("weights:", text) {
        Some(path) => Ok(Cost::Weights(path_at(alloc, index, path)?)),
        None => Err(wrong(WordKind::Extra, index)),
    }
}

// `[--cost=C]`
#[tactic(auto, unfolding(crate::specs::Grammar::cost_option))]
pub(crate) fn cost_option(alloc: Global, rest: Rest<'_>) -> Result<(Cost, Rest<'_>), WordFault>
    ensures { Reads (λ x. (x.0, left x.1.index (words_of x.1.words.now))) result (cost_option rest.entry.index (words_of rest.entry.words.now)) }
{
    match option_at("--cost=", rest) {
        Some((text, behind)) => Ok((cost_at(alloc, rest.index, text)?, behind)),
        None => Ok((Cost::Instructions, rest)),
    }
}

// `[--steps=N]`
#[tactic(auto, unfolding(crate::specs::Grammar::steps_option))]
pub(crate) fn steps_option(rest: Rest<'_>) -> Result<(u64, Rest<'_>), WordFault>
    ensures { Reads (λ x. (x.0, left x.1.index (words_of x.1.words.now))) result (steps_option rest.entry.index (words_of rest.entry.words.now)) }
{
    match option_at("--steps=", rest) {
        Some((text, behind)) => match number_within(1, MOST_STEPS, text) {
            Some(steps) => Ok((steps, behind)),
            None => Err(wrong(WordKind::BadNumber, rest.index)),
        },
        None => Ok((MOST_STEPS, rest)),
    }
}

// `[--proof]`
#[tactic(auto, unfolding(crate::specs::Grammar::proof_option))]
pub(crate) fn proof_option(rest: Rest<'_>) -> (bool, Rest<'_>)
    ensures { (result.0, left result.1.index (words_of result.1.words.now)) ≡ proof_option rest.entry.index (words_of rest.entry.words.now) }
{
    match rest.split() {
        Some((word, behind)) if word == "--proof" => (true, behind),
        _ => (false, rest),
    }
}
