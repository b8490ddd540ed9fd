ghost use Rattle.std.specs.Prelude.{◌≡◌, ◌≤◌, [], length, IfOk};
ghost use Rattle.bound_terms.specs.Bounds.{term_of};
ghost use Rattle.bound_text.specs.Reading.{Reads};
ghost use Rattle.bound_text.specs.inside.Runs.{run};
ghost use Rattle.bound_text.specs.inside.Checks.{Checks};
ghost use Rattle.bound_text.specs.inside.Sums.{nothing_open};
ghost use Rattle.bound_text.specs.inside.Readers.{between, step, read_term};

use crate::fault::ReadFault;
use crate::printing::print;
use crate::reader::Reader;
use bound_forms::BoundFault;
use bound_normal::normal;
use bound_terms::Bound;
use std::alloc::{AllocError, Global};

/// The bound that the text is of, if it is a normal form's.
fn guessed(alloc: Global, text: &[u8]) -> Result<Bound, AllocError>
    ensures { IfOk result (λ b. term_of b ≡ read_term (run step text.now (between nothing_open []))) }
{
    let mut reader = Reader::new(alloc);
    for byte in text {
        reader = reader.with(alloc, *byte)?;
    }
    reader.into_bound(alloc)
}

/// How many bytes two texts begin with alike.
fn common_len(text: &[u8], other: &[u8]) -> usize
    ensures { result ≤ length text.now }
{
    let mut len = 0;
    while len < text.len() && len < other.len() && text[len] == other[len] {
        len += 1;
    }
    len
}

/// The form, where the text is its text.
fn checked(alloc: Global, text: &[u8], form: Bound) -> Result<Bound, ReadFault>
    ensures { Checks text.now (term_of form) result }
{
    let printed = print(alloc, &form)?;
    let bytes = printed.as_slice();
    if bytes == text {
        Ok(form)
    } else {
        Err(ReadFault::At {
            offset: common_len(text, bytes),
        })
    }
}

/// The normal form whose text this is. `At` comes exactly where it is the text of none; its offset is where the text leaves that
/// of the form that it was taken for, and the text's length where that form passes a limit.
pub fn read(alloc: Global, text: &[u8]) -> Result<Bound, ReadFault>
    ensures { Reads text.now result }
{
    let bound = guessed(alloc, text)?;
    match normal(alloc, bound) {
        Ok(form) => checked(alloc, text, form),
        Err(BoundFault::Memory) => Err(ReadFault::Memory),
        Err(BoundFault::Monomials) => Err(ReadFault::At { offset: text.len() }),
        Err(BoundFault::Coefficient) => Err(ReadFault::At { offset: text.len() }),
    }
}
