ghost use Rattle.std.specs.Prelude.{◌≡◌, IfOk};
ghost use Rattle.bound_terms.specs.Bounds.{term_of};
ghost use Rattle.bound_terms.specs.Texts.{text_of};

use bound_terms::{Bound, put_text};
use class_pool::Text;
use std::alloc::{AllocError, Global};

/// The bound's text.
pub fn print(alloc: Global, bound: &Bound) -> Result<Text, AllocError>
    ensures { IfOk result (λ text. text ≡ text_of (term_of bound.now)) }
{
    let mut bytes = Vec::new(alloc);
    put_text(&mut bytes, bound)?;
    Text::from_slice(alloc, bytes.as_slice())
}
