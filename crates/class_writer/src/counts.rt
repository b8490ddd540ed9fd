//! The counts of a class file (JVMS 4.1, 4.7.3).

ghost use Rattle.std.specs.Prelude.{◌≡◌};
ghost use Rattle.std.specs.List.{list_any};
ghost use Rattle.class_writer.specs.Counts.{passes, has_too_many, over};

use crate::fault::What;
use class_reader::{ClassRecord, Method};

/// How far two bytes count.
const MOST: usize = u16::MAX as usize;

/// Whether the count takes more than two bytes.
fn passes(count: usize) -> bool
    ensures { result ≡ passes count }
{
    count > MOST
}

/// Whether the method has more handlers than its exception table can count.
fn has_too_many(method: &Method) -> bool
    ensures { result ≡ has_too_many method.now }
{
    match &method.code {
        Some(code) => passes(code.handlers.len()),
        None => false,
    }
}

/// Whether one of the methods has.
fn have_too_many(methods: &[Method]) -> bool
    ensures { result ≡ list_any has_too_many methods.now }
{
    methods.iter().any(|method| has_too_many(method))
}

/// What there are too many of: the first in the order of the file, if any.
#[tactic(auto, unfolding(crate::specs::Counts::over))]
pub(crate) fn over(class: &ClassRecord) -> Option<What>
    ensures { result ≡ over class.now }
{
    if class.pool.entries().len() >= MOST {
        return Some(What::Entries);
    }
    if passes(class.interfaces.len()) {
        return Some(What::Interfaces);
    }
    if passes(class.fields.len()) {
        return Some(What::Fields);
    }
    if passes(class.methods.len()) {
        return Some(What::Methods);
    }
    if have_too_many(class.methods.as_slice()) {
        return Some(What::Handlers);
    }
    None
}
