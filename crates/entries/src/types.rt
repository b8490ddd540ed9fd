//! The types of a method's arguments (JVMS 4.3.3).

ghost use Rattle.std.specs.Prelude.{◌≡◌, ◌∷◌, [], ◌++◌, IfOk};
ghost use Rattle.descriptors.specs.Pieces.{parameters_of};
ghost use Rattle.entries.specs.Entry.{argument_types};

use class_pool::Text;
use class_reader::{ClassRecord, Method, is_static};
use descriptors::{behind_open, first_type};
use std::alloc::{AllocError, Global};

// The type of the objects of the class with this name.
fn own_type(alloc: Global, name: &[u8]) -> Result<Text, AllocError>
    ensures { IfOk result (λ t. t ≡ 76 ∷ name.now ++ 59 ∷ []) }
{
    let mut bytes = vec![in alloc; b'L']?;
    bytes.extend_from_slice(name)?;
    bytes.push(b';')?;
    let text = Text::from_slice(alloc, &bytes)?;
    Ok(text)
}

// The types, and behind them those of the parameters.
fn with_parameters(alloc: Global, types: Vec<Text>, desc: &[u8]) -> Result<Vec<Text>, AllocError>
    ensures { IfOk result (λ v. v.items ≡ types.items ++ parameters_of desc.now) }
{
    let mut types = types;
    let mut left = behind_open(desc);
    while let Some((desc, rest)) = first_type(left) {
        let text = Text::from_slice(alloc, desc)?;
        types.push(text)?;
        left = rest;
    }
    Ok(types)
}

// The types of the arguments: the receiver, where the method isn't static, and the parameters.
pub(crate) fn argument_types(
    alloc: Global,
    class: &ClassRecord,
    method: &Method,
) -> Result<Vec<Text>, AllocError>
    ensures { IfOk result (λ v. v.items ≡ argument_types class.now method.now) }
{
    let mut types = Vec::new(alloc);
    if !is_static(method.flags) {
        let receiver = own_type(alloc, class.name.as_slice())?;
        types.push(receiver)?;
    }
    let types = with_parameters(alloc, types, method.desc.as_slice())?;
    Ok(types)
}
