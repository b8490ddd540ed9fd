//! The statics with which a run begins (JVMS 2.3, 5.4.2).

ghost use Rattle.std.specs.Prelude.{◌≡◌, ◌<◌, ◌^◌, [], ◌∷◌, ◌++◌, length, map, IfOk, OnOk};
ghost use Rattle.frames.specs.Heap.{default_of};
ghost use Rattle.entries.specs.Entry.{is_static_number, own_statics};
ghost use Rattle.entries.specs.Entering.{zeros};

use class_reader::{Field, is_static};
use frames::{Value, default_of, is_int_type};
use std::alloc::{AllocError, Global};
use world::{MemberId, World};

// Whether the field is a static int or long.
fn is_static_number(field: &Field) -> bool
    ensures { result ≡ is_static_number field.now }
{
    let desc = field.desc.as_slice();
    is_static(field.flags) && (is_int_type(desc) || desc == b"J".as_slice())
}

// Adds a field of a class with 0, where it is a static int or long.
fn add_static(
    class: u32,
    member: u32,
    field: &Field,
    statics: &mut Vec<(MemberId, Value)>,
) -> Result<(), AllocError>
    ensures { OnOk result (statics.new.items ≡ statics.old.items ++ map (λ f. (f.0, default_of f.1)) (own_statics class member (field.now ∷ []))) }
{
    if is_static_number(field) {
        statics.push((
            MemberId { class, member },
            default_of(field.desc.as_slice()),
        ))?;
    }
    Ok(())
}

// Adds a class's own static ints and longs, each 0.
fn add_statics(
    class: u32,
    own: &[Field],
    statics: &mut Vec<(MemberId, Value)>,
) -> Result<(), AllocError>
    requires { length own.now < 2 ^ 32 }
    ensures { OnOk result (statics.new.items ≡ statics.old.items ++ map (λ f. (f.0, default_of f.1)) (own_statics class 0 own.now)) }
{
    let mut rest = own;
    let mut member: usize = 0;
    while let [field, behind @ ..] = rest {
        add_static(class, member as u32, field, statics)?;
        rest = behind;
        member += 1;
    }
    Ok(())
}

// The static ints and longs of all classes, each 0.
#[tactic(auto, unfolding(crate::specs::Entry::statics_of))]
pub(crate) fn zeros(alloc: Global, w: &World) -> Result<Vec<(MemberId, Value)>, AllocError>
    ensures { IfOk result (λ statics. statics.items ≡ zeros w.now) }
{
    let mut statics = Vec::new(alloc);
    for c in 0..w.count() {
        add_statics(c, w.record_at(c).fields.as_slice(), &mut statics)?;
    }
    Ok(statics)
}
