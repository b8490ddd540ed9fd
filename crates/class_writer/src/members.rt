//! Fields and methods, written (JVMS 4.5, 4.6).

ghost use Rattle.std.specs.Prelude.{◌≡◌, ◌<◌, ◌^◌, length};
ghost use Rattle.std.specs.List.{AllByRecursion, flat_map};
ghost use Rattle.class_writer.specs.Fitting.{MethodFits};
ghost use Rattle.class_writer.specs.Putting.{Puts};
ghost use Rattle.class_writer.specs.Writing.{counted_bytes, field_bytes, method_bytes};

use crate::code::put_attributes;
use crate::indices::Indices;
use crate::output::Output;
use class_reader::{Field, Method};
use std::alloc::AllocError;

/// A field.
#[tactic(auto, unfolding(crate::specs::Writing::field_bytes))]
fn put_field(out: &mut Output, indices: &Indices<'_>, field: &Field) -> Result<(), AllocError>
    ensures { Puts result out.old out.new (field_bytes indices.now field.now) }
{
    out.u2(field.flags)?;
    out.u2(indices.utf8(field.name.as_slice()))?;
    out.u2(indices.utf8(field.desc.as_slice()))?;
    out.u2(0)
}

fn put_each_field(
    out: &mut Output,
    indices: &Indices<'_>,
    fields: &[Field],
) -> Result<(), AllocError>
    ensures { Puts result out.old out.new (flat_map (field_bytes indices.now) fields.now) }
{
    for field in fields {
        put_field(out, indices, field)?;
    }
    Ok(())
}

/// The fields, behind their count.
pub(crate) fn put_fields(
    out: &mut Output,
    indices: &Indices<'_>,
    fields: &[Field],
) -> Result<(), AllocError>
    requires { length fields.now < 2 ^ 16 }
    ensures { Puts result out.old out.new (counted_bytes (field_bytes indices.now) fields.now) }
{
    out.u2(fields.len() as u16)?;
    put_each_field(out, indices, fields)
}

/// A method.
#[tactic(auto, unfolding(crate::specs::Writing::method_bytes))]
fn put_method(out: &mut Output, indices: &Indices<'_>, method: &Method) -> Result<(), AllocError>
    requires { MethodFits method.now }
    ensures { Puts result out.old out.new (method_bytes indices.now method.now) }
{
    out.u2(method.flags)?;
    out.u2(indices.utf8(method.name.as_slice()))?;
    out.u2(indices.utf8(method.desc.as_slice()))?;
    put_attributes(out, indices, &method.code)
}

fn put_each_method(
    out: &mut Output,
    indices: &Indices<'_>,
    methods: &[Method],
) -> Result<(), AllocError>
    requires { AllByRecursion MethodFits methods.now }
    ensures { Puts result out.old out.new (flat_map (method_bytes indices.now) methods.now) }
{
    for method in methods {
        put_method(out, indices, method)?;
    }
    Ok(())
}

/// The methods, behind their count.
pub(crate) fn put_methods(
    out: &mut Output,
    indices: &Indices<'_>,
    methods: &[Method],
) -> Result<(), AllocError>
    requires short { length methods.now < 2 ^ 16 }
    requires fit { AllByRecursion MethodFits methods.now }
    ensures { Puts result out.old out.new (counted_bytes (method_bytes indices.now) methods.now) }
{
    out.u2(methods.len() as u16)?;
    put_each_method(out, indices, methods)
}
