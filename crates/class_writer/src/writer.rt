//! A class, written as the bytes of its file (JVMS 4.1).

ghost use Rattle.std.specs.Prelude.{◌≡◌, ◌↔◌, ◌+◌, ◌<◌, ◌^◌, ◌∷◌, ◌++◌, length, Some, IfOk};
ghost use Rattle.std.specs.List.{AllByRecursion, flat_map};
ghost use Rattle.byteorder.specs.Endian.{big_bytes};
ghost use Rattle.class_pool.specs.Place.{IsBytes};
ghost use Rattle.class_reader.specs.ClassFile.{IsClassFile};
ghost use Rattle.class_reader.specs.Valid.{IsClass};
ghost use Rattle.class_writer.specs.declared.fault.What.{What};
ghost use Rattle.class_writer.specs.declared.fault.WriteFault.TheVariants.{TooMany};
ghost use Rattle.class_writer.specs.Counts.{CountsFit, over};
ghost use Rattle.class_writer.specs.Fitting.{SlotFits, MethodFits};
ghost use Rattle.class_writer.specs.Putting.{Puts};
ghost use Rattle.class_writer.specs.ReadAgain.{IsReadAs};
ghost use Rattle.class_writer.specs.Writing.{class_index, counted_bytes, super_bytes, behind_bytes, class_bytes};

use crate::counts::over;
use crate::entries::put_pool;
use crate::fault::WriteFault;
use crate::indices::Indices;
use crate::laws::written_is_class_file;
use crate::members::{put_fields, put_methods};
use crate::output::Output;
use class_pool::Text;
use class_reader::{Class, ClassRecord, is_decided};
use std::alloc::{AllocError, Global};

/// The number that class files begin with.
const MAGIC: u32 = 0xcafebabe;

/// The magic number and the version, whose minor part is 0.
fn put_head(out: &mut Output, major: u16) -> Result<(), AllocError>
    ensures { Puts result out.old out.new (202 ∷ 254 ∷ 186 ∷ 190 ∷ big_bytes 2 0 ++ big_bytes 2 major) }
{
    out.u4(MAGIC)?;
    out.u2(0)?;
    out.u2(major)
}

/// The index of the superclass.
fn put_super(
    out: &mut Output,
    indices: &Indices<'_>,
    super_name: &Option<Text>,
) -> Result<(), AllocError>
    ensures { Puts result out.old out.new (super_bytes indices.now super_name.now) }
{
    match super_name {
        Some(name) => out.u2(indices.class(name.as_slice())),
        None => out.u2(0),
    }
}

fn put_each_interface(
    out: &mut Output,
    indices: &Indices<'_>,
    names: &[Text],
) -> Result<(), AllocError>
    ensures { Puts result out.old out.new (flat_map (class_index indices.now) names.now) }
{
    for name in names {
        out.u2(indices.class(name.as_slice()))?;
    }
    Ok(())
}

/// The indices of the direct superinterfaces, behind their count.
fn put_interfaces(out: &mut Output, indices: &Indices<'_>, names: &[Text]) -> Result<(), AllocError>
    requires { length names.now < 2 ^ 16 }
    ensures { Puts result out.old out.new (counted_bytes (class_index indices.now) names.now) }
{
    out.u2(names.len() as u16)?;
    put_each_interface(out, indices, names)
}

/// What stands behind the pool.
#[tactic(auto, unfolding(crate::specs::Writing::behind_bytes))]
fn put_body(out: &mut Output, indices: &Indices<'_>, class: &ClassRecord) -> Result<(), AllocError>
    requires same { indices.now ≡ class.now.pool }
    requires fit { CountsFit class.now }
    requires methods { AllByRecursion MethodFits class.now.methods }
    ensures { Puts result out.old out.new (behind_bytes class.now) }
{
    out.u2(class.flags)?;
    out.u2(indices.class(class.name.as_slice()))?;
    put_super(out, indices, &class.super_name)?;
    put_interfaces(out, indices, class.interfaces.as_slice())?;
    put_fields(out, indices, class.fields.as_slice())?;
    put_methods(out, indices, class.methods.as_slice())?;
    out.u2(0)
}

/// The bytes of a class whose counts fit.
#[tactic(auto, unfolding(crate::specs::Writing::class_bytes))]
fn write_record(alloc: Global, class: &ClassRecord) -> Result<Vec<u8>, AllocError>
    requires valid { IsClass class.now }
    requires fit { CountsFit class.now }
    ensures same { IfOk result (λ bytes. bytes.items ≡ class_bytes class.now) }
    ensures small { IfOk result (λ bytes. length bytes.items < 2 ^ 32) }
    ensures bytes { IfOk result (λ bytes. IsBytes bytes.items) }
{
    let indices = Indices::of(alloc, &class.pool)?;
    let mut out = Output::new(alloc);
    put_head(&mut out, class.major)?;
    put_pool(&mut out, indices.pool())?;
    put_body(&mut out, &indices, class)?;
    Ok(out.into_bytes())
}

/// The bytes of a class file of the class (JVMS 4.1): its minor version is 0, it has no attributes but Code, and each
/// name is written by the first index that has it.
///
/// # Errors
///
/// `TooMany` where a count passes its two bytes, for the first such count in the order of the file; `Memory` where
/// memory runs out or the file would have 2^32 bytes or more.
pub fn write(alloc: Global, c: &Class) -> Result<Vec<u8>, WriteFault>
    // What is written is in the grammar.
    ensures found { IfOk result (λ bytes. IsClassFile bytes.items c.now) }

    // It is read again as the class.
    ensures read_again { IfOk result (λ bytes. IsReadAs bytes.items c.now) }

    // The bytes are those of the class.
    ensures same { IfOk result (λ bytes. bytes.items ≡ class_bytes c.now) }
    ensures small { IfOk result (λ bytes. length bytes.items < 2 ^ 32) }

    // There are too many exactly where a count passes its field.
    ensures too_many { (what : What) → (result ≡ Err (TooMany what)) ↔ (over c.now ≡ Some what) }
{
    written_is_class_file();
    is_decided();
    let class = c.record();
    if let Some(what) = over(class) {
        return Err(WriteFault::TooMany { what });
    }
    Ok(write_record(alloc, class)?)
}
