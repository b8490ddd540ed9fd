//! The code of a method, written (JVMS 4.7.3).

ghost use Rattle.std.specs.Prelude.{◌≡◌, ◌<◌, ◌^◌, ◌++◌, codes, length, List, Option};
ghost use Rattle.std.specs.List.{flat_map};
ghost use Rattle.byteorder.specs.Endian.{big_bytes};
ghost use Rattle.class_pool.specs.declared.constant.Constant.{Constant};
ghost use Rattle.class_writer.specs.Fitting.{CodeFits};
ghost use Rattle.class_writer.specs.Putting.{Puts};
ghost use Rattle.class_writer.specs.Writing.{catch_bytes, handler_bytes, counted_bytes, code_bytes, given_bytes, utf8_index};

use crate::indices::Indices;
use crate::output::Output;
use class_pool::Text;
use class_reader::{Code, Handler};
use std::alloc::AllocError;

/// The index of the class that is caught; 0 catches everything.
fn put_catch(
    out: &mut Output,
    indices: &Indices<'_>,
    catch: &Option<Text>,
) -> Result<(), AllocError>
    ensures { Puts result out.old out.new (catch_bytes indices.now catch.now) }
{
    match catch {
        Some(class) => out.u2(indices.class(class.as_slice())),
        None => out.u2(0),
    }
}

/// An entry of an exception table.
#[tactic(auto, unfolding(crate::specs::Writing::handler_bytes))]
fn put_handler(out: &mut Output, indices: &Indices<'_>, handler: &Handler) -> Result<(), AllocError>
    ensures { Puts result out.old out.new (handler_bytes indices.now handler.now) }
{
    out.u2(handler.start)?;
    out.u2(handler.end)?;
    out.u2(handler.handler)?;
    put_catch(out, indices, &handler.catch)
}

/// The entries of an exception table.
fn put_each(out: &mut Output, indices: &Indices<'_>, handlers: &[Handler]) -> Result<(), AllocError>
    ensures { Puts result out.old out.new (flat_map (handler_bytes indices.now) handlers.now) }
{
    for handler in handlers {
        put_handler(out, indices, handler)?;
    }
    Ok(())
}

/// An exception table.
fn put_handlers(
    out: &mut Output,
    indices: &Indices<'_>,
    handlers: &[Handler],
) -> Result<(), AllocError>
    requires { length handlers.now < 2 ^ 16 }
    ensures { Puts result out.old out.new (counted_bytes (handler_bytes indices.now) handlers.now) }
{
    out.u2(handlers.len() as u16)?;
    put_each(out, indices, handlers)
}

/// The bytes of the instructions, behind their count.
fn put_instructions(out: &mut Output, bytes: &[u8]) -> Result<(), AllocError>
    requires { length bytes.now < 2 ^ 16 }
    ensures { Puts result out.old out.new (big_bytes 4 (length bytes.now) ++ bytes.now) }
{
    out.u4(bytes.len() as u32)?;
    out.put(bytes)
}

/// What a Code attribute holds.
#[tactic(auto, unfolding(crate::specs::Writing::code_bytes))]
fn put_code(out: &mut Output, indices: &Indices<'_>, code: &Code) -> Result<(), AllocError>
    requires bytes { length code.now.bytes < 2 ^ 16 }
    requires handlers { length code.now.handlers < 2 ^ 16 }
    ensures { Puts result out.old out.new (code_bytes indices.now code.now) }
{
    out.u2(code.max_stack)?;
    out.u2(code.max_locals)?;
    put_instructions(out, code.bytes.as_slice())?;
    put_handlers(out, indices, code.handlers.as_slice())?;
    out.u2(0)
}

/// How many bytes a Code attribute holds.
fn code_len(code: &Code) -> u32
    requires bytes { length code.now.bytes < 2 ^ 16 }
    requires handlers { length code.now.handlers < 2 ^ 16 }
    ensures { (pool : List (Option Constant)) → length (code_bytes pool code.now) ≡ result }
{
    12 + code.bytes.len() as u32 + 8 * code.handlers.len() as u32
}

/// The attribute Code.
fn put_attribute(out: &mut Output, indices: &Indices<'_>, code: &Code) -> Result<(), AllocError>
    requires bytes { length code.now.bytes < 2 ^ 16 }
    requires handlers { length code.now.handlers < 2 ^ 16 }
    ensures { Puts result out.old out.new (utf8_index indices.now (codes "Code") ++ (big_bytes 4 (length (code_bytes indices.now code.now)) ++ code_bytes indices.now code.now)) }
{
    out.u2(indices.utf8(b"Code"))?;
    out.u4(code_len(code))?;
    put_code(out, indices, code)
}

/// The attributes of a method: Code, where it has code.
#[tactic(auto, unfolding(crate::specs::Writing::given_bytes))]
pub(crate) fn put_attributes(
    out: &mut Output,
    indices: &Indices<'_>,
    code: &Option<Code>,
) -> Result<(), AllocError>
    requires { CodeFits code.now }
    ensures { Puts result out.old out.new (given_bytes indices.now code.now) }
{
    match code {
        Some(code) => {
            out.u2(1)?;
            put_attribute(out, indices, code)
        }
        None => out.u2(0),
    }
}
