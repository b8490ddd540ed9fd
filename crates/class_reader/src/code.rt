//! The code of a method (JVMS 4.7.3).

ghost use Rattle.std.specs.Prelude.{◌≡◌, [], IfOk, MatchResult};
ghost use Rattle.class_reader.specs.Faults.{first_with};
ghost use Rattle.class_reader.specs.Met.{Tells, done, cut, times, pushed, counted_at};
ghost use Rattle.class_reader.specs.ClassReading.{catch_faults, catch_of, catch_at, handler_at, instructions_at, code_at};

use crate::attributes::skip_attributes;
use crate::class::{Code, Handler};
use crate::indices::note_index;
use crate::kept::{Cut, Kept};
use class_pool::{Bytes, Cursor, Pool, Sequence, Text};
use std::alloc::{AllocError, Global};

/// Notes an index at this offset that names no class and isn't 0.
#[tactic(auto, unfolding(crate::specs::Faults::first_with))]
fn note_catch(pool: &Pool, at: u32, index: u16, kept: &mut Kept)
    ensures { kept.new ≡ first_with kept.old (catch_faults pool.now at index) }
{
    if index != 0 {
        note_index(pool.class_name(index), at, index, kept);
    }
}

/// The name of the class that is caught; 0 catches everything.
fn catch_of(pool: &Pool, index: u16) -> Result<Option<Text>, AllocError>
    ensures { IfOk result (λ catch. catch ≡ catch_of pool.now index) }
{
    if index == 0 {
        return Ok(None);
    }
    match pool.class_name(index) {
        Some(name) => Ok(Some(name.share()?)),
        None => Ok(None),
    }
}

/// The class that the next index says is caught.
#[tactic(auto, unfolding(crate::specs::Faults::first_with, crate::specs::ClassReading::catch_at))]
fn read_catch(pool: &Pool, cursor: &mut Cursor<'_>, kept: &mut Kept) -> Result<Option<Text>, Cut>
    ensures { Tells (λ catch. (catch, cursor.new)) result kept.old kept.new (catch_at pool.now cursor.old) }
{
    let at = cursor.at();
    let index = cursor.u2()?;
    note_catch(pool, at, index, kept);
    Ok(catch_of(pool, index)?)
}

/// An entry of an exception table.
#[tactic(auto, using(crate::proofs::Keeping::first_with_behind), unfolding(crate::specs::Faults::first_with, crate::specs::ClassReading::handler_at))]
fn read_handler(pool: &Pool, cursor: &mut Cursor<'_>, kept: &mut Kept) -> Result<Handler, Cut>
    ensures { Tells (λ handler. (handler, cursor.new)) result kept.old kept.new (handler_at pool.now cursor.old) }
{
    let start = cursor.u2()?;
    let end = cursor.u2()?;
    let handler = cursor.u2()?;
    let catch = read_catch(pool, cursor, kept)?;
    Ok(Handler {
        start,
        end,
        handler,
        catch,
    })
}

/// So many entries of an exception table.
fn read_so_many(
    alloc: Global,
    pool: &Pool,
    count: u16,
    cursor: &mut Cursor<'_>,
    kept: &mut Kept,
) -> Result<Vec<Handler>, Cut>
    ensures { Tells (λ handlers. (handlers.items, cursor.new)) result kept.old kept.new (times (pushed (handler_at pool.now)) count ([], cursor.old)) }
{
    let mut handlers = Vec::new(alloc);
    for _ in 0..count {
        let handler = read_handler(pool, cursor, kept)?;
        handlers.push(handler)?;
    }
    Ok(handlers)
}

/// An exception table.
#[tactic(auto, using(crate::proofs::Keeping::first_with_behind), unfolding(crate::specs::Faults::first_with, crate::specs::Met::counted_at))]
fn read_handlers(
    alloc: Global,
    pool: &Pool,
    cursor: &mut Cursor<'_>,
    kept: &mut Kept,
) -> Result<Sequence<Handler>, Cut>
    ensures { Tells (λ handlers. (handlers, cursor.new)) result kept.old kept.new (counted_at (handler_at pool.now) cursor.old) }
{
    let count = cursor.u2()?;
    let handlers = read_so_many(alloc, pool, count, cursor, kept)?;
    Ok(Sequence::from(handlers))
}

/// The bytes of the instructions, behind their count.
#[tactic(auto, unfolding(crate::specs::ClassReading::instructions_at))]
fn take_instructions<'a>(cursor: &mut Cursor<'a>) -> Result<&'a [u8], Cut>
    ensures { MatchResult result (λ bytes. instructions_at cursor.old ≡ done (bytes.now, cursor.new)) (λ _. instructions_at cursor.old ≡ cut) }
{
    let len = cursor.u4()?;
    Ok(cursor.take(len)?)
}

/// What a Code attribute holds.
#[tactic(auto, using(crate::proofs::Keeping::first_with_behind), unfolding(crate::specs::Faults::first_with, crate::specs::ClassReading::code_at))]
pub(crate) fn read_code(
    alloc: Global,
    pool: &Pool,
    cursor: &mut Cursor<'_>,
    kept: &mut Kept,
) -> Result<Code, Cut>
    ensures { Tells (λ code. (code, cursor.new)) result kept.old kept.new (code_at pool.now cursor.old) }
{
    let max_stack = cursor.u2()?;
    let max_locals = cursor.u2()?;
    let bytes = take_instructions(cursor)?;
    let handlers = read_handlers(alloc, pool, cursor, kept)?;
    skip_attributes(pool, cursor, kept)?;
    let bytes = Bytes::from(Vec::from_slice(alloc, bytes)?);
    Ok(Code {
        max_stack,
        max_locals,
        bytes,
        handlers,
    })
}
