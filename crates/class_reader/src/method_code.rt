//! The attributes of a method, and the code in them (JVMS 4.6, 4.7.3).

ghost use Rattle.std.specs.Prelude.{◌≡◌, true, false, Some, None};
ghost use Rattle.std.specs.Option.{option_copied};
ghost use Rattle.class_pool.specs.Pool.{utf8_at};
ghost use Rattle.class_reader.specs.Met.{Tells, times};
ghost use Rattle.class_reader.specs.ClassReading.{is_code, is_filled, judged, code_at, given_at, keeps_code, given_with, method_attribute_at, code_given_at};

use crate::attributes::{StoredAttribute, read_attribute};
use crate::class::Code;
use crate::code::read_code;
use crate::fault::ClassFault;
use crate::kept::{Cut, Kept};
use class_pool::{Cursor, Pool, Text};
use std::alloc::Global;
use std::marker::Model;

/// How many bytes the instructions of a method are at most.
const MAX_CODE: usize = 65535;

/// What is known of a method's code behind some of its attributes.
#[derive(Drop)]
struct FoundCode {
    /// Whether an attribute Code was met.
    met: bool,
    code: Option<Code>,
}

impl Model for FoundCode {
    ghost use Rattle.class_reader.specs.ClassReading.{Given};

    ghost Value = { Given };

    ghost view = { λ f. record { met = f.met; code = f.code } };
}

/// Whether the name is that of Code attributes.
fn is_code(name: Option<&Text>) -> bool
    ensures { result ≡ is_code (option_copied name.entry) }
{
    match name {
        Some(name) => name.as_slice() == b"Code".as_slice(),
        None => false,
    }
}

/// Whether the code's parts end where the cursor stands at the end, and it has from 1 to 65,535 bytes of
/// instructions.
fn is_filled(code: &Code, cursor: &Cursor<'_>) -> bool
    ensures { result ≡ is_filled (Some (code.now, cursor.now)) }
{
    let len = code.bytes.len();
    cursor.left() == 0 && 1 <= len && len <= MAX_CODE
}

/// The code in an attribute whose name's index stands at the offset `at`, where it is one. What is faulty in it
/// counts only then.
#[tactic(auto, unfolding(crate::specs::Faults::first_with))]
fn read_judged(
    alloc: Global,
    pool: &Pool,
    at: u32,
    mut body: Cursor<'_>,
    kept: &mut Kept,
) -> Result<Option<Code>, Cut>
    ensures { Tells (λ code. code) result kept.old kept.new (judged at (code_at pool.now body.entry)) }
{
    let mut inner = kept.copy();
    match read_code(alloc, pool, &mut body, &mut inner) {
        Ok(code) => {
            if is_filled(&code, &body) {
                *kept = inner;
                return Ok(Some(code));
            }
        }
        Err(Cut::Short) => {}
        Err(Cut::Memory) => return Err(Cut::Memory),
    }
    kept.note(ClassFault::BadCode { at });
    Ok(None)
}

/// The code in a Code attribute, which may stand where none was met before and the method may have code.
#[tactic(auto, unfolding(crate::specs::Faults::first_with, crate::specs::ClassReading::given_at))]
fn read_given(
    alloc: Global,
    pool: &Pool,
    allowed: bool,
    met: bool,
    attribute: StoredAttribute<'_>,
    kept: &mut Kept,
) -> Result<Option<Code>, Cut>
    ensures { Tells (λ code. code) result kept.old kept.new (given_at allowed pool.now met (record { at = attribute.entry.at; name = utf8_at pool.now attribute.entry.name; body = attribute.entry.body })) }
{
    if allowed && !met {
        return read_judged(alloc, pool, attribute.at, attribute.body, kept);
    }
    kept.note(ClassFault::BadCode { at: attribute.at });
    Ok(None)
}

/// Keeps the code of the first Code attribute.
fn keep_code(found: &mut FoundCode, code: Option<Code>)
    ensures { found.new ≡ record { met = true; code = keeps_code found.old.code code } }
{
    found.met = true;
    if found.code.is_none() {
        found.code = code;
    }
}

/// Looks into an attribute of a method that may have code or may not.
#[tactic(auto, using(crate::proofs::Keeping::first_with_behind), unfolding(crate::specs::Faults::first_with, crate::specs::ClassReading::given_with))]
fn look_into(
    alloc: Global,
    pool: &Pool,
    allowed: bool,
    attribute: StoredAttribute<'_>,
    found: &mut FoundCode,
    kept: &mut Kept,
) -> Result<(), Cut>
    ensures { Tells (λ _. found.new) result kept.old kept.new (given_with allowed pool.now found.old (record { at = attribute.entry.at; name = utf8_at pool.now attribute.entry.name; body = attribute.entry.body })) }
{
    if is_code(pool.utf8(attribute.name)) {
        let code = read_given(alloc, pool, allowed, found.met, attribute, kept)?;
        keep_code(found, code);
    }
    Ok(())
}

/// An attribute of a method that may have code or may not.
#[tactic(auto, using(crate::proofs::Keeping::first_with_behind), unfolding(crate::specs::Faults::first_with, crate::specs::ClassReading::method_attribute_at))]
fn read_method_attribute(
    alloc: Global,
    pool: &Pool,
    allowed: bool,
    found: &mut FoundCode,
    cursor: &mut Cursor<'_>,
    kept: &mut Kept,
) -> Result<(), Cut>
    ensures { Tells (λ _. (found.new, cursor.new)) result kept.old kept.new (method_attribute_at allowed pool.now (found.old, cursor.old)) }
{
    let attribute = read_attribute(pool, cursor, kept)?;
    look_into(alloc, pool, allowed, attribute, found, kept)
}

/// So many attributes of a method.
fn read_so_many(
    alloc: Global,
    pool: &Pool,
    allowed: bool,
    count: u16,
    cursor: &mut Cursor<'_>,
    kept: &mut Kept,
) -> Result<FoundCode, Cut>
    ensures { Tells (λ found. (found, cursor.new)) result kept.old kept.new (times (method_attribute_at allowed pool.now) count (record { met = false; code = None }, cursor.old)) }
{
    let mut found = FoundCode {
        met: false,
        code: None,
    };
    for _ in 0..count {
        read_method_attribute(alloc, pool, allowed, &mut found, cursor, kept)?;
    }
    Ok(found)
}

/// The code in the attributes of a method whose flags stand at the offset `at`, and which has code or has none.
#[tactic(auto, using(crate::proofs::Keeping::first_with_behind), unfolding(crate::specs::Faults::first_with, crate::specs::ClassReading::code_given_at))]
pub(crate) fn read_method_code(
    alloc: Global,
    pool: &Pool,
    at: u32,
    has_code: bool,
    cursor: &mut Cursor<'_>,
    kept: &mut Kept,
) -> Result<Option<Code>, Cut>
    ensures { Tells (λ code. (code, cursor.new)) result kept.old kept.new (code_given_at at has_code pool.now cursor.old) }
{
    let count = cursor.u2()?;
    let found = read_so_many(alloc, pool, has_code, count, cursor, kept)?;
    kept.note_if(has_code && !found.met, ClassFault::BadCode { at });
    Ok(found.code)
}
