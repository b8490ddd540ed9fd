//! Class files (JVMS 4.1).

ghost use Rattle.std.specs.Prelude.{◌≡◌, ◌≢◌, ◌+◌, ◌<◌, ◌^◌, [], length, IfOk, Err};
ghost use Rattle.class_pool.specs.Pool.{class_name_at};
ghost use Rattle.class_pool.specs.PoolReading.{pool_at};
ghost use Rattle.class_reader.specs.declared.fault.ClassFault.{ClassFault};
ghost use Rattle.class_reader.specs.declared.fault.ClassFault.TheVariants.{Memory};
ghost use Rattle.class_reader.specs.ClassFile.{IsClassFile};
ghost use Rattle.class_reader.specs.FirstFault.{IsFirstFault};
ghost use Rattle.class_reader.specs.Met.{Tells, times, pushed, counted_at};
ghost use Rattle.class_reader.specs.ClassReading.{versions_at, head_at, name_at, names_at, rest_at};
ghost use Rattle.class_reader.specs.Verdict.{Finds, settled, in_class, class_with, verdict};
ghost use Rattle.class_reader.specs.Settling.{Settles};

use crate::attributes::skip_attributes;
use crate::class::{Class, ClassRecord, Field, Method};
use crate::declared::Declared;
use crate::fault::ClassFault;
use crate::indices::read_class_name;
use crate::kept::{Cut, Kept};
use crate::laws::{read_is_class, reading_is_exact};
use crate::members::{read_fields, read_methods};
use class_pool::{Cursor, Pool, Sequence, Text};
use std::alloc::Global;

/// The bytes that each class file begins with.
const MAGIC: u32 = 0xCAFEBABE;

/// The least and the greatest major version.
const MIN_MAJOR: u16 = 45;

const MAX_MAJOR: u16 = 65;

/// The versions: the major one.
#[tactic(auto, using(crate::proofs::Keeping::first_with_behind), unfolding(crate::specs::Faults::first_with, crate::specs::ClassReading::versions_at))]
fn read_versions(cursor: &mut Cursor<'_>, kept: &mut Kept) -> Result<u16, Cut>
    ensures { Tells (λ major. (major, cursor.new)) result kept.old kept.new (versions_at cursor.old) }
{
    cursor.u2()?;
    let at = cursor.at();
    let major = cursor.u2()?;
    kept.note_if(
        !(MIN_MAJOR <= major && major <= MAX_MAJOR),
        ClassFault::Version { at },
    );
    Ok(major)
}

/// The magic number and the versions: the major one.
#[tactic(auto, using(crate::proofs::Keeping::first_with_behind), unfolding(crate::specs::Faults::first_with, crate::specs::ClassReading::head_at))]
fn read_head(cursor: &mut Cursor<'_>, kept: &mut Kept) -> Result<u16, Cut>
    ensures { Tells (λ major. (major, cursor.new)) result kept.old kept.new (head_at cursor.old) }
{
    let at = cursor.at();
    let magic = cursor.u4()?;
    kept.note_if(magic != MAGIC, ClassFault::Magic { at });
    read_versions(cursor, kept)
}

/// The flags of a class, and the names of it and its superclass.
#[derive(Drop)]
struct ClassNames {
    flags: u16,
    /// Where the index of this class stands.
    this_at: u32,
    name: Text,
    super_name: Text,
}

/// The flags, this class and the superclass.
#[tactic(auto, using(crate::proofs::Keeping::first_with_behind), unfolding(crate::specs::Faults::first_with, crate::specs::ClassReading::names_at))]
fn read_names(
    alloc: Global,
    pool: &Pool,
    cursor: &mut Cursor<'_>,
    kept: &mut Kept,
) -> Result<ClassNames, Cut>
    ensures place { IfOk result (λ names. names.this_at ≡ cursor.old.at + 2) }
    ensures tells { Tells (λ names. ((names.flags, names.name, names.super_name), cursor.new)) result kept.old kept.new (names_at pool.now cursor.old) }
{
    let flags = cursor.u2()?;
    let this_at = cursor.at();
    let name = read_class_name(alloc, pool, cursor, kept)?;
    let super_name = read_class_name(alloc, pool, cursor, kept)?;
    Ok(ClassNames {
        flags,
        this_at,
        name,
        super_name,
    })
}

/// So many names of classes.
fn read_so_many_names(
    alloc: Global,
    pool: &Pool,
    count: u16,
    cursor: &mut Cursor<'_>,
    kept: &mut Kept,
) -> Result<Vec<Text>, Cut>
    ensures { Tells (λ names. (names.items, cursor.new)) result kept.old kept.new (times (pushed (name_at (class_name_at pool.now))) count ([], cursor.old)) }
{
    let mut names = Vec::new(alloc);
    for _ in 0..count {
        let name = read_class_name(alloc, pool, cursor, kept)?;
        names.push(name)?;
    }
    Ok(names)
}

/// The names of the direct superinterfaces.
#[tactic(auto, using(crate::proofs::Keeping::first_with_behind), unfolding(crate::specs::Faults::first_with, crate::specs::Met::counted_at))]
fn read_interfaces(
    alloc: Global,
    pool: &Pool,
    cursor: &mut Cursor<'_>,
    kept: &mut Kept,
) -> Result<Sequence<Text>, Cut>
    ensures { Tells (λ names. (names, cursor.new)) result kept.old kept.new (counted_at (name_at (class_name_at pool.now)) cursor.old) }
{
    let count = cursor.u2()?;
    let names = read_so_many_names(alloc, pool, count, cursor, kept)?;
    Ok(Sequence::from(names))
}

/// What stands behind the pool.
#[derive(Drop)]
struct ClassBody {
    names: ClassNames,
    interfaces: Sequence<Text>,
    fields: Sequence<Field>,
    methods: Sequence<Method>,
}

/// What stands behind the pool.
#[tactic(auto, using(crate::proofs::Keeping::first_with_behind), unfolding(crate::specs::Faults::first_with, crate::specs::ClassReading::rest_at))]
fn read_body(
    alloc: Global,
    pool: &Pool,
    cursor: &mut Cursor<'_>,
    kept: &mut Kept,
) -> Result<ClassBody, Cut>
    ensures place { IfOk result (λ body. body.names.this_at ≡ cursor.old.at + 2) }
    ensures tells { Tells (λ body. (record { flags = body.names.flags; name = body.names.name; super_name = body.names.super_name; interfaces = body.interfaces; fields = body.fields; methods = body.methods }, cursor.new)) result kept.old kept.new (rest_at pool.now cursor.old) }
{
    let names = read_names(alloc, pool, cursor, kept)?;
    let interfaces = read_interfaces(alloc, pool, cursor, kept)?;
    let mut declared = Declared::of(alloc, pool)?;
    let fields = read_fields(alloc, &mut declared, cursor, kept)?;
    let methods = read_methods(alloc, &mut declared, cursor, kept)?;
    skip_attributes(pool, cursor, kept)?;
    Ok(ClassBody {
        names,
        interfaces,
        fields,
        methods,
    })
}

/// What is answered where reading has ended in bytes that end at the offset `end`.
fn settle<X: Drop>(read: Result<X, Cut>, kept: &Kept, end: u32) -> Result<X, ClassFault>
    ensures { Settles read kept.now end result }
{
    match read {
        Ok(x) => match kept.first() {
            None => Ok(x),
            Some(fault) => Err(fault),
        },
        Err(Cut::Short) => Err(kept.first_or(ClassFault::Short { at: end })),
        Err(Cut::Memory) => Err(ClassFault::Memory),
    }
}

/// The major version, in bytes that end at the offset `end`.
fn find_head(cursor: &mut Cursor<'_>, end: u32) -> Result<u16, ClassFault>
    ensures { Finds (λ major. (major, cursor.new)) result (settled end (head_at cursor.old)) }
{
    let mut kept = Kept::new();
    let read = read_head(cursor, &mut kept);
    settle(read, &kept, end)
}

/// The pool.
fn find_pool<'a>(alloc: Global, cursor: Cursor<'a>) -> Result<(Pool, Cursor<'a>), ClassFault>
    ensures { Finds (λ r. (r.0, r.1)) result (in_class (pool_at cursor.entry)) }
{
    Ok(Pool::read(alloc, cursor)?)
}

/// What stands behind the pool, in bytes that end at the offset `end`.
fn find_body(
    alloc: Global,
    pool: &Pool,
    cursor: &mut Cursor<'_>,
    end: u32,
) -> Result<ClassBody, ClassFault>
    ensures place { IfOk result (λ body. body.names.this_at ≡ cursor.old.at + 2) }
    ensures finds { Finds (λ body. (record { flags = body.names.flags; name = body.names.name; super_name = body.names.super_name; interfaces = body.interfaces; fields = body.fields; methods = body.methods }, cursor.new)) result (settled end (rest_at pool.now cursor.old)) }
{
    let mut kept = Kept::new();
    let read = read_body(alloc, pool, cursor, &mut kept);
    settle(read, &kept, end)
}

/// The class, where it isn't built in and the file ends where the cursor stands.
fn finish(
    major: u16,
    pool: Pool,
    body: ClassBody,
    cursor: &Cursor<'_>,
) -> Result<ClassRecord, ClassFault>
    ensures { result ≡ class_with major pool body.names.this_at (record { flags = body.names.flags; name = body.names.name; super_name = body.names.super_name; interfaces = body.interfaces; fields = body.fields; methods = body.methods }, cursor.now) }
{
    let names = body.names;
    if names.name.as_slice() == b"java/lang/Object".as_slice() {
        return Err(ClassFault::Reserved { at: names.this_at });
    }
    if cursor.left() != 0 {
        return Err(ClassFault::Trailing { at: cursor.at() });
    }
    Ok(ClassRecord {
        major,
        flags: names.flags,
        name: names.name,
        super_name: Some(names.super_name),
        interfaces: body.interfaces,
        fields: body.fields,
        methods: body.methods,
        pool,
    })
}

/// The class that the bytes are.
#[tactic(auto, unfolding(crate::specs::Verdict::verdict))]
fn read_record(alloc: Global, bytes: &[u8]) -> Result<ClassRecord, ClassFault>
    requires { length bytes.now < 2 ^ 32 }
    ensures { Finds (λ class. class) result (verdict bytes.now) }
{
    let end = bytes.len() as u32;
    let mut cursor = Cursor::new(bytes, 0);
    let major = find_head(&mut cursor, end)?;
    let (pool, mut cursor) = find_pool(alloc, cursor)?;
    let body = find_body(alloc, &pool, &mut cursor, end)?;
    finish(major, pool, body, &cursor)
}

/// The class that the bytes are, which are all of a class file (JVMS 4).
///
/// # Errors
///
/// The first fault of bytes that are no class file, and `Memory` where memory runs out. The parts of a file are looked
/// at one after another, and one behind another that has a fault isn't: magic and versions; the pool; what stands
/// behind it; that the class isn't built in; that the file ends. In a part the fault at the lowest offset comes first,
/// and of several at one offset the one that is met first.
pub fn read(alloc: Global, bytes: &[u8]) -> Result<Class, ClassFault>
    requires { length bytes.now < 2 ^ 32 }

    // What is read is in the grammar.
    ensures found { IfOk result (λ class. IsClassFile bytes.now class) }

    // A fault is the first one.
    ensures fault { (fault : ClassFault) → result ≡ Err fault → fault ≢ Memory → IsFirstFault bytes.now fault }
{
    reading_is_exact();
    read_is_class();
    Ok(Class {
        record: read_record(alloc, bytes)?,
    })
}
