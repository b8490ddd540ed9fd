//! What stands against references before names are looked up.

ghost use Rattle.std.specs.Prelude.{◌≡◌};
ghost use Rattle.class_pool.specs.Pool.{member_at, class_name_at};
ghost use Rattle.linking.specs.Told.{construct_if};
ghost use Rattle.linking.specs.References.{against_call, against_class, against_field};

use class_pool::Pool;
use descriptors::{is_array, is_reference, names_float};
use op_table::Construct;

/// The construct, where there is one.
pub fn construct_if(stands: bool, construct: Construct) -> Option<Construct>
    ensures { result ≡ construct_if stands construct }
{
    if stands { Some(construct) } else { None }
}

/// What stands against the member reference of a call: the index is no member reference, or the descriptor names a
/// float or a double, or the class is an array's.
pub fn against_call(pool: &Pool, index: u16) -> Option<Construct>
    ensures { result ≡ against_call (member_at pool.now index) }
{
    let Some((_tag, class, _name, desc)) = pool.member(index) else {
        return Some(Construct::Constant);
    };
    if names_float(desc.as_slice()) {
        return Some(Construct::Float);
    }
    construct_if(is_array(class.as_slice()), Construct::ArrayMethod)
}

/// What stands against the member reference of a field instruction: the index is no member reference, or the
/// descriptor names a float or a double, or a static field is of reference type.
pub fn against_field(pool: &Pool, is_static: bool, index: u16) -> Option<Construct>
    ensures { result ≡ against_field is_static (member_at pool.now index) }
{
    let Some((_tag, _class, _name, desc)) = pool.member(index) else {
        return Some(Construct::Constant);
    };
    if names_float(desc.as_slice()) {
        return Some(Construct::Float);
    }
    construct_if(
        is_static && is_reference(desc.as_slice()),
        Construct::StaticRef,
    )
}

/// What stands against the index of a class or an array: it is no Class entry, or elements are floats or doubles.
pub fn against_class(pool: &Pool, index: u16) -> Option<Construct>
    ensures { result ≡ against_class (class_name_at pool.now index) }
{
    let Some(name) = pool.class_name(index) else {
        return Some(Construct::Constant);
    };
    let name = name.as_slice();
    construct_if(is_array(name) && names_float(name), Construct::Float)
}
