//! New objects (JVMS 6.5.new).

ghost use Rattle.std.specs.Prelude.{◌≡◌, ◌<◌, ◌^◌, [], ◌∷◌, ◌++◌, length, map, OnOk, OnErr, IfOk};
ghost use Rattle.frames.specs.declared.heap.Cell.TheVariants as cells;
ghost use Rattle.frames.specs.Heap.{default_of, new_fields, own_fields};
ghost use Rattle.frames.specs.Outcome.{HasGone};
ghost use Rattle.frames.specs.Standing.{IsFetched};
ghost use Rattle.object_steps.specs.Objects.{IsMade, new_object};

use class_reader::Field;
use frames::{
    Cell, Failure, Fetched, Going, Here, Slots, Stop, Value, default_of, has_space,
    is_object_field, stop_of,
};
use linking::made_by;
use std::alloc::{AllocError, Global};
use world::{MemberId, World};

// Adds a field of a class, in which nothing was stored, where it is one of objects.
fn add_field(
    class: u32,
    member: u32,
    field: &Field,
    fields: &mut Vec<(MemberId, Value)>,
) -> Result<(), AllocError>
    ensures { OnOk result (fields.new.items ≡ fields.old.items ++ map (λ f. (f.0, default_of f.1)) (own_fields class member (field.now ∷ []))) }
{
    if is_object_field(field) {
        fields.push((
            MemberId { class, member },
            default_of(field.desc.as_slice()),
        ))?;
    }
    Ok(())
}

// Adds a class's own fields of objects, in which nothing was stored.
fn add_fields(
    class: u32,
    own: &[Field],
    fields: &mut Vec<(MemberId, Value)>,
) -> Result<(), AllocError>
    requires { length own.now < 2 ^ 32 }
    ensures { OnOk result (fields.new.items ≡ fields.old.items ++ map (λ f. (f.0, default_of f.1)) (own_fields class 0 own.now)) }
{
    let mut rest = own;
    let mut member: usize = 0;
    while let [field, behind @ ..] = rest {
        add_field(class, member as u32, field, fields)?;
        rest = behind;
        member += 1;
    }
    Ok(())
}

// The fields of an object in which nothing was stored.
#[tactic(auto, unfolding(frames::specs::Heap::object_fields))]
fn new_fields(
    alloc: Global,
    world: &World,
    class: u32,
) -> Result<Vec<(MemberId, Value)>, AllocError>
    requires { class < length world.now }
    ensures { IfOk result (λ fields. fields.items ≡ new_fields world.now class) }
{
    let line = world.line(alloc, class)?;
    let mut fields = Vec::new(alloc);
    let mut rest = line.as_slice();
    while let [at, behind @ ..] = rest {
        add_fields(*at, world.record_at(*at).fields.as_slice(), &mut fields)?;
        rest = behind;
    }
    Ok(fields)
}

// Puts an object into the heap and its number on the stack, and goes on behind. An `Err` changes nothing.
fn add_object(
    class: u32,
    fields: Vec<(MemberId, Value)>,
    next: u32,
    here: &mut Here,
) -> Result<(), AllocError>
    requires { length here.old.heap < 2 ^ 32 }
    ensures ok { OnOk result (IsMade next (cells.Object class fields.items) here.old here.new) }
    ensures err { OnErr result (here.new ≡ here.old) }
{
    let number = here.heap.free_number();
    here.frame.stack.push(Value::Ref(number))?;
    let cell = Cell::Object {
        class,
        fields: Slots::from(fields),
    };
    if let Err(error) = here.heap.add(cell) {
        here.frame.stack.cut(1);
        return Err(error);
    }
    here.frame.pc = next;
    Ok(())
}

/// Makes an object of the class with this index. An `Err` changes nothing.
#[tactic(auto, unfolding(crate::specs::Objects::new_object))]
pub fn new_object(
    alloc: Global,
    world: &World,
    fetched: &Fetched<'_>,
    index: u16,
    here: &mut Here,
) -> Result<Going, AllocError>
    requires few { length here.old.heap < 2 ^ 32 }
    requires fetched { IsFetched world.now fetched.now here.old }
    ensures made { IfOk result (λ going. HasGone going here.old here.new (new_object world.now fetched.now.standing here.old index)) }
    ensures err { OnErr result (here.new ≡ here.old) }
{
    let class = match made_by(world, &fetched.class.pool, index) {
        Ok(class) => class,
        Err(construct) => return Ok(Going::Fails(Failure::Stops(stop_of(construct)))),
    };
    let limit = usize::from(fetched.code.max_stack);
    let held = has_space(here.frame.stack.len(), 0, 1, limit);
    let inside = (fetched.next as usize) < fetched.code.bytes.len();
    if !(held && inside) {
        return Ok(Going::Fails(Failure::Stops(Stop::Shape)));
    }
    let fields = new_fields(alloc, world, class)?;
    add_object(class, fields, fetched.next, here)?;
    Ok(Going::Goes)
}
