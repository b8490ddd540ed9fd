//! What names mean in a world of given classes: a question, the word `in`, and the classes' names.

ghost use Rattle.std.specs.Prelude.{◌<◌, length, IfSome};

use crate::given::{class_name, name_of, put_method, shown, target_of, world_of};
use case_texts::Case;
use class_pool::Text;
use world::{MemberId, ResolveFault, World};

fn put_resolve_fault(case: &mut Case<'_>, fault: ResolveFault) {
    case.put(match fault {
        ResolveFault::MissingClass => "missing class",
        ResolveFault::MissingMember => "missing member",
        ResolveFault::Ambiguous => "ambiguous",
        ResolveFault::PackageOverride => "package override",
        ResolveFault::AbstractTarget => "abstract target",
        ResolveFault::NotInstance => "not instance",
        ResolveFault::Memory => "memory",
    });
}

/// The class that declares the member, or the fault.
fn put_found(case: &mut Case<'_>, world: &World, found: Result<MemberId, ResolveFault>) {
    match found {
        Ok(member) => case.put(class_name(world, member.class)),
        Err(fault) => put_resolve_fault(case, fault),
    }
}

/// The method that the next word means.
fn resolved(case: &mut Case<'_>, world: &World) -> Result<MemberId, ResolveFault> {
    match target_of(case) {
        Some(target) => {
            world.resolve_method(case.alloc(), &target.class, &target.method, &target.desc)
        }
        None => Err(ResolveFault::Memory),
    }
}

/// The class that declares what the next word means as a method.
fn put_resolved(case: &mut Case<'_>, world: &World) {
    let found = resolved(case, world);
    put_found(case, world, found);
}

/// The class that declares what the next word means as a field, and the field's flags.
fn put_field(case: &mut Case<'_>, world: &World) {
    let Some(target) = target_of(case) else {
        return;
    };
    match world.resolve_field(case.alloc(), &target.class, &target.method, &target.desc) {
        Ok(m) => {
            case.put(class_name(world, m.class));
            case.put(" ");
            case.show_hex(u64::from(world.field_at(m).flags));
        }
        Err(fault) => put_resolve_fault(case, fault),
    }
}

/// What a call of the method runs on an object of this class, by the class's name and by its number.
fn put_selected(case: &mut Case<'_>, world: &World, name: &Text, m: MemberId) {
    if !world.has_method(m) {
        case.malformed("no such method");
        return;
    }
    let found = world.selected(case.alloc(), name, m);
    if let Some(class) = world.class(name)
        && world.selected_by(case.alloc(), m, class) != found
    {
        case.malformed("two answers");
    }
    put_found(case, world, found);
}

/// The classes of the methods that a call through this class can run.
fn put_targets(case: &mut Case<'_>, world: &World, name: &Text, m: MemberId) {
    if !world.has_method(m) {
        case.malformed("no such method");
        return;
    }
    match world.targets(case.alloc(), name, m) {
        Ok(targets) => put_classes(case, world, &targets),
        Err(fault) => put_resolve_fault(case, fault),
    }
}

/// How many methods there are, and their classes.
fn put_classes(case: &mut Case<'_>, world: &World, targets: &[MemberId]) {
    case.show(&targets.len());
    case.put(":");
    for target in targets {
        case.put_word(class_name(world, target.class));
    }
}

/// The answer to a question about a class and a method.
fn put_called(case: &mut Case<'_>, world: &World, what: &str) {
    let name = case.word();
    let Ok(m) = resolved(case, world) else {
        case.malformed("no such method");
        return;
    };
    if let Some(name) = name_of(case, name) {
        match what {
            "selected" => put_selected(case, world, &name, m),
            _ => put_targets(case, world, &name, m),
        }
    }
}

/// Whether an object of the one class, or array, is an instance of the other.
fn put_instance(case: &mut Case<'_>, world: &World) {
    let (class, other) = (case.word(), case.word());
    let class = name_of(case, class);
    let other = name_of(case, other);
    if let (Some(class), Some(other)) = (class, other) {
        case.show(&world.instance(&class, &other));
    }
}

/// A method with its flags and the length of its code.
fn put_declared(case: &mut Case<'_>, world: &World, m: MemberId) {
    if !world.has_method(m) {
        case.malformed("no such method");
        return;
    }
    put_method(case, world, m);
    case.put(" ");
    case.show_hex(u64::from(world.method_at(m).flags));
    match world.code_at(m) {
        Some(code) => {
            case.put(" in ");
            case.show(&code.bytes.as_slice().len());
            case.put(" bytes");
        }
        None => case.put(" without code"),
    }
}

/// The method that the next word names, where the class itself declares it.
fn declared(case: &mut Case<'_>, world: &World) -> Option<MemberId> {
    let target = target_of(case)?;
    let class = world.class(&target.class)?;
    world.declared_method(class, &target.method, &target.desc)
}

/// What objects there are of a class with this number.
fn kind_of(world: &World, class: u32) -> &'static str {
    if world.is_interface(class) {
        "interface"
    } else if world.is_instantiable(class) {
        "class"
    } else {
        "abstract class"
    }
}

/// The class that the next word names.
fn class_of(case: &mut Case<'_>, world: &World) -> Option<u32>
    ensures { IfSome result (λ c. c < length world.now) }
{
    let found = world.class_named(case.word().as_bytes());
    if found.is_none() {
        case.put("none");
    }
    found
}

/// The name of the superclass.
fn above(world: &World, class: u32) -> &str {
    match world.superclass(class) {
        Some(above) => class_name(world, above),
        None => "nothing",
    }
}

/// The name in the file of the class.
fn origin(world: &World, class: u32) -> &str
    requires { class < length world.now }
{
    match world.file_at(class) {
        Some(file) => shown(&file.record().name),
        None => "built in",
    }
}

/// The number of a class, what it is, its superclass, and how many methods it declares.
fn put_class(case: &mut Case<'_>, world: &World) {
    if let Some(class) = class_of(case, world) {
        case.show(&class);
        case.put_word(kind_of(world, class));
        case.put_word(origin(world, class));
        case.put_word("under");
        case.put_word(above(world, class));
        case.put_word("with");
        case.show_word(&world.record_at(class).methods.as_slice().len());
        case.put_word("methods");
    }
}

/// The class and its superclasses.
fn put_line(case: &mut Case<'_>, world: &World) {
    if let Some(class) = class_of(case, world) {
        let line = world.line(case.alloc(), class);
        for at in case.made(line).unwrap_or(Vec::new(case.alloc())) {
            case.put_word(class_name(world, at));
        }
    }
}

/// Whether the one class stands below the other.
fn put_below(case: &mut Case<'_>, world: &World) {
    let class = class_of(case, world);
    let above = class_of(case, world);
    if let (Some(class), Some(above)) = (class, above) {
        case.show(&world.is_below(class, above));
    }
}

/// The answer to a question about what a member is.
fn tell_member(case: &mut Case<'_>, world: &World, what: &str) {
    match what {
        "declared" => match declared(case, world) {
            Some(m) => put_declared(case, world, m),
            None => case.put("none"),
        },
        "field" => put_field(case, world),
        "method" => put_resolved(case, world),
        _ => put_called(case, world, what),
    }
}

/// The answer to a question about the world, or about what a class is.
fn tell(case: &mut Case<'_>, world: &World, what: &str) {
    match what {
        "below" => put_below(case, world),
        "build" => {
            case.put("world of ");
            case.show(&world.count());
        }
        "class" => put_class(case, world),
        "instance" => put_instance(case, world),
        "line" => put_line(case, world),
        _ => tell_member(case, world, what),
    }
}

pub fn answer(case: &mut Case<'_>) {
    if let Some(world) = world_of(case) {
        let what = case.word();
        tell(case, &world, what);
    }
}
