//! Entering a method (JVMS 2.6).

ghost use Rattle.std.specs.Prelude.{◌≡◌, ◌≤◌, ◌<◌, ◌^◌, ◌⊎◌, ◌↔◌, IfErr, IfOk, IfSome, IsTrue, Some, length, None, nat_lt, if◌then◌else◌, position, slice_get};
ghost use Rattle.entries.specs.declared.entering.EnterFault.TheVariants as faults;
ghost use Rattle.class_hierarchy.specs.World.{class_at};
ghost use Rattle.world.specs.Resolution.{is_method};
ghost use Rattle.world.specs.Tables.{HasMethod};
ghost use Rattle.linking.specs.Methods.{method_at};
ghost use Rattle.entries.specs.Entry.{IsEntry, argument_types, entry_of, words_of_value, words_of_values};
ghost use Rattle.entries.specs.inside.Survey.{IsSurvey};
ghost use Rattle.entries.specs.Entering.{IsEnterFault, IsEntered, IsFirstFault, IsFirstIn, IsNoNullReceiver, IsSound, method_named, zeros};

use crate::cells::agrees;
use crate::statics::zeros;
use crate::survey::{Survey, all_pass, survey_of};
use crate::types::argument_types;
use class_pool::{Target, Text};
use class_reader::{Code, Method, is_static};
use descriptors::is_class;
use frames::{Frame, Heap, Here, Locals, Stack, Statics, Value};
use std::alloc::{AllocError, AllocFailed, Global};
use steps::{State, Status};
use world::{MemberId, World};

/// How many objects and arrays are told apart.
const MAX_NUMBERS: usize = 4294967295;

/// Why a method isn't entered.
#[derive(Clone, Copy)]
pub enum EnterFault {
    /// No class of the name declares a method of this name and descriptor with code.
    NoMethod,
    /// The first argument, counted from 0 with the receiver, that is missing, too many, or against its type; that
    /// reaches what isn't a good object or array, or, by a class type, a cycle; that is a null receiver; or for
    /// which there is no room in the locals.
    BadArg { i: u32 },
    /// Memory ran out.
    Memory,
}

impl From<AllocError> for EnterFault {
    ghost from_gives = { λ _ e. e ≡ faults.Memory };

    fn from(_error: AllocError) -> EnterFault {
        EnterFault::Memory
    }
}

impl<T: Drop> From<AllocFailed<T>> for EnterFault {
    ghost from_gives = { λ _ e. e ≡ faults.Memory };

    fn from(_error: AllocFailed<T>) -> EnterFault {
        EnterFault::Memory
    }
}

// Whether the value can be an argument of the type.
#[tactic(auto, using(crate::proofs::Sound::rooted, crate::proofs::Sound::sound_reference, crate::proofs::Sound::sound_other, crate::proofs::Sound::not_sound))]
fn is_sound(
    alloc: Global,
    w: &World,
    heap: &Heap,
    survey: &Survey,
    desc: &[u8],
    value: Value,
) -> Result<bool, AllocError>
    requires { IsSurvey w.now heap.now survey.now }
    ensures { IfOk result (λ r. IsTrue r ↔ IsSound w.now heap.now desc.now value) }
{
    if !agrees(w, heap, desc, value) {
        return Ok(false);
    }
    match value {
        Value::Ref(number) => {
            let passes = all_pass(alloc, survey, number, is_class(desc))?;
            Ok(passes)
        }
        _ => Ok(true),
    }
}

// Whether the value at the place isn't a null receiver.
fn is_no_null_receiver(method: &Method, i: usize, value: Value) -> bool
    ensures { IsTrue result ↔ IsNoNullReceiver method.now i value }
{
    i > 0 || is_static(method.flags) || !matches!(value, Value::Null)
}

fn argument_at(arguments: &[Value], i: usize) -> Option<Value>
    ensures { result ≡ slice_get arguments.now i }
{
    arguments.get(i).copied()
}

// How many words a value takes.
fn words_of(value: Value) -> usize
    ensures words { result ≡ length (words_of_value value) }
    ensures few { result ≤ 2 }
{
    match value {
        Value::Long(_) => 2,
        _ => 1,
    }
}

// How many words the locals hold.
fn limit_of(code: &Code) -> usize
    ensures limit { result ≡ code.now.max_locals }
    ensures few { result ≤ 65535 }
{
    usize::from(code.max_locals)
}

// The first place without a good argument.
fn first_bad(
    alloc: Global,
    w: &World,
    heap: &Heap,
    types: &[Text],
    method: &Method,
    code: &Code,
    arguments: &[Value],
) -> Result<Option<usize>, AllocError>
    requires { length heap.now < 2 ^ 32 }
    ensures { IfOk result (λ first. IsFirstIn w.now heap.now types.now method.now code.now arguments.now first) }
{
    let survey = survey_of(alloc, w, heap)?;
    let limit = limit_of(code);
    let mut words = 0;
    for i in 0..types.len() {
        let Some(value) = argument_at(arguments, i) else {
            return Ok(Some(i));
        };
        words += words_of(value);
        if words > limit {
            return Ok(Some(i));
        }
        if !is_no_null_receiver(method, i, value) {
            return Ok(Some(i));
        }
        if !is_sound(alloc, w, heap, &survey, types[i].as_slice(), value)? {
            return Ok(Some(i));
        }
    }
    Ok(behind_types(types.len(), arguments))
}

// The first argument that is too many.
fn behind_types(count: usize, arguments: &[Value]) -> Option<usize>
    ensures { result ≡ (if nat_lt count (length arguments.now) then Some count else None) }
{
    if count < arguments.len() {
        Some(count)
    } else {
        None
    }
}

// The values as words: a long takes two.
fn words_of_values(alloc: Global, arguments: &[Value]) -> Result<Vec<Value>, AllocError>
    ensures { IfOk result (λ words. words.items ≡ words_of_values arguments.now) }
{
    let mut words = Vec::new(alloc);
    for value in arguments {
        words.push(*value)?;
        if let Value::Long(_) = value {
            words.push(Value::Pad)?;
        }
    }
    Ok(words)
}

// The entry of a method with these arguments and this heap.
fn begin(
    alloc: Global,
    w: &World,
    m: MemberId,
    code: &Code,
    arguments: &[Value],
    heap: Heap,
) -> Result<State, AllocError>
    requires { length (words_of_values arguments.now) ≤ code.now.max_locals }
    ensures { IfOk result (λ state. state ≡ entry_of m code.now arguments.now heap (zeros w.now)) }
{
    let words = words_of_values(alloc, arguments)?;
    let locals = Locals::of_words(words, usize::from(code.max_locals))?;
    let statics = Statics::of(alloc, zeros(alloc, w)?)?;
    let frame = Frame {
        method: m,
        pc: 0,
        locals,
        stack: Stack::new(alloc),
    };
    let here = Here {
        frame,
        heap,
        statics,
    };
    Ok(State {
        here,
        callers: Stack::new(alloc),
        spent: 0,
        status: Status::Running,
    })
}

// The place of the method with this name and descriptor.
fn place_of(methods: &[Method], name: &[u8], desc: &[u8]) -> Option<usize>
    ensures place { result ≡ position (is_method name.now desc.now) methods.now }
    ensures bound { IfSome result (λ i. i < length methods.now) }
{
    methods.iter().position(|method| method.name.as_slice() == name
        && method.desc.as_slice() == desc)
}

// The method of the class itself that is meant.
fn method_named(w: &World, target: &Target) -> Option<MemberId>
    ensures number { result ≡ method_named w.now target.now }
    ensures bound { IfSome result (λ m. m.class < length w.now) }
{
    match w.class_named(target.class.as_slice()) {
        Some(class) => {
            let methods = w.record_at(class).methods.as_slice();
            match place_of(methods, target.method.as_slice(), target.desc.as_slice()) {
                Some(place) => Some(MemberId {
                    class,
                    member: place as u32,
                }),
                None => None,
            }
        }
        None => None,
    }
}

// The fault of a bad argument. A place without a number counts as want of memory.
fn bad_argument(i: usize) -> EnterFault
    ensures { (result ≡ faults.BadArg i) ⊎ (result ≡ faults.Memory) }
{
    match u32::try_from(i) {
        Ok(i) => EnterFault::BadArg { i },
        Err(_) => EnterFault::Memory,
    }
}

// Enters a method of the world with its code.
fn enter_code(
    alloc: Global,
    w: &World,
    m: MemberId,
    method: &Method,
    code: &Code,
    arguments: &[Value],
    heap: Heap,
) -> Result<State, EnterFault>
    requires class { m.class < length w.now }
    requires declared { method_at w.now m ≡ Some method.now }
    requires code { method.now.code ≡ Some code.now }
    ensures entry { IfOk result (λ state. IsEntry w.now m state) }
    ensures same { IfOk result (λ state. state ≡ entry_of m code.now arguments.now heap (zeros w.now)) }
    ensures fault { IfErr result (λ fault. IsFirstFault w.now heap (argument_types (class_at w.now m.class) method.now) method.now code.now arguments.now fault) }
{
    if heap.len() > MAX_NUMBERS {
        return Err(EnterFault::Memory);
    }
    let types = argument_types(alloc, w.record_at(m.class), method)?;
    match first_bad(alloc, w, &heap, &types, method, code, arguments)? {
        Some(i) => Err(bad_argument(i)),
        None => {
            let state = begin(alloc, w, m, code, arguments, heap)?;
            Ok(state)
        }
    }
}

/// Enters a method: the configuration with which a run begins (JVMS 2.6), with the arguments in the first locals
/// and each static int and long 0. The method is one that the class itself declares.
///
/// # Errors
///
/// `NoMethod` where the world has no class of the name, or it declares no method of this name and descriptor, or
/// that has no code; else `BadArg` with the first argument that is bad.
pub fn enter(
    alloc: Global,
    w: &World,
    target: &Target,
    arguments: Vec<Value>,
    heap: Heap,
) -> Result<State, EnterFault>
    ensures entered { IfOk result (λ state. IsEntered w.now target.now arguments.items heap state) }
    ensures fault { IfErr result (λ fault. IsEnterFault w.now target.now arguments.items heap fault) }
{
    let Some(m) = method_named(w, target) else {
        return Err(EnterFault::NoMethod);
    };
    let Some(method) = w.find_method(m) else {
        return Err(EnterFault::NoMethod);
    };
    let Some(code) = &method.code else {
        return Err(EnterFault::NoMethod);
    };
    let state = enter_code(alloc, w, m, method, code, &arguments, heap)?;
    Ok(state)
}
