//! A walk through a heap, depth first, with the objects that are being looked at on a stack.

ghost use Rattle.std.specs.Prelude.{◌≡◌, ◌+◌, ◌<◌, ◌^◌, ◌∷◌, ◌++◌, [], ℕ, true, false, length, map, replicate, slice_get, slice_set, IfOk, IfSome, OnOk, Some};
ghost use Rattle.frames.specs.declared.value.Value.{Value};
ghost use Rattle.frames.specs.declared.value.Value.TheVariants as values;
ghost use Rattle.frames.specs.Heap.{cell_at};
ghost use Rattle.entries.specs.Entry.{values_in};
ghost use Rattle.path_length.specs.Lengths.{HoldsReached, ReachesCycle};
ghost use Rattle.path_length.specs.declared.walk.Mark.TheVariants as marks;
ghost use Rattle.path_length.specs.inside.Walking.{IsLook, IsLookAt, IsWalk, length_in, next_value, work};

use frames::{Cell, Heap, Value};
use std::alloc::{AllocError, Global};
use world::MemberId;

/// What is known of an object.
#[derive(Clone, Copy)]
pub(crate) enum Mark {
    New,
    Open,
    /// The longest chain from it has so many.
    Done(u64),
}

/// An object of which the values are looked at in order: which is the next, and the longest chain from one before it.
#[derive(Clone, Copy)]
pub(crate) struct Visit {
    pub(crate) node: u32,
    pub(crate) next: usize,
    pub(crate) longest: u64,
}

/// What a look at a value says.
#[derive(Clone, Copy)]
pub(crate) enum Finding {
    /// There is no value left.
    Leave,
    /// The longest chain so far.
    Pass(u64),
    /// An object that is new.
    Enter(u32),
    /// An object that is being looked at.
    Cycle,
}

/// What is known of each object, and those that are being looked at.
#[derive(Drop)]
pub(crate) struct Walk {
    pub(crate) marks: Vec<Mark>,
    pub(crate) visits: Vec<Visit>,
}

fn field_at(fields: &[(MemberId, Value)], place: usize) -> Option<Value>
    ensures value { result ≡ slice_get (map (λ f. f.1) fields.now) place }
    ensures small { IfSome result (λ _. place + 1 < 2 ^ 64) }
{
    if place < fields.len() {
        Some(fields[place].1)
    } else {
        None
    }
}

fn item_at(items: &[Value], place: usize) -> Option<Value>
    ensures value { result ≡ slice_get items.now place }
    ensures small { IfSome result (λ _. place + 1 < 2 ^ 64) }
{
    if place < items.len() {
        Some(items[place])
    } else {
        None
    }
}

/// The value at a place of an object or array.
fn value_at(heap: &Heap, node: u32, place: usize) -> Option<Value>
    ensures value { result ≡ slice_get (values_in (cell_at heap.now node)) place }
    ensures small { IfSome result (λ _. place + 1 < 2 ^ 64) }
{
    match heap.get(node) {
        Some(Cell::Object { fields, .. }) => field_at(fields.as_slice(), place),
        Some(Cell::Array { items, .. }) => item_at(items.as_slice(), place),
        None => None,
    }
}

/// What is known of an object that is referred to.
fn look_at(marks: &[Mark], longest: u64, node: u32) -> Finding
    requires { node < length marks.now }
    ensures { IsLookAt marks.now longest node result }
{
    match marks[node as usize] {
        Mark::New => Finding::Enter(node),
        Mark::Open => Finding::Cycle,
        Mark::Done(n) => Finding::Pass(longest.max(n)),
    }
}

/// Looks at the next value of an object.
fn look(heap: &Heap, marks: &[Mark], visit: Visit) -> Finding
    requires { (b : ℕ) → next_value heap.now visit ≡ Some (values.Ref b) → b < length marks.now }
    ensures look { IsLook heap.now marks.now visit result }
    ensures small { (value : Value) → next_value heap.now visit ≡ Some value → visit.next + 1 < 2 ^ 64 }
{
    match value_at(heap, visit.node, visit.next) {
        Some(Value::Ref(node)) => look_at(marks, visit.longest, node),
        Some(_) => Finding::Pass(visit.longest),
        None => Finding::Leave,
    }
}

/// An object of which no value is left is done.
fn leave(walk: &mut Walk, visit: Visit)
    requires node { visit.node < length walk.old.marks.items }
    requires low { visit.longest + 1 < 2 ^ 64 }
    ensures marks { walk.new.marks.items ≡ slice_set walk.old.marks.items visit.node (marks.Done (visit.longest + 1)) }
    ensures visits { walk.new.visits.items ≡ walk.old.visits.items }
{
    walk.marks[visit.node as usize] = Mark::Done(visit.longest + 1);
}

/// Goes on behind the value that was looked at.
fn pass(walk: &mut Walk, visit: Visit, longest: u64) -> Result<(), AllocError>
    requires { visit.next + 1 < 2 ^ 64 }
    ensures marks { walk.new.marks.items ≡ walk.old.marks.items }
    ensures visits { OnOk result (walk.new.visits.items ≡ walk.old.visits.items ++ record { node = visit.node; next = visit.next + 1; longest = longest } ∷ []) }
{
    walk.visits.push(Visit {
        node: visit.node,
        next: visit.next + 1,
        longest,
    })?;
    Ok(())
}

/// Begins with a new object.
fn enter(walk: &mut Walk, node: u32) -> Result<(), AllocError>
    requires { node < length walk.old.marks.items }
    ensures marks { OnOk result (walk.new.marks.items ≡ slice_set walk.old.marks.items node marks.Open) }
    ensures visits { OnOk result (walk.new.visits.items ≡ walk.old.visits.items ++ record { node = node; next = 0; longest = 0 } ∷ []) }
{
    walk.visits.push(Visit {
        node,
        next: 0,
        longest: 0,
    })?;
    walk.marks[node as usize] = Mark::Open;
    Ok(())
}

/// Begins with a new object, whose visit stands on that of the object that refers to it.
fn enter_from(walk: &mut Walk, visit: Visit, node: u32) -> Result<(), AllocError>
    requires { node < length walk.old.marks.items }
    ensures marks { OnOk result (walk.new.marks.items ≡ slice_set walk.old.marks.items node marks.Open) }
    ensures visits { OnOk result (walk.new.visits.items ≡ (walk.old.visits.items ++ visit ∷ []) ++ record { node = node; next = 0; longest = 0 } ∷ []) }
{
    walk.visits.push(visit)?;
    enter(walk, node)
}

/// Nothing is known, and nothing is being looked at.
pub(crate) fn begin(alloc: Global, nodes: usize) -> Result<Walk, AllocError>
    ensures marks { IfOk result (λ walk. walk.marks.items ≡ replicate nodes marks.New) }
    ensures visits { IfOk result (λ walk. walk.visits.items ≡ []) }
{
    let marks = vec![in alloc; Mark::New; nodes]?;
    Ok(Walk {
        marks,
        visits: Vec::new(alloc),
    })
}

/// Begins the walk with its root.
pub(crate) fn begin_at(alloc: Global, heap: &Heap, root: u32) -> Result<Walk, AllocError>
    requires { HoldsReached heap.now (values.Ref root) }
    ensures { IfOk result (λ walk. IsWalk heap.now root walk.marks.items walk.visits.items) }
{
    let mut walk = begin(alloc, heap.len())?;
    enter(&mut walk, root)?;
    Ok(walk)
}

/// A step of the walk: a look at the next value of the object on top. Answers whether a cycle is found.
pub(crate) fn step(
    heap: &Heap,
    root: u32,
    walk: &mut Walk,
    visit: Visit,
) -> Result<bool, AllocError>
    requires held { HoldsReached heap.now (values.Ref root) }
    requires walk { IsWalk heap.now root walk.old.marks.items (walk.old.visits.items ++ visit ∷ []) }
    ensures goes { IfOk result (λ found. found ≡ false → IsWalk heap.now root walk.new.marks.items walk.new.visits.items) }
    ensures falls { IfOk result (λ found. found ≡ false → work heap.now walk.new.marks.items walk.new.visits.items < work heap.now walk.old.marks.items (walk.old.visits.items ++ visit ∷ [])) }
    ensures found { IfOk result (λ found. found ≡ true → ReachesCycle heap.now (values.Ref root)) }
{
    match look(heap, walk.marks.as_slice(), visit) {
        Finding::Leave => {
            leave(walk, visit);
            Ok(false)
        }
        Finding::Pass(longest) => {
            pass(walk, visit, longest)?;
            Ok(false)
        }
        Finding::Enter(node) => {
            enter_from(walk, visit, node)?;
            Ok(false)
        }
        Finding::Cycle => Ok(true),
    }
}

/// The length of an object that is done.
pub(crate) fn length_at(walk: &Walk, node: u32) -> Option<u64>
    ensures { result ≡ length_in (slice_get walk.now.marks.items node) }
{
    if node as usize >= walk.marks.len() {
        return None;
    }
    match walk.marks[node as usize] {
        Mark::Done(n) => Some(n),
        _ => None,
    }
}
