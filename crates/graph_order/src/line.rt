ghost use Rattle.std.specs.Prelude.{◌≡◌, ◌+◌, ◌<◌, ◌≤◌, [], ℕ, List, Option, All, length, slice_index, IfNone, IfOk, IfSome, OnOk};
ghost use Rattle.graph_core.specs.Marked.{IsMarked};
ghost use Rattle.graph_order.specs.CalleesFirst.{AreNexts, IsCalleeFirst};
ghost use Rattle.graph_order.specs.inside.Parts.{AreParts, first_of};
ghost use Rattle.graph_order.specs.inside.Line.{IsLine, IsPut, IsDueFrom, IsAllUndone, NoneDue, AreCallersDue, AreDueFrom, line_left};

use crate::parts::Parts;
use crate::ready::Ready;
use std::alloc::{AllocError, Global};

/// Components on their way into the order, each by its number.
#[derive(Drop)]
pub(crate) struct Line {
    pub(crate) done: Vec<bool>,
    /// How many callees of each were looked at: they are done.
    pub(crate) nexts: Vec<usize>,
    /// Those without a chosen node of which all callees are done.
    pub(crate) free: Vec<u32>,
    /// The lowest chosen nodes of the others of which all callees are done.
    pub(crate) ready: Ready,
    /// The lowest chosen nodes of those that are done, in their order.
    pub(crate) order: Vec<u32>,
}

/// Puts a component in line of which all callees are done.
fn put(
    firsts: &[Option<u32>],
    x: u32,
    free: &mut Vec<u32>,
    ready: &mut Ready,
) -> Result<(), AllocError>
    requires { x < length firsts.now }
    ensures { OnOk result (IsPut (first_of firsts.now x) x free.old.items ready.old free.new.items ready.new) }
{
    match firsts[x as usize] {
        None => free.push(x)?,
        Some(v) => ready.add(v)?,
    }
    Ok(())
}

/// The first place from this one on of a callee that isn't done, or the end.
fn pass_done(callees: &[u32], done: &[bool], next: usize) -> usize
    requires next { next ≤ length callees.now }
    requires callees { All (λ y. y < length done.now) callees.now }
    ensures more { next ≤ result }
    ensures within { result ≤ length callees.now }
    ensures passed { (i : ℕ) → next ≤ i → i < result → IsMarked done.now (slice_index callees.now i) }
    ensures stops { result < length callees.now → IsMarked done.now (slice_index callees.now result) → ⊥ }
{
    for i in next..callees.len() {
        if !done[callees[i] as usize] {
            return i;
        }
    }
    callees.len()
}

/// Looks at the callees of a component, of which some may be done now.
fn look(parts: &Parts, line: &mut Line, x: u32) -> Result<(), AllocError>
    requires parts { AreParts parts.now.graph.now parts.now.chosen.now parts.now.numbers parts.now.calls
        parts.now.callers parts.now.firsts.items }
    requires x { x < length parts.now.calls }
    requires line { (due : List ℕ) × (i : ℕ) × IsLine parts.now.calls parts.now.firsts.items line.old.done.items
        line.old.nexts.items line.old.free.items line.old.ready line.old.order.items
        (AreDueFrom parts.now.calls line.old.nexts.items due i) }
    ensures line { (due : List ℕ) (i : ℕ) → x ≡ slice_index due i → IsLine parts.now.calls parts.now.firsts.items
        line.old.done.items line.old.nexts.items line.old.free.items line.old.ready line.old.order.items
        (AreDueFrom parts.now.calls line.old.nexts.items due i)
        → OnOk result (IsLine parts.now.calls parts.now.firsts.items line.new.done.items line.new.nexts.items
        line.new.free.items line.new.ready line.new.order.items
        (AreDueFrom parts.now.calls line.new.nexts.items due (i + 1))) }
    ensures order { OnOk result (line.new.order.items ≡ line.old.order.items) }
    ensures falls { OnOk result (line_left parts.now.calls line.new.nexts.items line.new.free.items line.new.ready
        ≤ line_left parts.now.calls line.old.nexts.items line.old.free.items line.old.ready) }
{
    let callees = parts.calls.successors(x);
    let next = line.nexts[x as usize];
    if next >= callees.len() {
        return Ok(());
    }
    let last = pass_done(callees, &line.done, next);
    line.nexts[x as usize] = last;
    if last >= callees.len() {
        put(&parts.firsts, x, &mut line.free, &mut line.ready)?;
    }
    Ok(())
}

/// Looks at the callers of a component that is done now.
pub(crate) fn look_at_callers(parts: &Parts, line: &mut Line, x: u32) -> Result<(), AllocError>
    requires parts { AreParts parts.now.graph.now parts.now.chosen.now parts.now.numbers parts.now.calls
        parts.now.callers parts.now.firsts.items }
    requires x { x < length parts.now.calls }
    requires line { IsLine parts.now.calls parts.now.firsts.items line.old.done.items line.old.nexts.items
        line.old.free.items line.old.ready line.old.order.items
        (AreCallersDue parts.now.calls line.old.nexts.items x) }
    ensures line { OnOk result (IsLine parts.now.calls parts.now.firsts.items line.new.done.items line.new.nexts.items
        line.new.free.items line.new.ready line.new.order.items NoneDue) }
    ensures order { OnOk result (line.new.order.items ≡ line.old.order.items) }
    ensures falls { OnOk result (line_left parts.now.calls line.new.nexts.items line.new.free.items line.new.ready
        ≤ line_left parts.now.calls line.old.nexts.items line.old.free.items line.old.ready) }
{
    for y in parts.callers.successors(x) {
        look(parts, line, *y)?;
    }
    Ok(())
}

/// Puts a component in line if all its callees were looked at, where nothing is done.
fn put_first(parts: &Parts, line: &mut Line, x: u32) -> Result<(), AllocError>
    requires parts { AreParts parts.now.graph.now parts.now.chosen.now parts.now.numbers parts.now.calls
        parts.now.callers parts.now.firsts.items }
    requires x { x < length parts.now.calls }
    requires line { IsLine parts.now.calls parts.now.firsts.items line.old.done.items line.old.nexts.items
        line.old.free.items line.old.ready line.old.order.items (IsDueFrom x) }
    requires none { IsAllUndone line.old.done.items }
    ensures line { OnOk result (IsLine parts.now.calls parts.now.firsts.items line.new.done.items line.new.nexts.items
        line.new.free.items line.new.ready line.new.order.items (IsDueFrom (x + 1))) }
    ensures done { OnOk result (line.new.done.items ≡ line.old.done.items) }
    ensures order { OnOk result (line.new.order.items ≡ line.old.order.items) }
{
    if parts.calls.successors(x).len() <= line.nexts[x as usize] {
        put(&parts.firsts, x, &mut line.free, &mut line.ready)?;
    }
    Ok(())
}

/// Where a line begins: those that call into no other wait.
pub(crate) fn begin(alloc: Global, parts: &Parts) -> Result<Line, AllocError>
    requires parts { AreParts parts.now.graph.now parts.now.chosen.now parts.now.numbers parts.now.calls
        parts.now.callers parts.now.firsts.items }
    ensures line { IfOk result (λ line. IsLine parts.now.calls parts.now.firsts.items line.done.items line.nexts.items
        line.free.items line.ready line.order.items NoneDue) }
    ensures order { IfOk result (λ line. line.order.items ≡ []) }
{
    let count = parts.calls.nodes();
    let done = vec![in alloc; false; count as usize]?;
    let nexts = vec![in alloc; 0; count as usize]?;
    let mut line = Line {
        done,
        nexts,
        free: Vec::new(alloc),
        ready: Ready::new(alloc),
        order: Vec::new(alloc),
    };
    for x in 0..count {
        put_first(parts, &mut line, x)?;
    }
    Ok(line)
}

/// Takes a component without a chosen node out of the line, and marks it as done.
fn take_free(line: &mut Line) -> Option<u32>
    requires { (calls : List (List ℕ)) × (firsts : List (Option ℕ)) × IsLine calls firsts line.old.done.items
        line.old.nexts.items line.old.free.items line.old.ready line.old.order.items NoneDue }
    ensures order { line.new.order.items ≡ line.old.order.items }
    ensures none { IfNone result ((line.new.free.items ≡ []) × (line.old.free.items ≡ [])) }
    ensures done { IfNone result (line.new.done.items ≡ line.old.done.items) }
    ensures nexts { line.new.nexts.items ≡ line.old.nexts.items }
    ensures ready { line.new.ready ≡ line.old.ready }
    ensures line { (calls : List (List ℕ)) (firsts : List (Option ℕ)) → IsLine calls firsts line.old.done.items
        line.old.nexts.items line.old.free.items line.old.ready line.old.order.items NoneDue
        → IfSome result (λ x. (x < length calls) × IsLine calls firsts line.new.done.items line.new.nexts.items
        line.new.free.items line.new.ready line.new.order.items (AreCallersDue calls line.new.nexts.items x)) }
    ensures falls { (calls : List (List ℕ)) → IfSome result (λ x.
        line_left calls line.new.nexts.items line.new.free.items line.new.ready
        < line_left calls line.old.nexts.items line.old.free.items line.old.ready) }
{
    let x = line.free.pop()?;
    line.done[x as usize] = true;
    Some(x)
}

/// Takes the lowest component that is ready out of the line into the order, and marks it as done.
fn take_ready(parts: &Parts, line: &mut Line) -> Result<Option<u32>, AllocError>
    requires parts { AreParts parts.now.graph.now parts.now.chosen.now parts.now.numbers parts.now.calls
        parts.now.callers parts.now.firsts.items }
    requires line { IsLine parts.now.calls parts.now.firsts.items line.old.done.items line.old.nexts.items
        line.old.free.items line.old.ready line.old.order.items NoneDue }
    requires free { line.old.free.items ≡ [] }
    requires nexts { AreNexts parts.now.graph.now parts.now.chosen.now line.old.order.items }
    ensures x { IfOk result (λ taken. IfSome taken (λ x. x < length parts.now.calls)) }
    ensures line { IfOk result (λ taken. IfSome taken (λ x. IsLine parts.now.calls parts.now.firsts.items
        line.new.done.items line.new.nexts.items line.new.free.items line.new.ready line.new.order.items
        (AreCallersDue parts.now.calls line.new.nexts.items x))) }
    ensures nexts { IfOk result (λ taken. AreNexts parts.now.graph.now parts.now.chosen.now line.new.order.items) }
    ensures none { IfOk result (λ taken. IfNone taken
        (IsCalleeFirst parts.now.graph.now parts.now.chosen.now line.new.order.items)) }
    ensures falls { IfOk result (λ taken. IfSome taken (λ x.
        line_left parts.now.calls line.new.nexts.items line.new.free.items line.new.ready
        < line_left parts.now.calls line.old.nexts.items line.old.free.items line.old.ready)) }
{
    let _nodes = parts.graph.nodes();
    let Some(v) = line.ready.take_lowest() else {
        return Ok(None);
    };
    line.order.push(v)?;
    let x = parts.numbers.of(v);
    line.done[x as usize] = true;
    Ok(Some(x))
}

/// Takes the next component out of the line, and marks it as done.
pub(crate) fn take(parts: &Parts, line: &mut Line) -> Result<Option<u32>, AllocError>
    requires parts { AreParts parts.now.graph.now parts.now.chosen.now parts.now.numbers parts.now.calls
        parts.now.callers parts.now.firsts.items }
    requires line { IsLine parts.now.calls parts.now.firsts.items line.old.done.items line.old.nexts.items
        line.old.free.items line.old.ready line.old.order.items NoneDue }
    requires nexts { AreNexts parts.now.graph.now parts.now.chosen.now line.old.order.items }
    ensures x { IfOk result (λ taken. IfSome taken (λ x. x < length parts.now.calls)) }
    ensures line { IfOk result (λ taken. IfSome taken (λ x. IsLine parts.now.calls parts.now.firsts.items
        line.new.done.items line.new.nexts.items line.new.free.items line.new.ready line.new.order.items
        (AreCallersDue parts.now.calls line.new.nexts.items x))) }
    ensures nexts { IfOk result (λ taken. AreNexts parts.now.graph.now parts.now.chosen.now line.new.order.items) }
    ensures none { IfOk result (λ taken. IfNone taken
        (IsCalleeFirst parts.now.graph.now parts.now.chosen.now line.new.order.items)) }
    ensures falls { IfOk result (λ taken. IfSome taken (λ x.
        line_left parts.now.calls line.new.nexts.items line.new.free.items line.new.ready
        < line_left parts.now.calls line.old.nexts.items line.old.free.items line.old.ready)) }
{
    if let Some(x) = take_free(line) {
        return Ok(Some(x));
    }
    take_ready(parts, line)
}
