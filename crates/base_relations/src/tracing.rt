//! Rules in which calls are replaced, one after another: forward to the end of a rule, and back to the last call that can
//! be replaced by a later rule. What is looked at moves from one stack to another, so that nothing is copied.

ghost use Rattle.std.specs.Prelude.{◌≡◌, ◌≢◌, ◌<◌, ◌≤◌, ◌+◌, ◌++◌, ◌∷◌, [], not, suc, length, drop, slice_index_or, Err, IfOk, OnOk, MatchBool};
ghost use Rattle.base_relations.specs.declared.fault.UnfoldFault.{UnfoldFault};
ghost use Rattle.base_relations.specs.declared.fault.UnfoldFault.TheVariants as faults;
ghost use Rattle.base_relations.specs.declared.part.Todo.TheVariants as todo;
ghost use Rattle.base_relations.specs.declared.part.Done.TheVariants as past;
ghost use Rattle.base_relations.specs.Steps.{Does, Leaves, steps_of};
ghost use Rattle.base_relations.specs.Unfolding.{stays};
ghost use Rattle.base_relations.specs.inside.Trails.{todo_step, todo_steps, called_ways, IsPlanned, IsKept, all_of, later_of, Advances, IsTooLong};

use crate::fault::UnfoldFault;
use crate::part::{Done, Todo, called_node};
use crate::plan::Plan;
use rule_terms::{Item, Stack};
use std::alloc::{AllocError, Global};

// The greatest number of items of a rule.
const ITEM_LIMIT: u32 = 4096;

/// A rule whose calls are being replaced: what was looked at, what is still to be looked at, and how many
/// items were looked at.
#[derive(Drop)]
pub(crate) struct Trail<'a> {
    pub(crate) done: Stack<Done<'a>>,
    pending: Stack<Todo<'a>>,
    items: u32,
}

impl<'a> Trail<'a> {
    /// All items of a way are still to be looked at.
    pub(crate) fn start(alloc: Global, way: &'a [Item]) -> Result<Trail<'a>, AllocError>
        ensures done { IfOk result (λ trail. trail.done ≡ []) }
        ensures pending { IfOk result (λ trail. todo_steps trail.pending ≡ steps_of way.now) }
        ensures items { IfOk result (λ trail. trail.items ≡ 0) }
    {
        let mut pending = Stack::new(alloc);
        put_way(&mut pending, way)?;
        Ok(Trail {
            done: Stack::new(alloc),
            pending,
            items: 0,
        })
    }
}

/// Whether an item is a call that is replaced.
fn is_replaced(plan: &Plan, item: &Item) -> bool
    ensures { result ≡ not (stays plan.now.covers.covers (Does item.now)) }
{
    match item {
        Item::Call(node, _) => {
            plan.covers
                .as_slice()
                .get(*node as usize)
                .copied()
                .unwrap_or(0)
                != *node
        }
        Item::Assume(_) | Item::Spend(_) | Item::Fresh(_) => false,
    }
}

/// Puts the items of a way before what is to be looked at.
fn put_way<'a>(pending: &mut Stack<Todo<'a>>, way: &'a [Item]) -> Result<(), AllocError>
    ensures { OnOk result (todo_steps pending.new ≡ steps_of way.now ++ todo_steps pending.old) }
{
    let mut i = way.len();
    while i > 0 {
        i -= 1;
        pending.push(Todo::Item(&way[i]))?;
    }
    Ok(())
}

/// Takes a way and its end away from what is to be looked at.
fn drop_way(pending: &mut Stack<Todo<'_>>, way: &[Item])
    ensures { pending.new ≡ drop (suc (length way.now)) pending.old }
{
    let _ = pending.pop();
    for _ in 0..way.len() {
        let _ = pending.pop();
    }
}

/// How many ways the node that an item calls has.
fn ways_count(plan: &Plan, item: &Item) -> usize
    requires { 0 < length (called_ways plan.now item.now) }
    ensures { result ≡ length (called_ways plan.now item.now) }
{
    plan.ways.as_slice()[called_node(item) as usize].len()
}

/// A way of the node that an item calls.
fn way_at<'a>(plan: &'a Plan, item: &Item, way: usize) -> &'a [Item]
    requires { way < length (called_ways plan.now item.now) }
    ensures { result.now ≡ slice_index_or (called_ways plan.now item.now) way [] }
{
    let ways = plan.ways.as_slice()[called_node(item) as usize].as_slice();
    ways[way].as_slice()
}

/// Begins a way in the place of a call.
fn enter<'a>(
    plan: &'a Plan,
    trail: &mut Trail<'a>,
    item: &'a Item,
    way: usize,
) -> Result<(), AllocError>
    requires { way < length (called_ways plan.now item.now) }
    ensures done { OnOk result (trail.new.done ≡ past.Enter item.entry way ∷ trail.old.done) }
    ensures pending { OnOk result (todo_steps trail.new.pending
        ≡ steps_of (slice_index_or (called_ways plan.now item.now) way []) ++ Leaves ∷ todo_steps trail.old.pending) }
    ensures items { trail.new.items ≡ trail.old.items }
{
    trail.pending.push(Todo::Leave)?;
    put_way(&mut trail.pending, way_at(plan, item, way))?;
    trail.done.push(Done::Enter(item, way))?;
    Ok(())
}

/// Looks at an item: it stays, or the first way of the node that it calls begins in its place.
fn look_at<'a>(plan: &'a Plan, trail: &mut Trail<'a>, item: &'a Item) -> Result<(), UnfoldFault>
    requires plan { IsPlanned plan.now }
    requires trail { IsKept plan.now trail.old.done (todo.Item item ∷ trail.old.pending) trail.old.items }
    ensures trail { OnOk result (IsKept plan.now trail.new.done trail.new.pending trail.new.items) }
    ensures goes_on { OnOk result (Advances plan.now trail.old.done (Does item.now ∷ todo_steps trail.old.pending) trail.new.done trail.new.pending) }
    ensures long { (e : UnfoldFault) → result ≡ Err e → e ≢ faults.Memory → (e ≡ faults.TooLongRule)
        × IsTooLong (all_of plan.now trail.old.done (Does item.now ∷ todo_steps trail.old.pending)) }
{
    if is_replaced(plan, item) {
        enter(plan, trail, item, 0)?;
        return Ok(());
    }
    keep(trail, item)?;
    Ok(())
}

/// Looks at the end of a rule in a call's place.
fn leave(plan: &Plan, trail: &mut Trail<'_>) -> Result<(), AllocError>
    requires plan { IsPlanned plan.now }
    requires trail { IsKept plan.now trail.old.done (todo.Leave ∷ trail.old.pending) trail.old.items }
    ensures trail { OnOk result (IsKept plan.now trail.new.done trail.new.pending trail.new.items) }
    ensures goes_on { OnOk result (Advances plan.now trail.old.done (Leaves ∷ todo_steps trail.old.pending) trail.new.done trail.new.pending) }
{
    let _covers = &plan.covers;
    trail.done.push(Done::Leave)?;
    Ok(())
}

/// Looks at a part.
fn look<'a>(plan: &'a Plan, trail: &mut Trail<'a>, part: Todo<'a>) -> Result<(), UnfoldFault>
    requires plan { IsPlanned plan.now }
    requires trail { IsKept plan.now trail.old.done (part ∷ trail.old.pending) trail.old.items }
    ensures trail { OnOk result (IsKept plan.now trail.new.done trail.new.pending trail.new.items) }
    ensures goes_on { OnOk result (Advances plan.now trail.old.done (todo_step part.entry ∷ todo_steps trail.old.pending) trail.new.done trail.new.pending) }
    ensures long { (e : UnfoldFault) → result ≡ Err e → e ≢ faults.Memory → (e ≡ faults.TooLongRule)
        × IsTooLong (all_of plan.now trail.old.done (todo_step part.entry ∷ todo_steps trail.old.pending)) }
{
    match part {
        Todo::Item(item) => look_at(plan, trail, item),
        Todo::Leave => Ok(leave(plan, trail)?),
    }
}

/// Looks at an item that stays.
fn keep<'a>(trail: &mut Trail<'a>, item: &'a Item) -> Result<(), UnfoldFault>
    requires { trail.old.items ≤ 4096 }
    ensures done { OnOk result (trail.new.done ≡ past.Item item.entry ∷ trail.old.done) }
    ensures pending { trail.new.pending ≡ trail.old.pending }
    ensures items { OnOk result ((trail.new.items ≡ trail.old.items + 1) × (trail.new.items ≤ 4096)) }
    ensures long { (e : UnfoldFault) → result ≡ Err e → e ≢ faults.Memory → (e ≡ faults.TooLongRule) × (trail.old.items ≡ 4096) }
{
    if trail.items >= ITEM_LIMIT {
        return Err(UnfoldFault::TooLongRule);
    }
    trail.items += 1;
    trail.done.push(Done::Item(item))?;
    Ok(())
}

/// Looks at all parts up to the end.
pub(crate) fn forward<'a>(plan: &'a Plan, trail: &mut Trail<'a>) -> Result<(), UnfoldFault>
    requires plan { IsPlanned plan.now }
    requires trail { IsKept plan.now trail.old.done trail.old.pending trail.old.items }
    ensures trail { OnOk result (IsKept plan.now trail.new.done trail.new.pending trail.new.items) }
    ensures ended { OnOk result (trail.new.pending ≡ []) }
    ensures same { OnOk result (all_of plan.now trail.new.done (todo_steps trail.new.pending)
        ≡ all_of plan.now trail.old.done (todo_steps trail.old.pending)) }
    ensures long { (e : UnfoldFault) → result ≡ Err e → e ≢ faults.Memory → (e ≡ faults.TooLongRule)
        × IsTooLong (all_of plan.now trail.old.done (todo_steps trail.old.pending)) }
{
    while let Some(part) = trail.pending.pop() {
        look(plan, trail, part)?;
    }
    Ok(())
}

/// Replaces a call by the next way, if there is one; else the call stands where it stood.
fn enter_next<'a>(
    plan: &'a Plan,
    trail: &mut Trail<'a>,
    item: &'a Item,
    way: usize,
) -> Result<bool, AllocError>
    requires { way < length (called_ways plan.now item.now) }
    ensures next { IfOk result (λ next. MatchBool next
        ((suc way < length (called_ways plan.now item.now)) × (trail.new.done ≡ past.Enter item.entry (suc way) ∷ trail.old.done)
        × (todo_steps trail.new.pending ≡ steps_of (slice_index_or (called_ways plan.now item.now) (suc way) [])
        ++ Leaves ∷ todo_steps (drop (suc (length (slice_index_or (called_ways plan.now item.now) way []))) trail.old.pending)))
        ((length (called_ways plan.now item.now) ≤ suc way) × (trail.new.done ≡ trail.old.done)
        × (trail.new.pending ≡ todo.Item item.entry ∷ drop (suc (length (slice_index_or (called_ways plan.now item.now) way []))) trail.old.pending))) }
    ensures items { trail.new.items ≡ trail.old.items }
{
    drop_way(&mut trail.pending, way_at(plan, item, way));
    if ways_count(plan, item) - way > 1 {
        enter(plan, trail, item, way + 1)?;
        return Ok(true);
    }
    trail.pending.push(Todo::Item(item))?;
    Ok(false)
}

/// Takes a call that was replaced back, and replaces it by the next way, if there is one.
fn undo_enter<'a>(
    plan: &'a Plan,
    trail: &mut Trail<'a>,
    item: &'a Item,
    way: usize,
) -> Result<bool, AllocError>
    requires trail { IsKept plan.now (past.Enter item way ∷ trail.old.done) trail.old.pending trail.old.items }
    requires plan { IsPlanned plan.now }
    ensures trail { OnOk result (IsKept plan.now trail.new.done trail.new.pending trail.new.items) }
    ensures next { IfOk result (λ next. MatchBool next
        (all_of plan.now trail.new.done (todo_steps trail.new.pending)
        ≡ later_of plan.now (past.Enter item.entry way ∷ trail.old.done) (todo_steps trail.old.pending))
        ((trail.new.done ≡ trail.old.done) × (later_of plan.now trail.new.done (todo_steps trail.new.pending)
        ≡ later_of plan.now (past.Enter item.entry way ∷ trail.old.done) (todo_steps trail.old.pending)))) }
{
    let next = enter_next(plan, trail, item, way)?;
    if next {
        return Ok(true);
    }
    Ok(false)
}

/// Takes the last part that was looked at back; a call is replaced by the next way, if there is one.
fn undo<'a>(plan: &'a Plan, trail: &mut Trail<'a>, part: Done<'a>) -> Result<bool, AllocError>
    requires trail { IsKept plan.now (part ∷ trail.old.done) trail.old.pending trail.old.items }
    requires plan { IsPlanned plan.now }
    ensures trail { OnOk result (IsKept plan.now trail.new.done trail.new.pending trail.new.items) }
    ensures next { IfOk result (λ next. MatchBool next
        (all_of plan.now trail.new.done (todo_steps trail.new.pending)
        ≡ later_of plan.now (part.entry ∷ trail.old.done) (todo_steps trail.old.pending))
        ((trail.new.done ≡ trail.old.done) × (later_of plan.now trail.new.done (todo_steps trail.new.pending)
        ≡ later_of plan.now (part.entry ∷ trail.old.done) (todo_steps trail.old.pending)))) }
{
    match part {
        Done::Item(item) => {
            trail.items -= 1;
            trail.pending.push(Todo::Item(item))?;
            Ok(false)
        }
        Done::Enter(item, way) => undo_enter(plan, trail, item, way),
        Done::Leave => {
            trail.pending.push(Todo::Leave)?;
            Ok(false)
        }
    }
}

/// Goes back to the last call that can be replaced by a later way, and replaces it by that. False where there is none.
pub(crate) fn back<'a>(plan: &'a Plan, trail: &mut Trail<'a>) -> Result<bool, AllocError>
    requires plan { IsPlanned plan.now }
    requires trail { IsKept plan.now trail.old.done trail.old.pending trail.old.items }
    ensures trail { OnOk result (IsKept plan.now trail.new.done trail.new.pending trail.new.items) }
    ensures next { IfOk result (λ next. MatchBool next
        (all_of plan.now trail.new.done (todo_steps trail.new.pending)
        ≡ later_of plan.now trail.old.done (todo_steps trail.old.pending))
        (later_of plan.now trail.old.done (todo_steps trail.old.pending) ≡ [])) }
{
    while let Some(part) = trail.done.pop() {
        if undo(plan, trail, part)? {
            return Ok(true);
        }
    }
    Ok(false)
}
