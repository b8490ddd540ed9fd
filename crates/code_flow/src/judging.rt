//! What stands against an instruction, or the methods that it can call.

ghost use Rattle.std.specs.Prelude.{◌≡◌, ◌+◌, ◌<◌, ◌≤◌, [], length, IfOk, All, not, ◌==◌};
ghost use Rattle.std.specs.Option.{option_map, option_copied};
ghost use Rattle.class_hierarchy.specs.World.{class_at};
ghost use Rattle.world.specs.Tables.{HasMethod};
ghost use Rattle.linking.specs.Told.{Tells};
ghost use Rattle.code_blocks.specs.Placing.{is_last};
ghost use Rattle.code_flow.specs.Judging.{shown, is_end, runs_none, meant, judged};

use class_pool::{Pool, Sequence};
use linking::{LinkFault, against_call, called_by, construct_if, made_by};
use op_table::acts::Action;
use op_table::{Construct, Instr, action_of};
use std::alloc::Global;
use world::{MemberId, World};

// What the opcode and its operands show.
fn shown(pool: &Pool, action: Action) -> Option<Construct>
    ensures { result ≡ shown pool.now action }
{
    match action {
        Action::Outside(construct) => Some(construct),
        Action::PushConstant(i) => construct_if(!pool.int(i).is_some(), Construct::Constant),
        Action::PushLongConstant(i) => construct_if(!pool.long(i).is_some(), Construct::Constant),
        Action::Call(_, i) => against_call(pool, i),
        Action::New(i) => construct_if(!pool.class_name(i).is_some(), Construct::Constant),
        Action::IfZero(_, _)
        | Action::IfInts(_, _)
        | Action::IfSame(_, _)
        | Action::IfNull(_, _)
        | Action::Goto(_)
        | Action::Switch { .. }
        | Action::LoadElement(_)
        | Action::StoreElement(_)
        | Action::GetStatic(_)
        | Action::PutStatic(_)
        | Action::GetField(_)
        | Action::PutField(_)
        | Action::NewArray(_)
        | Action::NewReferenceArray(_)
        | Action::ArrayLength
        | Action::CheckCast(_)
        | Action::InstanceOf(_) => Some(Construct::Later),
        Action::Nothing
        | Action::PushNull
        | Action::PushInt(_)
        | Action::PushLong(_)
        | Action::Load(_, _)
        | Action::Store(_, _)
        | Action::Shuffle(_)
        | Action::Arithmetic(_, _)
        | Action::Negate(_)
        | Action::Shift(_, _)
        | Action::Logic(_, _)
        | Action::Increment(_, _)
        | Action::IntToLong
        | Action::LongToInt
        | Action::Narrow(_)
        | Action::CompareLongs
        | Action::Return(_)
        | Action::ReturnNothing
        | Action::Throw => None,
    }
}

// Whether no instruction of the method comes next.
fn is_end(action: Action) -> bool
    ensures { result ≡ is_end action }
{
    matches!(
        action,
        Action::Return(_) | Action::ReturnNothing | Action::Throw
    )
}

// An object of a class runs no method when it is made.
fn runs_none(alloc: Global, made: Result<u32, Construct>) -> Result<Sequence<MemberId>, LinkFault>
    ensures none { IfOk result (λ ts. ts ≡ []) }
    ensures exact { Tells result (runs_none made) }
{
    match made {
        Ok(_) => Ok(Sequence::new(alloc)),
        Err(construct) => Err(LinkFault::Against(construct)),
    }
}

// The methods that an instruction of the current class can call.
fn meant(
    alloc: Global,
    w: &World,
    current: u32,
    action: Action,
) -> Result<Sequence<MemberId>, LinkFault>
    requires { current < length w.now }
    ensures there { IfOk result (λ ts. All (HasMethod w.now) ts) }
    ensures exact { Tells result (meant w.now current (class_at w.now current).pool action) }
{
    let pool = &w.record_at(current).pool;
    match action {
        Action::Call(call, i) => called_by(alloc, w, current, call, pool, i),
        Action::New(i) => runs_none(alloc, made_by(w, pool, i)),
        _ => Ok(Sequence::new(alloc)),
    }
}

/// The methods that an instruction of the current class can call, where it stands last in the code or not; or the
/// first construct at it.
#[tactic(auto, unfolding(crate::specs::Judging::judged))]
pub(crate) fn judged(
    alloc: Global,
    w: &World,
    current: u32,
    code: &[u8],
    pc: u32,
    instr: &Instr,
) -> Result<Sequence<MemberId>, LinkFault>
    requires current { current < length w.now }
    requires within { pc + instr.now.len ≤ length code.now }
    requires small { length code.now ≤ 65535 }
    ensures there { IfOk result (λ ts. All (HasMethod w.now) ts) }
    ensures exact { Tells result (judged w.now current code.now (record { pc = pc; instr = instr.now })) }
{
    let action = action_of(instr);
    if let Some(construct) = shown(&w.record_at(current).pool, action) {
        return Err(LinkFault::Against(construct));
    }
    let is_last = !(((pc + instr.len) as usize) < code.len());
    if is_last && !is_end(action) {
        return Err(LinkFault::Against(Construct::FallsOff));
    }
    meant(alloc, w, current, action)
}
