//! What the code of one method costs, where the costs of those that it calls are known.

ghost use Rattle.std.specs.Prelude.{◌≡◌, ◌+◌, length, map};
ghost use Rattle.cost_model.specs.Costs.{cost_at};
ghost use Rattle.op_table.specs.Actions.{action_of as meaning};
ghost use Rattle.code_flow.specs.Judging.{is_end};
ghost use Rattle.code_flow.specs.Plans.{beside, planned_with};
ghost use Rattle.call_costs.specs.Costs.{greatest, cost_of_instruction, cost_of_code};
ghost use Rattle.call_costs.specs.Knowing.{cost_in, within};

use class_pool::Sequence;
use code_blocks::Instruction;
use cost_model::{CostFunction, CostModel};
use op_table::acts::Action;
use op_table::{Instr, action_of};
use std::collections::BTreeMap;
use world::MemberId;

/// The greatest cost that is counted, 2^127 - 1.
const MOST: u128 = 170141183460469231731687303715884105727;

/// Costs of methods, by class and place.
pub(crate) type Known = BTreeMap<(u32, u32), u128>;

// The sum, where it isn't too great.
fn sum(one: u128, other: u128) -> Option<u128>
    ensures { result ≡ within (one + other) }
{
    match one.checked_add(other) {
        Some(cost) if cost <= MOST => Some(cost),
        _ => None,
    }
}

/// The cost that is known of a method, and 0 where none is.
pub(crate) fn known_cost(known: &Known, m: MemberId) -> u128
    ensures { result ≡ cost_in known.now m }
{
    known.get(&(m.class, m.member)).copied().unwrap_or(0)
}

// The greatest cost of the methods, and 0 where there is none.
fn greatest_cost(known: &Known, methods: &[MemberId]) -> u128
    ensures { result ≡ greatest (map (cost_in known.now) methods.now) }
{
    let mut most = 0;
    for m in methods {
        most = most.max(known_cost(known, *m));
    }
    most
}

// What an instruction costs with the method that it calls.
fn instruction_cost<F: CostFunction>(
    model: &CostModel<F>,
    known: &Known,
    i: &Instruction,
    targets: &[MemberId],
) -> Option<u128>
    ensures { result ≡ within (cost_of_instruction (cost_at model.now) (cost_in known.now) (planned_with i.now targets.now)) }
{
    let weight = model.charge_instr(&i.instr);
    sum(weight as u128, greatest_cost(known, targets))
}

// No instruction of the method comes next behind it.
fn ends(instr: &Instr) -> bool
    ensures { result ≡ is_end (meaning instr.now) }
{
    matches!(
        action_of(instr),
        Action::Return(_) | Action::ReturnNothing | Action::Throw
    )
}

/// What the instructions of a method cost, one behind another up to the first that returns or throws; none where it is
/// too much.
pub(crate) fn code_cost<F: CostFunction>(
    model: &CostModel<F>,
    known: &Known,
    instructions: &[Instruction],
    targets: &[Sequence<MemberId>],
) -> Option<u128>
    requires { length targets.now ≡ length instructions.now }
    ensures { result ≡ within (cost_of_code (cost_at model.now) (cost_in known.now) (beside instructions.now targets.now)) }
{
    let mut total = 0;
    for (k, i) in instructions.iter().enumerate() {
        let cost = instruction_cost(model, known, i, targets[k].as_slice())?;
        total = sum(total, cost)?;
        if ends(&i.instr) {
            return Some(total);
        }
    }
    Some(total)
}
