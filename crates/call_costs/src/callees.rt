//! What each method of a program costs, callees first.

ghost use Rattle.std.specs.Prelude.{All, ◌≡◌, ◌<◌, length, ℕ, map, Some, IfOk, IfErr, OnOk, if◌then◌else◌};
ghost use Rattle.std.specs.BTreeMap.{is_at};
ghost use Rattle.cost_model.specs.Costs.{cost_at};
ghost use Rattle.code_flow.specs.Plans.{plan_of, plans_of};
ghost use Rattle.code_flow.specs.Program.{IsCalleesFirst};
ghost use Rattle.call_costs.specs.declared.fault.CostFault.TheVariants as fault;
ghost use Rattle.call_costs.specs.Costs.{cost_of_code, costs_of, most_cost, IsTooGreat};
ghost use Rattle.call_costs.specs.Knowing.{key_cmp, value_in, cost_in, IsEachOnce, IsPriced, HasCosts};

use crate::pricing::{Known, code_cost, known_cost};
use crate::{CostFault, Costs};
use code_flow::{Program, Reached};
use cost_model::{CostFunction, CostModel};
use std::alloc::{AllocError, Global};
use std::collections::BTreeMap;
use world::MemberId;

// Adds the cost of a method.
fn learn(known: &mut Known, m: MemberId, cost: u128) -> Result<(), AllocError>
    ensures { OnOk result ((key : ℕ × ℕ) → value_in known.new key ≡ (if is_at (key_cmp (m.class, m.member)) key then Some cost else value_in known.old key)) }
{
    known.insert((m.class, m.member), cost)?;
    Ok(())
}

// Adds the cost of a method, by those of the methods that it calls.
fn price<F: CostFunction>(
    known: &mut Known,
    model: &CostModel<F>,
    reached: &Reached<'_>,
) -> Result<(), CostFault>
    requires { length reached.now.targets ≡ length reached.now.body.instructions }
    ensures priced { OnOk result (IsPriced (cost_at model.now) (plan_of reached.now) (cost_in known.old) (cost_in known.new)) }
    ensures too_great { IfErr result (λ e. e ≡ fault.TooGreat → most_cost < cost_of_code (cost_at model.now) (cost_in known.old) (plan_of reached.now).instructions) }
{
    let instructions = reached.body.instructions();
    match code_cost(model, known, instructions, reached.targets.as_slice()) {
        None => Err(CostFault::TooGreat),
        Some(cost) => Ok(learn(known, reached.method, cost)?),
    }
}

// The costs of the methods, callees first.
fn price_all<F: CostFunction>(
    alloc: Global,
    methods: &[Reached<'_>],
    order: &[u32],
    model: &CostModel<F>,
) -> Result<Known, CostFault>
    requires once { IsEachOnce (plans_of methods.now) }
    requires first { IsCalleesFirst (plans_of methods.now) order.now }
    requires counts { All (λ r. length r.targets ≡ length r.body.instructions) methods.now }
    ensures costs { IfOk result (λ known. HasCosts (cost_at model.now) (plans_of methods.now) (cost_in known)) }
    ensures too_great { IfErr result (λ e. e ≡ fault.TooGreat → IsTooGreat (cost_at model.now) (plans_of methods.now)) }
{
    let mut known = BTreeMap::new(alloc);
    for k in order {
        price(&mut known, model, &methods[*k as usize])?;
    }
    Ok(known)
}

// The known costs of the methods in order.
fn list(alloc: Global, known: &Known, methods: &[Reached<'_>]) -> Result<Vec<u128>, AllocError>
    ensures { IfOk result (λ costs. costs.items ≡ map (λ r. cost_in known.now r.method) methods.now) }
{
    let mut costs = Vec::new(alloc);
    for reached in methods {
        costs.push(known_cost(known, reached.method))?;
    }
    Ok(costs)
}

/// What each method of the program costs, with the methods that it calls.
///
/// # Errors
///
/// `TooGreat` exactly where some method costs more than 2^127 - 1, and `Memory` where memory runs out.
pub fn costs<F: CostFunction>(
    alloc: Global,
    program: &Program<'_>,
    model: &CostModel<F>,
) -> Result<Costs, CostFault>
    ensures costs { IfOk result (λ costs. costs ≡ costs_of (cost_at model.now) (plans_of program.now)) }
    ensures small { IfOk result (λ _. ¬ IsTooGreat (cost_at model.now) (plans_of program.now)) }
    ensures too_great { IfErr result (λ e. e ≡ fault.TooGreat → IsTooGreat (cost_at model.now) (plans_of program.now)) }
{
    program.well_made();
    let known = price_all(alloc, program.methods(), program.callees_first(), model)?;
    Ok(Costs {
        costs: list(alloc, &known, program.methods())?,
    })
}
