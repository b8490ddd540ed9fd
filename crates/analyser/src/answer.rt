ghost use Rattle.std.specs.Prelude.{◌≡◌, IfOk};
ghost use Rattle.world.specs.Tables.{HasMethod};
ghost use Rattle.code_flow.specs.Plans.{plans_of};
ghost use Rattle.analyser.specs.Answer.{target_of, first_cost, bound_of, answer_on};

use crate::{LimitKind, Status};
use call_costs::{CostFault, costs};
use class_pool::Target;
use code_flow::{FlowFault, Program, flow};
use cost_model::CostModel;
use std::alloc::{AllocError, Global};
use world::{MemberId, World};

/// The greatest number that stands in a bound: 2^127 - 1.
const MOST_COST: u128 = 170_141_183_460_469_231_731_687_303_715_884_105_727;

/// How many methods are analysed at most.
const MOST_METHODS: u128 = 4_096;

// The name of a method.
fn target_of(world: &World, method: MemberId) -> Result<Target, AllocError>
    requires { HasMethod world.now method }
    ensures { IfOk result (λ target. target ≡ target_of world.now method) }
{
    let class = world.name_at(method.class).share()?;
    let member = world.method_at(method);
    Ok(Target {
        class,
        method: member.name.share()?,
        desc: member.desc.share()?,
    })
}

// The bound that the first of the costs is.
fn first_bound(costs: &[u128]) -> Status
    ensures { result ≡ first_cost costs.now }
{
    match costs {
        [cost, ..] => Status::Bound(*cost),
        [] => Status::Memory,
    }
}

// The bound of the first method of the program, where no method costs more than can be told.
fn bound_of(alloc: Global, program: &Program<'_>) -> Result<Status, AllocError>
    ensures { IfOk result (λ status. status ≡ bound_of (plans_of program.now)) }
{
    match costs(alloc, program, &CostModel::counting()) {
        Ok(costs) => Ok(first_bound(costs.as_slice())),
        Err(CostFault::TooGreat) => Ok(Status::Limit {
            kind: LimitKind::Coefficient,
            number: MOST_COST,
        }),
        Err(CostFault::Memory) => Err(AllocError),
    }
}

/// The answer on this world: the bound of the target, that there is no such method, or what stands against a bound in
/// the code that it reaches.
#[tactic(auto, unfolding(crate::specs::Answer::answer_on))]
pub fn answer_on(alloc: Global, target: Target, world: &World) -> Result<Status, AllocError>
    ensures { IfOk result (λ status. status ≡ answer_on target world.now) }
{
    match flow(alloc, world, &target) {
        Ok(program) => bound_of(alloc, &program),
        Err(FlowFault::NoMethod) => Ok(Status::NoMethod(target)),
        Err(
            FlowFault::Unsupported {
                method,
                pc,
                construct,
            },
        ) => Ok(Status::Unsupported {
            method: target_of(world, method)?,
            pc,
            construct,
        }),
        Err(FlowFault::TooManyMethods) => Ok(Status::Limit {
            kind: LimitKind::Methods,
            number: MOST_METHODS,
        }),
        Err(FlowFault::Memory) => Err(AllocError),
    }
}
