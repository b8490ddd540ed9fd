//! The methods that a method of given classes reaches by calls, and what each costs: a question, the method, the word
//! `in`, and the classes' names.

use call_costs::{CostFault, Costs, costs};
use case_texts::Case;
use class_pool::Target;
use code_blocks::Instruction;
use code_flow::{FlowFault, Program, flow};
use cost_model::CostModel;
use op_table::Construct;
use world::{MemberId, World};
use world_cases::{class_name, put_method, target_of, world_of};

fn put_unsupported(
    case: &mut Case<'_>,
    world: &World,
    method: MemberId,
    pc: u32,
    construct: Construct,
) {
    case.put("unsupported ");
    put_method(case, world, method);
    case.show_word(&pc);
    case.put_word(construct.word());
}

fn put_fault(case: &mut Case<'_>, world: &World, fault: FlowFault) {
    match fault {
        FlowFault::NoMethod => case.put("no method"),
        FlowFault::Unsupported {
            method,
            pc,
            construct,
        } => put_unsupported(case, world, method, pc, construct),
        FlowFault::TooManyMethods => case.put("too many methods"),
        FlowFault::Memory => case.put("memory"),
    }
}

/// The place of an instruction, and the classes of the methods that it can call.
fn put_instruction(case: &mut Case<'_>, world: &World, i: &Instruction, targets: &[MemberId]) {
    case.show_word(&i.pc);
    for target in targets {
        case.put(">");
        case.put(class_name(world, target.class));
    }
}

/// Each method with its instructions, in the order of the program.
fn put_plan(case: &mut Case<'_>, world: &World, program: &Program<'_>) {
    for reached in program.methods() {
        case.part("; ");
        put_method(case, world, reached.method);
        let instructions = reached.body.instructions();
        for (i, targets) in instructions.iter().zip(reached.targets.as_slice()) {
            put_instruction(case, world, i, targets.as_slice());
        }
    }
}

/// The numbers of the methods, callees first.
fn put_order(case: &mut Case<'_>, program: &Program<'_>) {
    for number in program.callees_first() {
        case.show_word(number);
    }
}

/// The methods in their order, each with its cost.
fn put_all(case: &mut Case<'_>, world: &World, program: &Program<'_>, costs: &Costs) {
    for (reached, cost) in program.methods().iter().zip(costs.as_slice()) {
        case.part(", ");
        put_method(case, world, reached.method);
        case.show_word(cost);
    }
}

/// The cost of the method with this number.
fn put_cost(case: &mut Case<'_>, costs: &Costs, number: usize) {
    match costs.of(u32::try_from(number).unwrap_or(u32::MAX)) {
        Some(cost) => case.show_word(&cost),
        None => case.put_word("none"),
    }
}

/// The answer to a question about costs: that of the first method, those of the last and of the one behind it, or all.
fn put_costs(case: &mut Case<'_>, world: &World, program: &Program<'_>, costs: &Costs, what: &str) {
    let count = costs.as_slice().len();
    match what {
        "cost" => put_cost(case, costs, 0),
        "last" => {
            put_cost(case, costs, count.wrapping_sub(1));
            put_cost(case, costs, count);
        }
        _ => put_all(case, world, program, costs),
    }
}

fn priced(case: &mut Case<'_>, world: &World, program: &Program<'_>, what: &str) {
    match costs(case.alloc(), program, &CostModel::counting()) {
        Ok(costs) => put_costs(case, world, program, &costs, what),
        Err(CostFault::TooGreat) => case.put("too great"),
        Err(CostFault::Memory) => case.put("memory"),
    }
}

/// The answer to a question about the method.
fn told(case: &mut Case<'_>, world: &World, target: &Target, what: &str) {
    let program = match flow(case.alloc(), world, target) {
        Ok(program) => program,
        Err(fault) => {
            put_fault(case, world, fault);
            return;
        }
    };
    match what {
        "order" => put_order(case, &program),
        "plan" => put_plan(case, world, &program),
        _ => priced(case, world, &program, what),
    }
}

pub fn answer(case: &mut Case<'_>) {
    let Some(world) = world_of(case) else {
        return;
    };
    let what = case.word();
    if let Some(target) = target_of(case) {
        told(case, &world, &target, what);
    }
}
