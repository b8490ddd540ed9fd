//! Jumps: ifs, goto and switches (JVMS 6.5).

ghost use Rattle.std.specs.Prelude.{◌≡◌, ℕ, ◌+◌, ◌<◌, ◌≤◌, ◌+ℤ◌, pos, length, drop, Some, None, option_map, if◌then◌else◌};
ghost use Rattle.op_table.specs.declared.acts.Width.TheVariants as widths;
ghost use Rattle.op_table.specs.Actions.{action_of};
ghost use Rattle.op_table.specs.Cases.{cases_of};
ghost use Rattle.op_table.specs.Grammar.{instr_at};
ghost use Rattle.frames.specs.Outcome.{HasGone};
ghost use Rattle.frames.specs.Standing.{StandsAt, next_pc};
ghost use Rattle.frames.specs.Words.{popped_number, popped_two};
ghost use Rattle.word_steps.specs.Branches.{arrives, asked, branch, case_from, holds, jump_of, jumps, null_on, place_of, same_on};
ghost use Rattle.word_steps.specs.inside.Leap.{HasTested, Leads, far_by};

use frames::{Failure, Fetched, Going, Here, Stack, Stop, Value, has_space, one_int, two_ints};
use op_table::acts::{Action, Test};
use op_table::case;

// How far the code goes on from an instruction, or else behind it, and how many words are taken off the stack.
#[derive(Clone, Copy)]
struct Leap {
    far: Option<i32>,
    taken: usize,
}

// ---- tests

// Whether the test holds of two ints.
fn holds(test: Test, x: i32, y: i32) -> bool
    ensures { result ≡ holds test x y }
{
    match test {
        Test::Equal => x == y,
        Test::NotEqual => x != y,
        Test::Less => x < y,
        Test::GreaterOrEqual => x >= y,
        Test::Greater => x > y,
        Test::LessOrEqual => x <= y,
    }
}

// Whether the two references on top are the same.
fn same_on(stack: &Stack<Value>) -> Option<bool>
    ensures { HasTested result 2 stack.now (same_on stack.now) }
{
    match (stack.get(0)?, stack.get(1)?) {
        (Value::Null, Value::Null) => Some(true),
        (Value::Null, Value::Ref(_)) | (Value::Ref(_), Value::Null) => Some(false),
        (Value::Ref(q), Value::Ref(r)) => Some(r == q),
        _ => None,
    }
}

// Whether the reference on top is null.
fn null_on(stack: &Stack<Value>) -> Option<bool>
    ensures { HasTested result 1 stack.now (null_on stack.now) }
{
    match stack.get(0)? {
        Value::Null => Some(true),
        Value::Ref(_) => Some(false),
        _ => None,
    }
}

// ---- how far

// So many words are taken, and the code goes on so far where the test holds.
fn branch(taken: usize, far: i32, holds: bool) -> Leap
    ensures taken { result.taken ≡ taken }
    ensures far { result.far ≡ (if holds then Some far else None) }
{
    Leap {
        far: if holds { Some(far) } else { None },
        taken,
    }
}

fn if_zero(test: Test, far: i32, stack: &Stack<Value>) -> Option<Leap>
    ensures { (len : ℕ) → Leads len result stack.now
        (option_map (λ p. branch len far (holds test p.number (pos 0)) p.rest) (popped_number widths.Int stack.now)) }
{
    let number = one_int(stack)?;
    Some(branch(1, far, holds(test, number, 0)))
}

fn if_ints(test: Test, far: i32, stack: &Stack<Value>) -> Option<Leap>
    ensures { (len : ℕ) → Leads len result stack.now
        (option_map (λ p. branch len far (holds test p.first p.second) p.rest) (popped_two widths.Int widths.Int stack.now)) }
{
    let (first, second) = two_ints(stack)?;
    Some(branch(2, far, holds(test, first, second)))
}

fn if_same(same: bool, far: i32, stack: &Stack<Value>) -> Option<Leap>
    ensures { (len : ℕ) → Leads len result stack.now
        (option_map (λ t. branch len far (asked same t.holds) t.rest) (same_on stack.now)) }
{
    let holds = same_on(stack)?;
    Some(branch(2, far, holds == same))
}

fn if_null(null: bool, far: i32, stack: &Stack<Value>) -> Option<Leap>
    ensures { (len : ℕ) → Leads len result stack.now
        (option_map (λ t. branch len far (asked null t.holds) t.rest) (null_on stack.now)) }
{
    let holds = null_on(stack)?;
    Some(branch(1, far, holds == null))
}

// How far the first of so many cases says that has the value, or else the default.
fn far_by(code: &[u8], pc: u32, count: u32, default: i32, value: i32) -> i32
    requires inside { pc < length code.now }
    requires small { length code.now ≤ 65535 }
    requires known { count ≤ cases_of (instr_at code.now pc) }
    ensures { result ≡ case_from code.now pc default value 0 count }
{
    for i in 0..count {
        let (of, far) = case(code, pc, i);
        if of == value {
            return far;
        }
    }
    default
}

// A switch at a place of the code.
fn switch(code: &[u8], pc: u32, count: u32, default: i32, stack: &Stack<Value>) -> Option<Leap>
    requires inside { pc < length code.now }
    requires small { length code.now ≤ 65535 }
    requires known { count ≤ cases_of (instr_at code.now pc) }
    ensures { (len : ℕ) → Leads len result stack.now
        (option_map (λ p. record { far = case_from code.now pc default p.number 0 count; stack = p.rest }) (popped_number widths.Int stack.now)) }
{
    let value = one_int(stack)?;
    Some(Leap {
        far: Some(far_by(code, pc, count, default, value)),
        taken: 1,
    })
}

#[tactic(auto, unfolding(crate::specs::Branches::jump_of), using(crate::proofs::Counts::known_cases))]
fn leap_of(fetched: &Fetched<'_>, action: Action, pc: u32, stack: &Stack<Value>) -> Option<Leap>
    requires acts { action ≡ action_of fetched.now.standing.instr }
    requires stands { StandsAt fetched.now.standing pc }
    ensures { Leads fetched.now.standing.instr.len result stack.now
        (jump_of fetched.now.standing.code.bytes pc fetched.now.standing.instr.len action stack.now) }
{
    match action {
        Action::IfZero(test, far) => if_zero(test, far, stack),
        Action::IfInts(test, far) => if_ints(test, far, stack),
        Action::IfSame(same, far) => if_same(same, far, stack),
        Action::IfNull(null, far) => if_null(null, far, stack),
        Action::Goto(far) => Some(Leap {
            far: Some(far),
            taken: 0,
        }),
        Action::Switch { default, count, .. } => {
            switch(fetched.code.bytes.as_slice(), pc, count, default, stack)
        }
        _ => None,
    }
}

// ---- the jump

// The place so far from another one, or the one behind.
fn place_of(pc: u32, next: u32, far: Option<i32>) -> Option<u32>
    requires { pc ≤ 65535 }
    ensures { (len : ℕ) → next ≡ pc + len → result ≡ place_of (pos pc +ℤ far_by len far) }
{
    match far {
        Some(far) => pc.checked_add_signed(far),
        None => Some(next),
    }
}

// Takes so many words off and goes on at the place, where it lies in the code.
fn arrive(fetched: &Fetched<'_>, taken: usize, place: Option<u32>, here: &mut Here) -> Going
    requires { taken ≤ length here.old.frame.stack }
    ensures { HasGone result here.old here.new (arrives fetched.now.standing here.old (drop taken here.old.frame.stack) place) }
{
    let Some(pc) = place else {
        return Going::Fails(Failure::Stops(Stop::Shape));
    };
    let limit = usize::from(fetched.code.max_stack);
    let held = has_space(here.frame.stack.len(), taken, 0, limit);
    let inside = (pc as usize) < fetched.code.bytes.len();
    if !(held && inside) {
        return Going::Fails(Failure::Stops(Stop::Shape));
    }
    here.frame.stack.cut(taken);
    here.frame.pc = pc;
    Going::Goes
}

/// Jumps as an if, a goto or a switch says. What else an instruction does is no jump, and fails.
pub fn jump(fetched: &Fetched<'_>, action: Action, here: &mut Here) -> Going
    requires acts { action ≡ action_of fetched.now.standing.instr }
    requires behind { fetched.now.next ≡ next_pc fetched.now.standing here.old }
    requires stands { StandsAt fetched.now.standing here.old.frame.pc }
    ensures { HasGone result here.old here.new (jumps fetched.now.standing here.old action) }
{
    let pc = here.frame.pc;
    match leap_of(fetched, action, pc, &here.frame.stack) {
        None => Going::Fails(Failure::Stops(Stop::Shape)),
        Some(leap) => {
            let place = place_of(pc, fetched.next, leap.far);
            arrive(fetched, leap.taken, place, here)
        }
    }
}
