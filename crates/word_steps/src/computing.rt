//! What an instruction is to do to the words of a frame, by its action (JVMS 6.5).

ghost use Rattle.std.specs.Prelude.{◌≡◌, List, false};
ghost use Rattle.std.specs.Option.{option_copied};
ghost use Rattle.op_table.specs.declared.acts.Kind.TheVariants as kinds;
ghost use Rattle.op_table.specs.declared.acts.Width.TheVariants as widths;
ghost use Rattle.class_pool.specs.Pool.{constant_at, int_of, long_of};
ghost use Rattle.frames.specs.declared.value.Value.{Value as Word};
ghost use Rattle.frames.specs.declared.value.Value.TheVariants.{Int, Long};
ghost use Rattle.word_steps.specs.declared.change.Change.TheVariants as changes;
ghost use Rattle.word_steps.specs.Numbers.{combined, compared, distance, narrowed, shifted, throws, wrapped};
ghost use Rattle.frames.specs.Words.{loaded, popped, popped_number, popped_two, shuffled};
ghost use Rattle.word_steps.specs.Computing.{arithmetic, constant, increment, load, negate, not_int, not_long, one, shuffle, store, two, words_after};
ghost use Rattle.word_steps.specs.inside.Change.{Tells};

use crate::change::Change;
use crate::moves::can_move;
use crate::{ints, longs};
use class_pool::{Constant, Pool};
use frames::{
    Failure, Frame, Raised, Stop, Value, int_in, long_and_int, one_int, one_long, two_ints,
    two_longs, value_on, words_of,
};
use op_table::acts::{Action, Arithmetic, Kind, Logic, Shift, Shuffle, Small, Width};

const MISFIT: Failure = Failure::Stops(Stop::Shape);

#[tactic(auto, unfolding(crate::specs::Computing::words_after))]
// What an action is to do to the words of a frame, or why it does nothing.
pub(crate) fn change_of(pool: &Pool, action: Action, frame: &Frame) -> Result<Change, Failure>
    ensures { Tells result frame.now.locals frame.now.stack (words_after pool.now action frame.now.locals frame.now.stack) }
{
    match action {
        Action::Nothing => Ok(Change::Keeps),
        Action::PushNull => Ok(pushed(Value::Null)),
        Action::PushInt(n) => Ok(pushed(Value::Int(n))),
        Action::PushLong(n) => Ok(pushed(Value::Long(n))),
        Action::PushConstant(i) => push_int(pool, i),
        Action::PushLongConstant(i) => push_long(pool, i),
        Action::Load(kind, local) => load(kind, local, frame),
        Action::Store(kind, local) => store(kind, local, frame),
        Action::Shuffle(shuffle) => move_words(shuffle, frame),
        Action::Arithmetic(op, width) => calculate(op, width, frame),
        Action::Negate(width) => negate(width, frame),
        Action::Shift(way, width) => shift(way, width, frame),
        Action::Logic(logic, width) => combine(logic, width, frame),
        Action::Increment(local, amount) => increment(local, amount, frame),
        Action::IntToLong => lengthen(frame),
        Action::LongToInt => shorten(frame),
        Action::Narrow(small) => narrow(small, frame),
        Action::CompareLongs => compare(frame),
        _ => Err(Failure::Stops(Stop::Support)),
    }
}

// A value on top of all words.
fn pushed(value: Value) -> Change
    ensures { result ≡ changes.Pushes 0 value false }
{
    Change::Pushes {
        drops: 0,
        value,
        wraps: false,
    }
}

// A value, which is exact, in the place of so many words.
fn replaced(drops: usize, value: Value) -> Change
    ensures { result ≡ changes.Pushes drops value false }
{
    Change::Pushes {
        drops,
        value,
        wraps: false,
    }
}

fn push_int(pool: &Pool, i: u16) -> Result<Change, Failure>
    ensures { (locals stack : List Word) → Tells result locals stack
        (constant Int (not_int (constant_at pool.now i)) locals stack (int_of (constant_at pool.now i))) }
{
    match pool.int(i) {
        None => Err(Failure::Stops(not_int(entry(pool, i)))),
        Some(n) => Ok(pushed(Value::Int(n))),
    }
}

fn push_long(pool: &Pool, i: u16) -> Result<Change, Failure>
    ensures { (locals stack : List Word) → Tells result locals stack
        (constant Long (not_long (constant_at pool.now i)) locals stack (long_of (constant_at pool.now i))) }
{
    match pool.long(i) {
        None => Err(Failure::Stops(not_long(entry(pool, i)))),
        Some(n) => Ok(pushed(Value::Long(n))),
    }
}

// Why the entry isn't pushed by ldc (JVMS 6.5.ldc).
fn not_int(entry: Option<&Constant>) -> Stop
    ensures { result ≡ not_int (option_copied entry.entry) }
{
    match entry {
        Some(
            Constant::Float(_)
            | Constant::Class(_)
            | Constant::String(_)
            | Constant::MethodHandle { .. }
            | Constant::MethodType(_)
            | Constant::Dynamic { .. },
        ) => Stop::Support,
        _ => Stop::Link,
    }
}

// Why the entry isn't pushed by ldc2_w (JVMS 6.5.ldc2_w).
fn not_long(entry: Option<&Constant>) -> Stop
    ensures { result ≡ not_long (option_copied entry.entry) }
{
    match entry {
        Some(Constant::Double(_) | Constant::Dynamic { .. }) => Stop::Support,
        _ => Stop::Link,
    }
}

// The entry with this index.
fn entry(pool: &Pool, index: u16) -> Option<&Constant>
    ensures { option_copied result ≡ constant_at pool.now index }
{
    match index {
        0 => None,
        _ => pool.entries().get((index - 1) as usize)?.as_ref(),
    }
}

fn load(kind: Kind, local: u16, frame: &Frame) -> Result<Change, Failure>
    ensures { Tells result frame.now.locals frame.now.stack (load frame.now.locals frame.now.stack (loaded kind frame.now.locals local)) }
{
    match frame.locals.load(kind, local) {
        None => Err(MISFIT),
        Some(value) => Ok(pushed(value)),
    }
}

fn store(kind: Kind, local: u16, frame: &Frame) -> Result<Change, Failure>
    ensures { Tells result frame.now.locals frame.now.stack (store frame.now.locals local (popped kind frame.now.stack)) }
{
    match value_on(kind, &frame.stack) {
        Some(value) if frame.locals.can_store(local, value) => Ok(Change::Stores {
            drops: words_of(kind),
            local,
            value,
        }),
        _ => Err(MISFIT),
    }
}

fn move_words(by: Shuffle, frame: &Frame) -> Result<Change, Failure>
    ensures { Tells result frame.now.locals frame.now.stack (shuffle frame.now.locals (shuffled by frame.now.stack)) }
{
    if can_move(by, &frame.stack) {
        Ok(Change::Moves(by))
    } else {
        Err(MISFIT)
    }
}

fn calculate(op: Arithmetic, width: Width, frame: &Frame) -> Result<Change, Failure>
    ensures { Tells result frame.now.locals frame.now.stack (arithmetic op width frame.now.locals (popped_two width width frame.now.stack)) }
{
    match width {
        Width::Int => calculate_ints(op, frame),
        Width::Long => calculate_longs(op, frame),
    }
}

fn calculate_ints(op: Arithmetic, frame: &Frame) -> Result<Change, Failure>
    ensures { Tells result frame.now.locals frame.now.stack
        (arithmetic op widths.Int frame.now.locals (popped_two widths.Int widths.Int frame.now.stack)) }
{
    let Some((x, y)) = two_ints(&frame.stack) else {
        return Err(MISFIT);
    };
    if throws(op, i64::from(y)) {
        return Err(Failure::Throws(Raised::Arithmetic));
    }
    let (value, wraps) = ints::compute(op, x, y);
    Ok(Change::Pushes {
        drops: 2,
        value: Value::Int(value),
        wraps,
    })
}

fn calculate_longs(op: Arithmetic, frame: &Frame) -> Result<Change, Failure>
    ensures { Tells result frame.now.locals frame.now.stack
        (arithmetic op widths.Long frame.now.locals (popped_two widths.Long widths.Long frame.now.stack)) }
{
    let Some((x, y)) = two_longs(&frame.stack) else {
        return Err(MISFIT);
    };
    if throws(op, y) {
        return Err(Failure::Throws(Raised::Arithmetic));
    }
    let (value, wraps) = longs::compute(op, x, y);
    Ok(Change::Pushes {
        drops: 4,
        value: Value::Long(value),
        wraps,
    })
}

// Whether an operation throws for the second number (JVMS 6.5.idiv).
fn throws(op: Arithmetic, second: i64) -> bool
    ensures { result ≡ throws op second }
{
    match op {
        Arithmetic::Divide | Arithmetic::Remainder => second == 0,
        _ => false,
    }
}

fn negate(width: Width, frame: &Frame) -> Result<Change, Failure>
    ensures { Tells result frame.now.locals frame.now.stack (negate width frame.now.locals (popped_number width frame.now.stack)) }
{
    match width {
        Width::Int => negate_int(frame),
        Width::Long => negate_long(frame),
    }
}

fn negate_int(frame: &Frame) -> Result<Change, Failure>
    ensures { Tells result frame.now.locals frame.now.stack (negate widths.Int frame.now.locals (popped_number widths.Int frame.now.stack)) }
{
    let Some(n) = one_int(&frame.stack) else {
        return Err(MISFIT);
    };
    let (value, wraps) = ints::negate(n);
    Ok(Change::Pushes {
        drops: 1,
        value: Value::Int(value),
        wraps,
    })
}

fn negate_long(frame: &Frame) -> Result<Change, Failure>
    ensures { Tells result frame.now.locals frame.now.stack (negate widths.Long frame.now.locals (popped_number widths.Long frame.now.stack)) }
{
    let Some(n) = one_long(&frame.stack) else {
        return Err(MISFIT);
    };
    let (value, wraps) = longs::negate(n);
    Ok(Change::Pushes {
        drops: 2,
        value: Value::Long(value),
        wraps,
    })
}

fn shift(way: Shift, width: Width, frame: &Frame) -> Result<Change, Failure>
    ensures { Tells result frame.now.locals frame.now.stack
        (two (λ x k. shifted way width x (distance width k)) width frame.now.locals (popped_two width widths.Int frame.now.stack)) }
{
    match width {
        Width::Int => match two_ints(&frame.stack) {
            None => Err(MISFIT),
            Some((x, by)) => Ok(replaced(2, Value::Int(ints::shift(way, x, by)))),
        },
        Width::Long => match long_and_int(&frame.stack) {
            None => Err(MISFIT),
            Some((x, by)) => Ok(replaced(3, Value::Long(longs::shift(way, x, by)))),
        },
    }
}

fn combine(logic: Logic, width: Width, frame: &Frame) -> Result<Change, Failure>
    ensures { Tells result frame.now.locals frame.now.stack
        (two (combined logic width) width frame.now.locals (popped_two width width frame.now.stack)) }
{
    match width {
        Width::Int => match two_ints(&frame.stack) {
            None => Err(MISFIT),
            Some((x, y)) => Ok(replaced(2, Value::Int(ints::combine(logic, x, y)))),
        },
        Width::Long => match two_longs(&frame.stack) {
            None => Err(MISFIT),
            Some((x, y)) => Ok(replaced(4, Value::Long(longs::combine(logic, x, y)))),
        },
    }
}

fn increment(local: u16, amount: i16, frame: &Frame) -> Result<Change, Failure>
    ensures { Tells result frame.now.locals frame.now.stack
        (increment frame.now.locals frame.now.stack local amount (loaded kinds.Int frame.now.locals local)) }
{
    let Some(n) = int_in(&frame.locals, local) else {
        return Err(MISFIT);
    };
    let (number, wraps) = ints::compute(Arithmetic::Add, n, i32::from(amount));
    Ok(Change::Sets {
        local,
        number,
        wraps,
    })
}

fn lengthen(frame: &Frame) -> Result<Change, Failure>
    ensures { Tells result frame.now.locals frame.now.stack (one (λ z. z) widths.Long frame.now.locals (popped_number widths.Int frame.now.stack)) }
{
    match one_int(&frame.stack) {
        None => Err(MISFIT),
        Some(n) => Ok(replaced(1, Value::Long(i64::from(n)))),
    }
}

fn shorten(frame: &Frame) -> Result<Change, Failure>
    ensures { Tells result frame.now.locals frame.now.stack (one (wrapped widths.Int) widths.Int frame.now.locals (popped_number widths.Long frame.now.stack)) }
{
    match one_long(&frame.stack) {
        None => Err(MISFIT),
        Some(n) => Ok(replaced(2, Value::Int(longs::low_int(n)))),
    }
}

fn narrow(small: Small, frame: &Frame) -> Result<Change, Failure>
    ensures { Tells result frame.now.locals frame.now.stack (one (narrowed small) widths.Int frame.now.locals (popped_number widths.Int frame.now.stack)) }
{
    match one_int(&frame.stack) {
        None => Err(MISFIT),
        Some(n) => Ok(replaced(1, Value::Int(ints::narrow(small, n)))),
    }
}

fn compare(frame: &Frame) -> Result<Change, Failure>
    ensures { Tells result frame.now.locals frame.now.stack (two compared widths.Int frame.now.locals (popped_two widths.Long widths.Long frame.now.stack)) }
{
    match two_longs(&frame.stack) {
        None => Err(MISFIT),
        Some((x, y)) => Ok(replaced(4, Value::Int(longs::compare(x, y)))),
    }
}
