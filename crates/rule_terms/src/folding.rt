ghost use Rattle.std.specs.Prelude.{◌≡◌, IfOk};
ghost use Rattle.rule_terms.specs.Terms.{term_of};
ghost use Rattle.rule_terms.specs.Algebra.{fold_of};
ghost use Rattle.rule_terms.specs.inside.Frames.{Descends, Applies, Rises};

use crate::algebra::RuleAlgebra;
use crate::rule::Rule;
use crate::stack::Stack;
use lin_rows::{Lin, Row, Sequence};
use std::alloc::{AllocError, Global};

/// What is to be done once a part of a rule is folded: the item before it, or the split that it is a
/// part of.
#[derive(Drop)]
pub(crate) enum Frame<'a, Out> {
    Assume(&'a Row),
    Spend(u64),
    Fresh(u32),
    Call(u32, &'a Sequence<Lin>),
    /// The part is the first of a split; this is the second.
    First(&'a Rule),
    /// The part is the second of a split; this was made of the first.
    Second(Out),
}

/// How far what was made of a part goes by itself.
#[derive(Drop)]
pub(crate) enum Risen<'a, Out> {
    Whole(Out),
    /// It was made of a split's first part, and this is the second.
    Waits(Out, &'a Rule),
}

/// What an algebra makes of a rule. The rule may be as deep as memory allows. `Err` is want of memory; the algebra is
/// then as its own functions left it.
pub fn fold<A: RuleAlgebra>(alloc: Global, rule: &Rule, a: &mut A) -> Result<A::Out, AllocError>
    ensures { IfOk result (λ out. out ≡ fold_of A.algebra (term_of rule.now)) }
{
    let mut frames = Stack::new(alloc);
    let mut below = rule;
    loop {
        descend(&mut frames, below)?;
        let end = a.stop()?;
        match rise(&mut frames, end, a)? {
            Risen::Whole(out) => return Ok(out),
            Risen::Waits(first, second) => {
                frames.push(Frame::Second(first))?;
                below = second;
            }
        }
    }
}

// Goes down to the first end, and leaves a frame for each item and split on the way.
fn descend<'a, Out: Drop>(
    frames: &mut Stack<Frame<'a, Out>>,
    rule: &'a Rule,
) -> Result<(), AllocError>
    ensures { IfOk result (λ _. Descends frames.old frames.new (term_of rule.now)) }
{
    let mut below = rule;
    loop {
        match below {
            Rule::Stop => return Ok(()),
            Rule::Assume(row, rest) => {
                frames.push(Frame::Assume(row))?;
                below = rest;
            }
            Rule::Spend(n, rest) => {
                frames.push(Frame::Spend(*n))?;
                below = rest;
            }
            Rule::Fresh(v, rest) => {
                frames.push(Frame::Fresh(*v))?;
                below = rest;
            }
            Rule::Call(node, args, rest) => {
                frames.push(Frame::Call(*node, args))?;
                below = rest;
            }
            Rule::Split(first, second) => {
                frames.push(Frame::First(second))?;
                below = first;
            }
        }
    }
}

// Goes up to the next second part of a split, or to the whole.
fn rise<'a, A: RuleAlgebra>(
    frames: &mut Stack<Frame<'a, A::Out>>,
    out: A::Out,
    a: &mut A,
) -> Result<Risen<'a, A::Out>, AllocError>
    ensures { IfOk result (Rises A.algebra frames.old frames.new out) }
{
    let mut out = out;
    while let Some(frame) = frames.pop() {
        match apply(frame, out, a)? {
            Risen::Whole(made) => out = made,
            Risen::Waits(first, second) => return Ok(Risen::Waits(first, second)),
        }
    }
    Ok(Risen::Whole(out))
}

// What a frame makes of what was made of its part.
fn apply<'a, A: RuleAlgebra>(
    frame: Frame<'a, A::Out>,
    out: A::Out,
    a: &mut A,
) -> Result<Risen<'a, A::Out>, AllocError>
    ensures { IfOk result (Applies A.algebra frame.entry out) }
{
    let made = match frame {
        Frame::Assume(row) => a.assume(row, out)?,
        Frame::Spend(n) => a.spend(n, out)?,
        Frame::Fresh(v) => a.fresh(v, out)?,
        Frame::Call(node, args) => a.call(node, args.as_slice(), out)?,
        Frame::First(second) => return Ok(Risen::Waits(out, second)),
        Frame::Second(first) => a.split(first, out)?,
    };
    Ok(Risen::Whole(made))
}
