//! The steps that calls of a node by itself make.

ghost use Rattle.std.specs.Prelude.{◌≡◌, ◌++◌, ◌∷◌, [], List, IfOk, OnOk};
ghost use Rattle.rule_terms.specs.declared.item.Item.{Item};
ghost use Rattle.rankings.specs.SelfCalls.{self_steps};
ghost use Rattle.node_certificates.specs.inside.Steps.{steps_from, all_steps};

use lin_rows::{Lin, Row, Sequence, Transition};
use relations::DirectNode;
use rule_terms::{Item, RulePath};
use std::alloc::{AllocError, Global};

/// The same rows again.
fn copied_rows(alloc: Global, rows: &[Row]) -> Result<Sequence<Row>, AllocError>
    ensures { IfOk result (λ made. made ≡ rows.now) }
{
    let mut made = Sequence::new(alloc);
    for row in rows {
        made.push(row.clone()?)?;
    }
    Ok(made)
}

/// The same expressions again.
fn copied_lins(alloc: Global, lins: &[Lin]) -> Result<Sequence<Lin>, AllocError>
    ensures { IfOk result (λ made. made ≡ lins.now) }
{
    let mut made = Sequence::new(alloc);
    for lin in lins {
        made.push(lin.clone()?)?;
    }
    Ok(made)
}

/// The step that a call makes behind these rows.
fn step_of(
    alloc: Global,
    rows: &Sequence<Row>,
    args: &Sequence<Lin>,
) -> Result<Transition, AllocError>
    ensures { IfOk result (λ step. step ≡ record { rows = rows.now; next = args.now }) }
{
    let rows = copied_rows(alloc, rows.as_slice())?;
    let next = copied_lins(alloc, args.as_slice())?;
    Ok(Transition { rows, next })
}

/// Adds a row, or the step of a self call, that an item is.
fn add_item(
    alloc: Global,
    me: u32,
    item: &Item,
    rows: &mut Sequence<Row>,
    steps: &mut Sequence<Transition>,
) -> Result<(), AllocError>
    ensures { OnOk result ((rest : List Item) → steps.new ++ steps_from me rows.new rest ≡ steps.old ++ steps_from me rows.old (item.now ∷ rest)) }
{
    match item {
        Item::Assume(row) => {
            rows.push(row.clone()?)?;
            Ok(())
        }
        Item::Spend(_) => Ok(()),
        Item::Fresh(_) => Ok(()),
        Item::Call(node, args) => {
            if *node == me {
                steps.push(step_of(alloc, rows, args)?)?;
            }
            Ok(())
        }
    }
}

/// Adds the steps of a rule.
fn add_rule(
    alloc: Global,
    me: u32,
    rule: &[Item],
    steps: &mut Sequence<Transition>,
) -> Result<(), AllocError>
    ensures { OnOk result (steps.new ≡ steps.old ++ steps_from me [] rule.now) }
{
    let mut rows = Sequence::new(alloc);
    for item in rule {
        add_item(alloc, me, item, &mut rows, steps)?;
    }
    Ok(())
}

/// The steps of rules.
fn rules_steps(
    alloc: Global,
    me: u32,
    rules: &[RulePath],
) -> Result<Sequence<Transition>, AllocError>
    ensures { IfOk result (λ steps. steps ≡ all_steps me rules.now) }
{
    let mut steps = Sequence::new(alloc);
    for rule in rules {
        add_rule(alloc, me, rule.as_slice(), &mut steps)?;
    }
    Ok(steps)
}

/// The steps that calls of the node by itself make, in the order of rules and calls.
pub fn self_steps(alloc: Global, node: &DirectNode) -> Result<Sequence<Transition>, AllocError>
    ensures { IfOk result (λ steps. steps ≡ self_steps node.now.node node.now.rules) }
{
    rules_steps(alloc, node.node, node.rules.as_slice())
}
