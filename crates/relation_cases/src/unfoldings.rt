//! Base relations. A case has how many sizes each node has, the target, and the nodes' rules, as
//! `1,1 for 0: 0= s1 c1:1,0 .; 1= s2 .`. The answer is each node that has a base relation, with its rules, each ended by `;`, and
//! the nodes that they call, and then the order; or the fault. `ring for N K S` is a ring of N nodes without sizes, each of which
//! calls the next in K rules, behind S spends: the answer is how many rules the first has, and how many items its first rule.

use crate::rules::{add_node, add_rule, nodes_of};
use crate::writing::{put_item, rule_of};
use base_relations::{Direct, UnfoldFault, unfold};
use case_texts::Case;
use lin_rows::{Lin, Sequence};
use relations::{DirectNode, Relations};
use rule_terms::Rule;
use std::alloc::{AllocError, Global};

// Adds the rule of a part of the case, as `0= s1 .`.
fn add_part(case: &mut Case<'_>, relations: &mut Relations, node: &str) {
    let node = case.parsed(node);
    if let Some(rule) = rule_of(case) {
        add_rule(case, relations, node, rule);
    }
}

// The relation whose rules these are.
fn relation_of<'a>(case: &mut Case<'a>, sizes: &str, parts: &'a str) -> Relations {
    let mut relations = nodes_of(case, sizes);
    for part in parts.split("; ") {
        let (node, rule) = part.split_once("= ").unwrap_or(("", ""));
        case.turn_to(rule);
        add_part(case, &mut relations, node);
    }
    relations
}

fn put_node(case: &mut Case<'_>, base: &DirectNode) {
    case.put_word("node");
    case.show_word(&base.node);
    case.put(":");
    for rule in base.rules.as_slice() {
        for item in rule.as_slice() {
            case.put(" ");
            put_item(case, item);
        }
        case.put_word(";");
    }
    case.put_word("calls");
    for called in base.called.as_slice() {
        case.show_word(&called.node);
    }
}

fn put_direct(case: &mut Case<'_>, nodes: u32, direct: &Direct) {
    for node in 0..nodes {
        if let Some(base) = direct.node(node) {
            put_node(case, base);
        }
    }
    case.put_word("order");
    for node in direct.order() {
        case.show_word(node);
    }
}

// How many rules a node has, and how many items the first of them.
fn put_counts(case: &mut Case<'_>, direct: &Direct, node: u32) {
    if let Some(base) = direct.node(node) {
        case.show_word(&base.rules.len());
        if let Some(rule) = base.rules.as_slice().first() {
            case.show_word(&rule.len());
        }
    }
}

fn put_fault(case: &mut Case<'_>, fault: &UnfoldFault) {
    match fault {
        UnfoldFault::NoCover { avoided } => {
            case.put_word("no cover");
            for node in avoided.as_slice() {
                case.show_word(node);
            }
        }
        UnfoldFault::TooManyRules => case.put_word("rules"),
        UnfoldFault::TooLongRule => case.put_word("items"),
        UnfoldFault::TooManyFresh => case.put_word("fresh"),
        UnfoldFault::TooManyRows => case.put_word("rows"),
        UnfoldFault::TooLarge => case.put_word("number"),
        UnfoldFault::Memory => case.put_word("memory"),
    }
}

// What comes of a relation and a target.
fn tell(case: &mut Case<'_>, relations: &Relations, target: u32) {
    if target >= relations.nodes() {
        case.malformed("no such target");
        return;
    }
    match unfold(case.alloc(), relations, target) {
        Ok(direct) => put_direct(case, relations.nodes(), &direct),
        Err(fault) => put_fault(case, &fault),
    }
}

// So many spends of 1, then a call of a node without sizes.
fn calling(alloc: Global, spends: u32, node: u32) -> Result<Rule, AllocError> {
    let args: Sequence<Lin> = Sequence::new(alloc);
    let mut rule = Rule::Call(node, args, Box::new(alloc, Rule::Stop)?);
    for _ in 0..spends {
        rule = Rule::Spend(1, Box::new(alloc, rule)?);
    }
    Ok(rule)
}

// A ring of nodes without sizes: each calls the next in so many rules, each behind so many spends.
fn ring(case: &mut Case<'_>, count: u32, rules: u32, spends: u32) -> Relations {
    let mut relations = Relations::new(case.alloc());
    for _ in 0..count {
        add_node(case, &mut relations, Vec::new(case.alloc()));
    }
    for node in 0..count {
        for _ in 0..rules {
            let next = if node + 1 < count { node + 1 } else { 0 };
            let rule = calling(case.alloc(), spends, next);
            if let Some(rule) = case.made(rule) {
                add_rule(case, &mut relations, node, rule);
            }
        }
    }
    relations
}

// What comes of a ring of nodes.
fn tell_ring(case: &mut Case<'_>) {
    let (count, rules, spends) = (case.number(), case.number(), case.number());
    let relations = ring(case, count, rules, spends);
    if relations.nodes() == 0 {
        case.malformed("no node");
        return;
    }
    match unfold(case.alloc(), &relations, 0) {
        Ok(direct) => put_counts(case, &direct, 0),
        Err(fault) => put_fault(case, &fault),
    }
}

/// Answers the case.
pub(crate) fn answer(case: &mut Case<'_>) {
    let sizes = case.until(" for ");
    if sizes == "ring" {
        tell_ring(case);
        return;
    }
    let target = case.until(": ");
    let target = case.parsed(target);
    let parts = case.rest();
    let relations = relation_of(case, sizes, parts);
    tell(case, &relations, target);
}
