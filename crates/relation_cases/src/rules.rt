//! Paths and folds of rules, and what comes of rules that are added.

use crate::calling::Calling;
use crate::deep::comb;
use crate::writing::{put_item, rule_of};
use case_texts::Case;
use class_pool::{Target, Text};
use relations::{NodeName, RelFault, Relations};
use rule_terms::{Rule, RulePath, fold, paths};
use std::alloc::{AllocError, Global};

// A case has at most so many nodes.
const MOST_NODES: u32 = 10_000;

fn put_path(case: &mut Case<'_>, path: &RulePath) {
    for item in path.as_slice() {
        put_item(case, item);
        case.put(" ");
    }
    case.put(";");
}

// The ways through a rule, each ended by `;`.
fn put_paths(case: &mut Case<'_>, rule: &Rule) {
    let ways = paths(case.alloc(), rule);
    if let Some(ways) = case.made(ways) {
        for path in &ways {
            put_path(case, path);
        }
    }
}

// Whether a rule calls.
fn put_calls(case: &mut Case<'_>, rule: &Rule) {
    let calls = fold(case.alloc(), rule, &mut Calling);
    if let Some(calls) = case.made(calls) {
        case.show_word(&calls);
    }
}

fn name_of(alloc: Global) -> Result<NodeName, AllocError> {
    let target = Target {
        class: Text::from_slice(alloc, b"A")?,
        method: Text::from_slice(alloc, b"m")?,
        desc: Text::from_slice(alloc, b"()V")?,
    };
    Ok(NodeName { target, pc: None })
}

/// Adds a node of these sizes.
pub(crate) fn add_node(case: &mut Case<'_>, relations: &mut Relations, lengths: Vec<bool>) {
    if relations.nodes() >= MOST_NODES {
        case.malformed("too many nodes");
        return;
    }
    let Ok(name) = name_of(case.alloc()) else {
        return;
    };
    match relations.add_node(name, lengths) {
        Ok(_) => {}
        Err(RelFault::TooManySizes) => case.malformed("too many sizes"),
        Err(_) => case.malformed("a node is refused"),
    }
}

/// A node for each number, of so many sizes.
pub(crate) fn nodes_of(case: &mut Case<'_>, text: &str) -> Relations {
    let mut relations = Relations::new(case.alloc());
    for word in text.split(',') {
        let count: usize = case.parsed(word);
        let lengths = vec![in case.alloc(); false; count];
        if let Some(lengths) = case.made(lengths) {
            add_node(case, &mut relations, lengths);
        }
    }
    relations
}

/// Adds a rule to a node, which takes it.
pub(crate) fn add_rule(case: &mut Case<'_>, relations: &mut Relations, node: u32, rule: Rule) {
    if relations.add_rule(node, rule).is_err() {
        case.malformed("a rule is refused");
    }
}

// Adds a rule to a node, and tells what comes of it.
fn put_added(case: &mut Case<'_>, relations: &mut Relations, node: u32, rule: Rule) {
    match relations.add_rule(node, rule) {
        Ok(()) => case.put_word("ok"),
        Err(RelFault::Arity) => case.put_word("arity"),
        Err(RelFault::Range) => case.put_word("range"),
        Err(RelFault::TooManySizes) => case.put_word("sizes"),
        Err(RelFault::TooManyTerms) => case.put_word("terms"),
        Err(RelFault::Memory) => case.put_word("memory"),
    }
}

// What comes of a rule that is added: the sizes of the nodes, a node and the rule, as `2,1 to 0: s1 .`.
fn tell_added(case: &mut Case<'_>) {
    let sizes = case.until(" to ");
    let mut relations = nodes_of(case, sizes);
    let node = case.until(": ");
    let node = case.parsed(node);
    if let Some(rule) = rule_of(case) {
        put_added(case, &mut relations, node, rule);
    }
}

// What comes of nodes with so many sizes.
fn tell_sized(case: &mut Case<'_>) {
    let sizes = case.rest();
    let relations = nodes_of(case, sizes);
    let (mut names, mut marks, mut rules) = (0usize, 0usize, 0usize);
    for node in 0..relations.nodes() {
        names = names.wrapping_add(relations.name(node).target.class.as_slice().len());
        marks = marks.wrapping_add(relations.lengths(node).len());
        rules = rules.wrapping_add(relations.rules(node).len());
    }
    case.show_word(&names);
    case.show_word(&marks);
    case.show_word(&rules);
}

// What comes of a long rule with many ends: whether it calls, and of adding it.
fn tell_long(case: &mut Case<'_>, is_first: bool) {
    let (items, ends) = (case.number(), case.number());
    let rule = comb(case.alloc(), items, ends, is_first);
    if let Some(rule) = case.made(rule) {
        put_calls(case, &rule);
        let mut relations = nodes_of(case, "0");
        put_added(case, &mut relations, 0, rule);
    }
}

// What a rule is, by its ways or its calls.
fn tell(case: &mut Case<'_>, word: &str) {
    let Some(rule) = rule_of(case) else {
        return;
    };
    match word {
        "paths" => put_paths(case, &rule),
        _ => put_calls(case, &rule),
    }
}

/// Answers the case.
pub(crate) fn answer(case: &mut Case<'_>) {
    match case.word() {
        "add" => tell_added(case),
        "long" => tell_long(case, false),
        "long_first" => tell_long(case, true),
        "nodes" => tell_sized(case),
        word => tell(case, word),
    }
}
