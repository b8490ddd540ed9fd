ghost use Rattle.std.specs.Prelude.{◌≡◌, ◌≢◌, ◌↔◌, ◌<◌, ◌≤◌, ◌^◌, ◌+◌, ℕ, Some, None, Ok, Err, [], ◌∷◌, ◌++◌, length, map, slice_get, OnOk, OnErr, IfOk, IfSome};
ghost use Rattle.rule_terms.specs.Terms.{term_of};
ghost use Rattle.relations.specs.declared.fault.RelFault.TheVariants as faults;
ghost use Rattle.relations.specs.declared.node.Node as nodes;
ghost use Rattle.relations.specs.Scope.{IsRelation, rule_fault, added_rule};

use crate::fault::RelFault;
use crate::name::NodeName;
use crate::node::Node;
use crate::walk::walk;
use lin_rows::Sequence;
use rule_terms::Rule;
use std::alloc::Global;
use std::marker::Model;

// The greatest number of sizes of a node.
const SIZE_LIMIT: usize = 32;

/// Nodes, numbered from 0, each with its rules. What a row or an argument names is bound, and each call fits.
#[derive(Drop)]
pub struct Relations {
    alloc: Global,
    nodes: Vec<Node>,
    terms: u64,
}

impl Model for Relations {
    ghost use Rattle.std.specs.Prelude.{◌≡◌, ◌≤◌, ◌^◌, length};
    ghost use Rattle.relations.specs.Relation.{Relation};
    ghost use Rattle.relations.specs.Scope.{IsRelation, terms_of};
    ghost use Rattle.rule_terms.specs.contracts.rule.Rule as rule;
    ghost use Rattle.std.specs.Coded.{codes};

    ghost Value = { Relation };

    ghost coded = { Prim.hlevel (codes, rule.the_row.coded) };

    ghost view = { λ r. r.nodes.items };

    ghost invariant = { λ r. IsRelation r.nodes.items × (length r.nodes.items ≤ 2 ^ 31) × (r.terms ≡ terms_of r.nodes.items) };
}

impl Relations {
    /// No node yet. Takes no memory.
    pub fn new(alloc: Global) -> Relations
        ensures { result ≡ [] }
    {
        Relations {
            alloc,
            nodes: Vec::new(alloc),
            terms: 0,
        }
    }

    /// Adds a node, with a mark for each size that is a length, and answers its number. An `Err` changes nothing.
    pub fn add_node(&mut self, name: NodeName, lengths: Vec<bool>) -> Result<u32, RelFault>
        requires { length self.old < 2 ^ 31 }
        ensures ok { OnOk result (self.new ≡ self.old ++ record { name = name; lengths = lengths.items; rules = [] } ∷ []) }
        ensures number { IfOk result (λ n. n ≡ length self.old) }
        ensures err { OnErr result (self.new ≡ self.old) }
        // Which error comes, and when: memory is free.
        ensures too_many { result ≡ Err faults.TooManySizes → 32 < length lengths.items }
        ensures few { OnOk result (length lengths.items ≤ 32) }
        ensures no_other { (e : RelFault) → result ≡ Err e → e ≢ faults.Memory → e ≡ faults.TooManySizes }
    {
        if lengths.len() > SIZE_LIMIT {
            return Err(RelFault::TooManySizes);
        }
        let number = self.nodes.len() as u32;
        let rules = Sequence::new(self.alloc);
        self.nodes.push(Node {
            name,
            lengths: Sequence::from(lengths),
            rules,
        })?;
        Ok(number)
    }

    /// Adds a rule behind the rules of a node. An `Err` changes nothing.
    pub fn add_rule(&mut self, node: u32, r: Rule) -> Result<(), RelFault>
        ensures ok { OnOk result (self.new ≡ added_rule self.old node r) }
        ensures err { OnErr result (self.new ≡ self.old) }
        // No rule with a fault is added, and a fault is the rule's first.
        ensures sound { OnOk result (rule_fault self.old node (term_of r) ≡ None) }
        ensures fault { (e : RelFault) → result ≡ Err e → e ≢ faults.Memory → rule_fault self.old node (term_of r) ≡ Some e }
    {
        let at = node as usize;
        let nodes = self.nodes.as_slice();
        if at >= nodes.len() {
            return Err(RelFault::Range);
        }
        let sizes = nodes[at].lengths.len() as u32;
        let terms = walk(self.alloc, nodes, sizes, self.terms, &r)?;
        self.nodes[at].rules.push(r)?;
        self.terms = terms;
        Ok(())
    }

    /// How many nodes there are. Each rule is in scope.
    pub fn nodes(&self) -> u32
        ensures count { result ≡ length self.now }
        ensures scoped { IsRelation self.now }
    {
        let _nodes = &self.nodes;
        self.nodes.len() as u32
    }

    /// The name of a node.
    pub fn name(&self, node: u32) -> &NodeName
        requires { node < length self.now }
        ensures { slice_get (map (λ (held : nodes.Node). held.name) self.now) node ≡ Some result.now }
    {
        &self.nodes[node as usize].name
    }

    /// Which of a node's sizes are lengths.
    pub fn lengths(&self, node: u32) -> &[bool]
        requires { node < length self.now }
        ensures { slice_get (map (λ (held : nodes.Node). held.lengths) self.now) node ≡ Some result.now }
    {
        self.nodes[node as usize].lengths.as_slice()
    }

    /// The rules of a node, in the order in which they were added.
    pub fn rules(&self, node: u32) -> &[Rule]
        requires { node < length self.now }
        ensures { slice_get (map (λ (held : nodes.Node). held.rules) self.now) node ≡ Some result.now }
    {
        self.nodes[node as usize].rules.as_slice()
    }
}
