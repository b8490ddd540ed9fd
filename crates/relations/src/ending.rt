ghost use Rattle.std.specs.Prelude.{◌≡◌, Some, [], ◌∷◌, ◌++◌, OnOk, OnErr, option_map};
ghost use Rattle.relations.specs.Ending.{path_at, IsPath};

use lin_rows::{Lin, Sequence};
use std::alloc::{AllocError, Global};
use std::marker::Model;

/// How a path ends.
#[derive(Drop)]
pub enum End {
    /// The method returns, or the loop is left: by this exit, with these values.
    Out { exit: u32, values: Sequence<Lin> },
    /// Another head of the same loop or method is called last.
    Tail,
    /// A throw ends the method.
    Thrown,
}

/// A call on a path that isn't last: its place among the items from 0, the exit by which the called
/// node is left, and the variables that have its values.
#[derive(Drop)]
pub struct CallPart {
    pub item: u32,
    pub exit: u32,
    pub fresh: Sequence<u32>,
}

/// How a path ends, and what is known of its calls, in their order.
#[derive(Drop)]
pub struct PathEnd {
    pub end: End,
    pub calls: Sequence<CallPart>,
}

/// For each node, how the ways through its rules end, in the order of the rules and of each rule's paths.
#[derive(Drop)]
pub struct Ends {
    nodes: Vec<Sequence<PathEnd>>,
}

impl Model for Ends {
    ghost use Rattle.relations.specs.Ending.{PathEnds};

    ghost Value = { PathEnds };

    ghost view = { λ e. e.nodes.items };
}

impl Ends {
    /// No node yet. Takes no memory.
    pub fn new(alloc: Global) -> Ends
        ensures { result ≡ [] }
    {
        Ends {
            nodes: Vec::new(alloc),
        }
    }

    /// Adds the next node, with the ends of its paths. An `Err` changes nothing.
    pub fn add_node(&mut self, paths: Sequence<PathEnd>) -> Result<(), AllocError>
        ensures ok { OnOk result (self.new ≡ self.old ++ paths ∷ []) }
        ensures err { OnErr result (self.new ≡ self.old) }
    {
        self.nodes.push(paths)?;
        Ok(())
    }

    /// How a path ends.
    pub fn of(&self, node: u32, path: u32) -> &End
        requires { IsPath self.now node path }
        ensures { option_map (λ p. p.end) (path_at self.now node path) ≡ Some result.now }
    {
        &self.nodes[node as usize].as_slice()[path as usize - 1].end
    }

    /// What is known of a path's calls.
    pub fn calls(&self, node: u32, path: u32) -> &[CallPart]
        requires { IsPath self.now node path }
        ensures { option_map (λ p. p.calls) (path_at self.now node path) ≡ Some result.now }
    {
        self.nodes[node as usize].as_slice()[path as usize - 1]
            .calls
            .as_slice()
    }
}
