ghost use Rattle.std.specs.Prelude.{◌≡◌, IfOk};

use lin_rows::{Lin, Row};
use std::alloc::AllocError;

/// What is made of a rule, from its ends up. Each function makes a value from an item and from what
/// was made of the rule behind it. `Err` is want of memory. A pass that can refuse says so in its
/// `Out`. An algebra that allocates keeps its allocator.
pub trait RuleAlgebra {
    ghost use Rattle.rule_terms.specs.Algebra.{Algebra};

    type Out: Drop;

    // What the functions answer: it depends on what they are given alone.
    ghost algebra: { Algebra Self.Out };

    /// At an end.
    fn stop(&mut self) -> Result<Self::Out, AllocError>
        ensures { IfOk result (λ out. out ≡ algebra.stop) };

    /// At a row that is asked to hold.
    fn assume(&mut self, row: &Row, rest: Self::Out) -> Result<Self::Out, AllocError>
        ensures { IfOk result (λ out. out ≡ algebra.assume row.now rest) };

    /// At an amount that is spent.
    fn spend(&mut self, n: u64, rest: Self::Out) -> Result<Self::Out, AllocError>
        ensures { IfOk result (λ out. out ≡ algebra.spend n rest) };

    /// At a variable that is made.
    fn fresh(&mut self, v: u32, rest: Self::Out) -> Result<Self::Out, AllocError>
        ensures { IfOk result (λ out. out ≡ algebra.fresh v rest) };

    /// At a call.
    fn call(&mut self, node: u32, args: &[Lin], rest: Self::Out) -> Result<Self::Out, AllocError>
        ensures { IfOk result (λ out. out ≡ algebra.call node args.now rest) };

    /// At a split.
    fn split(&mut self, first: Self::Out, second: Self::Out) -> Result<Self::Out, AllocError>
        ensures { IfOk result (λ out. out ≡ algebra.split first second) };
}
