ghost use Rattle.std.specs.Prelude.{◌≡◌};
ghost use Rattle.code_flow.specs.Plans.{plans_of};
ghost use Rattle.code_flow.specs.Program.{AreWhole, IsCalleesFirst};

use class_pool::Sequence;
use method_body::Body;
use std::marker::Model;
use world::MemberId;

/// A method that is reached, with its body.
#[derive(Drop)]
pub struct Reached<'w> {
    pub method: MemberId,
    pub body: Body<'w>,
    /// The methods that each instruction of the body can call, in the order of the names of their classes; none where it is
    /// no call, or a call without a target.
    pub targets: Sequence<Sequence<MemberId>>,
}

/// The code that a method reaches: the methods in breadth-first order, the method itself first. Contracts see their
/// list.
#[derive(Drop)]
pub struct Program<'w> {
    methods: Vec<Reached<'w>>,
    order: Vec<u32>,
}

impl<'w> Model for Program<'w> {
    ghost use Rattle.std.specs.Prelude.{List};
    ghost use Rattle.code_flow.specs.declared.program.Reached.{Reached as Method};
    ghost use Rattle.code_flow.specs.Plans.{plans_of};
    ghost use Rattle.code_flow.specs.Program.{AreWhole, IsCalleesFirst};

    ghost Value = { List Method };

    ghost view = { λ p. p.methods.items };

    ghost invariant = { λ p. AreWhole p.methods.items × IsCalleesFirst (plans_of p.methods.items) p.order.items };
}

impl<'w> Program<'w> {
    /// The program of these methods, with an order of them.
    pub(crate) fn new(methods: Vec<Reached<'w>>, order: Vec<u32>) -> Self
        requires whole { AreWhole methods.items }
        requires order { IsCalleesFirst (plans_of methods.items) order.items }
        ensures { result ≡ methods.entry.items }
    {
        Program { methods, order }
    }

    /// The methods in breadth-first order, the method that is asked for first.
    pub fn methods(&self) -> &[Reached<'w>]
        ensures { result.now ≡ self.now }
    {
        self.methods.as_slice()
    }

    /// The numbers of the methods, each behind those that it calls.
    pub fn callees_first(&self) -> &[u32]
        ensures { IsCalleesFirst (plans_of self.now) result.now }
    {
        self.order.as_slice()
    }

    /// A law: what each program is. Does nothing.
    pub fn well_made(&self)
        ensures { AreWhole self.now }
    {
        let _ = &self.methods;
    }
}
