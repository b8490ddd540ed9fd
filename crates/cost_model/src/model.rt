ghost use Rattle.std.specs.Prelude.{◌≡◌, ◌≤◌, replicate};
ghost use Rattle.cost_model.specs.Costs.{Answers, IsTable, cost_at, cost_of};

use crate::{CostFunction, EachOne};
use op_table::{Instr, Op};
use std::marker::Model;

/// The cost of each opcode, as a function answers it. Contracts see the table of the costs, by the opcodes from
/// 0 to 201; each is at most 1,000,000.
#[derive(Drop)]
pub struct CostModel<F: CostFunction> {
    cost: F,
    table: [u64; 202],
}

impl<F: CostFunction> Model for CostModel<F> {
    ghost use Rattle.std.specs.Prelude.{List, ℕ};
    ghost use Rattle.cost_model.specs.Costs.{Answers, IsTable};

    ghost Value = { List ℕ };

    ghost view = { λ m. m.table };

    ghost invariant = { λ m. IsTable m.table × Answers (F.can_answer m.cost) (F.answers m.cost) m.table };
}

impl CostModel<EachOne> {
    /// The model in which each instruction costs 1.
    pub fn counting() -> Self
        ensures { result ≡ replicate 202 1 }
    {
        CostModel::new(EachOne, [1; 202])
    }
}

impl<F: CostFunction> CostModel<F> {
    /// The model of a function that answers the table.
    pub fn new(cost: F, table: [u64; 202]) -> Self
        requires small { IsTable table }
        requires answered { Answers (F.can_answer cost) (F.answers cost) table }
        ensures { result ≡ table }
    {
        CostModel { cost, table }
    }

    /// The cost of an opcode.
    pub fn charge(&self, op: Op) -> u64
        ensures value { result ≡ cost_at self.now op }
        ensures bound { result ≤ 1000000 }
    {
        self.cost.answer(op.number())
    }

    /// The cost of an instruction.
    pub fn charge_instr(&self, instr: &Instr) -> u64
        ensures value { result ≡ cost_of self.now instr.now }
        ensures bound { result ≤ 1000000 }
    {
        self.charge(instr.op)
    }

    /// A law: what contracts see is a table of costs.
    pub fn is_table(&self)
        ensures { IsTable self.now }
    {
        let _ = &self.table;
    }
}
