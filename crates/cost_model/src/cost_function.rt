ghost use Rattle.std.specs.Prelude.{◌≡◌, ℕ};

/// A function from opcodes to costs. The two members are what is known of its calls.
pub trait CostFunction: Drop {
    /// It can be called at an opcode.
    ghost can_answer: { Self → ℕ → Type 0 };

    /// A call at an opcode may give this cost.
    ghost answers: { Self → ℕ → ℕ → Type 0 };

    /// The cost of an opcode.
    fn answer(&self, opcode: u8) -> u64
        requires { can_answer self.now opcode }
        ensures { answers self.now opcode result };
}

/// Each opcode costs 1.
#[derive(Drop)]
pub struct EachOne;

impl CostFunction for EachOne {
    ghost can_answer = { λ _ _. Unit {0} };

    ghost answers = { λ _ _ cost. cost ≡ 1 };

    fn answer(&self, _opcode: u8) -> u64 {
        1
    }
}
