ghost use Rattle.std.specs.Prelude.{false, true, ◌||◌};

use lin_rows::{Lin, Row};
use rule_terms::RuleAlgebra;
use std::alloc::AllocError;

/// Whether a rule calls on some way.
#[derive(Drop)]
pub(crate) struct Calling;

impl RuleAlgebra for Calling {
    type Out = bool;

    ghost algebra = { record { stop = false; assume = λ row rest. rest; spend = λ n rest. rest; fresh = λ v rest. rest; call = λ node args rest. true; split = λ first second. first || second } };

    fn stop(&mut self) -> Result<bool, AllocError> {
        Ok(false)
    }

    fn assume(&mut self, _row: &Row, rest: bool) -> Result<bool, AllocError> {
        Ok(rest)
    }

    fn spend(&mut self, _n: u64, rest: bool) -> Result<bool, AllocError> {
        Ok(rest)
    }

    fn fresh(&mut self, _v: u32, rest: bool) -> Result<bool, AllocError> {
        Ok(rest)
    }

    fn call(&mut self, _node: u32, _args: &[Lin], _rest: bool) -> Result<bool, AllocError> {
        Ok(true)
    }

    fn split(&mut self, first: bool, second: bool) -> Result<bool, AllocError> {
        Ok(first || second)
    }
}
