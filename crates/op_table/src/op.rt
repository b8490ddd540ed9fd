ghost use Rattle.std.specs.Prelude.{◌≡◌, ◌≤◌, nat_le, Some, None, if◌then◌else◌};
ghost use Rattle.op_table.specs.Names.{name_of};

use crate::names::name_at;
use std::marker::Model;

/// An opcode: a number from 0 to 201 (JVMS 7). Contracts see the number.
#[derive(Clone, Copy, Debug, PartialEq, Eq)]
pub struct Op {
    number: u8,
}

impl Model for Op {
    ghost use Rattle.std.specs.Prelude.{ℕ, ◌≤◌};

    ghost Value = { ℕ };

    ghost view = { λ op. op.number };

    ghost inverse = { λ number. record { number = number } };

    ghost invariant = { λ op. op.number ≤ 201 };
}

impl Op {
    /// The opcode of a number: none exactly where the number is above 201.
    pub fn from_number(number: u8) -> Option<Op>
        ensures { result ≡ (if nat_le number 201 then Some number else None) }
    {
        if number <= 201 {
            Some(Op { number })
        } else {
            None
        }
    }

    // The opcode of a number that is one.
    pub(crate) fn known(number: u8) -> Op
        requires { number ≤ 201 }
        ensures { result ≡ number }
    {
        Op { number }
    }

    /// The opcode's number.
    pub fn number(&self) -> u8
        ensures value { result ≡ self.now }
        ensures bound { result ≤ 201 }
    {
        self.number
    }

    /// The opcode's mnemonic (JVMS 7).
    pub fn name(&self) -> &'static str
        ensures { result.now ≡ name_of self.now }
    {
        name_at(self.number)
    }
}
