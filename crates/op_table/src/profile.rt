ghost use Rattle.std.specs.Prelude.{◌≡◌};
ghost use Rattle.op_table.specs.Support.{support_of};

use crate::{Construct, Op, Support};

/// Whether an opcode is analysed, or as what construct it is not.
pub fn support(op: Op) -> Support
    ensures { result ≡ support_of op }
{
    match op.number() {
        11..=15 | 23..=24 | 34..=41 | 48..=49 | 56..=57 | 67..=74 | 81..=82 => Support::No(
            Construct::Float,
        ),
        98..=99 | 102..=103 | 106..=107 | 110..=111 | 114..=115 | 118..=119 => Support::No(
            Construct::Float,
        ),
        134..=135 | 137..=144 | 149..=152 | 174..=175 => Support::No(Construct::Float),
        168..=169 | 201 => Support::No(Construct::Jsr),
        186 => Support::No(Construct::Dynamic),
        194..=195 => Support::No(Construct::Monitor),
        197 => Support::No(Construct::Multiarray),
        _ => Support::Yes,
    }
}
