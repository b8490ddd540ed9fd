ghost use Rattle.std.specs.Prelude.{IfOk};
ghost use Rattle.null_facts.specs.Found.{AreNullFacts};
ghost use Rattle.null_facts.specs.Program.{AreCalls};

use crate::building::{edges, firsts, receiver_of, sizes};
use crate::known::NullFacts;
use crate::method::NullMethod;
use null_flow::NullFlow;
use std::alloc::{AllocError, Global};

/// Which slots hold no null at each place of a program's code, of which the first method is the one that is asked for: the
/// least solution (Kildall 1973). `Err` is want of memory, and so are 2^32 places or edges and more.
pub fn solve(alloc: Global, methods: &[NullMethod<'_, '_>]) -> Result<NullFacts, AllocError>
    requires { AreCalls methods.now }
    ensures { IfOk result (λ found. AreNullFacts methods.now found) }
{
    let firsts = firsts(alloc, methods)?;
    let edges = edges(alloc, firsts.as_slice(), methods)?;
    let sizes = sizes(alloc, methods)?;
    let flow = NullFlow::new(receiver_of(methods), sizes, edges)?;
    let facts = fix_engine::solve(alloc, &flow)?;
    Ok(NullFacts::of(facts, firsts))
}
