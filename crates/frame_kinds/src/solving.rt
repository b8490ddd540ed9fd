ghost use Rattle.std.specs.Prelude.{◌≡◌, length, IfOk, IfErr};
ghost use Rattle.frame_kinds.specs.Disagreeing.{AreKinds, IsFault};

use crate::disagreeing::{first_disagreement, frames_told};
use crate::fault::KindFault;
use crate::flow::KindFlow;
use crate::known::Kinds;
use fix_engine::solve;
use method_body::Body;
use std::alloc::Global;

/// The least kinds of a method's frames at each place of its code (Kildall 1973).
///
/// # Errors
///
/// `Disagree` exactly where frames of different heights come to an instruction, or the least kinds say nothing of a slot
/// that an instruction uses; `Memory` where memory runs out, or the code has 2^32 edges or more.
pub fn kinds(alloc: Global, body: &Body<'_>) -> Result<Kinds, KindFault>
    ensures kinds { IfOk result (λ found. AreKinds body.now found) }
    ensures count { IfOk result (λ found. length found ≡ length body.now.code.bytes) }
    ensures fault { IfErr result (λ fault. IsFault body.now fault) }
{
    body.well_made();
    let flow = KindFlow::new(alloc, body)?;
    let facts = solve(alloc, &flow)?;
    let Some(pc) = first_disagreement(body, &facts) else {
        return Ok(Kinds::of(facts));
    };
    let (first, second) = frames_told(alloc, &flow, &facts, pc)?;
    Err(KindFault::Disagree { pc, first, second })
}
