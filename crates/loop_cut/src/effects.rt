//! What an instruction stores to.

ghost use Rattle.std.specs.Prelude.{◌≡◌, ◌++◌, OnOk};
ghost use Rattle.loop_cut.specs.Effects.{stored_by};

use op_table::acts::{Action, Kind};
use std::alloc::AllocError;

/// Adds the locals that an instruction that does this stores to: both words of a long (JVMS 6.5).
pub fn stored_by(action: Action, slots: &mut Vec<u32>) -> Result<(), AllocError>
    ensures { OnOk result (slots.new.items ≡ slots.old.items ++ stored_by action) }
{
    match action {
        Action::Store(Kind::Long, n) => {
            slots.push(u32::from(n))?;
            slots.push(u32::from(n) + 1)?;
        }
        Action::Store(_, n) => slots.push(u32::from(n))?,
        Action::Increment(n, _) => slots.push(u32::from(n))?,
        _ => {}
    }
    Ok(())
}
