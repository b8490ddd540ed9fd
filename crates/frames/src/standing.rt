//! The instruction that comes next (JVMS 2.11).

ghost use Rattle.std.specs.Prelude.{◌≡◌, ◌+◌, ◌<◌, ◌≤◌, length, IfSome, Ok, option_map};
ghost use Rattle.std.specs.Result.{result_ok};
ghost use Rattle.op_table.specs.Grammar.{instr_at};
ghost use Rattle.class_hierarchy.specs.World.{class_at};
ghost use Rattle.frames.specs.Standing.{StandsAt, standing_at};

use crate::Frame;
use class_reader::{ClassRecord, Code, Method};
use op_table::{Instr, decode};
use std::marker::Model;
use world::World;

/// The instruction that comes next: where it stands, and where the one behind it does.
#[derive(Drop)]
pub struct Fetched<'w> {
    pub class: &'w ClassRecord,
    pub method: &'w Method,
    pub code: &'w Code,
    pub instr: Instr,
    /// The place behind the instruction.
    pub next: u32,
}

impl<'w> Model for Fetched<'w> {
    ghost use Rattle.frames.specs.Standing.{Fetch};

    ghost Value = { Fetch };

    ghost view = { λ t. record {
      standing = record { class = t.class.now; method = t.method.now; code = t.code.now; instr = t.instr };
      next = t.next;
    } };
}

// The instruction at a place of a code, if one stands there.
#[tactic(auto, using(crate::proofs::Behind::none_behind))]
fn instr_in(code: &Code, pc: u32) -> Option<Instr>
    requires { length code.now.bytes ≤ 65535 }
    ensures same { result ≡ result_ok (instr_at code.now.bytes pc) }
    ensures within { IfSome result (λ i. pc + i.len ≤ 65535) }
    ensures stands { IfSome result (λ i. (instr_at code.now.bytes pc ≡ Ok i) × (pc < length code.now.bytes)) }
{
    if (pc as usize) < code.bytes.len() {
        decode(code.bytes.as_slice(), pc).ok()
    } else {
        None
    }
}

impl<'w> Fetched<'w> {
    /// The instruction at the frame's pc, if one stands there.
    #[tactic(auto, unfolding(crate::specs::Standing::standing_at))]
    pub fn of(world: &'w World, frame: &Frame) -> Option<Fetched<'w>>
        ensures found { option_map (λ t. t.standing) result ≡ standing_at world.now frame.now }
        ensures next { IfSome result (λ t. t.next ≡ frame.now.pc + t.standing.instr.len) }
        ensures class { IfSome result (λ t. t.standing.class ≡ class_at world.now frame.now.method.class) }
        ensures stands { IfSome result (λ t. StandsAt t.standing frame.now.pc) }
    {
        let method = world.find_method(frame.method)?;
        let code = method.code.as_ref()?;
        let instr = instr_in(code, frame.pc)?;
        Some(Fetched {
            class: world.record_at(frame.method.class),
            method,
            code,
            instr,
            next: frame.pc + instr.len,
        })
    }
}
