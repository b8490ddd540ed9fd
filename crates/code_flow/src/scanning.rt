//! One scan of a method's code.

ghost use Rattle.std.specs.Prelude.{◌≡◌, ◌+◌, ◌<◌, ◌≤◌, length, Ok, IfOk, All};
ghost use Rattle.world.specs.Selection.{method_of};
ghost use Rattle.world.specs.Tables.{HasMethod};
ghost use Rattle.code_flow.specs.Judging.{has_handlers, is_empty, judged};
ghost use Rattle.code_flow.specs.Scanning.{site_of, sites_of, first_against, scan_of};
ghost use Rattle.code_flow.specs.ThereScanning.{HasTargets, AreThere};

use crate::judging::judged;
use class_pool::Sequence;
use class_reader::{Code, Handler, Method, is_synchronized};
use code_blocks::{Placed, code_is_laid_out, placed};
use descriptors::names_float;
use linking::LinkFault;
use op_table::{Construct, Instr};
use std::alloc::{AllocError, Global};
use world::{MemberId, World};

/// An instruction with the methods that it can call, or the construct that stands against it.
#[derive(Drop)]
pub(crate) struct Site {
    pub pc: u32,
    pub instr: Instr,
    pub verdict: Result<Sequence<MemberId>, Construct>,
}

/// The instructions of a method's code in order, and the place behind them at which none stands, before the end.
#[derive(Drop)]
pub(crate) struct Sites {
    pub sites: Sequence<Site>,
    pub broken: Option<u32>,
}

/// A method, the construct that stands against all of it, and its instructions.
#[derive(Drop)]
pub(crate) struct Scan {
    pub method: MemberId,
    pub against: Option<Construct>,
    pub body: Sites,
}

// What is known of an instruction.
fn site_of(
    alloc: Global,
    w: &World,
    current: u32,
    code: &[u8],
    p: &Placed,
) -> Result<Site, AllocError>
    requires current { current < length w.now }
    requires within { p.now.pc + p.now.instr.len ≤ length code.now }
    requires small { length code.now ≤ 65535 }
    ensures there { IfOk result (λ s. HasTargets w.now s) }
    ensures exact { IfOk result (λ s. s ≡ site_of w.now current code.now p.now) }
{
    let verdict = match judged(alloc, w, current, code, p.pc, &p.instr) {
        Ok(targets) => Ok(targets),
        Err(LinkFault::Against(construct)) => Err(construct),
        Err(LinkFault::Memory) => return Err(AllocError),
    };
    Ok(Site {
        pc: p.pc,
        instr: p.instr,
        verdict,
    })
}

// What is known of all instructions.
fn sites_of(alloc: Global, w: &World, current: u32, code: &[u8]) -> Result<Sites, AllocError>
    requires current { current < length w.now }
    requires small { length code.now ≤ 65535 }
    ensures there { IfOk result (λ s. All (HasTargets w.now) s.sites) }
    ensures exact { IfOk result (λ s. s ≡ sites_of w.now current code.now) }
{
    code_is_laid_out();
    let placement = placed(alloc, code)?;
    let mut sites = Sequence::new(alloc);
    for p in placement.instructions.as_slice() {
        sites.push(site_of(alloc, w, current, code, p)?)?;
    }
    Ok(Sites {
        sites,
        broken: placement.broken,
    })
}

fn has_handlers(handlers: &[Handler]) -> bool
    ensures { result ≡ has_handlers handlers.now }
{
    match handlers {
        [] => false,
        [..] => true,
    }
}

fn is_empty(code: &[u8]) -> bool
    ensures { result ≡ is_empty code.now }
{
    match code {
        [] => true,
        [..] => false,
    }
}

// The first construct that stands against the method itself.
fn first_against(method: &Method, code: &Code) -> Option<Construct>
    ensures { result ≡ first_against method.now code.now }
{
    if names_float(method.desc.as_slice()) {
        return Some(Construct::Float);
    }
    if is_synchronized(method.flags) {
        return Some(Construct::Synchronized);
    }
    if has_handlers(code.handlers.as_slice()) {
        return Some(Construct::Handler);
    }
    if is_empty(code.bytes.as_slice()) {
        return Some(Construct::FallsOff);
    }
    None
}

/// Scans the code of a method.
#[tactic(auto, using(crate::proofs::Scans::scanned, crate::proofs::Scans::none_scanned))]
pub(crate) fn scan_of(alloc: Global, w: &World, m: MemberId) -> Result<Scan, AllocError>
    requires { HasMethod w.now m }
    ensures there { IfOk result (λ s. AreThere w.now s) }
    ensures exact { IfOk result (λ s. s ≡ scan_of w.now m) }
{
    match w.code_at(m) {
        Some(code) => {
            let body = sites_of(alloc, w, m.class, code.bytes.as_slice())?;
            Ok(Scan {
                method: m,
                against: first_against(w.method_at(m), code),
                body,
            })
        }
        None => Ok(Scan {
            method: m,
            against: Some(Construct::AbstractTarget),
            body: Sites {
                sites: Sequence::new(alloc),
                broken: None,
            },
        }),
    }
}
