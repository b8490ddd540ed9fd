//! The methods of a program, with their bodies.

ghost use Rattle.std.specs.Prelude.{◌≡◌, ◌≤◌, length, map, All, IfOk, Some};
ghost use Rattle.linking.specs.Methods.{code_at};
ghost use Rattle.world.specs.Selection.{method_of};
ghost use Rattle.class_hierarchy.specs.World.{class_at};
ghost use Rattle.world.specs.Tables.{HasMethod};
ghost use Rattle.method_body.specs.Bodies.{IsBody};
ghost use Rattle.code_flow.specs.Plans.{plan_of, IsReached};
ghost use Rattle.code_flow.specs.Program.{HasNoConstruct};
ghost use Rattle.code_flow.specs.Scanned.{planned_by, site_targets, IsScanned};

use crate::program::Reached;
use crate::scanning::{Scan, Site};
use class_pool::Sequence;
use class_reader::Code;
use method_body::Body;
use std::alloc::{AllocError, Global};
use world::{MemberId, World};

// The methods that an instruction can call.
fn targets_of(alloc: Global, site: &Site) -> Result<Sequence<MemberId>, AllocError>
    ensures { IfOk result (λ ts. ts ≡ site_targets site.now) }
{
    match &site.verdict {
        Ok(targets) => {
            let targets = Vec::from_slice(alloc, targets.as_slice())?;
            Ok(Sequence::from(targets))
        }
        Err(_) => Ok(Sequence::new(alloc)),
    }
}

// The methods that each instruction can call.
fn all_targets(alloc: Global, sites: &[Site]) -> Result<Sequence<Sequence<MemberId>>, AllocError>
    ensures { IfOk result (λ ts. ts ≡ map site_targets sites.now) }
{
    let mut all = Sequence::new(alloc);
    for site in sites {
        all.push(targets_of(alloc, site)?)?;
    }
    Ok(all)
}

// The code of a method against which nothing stands.
fn code_of(w: &World, m: MemberId) -> &Code
    requires there { HasMethod w.now m }
    requires free { HasNoConstruct w.now m }
    ensures code { code_at w.now m ≡ Some result.now }
    ensures short { length result.now.bytes ≤ 65535 }
{
    match w.code_at(m) {
        Some(code) => code,
        None => unreachable!(),
    }
}

// The body of such a method.
fn body_of(alloc: Global, w: &World, m: MemberId) -> Result<Body<'_>, AllocError>
    requires there { HasMethod w.now m }
    requires free { HasNoConstruct w.now m }
    ensures class { IfOk result (λ b. b.class ≡ class_at w.now m.class) }
    ensures method { IfOk result (λ b. b.method ≡ method_of w.now m) }
    ensures body { IfOk result (λ b. IsBody b) }
{
    Body::new(alloc, w.record_at(m.class), w.method_at(m), code_of(w, m))
}

fn planned<'w>(alloc: Global, w: &'w World, scan: &Scan) -> Result<Reached<'w>, AllocError>
    requires { IsScanned w.now scan.now }
    ensures plan { IfOk result (λ r. plan_of r ≡ planned_by scan.now) }
    ensures reached { IfOk result (λ r. IsReached w.now r) }
{
    let body = body_of(alloc, w, scan.method)?;
    Ok(Reached {
        method: scan.method,
        body,
        targets: all_targets(alloc, scan.body.sites.as_slice())?,
    })
}

/// The methods that were scanned, against none of which something stands, with their bodies.
pub(crate) fn methods_of<'w>(
    alloc: Global,
    w: &'w World,
    scans: &[Scan],
) -> Result<Vec<Reached<'w>>, AllocError>
    requires { All (IsScanned w.now) scans.now }
    ensures plans { IfOk result (λ methods. map plan_of methods.items ≡ map planned_by scans.now) }
    ensures reached { IfOk result (λ methods. All (IsReached w.now) methods.items) }
{
    let mut methods = Vec::new(alloc);
    for scan in scans {
        methods.push(planned(alloc, w, scan)?)?;
    }
    Ok(methods)
}
