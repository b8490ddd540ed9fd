//! The code that a method reaches.

ghost use Rattle.std.specs.Prelude.{All, ◌≡◌, ◌≢◌, Ok, Err, None, IfOk, IfErr, IfSome, slice_get};
ghost use Rattle.world.specs.Tables.{HasMethod};
ghost use Rattle.code_flow.specs.declared.fault.FlowFault.TheVariants as fault;
ghost use Rattle.code_flow.specs.Listing.{most_methods, reached};
ghost use Rattle.code_flow.specs.Flow.{with_code, method_named, flow_from, flow_of};
ghost use Rattle.code_flow.specs.Plans.{plans_of, IsReached};
ghost use Rattle.code_flow.specs.Scanned.{IsListed};
ghost use Rattle.code_flow.specs.Returning.{IsCheck};
ghost use Rattle.code_flow.specs.Checking.{checked_scan, first_from};

use crate::calling::graph_of;
use crate::checking::{Check, first_fault};
use crate::fault::FlowFault;
use crate::listing::{Listing, MOST_METHODS, reached};
use crate::ordering::order_of;
use crate::planning::methods_of;
use crate::program::Program;
use class_pool::Target;
use graph_core::components;
use std::alloc::{AllocError, Global};
use world::{MemberId, World};

// The method itself, where it has code.
#[tactic(auto, using(crate::proofs::Scans::coded, crate::proofs::Scans::not_coded))]
fn with_code(w: &World, m: MemberId) -> Option<MemberId>
    requires { HasMethod w.now m }
    ensures code { result ≡ with_code w.now m }
    ensures there { IfSome result (HasMethod w.now) }
{
    match w.code_at(m) {
        Some(_) => Some(m),
        None => None,
    }
}

// The method that the class of the name declares, where it has code.
#[tactic(auto, unfolding(crate::specs::Flow::method_named))]
fn method_named(w: &World, target: &Target) -> Option<MemberId>
    ensures named { result ≡ method_named w.now target.now }
    ensures there { IfSome result (HasMethod w.now) }
{
    match w.class(&target.class) {
        Some(class) => match w.declared_method(class, &target.method, &target.desc) {
            Some(m) => with_code(w, m),
            None => None,
        },
        None => None,
    }
}

// What is to be checked at each call: where more methods are reached than are analysed, the first that is too many.
fn check_of(alloc: Global, w: &World, m: MemberId, listing: &Listing) -> Result<Check, AllocError>
    requires { IsListed w.now m listing.now.found listing.now.scans.items }
    ensures { IfOk result (λ check. IsCheck w.now listing.now.found (slice_get listing.now.found most_methods) check) }
{
    match listing.found.get(MOST_METHODS) {
        Some(first) => Ok(Check::Over(first)),
        None => {
            let graph = graph_of(alloc, &listing.found, &listing.scans)?;
            let numbers = components(alloc, &graph)?;
            Ok(Check::Back(numbers))
        }
    }
}

// The program of the methods that are reached, which nothing stands against.
fn program_of<'w>(
    alloc: Global,
    w: &'w World,
    m: MemberId,
    listing: &Listing,
    check: &Check,
) -> Result<Program<'w>, FlowFault>
    requires listed { IsListed w.now m listing.now.found listing.now.scans.items }
    requires there { All (HasMethod w.now) listing.now.found }
    requires check { IsCheck w.now listing.now.found (slice_get listing.now.found most_methods) check.now }
    requires free { None ≡ first_from (checked_scan check.now listing.now.found) 0 listing.now.scans.items }
    ensures program { IfOk result (λ p. flow_from w.now (reached w.now m) ≡ Ok (plans_of p)) }
    ensures bodies { IfOk result (λ p. All (IsReached w.now) p) }
    ensures fault { IfErr result (λ e. e ≡ fault.Memory) }
{
    match check {
        // Never so: the first method that is too many would be called at some place.
        Check::Over(_) => Err(FlowFault::TooManyMethods),
        Check::Back(numbers) => {
            let methods = methods_of(alloc, w, &listing.scans)?;
            let order = order_of(alloc, numbers.as_slice())?;
            Ok(Program::new(methods, order))
        }
    }
}

// The program of the methods that are reached, or the first fault.
fn flow_from(alloc: Global, w: &World, m: MemberId) -> Result<Program<'_>, FlowFault>
    requires { HasMethod w.now m }
    ensures program { IfOk result (λ p. flow_from w.now (reached w.now m) ≡ Ok (plans_of p)) }
    ensures bodies { IfOk result (λ p. All (IsReached w.now) p) }
    ensures fault { IfErr result (λ e. e ≢ fault.Memory → flow_from w.now (reached w.now m) ≡ Err e) }
{
    let listing = reached(alloc, w, m)?;
    let check = check_of(alloc, w, m, &listing)?;
    match first_fault(&check, &listing.found, &listing.scans) {
        Some(fault) => Err(fault),
        None => program_of(alloc, w, m, &listing, &check),
    }
}

/// The code that the method of this name reaches by calls: the methods in breadth-first order.
///
/// # Errors
///
/// `NoMethod` where the class isn't there, or declares no such method with code. `Unsupported` with the first
/// construct that isn't analysed, by the order of the methods and then by its place: a call that leads back to its
/// method is one. `TooManyMethods` where the first call of the 4,097th method stands before all constructs.
#[tactic(auto, unfolding(crate::specs::Flow::flow_of))]
pub fn flow<'w>(alloc: Global, w: &'w World, target: &Target) -> Result<Program<'w>, FlowFault>
    // The answer is the program of the definition, each method with its body.
    ensures program { IfOk result (λ p. flow_of w.now target.now ≡ Ok (plans_of p)) }
    ensures bodies { IfOk result (λ p. All (IsReached w.now) p) }
    ensures fault { IfErr result (λ e. e ≢ fault.Memory → flow_of w.now target.now ≡ Err e) }
{
    match method_named(w, target) {
        Some(m) => flow_from(alloc, w, m),
        None => Err(FlowFault::NoMethod),
    }
}
