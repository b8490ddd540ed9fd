//! The first fault of the methods that are listed.

ghost use Rattle.std.specs.Prelude.{◌≡◌};
ghost use Rattle.std.specs.List.{list_any};
ghost use Rattle.code_flow.specs.Listing.{is_among};
ghost use Rattle.code_flow.specs.Flow.{first_of};
ghost use Rattle.code_flow.specs.Scanned.{unsupported_at, unsupported_opcode};
ghost use Rattle.code_flow.specs.Checking.{same_number, is_back, call_fault, checked_site, checked_scan, first_from};

use crate::fault::FlowFault;
use crate::found::Found;
use crate::scanning::{Scan, Site};
use graph_core::Components;
use op_table::Construct;
use world::MemberId;

/// What is checked at each call.
#[derive(Drop)]
pub(crate) enum Check {
    /// Whether it can run the first method that is too many.
    Over(MemberId),
    /// Whether it leads back to its method: where both have the number of one component.
    Back(Components),
}

// Whether the method is one of these.
fn is_among(methods: &[MemberId], m: MemberId) -> bool
    ensures { result ≡ is_among methods.now m }
{
    methods
        .iter()
        .any(|other| m.class == other.class && m.member == other.member)
}

// Whether two nodes have one number.
fn same_number(numbers: &[u32], i: usize, j: usize) -> bool
    ensures { result ≡ same_number numbers.now i j }
{
    i < numbers.len() && (j < numbers.len() && numbers[i] == numbers[j])
}

// Whether the method t has the number of the i-th one.
fn is_back(found: &Found, numbers: &Components, i: usize, t: MemberId) -> bool
    ensures { result ≡ is_back found.now numbers.now i t }
{
    match found.place(t) {
        Some(j) => same_number(numbers.as_slice(), i, j),
        None => false,
    }
}

// Whether one of the methods has the number of the i-th one.
fn lead_back(found: &Found, numbers: &Components, i: usize, targets: &[MemberId]) -> bool
    ensures { result ≡ list_any (is_back found.now numbers.now i) targets.now }
{
    targets.iter().any(|t| is_back(found, numbers, i, *t))
}

// What stands against a call of these methods at a place of the i-th method.
fn call_fault(
    check: &Check,
    found: &Found,
    i: usize,
    m: MemberId,
    pc: u32,
    targets: &[MemberId],
) -> Option<FlowFault>
    ensures { result ≡ call_fault check.now found.now i m pc targets.now }
{
    match check {
        Check::Over(first) => {
            if is_among(targets, *first) {
                Some(FlowFault::TooManyMethods)
            } else {
                None
            }
        }
        Check::Back(numbers) => {
            if lead_back(found, numbers, i, targets) {
                Some(FlowFault::Unsupported {
                    method: m,
                    pc,
                    construct: Construct::Later,
                })
            } else {
                None
            }
        }
    }
}

// What stands against an instruction of the i-th method.
fn site_fault(check: &Check, found: &Found, i: usize, m: MemberId, site: &Site) -> Option<FlowFault>
    ensures { result ≡ checked_site check.now found.now i m site.now }
{
    match &site.verdict {
        Ok(targets) => call_fault(check, found, i, m, site.pc, targets.as_slice()),
        Err(construct) => Some(FlowFault::Unsupported {
            method: m,
            pc: site.pc,
            construct: *construct,
        }),
    }
}

// The first of the instructions that something stands against.
fn first_site_fault(
    check: &Check,
    found: &Found,
    i: usize,
    m: MemberId,
    sites: &[Site],
) -> Option<FlowFault>
    ensures { result ≡ first_of (checked_site check.now found.now i m) sites.now }
{
    for site in sites {
        match site_fault(check, found, i, m, site) {
            Some(fault) => return Some(fault),
            None => {}
        }
    }
    None
}

// What stands against the method itself.
fn own_fault(scan: &Scan) -> Option<FlowFault>
    ensures { result ≡ unsupported_at scan.now.method 0 scan.now.against }
{
    match scan.against {
        Some(construct) => Some(FlowFault::Unsupported {
            method: scan.method,
            pc: 0,
            construct,
        }),
        None => None,
    }
}

// What stands at the place at which no instruction stands.
fn opcode_fault(scan: &Scan) -> Option<FlowFault>
    ensures { result ≡ unsupported_opcode scan.now.method scan.now.body.broken }
{
    match scan.body.broken {
        Some(pc) => Some(FlowFault::Unsupported {
            method: scan.method,
            pc,
            construct: Construct::Opcode,
        }),
        None => None,
    }
}

// The first fault of the i-th method.
fn scan_fault(check: &Check, found: &Found, i: usize, scan: &Scan) -> Option<FlowFault>
    ensures { result ≡ checked_scan check.now found.now i scan.now }
{
    match own_fault(scan) {
        Some(fault) => return Some(fault),
        None => {}
    }
    match first_site_fault(check, found, i, scan.method, scan.body.sites.as_slice()) {
        Some(fault) => Some(fault),
        None => opcode_fault(scan),
    }
}

/// The first fault of the methods in order.
pub(crate) fn first_fault(check: &Check, found: &Found, scans: &[Scan]) -> Option<FlowFault>
    ensures { result ≡ first_from (checked_scan check.now found.now) 0 scans.now }
{
    for (i, scan) in scans.iter().enumerate() {
        match scan_fault(check, found, i, scan) {
            Some(fault) => return Some(fault),
            None => {}
        }
    }
    None
}
