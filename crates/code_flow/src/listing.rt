//! The methods that a method reaches, breadth first.

ghost use Rattle.std.specs.Prelude.{◌≡◌, ◌+◌, ◌<◌, ◌++◌, ◌∷◌, [], flat_map, slice_get, Some, IfOk, OnOk, All};
ghost use Rattle.world.specs.Tables.{HasMethod};
ghost use Rattle.code_flow.specs.Listing.{with_new, most_methods, reached};
ghost use Rattle.code_flow.specs.Scanning.{scan_of};
ghost use Rattle.code_flow.specs.Scanned.{site_targets, IsListedTo, IsListed};

use crate::found::Found;
use crate::scanning::{Scan, Site, scan_of};
use std::alloc::{AllocError, Global};
use world::{MemberId, World};

/// How many methods are analysed at most.
pub(crate) const MOST_METHODS: usize = 4096;

/// The methods that are reached in breadth-first order, and what is known of each of the first ones.
#[derive(Drop)]
pub(crate) struct Listing {
    pub found: Found,
    pub scans: Vec<Scan>,
}

// Adds the methods that the instruction can call, unless they are there.
#[tactic(auto, unfolding(crate::specs::Listing::with_new))]
fn add_site(found: &mut Found, site: &Site) -> Result<(), AllocError>
    ensures { OnOk result (found.new ≡ with_new found.old (site_targets site.now)) }
{
    match &site.verdict {
        Ok(targets) => found.add_all(targets.as_slice()),
        Err(_) => Ok(()),
    }
}

// Adds the methods that the instructions can call, unless they are there.
fn add_targets(found: &mut Found, sites: &[Site]) -> Result<(), AllocError>
    ensures { OnOk result (found.new ≡ with_new found.old (flat_map site_targets sites.now)) }
{
    for site in sites {
        add_site(found, site)?;
    }
    Ok(())
}

// Looks at the k-th method: adds those that it can call, and keeps what is known of it.
fn look(alloc: Global, w: &World, listing: &mut Listing, m: MemberId) -> Result<(), AllocError>
    requires { HasMethod w.now m }
    ensures found { OnOk result (listing.new.found ≡ with_new listing.old.found (flat_map site_targets (scan_of w.now m).body.sites)) }
    ensures scans { OnOk result (listing.new.scans.items ≡ listing.old.scans.items ++ scan_of w.now m ∷ []) }
    ensures there { OnOk result (All (HasMethod w.now) listing.old.found → All (HasMethod w.now) listing.new.found) }
{
    let scan = scan_of(alloc, w, m)?;
    add_targets(&mut listing.found, scan.body.sites.as_slice())?;
    listing.scans.push(scan)?;
    Ok(())
}

/// The methods that a method reaches, in breadth-first order. As many are looked at as are analysed at most.
pub(crate) fn reached(alloc: Global, w: &World, m: MemberId) -> Result<Listing, AllocError>
    requires { HasMethod w.now m }
    ensures there { IfOk result (λ l. All (HasMethod w.now) l.found) }
    ensures listed { IfOk result (λ l. IsListed w.now m l.found l.scans.items) }
{
    let mut listing = Listing {
        found: Found::of(alloc, m)?,
        scans: Vec::new(alloc),
    };
    for k in 0..MOST_METHODS {
        match listing.found.get(k) {
            Some(next) => look(alloc, w, &mut listing, next)?,
            None => return Ok(listing),
        }
    }
    Ok(listing)
}
