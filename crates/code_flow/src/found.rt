//! Methods in the order in which they are met.

ghost use Rattle.std.specs.Prelude.{◌≡◌, ◌<◌, ℕ, Some, None, [], ◌∷◌, ◌++◌, length, position, slice_get, IfSome, IfOk, OnOk, OnErr, if◌then◌else◌};
ghost use Rattle.std.specs.List.{list_any};
ghost use Rattle.std.specs.BTreeMap.{is_at};
ghost use Rattle.code_flow.specs.Listing.{is_method, is_among, with_new};
ghost use Rattle.code_flow.specs.Numbering.{key_cmp, place_in};

use std::alloc::{AllocError, Global};
use std::collections::BTreeMap;
use std::marker::Model;
use world::MemberId;

/// Methods in order, each once, with their places. Contracts see the list.
#[derive(Drop)]
pub(crate) struct Found {
    methods: Vec<MemberId>,
    places: BTreeMap<(u32, u32), usize>,
}

impl Model for Found {
    ghost use Rattle.std.specs.Prelude.{List};
    ghost use Rattle.world.specs.declared.member.MemberId.{MemberId as Method};
    ghost use Rattle.code_flow.specs.Numbering.{HasPlaces};

    ghost Value = { List Method };

    ghost view = { λ f. f.methods.items };

    ghost invariant = { λ f. HasPlaces f.places f.methods.items };
}

// Adds a method and its place. An `Err` changes nothing.
fn push(
    methods: &mut Vec<MemberId>,
    places: &mut BTreeMap<(u32, u32), usize>,
    m: MemberId,
) -> Result<(), AllocError>
    ensures methods { OnOk result (methods.new.items ≡ methods.old.items ++ m ∷ []) }
    ensures places { OnOk result ((key : ℕ × ℕ) → place_in places.new key ≡ (if is_at (key_cmp (m.class, m.member)) key then Some (length methods.old.items) else place_in places.old key)) }
    ensures err { OnErr result ((methods.new.items ≡ methods.old.items) × (places.new.entries ≡ places.old.entries)) }
{
    methods.reserve(1)?;
    places.insert((m.class, m.member), methods.len())?;
    methods.push(m)?;
    Ok(())
}

impl Found {
    /// No methods.
    fn new(alloc: Global) -> Found
        ensures { result ≡ [] }
    {
        Found {
            methods: Vec::new(alloc),
            places: BTreeMap::new(alloc),
        }
    }

    /// One method.
    pub(crate) fn of(alloc: Global, m: MemberId) -> Result<Found, AllocError>
        ensures { IfOk result (λ f. f ≡ m ∷ []) }
    {
        let mut found = Found::new(alloc);
        found.add(m)?;
        Ok(found)
    }

    /// The methods in order.
    pub(crate) fn as_slice(&self) -> &[MemberId]
        ensures { result.now ≡ self.now }
    {
        self.methods.as_slice()
    }

    /// The method at a place.
    pub(crate) fn get(&self, place: usize) -> Option<MemberId>
        ensures { result ≡ slice_get self.now place }
    {
        self.methods.as_slice().get(place).copied()
    }

    /// The place of a method.
    pub(crate) fn place(&self, m: MemberId) -> Option<usize>
        ensures { result ≡ position (is_method m) self.now }
    {
        self.places.get(&(m.class, m.member)).copied()
    }

    /// Adds a method, unless it is there.
    #[tactic(auto, using(crate::proofs::Numberings::is_new, crate::proofs::Numberings::is_old))]
    fn add(&mut self, m: MemberId) -> Result<(), AllocError>
        ensures { OnOk result (self.new ≡ (if is_among self.old m then self.old else self.old ++ m ∷ [])) }
    {
        match self.place(m) {
            Some(_) => Ok(()),
            None => push(&mut self.methods, &mut self.places, m),
        }
    }

    /// Adds those of the methods that aren't there, in order.
    pub(crate) fn add_all(&mut self, methods: &[MemberId]) -> Result<(), AllocError>
        ensures { OnOk result (self.new ≡ with_new self.old methods.now) }
    {
        for m in methods {
            self.add(*m)?;
        }
        Ok(())
    }
}
