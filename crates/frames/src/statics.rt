//! The values of the integer statics (JVMS 2.5.4).

ghost use Rattle.std.specs.Prelude.{◌≡◌, ℕ, Some, OnOk, OnErr, IfOk, if◌then◌else◌};
ghost use Rattle.std.specs.BTreeMap.{is_at};
ghost use Rattle.frames.specs.Slots.{place_of, value_of, with_value};
ghost use Rattle.frames.specs.Places.{HasPlaces, key_cmp, place_in};

use crate::{Slots, Value};
use std::alloc::{AllocError, Global};
use std::collections::BTreeMap;
use std::marker::Model;
use world::MemberId;

/// The values of the integer statics, found by their fields. Contracts see a list of them, each by its field.
#[derive(Drop)]
pub struct Statics {
    values: Slots<(MemberId, Value)>,
    places: BTreeMap<(u32, u32), usize>,
}

impl Model for Statics {
    ghost use Rattle.std.specs.Prelude.{List};
    ghost use Rattle.world.specs.declared.member.MemberId.{MemberId as Member};
    ghost use Rattle.frames.specs.declared.value.Value.{Value as Held};
    ghost use Rattle.frames.specs.Places.{HasPlaces};

    ghost Value = { List (Member × Held) };

    ghost view = { λ s. s.values };

    ghost invariant = { λ s. HasPlaces s.places s.values };
}

// Puts down the place of a member, in the place of another one that it had.
fn put_place(
    member: MemberId,
    place: usize,
    places: &mut BTreeMap<(u32, u32), usize>,
) -> Result<(), AllocError>
    ensures { OnOk result ((key : ℕ × ℕ) → place_in places.new key ≡ (if is_at (key_cmp (member.class, member.member)) key then Some place else place_in places.old key)) }
{
    places.insert((member.class, member.member), place)?;
    Ok(())
}

// Where each member stands first.
fn places_of(
    alloc: Global,
    values: &[(MemberId, Value)],
) -> Result<BTreeMap<(u32, u32), usize>, AllocError>
    ensures { IfOk result (λ places. HasPlaces places values.now) }
{
    let mut places = BTreeMap::new(alloc);
    let mut left = values.len();
    while left > 0 {
        left -= 1;
        put_place(values[left].0, left, &mut places)?;
    }
    Ok(places)
}

impl Statics {
    /// These values.
    pub fn of(alloc: Global, values: Vec<(MemberId, Value)>) -> Result<Self, AllocError>
        ensures { IfOk result (λ statics. statics ≡ values.items) }
    {
        let places = places_of(alloc, values.as_slice())?;
        Ok(Statics {
            values: Slots::from(values),
            places,
        })
    }

    /// The values in order, each by its field.
    pub fn as_slice(&self) -> &[(MemberId, Value)]
        ensures { result.now ≡ self.now }
    {
        self.values.as_slice()
    }

    // Where a field stands.
    fn place(&self, field: MemberId) -> Option<usize>
        ensures { result ≡ place_of field self.now }
    {
        self.places.get(&(field.class, field.member)).copied()
    }

    /// The value of a field.
    pub fn get(&self, field: MemberId) -> Option<Value>
        ensures { result ≡ value_of field self.now }
    {
        let place = self.place(field)?;
        Some(self.values.as_slice()[place].1)
    }

    /// Puts a value in the place of that of a field.
    pub fn set(&mut self, field: MemberId, value: Value)
        ensures { self.new ≡ with_value field value self.old }
    {
        if let Some(place) = self.place(field) {
            self.values.set(place, (field, value));
        }
    }
}
