//! The members of a class by name and descriptor.

ghost use Rattle.std.specs.Prelude.{◌≡◌, ◌+◌, ◌<◌, ◌^◌, ℕ, ◌∷◌, length, drop, map, position, IfOk, IfSome};
ghost use Rattle.std.specs.List.{range_with_len};
ghost use Rattle.std.specs.Ordering.{is_lt, nat_cmp, ordering_then};
ghost use Rattle.world.specs.Resolution.{is_field, is_method};
ghost use Rattle.class_hierarchy.specs.Tables.{HasFew};
ghost use Rattle.world.specs.Members.{front, key_cmp, key_at, place_cmp, is_keyed, AreByKey, IsPointOf, AreMembers, HaveMembers};

use class_hierarchy::Hierarchy;
use class_pool::Sequence;
use class_reader::{ClassRecord, Field, Method};
use std::alloc::{AllocError, Global};
use std::cmp::Ordering;

/// What a class declares with a name and a descriptor.
trait Member {
    ghost use Rattle.world.specs.Members.{Key};

    ghost key: { Self → Key };

    /// The bytes of its name.
    fn name(&self) -> &[u8]
        ensures { result.now ≡ (key self.now).name };

    /// The bytes of its descriptor.
    fn desc(&self) -> &[u8]
        ensures { result.now ≡ (key self.now).desc };
}

impl Member for Field {
    ghost use Rattle.world.specs.Members.{field_key};

    ghost key = { field_key };

    fn name(&self) -> &[u8] {
        self.name.as_slice()
    }

    fn desc(&self) -> &[u8] {
        self.desc.as_slice()
    }
}

impl Member for Method {
    ghost use Rattle.world.specs.Members.{method_key};

    ghost key = { method_key };

    fn name(&self) -> &[u8] {
        self.name.as_slice()
    }

    fn desc(&self) -> &[u8] {
        self.desc.as_slice()
    }
}

/// The bytes of the name of the member at this place, none past the end.
fn name_at<T: Member>(items: &[T], place: u32) -> &[u8]
    ensures { result.now ≡ (key_at (map T.key items.now) place).name }
{
    match items.get(place as usize) {
        Some(item) => item.name(),
        None => &[],
    }
}

/// The same of its descriptor.
fn desc_at<T: Member>(items: &[T], place: u32) -> &[u8]
    ensures { result.now ≡ (key_at (map T.key items.now) place).desc }
{
    match items.get(place as usize) {
        Some(item) => item.desc(),
        None => &[],
    }
}

/// The byte at this position of a text, plus one, and 0 past the end, which stands below each byte.
fn front_at(text: &[u8], position: usize) -> u16
    ensures { result ≡ front (drop position text.now) }
{
    match text.get(position) {
        Some(byte) => *byte as u16 + 1,
        None => 0,
    }
}

/// The order of two names and descriptors by what stands at this position alone.
fn compare_at(
    position: usize,
    name: &[u8],
    desc: &[u8],
    other_name: &[u8],
    other_desc: &[u8],
) -> Ordering
    ensures { result ≡ ordering_then (nat_cmp (front (drop position name.now)) (front (drop position other_name.now))) (nat_cmp (front (drop position desc.now)) (front (drop position other_desc.now))) }
{
    let names = front_at(name, position).cmp(&front_at(other_name, position));
    let descs = front_at(desc, position).cmp(&front_at(other_desc, position));
    names.then(descs)
}

/// The order of two names and descriptors. Both are read side by side, and no further than to the first difference in
/// either: a class file can give one long name to all methods of a class, or one long descriptor, at no cost to itself,
/// and a sort that first read such a text to its end would read it again in each comparison.
fn compare_texts(name: &[u8], desc: &[u8], other_name: &[u8], other_desc: &[u8]) -> Ordering
    ensures { result ≡ key_cmp (record { name = name.now; desc = desc.now }) (record { name = other_name.now; desc = other_desc.now }) }
{
    let end = name.len().max(desc.len());
    let other_end = other_name.len().max(other_desc.len());
    for position in 0..end.max(other_end) {
        let order = compare_at(position, name, desc, other_name, other_desc);
        if order.is_ne() {
            return order;
        }
    }
    Ordering::Equal
}

/// The order of the member at this place and of a name and a descriptor.
fn compare<T: Member>(items: &[T], place: u32, name: &[u8], desc: &[u8]) -> Ordering
    ensures { result ≡ key_cmp (key_at (map T.key items.now) place) (record { name = name.now; desc = desc.now }) }
{
    compare_texts(name_at(items, place), desc_at(items, place), name, desc)
}

/// The order of two places, by the members there.
fn compare_places<T: Member>(items: &[T], place: u32, other: u32) -> Ordering
    ensures { result ≡ place_cmp (map T.key items.now) place other }
{
    compare(items, place, name_at(items, other), desc_at(items, other)).then(place.cmp(&other))
}

/// The numbers below a count, in order.
fn numbers_below(alloc: Global, count: u32) -> Result<Vec<u32>, AllocError>
    ensures { IfOk result (λ v. v.items ≡ range_with_len 0 count) }
{
    (0..count).collect(alloc)
}

/// The places of the members by name and descriptor. The sort reads the names where they are, and takes no memory.
fn places_of<T: Member>(alloc: Global, items: &[T]) -> Result<Sequence<u32>, AllocError>
    requires { length items.now < 2 ^ 32 }
    ensures { IfOk result (AreByKey (map T.key items.now)) }
{
    let mut places = numbers_below(alloc, items.len() as u32)?;
    places.sort_unstable_by(|a, b| compare_places(items, *a, *b));
    Ok(Sequence::from(places))
}

/// Whether the member at this place stands before a name and a descriptor.
fn is_before<T: Member>(items: &[T], place: u32, name: &[u8], desc: &[u8]) -> bool
    ensures { result ≡ is_lt (key_cmp (key_at (map T.key items.now) place) (record { name = name.now; desc = desc.now })) }
{
    compare(items, place, name, desc).is_lt()
}

/// How many of the places stand before a name and a descriptor, by a binary search.
fn count_before<T: Member>(items: &[T], places: &[u32], name: &[u8], desc: &[u8]) -> usize
    requires { AreByKey (map T.key items.now) places.now }
    ensures { IsPointOf (map T.key items.now) places.now (record { name = name.now; desc = desc.now }) result }
{
    places.partition_point(|place| is_before(items, *place, name, desc))
}

/// The place of the first member with this name and descriptor, in the number of steps of a binary search.
fn place_of<T: Member>(items: &[T], places: &[u32], name: &[u8], desc: &[u8]) -> Option<u32>
    requires { AreByKey (map T.key items.now) places.now }
    ensures { result ≡ position (is_keyed name.now desc.now) (map T.key items.now) }
{
    let at = count_before(items, places, name, desc);
    match places.get(at) {
        Some(place) => {
            if compare(items, *place, name, desc).is_eq() {
                Some(*place)
            } else {
                None
            }
        }
        None => None,
    }
}

/// The fields and the methods of a class by name and descriptor: their places, in an order of names and descriptors
/// side by side. A program of many calls looks up each of its names here, so that a class of many methods
/// doesn't make each look-up long.
#[derive(Drop)]
pub(crate) struct Members {
    fields: Sequence<u32>,
    methods: Sequence<u32>,
}

impl Members {
    /// The members of a class. Takes no copy of a name.
    pub(crate) fn of(alloc: Global, class: &ClassRecord) -> Result<Members, AllocError>
        requires { HasFew class.now }
        ensures { IfOk result (AreMembers class.now) }
    {
        Ok(Members {
            fields: places_of(alloc, class.fields.as_slice())?,
            methods: places_of(alloc, class.methods.as_slice())?,
        })
    }

    /// The place of the first field with this name and descriptor, in the number of steps of a binary search.
    pub(crate) fn field_place(&self, class: &ClassRecord, name: &[u8], desc: &[u8]) -> Option<u32>
        requires { AreMembers class.now self.now }
        ensures place { result ≡ position (is_field name.now desc.now) class.now.fields }
        ensures bound { IfSome result (λ i. i < length class.now.fields) }
    {
        place_of(class.fields.as_slice(), self.fields.as_slice(), name, desc)
    }

    /// The place of the first method with this name and descriptor, in the number of steps of a binary search.
    pub(crate) fn method_place(&self, class: &ClassRecord, name: &[u8], desc: &[u8]) -> Option<u32>
        requires { AreMembers class.now self.now }
        ensures place { result ≡ position (is_method name.now desc.now) class.now.methods }
        ensures bound { IfSome result (λ i. i < length class.now.methods) }
    {
        place_of(
            class.methods.as_slice(),
            self.methods.as_slice(),
            name,
            desc,
        )
    }
}

/// The members of each class, in the order of the classes.
pub(crate) fn members_of_each(
    alloc: Global,
    hierarchy: &Hierarchy,
) -> Result<Vec<Members>, AllocError>
    ensures { IfOk result (λ members. HaveMembers hierarchy.now (length hierarchy.now) members.items) }
{
    let mut members = Vec::new(alloc);
    for class in 0..hierarchy.count() {
        members.push(Members::of(alloc, hierarchy.record(class))?)?;
    }
    Ok(members)
}
