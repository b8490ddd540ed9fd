//! Values that are replaced where they stand (JVMS 2.4).

ghost use Rattle.std.specs.Prelude.{◌≡◌, ◌<◌, length, slice_set};
ghost use Rattle.frames.specs.Slots.{is_member, place_of, value_of, with_value};

use crate::Value;
use std::marker::Model;
use world::MemberId;

/// Values in order, of which each can be replaced. Contracts see the list.
#[derive(Drop)]
pub struct Slots<T> {
    items: Vec<T>,
}

impl<T> Model for Slots<T> {
    ghost use Rattle.std.specs.Prelude.{List};
    ghost use Rattle.std.specs.Coded.{coded_list};

    ghost Value = { List T };

    ghost coded = { coded_list T.code };

    ghost view = { λ s. s.items.items };
}

impl<T> Slots<T> {
    /// How many values there are.
    pub fn len(&self) -> usize
        ensures { result ≡ length self.now }
    {
        self.items.len()
    }

    /// The values in order.
    pub fn as_slice(&self) -> &[T]
        ensures { result.now ≡ self.now }
    {
        self.items.as_slice()
    }

    /// Puts a value in the place of another.
    pub fn set(&mut self, place: usize, value: T)
    where
        T: Drop,
        requires { place < length self.old }
        ensures { self.new ≡ slice_set self.old place value }
    {
        self.items[place] = value;
    }
}

impl<T> From<Vec<T>> for Slots<T> {
    ghost from_gives = { λ v s. s ≡ v.items };

    fn from(items: Vec<T>) -> Self {
        Slots { items }
    }
}

// Whether the two are one member.
fn is_member(m: MemberId, n: MemberId) -> bool
    ensures { result ≡ is_member m n }
{
    m.class == n.class && m.member == n.member
}

// Where the member stands among values, each by its member.
fn place_of(member: MemberId, values: &[(MemberId, Value)]) -> Option<usize>
    ensures { result ≡ place_of member values.now }
{
    values.iter().position(|f| is_member(member, f.0))
}

// The value of a member, where it stands among them.
pub(crate) fn value_of(member: MemberId, values: &[(MemberId, Value)]) -> Option<Value>
    ensures { result ≡ value_of member values.now }
{
    let place = place_of(member, values)?;
    Some(values[place].1)
}

// Puts a value in the place of that of a member.
pub(crate) fn set_value(values: &mut Slots<(MemberId, Value)>, member: MemberId, value: Value)
    ensures { values.new ≡ with_value member value values.old }
{
    if let Some(place) = place_of(member, values.as_slice()) {
        values.set(place, (member, value));
    }
}
