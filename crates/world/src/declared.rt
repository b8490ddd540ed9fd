//! The members that a class itself declares.

ghost use Rattle.std.specs.Prelude.{◌≡◌, ◌<◌, ◌↔◌, length, IsSome, IfSome, position, is_some, slice_get, false};
ghost use Rattle.std.specs.Option.{option_copied, option_and_then, option_map, option_map_or};
ghost use Rattle.class_hierarchy.specs.World.{class_at};
ghost use Rattle.world.specs.Access.{has_kind};
ghost use Rattle.world.specs.Tables.{HasMethod, HasShortCode};
ghost use Rattle.world.specs.Resolution.{member, is_method, field_in, method_in};
ghost use Rattle.world.specs.Members.{AreMembers};

use crate::access::MethodKind;
use crate::member::MemberId;
use crate::members::Members;
use crate::world::World;
use class_pool::Text;
use class_reader::{ClassRecord, Method};

/// Whether the method there is of the kind.
fn is_of_kind(methods: &[Method], kind: MethodKind, place: u32) -> bool
    ensures { result ≡ option_map_or (λ method. has_kind kind method.flags) (slice_get methods.now place) false }
{
    match methods.get(place as usize) {
        Some(method) => kind.has(method.flags),
        None => false,
    }
}

/// The method at this place of a class.
fn method_at(class: &ClassRecord, place: u32) -> Option<&Method>
    ensures { option_copied result ≡ slice_get class.now.methods place }
{
    class.methods.as_slice().get(place as usize)
}

impl World {
    /// The method with this number, if there is one. Its code takes at most 65,535 bytes (JVMS 4.7.3).
    #[tactic(auto, using(crate::proofs::Short::file_short, crate::proofs::Short::object_short))]
    pub fn find_method(&self, m: MemberId) -> Option<&Method>
        ensures same { option_copied result ≡ option_and_then (λ class. slice_get class.methods m.member) (slice_get self.now m.class) }
        ensures kind { IsSome result ↔ HasMethod self.now m }
        ensures short { IfSome result (λ method. HasShortCode method.now) }
    {
        if m.class >= self.count() {
            return None;
        }
        match self.hierarchy.file(m.class) {
            Some(file) => method_at(file.record(), m.member),
            None => {
                self.hierarchy.built_in();
                method_at(self.hierarchy.record(m.class), m.member)
            }
        }
    }

    /// The members of the class with this number, and those of the class that is built in where there is none.
    fn members_of(&self, class: u32) -> &Members
        ensures { AreMembers (class_at self.now class) result.now }
    {
        match self.members.get(class as usize) {
            Some(members) => members,
            None => {
                self.hierarchy.built_in();
                &self.members[0]
            }
        }
    }

    /// The method that the class itself declares with this name and descriptor.
    pub fn declared_method(&self, class: u32, name: &Text, desc: &Text) -> Option<MemberId>
        requires { class < length self.now }
        ensures method { result ≡ option_map (member class) (position (is_method name.now desc.now) (class_at self.now class).methods) }
        ensures there { IfSome result (HasMethod self.now) }
    {
        let members = self.members_of(class);
        match members.method_place(
            self.hierarchy.record(class),
            name.as_slice(),
            desc.as_slice(),
        ) {
            Some(place) => Some(MemberId {
                class,
                member: place,
            }),
            None => None,
        }
    }

    /// The field of the class with this name and descriptor.
    #[tactic(auto, unfolding(crate::specs::Resolution::field_in))]
    pub(crate) fn field_in(&self, class: u32, name: &[u8], desc: &[u8]) -> Option<MemberId>
        ensures { result ≡ field_in self.now name.now desc.now class }
    {
        let members = self.members_of(class);
        match members.field_place(self.hierarchy.record(class), name, desc) {
            Some(place) => Some(MemberId {
                class,
                member: place,
            }),
            None => None,
        }
    }

    /// The method of the class with this name and descriptor, where it is of the kind.
    #[tactic(auto, unfolding(crate::specs::Resolution::method_in))]
    pub(crate) fn method_in(
        &self,
        class: u32,
        name: &[u8],
        desc: &[u8],
        kind: MethodKind,
    ) -> Option<MemberId>
        ensures { result ≡ method_in self.now name.now desc.now kind class }
    {
        let record = self.hierarchy.record(class);
        match self.members_of(class).method_place(record, name, desc) {
            Some(place) => {
                if is_of_kind(record.methods.as_slice(), kind, place) {
                    Some(MemberId {
                        class,
                        member: place,
                    })
                } else {
                    None
                }
            }
            None => None,
        }
    }

    /// Whether the class has a method of this name, descriptor and kind.
    pub(crate) fn has_such(&self, class: u32, name: &[u8], desc: &[u8], kind: MethodKind) -> bool
        ensures { result ≡ is_some (method_in self.now name.now desc.now kind class) }
    {
        self.method_in(class, name, desc, kind).is_some()
    }
}
