//! Which member a name means.

ghost use Rattle.std.specs.Prelude.{◌≡◌, not, nat_eq, Err, if◌then◌else◌, IfOk};
ghost use Rattle.std.specs.Option.{ok_or};
ghost use Rattle.std.specs.List.{list_any, filter, flat_map};
ghost use Rattle.std.specs.List.Sorted.{IsNonDecreasing};
ghost use Rattle.world.specs.declared.access.MethodKind.TheVariants as kinds;
ghost use Rattle.world.specs.declared.fault.ResolveFault.TheVariants.{MissingMember, Ambiguous};
ghost use Rattle.class_hierarchy.specs.World.{above};
ghost use Rattle.world.specs.Resolution.{first_of, field_in, method_in, field_from, has_default, is_most_specific, interface_method, method_from, resolved_field, resolved_method};
ghost use Rattle.class_hierarchy.specs.Tables.{SameFirst};
ghost use Rattle.world.specs.Tables.{HasField, HasMethod, Tells};

use crate::access::MethodKind;
use crate::fault::ResolveFault;
use crate::member::MemberId;
use crate::world::World;
use class_pool::Text;
use std::alloc::{AllocError, Global};

/// The first field of these classes with this name and descriptor.
fn first_field(world: &World, among: &[u32], name: &[u8], desc: &[u8]) -> Option<MemberId>
    ensures { result ≡ first_of (field_in world.now name.now desc.now) among.now }
{
    for class in among {
        match world.field_in(*class, name, desc) {
            Some(field) => return Some(field),
            None => {}
        }
    }
    None
}

/// The first method of these classes with this name, descriptor and kind.
pub(crate) fn first_method(
    world: &World,
    among: &[u32],
    name: &[u8],
    desc: &[u8],
    kind: MethodKind,
) -> Option<MemberId>
    ensures { result ≡ first_of (method_in world.now name.now desc.now kind) among.now }
{
    for class in among {
        match world.method_in(*class, name, desc, kind) {
            Some(method) => return Some(method),
            None => {}
        }
    }
    None
}

/// The default method of the class.
pub(crate) fn default_of(
    world: &World,
    class: u32,
    name: &[u8],
    desc: &[u8],
) -> Result<MemberId, ResolveFault>
    ensures { result ≡ ok_or (method_in world.now name.now desc.now kinds.Default class) MissingMember }
{
    match world.method_in(class, name, desc, MethodKind::Default) {
        Some(method) => Ok(method),
        None => Err(ResolveFault::MissingMember),
    }
}

/// Whether the class is among these, which rise.
fn is_among(rising: &[u32], class: u32) -> bool
    requires { IsNonDecreasing rising.now }
    ensures { result ≡ list_any (nat_eq class) rising.now }
{
    rising.binary_search(&class).is_ok()
}

/// The classes that aren't among the others, which rise.
fn outside(alloc: Global, classes: &[u32], rising: &[u32]) -> Result<Vec<u32>, AllocError>
    requires { IsNonDecreasing rising.now }
    ensures { IfOk result (λ v. v.items ≡ filter (λ d. not (list_any (nat_eq d) rising.now)) classes.now) }
{
    let mut found = Vec::new(alloc);
    for class in classes {
        if !is_among(rising, *class) {
            found.push(*class)?;
        }
    }
    Ok(found)
}

/// Whether another class is among these.
fn has_other(among: &[u32], class: u32) -> bool
    ensures { result ≡ list_any (λ e. not (nat_eq class e)) among.now }
{
    among.iter().any(|other| !(class == *other))
}

impl World {
    /// Whether the class has a default method.
    pub(crate) fn has_default(&self, class: u32, name: &[u8], desc: &[u8]) -> bool
        ensures { result ≡ has_default self.now name.now desc.now class }
    {
        self.has_such(class, name, desc, MethodKind::Default)
    }

    /// The interfaces with a default method.
    fn with_default(
        &self,
        alloc: Global,
        among: &[u32],
        name: &[u8],
        desc: &[u8],
    ) -> Result<Vec<u32>, AllocError>
        ensures { IfOk result (λ v. v.items ≡ filter (has_default self.now name.now desc.now) among.now) }
    {
        among
            .iter()
            .copied()
            .filter(|e| self.has_default(*e, name, desc))
            .collect(alloc)
    }

    /// The interfaces with a default method that no other overrides: those that don't stand above another one with a
    /// default method. What stands above any of them is gathered once, and sorted, so that each look-up is short.
    fn most_specific(
        &self,
        alloc: Global,
        among: &[u32],
        name: &[u8],
        desc: &[u8],
    ) -> Result<Vec<u32>, AllocError>
        ensures { IfOk result (λ v. v.items ≡ filter (is_most_specific self.now name.now desc.now among.now) among.now) }
    {
        let candidates = self.with_default(alloc, among, name, desc)?;
        let mut above = self.hierarchy.above_all(alloc, &candidates)?;
        above.sort_unstable();
        let specific = outside(alloc, &candidates, &above)?;
        Ok(specific)
    }

    /// The default method of the interface, where there is no other among these.
    fn only_one(
        &self,
        among: &[u32],
        d: u32,
        name: &[u8],
        desc: &[u8],
    ) -> Result<MemberId, ResolveFault>
        ensures { result ≡ (if list_any (λ e. not (nat_eq d e)) among.now then Err Ambiguous else ok_or (method_in self.now name.now desc.now kinds.Default d) MissingMember) }
    {
        if has_other(among, d) {
            Err(ResolveFault::Ambiguous)
        } else {
            default_of(self, d, name, desc)
        }
    }

    /// The only default method that no other overrides; where there is none, the first that isn't private or static.
    fn interface_method(
        &self,
        alloc: Global,
        among: &[u32],
        name: &[u8],
        desc: &[u8],
    ) -> Result<MemberId, ResolveFault>
        ensures { Tells result (interface_method self.now name.now desc.now among.now) }
    {
        let specific = self.most_specific(alloc, among, name, desc)?;
        match specific.first() {
            Some(d) => self.only_one(&specific, *d, name, desc),
            None => first_method(self, among, name, desc, MethodKind::Inherited).ok_or(
                ResolveFault::MissingMember,
            ),
        }
    }

    /// The first field of these classes.
    fn field_among(&self, among: &[u32], name: &[u8], desc: &[u8]) -> Result<MemberId, ResolveFault>
        ensures { result ≡ ok_or (first_of (field_in self.now name.now desc.now) among.now) MissingMember }
    {
        first_field(self, among, name, desc).ok_or(ResolveFault::MissingMember)
    }

    /// The field that the name means in the class.
    #[tactic(auto, using(crate::proofs::Finding::field_by))]
    fn field_from(
        &self,
        alloc: Global,
        class: u32,
        name: &[u8],
        desc: &[u8],
    ) -> Result<MemberId, ResolveFault>
        ensures { Tells result (field_from self.now name.now desc.now class) }
    {
        let among = self.hierarchy.ancestors(alloc, class)?;
        self.field_among(among.as_slice(), name, desc)
    }

    /// The method that the name means in the class.
    #[tactic(auto, unfolding(crate::specs::Resolution::method_from))]
    fn method_from(
        &self,
        alloc: Global,
        class: u32,
        name: &[u8],
        desc: &[u8],
    ) -> Result<MemberId, ResolveFault>
        ensures { Tells result (method_from self.now name.now desc.now class) }
    {
        let line = self.hierarchy.line(alloc, class)?;
        match first_method(self, &line, name, desc, MethodKind::Any) {
            Some(method) => Ok(method),
            None => {
                let among = self.hierarchy.superinterfaces(alloc, class)?;
                self.interface_method(alloc, &among, name, desc)
            }
        }
    }

    /// The field that a name and a descriptor mean in the class of this name: the first in it, its superinterfaces
    /// by its own names, and then the same of its superclass.
    ///
    /// # Errors
    ///
    /// `MissingClass` where there is no such class, `MissingMember` where there is no such field.
    #[tactic(auto, unfolding(crate::specs::Resolution::resolved_field))]
    pub fn resolve_field(
        &self,
        alloc: Global,
        class: &Text,
        name: &Text,
        desc: &Text,
    ) -> Result<MemberId, ResolveFault>
        // What is resolved is a field of the world.
        ensures there { IfOk result (λ m. HasField self.now m) }
        ensures exact { Tells result (resolved_field self.now class.now name.now desc.now) }
    {
        match self.class(class) {
            Some(class) => {
                let field = self.field_from(alloc, class, name.as_slice(), desc.as_slice())?;
                Ok(field)
            }
            None => Err(ResolveFault::MissingClass),
        }
    }

    /// The method that a name and a descriptor mean in the class of this name: the first in it and its superclasses,
    /// and else one of its superinterfaces.
    ///
    /// # Errors
    ///
    /// `MissingClass` where there is no such class, `MissingMember` where there is no such method, `Ambiguous` where
    /// several default methods are meant.
    #[tactic(auto, unfolding(crate::specs::Resolution::resolved_method))]
    pub fn resolve_method(
        &self,
        alloc: Global,
        class: &Text,
        name: &Text,
        desc: &Text,
    ) -> Result<MemberId, ResolveFault>
        // What is resolved is a method of the world.
        ensures there { IfOk result (λ m. HasMethod self.now m) }
        ensures exact { Tells result (resolved_method self.now class.now name.now desc.now) }
    {
        match self.class(class) {
            Some(class) => {
                let method = self.method_from(alloc, class, name.as_slice(), desc.as_slice())?;
                Ok(method)
            }
            None => Err(ResolveFault::MissingClass),
        }
    }
}
