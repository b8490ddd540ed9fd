//! Which method runs on a receiver.

ghost use Rattle.std.specs.Prelude.{◌≡◌, ◌∷◌, ◌&&◌, not, nat_eq, Ok, find, is_some, length, IfOk};
ghost use Rattle.std.specs.List.{list_any};
ghost use Rattle.world.specs.declared.access.MethodKind.TheVariants as kinds;
ghost use Rattle.class_hierarchy.specs.World.{line, above, superclass, is_below};
ghost use Rattle.world.specs.Resolution.{method_in, has_default};
ghost use Rattle.world.specs.Selection.{package_of, same_package, meets_package, only_default, inherited, is_package_override, allowed, chosen, selected_by, selected, method_of};
ghost use Rattle.world.specs.Tables.{HasMethod, Tells};

use crate::access::{MethodKind, is_no_target};
use crate::fault::ResolveFault;
use crate::member::MemberId;
use crate::resolve::{default_of, first_method};
use crate::world::World;
use class_pool::Text;
use class_reader::{Method, is_private};
use std::alloc::Global;

/// The package of a class: what stands before the last slash of its name, with it.
fn package_of(name: &[u8]) -> &[u8]
    ensures { result.now ≡ package_of name.now }
{
    let mut end = name.len();
    while end > 0 {
        if name[end - 1] == b'/' {
            return &name[..end];
        }
        end -= 1;
    }
    &[]
}

impl World {
    /// Whether two classes are of one package.
    pub(crate) fn same_package(&self, c: u32, d: u32) -> bool
        ensures { result ≡ same_package self.now c d }
    {
        package_of(self.hierarchy.record(c).name.as_slice())
            == package_of(self.hierarchy.record(d).name.as_slice())
    }

    /// Whether a class of another package has the method.
    fn is_met(&self, among: &[u32], name: &[u8], desc: &[u8], d: u32) -> bool
        ensures { result ≡ list_any (λ e. is_some (method_in self.now name.now desc.now kinds.Any e) && not (same_package self.now d e)) among.now }
    {
        among.iter().any(|e| self.has_such(*e, name, desc, MethodKind::Any)
            && !self.same_package(d, *e))
    }

    /// The first class that has the method for its package alone.
    fn first_for_package(&self, among: &[u32], name: &[u8], desc: &[u8]) -> Option<u32>
        ensures { result ≡ find (λ d. is_some (method_in self.now name.now desc.now kinds.Package d)) among.now }
    {
        among
            .iter()
            .copied()
            .find(|d| self.has_such(*d, name, desc, MethodKind::Package))
    }

    /// Whether a method for its package alone meets one of another package. The first such method decides: where all
    /// that have the method are of its package, no other one is met either.
    fn meets_package(&self, among: &[u32], name: &[u8], desc: &[u8]) -> bool
        ensures { result ≡ meets_package self.now name.now desc.now among.now }
    {
        match self.first_for_package(among, name, desc) {
            Some(d) => self.is_met(among, name, desc, d),
            None => false,
        }
    }

    /// The first interface with a default method.
    fn first_default(&self, among: &[u32], name: &[u8], desc: &[u8]) -> Option<u32>
        ensures { result ≡ find (has_default self.now name.now desc.now) among.now }
    {
        among
            .iter()
            .copied()
            .find(|d| self.has_default(*d, name, desc))
    }

    /// Whether another interface has one.
    fn has_other_default(&self, among: &[u32], name: &[u8], desc: &[u8], d: u32) -> bool
        ensures { result ≡ list_any (λ e. has_default self.now name.now desc.now e && not (nat_eq d e)) among.now }
    {
        among
            .iter()
            .any(|e| self.has_default(*e, name, desc) && !(d == *e))
    }

    /// The only default method.
    #[tactic(auto, unfolding(crate::specs::Selection::only_default))]
    fn only_default(
        &self,
        among: &[u32],
        name: &[u8],
        desc: &[u8],
    ) -> Result<MemberId, ResolveFault>
        ensures { result ≡ only_default self.now name.now desc.now among.now }
    {
        match self.first_default(among, name, desc) {
            Some(d) => {
                if self.has_other_default(among, name, desc, d) {
                    Err(ResolveFault::Ambiguous)
                } else {
                    default_of(self, d, name, desc)
                }
            }
            None => Err(ResolveFault::MissingMember),
        }
    }

    /// The first inherited method up the superclasses, else the only default method.
    fn inherited(
        &self,
        alloc: Global,
        chain: &[u32],
        class: u32,
        name: &[u8],
        desc: &[u8],
    ) -> Result<MemberId, ResolveFault>
        requires { chain.now ≡ line self.now class }
        ensures { Tells result (inherited self.now name.now desc.now class) }
    {
        match first_method(self, chain, name, desc, MethodKind::Inherited) {
            Some(method) => Ok(method),
            None => {
                let among = self.hierarchy.superinterfaces(alloc, class)?;
                self.only_default(&among, name, desc)
            }
        }
    }

    /// Whether the receiver's classes have the method across packages.
    fn is_package_override(&self, chain: &[u32], class: u32, method: &Method) -> bool
        requires { chain.now ≡ line self.now class }
        ensures { result ≡ is_package_override self.now class method.now }
    {
        !is_private(method.flags)
            && self.meets_package(chain, method.name.as_slice(), method.desc.as_slice())
    }

    /// The flags of a method.
    pub(crate) fn flags_of(&self, method: MemberId) -> u16
        ensures { result ≡ (method_of self.now method).flags }
    {
        match self
            .hierarchy
            .record(method.class)
            .methods
            .as_slice()
            .get(method.member as usize)
        {
            Some(method) => method.flags,
            None => 0x0001,
        }
    }

    /// What runs, before anything speaks against it.
    fn chosen(
        &self,
        alloc: Global,
        chain: &[u32],
        class: u32,
        m: MemberId,
        method: &Method,
    ) -> Result<MemberId, ResolveFault>
        requires { chain.now ≡ line self.now class }
        ensures { Tells result (chosen self.now class m method.now) }
    {
        if is_private(method.flags) {
            Ok(m)
        } else {
            self.inherited(
                alloc,
                chain,
                class,
                method.name.as_slice(),
                method.desc.as_slice(),
            )
        }
    }

    /// What was chosen, where nothing speaks against it.
    fn allowed(
        &self,
        chain: &[u32],
        class: u32,
        m: MemberId,
        method: &Method,
        chosen: MemberId,
    ) -> Result<MemberId, ResolveFault>
        requires line { chain.now ≡ line self.now class }
        requires method { method.now ≡ method_of self.now m }
        ensures { result ≡ allowed self.now class m (Ok chosen) }
    {
        if self.is_package_override(chain, class, method) {
            return Err(ResolveFault::PackageOverride);
        }
        if is_no_target(self.flags_of(chosen)) {
            return Err(ResolveFault::AbstractTarget);
        }
        if self.is_below(class, m.class) {
            Ok(chosen)
        } else {
            Err(ResolveFault::NotInstance)
        }
    }

    /// The method that a call of m runs on an object of this class.
    ///
    /// # Errors
    ///
    /// As those of `selected`, without `MissingClass`.
    #[tactic(auto, unfolding(crate::specs::Selection::selected_by))]
    pub fn selected_by(
        &self,
        alloc: Global,
        m: MemberId,
        class: u32,
    ) -> Result<MemberId, ResolveFault>
        requires { HasMethod self.now m }
        ensures { Tells result (selected_by self.now m class) }
    {
        let chain = self.hierarchy.line(alloc, class)?;
        let method = self.method_at(m);
        let chosen = self.chosen(alloc, &chain, class, m, method)?;
        self.allowed(&chain, class, m, method, chosen)
    }

    /// The method that a call of m runs on an object of the class with this name.
    ///
    /// # Errors
    ///
    /// `MissingClass` where there is no such class, `MissingMember` and `Ambiguous` where nothing or too much is
    /// selected, `PackageOverride` where a method for its package alone meets one of another package on the way up,
    /// `AbstractTarget` where a static or an abstract method is selected, `NotInstance` where the object is no instance
    /// of the class that declares m.
    #[tactic(auto, unfolding(crate::specs::Selection::selected))]
    pub fn selected(
        &self,
        alloc: Global,
        receiver: &Text,
        m: MemberId,
    ) -> Result<MemberId, ResolveFault>
        requires { HasMethod self.now m }
        // What is selected is a method of the world.
        ensures there { IfOk result (λ t. HasMethod self.now t) }
        ensures exact { Tells result (selected self.now receiver.now m) }
    {
        match self.class(receiver) {
            Some(class) => {
                let method = self.selected_by(alloc, m, class)?;
                Ok(method)
            }
            None => Err(ResolveFault::MissingClass),
        }
    }
}
