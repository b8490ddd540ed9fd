//! Classes of which none leads back to itself, and what stands above each.

ghost use Rattle.std.specs.Prelude.{◌≡◌, ◌∷◌, ◌<◌, ◌≤◌, ◌↔◌, ◌^◌, length, IsSome, IfSome, IfOk, All, nat_eq};
ghost use Rattle.std.specs.List.{list_any, flat_map};
ghost use Rattle.class_hierarchy.specs.World.{object_class, class_at, number_of, superclass, interfaces, line, above, is_below, is_instantiable, superinterfaces, ancestors};
ghost use Rattle.class_hierarchy.specs.Building.{IsWellBuilt};
ghost use Rattle.class_reader.specs.Flags as flag;
ghost use Rattle.class_hierarchy.specs.Orders.{IsSupersFirst};
ghost use Rattle.class_hierarchy.specs.Tables.{SameFirst, HasFew};

use crate::above::{above_of, row_of, stands_above};
use crate::classes::Classes;
use crate::table::{row_in, super_in};
use class_pool::Sequence;
use class_reader::{Class, ClassRecord, is_abstract, is_interface};
use std::alloc::{AllocError, Global};
use std::marker::Model;

/// Classes that form a world. Contracts see the list of what they say, with the class that is built in first.
#[derive(Drop)]
pub struct Hierarchy {
    pub(crate) classes: Classes,
    /// The direct superclass of each class.
    pub(crate) supers: Vec<Option<u32>>,
    /// The direct superinterfaces of each class.
    pub(crate) links: Vec<Sequence<u32>>,
    /// The classes, each behind all that it names.
    pub(crate) order: Vec<u32>,
    /// All interfaces above each class with several direct superinterfaces.
    pub(crate) rows: Vec<Sequence<u32>>,
}

impl Model for Hierarchy {
    ghost use Rattle.std.specs.Prelude.{List};
    ghost use Rattle.class_reader.specs.declared.class.ClassRecord.{ClassRecord};
    ghost use Rattle.class_hierarchy.specs.Tables.{IsHierarchy};

    ghost Value = { List ClassRecord };

    ghost view = { λ h. h.classes };

    ghost invariant = { λ h. IsHierarchy h.classes h.supers.items h.links.items h.order.items h.rows.items };
}

impl Hierarchy {
    /// How many classes there are, with the one that is built in.
    pub fn count(&self) -> u32
        ensures count { result ≡ length self.now }
        ensures fits { result ≤ 2 ^ 31 }
    {
        self.classes.len()
    }

    /// The number of the class whose name has these bytes: None exactly where there is none.
    pub fn number(&self, name: &[u8]) -> Option<u32>
        ensures number { result ≡ number_of self.now name.now }
        ensures bound { IfSome result (λ c. c < length self.now) }
    {
        self.classes.number(name)
    }

    /// What the class with this number says, and what the class that is built in says where there is none.
    pub fn record(&self, class: u32) -> &ClassRecord
        ensures same { result.now ≡ class_at self.now class }
        ensures few { HasFew (class_at self.now class) }
    {
        self.classes.record(class)
    }

    /// The class of the file with this number: None exactly for a class that is built in.
    pub fn file(&self, class: u32) -> Option<&Class>
        requires { class < length self.now }
        ensures kind { IsSome result ↔ (0 < class) }
        ensures same { IfSome result (λ r. r.now ≡ class_at self.now class) }
    {
        self.classes.file(class)
    }

    /// A law: there is a first class, the one that is built in. Does nothing.
    pub fn built_in(&self)
        ensures first { class_at self.now 0 ≡ object_class }
        ensures some { 1 ≤ length self.now }
    {
        self.classes.built_in();
    }

    /// A law: the classes are a world. Does nothing.
    pub fn well_built(&self)
        ensures { IsWellBuilt self.now }
    {
        let _ = &self.rows;
    }

    /// The number of the direct superclass (JVMS 4.1): None where the class names none.
    pub fn superclass(&self, class: u32) -> Option<u32>
        ensures number { result ≡ superclass self.now class }
        ensures bound { IfSome result (λ c. c < length self.now) }
    {
        super_in(&self.supers, class)
    }

    /// The numbers of the direct superinterfaces, in order (JVMS 4.1).
    pub fn interfaces(&self, class: u32) -> &[u32]
        requires { class < length self.now }
        ensures same { result.now ≡ interfaces self.now class }
        ensures below { All (λ c. c < length self.now) result.now }
    {
        row_in(&self.links, class)
    }

    /// The classes, each once and behind all that it names.
    pub fn supers_first(&self) -> &[u32]
        ensures { IsSupersFirst self.now result.now }
    {
        &self.order
    }

    /// The class and its superclasses, from it up.
    pub fn line(&self, alloc: Global, class: u32) -> Result<Vec<u32>, AllocError>
        ensures { IfOk result (λ v. v.items ≡ line self.now class) }
    {
        let mut found = Vec::new(alloc);
        let mut next = Some(class);
        for _ in 0..self.count() {
            match next {
                Some(at) => {
                    found.push(at)?;
                    next = self.superclass(at);
                }
                None => return Ok(found),
            }
        }
        Ok(found)
    }

    /// Whether the class is an interface (JVMS 4.1).
    pub fn is_interface(&self, class: u32) -> bool
        ensures { result ≡ flag.is_interface (class_at self.now class).flags }
    {
        is_interface(self.classes.record(class).flags)
    }

    /// Whether an object can be made of the class: it is neither an interface nor abstract (JVMS 6.5, new).
    pub fn is_instantiable(&self, class: u32) -> bool
        ensures { result ≡ is_instantiable self.now class }
    {
        let flags = self.classes.record(class).flags;
        !(is_interface(flags) || is_abstract(flags))
    }

    /// Whether the class d stands above e by names of interfaces.
    pub fn is_above(&self, e: u32, d: u32) -> bool
        ensures { result ≡ list_any (nat_eq d) (above self.now e) }
    {
        stands_above(&self.classes, &self.links, &self.rows, e, d)
    }

    /// Whether d is the class e or stands above it by names of interfaces.
    fn is_at_or_above(&self, e: u32, d: u32) -> bool
        ensures { result ≡ list_any (nat_eq d) (e ∷ above self.now e) }
    {
        d == e || self.is_above(e, d)
    }

    /// Whether an object of the class is an instance of the other: of itself, of a superclass, or of an interface that
    /// one of these names, also through interfaces.
    pub fn is_below(&self, class: u32, other: u32) -> bool
        ensures { result ≡ is_below self.now class other }
    {
        let mut next = Some(class);
        for _ in 0..self.count() {
            match next {
                Some(at) => {
                    if self.is_at_or_above(at, other) {
                        return true;
                    }
                    next = self.superclass(at);
                }
                None => return false,
            }
        }
        false
    }

    /// The superinterfaces of a class, each once.
    #[tactic(auto, unfolding(crate::specs::World::superinterfaces))]
    pub fn superinterfaces(&self, alloc: Global, class: u32) -> Result<Vec<u32>, AllocError>
        ensures { IfOk result (λ v. SameFirst v.items (superinterfaces self.now class)) }
    {
        let line = self.line(alloc, class)?;
        let above = above_of(alloc, &self.classes, &self.links, &self.rows, &line)?;
        Ok(above)
    }

    /// The class, its superinterfaces by its own names, and then the same of the superclass, each once.
    #[tactic(auto, unfolding(crate::specs::World::ancestors))]
    pub fn ancestors(&self, alloc: Global, class: u32) -> Result<Sequence<u32>, AllocError>
        ensures { IfOk result (λ v. SameFirst v (ancestors self.now class)) }
    {
        let line = self.line(alloc, class)?;
        let row = row_of(alloc, &self.classes, &self.links, &self.rows, &line)?;
        Ok(row)
    }

    /// What stands above the classes by names of interfaces, each once.
    pub fn above_all(&self, alloc: Global, classes: &[u32]) -> Result<Vec<u32>, AllocError>
        ensures { IfOk result (λ v. SameFirst v.items (flat_map (above self.now) classes.now)) }
    {
        let above = above_of(alloc, &self.classes, &self.links, &self.rows, classes)?;
        Ok(above)
    }
}
