//! The world of classes.

ghost use Rattle.std.specs.Prelude.{◌≡◌, ◌≢◌, ◌<◌, ◌≤◌, ◌↔◌, ◌^◌, length, Some, IsSome, IfSome, IfOk, IfErr, OnOk, IsTrue, All, slice_get};
ghost use Rattle.std.specs.Option.{option_copied};
ghost use Rattle.class_hierarchy.specs.World.{world_of, class_at, number_of, superclass, line, is_below, is_instantiable};
ghost use Rattle.class_hierarchy.specs.Building.{IsWellBuilt, IsFault};
ghost use Rattle.class_reader.specs.Flags as flag;
ghost use Rattle.class_hierarchy.specs.declared.fault.WorldFault.TheVariants.{Memory};
ghost use Rattle.world.specs.Selection.{method_of};
ghost use Rattle.class_hierarchy.specs.Tables.{HasFew};
ghost use Rattle.world.specs.Tables.{HasField, HasMethod};

use crate::member::MemberId;
use crate::members::{Members, members_of_each};
use class_hierarchy::{Hierarchy, WorldFault};
use class_pool::Text;
use class_reader::{Class, ClassRecord, Code, Field, Method};
use std::alloc::{AllocError, Global};
use std::marker::Model;

/// Classes that are a world. Contracts see the list of what they say, with the class that is built in first.
#[derive(Drop)]
pub struct World {
    pub(crate) hierarchy: Hierarchy,
    /// The members of each class by name.
    pub(crate) members: Vec<Members>,
}

impl Model for World {
    ghost use Rattle.std.specs.Prelude.{List, length};
    ghost use Rattle.class_reader.specs.declared.class.ClassRecord.{ClassRecord};
    ghost use Rattle.world.specs.Members.{HaveMembers};

    ghost Value = { List ClassRecord };

    ghost view = { λ w. w.hierarchy };

    ghost invariant = { λ w. HaveMembers w.hierarchy (length w.hierarchy) w.members.items };
}

impl World {
    /// The world of these classes and the class that is built in.
    ///
    /// # Errors
    ///
    /// `Twice`, `MissingSuper`, `WrongSuper`, `SuperCycle` and `FinalSuper` where their condition holds, the first of
    /// these kinds, and of one kind the first class in order.
    pub fn build(alloc: Global, classes: Vec<Class>) -> Result<World, WorldFault>
        requires { length classes.items < 2 ^ 31 }

        // The world is the classes in order, behind the one that is built in.
        ensures world { IfOk result (λ w. w ≡ world_of classes.items) }
        ensures well_built { OnOk result (IsWellBuilt (world_of classes.items)) }
        ensures fault { IfErr result (λ e. e ≢ Memory → IsFault (world_of classes.items) e) }
    {
        let hierarchy = Hierarchy::build(alloc, classes)?;
        let members = members_of_each(alloc, &hierarchy)?;
        Ok(World { hierarchy, members })
    }

    /// How many classes there are, with the one that is built in.
    pub fn count(&self) -> u32
        ensures { result ≡ length self.now }
    {
        self.hierarchy.count()
    }

    /// The number of the class with this name: None exactly where there is none.
    pub fn class(&self, name: &Text) -> Option<u32>
        ensures number { result ≡ number_of self.now name.now }
        ensures bound { IfSome result (λ c. c < length self.now) }
    {
        self.class_named(name.as_slice())
    }

    /// The number of the class whose name has these bytes: None exactly where there is none.
    pub fn class_named(&self, name: &[u8]) -> Option<u32>
        ensures number { result ≡ number_of self.now name.now }
        ensures bound { IfSome result (λ c. c < length self.now) }
    {
        self.hierarchy.number(name)
    }

    /// What the class with this number says, and what the class that is built in says where there is none: that class
    /// has the number 0.
    pub fn record_at(&self, class: u32) -> &ClassRecord
        ensures same { result.now ≡ class_at self.now class }
        ensures few { HasFew (class_at self.now class) }
    {
        self.hierarchy.record(class)
    }

    /// The number of the direct superclass (JVMS 4.1): None where the class names none.
    pub fn superclass(&self, class: u32) -> Option<u32>
        ensures number { result ≡ superclass self.now class }
        ensures bound { IfSome result (λ c. c < length self.now) }
    {
        self.hierarchy.superclass(class)
    }

    /// Whether an object can be made of the class: it is neither an interface nor abstract (JVMS 6.5, new).
    pub fn is_instantiable(&self, class: u32) -> bool
        ensures { result ≡ is_instantiable self.now class }
    {
        self.hierarchy.is_instantiable(class)
    }

    /// Whether an object of the class is an instance of the other: of itself, of a superclass, or of an interface that
    /// one of these names, also through interfaces.
    pub fn is_below(&self, class: u32, other: u32) -> bool
        ensures { result ≡ is_below self.now class other }
    {
        self.hierarchy.is_below(class, other)
    }

    /// The class and its superclasses, from it up.
    pub fn line(&self, alloc: Global, class: u32) -> Result<Vec<u32>, AllocError>
        requires { class < length self.now }
        ensures line { IfOk result (λ v. v.items ≡ line self.now class) }
        ensures bound { IfOk result (λ v. All (λ c. c < length self.now) v.items) }
    {
        let line = self.hierarchy.line(alloc, class)?;
        Ok(line)
    }

    /// Whether the class is an interface (JVMS 4.1).
    pub fn is_interface(&self, class: u32) -> bool
        ensures { result ≡ flag.is_interface (class_at self.now class).flags }
    {
        self.hierarchy.is_interface(class)
    }

    /// Whether the number is one of a method.
    pub fn has_method(&self, method: MemberId) -> bool
        ensures { IsTrue result ↔ HasMethod self.now method }
    {
        method.class < self.count()
            && (method.member as usize)
                < self.hierarchy.record(method.class).methods.as_slice().len()
    }

    /// A law: a world is well built. Does nothing.
    pub fn well_built(&self)
        ensures { IsWellBuilt self.now }
    {
        self.hierarchy.well_built();
    }

    /// The name of the class with this number.
    pub fn name_at(&self, class: u32) -> &Text
        ensures { result.now ≡ (class_at self.now class).name }
    {
        &self.hierarchy.record(class).name
    }

    /// The class of the file with this number: None exactly for a class that is built in.
    pub fn file_at(&self, class: u32) -> Option<&Class>
        requires { class < length self.now }
        ensures kind { IsSome result ↔ (0 < class) }
        ensures same { IfSome result (λ r. r.now ≡ class_at self.now class) }
    {
        self.hierarchy.file(class)
    }

    /// The method with this number.
    pub fn method_at(&self, method: MemberId) -> &Method
        requires { HasMethod self.now method }
        ensures { result.now ≡ method_of self.now method }
    {
        &self.hierarchy.record(method.class).methods.as_slice()[method.member as usize]
    }

    /// The code of a method, of at most 65,535 bytes (JVMS 4.7.3): None where it is native or abstract.
    pub fn code_at(&self, method: MemberId) -> Option<&Code>
        requires { HasMethod self.now method }
        ensures code { option_copied result ≡ (method_of self.now method).code }
        ensures short { IfSome result (λ code. length code.now.bytes ≤ 65535) }
    {
        match self.hierarchy.file(method.class) {
            Some(file) => file.record().methods.as_slice()[method.member as usize]
                .code
                .as_ref(),
            None => {
                self.hierarchy.built_in();
                self.method_at(method).code.as_ref()
            }
        }
    }

    /// The field with this number.
    pub fn field_at(&self, field: MemberId) -> &Field
        requires { HasField self.now field }
        ensures { slice_get (class_at self.now field.class).fields field.member ≡ Some result.now }
    {
        &self.hierarchy.record(field.class).fields.as_slice()[field.member as usize]
    }
}
