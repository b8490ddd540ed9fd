//! Classes by number and by name.

ghost use Rattle.std.specs.Prelude.{◌≡◌, ◌<◌, ◌≤◌, ◌^◌, ◌↔◌, length, IsSome, IfSome, IfOk};
ghost use Rattle.std.specs.List.{list_all};
ghost use Rattle.class_hierarchy.specs.World.{object_class, class_at, is_named, number_of, superclass, interfaces, world_of};
ghost use Rattle.class_hierarchy.specs.Building.{supers};
ghost use Rattle.class_hierarchy.specs.Tables.{HasFew, has_few};

use crate::built_in::object_class;
use crate::naming::numbers_of;
use class_reader::{Class, ClassRecord};
use std::alloc::{AllocError, Global};
use std::collections::BTreeMap;
use std::marker::Model;

/// How many fields, and how many methods, have numbers.
const MAX_MEMBERS: usize = 4294967296;

/// The class that is built in and those of the files. Contracts see the list of what they say, in this order.
#[derive(Drop)]
pub(crate) struct Classes {
    object: ClassRecord,
    files: Vec<Class>,
    names: BTreeMap<Vec<u8>, u32>,
}

impl Model for Classes {
    ghost use Rattle.std.specs.Prelude.{List, ◌∷◌};
    ghost use Rattle.class_reader.specs.declared.class.ClassRecord.{ClassRecord};
    ghost use Rattle.class_hierarchy.specs.Names.{noted};
    ghost use Rattle.class_hierarchy.specs.Tables.{IsNumbered};

    ghost Value = { List ClassRecord };

    ghost view = { λ c. c.object ∷ c.files.items };

    ghost invariant = { λ c. IsNumbered c.object c.files.items (noted c.names) };
}

impl Classes {
    /// How many classes there are.
    pub(crate) fn len(&self) -> u32
        ensures count { result ≡ length self.now }
        ensures fits { result ≤ 2 ^ 31 }
    {
        self.files.len() as u32 + 1
    }

    /// The class with this number, and the class that is built in where there is none.
    pub(crate) fn record(&self, class: u32) -> &ClassRecord
        ensures same { result.now ≡ class_at self.now class }
        ensures few { HasFew (class_at self.now class) }
    {
        if class == 0 {
            return &self.object;
        }
        match self.files.get(class as usize - 1) {
            Some(file) => file.record(),
            None => &self.object,
        }
    }

    /// A law: there is a first class, the one that is built in. Does nothing.
    pub(crate) fn built_in(&self)
        ensures first { class_at self.now 0 ≡ object_class }
        ensures some { 1 ≤ length self.now }
    {
        let _ = &self.object;
    }

    /// The file's class with this number: None for the class that is built in.
    pub(crate) fn file(&self, class: u32) -> Option<&Class>
        requires { class < length self.now }
        ensures kind { IsSome result ↔ (0 < class) }
        ensures same { IfSome result (λ r. r.now ≡ class_at self.now class) }
    {
        if class == 0 {
            None
        } else {
            Some(&self.files[class as usize - 1])
        }
    }

    /// The number of the class with this name.
    pub(crate) fn number(&self, name: &[u8]) -> Option<u32>
        ensures number { result ≡ number_of self.now name.now }
        ensures bound { IfSome result (λ c. c < length self.now) }
    {
        let number = self.names.get(name).copied();
        number
    }

    /// The number of the direct superclass.
    #[tactic(auto, unfolding(crate::specs::World::superclass))]
    pub(crate) fn superclass(&self, class: u32) -> Option<u32>
        ensures number { result ≡ superclass self.now class }
        ensures bound { IfSome result (λ c. c < length self.now) }
    {
        match &self.record(class).super_name {
            Some(name) => self.number(name.as_slice()),
            None => None,
        }
    }

    /// The numbers of the direct superinterfaces, in order.
    #[tactic(auto, unfolding(crate::specs::World::interfaces))]
    pub(crate) fn interfaces(&self, alloc: Global, class: u32) -> Result<Vec<u32>, AllocError>
        ensures { IfOk result (λ v. v.items ≡ interfaces self.now class) }
    {
        let names = self.record(class).interfaces.as_slice();
        names
            .iter()
            .filter_map(|name| self.number(name.as_slice()))
            .collect(alloc)
    }

    /// The numbers of the direct superclass and superinterfaces.
    #[tactic(auto, unfolding(crate::specs::Building::supers))]
    pub(crate) fn supers(&self, alloc: Global, class: u32) -> Result<Vec<u32>, AllocError>
        ensures { IfOk result (λ v. v.items ≡ supers self.now class) }
    {
        let mut found = Vec::new(alloc);
        match self.superclass(class) {
            Some(name) => found.push(name)?,
            None => {}
        }
        found.extend_from_slice(&self.interfaces(alloc, class)?)?;
        Ok(found)
    }
}

/// Whether the members are few enough for their numbers.
fn has_few(class: &ClassRecord) -> bool
    ensures { result ≡ has_few class.now }
{
    class.fields.len() < MAX_MEMBERS && class.methods.len() < MAX_MEMBERS
}

/// The same of each class.
fn have_few(files: &[Class]) -> bool
    ensures { result ≡ list_all has_few files.now }
{
    files.iter().all(|file| has_few(file.record()))
}

impl Classes {
    /// The classes of the files, and the one that is built in. A class with more members than numbers counts as want
    /// of memory.
    pub(crate) fn of(alloc: Global, files: Vec<Class>) -> Result<Classes, AllocError>
        requires { length files.items < 2 ^ 31 }
        ensures { IfOk result (λ c. c ≡ world_of files.items) }
    {
        if !have_few(&files) {
            return Err(AllocError);
        }
        let object = object_class(alloc)?;
        let names = numbers_of(alloc, &object, &files)?;
        Ok(Classes {
            object,
            files,
            names,
        })
    }
}
