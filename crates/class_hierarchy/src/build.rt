//! Classes that are a world, or the first fault of them.

ghost use Rattle.std.specs.Prelude.{◌≡◌, ◌≢◌, ℕ, ◌<◌, ◌^◌, length, IfOk, IfErr, OnOk, find, not};
ghost use Rattle.std.specs.Option.{option_copied, option_to_list};
ghost use Rattle.class_hierarchy.specs.declared.fault.WorldFault.TheVariants.{Memory};
ghost use Rattle.class_hierarchy.specs.World.{world_of};
ghost use Rattle.class_reader.specs.Flags.{is_interface, is_final};
ghost use Rattle.class_hierarchy.specs.Building.{first_class, is_twice, is_missing, missing_name, has_flags, wrong_name, twice, missing_super, wrong_super, final_super, HasSupers, IsCyclic, IsWellBuilt, IsFault};
ghost use Rattle.class_hierarchy.specs.Ranks.{AreRanks};
ghost use Rattle.class_hierarchy.specs.Faults.{fault_of, final_name};

use crate::above::rows_of;
use crate::classes::Classes;
use crate::cycle::{Order, order_of};
use crate::fault::WorldFault;
use crate::hierarchy::Hierarchy;
use crate::rank::supers_first;
use crate::table::{links_of, supers_of};
use class_pool::Text;
use class_reader::{Class, ClassRecord, is_final, is_interface};
use graph_core::Components;
use std::alloc::{AllocError, Global};

/// The kinds of faults that one class shows.
#[derive(Clone, Copy)]
pub(crate) enum FaultKind {
    Twice,
    MissingSuper,
    WrongSuper,
    FinalSuper,
}

impl Classes {
    /// Whether a class before this one has its name.
    fn is_twice(&self, class: u32) -> bool
        ensures { result ≡ is_twice self.now class }
    {
        match self.number(self.record(class).name.as_slice()) {
            Some(first) => first < class,
            None => false,
        }
    }

    #[tactic(auto, unfolding(crate::specs::Building::twice))]
    fn twice(&self, class: u32) -> Result<Option<WorldFault>, AllocError>
        ensures { IfOk result (λ fault. fault ≡ twice self.now class) }
    {
        if self.is_twice(class) {
            Ok(Some(WorldFault::Twice {
                name: self.record(class).name.share()?,
            }))
        } else {
            Ok(None)
        }
    }

    /// Whether no class has the name.
    fn is_missing(&self, name: &Text) -> bool
        ensures { result ≡ is_missing self.now name.now }
    {
        self.number(name.as_slice()).is_none()
    }

    /// The name of the superclass, where no class has it.
    fn missing_superclass<'c>(&self, class: &'c ClassRecord) -> Option<&'c Text>
        ensures { option_copied result ≡ find (is_missing self.now) (option_to_list class.now.super_name) }
    {
        match &class.super_name {
            Some(name) => {
                if self.is_missing(name) {
                    Some(name)
                } else {
                    None
                }
            }
            None => None,
        }
    }

    /// The first name that no class has.
    fn missing_among<'c>(&self, names: &'c [Text]) -> Option<&'c Text>
        ensures { option_copied result ≡ find (is_missing self.now) names.now }
    {
        names.iter().find(|name| self.is_missing(name))
    }

    /// The first name above the class that no class has.
    fn missing_name<'c>(&self, class: &'c ClassRecord) -> Option<&'c Text>
        ensures { option_copied result ≡ missing_name self.now class.now }
    {
        match self.missing_superclass(class) {
            Some(name) => Some(name),
            None => self.missing_among(class.interfaces.as_slice()),
        }
    }

    #[tactic(auto, unfolding(crate::specs::Building::missing_super))]
    fn missing_super(&self, class: u32) -> Result<Option<WorldFault>, AllocError>
        ensures { IfOk result (λ fault. fault ≡ missing_super self.now class) }
    {
        let record = self.record(class);
        match self.missing_name(record) {
            Some(name) => Ok(Some(WorldFault::MissingSuper {
                class: record.name.share()?,
                name: name.share()?,
            })),
            None => Ok(None),
        }
    }

    /// Whether an interface has the name.
    fn is_interface_name(&self, name: &Text) -> bool
        ensures { result ≡ has_flags self.now is_interface name.now }
    {
        match self.number(name.as_slice()) {
            Some(class) => is_interface(self.record(class).flags),
            None => false,
        }
    }

    /// Whether a final class has the name.
    fn is_final_name(&self, name: &Text) -> bool
        ensures { result ≡ has_flags self.now is_final name.now }
    {
        match self.number(name.as_slice()) {
            Some(class) => is_final(self.record(class).flags),
            None => false,
        }
    }

    /// The name of the superclass, where it is that of an interface.
    fn wrong_superclass<'c>(&self, class: &'c ClassRecord) -> Option<&'c Text>
        ensures { option_copied result ≡ find (has_flags self.now is_interface) (option_to_list class.now.super_name) }
    {
        match &class.super_name {
            Some(name) => {
                if self.is_interface_name(name) {
                    Some(name)
                } else {
                    None
                }
            }
            None => None,
        }
    }

    /// The first name that is none of an interface.
    fn wrong_among<'c>(&self, names: &'c [Text]) -> Option<&'c Text>
        ensures { option_copied result ≡ find (λ name. not (has_flags self.now is_interface name)) names.now }
    {
        names.iter().find(|name| !self.is_interface_name(name))
    }

    /// The superclass that is an interface, or else the first superinterface that is none.
    fn wrong_name<'c>(&self, class: &'c ClassRecord) -> Option<&'c Text>
        ensures { option_copied result ≡ wrong_name self.now class.now }
    {
        match self.wrong_superclass(class) {
            Some(name) => Some(name),
            None => self.wrong_among(class.interfaces.as_slice()),
        }
    }

    #[tactic(auto, unfolding(crate::specs::Building::wrong_super))]
    fn wrong_super(&self, class: u32) -> Result<Option<WorldFault>, AllocError>
        ensures { IfOk result (λ fault. fault ≡ wrong_super self.now class) }
    {
        let record = self.record(class);
        match self.wrong_name(record) {
            Some(name) => Ok(Some(WorldFault::WrongSuper {
                class: record.name.share()?,
                name: name.share()?,
            })),
            None => Ok(None),
        }
    }

    /// The superclass that is final.
    fn final_name<'c>(&self, class: &'c ClassRecord) -> Option<&'c Text>
        ensures { option_copied result ≡ final_name self.now class.now }
    {
        match &class.super_name {
            Some(name) => {
                if self.is_final_name(name) {
                    Some(name)
                } else {
                    None
                }
            }
            None => None,
        }
    }

    #[tactic(auto, unfolding(crate::specs::Building::final_super))]
    fn final_super(&self, class: u32) -> Result<Option<WorldFault>, AllocError>
        ensures { IfOk result (λ fault. fault ≡ final_super self.now class) }
    {
        let record = self.record(class);
        match self.final_name(record) {
            Some(name) => Ok(Some(WorldFault::FinalSuper {
                class: record.name.share()?,
                name: name.share()?,
            })),
            None => Ok(None),
        }
    }

    fn fault_at(&self, kind: FaultKind, class: u32) -> Result<Option<WorldFault>, AllocError>
        ensures { IfOk result (λ fault. fault ≡ fault_of kind self.now class) }
    {
        match kind {
            FaultKind::Twice => self.twice(class),
            FaultKind::MissingSuper => self.missing_super(class),
            FaultKind::WrongSuper => self.wrong_super(class),
            FaultKind::FinalSuper => self.final_super(class),
        }
    }

    /// The first fault of the kind, in the order of the classes.
    fn first_fault(&self, kind: FaultKind) -> Result<Option<WorldFault>, AllocError>
        ensures { IfOk result (λ fault. fault ≡ first_class self.now (fault_of kind self.now)) }
    {
        for class in 0..self.len() {
            match self.fault_at(kind, class)? {
                Some(fault) => return Ok(Some(fault)),
                None => {}
            }
        }
        Ok(None)
    }
}

/// Ranks of the classes, where they are a world.
fn check(alloc: Global, classes: &Classes) -> Result<Components, WorldFault>
    ensures ranks { IfOk result (λ ranks. AreRanks classes.now ranks) }
    ensures well { OnOk result (IsWellBuilt classes.now) }
    ensures fault { IfErr result (λ e. e ≢ Memory → IsFault classes.now e) }
{
    check_supers(classes)?;
    let ranks = check_cycle(alloc, classes)?;
    match classes.first_fault(FaultKind::FinalSuper)? {
        Some(fault) => Err(fault),
        None => Ok(ranks),
    }
}

/// Whether each class has a name of its own, and what it names is there and is what it must be.
fn check_supers(classes: &Classes) -> Result<(), WorldFault>
    ensures has { OnOk result (HasSupers classes.now) }
    ensures fault { IfErr result (λ e. e ≢ Memory → IsFault classes.now e) }
{
    match classes.first_fault(FaultKind::Twice)? {
        Some(fault) => return Err(fault),
        None => {}
    }
    match classes.first_fault(FaultKind::MissingSuper)? {
        Some(fault) => return Err(fault),
        None => {}
    }
    match classes.first_fault(FaultKind::WrongSuper)? {
        Some(fault) => Err(fault),
        None => Ok(()),
    }
}

/// Ranks of the classes, where no class leads back to itself.
fn check_cycle(alloc: Global, classes: &Classes) -> Result<Components, WorldFault>
    requires { HasSupers classes.now }
    ensures ranks { IfOk result (λ ranks. AreRanks classes.now ranks) }
    ensures none { OnOk result ((c : ℕ) → ¬ IsCyclic classes.now c) }
    ensures fault { IfErr result (λ e. e ≢ Memory → IsFault classes.now e) }
{
    match order_of(alloc, classes)? {
        Order::Cyclic { class } => Err(WorldFault::SuperCycle {
            name: classes.record(class).name.share()?,
        }),
        Order::Ranked { ranks } => Ok(ranks),
    }
}

impl Hierarchy {
    /// The world of these classes and the class that is built in.
    ///
    /// # Errors
    ///
    /// `Twice`, `MissingSuper`, `WrongSuper`, `SuperCycle` and `FinalSuper` where their condition holds, the first of
    /// these kinds, and of one kind the first class in order.
    pub fn build(alloc: Global, classes: Vec<Class>) -> Result<Hierarchy, WorldFault>
        requires { length classes.items < 2 ^ 31 }

        // The world is the classes in order, behind the one that is built in.
        ensures world { IfOk result (λ h. h ≡ world_of classes.items) }
        ensures well_built { OnOk result (IsWellBuilt (world_of classes.items)) }
        ensures fault { IfErr result (λ e. e ≢ Memory → IsFault (world_of classes.items) e) }
    {
        let classes = Classes::of(alloc, classes)?;
        let ranks = check(alloc, &classes)?;
        let supers = supers_of(alloc, &classes)?;
        let links = links_of(alloc, &classes)?;
        let order = supers_first(alloc, &classes, ranks.as_slice())?;
        let rows = rows_of(alloc, &classes, &links, &order)?;
        Ok(Hierarchy {
            classes,
            supers,
            links,
            order,
            rows,
        })
    }
}
