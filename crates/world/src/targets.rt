//! Which methods a call can run.

ghost use Rattle.std.specs.Prelude.{◌≡◌, ◌<◌, ◌≤◌, ℕ, suc, length, IfOk, IfErr, OnOk, Ok, Err, All};
ghost use Rattle.world.specs.declared.fault.ResolveFault.TheVariants.{Memory};
ghost use Rattle.world.specs.declared.access.MethodKind.TheVariants as kinds;
ghost use Rattle.world.specs.Access.{is_no_target};
ghost use Rattle.world.specs.Tables.{HasMethod};
ghost use Rattle.world.specs.Resolution.{method_in};
ghost use Rattle.world.specs.Selection.{method_of, inherited, chosen, is_package_override, allowed, selected_by};
ghost use Rattle.world.specs.Standings.{default_by, Stands, AreStandings};
ghost use Rattle.std.specs.BTreeMap.{values};
ghost use Rattle.class_hierarchy.specs.World.{number_of};
ghost use Rattle.world.specs.Targets.{rank, is_receiver, AnswersIn, Answers};
ghost use Rattle.world.specs.Collecting.{first_kind, with_target, AreNamed, Collects};

use crate::access::is_no_target;
use crate::fault::ResolveFault;
use crate::member::MemberId;
use crate::resolve::default_of;
use crate::standing::{Spread, Standing, is_several, standing_at};
use crate::world::World;
use class_pool::Text;
use class_reader::is_private;
use std::alloc::{AllocError, Global};
use std::collections::BTreeMap;

/// The place of a fault in the order of faults.
fn rank(fault: ResolveFault) -> u8
    ensures { result ≡ rank fault }
{
    match fault {
        ResolveFault::MissingClass => 0,
        ResolveFault::MissingMember => 1,
        ResolveFault::Ambiguous => 2,
        ResolveFault::PackageOverride => 3,
        ResolveFault::AbstractTarget => 4,
        ResolveFault::NotInstance => 5,
        ResolveFault::Memory => 6,
    }
}

/// The first kind of the fault so far and another.
fn first_kind(so_far: Option<ResolveFault>, met: ResolveFault) -> ResolveFault
    ensures { result ≡ first_kind so_far met }
{
    match so_far {
        Some(old) => { if rank(met) < rank(old) { met } else { old } }
        None => met,
    }
}

/// The targets so far, by the names of their classes, and the first kind of fault so far.
#[derive(Drop)]
struct Found<'w> {
    targets: BTreeMap<&'w [u8], MemberId>,
    fault: Option<ResolveFault>,
}

/// The targets in order.
fn listed(alloc: Global, targets: &BTreeMap<&[u8], MemberId>) -> Result<Vec<MemberId>, AllocError>
    ensures { IfOk result (λ v. v.items ≡ values targets.now) }
{
    targets.values().copied().collect(alloc)
}

impl World {
    /// Whether an object of the class can stand where one of the class that the call names is named.
    fn is_receiver(&self, r: u32, standing: &Standing) -> bool
        ensures { (c : ℕ) (m : MemberId) → Stands self.now c m r standing.now → result ≡ is_receiver self.now c r }
    {
        self.is_instantiable(r) && standing.all.is_named
    }

    /// The only default method among these.
    fn default_among(&self, m: MemberId, defaults: Spread) -> Result<MemberId, ResolveFault>
        requires { HasMethod self.now m }
        ensures { result ≡ default_by defaults (method_in self.now (method_of self.now m).name (method_of self.now m).desc kinds.Default) }
    {
        match defaults {
            Spread::Empty => Err(ResolveFault::MissingMember),
            Spread::One(d) => {
                let method = self.method_at(m);
                default_of(self, d, method.name.as_slice(), method.desc.as_slice())
            }
            Spread::Several => Err(ResolveFault::Ambiguous),
        }
    }

    /// What a class inherits, of which this holds: the first inherited method up its superclasses, else the only
    /// default method.
    fn inherited_from(&self, m: MemberId, standing: &Standing) -> Result<MemberId, ResolveFault>
        requires { HasMethod self.now m }
        ensures { (c r : ℕ) → Stands self.now c m r standing.now → result ≡ inherited self.now (method_of self.now m).name (method_of self.now m).desc r }
    {
        match standing.chain.inherited {
            Some(method) => Ok(method),
            None => self.default_among(m, standing.all.defaults),
        }
    }

    /// What runs on an instance of a class of which this holds, before anything speaks against it.
    fn chosen_from(&self, m: MemberId, standing: &Standing) -> Result<MemberId, ResolveFault>
        requires { HasMethod self.now m }
        ensures { (c r : ℕ) → Stands self.now c m r standing.now → result ≡ chosen self.now r m (method_of self.now m) }
    {
        if is_private(self.method_at(m).flags) {
            Ok(m)
        } else {
            self.inherited_from(m, standing)
        }
    }

    /// Whether the classes of an instance have the method across packages.
    fn is_met_across(&self, m: MemberId, standing: &Standing) -> bool
        requires { HasMethod self.now m }
        ensures { (c r : ℕ) → Stands self.now c m r standing.now → result ≡ is_package_override self.now r (method_of self.now m) }
    {
        !is_private(self.method_at(m).flags)
            && (standing.chain.is_packaged && is_several(standing.chain.packages))
    }

    /// What was chosen, where nothing speaks against it.
    fn allowed_from(
        &self,
        m: MemberId,
        standing: &Standing,
        chosen: MemberId,
    ) -> Result<MemberId, ResolveFault>
        requires { HasMethod self.now m }
        ensures { (c r : ℕ) → Stands self.now c m r standing.now → result ≡ allowed self.now r m (Ok chosen) }
    {
        if self.is_met_across(m, standing) {
            return Err(ResolveFault::PackageOverride);
        }
        if is_no_target(self.flags_of(chosen)) {
            return Err(ResolveFault::AbstractTarget);
        }
        if standing.all.is_declaring {
            Ok(chosen)
        } else {
            Err(ResolveFault::NotInstance)
        }
    }

    /// What a call of m runs on an instance of a class of which this holds.
    fn selected_from(&self, m: MemberId, standing: &Standing) -> Result<MemberId, ResolveFault>
        requires { HasMethod self.now m }
        ensures { (c r : ℕ) → Stands self.now c m r standing.now → result ≡ selected_by self.now m r }
    {
        match self.chosen_from(m, standing) {
            Ok(chosen) => self.allowed_from(m, standing, chosen),
            Err(fault) => Err(fault),
        }
    }

    /// Adds a target at the name of its class.
    fn add_target<'w>(
        &'w self,
        targets: &mut BTreeMap<&'w [u8], MemberId>,
        t: MemberId,
    ) -> Result<(), AllocError>
        requires { AreNamed self.now targets.old.entries }
        ensures named { OnOk result (AreNamed self.now targets.new.entries) }
        ensures added { OnOk result (values targets.new ≡ with_target self.now t (values targets.old)) }
    {
        let name = self.hierarchy.record(t.class).name.as_slice();
        targets.insert(name, t)?;
        Ok(())
    }

    /// What one class more as a receiver adds.
    fn noted<'w>(
        &'w self,
        class: u32,
        m: MemberId,
        r: u32,
        standing: &Standing,
        mut found: Found<'w>,
    ) -> Result<Found<'w>, ResolveFault>
        requires there { HasMethod self.now m }
        requires within { r < length self.now }
        requires stands { Stands self.now class m r standing.now }
        requires named { AreNamed self.now found.targets.entries }
        requires so_far { Collects self.now class m r (values found.targets) found.fault }
        ensures named { IfOk result (λ f. AreNamed self.now f.targets.entries) }
        ensures next { IfOk result (λ f. Collects self.now class m (suc r) (values f.targets) f.fault) }
        ensures fault { IfErr result (λ e. e ≡ Memory) }
    {
        self.well_built();
        if !self.is_receiver(r, standing) {
            return Ok(found);
        }
        match self.selected_from(m, standing) {
            Ok(target) => {
                self.add_target(&mut found.targets, target)?;
                Ok(found)
            }
            Err(met) => Ok(Found {
                targets: found.targets,
                fault: Some(first_kind(found.fault, met)),
            }),
        }
    }

    /// All methods that instances of the class with this number select, by what holds of each class.
    fn targets_by(
        &self,
        alloc: Global,
        class: u32,
        m: MemberId,
        standings: &[Standing],
    ) -> Result<Vec<MemberId>, ResolveFault>
        requires there { HasMethod self.now m }
        requires stand { AreStandings self.now class m standings.now }
        ensures there { IfOk result (λ v. All (HasMethod self.now) v.items) }
        ensures targets { IfOk result (λ v. AnswersIn self.now class m (Ok v.items)) }
        ensures fault { IfErr result (λ e. AnswersIn self.now class m (Err e)) }
    {
        let mut found = Found {
            targets: BTreeMap::new(alloc),
            fault: None,
        };
        for r in 0..self.count() {
            found = self.noted(class, m, r, &standing_at(standings, r), found)?;
        }
        match found.fault {
            Some(fault) => Err(fault),
            None => {
                let targets = listed(alloc, &found.targets)?;
                Ok(targets)
            }
        }
    }

    /// All methods that instances of the class with this number select, as `targets`.
    ///
    /// # Errors
    ///
    /// The first kind of fault that an instance's class meets.
    pub fn targets_in(
        &self,
        alloc: Global,
        class: u32,
        m: MemberId,
    ) -> Result<Vec<MemberId>, ResolveFault>
        requires { HasMethod self.now m }
        ensures there { IfOk result (λ v. All (HasMethod self.now) v.items) }
        ensures targets { IfOk result (λ v. AnswersIn self.now class m (Ok v.items)) }
        ensures fault { IfErr result (λ e. AnswersIn self.now class m (Err e)) }
    {
        let standings = self.standings(alloc, class, m)?;
        let targets = self.targets_by(alloc, class, m, &standings)?;
        Ok(targets)
    }

    /// All methods that a call of m through the class of this name can run, once each, in the order of the names of
    /// their classes (JVMS 6.5, invokevirtual).
    ///
    /// # Errors
    ///
    /// `MissingClass` where there is no such class, and else the first kind of fault that an instance's class meets.
    pub fn targets(
        &self,
        alloc: Global,
        class: &Text,
        m: MemberId,
    ) -> Result<Vec<MemberId>, ResolveFault>
        requires { HasMethod self.now m }
        // Each target is a method of the world.
        ensures there { IfOk result (λ v. All (HasMethod self.now) v.items) }
        ensures targets { IfOk result (λ v. Answers self.now (number_of self.now class.now) m (Ok v.items)) }
        ensures fault { IfErr result (λ e. Answers self.now (number_of self.now class.now) m (Err e)) }
    {
        match self.class(class) {
            Some(class) => {
                let targets = self.targets_in(alloc, class, m)?;
                Ok(targets)
            }
            None => Err(ResolveFault::MissingClass),
        }
    }
}
