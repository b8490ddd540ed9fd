//! What holds of each class for the calls of a method, from what holds of the classes that it names.

ghost use Rattle.std.specs.Prelude.{◌≡◌, ◌<◌, ◌∷◌, [], length, nat_eq, IfOk};
ghost use Rattle.class_hierarchy.specs.World.{above};
ghost use Rattle.world.specs.Selection.{same_package};
ghost use Rattle.world.specs.Tables.{HasMethod};
ghost use Rattle.world.specs.Standings.{own, joined, is_several, IsAmong, joined_among, IsChain, joined_chain, declares, blank, standing_at, Stands, HasSupersStand, AreStandings};

use crate::access::MethodKind;
use crate::member::MemberId;
use crate::world::World;
use std::alloc::{AllocError, Global};

/// The classes that pass a test.
#[derive(Clone, Copy)]
pub(crate) enum Spread {
    /// None does.
    Empty,
    /// One that does, and all others that do are like it.
    One(u32),
    /// Two that do aren't alike.
    Several,
}

/// What there is among classes, in any order.
#[derive(Clone, Copy)]
pub(crate) struct Among {
    /// The class that a call names.
    pub is_named: bool,
    /// The class that declares the method.
    pub is_declaring: bool,
    /// Those with a default method, each like itself alone.
    pub defaults: Spread,
}

/// What classes declare, from one of them up.
#[derive(Clone, Copy)]
pub(crate) struct Chain {
    /// The first method that subclasses have too.
    pub inherited: Option<MemberId>,
    /// Whether one of them has the method for its package alone.
    pub is_packaged: bool,
    /// Those that have the method, alike where they are of one package.
    pub packages: Spread,
}

/// What holds of a class.
#[derive(Clone, Copy)]
pub(crate) struct Standing {
    /// Among the class and the interfaces above it.
    pub near: Among,
    /// Among the class, its superclasses, and the interfaces above these.
    pub all: Among,
    /// Of the class and its superclasses.
    pub chain: Chain,
}

/// A class alone.
fn own(passes: bool, class: u32) -> Spread
    ensures { result ≡ own passes class }
{
    if passes {
        Spread::One(class)
    } else {
        Spread::Empty
    }
}

/// Whether two aren't alike.
pub(crate) fn is_several(spread: Spread) -> bool
    ensures { result ≡ is_several spread }
{
    matches!(spread, Spread::Several)
}

/// The classes of two lists, each like itself alone.
fn join_classes(a: Spread, b: Spread) -> Spread
    ensures { result ≡ joined nat_eq a b }
{
    match a {
        Spread::Empty => b,
        Spread::Several => Spread::Several,
        Spread::One(c) => match b {
            Spread::Empty => a,
            Spread::One(d) => { if c == d { a } else { Spread::Several } }
            Spread::Several => Spread::Several,
        },
    }
}

/// What there is among two lists.
fn join_among(a: Among, b: Among) -> Among
    ensures { result ≡ joined_among a b }
{
    Among {
        is_named: a.is_named || b.is_named,
        is_declaring: a.is_declaring || b.is_declaring,
        defaults: join_classes(a.defaults, b.defaults),
    }
}

/// Before anything is known.
fn blank() -> Standing
    ensures { result ≡ blank }
{
    let among = Among {
        is_named: false,
        is_declaring: false,
        defaults: Spread::Empty,
    };
    Standing {
        near: among,
        all: among,
        chain: Chain {
            inherited: None,
            is_packaged: false,
            packages: Spread::Empty,
        },
    }
}

/// What is kept of the class.
pub(crate) fn standing_at(standings: &[Standing], class: u32) -> Standing
    ensures { result ≡ standing_at standings.now class }
{
    match standings.get(class as usize) {
        Some(standing) => *standing,
        None => blank(),
    }
}

impl World {
    /// The classes of two lists, alike where they are of one package.
    fn join_packages(&self, a: Spread, b: Spread) -> Spread
        ensures { result ≡ joined (same_package self.now) a b }
    {
        match a {
            Spread::Empty => b,
            Spread::Several => Spread::Several,
            Spread::One(c) => match b {
                Spread::Empty => a,
                Spread::One(d) => {
                    if self.same_package(c, d) {
                        a
                    } else {
                        Spread::Several
                    }
                }
                Spread::Several => Spread::Several,
            },
        }
    }

    /// What classes declare, and others above them.
    fn join_chains(&self, a: Chain, b: Chain) -> Chain
        ensures { result ≡ joined_chain self.now a b }
    {
        Chain {
            inherited: a.inherited.or(b.inherited),
            is_packaged: a.is_packaged || b.is_packaged,
            packages: self.join_packages(a.packages, b.packages),
        }
    }

    /// Whether the class has a method of the name and the descriptor of m, of this kind.
    fn declares(&self, m: MemberId, kind: MethodKind, r: u32) -> bool
        requires { HasMethod self.now m }
        ensures { result ≡ declares self.now m kind r }
    {
        let method = self.method_at(m);
        self.has_such(r, method.name.as_slice(), method.desc.as_slice(), kind)
    }

    /// What there is in the class itself.
    fn own_among(&self, class: u32, m: MemberId, r: u32) -> Among
        requires { HasMethod self.now m }
        ensures { IsAmong self.now class m (r ∷ []) result }
    {
        Among {
            is_named: class == r,
            is_declaring: m.class == r,
            defaults: own(self.declares(m, MethodKind::Default, r), r),
        }
    }

    /// What the class itself declares.
    fn own_chain(&self, m: MemberId, r: u32) -> Chain
        requires { HasMethod self.now m }
        ensures { IsChain self.now m (r ∷ []) result }
    {
        let method = self.method_at(m);
        Chain {
            inherited: self.method_in(
                r,
                method.name.as_slice(),
                method.desc.as_slice(),
                MethodKind::Inherited,
            ),
            is_packaged: self.declares(m, MethodKind::Package, r),
            packages: own(self.declares(m, MethodKind::Any, r), r),
        }
    }

    /// What there is among the class and the interfaces above it.
    fn near(&self, class: u32, m: MemberId, r: u32, standings: &[Standing]) -> Among
        requires there { HasMethod self.now m }
        requires within { r < length self.now }
        requires supers { HasSupersStand self.now class m standings.now r }
        ensures { IsAmong self.now class m (r ∷ above self.now r) result }
    {
        self.well_built();
        let mut near = self.own_among(class, m, r);
        let links = self.hierarchy.interfaces(r);
        for interface in links {
            near = join_among(near, standing_at(standings, *interface).near);
        }
        near
    }

    /// What holds of the class, where it holds of all that it names.
    fn standing_of(&self, class: u32, m: MemberId, r: u32, standings: &[Standing]) -> Standing
        requires there { HasMethod self.now m }
        requires within { r < length self.now }
        requires supers { HasSupersStand self.now class m standings.now r }
        ensures { Stands self.now class m r result }
    {
        self.well_built();
        let near = self.near(class, m, r, standings);
        let chain = self.own_chain(m, r);
        match self.superclass(r) {
            Some(s) => {
                let up = standing_at(standings, s);
                Standing {
                    near,
                    all: join_among(near, up.all),
                    chain: self.join_chains(chain, up.chain),
                }
            }
            None => Standing {
                near,
                all: near,
                chain,
            },
        }
    }

    /// What holds of each class, where m is called through the class: in an order in which all that a class names
    /// stands before it.
    pub(crate) fn standings(
        &self,
        alloc: Global,
        class: u32,
        m: MemberId,
    ) -> Result<Vec<Standing>, AllocError>
        requires { HasMethod self.now m }
        ensures { IfOk result (λ v. AreStandings self.now class m v.items) }
    {
        let mut standings = vec![in alloc; blank(); self.count() as usize]?;
        let order = self.hierarchy.supers_first();
        for r in order {
            let standing = self.standing_of(class, m, *r, &standings);
            standings[*r as usize] = standing;
        }
        Ok(standings)
    }
}
