//! Where the words and locals that an instruction leaves have their values from.
ghost use Rattle.std.specs.Prelude.{◌≡◌, ◌∷◌, [], ◌<◌, IfOk};
ghost use Rattle.null_flow.specs.Origins.{moved, number_in, pushes, stored_as, stores};

use op_table::acts::{Action, Kind, Shuffle};
use std::alloc::{AllocError, Global};

/// Where a value comes from.
#[derive(Clone, Copy)]
pub enum Origin {
    /// It is an object or array that the instruction makes.
    New,
    /// It is that of a local before the instruction.
    Local(u32),
    /// It is that of a word that the instruction pops, counted from the lowest one.
    Word(u32),
    /// It is a number.
    Number,
}

/// A local that an instruction stores to, and where the value comes from.
#[derive(Clone, Copy)]
pub struct Stored {
    pub local: u32,
    pub origin: Origin,
}

// The words that a move leaves in the place of those that it pops.
fn moved(alloc: Global, shuffle: Shuffle) -> Result<Vec<Origin>, AllocError>
    ensures { IfOk result (λ words. words.items ≡ moved shuffle) }
{
    let (a, b) = (Origin::Word(0), Origin::Word(1));
    let (c, d) = (Origin::Word(2), Origin::Word(3));
    match shuffle {
        Shuffle::Pop | Shuffle::Pop2 => Ok(Vec::new(alloc)),
        Shuffle::Dup => Ok(vec![in alloc; a, a]?),
        Shuffle::DupX1 => Ok(vec![in alloc; b, a, b]?),
        Shuffle::DupX2 => Ok(vec![in alloc; c, a, b, c]?),
        Shuffle::Dup2 => Ok(vec![in alloc; a, b, a, b]?),
        Shuffle::Dup2X1 => Ok(vec![in alloc; b, c, a, b, c]?),
        Shuffle::Dup2X2 => Ok(vec![in alloc; c, d, a, b, c, d]?),
        Shuffle::Swap => Ok(vec![in alloc; b, a]?),
    }
}

fn one(alloc: Global, origin: Origin) -> Result<Vec<Origin>, AllocError>
    ensures { IfOk result (λ words. words.items ≡ origin ∷ []) }
{
    let mut words = Vec::new(alloc);
    words.push(origin)?;
    Ok(words)
}

/// Where the words come from that the action pushes, of those that may hold no null. `Err` is want of memory.
#[tactic(auto, unfolding(crate::specs::Origins::pushes))]
pub fn pushes(alloc: Global, action: Action) -> Result<Vec<Origin>, AllocError>
    ensures { IfOk result (λ words. words.items ≡ pushes action) }
{
    match action {
        Action::Load(Kind::Reference, n) => one(alloc, Origin::Local(u32::from(n))),
        Action::Shuffle(shuffle) => moved(alloc, shuffle),
        Action::New(_) | Action::NewArray(_) | Action::NewReferenceArray(_) => {
            one(alloc, Origin::New)
        }
        Action::CheckCast(_) => one(alloc, Origin::Word(0)),
        _ => Ok(Vec::new(alloc)),
    }
}

fn value_stored(alloc: Global, kind: Kind, n: u32) -> Result<Vec<Stored>, AllocError>
    requires { n < 65536 }
    ensures { IfOk result (λ locals. locals.items ≡ stored_as kind n) }
{
    let mut locals = Vec::new(alloc);
    match kind {
        Kind::Int => locals.push(number_in(n))?,
        Kind::Long => {
            locals.push(number_in(n))?;
            locals.push(number_in(n + 1))?;
        }
        Kind::Reference => locals.push(Stored {
            local: n,
            origin: Origin::Word(0),
        })?,
    }
    Ok(locals)
}

fn number_in(local: u32) -> Stored
    ensures { result ≡ number_in local }
{
    Stored {
        local,
        origin: Origin::Number,
    }
}

/// The locals that the action stores to. `Err` is want of memory.
#[tactic(auto, unfolding(crate::specs::Origins::stores))]
pub fn stores(alloc: Global, action: Action) -> Result<Vec<Stored>, AllocError>
    ensures { IfOk result (λ locals. locals.items ≡ stores action) }
{
    match action {
        Action::Store(kind, n) => value_stored(alloc, kind, u32::from(n)),
        Action::Increment(n, _) => value_stored(alloc, Kind::Int, u32::from(n)),
        _ => Ok(Vec::new(alloc)),
    }
}
