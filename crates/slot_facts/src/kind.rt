ghost use Rattle.std.specs.Prelude.{◌≡◌, IfOk};
ghost use Rattle.slot_facts.specs.Kinds.{is_reference, is_length};

use class_pool::Text;
use std::alloc::AllocError;

/// What a slot of a frame holds, as far as it is known without running the code.
#[derive(Drop)]
pub enum Kind {
    Int,
    Long,
    /// The second slot of a long.
    Pad,
    /// An array or null, with the descriptor of the array's elements.
    Arr(Text),
    /// Any reference or null.
    Obj,
    Null,
    /// Nothing is known.
    Top,
}

impl Kind {
    /// Whether the slot holds a reference or null.
    pub fn is_reference(&self) -> bool
        ensures { result ≡ is_reference self.now }
    {
        matches!(self, Kind::Arr(_) | Kind::Obj | Kind::Null)
    }

    /// Whether the slot's size is a length: that of an array, or of the longest chain of references from an object.
    pub fn is_length(&self) -> bool
        ensures { result ≡ is_length self.now }
    {
        matches!(self, Kind::Arr(_) | Kind::Obj)
    }

    /// The same kind. A descriptor is shared.
    pub fn share(&self) -> Result<Kind, AllocError>
        ensures { IfOk result (λ kind. kind ≡ self.now) }
    {
        match self {
            Kind::Int => Ok(Kind::Int),
            Kind::Long => Ok(Kind::Long),
            Kind::Pad => Ok(Kind::Pad),
            Kind::Arr(element) => Ok(Kind::Arr(element.share()?)),
            Kind::Obj => Ok(Kind::Obj),
            Kind::Null => Ok(Kind::Null),
            Kind::Top => Ok(Kind::Top),
        }
    }
}
