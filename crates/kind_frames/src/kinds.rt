//! What two kinds have in common.
ghost use Rattle.std.specs.Prelude.{◌≡◌, IfOk};
ghost use Rattle.kind_frames.specs.Kinds.{is_below, joined};

use slot_facts::Kind;
use std::alloc::AllocError;

/// Whether the first kind says at least as much as the second.
pub fn is_below(a: &Kind, b: &Kind) -> bool
    ensures { result ≡ is_below a.now b.now }
{
    match (a, b) {
        (_, Kind::Top) | (Kind::Int, Kind::Int) | (Kind::Long, Kind::Long) => true,
        (Kind::Pad, Kind::Pad) | (Kind::Null, Kind::Null) => true,
        (Kind::Null | Kind::Arr(_) | Kind::Obj, Kind::Obj) | (Kind::Null, Kind::Arr(_)) => true,
        (Kind::Arr(one), Kind::Arr(other)) => one == other,
        _ => false,
    }
}

/// What is known of a slot that has one kind or the other.
pub fn joined(a: &Kind, b: &Kind) -> Result<Kind, AllocError>
    ensures { IfOk result (λ kind. kind ≡ joined a.now b.now) }
{
    if is_below(a, b) {
        b.share()
    } else if is_below(b, a) {
        a.share()
    } else if a.is_reference() && b.is_reference() {
        Ok(Kind::Obj)
    } else {
        Ok(Kind::Top)
    }
}
