ghost use Rattle.std.specs.Prelude.{◌≡◌};
ghost use Rattle.world.specs.Access as access;

use class_reader::{is_abstract, is_private, is_protected, is_public, is_static};

/// Which methods are asked for.
#[derive(Clone, Copy)]
pub(crate) enum MethodKind {
    Any,
    /// For its package alone.
    Package,
    /// An instance method that subclasses have too.
    Inherited,
    /// An inherited method with code, of an interface.
    Default,
}

/// Whether no instance can run a method with these flags.
pub(crate) fn is_no_target(flags: u16) -> bool
    ensures { result ≡ access.is_no_target flags }
{
    is_static(flags) || is_abstract(flags)
}

impl MethodKind {
    /// Whether a method with these flags is of the kind.
    pub(crate) fn has(self, flags: u16) -> bool
        ensures { result ≡ access.has_kind self flags }
    {
        match self {
            MethodKind::Any => true,
            MethodKind::Package => {
                !(is_public(flags) || is_private(flags) || is_protected(flags))
            }
            MethodKind::Inherited => !(is_private(flags) || is_static(flags)),
            MethodKind::Default => {
                !(is_abstract(flags) || is_private(flags) || is_static(flags))
            }
        }
    }
}
