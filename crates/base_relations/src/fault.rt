ghost use Rattle.std.specs.Prelude.{◌≡◌};
ghost use Rattle.graph_covers.specs.declared.cover.CoverFault.{CoverFault};
ghost use Rattle.base_relations.specs.declared.fault.UnfoldFault.{UnfoldFault};
ghost use Rattle.base_relations.specs.declared.fault.UnfoldFault.TheVariants as faults;

use lin_rows::Sequence;
use std::alloc::{AllocError, AllocFailed};

/// Why a relation has no base relations.
#[derive(Debug, Drop)]
pub enum UnfoldFault {
    /// A cycle of calls avoids the node that is named for its component: the node, and the first of the
    /// shortest such cycles, from its lowest node on.
    NoCover { avoided: Sequence<u32> },
    /// A base relation has more than 1,024 rules.
    TooManyRules,
    /// A rule has more than 4,096 items.
    TooLongRule,
    /// A rule makes more than 512 variables.
    TooManyFresh,
    /// A rule has more than 1,024 rows.
    TooManyRows,
    /// A product or a sum that makes a row or an argument of a replaced rule is more than 2^127 - 1 in
    /// absolute value.
    TooLarge,
    /// Memory ran out.
    Memory,
}

impl From<AllocError> for UnfoldFault {
    ghost from_gives = { λ _ fault. fault ≡ faults.Memory };

    fn from(_error: AllocError) -> Self {
        UnfoldFault::Memory
    }
}

impl<T: Drop> From<AllocFailed<T>> for UnfoldFault {
    ghost from_gives = { λ _ fault. fault ≡ faults.Memory };

    fn from(_error: AllocFailed<T>) -> Self {
        UnfoldFault::Memory
    }
}
