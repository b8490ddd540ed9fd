//! The laws, each of every relation that is unfolded. Nothing runs here: each contract is the law.

ghost use Rattle.unfolding_laws.specs.Laws.{UnfoldingKeepsPasses, UnfoldingKeepsSpends, UnfoldingReachesAll};

/// At as many sizes as it has, a node passes and spends in the base relations what it does in the relation.
pub fn unfolding_keeps_costs()
    ensures passes { UnfoldingKeepsPasses }
    ensures spends { UnfoldingKeepsSpends }
{}

/// The covers and the target have base relations.
pub fn unfolding_reaches_all()
    ensures { UnfoldingReachesAll }
{}
