//! The laws, each of every relation. Nothing runs here: each contract is the law.
ghost use Rattle.relation_runs.specs.Laws.{DeeperPasses, DeeperSpends, DeeperLeads, PassedIsSpent, FrontIsSpent, PassesJoined, SpendsJoined, SpentByPrefix, SameValuesPass, SameValuesSpend, ReplacedPass, ReplacedSpend, NumberedGrows, TermsPass, TermsSpend, NodesPass, NodesSpend, TermsLead};

/// What passes, is spent or leads at a depth does so at each greater one.
pub fn depths_add_only()
    ensures passes { DeeperPasses }
    ensures spends { DeeperSpends }
    ensures leads { DeeperLeads }
{}

/// What passes is spent, and so is what a front passes or spends.
pub fn passed_is_spent()
    ensures nodes { PassedIsSpent }
    ensures fronts { FrontIsSpent }
{}

/// What joined items pass and spend, by the two parts.
pub fn items_are_joined()
    ensures passes { PassesJoined }
    ensures spends { SpendsJoined }
{}

/// What is spent is what a prefix passes, and what a call right behind it may spend.
pub fn spent_is_a_prefix()
    ensures { SpentByPrefix }
{}

/// Valuations that give each variable the same value are the same.
pub fn same_values()
    ensures passes { SameValuesPass }
    ensures spends { SameValuesSpend }
{}

/// Items whose variables are replaced pass and spend what they do at the values that stand in their place.
pub fn replaced_items()
    ensures passes { ReplacedPass }
    ensures spends { ReplacedSpend }
{}

/// A term in scope passes and spends what its ways do, where each variable that is made takes its own place.
pub fn terms_are_their_ways()
    ensures passes { TermsPass }
    ensures spends { TermsSpend }
    // A term leads to an exit where one of its ways does.
    ensures leads { TermsLead }
    // Variables that are numbered in order are added at the end.
    ensures grows { NumberedGrows }
{}

/// A node of a relation passes and spends, at as many sizes as it has, what its rules do.
pub fn nodes_are_their_rules()
    ensures passes { NodesPass }
    ensures spends { NodesSpend }
{}
