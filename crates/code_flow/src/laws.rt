ghost use Rattle.code_flow.specs.Faults.{FaultsAreFirst, FaultsAreFounded, TooManyAreMany};
ghost use Rattle.code_flow.specs.Program.{FlowsArePrograms, ListedAreReached, ListedInOrder};

/// A law of all flows: what is answered is a program.
pub fn flows_are_programs()
    ensures { FlowsArePrograms }
{}

/// A law of all methods: those that are listed are those that calls lead to, where they are not more than are analysed,
/// in the order in which they are called, each where it is called first.
pub fn listed_are_reached()
    ensures reached { ListedAreReached }
    ensures order { ListedInOrder }
{}

/// A law of all faults: each has its ground, a construct in a method of the world; it is the first one, methods in order and
/// in each by its place; and too many methods are more than are analysed, each once.
pub fn faults_are_first()
    ensures founded { FaultsAreFounded }
    ensures first { FaultsAreFirst }
    ensures many { TooManyAreMany }
{}
