ghost use Rattle.entries.specs.Entering.{GoodArgumentsAreHanded};

/// A law: a method can be entered exactly with arguments of which each is good.
pub fn good_arguments_are_handed()
    ensures { GoodArgumentsAreHanded }
{}
