//! The laws of effects. Nothing runs here: each contract is the law.
ghost use Rattle.kind_effects.specs.Laws.{EffectsMakeFacts, EffectsKeepOrder};

/// What is made of a fact of a method is a fact of it.
pub fn effects_make_facts()
    ensures { EffectsMakeFacts }
{}

/// What is made of a fact lies below what is made of one above it.
pub fn effects_keep_order()
    ensures { EffectsKeepOrder }
{}
