//! What stands before and behind a place in a rule whose calls are being replaced.
ghost use Rattle.std.specs.Prelude.{◌≡◌};
ghost use Rattle.base_relations.specs.inside.Trails.{called_node, called_args};

use lin_rows::Lin;
use rule_terms::Item;

/// A part that is still to be looked at: an item, or the end of a rule in a call's place.
#[derive(Clone, Copy, Drop)]
pub(crate) enum Todo<'a> {
    Item(&'a Item),
    Leave,
}

/// A part that was looked at: an item that stays, a call with the number of the rule that was put in its place, or the end
/// of such a rule.
#[derive(Clone, Copy, Drop)]
pub(crate) enum Done<'a> {
    Item(&'a Item),
    Enter(&'a Item, usize),
    Leave,
}

/// The node that an item calls.
pub(crate) fn called_node(item: &Item) -> u32
    ensures { result ≡ called_node item.now }
{
    match item {
        Item::Call(node, _) => *node,
        Item::Assume(_) | Item::Spend(_) | Item::Fresh(_) => 0,
    }
}

/// The arguments that an item calls with.
pub(crate) fn called_args(item: &Item) -> &[Lin]
    ensures { result.now ≡ called_args item.now }
{
    match item {
        Item::Call(_, args) => args.as_slice(),
        Item::Assume(_) | Item::Spend(_) | Item::Fresh(_) => &[],
    }
}
