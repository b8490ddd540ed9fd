ghost use Rattle.std.specs.Prelude.{◌≡◌, ◌≤◌, length};
ghost use Rattle.code_blocks.specs.Blocks.{AreWithin};

use class_pool::Sequence;
use code_blocks::code_is_laid_out;
use frame_kinds::Kinds;
use method_body::Body;

/// A method of a program, with the kinds of its frames, and for each instruction of its body the methods that it can call, by
/// their numbers in the program: none where it is no call, or a call without a target.
#[derive(Drop)]
pub struct NullMethod<'b, 'c> {
    pub body: &'b Body<'c>,
    pub kinds: &'b Kinds,
    pub targets: Sequence<Sequence<u32>>,
    ghost counted: { length kinds.now ≡ length body.now.code.bytes },
    ghost each: { length targets ≡ length body.now.instructions },
    ghost some: { 1 ≤ length body.now.code.bytes },
    ghost short: { length body.now.code.bytes ≤ 65535 },
    ghost within: { AreWithin (length body.now.code.bytes) body.now.instructions },
}

impl<'b, 'c> NullMethod<'b, 'c> {
    /// The method of this body, with targets for each of its instructions.
    pub fn new(body: &'b Body<'c>, kinds: &'b Kinds, targets: Sequence<Sequence<u32>>) -> Self
        requires kinds { length kinds.now ≡ length body.now.code.bytes }
        requires targets { length targets ≡ length body.now.instructions }
        ensures body { result.body.now ≡ body.now }
        ensures kinds { result.kinds.now ≡ kinds.now }
        ensures targets { result.targets ≡ targets }
    {
        code_is_laid_out();
        body.well_made();
        NullMethod {
            body,
            kinds,
            targets,
        }
    }
}
