//! The words that name constructs in texts.

use case_texts::Case;
use op_table::Construct;

/// Each construct.
const CONSTRUCTS: [Construct; 22] = [
    Construct::Float,
    Construct::Monitor,
    Construct::Dynamic,
    Construct::Jsr,
    Construct::Multiarray,
    Construct::Constant,
    Construct::StaticRef,
    Construct::RefWrite,
    Construct::Native,
    Construct::Synchronized,
    Construct::Handler,
    Construct::ArrayMethod,
    Construct::Opcode,
    Construct::Target,
    Construct::FallsOff,
    Construct::MissingClass,
    Construct::MissingMember,
    Construct::Ambiguous,
    Construct::PackageOverride,
    Construct::AbstractTarget,
    Construct::Incompatible,
    Construct::Later,
];

/// Whether the construct is written so in code.
fn is_written(case: &mut Case<'_>, construct: Construct, word: &str) -> bool {
    let mut name = Case::new(case.alloc(), "", "");
    name.show_debug(&construct);
    match name.end() {
        Ok(name) => name.as_str() == word,
        Err(_) => false,
    }
}

pub fn answer(case: &mut Case<'_>) {
    let word = case.rest();
    for construct in CONSTRUCTS {
        if is_written(case, construct, word) {
            case.put(construct.word());
        }
    }
}
