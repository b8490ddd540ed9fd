//! Whether bytes are modified UTF-8 (JVMS 4.4.7).

use crate::instructions::code_of;
use case_texts::Case;
use class_pool::is_utf8;

pub fn answer(case: &mut Case<'_>) {
    let bytes = code_of(case);
    case.show(&is_utf8(bytes.as_slice()));
}
