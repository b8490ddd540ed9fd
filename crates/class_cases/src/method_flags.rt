//! Whether the flags of a method, in hexadecimal digits, say that it is static, native and abstract (JVMS 4.6).

use case_texts::Case;
use class_reader::{is_abstract, is_native, is_static};

pub fn answer(case: &mut Case<'_>) {
    let flags = case.rest();
    let flags = case.flags(flags);
    case.show_word(&is_static(flags));
    case.show_word(&is_native(flags));
    case.show_word(&is_abstract(flags));
}
