//! Lists of bytes, which a case has in hexadecimal digits: how many there are, whether there are none, and the bytes of the
//! list that they are pushed into and of the one that is made of them.

use crate::instructions::code_of;
use case_texts::Case;
use class_pool::Bytes;

fn pushed(case: &mut Case<'_>, bytes: &[u8]) -> Bytes {
    let mut list = Bytes::new(case.alloc());
    for byte in bytes {
        let added = list.push(*byte);
        case.keep(added);
    }
    list
}

pub fn answer(case: &mut Case<'_>) {
    let bytes = code_of(case);
    let list = pushed(case, bytes.as_slice());
    let made = Bytes::from(bytes);
    case.show(&list.len());
    case.show_word(&list.is_empty());
    case.put(" ");
    case.show_debug(&list.as_slice());
    case.put(" ");
    case.show_debug(&made.as_slice());
}
