//! Reads from bytes (JVMS 4). A case has the offset of the first byte, the bytes, and words: the reads `u1`, `u2`, `u4` and
//! `long`, a number for so many bytes, and `at` and `left` for where the cursor stands.

use case_texts::Case;
use case_texts::texts::bytes_of;
use class_pool::{Cursor, Short};

/// How many bytes stand before and in a table's bytes at most.
const MOST: usize = 65535;

fn put_short(case: &mut Case<'_>, short: Short) {
    case.put("short:");
    case.show(&short.at);
}

fn put_number<T: Into<u64> + Drop>(case: &mut Case<'_>, number: Result<T, Short>) {
    match number {
        Ok(number) => case.show_hex(number.into()),
        Err(short) => put_short(case, short),
    }
}

fn put_bytes(case: &mut Case<'_>, taken: Result<&[u8], Short>) {
    match taken {
        Ok(bytes) => case.show_bytes(bytes),
        Err(short) => put_short(case, short),
    }
}

fn take(case: &mut Case<'_>, cursor: &mut Cursor<'_>, count: &str) {
    let taken = cursor.take(case.parsed(count));
    put_bytes(case, taken);
}

fn step(case: &mut Case<'_>, cursor: &mut Cursor<'_>, word: &str) {
    match word {
        "at" => case.show(&cursor.at()),
        "left" => case.show(&cursor.left()),
        "u1" => put_number(case, cursor.u1()),
        "u2" => put_number(case, cursor.u2()),
        "u4" => put_number(case, cursor.u4()),
        "long" => put_number(case, cursor.long()),
        count => take(case, cursor, count),
    }
}

pub fn answer(case: &mut Case<'_>) {
    let base: u16 = case.number();
    let bytes = case.word();
    let bytes = bytes_of(case, bytes);
    if bytes.len() > MOST {
        case.malformed("too many bytes");
        return;
    }
    let mut cursor = Cursor::new(bytes.as_slice(), u32::from(base));
    for word in case.rest().split(' ') {
        case.part(" ");
        step(case, &mut cursor, word);
    }
}
