//! Files that a table gives in hexadecimal digits, and edits of them. Each line that is given names a file and has bytes
//! that come next in it, or is a comment behind `# `; a file that no line names is empty. An edit is an offset, how many
//! bytes it takes away there and what it puts there; edits are parted by `, `.

use case_texts::Case;
use case_texts::texts::bytes_of;

/// The bytes of the file of this name.
fn file_of(case: &mut Case<'_>, name: &str) -> Vec<u8> {
    let mut file = Vec::new(case.alloc());
    for line in case.given().lines() {
        if let Some((first, digits)) = line.split_once(' ')
            && first == name
        {
            let bytes = bytes_of(case, digits);
            case.append(&mut file, &bytes);
        }
    }
    file
}

/// The name of the first file that has these bytes, and `other` where none has.
pub fn name_with<'a>(case: &mut Case<'a>, bytes: &[u8]) -> &'a str {
    for line in case.given().lines() {
        let (name, _) = line.split_once(' ').unwrap_or(("#", ""));
        if name != "#" && file_of(case, name).as_slice() == bytes {
            return name;
        }
    }
    "other"
}

/// The bytes behind the edit that comes next.
fn edited(case: &mut Case<'_>, bytes: &[u8]) -> Vec<u8> {
    let (at, cut): (usize, usize) = (case.number(), case.number());
    let put = case.rest();
    let put = bytes_of(case, put);
    let mut made = Vec::new(case.alloc());
    case.append(&mut made, bytes.get(..at).unwrap_or(bytes));
    case.append(&mut made, &put);
    case.append(
        &mut made,
        bytes.get(at.saturating_add(cut)..).unwrap_or(&[]),
    );
    made
}

/// The bytes of the file that comes next, behind the edits that follow.
pub fn edited_file(case: &mut Case<'_>) -> Vec<u8> {
    let name = case.word();
    let mut bytes = file_of(case, name);
    for edit in case.rest().split_terminator(", ") {
        case.turn_to(edit);
        bytes = edited(case, bytes.as_slice());
    }
    bytes
}
