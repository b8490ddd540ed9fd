//! Files that a shelf holds.

use case_texts::Case;
use class_pool::{Bytes, Sequence, Text};

/// Adds a file.
pub fn add_file(case: &mut Case<'_>, files: &mut Vec<(Text, Bytes)>, path: &str, bytes: Vec<u8>) {
    let path = Text::from_slice(case.alloc(), path.as_bytes());
    if let Some(path) = case.made(path) {
        case.add(files, (path, Sequence::from(bytes)));
    }
}
