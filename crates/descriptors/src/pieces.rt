//! The types of a descriptor, each as the text that stands for it (JVMS 4.3.3).

ghost use Rattle.std.specs.Prelude.{◌≡◌, ◌*◌, ◌≤◌, length, drop, option_map};
ghost use Rattle.descriptors.specs.Pieces.{IsFirstType, behind_types, parameters_of, result_of, types_of};
ghost use Rattle.descriptors.specs.Sizes.{IsFirstPiece, name_size, piece_size};
ghost use Rattle.descriptors.specs.Texts.{has_float, names_float, text_words, words_of_all};

// How many bytes a name takes, with its `;`.
fn name_size(text: &[u8]) -> usize
    ensures size { result ≡ name_size text.now }
    ensures within { result ≤ length text.now }
{
    let mut rest = text;
    let mut size = 0;
    while let [first, behind @ ..] = rest {
        size += 1;
        if *first == b';' {
            return size;
        }
        rest = behind;
    }
    size
}

// How many bytes the piece takes that a text begins with.
fn piece_size(text: &[u8]) -> usize
    ensures size { result ≡ piece_size text.now }
    ensures within { result ≤ length text.now }
{
    let mut rest = text;
    let mut depth = 0;
    while let [first, behind @ ..] = rest {
        depth += 1;
        if *first == b'L' {
            return depth + name_size(behind);
        }
        if *first != b'[' {
            return depth;
        }
        rest = behind;
    }
    depth
}

// The first piece of a text, and what stands behind it.
fn first_piece(text: &[u8]) -> Option<(&[u8], &[u8])>
    ensures { IsFirstPiece (option_map (λ r. (r.0.now, r.1.now)) result) text.now }
{
    if text.is_empty() {
        return None;
    }
    let size = piece_size(text);
    Some((&text[..size], &text[size..]))
}

/// The first type of a text, and what stands behind it: none at a `)` and at the text's end.
pub fn first_type(text: &[u8]) -> Option<(&[u8], &[u8])>
    ensures { IsFirstType (option_map (λ r. (r.0.now, r.1.now)) result) text.now }
{
    let [first, ..] = text else {
        return None;
    };
    if *first == b')' {
        return None;
    }
    first_piece(text)
}

/// The text of a method's parameters and what stands behind them.
pub fn behind_open(desc: &[u8]) -> &[u8]
    ensures { result.now ≡ drop 1 desc.now }
{
    match desc {
        [_, rest @ ..] => rest,
        [] => desc,
    }
}

// What stands behind the `)` of a text.
fn behind_types(text: &[u8]) -> &[u8]
    ensures { result.now ≡ behind_types text.now }
{
    let mut left = text;
    while let Some((_, rest)) = first_type(left) {
        left = rest;
    }
    behind_open(left)
}

/// The type of a method's result, or `V`.
pub fn result_of(desc: &[u8]) -> &[u8]
    ensures { result.now ≡ result_of desc.now }
{
    behind_types(behind_open(desc))
}

// How many words a value of the type takes.
fn text_words(desc: &[u8]) -> usize
    ensures words { result ≡ text_words desc.now }
    ensures few { result ≤ 2 }
{
    if desc == b"J".as_slice() || desc == b"D".as_slice() {
        2
    } else {
        1
    }
}

// How many words values of all these types take.
fn words_of_all(types: &[u8]) -> usize
    ensures words { result ≡ words_of_all (types_of types.now) }
    ensures few { result ≤ 2 * length types.now }
{
    let mut left = types;
    let mut words = 0;
    while let Some((desc, rest)) = first_type(left) {
        words += text_words(desc);
        left = rest;
    }
    words
}

/// How many words a method's parameters take.
pub fn parameter_words(desc: &[u8]) -> usize
    ensures words { result ≡ words_of_all (parameters_of desc.now) }
    ensures few { result ≤ 2 * length desc.now }
{
    words_of_all(behind_open(desc))
}

// Whether the type is float, double, or an array of one of them.
fn has_float(desc: &[u8]) -> bool
    ensures { result ≡ has_float desc.now }
{
    let mut left = desc;
    while let [first, rest @ ..] = left {
        if *first != b'[' {
            return matches!(*first, b'F' | b'D');
        }
        left = rest;
    }
    false
}

/// Whether a descriptor names a float or a double, outside the names of classes.
#[tactic(auto, using(crate::proofs::Cuts::no_pieces))]
pub fn names_float(desc: &[u8]) -> bool
    ensures { result ≡ names_float desc.now }
{
    let mut left = desc;
    while let Some((piece, rest)) = first_piece(left) {
        if has_float(piece) {
            return true;
        }
        left = rest;
    }
    false
}
