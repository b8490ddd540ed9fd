//! Class files of version 52 from text (JVMS 4). A class's first line is `class NAME SUPER FLAGS`, and the
//! names of its interfaces. Lines that begin with the word `field` come next, each with a field's
//! `FLAGS NAME DESCRIPTOR`. Each other line is a method, as `FLAGS NAME DESCRIPTOR`, and its code in words;
//! in place of code `-` stands for none. Flags are hexadecimal, and those of a method with an exception
//! handler end in `!`. Behind a method's flags may stand `/` and max_locals, which is 6 else.
//!
//! A word of code is a byte in hexadecimal digits, or the index of a new entry of the constant pool: `c=NAME`
//! of a class, `u=TEXT` of a text, `d=` of a double, and `f=`, `m=` and `n=`, each with `CLASS.NAME:DESCRIPTOR`,
//! of a field, a method and an interface's method. `s=TEXT` is the index of a string in one byte.

use crate::Case;
use std::str::SplitWhitespace;

/// A class file that is being made: the entries of its constant pool, the index of the next one, and what stands
/// behind the pool.
#[derive(Drop)]
struct Assembler {
    pool: Vec<u8>,
    next: u16,
    body: Vec<u8>,
}

/// A count of two bytes.
fn length_of(count: usize) -> u16 {
    u16::try_from(count).unwrap_or(u16::MAX)
}

/// The next word of a line, or an empty one.
fn next<'a>(words: &mut SplitWhitespace<'a>) -> &'a str {
    words.next().unwrap_or("")
}

fn is_field(line: &str) -> bool {
    line.starts_with("field ")
}

impl Assembler {
    /// Adds an entry that begins so, and gives its index.
    fn entry(&mut self, case: &mut Case<'_>, tag: u8, bytes: &[u8]) -> u16 {
        let index = self.next;
        case.add(&mut self.pool, tag);
        case.append(&mut self.pool, bytes);
        self.next = index.wrapping_add(1);
        index
    }

    fn utf8(&mut self, case: &mut Case<'_>, text: &str) -> u16 {
        let index = self.entry(case, 1, &length_of(text.len()).to_be_bytes());
        case.append(&mut self.pool, text.as_bytes());
        index
    }

    /// An entry that names a text: a class (JVMS 4.4.1) or a string (JVMS 4.4.3).
    fn naming(&mut self, case: &mut Case<'_>, tag: u8, text: &str) -> u16 {
        let text = self.utf8(case, text);
        self.entry(case, tag, &text.to_be_bytes())
    }

    fn pair(&mut self, case: &mut Case<'_>, tag: u8, first: u16, second: u16) -> u16 {
        let [a, b] = first.to_be_bytes();
        let [c, d] = second.to_be_bytes();
        self.entry(case, tag, &[a, b, c, d])
    }

    /// A double takes two indices (JVMS 4.4.5).
    fn double(&mut self, case: &mut Case<'_>) -> u16 {
        let index = self.entry(case, 6, &[0; 8]);
        self.next = self.next.wrapping_add(1);
        index
    }

    /// A name and a descriptor (JVMS 4.4.6).
    fn member(&mut self, case: &mut Case<'_>, text: &str) -> u16 {
        let (name, desc) = case.halves(text, ":");
        let name = self.utf8(case, name);
        let desc = self.utf8(case, desc);
        self.pair(case, 12, name, desc)
    }

    /// A reference to a member (JVMS 4.4.2).
    fn reference(&mut self, case: &mut Case<'_>, tag: u8, text: &str) -> u16 {
        let (class, member) = case.halves(text, ".");
        let class = self.naming(case, 7, class);
        let named = self.member(case, member);
        self.pair(case, tag, class, named)
    }

    /// The index that a word of this letter is.
    fn index(&mut self, case: &mut Case<'_>, letter: u8, text: &str) -> u16 {
        match letter {
            b'c' => self.naming(case, 7, text),
            b'd' => self.double(case),
            b'f' => self.reference(case, 9, text),
            b'm' => self.reference(case, 10, text),
            b'n' => self.reference(case, 11, text),
            b's' => self.naming(case, 8, text),
            _ => self.utf8(case, text),
        }
    }

    /// Adds the index that a word is: of a string in its lower byte alone.
    fn put_index(&mut self, case: &mut Case<'_>, code: &mut Vec<u8>, letter: &str, text: &str) {
        let letter = letter.as_bytes().first().copied().unwrap_or(0);
        let index = self.index(case, letter, text).to_be_bytes();
        let from = if letter == b's' { 1 } else { 0 };
        case.append(code, &index[from..]);
    }

    fn put_word(&mut self, case: &mut Case<'_>, code: &mut Vec<u8>, word: &str) {
        match word.split_once('=') {
            Some((letter, text)) => self.put_index(case, code, letter, text),
            None => {
                let [_, byte] = case.flags(word).to_be_bytes();
                case.add(code, byte);
            }
        }
    }

    /// Puts numbers of two bytes behind the pool.
    fn put(&mut self, case: &mut Case<'_>, numbers: &[u16]) {
        for number in numbers {
            case.append(&mut self.body, &number.to_be_bytes());
        }
    }

    /// The head of an attribute Code with max_stack 4 (JVMS 4.7.3), and its bytes.
    fn put_bytes(&mut self, case: &mut Case<'_>, code: &[u8], max_locals: u16, more: u16) {
        let attribute = self.utf8(case, "Code");
        let length = length_of(code.len());
        let whole = length.wrapping_add(12).wrapping_add(more);
        self.put(case, &[1, attribute, 0, whole, 4, max_locals, 0, length]);
        case.append(&mut self.body, code);
    }

    /// An attribute Code. A handler covers the first byte.
    fn put_code(&mut self, case: &mut Case<'_>, code: &[u8], max_locals: u16, has_handler: bool) {
        if has_handler {
            self.put_bytes(case, code, max_locals, 8);
            self.put(case, &[1, 0, 1, 0, 0, 0]);
        } else {
            self.put_bytes(case, code, max_locals, 0);
            self.put(case, &[0, 0]);
        }
    }

    /// The bytes that the words of code are.
    fn code_of(&mut self, case: &mut Case<'_>, words: SplitWhitespace<'_>) -> Vec<u8> {
        let mut code = Vec::new(case.alloc());
        for word in words {
            self.put_word(case, &mut code, word);
        }
        code
    }

    /// The flags, the name and the descriptor of a member (JVMS 4.5, 4.6).
    fn put_member(&mut self, case: &mut Case<'_>, flags: &str, words: &mut SplitWhitespace<'_>) {
        let flags = case.flags(flags);
        let name = self.utf8(case, next(words));
        let desc = self.utf8(case, next(words));
        self.put(case, &[flags, name, desc]);
    }

    fn put_method(&mut self, case: &mut Case<'_>, line: &str) {
        let mut words = line.split_whitespace();
        let flags = next(&mut words);
        let bare = flags.trim_end_matches('!');
        let (own, max_locals) = bare.split_once('/').unwrap_or((bare, "6"));
        self.put_member(case, own, &mut words);
        if line.ends_with(" -") {
            self.put(case, &[0]);
            return;
        }
        let code = self.code_of(case, words);
        let max_locals = case.parsed(max_locals);
        self.put_code(case, &code, max_locals, flags.len() != bare.len());
    }

    fn put_methods(&mut self, case: &mut Case<'_>, members: &str) {
        for line in members.lines() {
            if !is_field(line) {
                self.put_method(case, line);
            }
        }
    }

    /// Fields without attributes (JVMS 4.5).
    fn put_fields(&mut self, case: &mut Case<'_>, members: &str) {
        for line in members.lines() {
            if let Some(line) = line.strip_prefix("field ") {
                let mut words = line.split_whitespace();
                let flags = next(&mut words);
                self.put_member(case, flags, &mut words);
                self.put(case, &[0]);
            }
        }
    }

    /// The flags, this class, its superclass and its interfaces.
    fn put_head(&mut self, case: &mut Case<'_>, line: &str) {
        let mut words = line.split_whitespace();
        next(&mut words);
        let name = self.naming(case, 7, next(&mut words));
        let superclass = self.naming(case, 7, next(&mut words));
        let flags = case.flags(next(&mut words));
        let interfaces = line.split_whitespace().count().saturating_sub(4);
        self.put(case, &[flags, name, superclass, length_of(interfaces)]);
        for interface in words {
            let index = self.naming(case, 7, interface);
            self.put(case, &[index]);
        }
    }

    /// The bytes of the file.
    fn file(&self, case: &mut Case<'_>) -> Vec<u8> {
        let mut file = Vec::new(case.alloc());
        case.append(&mut file, b"\xca\xfe\xba\xbe\0\0\0\x34");
        case.append(&mut file, &self.next.to_be_bytes());
        case.append(&mut file, &self.pool);
        case.append(&mut file, &self.body);
        file
    }
}

/// How many lines are of fields, and how many are not.
fn counts_of(members: &str) -> (u16, u16) {
    let (mut fields, mut methods) = (0u16, 0u16);
    for line in members.lines() {
        if is_field(line) {
            fields = fields.wrapping_add(1);
        } else {
            methods = methods.wrapping_add(1);
        }
    }
    (fields, methods)
}

/// The class file of the class of this text.
pub fn assembled(case: &mut Case<'_>, text: &str) -> Vec<u8> {
    let mut class = Assembler {
        pool: Vec::new(case.alloc()),
        next: 1,
        body: Vec::new(case.alloc()),
    };
    let (head, members) = text.split_once('\n').unwrap_or((text, ""));
    let (fields, methods) = counts_of(members);
    class.put_head(case, head);
    class.put(case, &[fields]);
    class.put_fields(case, members);
    class.put(case, &[methods]);
    class.put_methods(case, members);
    class.put(case, &[0]);
    class.file(case)
}
