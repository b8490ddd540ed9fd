//! A case that is being answered. Its input is read from front to back, and its answer written as it comes. What is wrong
//! is noted and ends nothing: what is read then is empty or 0, and in the end the first fault stands in place of the answer.
//! So no function that answers has a fault to hand on, which would be its dearest part to prove.

use std::alloc::{AllocError, Global};
use std::fmt::{Debug, Display, Write};
use std::num::ParseIntError;
use std::str::FromStr;

/// Why a case has no answer.
#[derive(Clone, Copy)]
enum Fault {
    /// The line isn't of the form that its subject reads.
    Malformed(&'static str),
    /// A number of the line isn't one.
    Number,
    Memory,
}

/// What a table gives its cases, the input that isn't read yet, and the answer so far.
#[derive(Drop)]
pub struct Case<'a> {
    alloc: Global,
    given: &'a str,
    rest: &'a str,
    answer: String,
    fault: Option<Fault>,
}

impl<'a> Case<'a> {
    /// A case of which nothing is read and answered.
    pub fn new(alloc: Global, given: &'a str, input: &'a str) -> Case<'a> {
        Case {
            alloc,
            given,
            rest: input,
            answer: String::new(alloc),
            fault: None,
        }
    }

    pub fn alloc(&self) -> Global {
        self.alloc
    }

    /// What the table gives all its cases.
    pub fn given(&self) -> &'a str {
        self.given
    }

    fn note(&mut self, fault: Fault) {
        if self.fault.is_none() {
            self.fault = Some(fault);
        }
    }

    /// Notes that the case isn't of the form that its subject reads.
    pub fn malformed(&mut self, what: &'static str) {
        self.note(Fault::Malformed(what));
    }

    /// Notes that memory was wanting, where it was.
    pub fn keep(&mut self, made: Result<(), AllocError>) {
        if made.is_err() {
            self.note(Fault::Memory);
        }
    }

    /// What was made, where there was memory for it.
    pub fn made<T: Drop>(&mut self, made: Result<T, AllocError>) -> Option<T> {
        match made {
            Ok(value) => Some(value),
            Err(_) => {
                self.note(Fault::Memory);
                None
            }
        }
    }

    /// Adds an item to a list.
    pub fn add<T: Drop>(&mut self, items: &mut Vec<T>, item: T) {
        if items.push(item).is_err() {
            self.note(Fault::Memory);
        }
    }

    /// Adds bytes to others.
    pub fn append(&mut self, bytes: &mut Vec<u8>, more: &[u8]) {
        let added = bytes.extend_from_slice(more);
        self.keep(added);
    }

    /// Whether something of the input isn't read yet.
    pub fn has_more(&self) -> bool {
        !self.rest.is_empty()
    }

    /// All of the input that isn't read yet.
    pub fn rest(&mut self) -> &'a str {
        let rest = self.rest;
        self.rest = "";
        rest
    }

    /// Reads this text next, in place of what isn't read yet.
    pub fn turn_to(&mut self, text: &'a str) {
        self.rest = text;
    }

    /// The input as far as the mark, or all of it.
    pub fn until(&mut self, mark: &str) -> &'a str {
        let (front, rest) = self.rest.split_once(mark).unwrap_or((self.rest, ""));
        self.rest = rest;
        front
    }

    /// Cuts the input off at the mark, which has to stand there, and gives what stands behind it.
    pub fn behind(&mut self, mark: &str) -> &'a str {
        let (front, end) = self.halves(self.rest, mark);
        self.rest = front;
        end
    }

    /// The next word: words are parted by single spaces.
    pub fn word(&mut self) -> &'a str {
        self.until(" ")
    }

    /// The next word, which is a number.
    pub fn number<T: FromStr<Err = ParseIntError> + Default + Drop>(&mut self) -> T {
        let word = self.word();
        self.parsed(word)
    }

    /// The number that a word is.
    pub fn parsed<T: FromStr<Err = ParseIntError> + Default + Drop>(&mut self, word: &str) -> T {
        match word.parse::<T>() {
            Ok(number) => number,
            Err(_) => {
                self.note(Fault::Number);
                T::default()
            }
        }
    }

    /// The number that a word is in hexadecimal digits.
    pub fn flags(&mut self, word: &str) -> u16 {
        match u16::from_str_radix(word, 16) {
            Ok(number) => number,
            Err(_) => {
                self.note(Fault::Number);
                0
            }
        }
    }

    /// What stands before and behind the mark, which has to stand in the text.
    pub fn halves<'t>(&mut self, text: &'t str, mark: &str) -> (&'t str, &'t str) {
        match text.split_once(mark) {
            Some(halves) => halves,
            None => {
                self.note(Fault::Malformed("a part is missing"));
                (text, "")
            }
        }
    }

    /// Adds to the answer.
    pub fn put(&mut self, text: &str) {
        let put = self.answer.push_str(text);
        self.keep(put);
    }

    /// Adds what stands between two parts of the answer, where it isn't empty.
    pub fn part(&mut self, between: &str) {
        if !self.answer.is_empty() {
            self.put(between);
        }
    }

    /// Adds a word to the answer, behind a space.
    pub fn put_word(&mut self, word: &str) {
        self.part(" ");
        self.put(word);
    }

    /// Adds the text of a value to the answer.
    pub fn show<T: Display>(&mut self, value: &T) {
        let put = write!(self.answer, "{value}");
        self.keep(put);
    }

    /// Adds the text of a value to the answer as a word.
    pub fn show_word<T: Display>(&mut self, value: &T) {
        self.part(" ");
        self.show(value);
    }

    /// Adds a value to the answer as it stands in code.
    pub fn show_debug<T: Debug>(&mut self, value: &T) {
        let put = write!(self.answer, "{value:?}");
        self.keep(put);
    }

    /// Adds a number to the answer in hexadecimal digits.
    pub fn show_hex(&mut self, number: u64) {
        let put = write!(self.answer, "{number:x}");
        self.keep(put);
    }

    /// Adds bytes to the answer, each in two hexadecimal digits.
    pub fn show_bytes(&mut self, bytes: &[u8]) {
        for byte in bytes {
            let put = write!(self.answer, "{byte:02x}");
            self.keep(put);
        }
    }

    /// The answer, or the first fault in its place. Want of memory is none of the case's.
    pub fn end(self) -> Result<String, AllocError> {
        match self.fault {
            None => Ok(self.answer),
            Some(Fault::Malformed(what)) => format!(in self.alloc; "malformed: {what}"),
            Some(Fault::Number) => String::from_str(self.alloc, "no number"),
            Some(Fault::Memory) => Err(AllocError),
        }
    }
}
