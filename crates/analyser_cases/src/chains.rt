//! What the program answers to the first method of a chain of callers, each of which calls the next, once or twice.

use crate::programs::{shelf_with, tell};
use case_texts::Case;
use case_texts::texts::words_of;
use ports::MemorySink;
use std::alloc::{AllocError, Global};

/// How many methods each class of a chain has at most.
const EACH: u32 = 64;

/// The beginning of a method, and of the class that begins with it, where one does.
fn put_method(text: &mut Case<'_>, number: u32) {
    if number % EACH == 0 {
        text.put("\n\nclass R");
        text.show(&(number / EACH));
        text.put(" java/lang/Object 21");
    }
    text.put("\n9 m");
    text.show(&number);
    text.put(" ()V");
}

/// A call of the method of this number.
fn put_call(text: &mut Case<'_>, number: u32) {
    text.put(" b8 m=R");
    text.show(&(number / EACH));
    text.put(".m");
    text.show(&number);
    text.put(":()V");
}

/// A method that calls the one of the next number, once or twice, and returns.
fn put_caller(text: &mut Case<'_>, number: u32, is_double: bool) {
    put_method(text, number);
    put_call(text, number.wrapping_add(1));
    if is_double {
        put_call(text, number.wrapping_add(1));
    }
    text.put(" b1");
}

/// The classes `R0`, `R1` and so on of so many callers, and a method behind them that only returns.
fn chain(alloc: Global, callers: u32, is_double: bool) -> Result<String, AllocError> {
    let mut text = Case::new(alloc, "", "");
    for number in 0..callers {
        put_caller(&mut text, number, is_double);
    }
    put_method(&mut text, callers);
    text.put(" b1");
    text.end()
}

/// The words that ask for the first method of the chain.
fn asking(alloc: Global, callers: u32) -> Result<String, AllocError> {
    let mut line = Case::new(alloc, "", "");
    line.put("bound R0.m0:()V");
    for number in 0..=callers / EACH {
        line.put(" R");
        line.show(&number);
    }
    line.end()
}

/// Tells what the program answers to the words, on the files of the classes.
fn tell_of(case: &mut Case<'_>, line: &str, classes: &str) {
    let words = words_of(case, line);
    let mut shelf = shelf_with(case, classes.trim_start());
    let out = MemorySink::new(case.alloc(), Vec::new(case.alloc()));
    tell(case, &words, &mut shelf, out);
}

/// The input is the number of callers and `once` or `twice`.
pub fn answer(case: &mut Case<'_>) {
    let callers = case.number();
    let is_double = case.word() == "twice";
    let line = asking(case.alloc(), callers);
    let classes = chain(case.alloc(), callers, is_double);
    if let (Ok(line), Ok(classes)) = (line, classes) {
        tell_of(case, line.as_str(), classes.as_str());
    }
}
