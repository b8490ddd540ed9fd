//! Reads class files and prints an upper bound on what one of their methods can cost.
#![tactic(auto)]

use analyser::{Status, costa, exit_code};
use ports::{FileShelf, OutSink};
use std::alloc::{AllocError, Global};
use std::process::ExitCode;
use std::rt::Env;
use std::{env, io};

/// The words after the program's name. Where one of them is no text there are none.
fn words_of(alloc: Global, rt: &(impl Env + AllocGlobal)) -> Result<Vec<String>, AllocError> {
    let mut words = Vec::new(alloc);
    match env::args(rt) {
        Ok(all) => {
            for word in all.skip(1) {
                words.push(word)?;
            }
        }
        Err(error) if error.kind() == io::ErrorKind::OutOfMemory => return Err(AllocError),
        Err(_) => {}
    }
    Ok(words)
}

fn main(rt: HostRuntime) -> ExitCode {
    let alloc = rt.alloc();
    let Ok(words) = words_of(alloc, &rt) else {
        return ExitCode::from(exit_code(&Status::Memory));
    };
    let mut out = OutSink::new(io::writer(&rt));
    let mut shelf = FileShelf::new(alloc, &rt);
    let status = costa(alloc, words.as_slice(), &mut shelf, &mut out);
    ExitCode::from(exit_code(&status))
}
