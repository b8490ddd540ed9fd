//! What the words of a command line ask for, or which of them is wrong first.

use crate::targets::put_target;
use case_texts::Case;
use case_texts::texts::words_of;
use class_pool::Target;
use cost_words::{Command, Cost, PathWord, Word, WordFault, WordKind, read};

fn put_path(case: &mut Case<'_>, path: &PathWord) {
    case.put(" ");
    case.put(path.path.as_str());
    case.put("@");
    case.show(&path.index);
}

/// The name of a command, and its cost.
fn put_name(case: &mut Case<'_>, name: &str, cost: &Cost) {
    case.put(name);
    match cost {
        Cost::Instructions => case.put(" instructions"),
        Cost::Objects => case.put(" objects"),
        Cost::Weights(path) => put_path(case, path),
    }
}

/// A target with arguments, and files.
fn put_rest(case: &mut Case<'_>, target: &Target, args: &[Word], files: &[PathWord]) {
    case.put(" ");
    put_target(case, target);
    for arg in args {
        case.put(" '");
        case.put(arg.as_str());
        case.put("'");
    }
    case.put(":");
    for path in files {
        put_path(case, path);
    }
}

fn put_command(case: &mut Case<'_>, command: &Command) {
    match command {
        Command::Bound {
            cost,
            proof,
            target,
            files,
        } => {
            put_name(case, "bound", cost);
            case.put(if *proof { " proof" } else { "" });
            put_rest(case, target, &[], files.as_slice());
        }
        Command::Check {
            cost,
            report,
            target,
            files,
        } => {
            put_name(case, "check", cost);
            put_path(case, report);
            put_rest(case, target, &[], files.as_slice());
        }
        Command::Relations {
            cost,
            target,
            files,
        } => {
            put_name(case, "relations", cost);
            put_rest(case, target, &[], files.as_slice());
        }
        Command::Run {
            cost,
            steps,
            target,
            args,
            files,
        } => {
            put_name(case, "run", cost);
            case.show_word(steps);
            put_rest(case, target, args.as_slice(), files.as_slice());
        }
        Command::Sample { number, methods } => {
            case.put("sample");
            case.show_word(number);
            case.show_word(methods);
        }
    }
}

fn kind_of(kind: WordKind) -> &'static str {
    match kind {
        WordKind::NoCommand => "no command",
        WordKind::UnknownCommand => "unknown command",
        WordKind::Missing => "missing",
        WordKind::Extra => "extra",
        WordKind::BadTarget => "bad target",
        WordKind::BadNumber => "bad number",
    }
}

pub fn answer(case: &mut Case<'_>) {
    let line = case.rest();
    let words = words_of(case, line);
    match read(case.alloc(), words.as_slice()) {
        Ok(command) => put_command(case, &command),
        Err(WordFault::Wrong { kind, index }) => {
            case.put(kind_of(kind));
            case.put("@");
            case.show(&index);
        }
        Err(WordFault::Memory) => case.put("memory"),
    }
}
