//! A table is a text: lines that each case is given, a line `cases`, and a line for each case, `INPUT => WANTED`. Without
//! a line `cases` nothing is given. Empty lines, and lines that begin with `#`, are passed over.

use crate::subjects;
use case_texts::Case;

/// The input and the wanted answer of a line, where it is a case.
fn case_of(line: &str) -> Option<(&str, &str)> {
    if line.starts_with('#') {
        return None;
    }
    let (input, wanted) = line.split_once("=>")?;
    Some((input.trim(), wanted.trim()))
}

/// The subject of the table of this name: the last part of a path.
fn subject_of(name: &str) -> &str {
    match name.rsplit_once('/') {
        Some((_, subject)) => subject,
        None => name,
    }
}

/// Reports that a case differs.
fn put_difference(report: &mut Case<'_>, input: &str, found: &str, wanted: &str) {
    report.put(input);
    report.put(" => ");
    report.put(found);
    report.put(", and not ");
    report.put(wanted);
    report.put("\n");
}

/// Whether a case is answered as it is wanted. Where it isn't, this is reported.
fn is_answered(
    report: &mut Case<'_>,
    subject: &str,
    given: &str,
    input: &str,
    wanted: &str,
) -> bool {
    let mut case = Case::new(report.alloc(), given, input);
    subjects::answer(subject, &mut case);
    let Some(found) = report.made(case.end()) else {
        return false;
    };
    let is_wanted = found.as_str().trim() == wanted;
    if !is_wanted {
        put_difference(report, input, found.as_str(), wanted);
    }
    is_wanted
}

/// Reports what the table of this name comes to: a line for each case that differs, and how many there are.
pub fn run(report: &mut Case<'_>, name: &str, text: &str) {
    let subject = subject_of(name);
    let (given, cases) = text.split_once("\ncases\n").unwrap_or(("", text));
    let (mut count, mut differing) = (0u64, 0u64);
    for line in cases.lines() {
        if let Some((input, wanted)) = case_of(line) {
            count = count.wrapping_add(1);
            if !is_answered(report, subject, given, input, wanted) {
                differing = differing.wrapping_add(1);
            }
        }
    }
    report.put(subject);
    report.put(": ");
    report.show(&count);
    report.put(" cases, ");
    report.show(&differing);
    report.put(" differ\n");
}
