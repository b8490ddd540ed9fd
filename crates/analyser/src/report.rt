ghost use Rattle.std.specs.Prelude.{◌≡◌, [], ◌∷◌, ◌++◌, decimal, IfOk};
ghost use Rattle.text_out.specs.Names.{target_text};
ghost use Rattle.analyser.specs.Report.{limit_word, kind_word, name_line, names_line, fault_text, report_of, code_of};

use crate::{FaultKind, LimitKind, Status};
use class_hierarchy::WorldFault;
use class_pool::{Target, Text};
use op_table::Construct;
use std::alloc::{AllocError, Global};
use text_out::Line;

// A line of a label and a number.
fn number_line(alloc: Global, label: &str, number: u128) -> Result<Line, AllocError>
    ensures { IfOk result (λ line. line ≡ label.now ++ (decimal number ++ 10 ∷ [])) }
{
    let mut line = Line::new(alloc);
    line.push(label)?;
    line.natural(number)?;
    line.push("\n")?;
    Ok(line)
}

// A line of a label and a target.
fn target_line(alloc: Global, label: &str, target: &Target) -> Result<Line, AllocError>
    ensures { IfOk result (λ line. line ≡ label.now ++ (target_text target.now ++ 10 ∷ [])) }
{
    let mut line = Line::new(alloc);
    line.push(label)?;
    line.target(target)?;
    line.push("\n")?;
    Ok(line)
}

fn unsupported_line(
    alloc: Global,
    method: &Target,
    pc: u32,
    construct: Construct,
) -> Result<Line, AllocError>
    ensures { IfOk result (λ line. line ≡ report_of (Status.Unsupported method.now pc construct)) }
{
    let mut line = Line::new(alloc);
    line.push("unsupported ")?;
    line.target(method)?;
    line.push(" ")?;
    line.natural(u128::from(pc))?;
    line.push(" ")?;
    line.push(construct.word())?;
    line.push("\n")?;
    Ok(line)
}

fn limit_word(kind: LimitKind) -> &'static str
    ensures { result.now ≡ limit_word kind }
{
    match kind {
        LimitKind::Files => "files",
        LimitKind::Bytes => "bytes",
        LimitKind::Methods => "methods",
        LimitKind::Coefficient => "coefficient",
    }
}

fn limit_line(alloc: Global, kind: LimitKind, number: u128) -> Result<Line, AllocError>
    ensures { IfOk result (λ line. line ≡ report_of (Status.Limit kind number)) }
{
    let mut line = Line::new(alloc);
    line.push("limit ")?;
    line.push(limit_word(kind))?;
    line.push(" ")?;
    line.natural(number)?;
    line.push("\n")?;
    Ok(line)
}

fn kind_word(kind: FaultKind) -> &'static str
    ensures { result.now ≡ kind_word kind }
{
    match kind {
        FaultKind::Magic => "magic",
        FaultKind::Version => "version",
        FaultKind::Short => "short",
        FaultKind::Tag => "tag",
        FaultKind::Index => "index",
        FaultKind::Utf8 => "utf8",
        FaultKind::Descriptor => "descriptor",
        FaultKind::Code => "code",
        FaultKind::Repeated => "repeated",
        FaultKind::Reserved => "reserved",
        FaultKind::Trailing => "trailing",
    }
}

fn bad_class_line(
    alloc: Global,
    word: u64,
    offset: u32,
    kind: FaultKind,
) -> Result<Line, AllocError>
    ensures { IfOk result (λ line. line ≡ report_of (Status.BadClass word offset kind)) }
{
    let mut line = Line::new(alloc);
    line.push("bad class ")?;
    line.natural(u128::from(word))?;
    line.push(" ")?;
    line.natural(u128::from(offset))?;
    line.push(" ")?;
    line.push(kind_word(kind))?;
    line.push("\n")?;
    Ok(line)
}

// A line of a label and a name.
fn name_line(alloc: Global, label: &str, name: &Text) -> Result<Line, AllocError>
    ensures { IfOk result (λ line. line ≡ name_line label.now name.now) }
{
    let mut line = Line::new(alloc);
    line.push(label)?;
    line.name(name)?;
    line.push("\n")?;
    Ok(line)
}

// A line of a label and two names.
fn names_line(alloc: Global, label: &str, class: &Text, name: &Text) -> Result<Line, AllocError>
    ensures { IfOk result (λ line. line ≡ names_line label.now class.now name.now) }
{
    let mut line = Line::new(alloc);
    line.push(label)?;
    line.name(class)?;
    line.push(" ")?;
    line.name(name)?;
    line.push("\n")?;
    Ok(line)
}

// Why classes are no world.
fn fault_line(alloc: Global, fault: &WorldFault) -> Result<Line, AllocError>
    ensures { IfOk result (λ line. line ≡ fault_text fault.now) }
{
    match fault {
        WorldFault::Twice { name } => name_line(alloc, "twice ", name),
        WorldFault::MissingSuper { class, name } => {
            names_line(alloc, "missing super ", class, name)
        }
        WorldFault::WrongSuper { class, name } => names_line(alloc, "wrong super ", class, name),
        WorldFault::SuperCycle { name } => name_line(alloc, "super cycle ", name),
        WorldFault::FinalSuper { class, name } => names_line(alloc, "final super ", class, name),
        WorldFault::Memory => Ok(Line::new(alloc)),
    }
}

/// The report of an answer: one line, ended by a line feed, or nothing.
pub fn report(alloc: Global, status: &Status) -> Result<Line, AllocError>
    ensures { IfOk result (λ line. line ≡ report_of status.now) }
{
    match status {
        Status::Bound(cost) => number_line(alloc, "bound ", *cost),
        Status::Unsupported {
            method,
            pc,
            construct,
        } => unsupported_line(alloc, method, *pc, *construct),
        Status::Limit { kind, number } => limit_line(alloc, *kind, *number),
        Status::NotYet { word } => number_line(alloc, "not yet ", u128::from(*word)),
        Status::BadClass { word, offset, kind } => bad_class_line(alloc, *word, *offset, *kind),
        Status::BadWorld(fault) => fault_line(alloc, fault),
        Status::NoMethod(target) => target_line(alloc, "no method ", target),
        Status::Usage { index } => number_line(alloc, "usage ", u128::from(*index)),
        Status::FetchFault { word } => number_line(alloc, "cannot read ", u128::from(*word)),
        Status::TooLong { word } => number_line(alloc, "too long ", u128::from(*word)),
        Status::OutFault | Status::Memory => Ok(Line::new(alloc)),
    }
}

/// With which status the program ends: 0 for a bound, 2 for what isn't analysed or passes a limit, 3 where
/// a file is no class, the classes are no world or there is no such method, 4 where a word is wrong, 5 where the outside
/// failed, 7 where memory ran out.
pub fn exit_code(status: &Status) -> u8
    ensures { result ≡ code_of status.now }
{
    match status {
        Status::Bound(_) => 0,
        Status::Unsupported { .. } | Status::Limit { .. } | Status::NotYet { .. } => 2,
        Status::BadClass { .. } | Status::BadWorld(_) | Status::NoMethod(_) => 3,
        Status::Usage { .. } => 4,
        Status::FetchFault { .. } | Status::TooLong { .. } | Status::OutFault => 5,
        Status::Memory => 7,
    }
}
