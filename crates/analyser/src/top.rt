ghost use Rattle.std.specs.Prelude.{◌≡◌, ◌≢◌, ◌<◌, ◌≤◌, ◌^◌, ℕ, List, Some, Ok, Err, length, true, false, IfOk};
ghost use Rattle.class_pool.specs.declared.target.Target as asked_for;
ghost use Rattle.class_reader.specs.declared.class.ClassRecord as found;
ghost use Rattle.op_table.specs.declared.construct.Construct as against;
ghost use Rattle.class_hierarchy.specs.declared.fault.WorldFault as against_world;
ghost use Rattle.class_hierarchy.specs.declared.fault.WorldFault.TheVariants.{Memory};
ghost use Rattle.class_hierarchy.specs.World.{world_of};
ghost use Rattle.class_hierarchy.specs.Building.{IsWellBuilt, IsFault};
ghost use Rattle.world.specs.declared.member.MemberId as members;
ghost use Rattle.code_flow.specs.Plans as flowing;
ghost use Rattle.code_flow.specs.Flow.{method_named, flow_of};
ghost use Rattle.call_costs.specs.Costs.{cost_of};
ghost use Rattle.cost_words.specs.declared.fault.WordFault.TheVariants.{Wrong};
ghost use Rattle.cost_words.specs.declared.fault.WordKind as kinds;
ghost use Rattle.cost_words.specs.Reading.{words_of};
ghost use Rattle.cost_words.specs.Grammar.{command_of};
ghost use Rattle.ports.specs.Sink.{Appends, IsCalledOnce, IsCalledAtMostOnce};
ghost use Rattle.analyser.specs.declared.fetching.File as fetched;
ghost use Rattle.analyser.specs.declared.status.FaultKind as against_class;
ghost use Rattle.analyser.specs.declared.status.LimitKind as limits;
ghost use Rattle.analyser.specs.declared.words.Request as requests;
ghost use Rattle.analyser.specs.Words.{request_of, paths_of};
ghost use Rattle.analyser.specs.Files.{Tells, IsFirstLong, IsTooBig, total, most_files, most_bytes};
ghost use Rattle.analyser.specs.Classes.{AreClasses, IsBadClass};
ghost use Rattle.analyser.specs.Answer.{answer_on, instruction_cost, is_too_great};
ghost use Rattle.analyser.specs.Report.{report_of};
ghost use Rattle.analyser.specs.Headline.{HasBound};
ghost use Rattle.analyser.specs.Causes.{IsUsage, IsLimit, IsFetchFault, IsTooLong, IsNotYet, HasBadClass, HasBadWorld, HasNoMethod, IsUnsupported};
ghost use Rattle.analyser.specs.Answers.{IsAnswer, OnClasses, OnFiles, WasPut, Outcome, IsOutFault, IsReported, IsNoFetchFault, AsksForNone, IsOfWords, UnlessNotPut, UnlessOutside, AsksFor};

use crate::answer::answer_on;
use crate::classes::{Unread, classes_of};
use crate::fetching::{File, MOST_BYTES, Stop, fetch_all};
use crate::report::report;
use crate::words::{Request, request_of};
use crate::{LimitKind, Status};
use class_hierarchy::WorldFault;
use class_pool::Target;
use class_reader::Class;
use ports::{Put, Shelf, Sink};
use std::alloc::{AllocError, Global};
use world::World;

/// How many files are named at most.
const MOST_FILES: usize = 1_024;

fn is_memory(fault: &WorldFault) -> bool
    ensures yes { result ≡ true → fault.now ≡ Memory }
    ensures no { result ≡ false → fault.now ≢ Memory }
{
    matches!(fault, WorldFault::Memory)
}

fn on_classes(alloc: Global, target: Target, classes: Vec<Class>) -> Result<Status, AllocError>
    requires { length classes.items < 2 ^ 31 }
    ensures { IfOk result (OnClasses target classes.items) }
{
    match World::build(alloc, classes) {
        Ok(world) => answer_on(alloc, target, &world),
        Err(fault) => {
            if is_memory(&fault) {
                Err(AllocError)
            } else {
                Ok(Status::BadWorld(fault))
            }
        }
    }
}

fn on_files(alloc: Global, target: Target, files: &[File]) -> Result<Status, AllocError>
    requires few { length files.now ≤ most_files }
    requires fits { total files.now ≤ most_bytes }
    ensures { IfOk result (OnFiles target files.now) }
{
    match classes_of(alloc, files) {
        Ok(classes) => on_classes(alloc, target, classes),
        Err(Unread::Bad { word, offset, kind }) => Ok(Status::BadClass { word, offset, kind }),
        Err(Unread::Memory) => Err(AllocError),
    }
}

fn on_request<F: Shelf>(
    alloc: Global,
    request: Request,
    shelf: &mut F,
) -> Result<Status, AllocError>
    ensures answer { IfOk result (IsAnswer (Ok request) (F.meaning shelf.old) (F.meaning shelf.new)) }
    ensures unasked { most_files < length request.files → shelf.new ≡ shelf.old }
    ensures kept { (F.meaning shelf.new).files ≡ (F.meaning shelf.old).files }
{
    if request.files.len() > MOST_FILES {
        return Ok(Status::Limit {
            kind: LimitKind::Files,
            number: MOST_FILES as u128,
        });
    }
    match fetch_all(alloc, shelf, request.files.as_slice()) {
        Ok(files) => on_files(alloc, request.target, files.as_slice()),
        Err(Stop::Failed { word }) => Ok(Status::FetchFault { word }),
        Err(Stop::TooLong { word }) => Ok(Status::TooLong { word }),
        Err(Stop::TooBig) => Ok(Status::Limit {
            kind: LimitKind::Bytes,
            number: MOST_BYTES as u128,
        }),
        Err(Stop::Memory) => Err(AllocError),
    }
}

fn answer_to<F: Shelf>(alloc: Global, words: &[String], shelf: &mut F) -> Result<Status, AllocError>
    ensures answer { IfOk result (IsAnswer (request_of (words_of words.now)) (F.meaning shelf.old) (F.meaning shelf.new)) }
    ensures unasked { AsksForNone (request_of (words_of words.now)) → shelf.new ≡ shelf.old }
    ensures kept { (F.meaning shelf.new).files ≡ (F.meaning shelf.old).files }
{
    match request_of(alloc, words)? {
        Ok(request) => on_request(alloc, request, shelf),
        Err(status) => Ok(status),
    }
}

fn put<S: Sink>(alloc: Global, status: Status, out: &mut S) -> Status
    ensures { WasPut status result (S.meaning out.old) (S.meaning out.new) }
{
    let Ok(text) = report(alloc, &status) else {
        return Status::Memory;
    };
    match out.put(text.bytes()) {
        Ok(()) => status,
        Err(Put::Failed) => Status::OutFault,
        Err(Put::Memory) => Status::Memory,
    }
}

// Answers the words, and puts the report of the answer in one call of the sink.
fn answer_and_put<F: Shelf, S: Sink>(
    alloc: Global,
    words: &[String],
    shelf: &mut F,
    out: &mut S,
) -> Status
    ensures outcome { Outcome (request_of (words_of words.now)) (F.meaning shelf.old) (F.meaning shelf.new) result (S.meaning out.old) (S.meaning out.new) }
    ensures unasked { AsksForNone (request_of (words_of words.now)) → shelf.new ≡ shelf.old }
    ensures kept { (F.meaning shelf.new).files ≡ (F.meaning shelf.old).files }
{
    match answer_to(alloc, words, shelf) {
        Ok(status) => put(alloc, status, out),
        Err(AllocError) => Status::Memory,
    }
}

/// Does all that the program does: reads the words, fetches the files from the shelf, bounds the cost of
/// the target in them, and puts the report of the answer in one call of the sink.
///
/// The answers come in this order: `Usage` of the first wrong word; `NotYet` of the first word that asks
/// for what isn't built; `Limit` of files where more than 1,024 are named; for each file in turn
/// `FetchFault`, `TooLong`, and `Limit` of bytes where those so far have more than 268,435,456; `BadClass`
/// of the first file that is no class, with its first fault; `BadWorld` where the classes are no world, with its
/// first fault; `NoMethod` where the class of the name declares no such method with code; `Unsupported` of the first
/// construct in the code that the target reaches, or `Limit` of methods, whichever is met first; `Limit` of the
/// coefficient where the target or a method that it reaches costs more than 2^127 - 1; and else `Bound`. `OutFault`
/// stands for any whose report was not put, and `Memory` may come in place of each.
pub fn costa<F: Shelf, S: Sink>(
    alloc: Global,
    words: &[String],
    shelf: &mut F,
    out: &mut S,
) -> Status
    // Where a bound is answered, the files are classes, which form a world, its class that has the name declares
    // the target, with code, and in each run of the machine that enters the target in a well-formed state, at each
    // unwrapped moment, inside the methods that it calls too, at most so much is spent.
    ensures bound { (bound : ℕ) → result ≡ Status.Bound bound → HasBound (request_of (words_of words.now)) (F.meaning shelf.old) bound }

    // Each other answer has its cause.
    ensures usage { (index : ℕ) → result ≡ Status.Usage index → IsUsage (command_of (words_of words.now)) index }
    ensures limit { (kind : limits.LimitKind) (number : ℕ) → result ≡ Status.Limit kind number → IsLimit (request_of (words_of words.now)) (F.meaning shelf.old) kind number }
    ensures fetch_fault { (word : ℕ) → result ≡ Status.FetchFault word → IsFetchFault (request_of (words_of words.now)) (F.meaning shelf.old) (F.meaning shelf.new) word }
    ensures too_long { (word : ℕ) → result ≡ Status.TooLong word → IsTooLong (request_of (words_of words.now)) (F.meaning shelf.old) (F.meaning shelf.new) word }
    ensures not_yet { (word : ℕ) → result ≡ Status.NotYet word → IsNotYet (request_of (words_of words.now)) word }
    ensures bad_class { (word offset : ℕ) (kind : against_class.FaultKind) → result ≡ Status.BadClass word offset kind
        → HasBadClass (request_of (words_of words.now)) (F.meaning shelf.old) word offset kind }
    ensures bad_world { (fault : against_world.WorldFault) → result ≡ Status.BadWorld fault → HasBadWorld (request_of (words_of words.now)) (F.meaning shelf.old) fault }
    ensures no_method { (target : asked_for.Target) → result ≡ Status.NoMethod target → HasNoMethod (request_of (words_of words.now)) (F.meaning shelf.old) target }
    ensures unsupported { (target : asked_for.Target) (pc : ℕ) (construct : against.Construct) → result ≡ Status.Unsupported target pc construct
        → IsUnsupported (request_of (words_of words.now)) (F.meaning shelf.old) target pc construct }
    ensures out_fault { result ≡ Status.OutFault → IsOutFault (request_of (words_of words.now)) (F.meaning shelf.old) (F.meaning shelf.new) (S.meaning out.old) (S.meaning out.new) }
    ensures memory { result ≡ Status.Memory → (S.meaning out.new).content ≡ (S.meaning out.old).content }

    // And each cause has its answer, unless the outside fails or memory runs out: the first wrong word, the
    // first that asks for what isn't built, too many files, and, where the shelf tells what it holds, the first file
    // that is too long, too many bytes, the first file that is no class, the first fault of classes that are no world,
    // and the answer on the world.
    ensures misused { (kind : kinds.WordKind) (index : ℕ) → command_of (words_of words.now) ≡ Err (Wrong kind index) → UnlessNotPut (Status.Usage index) result }
    ensures later { (word : ℕ) → request_of (words_of words.now) ≡ Err (Status.NotYet word) → UnlessNotPut (Status.NotYet word) result }
    ensures many { (request : requests.Request) → request_of (words_of words.now) ≡ Ok request → most_files < length request.files
        → UnlessNotPut (Status.Limit LimitKind.Files most_files) result }
    ensures too_big { (request : requests.Request) → request_of (words_of words.now) ≡ Ok request → length request.files ≤ most_files
        → Tells (F.meaning shelf.old) → IsTooBig (F.meaning shelf.old) (paths_of request) → UnlessOutside (Status.Limit LimitKind.Bytes most_bytes) result }
    ensures overlong { (request : requests.Request) (word : ℕ) → request_of (words_of words.now) ≡ Ok request → length request.files ≤ most_files
        → Tells (F.meaning shelf.old) → IsFirstLong (F.meaning shelf.old) (paths_of request) word → UnlessOutside (Status.TooLong word) result }
    ensures unread { (target : asked_for.Target) (files : List fetched.File) (word offset : ℕ) (kind : against_class.FaultKind)
        → AsksFor (request_of (words_of words.now)) (F.meaning shelf.old) target files → IsBadClass files word offset kind → UnlessOutside (Status.BadClass word offset kind) result }
    ensures no_world { (target : asked_for.Target) (files : List fetched.File) (classes : List found.ClassRecord) (fault : against_world.WorldFault)
        → AsksFor (request_of (words_of words.now)) (F.meaning shelf.old) target files → AreClasses files classes → IsFault (world_of classes) fault
        → UnlessOutside (Status.BadWorld fault) result }
    ensures answered { (target : asked_for.Target) (files : List fetched.File) (classes : List found.ClassRecord)
        → AsksFor (request_of (words_of words.now)) (F.meaning shelf.old) target files → AreClasses files classes → IsWellBuilt (world_of classes)
        → UnlessOutside (answer_on target (world_of classes)) result }

    // So where the code that the target reaches is analysed and keeps the limits, the answer is its cost.
    ensures bounded { (target : asked_for.Target) (files : List fetched.File) (classes : List found.ClassRecord) (m : members.MemberId) (program : List flowing.Plan)
        → AsksFor (request_of (words_of words.now)) (F.meaning shelf.old) target files → AreClasses files classes → IsWellBuilt (world_of classes)
        → method_named (world_of classes) target ≡ Some m → flow_of (world_of classes) target ≡ Ok program
        → is_too_great program ≡ false → UnlessOutside (Status.Bound (cost_of instruction_cost program m)) result }

    // The report of an answer was put, whole and in one call of the sink, which isn't called besides. It fails only
    // where the answer says so.
    ensures reported { IsReported result → Appends (S.meaning out.old).content (report_of result) (S.meaning out.new).content }
    ensures once { (result ≡ Status.Memory → ⊥) → IsCalledOnce (S.meaning out.old) (S.meaning out.new) }
    ensures at_most_once { IsCalledAtMostOnce (S.meaning out.old) (S.meaning out.new) }
    ensures only_out_fault { (result ≡ Status.OutFault → ⊥) → (S.meaning out.new).faults ≡ (S.meaning out.old).faults }

    // What the shelf holds stays. Where the words ask for no file, it isn't touched; else its counts and their
    // paths stay where no fault of it is told.
    ensures kept { (F.meaning shelf.new).files ≡ (F.meaning shelf.old).files }
    ensures unasked { AsksForNone (request_of (words_of words.now)) → shelf.new ≡ shelf.old }
    ensures of_words { IsOfWords result → shelf.new ≡ shelf.old }
    ensures no_fetch_fault { IsNoFetchFault result → F.meaning shelf.new ≡ F.meaning shelf.old }
{
    answer_and_put(alloc, words, shelf, out)
}
