ghost use Rattle.std.specs.Prelude.{◌≡◌, ◌≢◌, ◌≤◌, [], ◌∷◌, map, length, All, None, IfOk};
ghost use Rattle.std.specs.String.{string_bytes};
ghost use Rattle.floyd_text.specs.Outside.{Rose, max_file};
ghost use Rattle.floyd_cli.specs.Causes.{Causes, AcceptsSound, Exactly};
ghost use Rattle.floyd_cli.specs.AnswerClauses.{JudgedFiles, GivesAnswer, IsRefusalAnswer, Writes, WritesUsage, ChecksProject};
ghost use Rattle.floyd_cli.specs.Words.{wrong_word as wrong_word_lem, project_in};

use crate::load::{LoadStop, Loaded, NameList, load};
use crate::status::Status;
use crate::texts::{accepted_lines, refusal_line, usage_line};
use crate::words::wrong_word;
use floyd_check::check_files;
use floyd_text::{Bytes, Halt, Name, Shelf, Sink, put_all};
use std::alloc::{AllocError, Global};

/// A status and its text, before it is written.
struct Answer {
    status: Status,
    text: Bytes,
}

impl Drop for Answer {
    fn drop(self) {
        let Answer { status: _, text } = self;
        drop(text);
    }
}

/// Why there is no answer to write.
#[derive(Clone, Copy)]
enum AnswerStop {
    Fault,
    Memory,
}

impl From<AllocError> for AnswerStop {
    ghost use Rattle.floyd_cli.specs.declared.top.AnswerStop.TheVariants.{Memory};

    ghost from_gives = { λ _ e. e ≡ Memory };

    fn from(_error: AllocError) -> AnswerStop {
        AnswerStop::Memory
    }
}

/// The answer to a project that was loaded.
fn judge_loaded(alloc: Global, name: &str, loaded: &Loaded) -> Result<Answer, AllocError>
    requires len { length loaded.now.files ≡ 3 }
    requires small { All (λ bytes. length bytes ≤ max_file) loaded.now.files }
    ensures { IfOk result (JudgedFiles loaded.now.files loaded.now.names) }
{
    let project = Name::from_slice(alloc, name.as_bytes())?;
    match check_files(alloc, &project, loaded.files.as_slice()) {
        Ok(accepted) => Ok(Answer {
            status: Status::Done,
            text: accepted_lines(alloc, accepted.proved())?,
        }),
        Err(halt) => refusal_answer(alloc, loaded.names.as_slice(), &halt),
    }
}

/// The answer of a refusal, where the files have these names.
fn refusal_answer(alloc: Global, names: &[Name], halt: &Halt) -> Result<Answer, AllocError>
    ensures { IfOk result (IsRefusalAnswer names.now halt.now) }
{
    match halt {
        Halt::Refused(refusal) => Ok(Answer {
            status: Status::Refused,
            text: refusal_line(alloc, names, refusal)?,
        }),
        Halt::Memory => Err(AllocError),
    }
}

/// The answer to a project that could not be loaded.
fn refuse(alloc: Global, name: &str, halt: &Halt) -> Result<Answer, AllocError>
    ensures { IfOk result (IsRefusalAnswer (name.now ∷ []) halt.now) }
{
    let mut names = NameList::new(alloc);
    names.push(Name::from_slice(alloc, name.as_bytes())?)?;
    refusal_answer(alloc, names.as_slice(), halt)
}

/// The answer to the project of that name.
fn answer_project<H: Shelf>(alloc: Global, shelf: &mut H, name: &str) -> Result<Answer, AnswerStop>
    ensures gives { GivesAnswer (H.held shelf.old) name.now (H.faults shelf.old) (H.faults shelf.new) result }
    ensures held { H.held shelf.new ≡ H.held shelf.old }
    ensures later { H.faults shelf.old ≤ H.faults shelf.new }
{
    match load(alloc, shelf, name) {
        Ok(loaded) => Ok(judge_loaded(alloc, name, &loaded)?),
        Err(stop) => match &stop {
            LoadStop::Halted(halt) => Ok(refuse(alloc, name, halt)?),
            LoadStop::Fault => Err(AnswerStop::Fault),
        },
    }
}

/// Writes the text, and gives this status where it was written whole.
fn write<K: Sink>(out: &mut K, text: &[u8], status: Status) -> Status
    requires { status ≢ Status.WriteFault }
    ensures writes { Writes text.now status (Rose (K.faults out.old) (K.faults out.new)) (K.written out.old) (K.written out.new) result }
    ensures later { K.faults out.old ≤ K.faults out.new }
{
    match put_all(out, text) {
        Ok(()) => status,
        Err(_) => Status::WriteFault,
    }
}

/// The name of the project in a command line that is right.
fn project_word(words: &[String]) -> &str
    requires { wrong_word_lem (map string_bytes words.now) ≡ None }
    ensures { result.now ≡ project_in (map string_bytes words.now) }
{
    match words {
        [_, project] => project.as_str(),
        _ => unreachable!(),
    }
}

/// Writes the line for a command line that is none.
fn write_usage<K: Sink>(alloc: Global, out: &mut K, word: u64) -> Status
    ensures writes { WritesUsage word (Rose (K.faults out.old) (K.faults out.new)) (K.written out.old) (K.written out.new) result }
    ensures later { K.faults out.old ≤ K.faults out.new }
{
    match usage_line(alloc, word) {
        Ok(text) => write(out, text.as_slice(), Status::Usage),
        Err(_) => Status::NoMemory,
    }
}

/// Checks the project of that name, and writes the verdict.
fn check<H: Shelf, K: Sink>(alloc: Global, shelf: &mut H, out: &mut K, name: &str) -> Status
    ensures answers { ChecksProject (H.held shelf.old) name.now (Rose (H.faults shelf.old) (H.faults shelf.new)) (Rose (K.faults out.old) (K.faults out.new)) (K.written out.old) (K.written out.new) result }
    ensures held { H.held shelf.new ≡ H.held shelf.old }
    ensures shelf_later { H.faults shelf.old ≤ H.faults shelf.new }
    ensures out_later { K.faults out.old ≤ K.faults out.new }
{
    match answer_project(alloc, shelf, name) {
        Ok(answer) => write(out, answer.text.as_slice(), answer.status),
        Err(AnswerStop::Fault) => Status::ReadFault,
        Err(AnswerStop::Memory) => Status::NoMemory,
    }
}

/// Answers the command line, each status with its cause.
fn answer_words<H: Shelf, K: Sink>(
    alloc: Global,
    words: &[String],
    shelf: &mut H,
    out: &mut K,
) -> Status
    ensures causes { Causes (map string_bytes words.now) (H.held shelf.old) (Rose (H.faults shelf.old) (H.faults shelf.new)) (Rose (K.faults out.old) (K.faults out.new)) (K.written out.old) (K.written out.new) result }
    ensures held { H.held shelf.new ≡ H.held shelf.old }
    ensures shelf_later { H.faults shelf.old ≤ H.faults shelf.new }
    ensures out_later { K.faults out.old ≤ K.faults out.new }
{
    match wrong_word(words) {
        Some(word) => write_usage(alloc, out, word),
        None => check(alloc, shelf, out, project_word(words)),
    }
}

/// Runs the command line. `check P` judges the project of that name: the status is Done and the text ends with
/// `accepted`, or it is Refused and the text is the first refusal's line. The whole text is built before any of it is
/// written.
///
/// Each status has its cause, by cases on it: Usage the words, ReadFault and WriteFault a count of faults that rose,
/// Done and Refused the verdict; NoMemory has none.
pub fn floyd<H: Shelf, K: Sink>(
    alloc: Global,
    words: &Vec<String>,
    shelf: &mut H,
    out: &mut K,
) -> Status
    ensures causes { Causes (map string_bytes words.now.items) (H.held shelf.old) (Rose (H.faults shelf.old) (H.faults shelf.new)) (Rose (K.faults out.old) (K.faults out.new)) (K.written out.old) (K.written out.new) result }
    ensures sound { result ≡ Status.Done → AcceptsSound (H.held shelf.old) (project_in (map string_bytes words.now.items)) }
    ensures exact { Exactly (map string_bytes words.now.items) (H.held shelf.old) (Rose (H.faults shelf.old) (H.faults shelf.new)) (Rose (K.faults out.old) (K.faults out.new)) (K.written out.old) (K.written out.new) result }

    ensures held { H.held shelf.new ≡ H.held shelf.old }
    ensures shelf_later { H.faults shelf.old ≤ H.faults shelf.new }
    ensures out_later { K.faults out.old ≤ K.faults out.new }
{
    answer_words(alloc, words.as_slice(), shelf, out)
}
