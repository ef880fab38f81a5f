//! The commands that need no thread and no socket.

ghost use Rattle.std.specs.Prelude.{◌≡◌, ◌≢◌, ℕ, ◌<◌, ◌≤◌, ◌⊎◌, List, [], ◌∷◌, length, map, string_bytes, take, Option, Err, IfOk};
ghost use Rattle.std.specs.Io.KnownBytes.{Appends};
ghost use Rattle.dt_base.specs.Faults.{Rose};
ghost use Rattle.dtdl_cmd.specs.Words.{AreReplay, IsCommand};
ghost use Rattle.dtdl_cmd.specs.Documents.{AreFound};
ghost use Rattle.dtdl_cmd.specs.Answers.{AnswersFound};
ghost use Rattle.dtdl_cmd.specs.Runs.{RunEnds, HasReadFault};
ghost use Rattle.dtdl_cmd.specs.declared.command.Command.{Command};

use crate::answers::{Answer, answer_to_documents, missing, too_long};
use crate::command::{Command, are_replay, command_of, rooms_of};
use crate::inputs::{NoDocuments, documents_of};
use crate::makes::run_make;
use crate::replays::run_replay;
use crate::status::Status;
use dt_base::{OutOfMemory, Shelf, Sink, Source, write_all};
use std::alloc::Global;
use thiserror::Error;

/// The line that is printed for words that are no command.
pub(crate) const USAGE: &[u8] =
    b"usage: dtdl check [NAME..] | canon [NAME..] | replay | make N | serve PORT WORKERS EACH | ask HOST PORT METHOD PATH\n";

/// Why there is no answer.
#[derive(Clone, Copy, Debug, PartialEq, Eq, Error)]
enum NoAnswer {
    #[error("a read failed")]
    ReadFault,
    #[error("out of memory")]
    OutOfMemory,
}

impl From<OutOfMemory> for NoAnswer {
    ghost use Rattle.dtdl_cmd.specs.declared.run.NoAnswer.{NoAnswer};

    ghost from_gives = { λ _ end. end ≡ NoAnswer.OutOfMemory };

    fn from(_error: OutOfMemory) -> NoAnswer {
        NoAnswer::OutOfMemory
    }
}

/// The answer of a command to the documents of these names, or without names to the input.
fn answer_to<S: Source, F: Shelf>(
    alloc: Global,
    command: Command,
    names: &[String],
    input: &mut S,
    shelf: &mut F,
) -> Result<Answer, NoAnswer>
    requires few { length names.now ≤ 4096 }
    ensures given { IfOk result (λ answer. (found : List (Option (List ℕ)))
        × AreFound (record { before = S.left input.old; after = S.left input.new; faults_before = S.faults input.old; faults_after = S.faults input.new })
        (record { before = F.files shelf.old; after = F.files shelf.new; faults_before = F.faults shelf.old; faults_after = F.faults shelf.new })
        (map string_bytes names.now) found
        × AnswersFound command found answer.status answer.line) }
    ensures cause { result ≡ Err NoAnswer.ReadFault
        → HasReadFault (record { before = S.left input.old; after = S.left input.new; faults_before = S.faults input.old; faults_after = S.faults input.new })
        (record { before = F.files shelf.old; after = F.files shelf.new; faults_before = F.faults shelf.old; faults_after = F.faults shelf.new })
        (map string_bytes names.now) }
    ensures input_count { S.faults input.old ≤ S.faults input.new }
    ensures input_beside { S.aside input.new ≡ S.aside input.old }
    ensures shelf_count { F.faults shelf.old ≤ F.faults shelf.new }
    ensures shelf_same { F.files shelf.new ≡ F.files shelf.old }
    ensures unread { names.now ≢ [] → input.new ≡ input.old }
    ensures unasked { names.now ≡ [] → shelf.new ≡ shelf.old }
{
    match documents_of(alloc, names, input, shelf) {
        Ok(documents) => Ok(answer_to_documents(alloc, command, documents)?),
        Err(NoDocuments::Missing { number }) => Ok(missing(alloc, number)?),
        Err(NoDocuments::TooLong { number }) => Ok(too_long(alloc, number)?),
        Err(NoDocuments::ReadFault) => Err(NoAnswer::ReadFault),
        Err(NoDocuments::OutOfMemory) => Err(NoAnswer::OutOfMemory),
    }
}

/// Writes a line and answers its status, or `WriteFault` where it was not written whole.
pub(crate) fn say<K: Sink>(output: &mut K, status: Status, line: &[u8]) -> Status
    ensures said { ((result ≡ status) × Appends (K.taken output.old) (K.taken output.new) line.now)
        ⊎ ((result ≡ Status.WriteFault) × Rose (K.faults output.old) (K.faults output.new)
        × ((written : ℕ) × (written < length line.now) × Appends (K.taken output.old) (K.taken output.new) (take written line.now))) }
    ensures count { K.faults output.old ≤ K.faults output.new }
    ensures beside { K.aside output.new ≡ K.aside output.old }
{
    match write_all(output, line) {
        Ok(()) => status,
        Err(_) => Status::WriteFault,
    }
}

/// Does `check` and `canon`: names the first fault of the documents, or prints how many interfaces are accepted, or
/// their canonical text. The documents are the files of the names that follow the command, in their order, or without
/// names the input, read whole; they have together at most 16,777,216 bytes, and so has the canonical text.
///
/// Does `replay`: answers the input as a session of HTTP over a graph that is empty at first, and writes the replies. It
/// never asks the shelf. The status is `Ok` where the stream ended between requests or a request that asks to close the
/// connection was answered, `Refused` where a closing refusal was written, and `SessionFull` after 1,000,000 replies.
///
/// Does `make`: makes a graph of so many rooms, from 1 to 20,000, and writes its counts. It reads no input and asks no shelf.
///
/// `ask` is done by `run_ask`, and `serve` is not built, so other words are `Usage`, and then nothing is read. It returns on every
/// input, and the answer is a function of the words and of the documents' or the input's bytes, however they are cut.
pub fn run_plain<S: Source, K: Sink, F: Shelf>(
    alloc: Global,
    words: &[String],
    input: &mut S,
    output: &mut K,
    shelf: &mut F,
) -> Status
    ensures ends { RunEnds words.now
        (record { before = S.left input.old; after = S.left input.new; faults_before = S.faults input.old; faults_after = S.faults input.new })
        (record { before = F.files shelf.old; after = F.files shelf.new; faults_before = F.faults shelf.old; faults_after = F.faults shelf.new })
        (record { before = K.taken output.old; after = K.taken output.new; faults_before = K.faults output.old; faults_after = K.faults output.new }) result }
    // Each count of faults never falls, and what stands beside the input and the output stays as it was, as the files do.
    ensures input_count { S.faults input.old ≤ S.faults input.new }
    ensures input_beside { S.aside input.new ≡ S.aside input.old }
    ensures output_count { K.faults output.old ≤ K.faults output.new }
    ensures output_beside { K.aside output.new ≡ K.aside output.old }
    ensures shelf_count { F.faults shelf.old ≤ F.faults shelf.new }
    ensures shelf_same { F.files shelf.new ≡ F.files shelf.old }
    // What is not used is as it was: the input where names are given, the shelf where none are.
    ensures unread { ((command : Command) → IsCommand words.now command [] → ⊥) → (AreReplay words.now → ⊥) → input.new ≡ input.old }
    ensures unasked { ((command : Command) (name : List ℕ) (names : List (List ℕ)) → IsCommand words.now command (name ∷ names) → ⊥) → shelf.new ≡ shelf.old }
{
    if are_replay(words) {
        return run_replay(alloc, input, output);
    }
    if let Some(rooms) = rooms_of(words) {
        return run_make(alloc, rooms, output);
    }
    let Some(command) = command_of(words) else {
        return say(output, Status::Usage, USAGE);
    };
    match answer_to(alloc, command, &words[1..], input, shelf) {
        Ok(answer) => say(output, answer.status, answer.line.as_slice()),
        Err(NoAnswer::ReadFault) => Status::ReadFault,
        Err(NoAnswer::OutOfMemory) => Status::OutOfMemory,
    }
}
