//! What runs come to where no count of faults rose: to the answer that there is, or to want of memory. Each function does
//! nothing but name laws, and its contract is the law.

ghost use Rattle.std.specs.Prelude.{◌≡◌, ◌⊎◌, ℕ, ◌≤◌, ◌<◌, List, Some, Option, String, length};
ghost use Rattle.std.specs.Io.KnownBytes.{Appends};
ghost use Rattle.std.specs.declared.alloc.Global.{Global};
ghost use Rattle.dt_base.specs.Faults.{Rose};
ghost use Rattle.dt_base.specs.Existence.{IsThere};
ghost use Rattle.dtdl_terms.specs.declared.uploaded.Uploaded.{Uploaded};
ghost use Rattle.canon_text.specs.Canonical.{set_text};
ghost use Rattle.documents.specs.FirstFaults.{Declare, HasFirstFault};
ghost use Rattle.http_session.specs.Uniqueness.{IsDecided};
ghost use Rattle.http_session.specs.declared.ends.SessionEnd.{SessionEnd};
ghost use Rattle.graph_server.specs.Replays.{IsReplay};
ghost use Rattle.dtdl_cmd.specs.making.Made.{IsMade};
ghost use Rattle.dtdl_cmd.specs.Words.{AreMake, AreNone, AreReplay};
ghost use Rattle.dtdl_cmd.specs.Documents.{AreAllFound, AreTooLong, IsMissing, MAX_BYTES, ShelfChange, StreamChange};
ghost use Rattle.dtdl_cmd.specs.Lines.{accepted_line, missing_line, too_long_line, too_long_text_line, usage_line};
ghost use Rattle.dtdl_cmd.specs.Answers.{AnswersFound, AnswersWords, uploaded_interfaces};
ghost use Rattle.dtdl_cmd.specs.Runs.{RunEnds, exit_status};
ghost use Rattle.dtdl_cmd.specs.FaultlessRuns.{EndsWith, MeetsNoFault, TakesAll};
ghost use Rattle.dtdl_cmd.specs.ClientRuns.{AskRunEnds, DialChange};
ghost use Rattle.dtdl_cmd.specs.FaultlessAsks.{AskMeetsNoFault, EndsWithReply};
ghost use Rattle.http_ends.specs.declared.response.Response.{Response};
ghost use Rattle.dtdl_cmd.specs.declared.command.Command.{Command};
ghost use Rattle.dtdl_cmd.specs.declared.command.Command.TheVariants as commands;
ghost use Rattle.dtdl_cmd.specs.declared.status.Status.{Status};
ghost use Rattle.dtdl_cmd.specs.declared.status.Status.TheVariants as status;

use crate::laws::one_answer;
use documents::declaration_or_fault;
use http_ends::one_reply;

/// There is an answer to words and to what is found of documents, unless the words are those of a replay or of a graph that is
/// made. That there is no other is `one_answer`.
pub fn some_answer()
    ensures { (words : List (String Global)) (found : List (Option (List ℕ)))
        → (AreReplay words → ⊥) → ((n : ℕ) → AreMake words n → ⊥)
        → IsThere ((s : Status) × (line : List ℕ) × AnswersWords words found s line) }
{
    declaration_or_fault();
}

/// A run of `check` or `canon` that meets no fault ends with the answer that there is to the documents that are told, or for want of
/// memory, when nothing is written.
pub fn documents_answered()
    ensures { (words : List (String Global)) (command : Command) (input : StreamChange) (shelf : ShelfChange)
        (output : StreamChange) (found : List (Option (List ℕ))) → MeetsNoFault words command input shelf output found
        → (answer s : Status) (line : List ℕ) → AnswersFound command found answer line
        → RunEnds words input shelf output s → EndsWith output answer line s }
{
    one_answer();
}

/// So `check` of documents that are all there, are within the limit and declare interfaces together ends with status `Ok` and how
/// many interfaces there are, or for want of memory.
pub fn check_accepts()
    ensures { (words : List (String Global)) (input : StreamChange) (shelf : ShelfChange) (output : StreamChange)
        (found : List (Option (List ℕ))) → MeetsNoFault words commands.Check input shelf output found
        → (documents : List (List ℕ)) (uploads : List Uploaded)
        → AreAllFound found documents → Declare documents uploads
        → (s : Status) → RunEnds words input shelf output s
        → EndsWith output status.Ok (accepted_line (length (uploaded_interfaces uploads))) s }
{
    documents_answered();
}

/// `canon` of such documents, whose interfaces have a canonical text within its limit, ends with status `Ok` and that text, or
/// for want of memory.
pub fn canon_prints()
    ensures { (words : List (String Global)) (input : StreamChange) (shelf : ShelfChange) (output : StreamChange)
        (found : List (Option (List ℕ))) → MeetsNoFault words commands.Canon input shelf output found
        → (documents : List (List ℕ)) (uploads : List Uploaded)
        → AreAllFound found documents → Declare documents uploads
        → length (set_text (uploaded_interfaces uploads)) ≤ MAX_BYTES
        → (s : Status) → RunEnds words input shelf output s
        → EndsWith output status.Ok (set_text (uploaded_interfaces uploads)) s }
{
    documents_answered();
}

/// `canon` of such documents, whose interfaces have a longer canonical text, ends with status `TooLong` and the line that says
/// so, or for want of memory.
pub fn long_text_refused()
    ensures { (words : List (String Global)) (input : StreamChange) (shelf : ShelfChange) (output : StreamChange)
        (found : List (Option (List ℕ))) → MeetsNoFault words commands.Canon input shelf output found
        → (documents : List (List ℕ)) (uploads : List Uploaded)
        → AreAllFound found documents → Declare documents uploads
        → MAX_BYTES < length (set_text (uploaded_interfaces uploads))
        → (s : Status) → RunEnds words input shelf output s
        → EndsWith output status.TooLong too_long_text_line s }
{
    documents_answered();
}

/// A command over documents that are all there, are within the limit and have a first fault ends with status `Refused` and the
/// line of that fault, or for want of memory.
pub fn faults_refused()
    ensures { (words : List (String Global)) (command : Command) (input : StreamChange) (shelf : ShelfChange)
        (output : StreamChange) (found : List (Option (List ℕ))) → MeetsNoFault words command input shelf output found
        → (documents : List (List ℕ)) (line : List ℕ)
        → AreAllFound found documents → HasFirstFault documents line
        → (s : Status) → RunEnds words input shelf output s
        → EndsWith output status.Refused line s }
{
    documents_answered();
}

/// A command over documents of which one is missing, behind none that passes the limit, ends with status `Missing` and the line
/// with its number, or for want of memory.
pub fn missing_refused()
    ensures { (words : List (String Global)) (command : Command) (input : StreamChange) (shelf : ShelfChange)
        (output : StreamChange) (found : List (Option (List ℕ))) → MeetsNoFault words command input shelf output found
        → (number : ℕ) → IsMissing found number
        → (s : Status) → RunEnds words input shelf output s
        → EndsWith output status.Missing (missing_line number) s }
{
    documents_answered();
}

/// A command over documents with one of which the limit is passed, behind none that is missing, ends with status `TooLong` and
/// the line with its number, or for want of memory.
pub fn long_refused()
    ensures { (words : List (String Global)) (command : Command) (input : StreamChange) (shelf : ShelfChange)
        (output : StreamChange) (found : List (Option (List ℕ))) → MeetsNoFault words command input shelf output found
        → (number : ℕ) → AreTooLong found number
        → (s : Status) → RunEnds words input shelf output s
        → EndsWith output status.TooLong (too_long_line number) s }
{
    documents_answered();
}

/// Words that are no command end with status `Usage` and the usage line, whatever memory there is, as far as no write failed.
pub fn usage_told()
    ensures { (words : List (String Global)) (input : StreamChange) (shelf : ShelfChange) (output : StreamChange)
        (s : Status) → AreNone words → TakesAll output → RunEnds words input shelf output s
        → (s ≡ status.Usage) × Appends output.before output.after usage_line }
{}

/// A replay of a stream that is told, of which there is a replay that the stream alone ends, closed, refused or full, ends so with
/// the same bytes written, or for want of memory; as far as no read and no write failed.
pub fn replay_answered()
    ensures { (words : List (String Global)) (input : StreamChange) (shelf : ShelfChange) (output : StreamChange)
        (stream out : List ℕ) (left : Option (List ℕ)) (end : SessionEnd) (s : Status)
        → AreReplay words → input.before ≡ Some stream
        → IsReplay (Unit {0}) end (Some stream) left out → IsDecided end
        → (Rose input.faults_before input.faults_after → ⊥) → TakesAll output
        → RunEnds words input shelf output s
        → ((s ≡ exit_status end) × Appends output.before output.after out)
        ⊎ (s ≡ status.OutOfMemory) }
{
    graph_server::one_replay();
}

/// A graph that is made of so many rooms, which has these counts, ends with status `Ok` and the counts, or for want of memory, when
/// nothing is written; as far as no write failed.
pub fn make_counts()
    ensures { (words : List (String Global)) (input : StreamChange) (shelf : ShelfChange) (output : StreamChange)
        (n : ℕ) (text : List ℕ) (s : Status) → AreMake words n → IsMade n text → TakesAll output
        → RunEnds words input shelf output s → EndsWith output status.Ok text s }
{
    crate::making::one_text();
}

/// An ask whose words, input and link are told, and in which no call failed, ends with the status of the reply with which the
/// bytes of the link begin, and its body written whole, or for want of memory, when nothing is written.
pub fn ask_answered()
    ensures { (words : List (String Global)) (input : StreamChange) (dial : DialChange) (output : StreamChange)
        (response : Response) → AskMeetsNoFault words input dial output response
        → (s : Status) → AskRunEnds words input dial output s → EndsWithReply response output s }
{
    one_reply();
}
