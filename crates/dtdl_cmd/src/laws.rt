//! What the definitions of answers say, whatever is run.

ghost use Rattle.std.specs.Prelude.{◌≡◌, ◌↔◌, ℕ, ◌≤◌, List, [], ◌∷◌, Some, Option, String, length, map};
ghost use Rattle.std.specs.List.{AllByRecursion};
ghost use Rattle.std.specs.declared.alloc.Global.{Global};
ghost use Rattle.dt_base.specs.Existence.{IsThere};
ghost use Rattle.dtdl_terms.specs.Distinct.{AreDistinct};
ghost use Rattle.dtdl_terms.specs.Equality.{DeclareTheSame, SameElements};
ghost use Rattle.dtdl_terms.specs.declared.uploaded.Uploaded.{Uploaded};
ghost use Rattle.local_rules.specs.Soundness.{IsSoundInterface};
ghost use Rattle.canon_text.specs.Canonical.{set_text};
ghost use Rattle.dtdl_cmd.specs.Words.{IsCommand};
ghost use Rattle.dtdl_cmd.specs.Documents.{AreFound, MAX_BYTES, ShelfChange, StreamChange, documents_of};
ghost use Rattle.documents.specs.FirstFaults.{Declare};
ghost use Rattle.dtdl_cmd.specs.Answers.{AnswersWords, uploaded_interfaces};
ghost use Rattle.dtdl_cmd.specs.declared.command.Command.TheVariants as commands;
ghost use Rattle.dtdl_cmd.specs.Runs.{RunEnds, EndsMake, IsDecidedStatus};
ghost use Rattle.dtdl_cmd.specs.Words.{AreMake, AreReplay};
ghost use Rattle.dtdl_cmd.specs.declared.status.Status.{Status};
ghost use Rattle.dtdl_cmd.specs.declared.status.Status.TheVariants as status;

use canon_laws::one_set_text;
use json_decimal::one_number;

/// The words and what is found of the documents have at most one answer: the status and the line or text are a function
/// of them.
pub fn one_answer()
    ensures { (words : List (String Global)) (found : List (Option (List ℕ))) (line text : List ℕ) (s t : Status)
        → AnswersWords words found s line → AnswersWords words found t text → (s ≡ t) × (line ≡ text) }
{
    one_number();
}

/// Of a source and a shelf that told what they hold these documents were found and no others, so that the answer is a
/// function of the words and of what the two told.
pub fn one_input()
    ensures { (input : StreamChange) (shelf : ShelfChange) (names : List (List ℕ)) (all : List ℕ) (files : List (List ℕ × List ℕ)) (found : List (Option (List ℕ)))
        → input.before ≡ Some all → shelf.before ≡ Some files → AreFound input shelf names found → found ≡ documents_of all files names }
{}

/// Of two replays of the same bytes, which end as these bytes decide, the statuses are the same, and so are the bytes that
/// two outputs, with the same before, have in the end.
pub fn one_replay()
    ensures { (words : List (String Global)) (input other : StreamChange) (shelf files : ShelfChange) (output sink : StreamChange) (all before : List ℕ) (s t : Status)
        → AreReplay words → input.before ≡ Some all → other.before ≡ Some all → output.before ≡ Some before → sink.before ≡ Some before
        → RunEnds words input shelf output s → RunEnds words other files sink t → IsDecidedStatus s → IsDecidedStatus t
        → (s ≡ t) × (output.after ≡ sink.after) }
{
    graph_server::one_replay();
}

/// Words that make a graph of so many rooms end in one of three ways and in no other: its counts were written whole; the
/// sink's count of faults rose after a proper prefix of them; or no memory was found and nothing was written.
pub fn make_ends()
    ensures { (words : List (String Global)) (input : StreamChange) (shelf : ShelfChange) (output : StreamChange) (n : ℕ) (s : Status)
        → AreMake words n → RunEnds words input shelf output s → EndsMake n output s }
{}

/// Of two graphs that are made for the same words, and written whole, two outputs with the same before have the same bytes in
/// the end, whatever the input and the shelf have.
pub fn one_make()
    ensures { (words : List (String Global)) (input other : StreamChange) (shelf files : ShelfChange) (output sink : StreamChange) (n : ℕ) (before : List ℕ)
        → AreMake words n → output.before ≡ Some before → sink.before ≡ Some before
        → RunEnds words input shelf output status.Ok → RunEnds words other files sink status.Ok → output.after ≡ sink.after }
{
    crate::making::one_text();
}

/// The interfaces that documents without faults declare are sound: each has a declaration, is within the limits, and has
/// types that its canonical tree tells. No two of them have one identifier.
pub fn declared_set()
    ensures sound { (documents : List (List ℕ)) (uploads : List Uploaded) → Declare documents uploads
        → AllByRecursion IsSoundInterface (uploaded_interfaces uploads) }
    ensures apart { (documents : List (List ℕ)) (uploads : List Uploaded) → Declare documents uploads
        → AreDistinct (map (λ i. i.id) (uploaded_interfaces uploads)) }
{}

/// Two lists of interfaces that documents without faults declare have one canonical text exactly where they declare the
/// same.
pub fn equal_texts()
    ensures { (documents others : List (List ℕ)) (uploads more : List Uploaded)
        → Declare documents uploads → Declare others more
        → (set_text (uploaded_interfaces uploads) ≡ set_text (uploaded_interfaces more))
        ↔ SameElements DeclareTheSame (uploaded_interfaces uploads) (uploaded_interfaces more) }
{
    declared_set();
    one_set_text();
}

/// Canonical bytes print themselves: where documents without faults declare interfaces whose canonical text is within its
/// limit, the words of `canon` that find this text as their one document are answered by status 0 and the same bytes: this
/// answer is there (`IsThere`), and no other.
pub fn prints_itself()
    ensures there { (documents : List (List ℕ)) (uploads : List Uploaded) → Declare documents uploads
        → length (set_text (uploaded_interfaces uploads)) ≤ MAX_BYTES
        → (words : List (String Global)) (names : List (List ℕ)) → IsCommand words commands.Canon names
        → IsThere (AnswersWords words (Some (set_text (uploaded_interfaces uploads)) ∷ [])
        status.Ok (set_text (uploaded_interfaces uploads))) }
    ensures only { (documents : List (List ℕ)) (uploads : List Uploaded) → Declare documents uploads
        → length (set_text (uploaded_interfaces uploads)) ≤ MAX_BYTES
        → (words : List (String Global)) (names : List (List ℕ)) → IsCommand words commands.Canon names
        → (s : Status) (line : List ℕ)
        → AnswersWords words (Some (set_text (uploaded_interfaces uploads)) ∷ []) s line
        → (s ≡ status.Ok) × (line ≡ set_text (uploaded_interfaces uploads)) }
{
    one_number();
}
