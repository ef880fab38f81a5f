//! The words of operations.

ghost use Rattle.std.specs.Prelude.{◌≡◌, MatchOption};
ghost use Rattle.twin_patch.specs.Words.{word_text};
ghost use Rattle.twin_patch.specs.declared.word.Word.{Word};

/// The word of an operation (RFC 6902, section 4).
#[derive(Clone, Copy, Debug, PartialEq, Eq)]
pub enum Word {
    Add,
    Replace,
    Remove,
}

/// The word with this text.
pub fn word_of(text: &str) -> Option<Word>
    ensures { MatchOption result ((w : Word) → text.now ≡ word_text w → ⊥) (λ w. text.now ≡ word_text w) }
{
    match text {
        "add" => Some(Word::Add),
        "replace" => Some(Word::Replace),
        "remove" => Some(Word::Remove),
        _ => None,
    }
}
