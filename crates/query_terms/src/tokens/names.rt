//! Which word a name is.

ghost use Rattle.std.specs.Prelude.{◌≡◌};
ghost use Rattle.query_terms.specs.tokens.Words.{same_letters, clause_word, logic_word, function_word, word_of};

use crate::tokens::token::Word;
use crate::{Kind, PartKind};

/// Whether two names have the same letters, capital or not.
pub fn same_letters(name: &str, word: &str) -> bool
    ensures { result ≡ same_letters name.now word.now }
{
    name.eq_ignore_ascii_case(word)
}

fn clause_word(name: &str) -> Option<Word>
    ensures { result ≡ clause_word name.now }
{
    if same_letters(name, "select") {
        return Some(Word::Select);
    }
    if same_letters(name, "top") {
        return Some(Word::Top);
    }
    if same_letters(name, "count") {
        return Some(Word::Count);
    }
    if same_letters(name, "from") {
        return Some(Word::From);
    }
    if same_letters(name, "digitaltwins") {
        return Some(Word::Twins);
    }
    if same_letters(name, "relationships") {
        return Some(Word::Relationships);
    }
    if same_letters(name, "join") {
        return Some(Word::Join);
    }
    if same_letters(name, "related") {
        return Some(Word::Related);
    }
    if same_letters(name, "where") {
        return Some(Word::Where);
    }
    if same_letters(name, "as") {
        return Some(Word::As);
    }
    None
}

fn logic_word(name: &str) -> Option<Word>
    ensures { result ≡ logic_word name.now }
{
    if same_letters(name, "and") {
        return Some(Word::And);
    }
    if same_letters(name, "or") {
        return Some(Word::Or);
    }
    if same_letters(name, "not") {
        return Some(Word::Not);
    }
    if same_letters(name, "in") {
        return Some(Word::In);
    }
    if same_letters(name, "nin") {
        return Some(Word::Nin);
    }
    if same_letters(name, "true") {
        return Some(Word::True);
    }
    if same_letters(name, "false") {
        return Some(Word::False);
    }
    None
}

fn function_word(name: &str) -> Option<Word>
    ensures { result ≡ function_word name.now }
{
    if same_letters(name, "is_defined") {
        return Some(Word::Is(Kind::Defined));
    }
    if same_letters(name, "is_null") {
        return Some(Word::Is(Kind::Null));
    }
    if same_letters(name, "is_number") {
        return Some(Word::Is(Kind::Number));
    }
    if same_letters(name, "is_string") {
        return Some(Word::Is(Kind::Word));
    }
    if same_letters(name, "is_bool") {
        return Some(Word::Is(Kind::Truth));
    }
    if same_letters(name, "is_object") {
        return Some(Word::Is(Kind::Object));
    }
    if same_letters(name, "is_primitive") {
        return Some(Word::Is(Kind::Primitive));
    }
    if same_letters(name, "startswith") {
        return Some(Word::Part(PartKind::Starts));
    }
    if same_letters(name, "endswith") {
        return Some(Word::Part(PartKind::Ends));
    }
    if same_letters(name, "contains") {
        return Some(Word::Part(PartKind::Contains));
    }
    if same_letters(name, "is_of_model") {
        return Some(Word::OfModel);
    }
    None
}

/// Which word a name is.
pub fn word_of(name: &str) -> Word
    ensures { result ≡ word_of name.now }
{
    if let Some(word) = clause_word(name) {
        return word;
    }
    if let Some(word) = logic_word(name) {
        return word;
    }
    if let Some(word) = function_word(name) {
        return word;
    }
    Word::Alias
}
