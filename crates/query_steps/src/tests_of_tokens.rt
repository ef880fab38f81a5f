//! Tests of tokens.

ghost use Rattle.std.specs.Prelude.{◌≡◌};
ghost use Rattle.query_grammar.specs.Phrases.{word_number, mark_number};
ghost use Rattle.query_grammar.specs.Machinery.Steps.{is_mark, is_word, is_dot, is_as, when};

use query_grammar::State;
use query_terms::tokens::{Mark, Token, Word};

fn word_number(word: Word) -> u8
    ensures { result ≡ word_number word }
{
    match word {
        Word::Select => 0,
        Word::Top => 1,
        Word::Count => 2,
        Word::From => 3,
        Word::Twins => 4,
        Word::Relationships => 5,
        Word::Join => 6,
        Word::Related => 7,
        Word::Where => 8,
        Word::As => 9,
        Word::And => 10,
        Word::Or => 11,
        Word::Not => 12,
        Word::In => 13,
        Word::Nin => 14,
        Word::True => 15,
        Word::False => 16,
        Word::Is(_) => 17,
        Word::Part(_) => 18,
        Word::OfModel => 19,
        Word::Alias => 20,
    }
}

fn mark_number(mark: Mark) -> u8
    ensures { result ≡ mark_number mark }
{
    match mark {
        Mark::Star => 0,
        Mark::Open => 1,
        Mark::Close => 2,
        Mark::Comma => 3,
        Mark::Dot => 4,
        Mark::OpenList => 5,
        Mark::CloseList => 6,
        Mark::Compare(_) => 7,
    }
}

pub(crate) fn is_mark(mark: Mark, token: &Token) -> bool
    ensures { result ≡ is_mark mark token.now }
{
    match token {
        Token::Mark(other) => mark_number(mark) == mark_number(*other),
        Token::Name(_, _) => false,
        Token::Number(_) => false,
        Token::Text(_, _) => false,
    }
}

fn is_word(word: Word, token: &Token) -> bool
    ensures { result ≡ is_word word token.now }
{
    match token {
        Token::Name(other, _) => word_number(word) == word_number(*other),
        Token::Mark(_) => false,
        Token::Number(_) => false,
        Token::Text(_, _) => false,
    }
}

pub(crate) fn is_dot(token: &Token) -> bool
    ensures { result ≡ is_dot token.now }
{
    match token {
        Token::Mark(Mark::Dot) => true,
        _ => false,
    }
}

pub(crate) fn is_as(token: &Token) -> bool
    ensures { result ≡ is_as token.now }
{
    match token {
        Token::Name(Word::As, _) => true,
        _ => false,
    }
}

/// The state, where the test passed.
pub(crate) fn when(passes: bool, state: State) -> Option<State>
    ensures { result ≡ when passes state }
{
    if passes { Some(state) } else { None }
}

/// The state, where the token is this mark.
pub(crate) fn when_mark(mark: Mark, token: Token, state: State) -> Option<State>
    ensures { result ≡ when (is_mark mark token) state }
{
    let passes = is_mark(mark, &token);
    drop(token);
    when(passes, state)
}

/// The state, where the token is this word.
pub(crate) fn when_word(word: Word, token: Token, state: State) -> Option<State>
    ensures { result ≡ when (is_word word token) state }
{
    let passes = is_word(word, &token);
    drop(token);
    when(passes, state)
}
