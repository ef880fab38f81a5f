//! The commands by their words.

ghost use Rattle.std.specs.Prelude.{◌≡◌, ◌↔◌, ℕ, ◌<◌, ◌≤◌, List, drop, get_or, map, codes, string_bytes, IsTrue, MatchOption};
ghost use Rattle.dtdl_cmd.specs.Words.{AreMake, AreNames, AreReplay, IsCommand, IsDocumentName, IsNumberUpTo, command_word};
ghost use Rattle.dtdl_cmd.specs.declared.command.Command.{Command};

/// How many names a command takes.
const MAX_NAMES: usize = 4096;

/// How many rooms a graph that is made has.
const MAX_ROOMS: u32 = 20_000;

/// A command that reads documents.
#[derive(Clone, Copy, Debug, PartialEq, Eq)]
pub enum Command {
    /// Judges the documents by every rule.
    Check,
    /// Prints the canonical text of their interfaces.
    Canon,
}

fn command_named(word: &str) -> Option<Command>
    ensures { MatchOption result ((c : Command) → command_word c ≡ word.now → ⊥) (λ c. command_word c ≡ word.now) }
{
    match word {
        "check" => Some(Command::Check),
        "canon" => Some(Command::Canon),
        _ => None,
    }
}

/// Whether a word may name a file: it is not empty and does not begin with `-`.
fn is_name(word: &str) -> bool
    ensures { IsTrue result ↔ IsDocumentName word.now }
{
    let bytes = word.as_bytes();
    !bytes.is_empty() && bytes[0] != b'-'
}

/// Whether the words are names, and not too many.
fn are_names(words: &[String]) -> bool
    ensures { IsTrue result ↔ AreNames (map string_bytes words.now) }
{
    if words.len() > MAX_NAMES {
        return false;
    }
    'words: for word in words {
        if !is_name(word.as_str()) {
            return false;
        }
    }
    true
}

/// The command that the words are, with the names behind its word.
pub fn command_of(words: &[String]) -> Option<Command>
    ensures { MatchOption result ((c : Command) (names : List (List ℕ)) → IsCommand words.now c names → ⊥) (λ c. IsCommand words.now c (map string_bytes (drop 1 words.now))) }
{
    if words.is_empty() || !are_names(&words[1..]) {
        return None;
    }
    command_named(words[0].as_str())
}

/// Whether a word is that of a replay.
fn is_replay(word: &str) -> bool
    ensures { IsTrue result ↔ (word.now ≡ codes "replay") }
{
    word == "replay"
}

/// Whether the words are that of a replay alone.
pub fn are_replay(words: &[String]) -> bool
    ensures { IsTrue result ↔ AreReplay words.now }
{
    words.len() == 1 && is_replay(words[0].as_str())
}

/// Whether a word is that of a graph that is made.
fn is_make(word: &str) -> bool
    ensures { IsTrue result ↔ (word.now ≡ codes "make") }
{
    word == "make"
}

/// Whether a word begins with a byte past that of the digit 0, as a number does that has no sign and no leading zero.
fn begins_past_zero(word: &str) -> bool
    ensures { IsTrue result ↔ (48 < get_or word.now 0 0) }
{
    let bytes = word.as_bytes();
    !bytes.is_empty() && bytes[0] > b'0'
}

/// The number from 1 to `most` that a word is, in digits without a leading zero or a sign.
pub fn number_up_to(most: u32, word: &str) -> Option<u32>
    requires modest { most ≤ 1000000 }
    ensures { MatchOption result ((n : ℕ) → IsNumberUpTo most word.now n → ⊥) (IsNumberUpTo most word.now) }
{
    if !begins_past_zero(word) {
        return None;
    }
    let Ok(number) = word.parse::<u32>() else {
        return None;
    };
    if number > most {
        return None;
    }
    Some(number)
}

/// How many rooms the graph has that the words ask to make.
pub fn rooms_of(words: &[String]) -> Option<u32>
    ensures { MatchOption result ((n : ℕ) → AreMake words.now n → ⊥) (AreMake words.now) }
{
    let [command, rooms] = words else {
        return None;
    };
    if !is_make(command.as_str()) {
        return None;
    }
    number_up_to(MAX_ROOMS, rooms.as_str())
}
