//! Marks.

ghost use Rattle.std.specs.Prelude.{◌≡◌, length};
ghost use Rattle.query_terms.specs.tokens.Spellings.{mark_bytes};
ghost use Rattle.query_lexer.specs.Machinery.Spans.{pair_of, single_mark, mark_at};

use query_terms::Compare;
use query_terms::tokens::Mark;

/// The comparison of the second kind where `=` follows, or else of the first kind.
fn pair_of(first: Compare, other: Compare, second: u8) -> Mark
    ensures { result ≡ pair_of first other second }
{
    if second == b'=' {
        Mark::Compare(other)
    } else {
        Mark::Compare(first)
    }
}

/// The mark that a byte is whatever follows.
fn single_mark(first: u8) -> Option<Mark>
    ensures { result ≡ single_mark first }
{
    if first == b'*' {
        return Some(Mark::Star);
    }
    if first == b'(' {
        return Some(Mark::Open);
    }
    if first == b')' {
        return Some(Mark::Close);
    }
    if first == b',' {
        return Some(Mark::Comma);
    }
    if first == b'.' {
        return Some(Mark::Dot);
    }
    if first == b'[' {
        return Some(Mark::OpenList);
    }
    if first == b']' {
        return Some(Mark::CloseList);
    }
    if first == b'=' {
        return Some(Mark::Compare(Compare::Same));
    }
    None
}

/// The longest mark that two bytes begin with.
pub(crate) fn mark_at(first: u8, second: u8) -> Option<Mark>
    ensures { result ≡ mark_at first second }
{
    if first == b'<' {
        return Some(pair_of(Compare::Less, Compare::LessOrSame, second));
    }
    if first == b'>' {
        return Some(pair_of(Compare::Greater, Compare::GreaterOrSame, second));
    }
    if first == b'!' {
        if second == b'=' {
            return Some(Mark::Compare(Compare::Other));
        }
        return None;
    }
    single_mark(first)
}

/// How many bytes a mark has.
pub(crate) fn mark_len(mark: Mark) -> usize
    ensures { result ≡ length (mark_bytes mark) }
{
    match mark {
        Mark::Compare(Compare::Other) => 2,
        Mark::Compare(Compare::LessOrSame) => 2,
        Mark::Compare(Compare::GreaterOrSame) => 2,
        _ => 1,
    }
}
