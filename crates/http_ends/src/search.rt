/// What the bytes that have come say of the head at their front.
#[derive(Clone, Copy, Debug)]
pub(crate) enum Judged<H> {
    /// They begin with this head.
    Whole(H),
    /// They begin with no head within the limits, whatever follows.
    Refused,
    /// They do not begin with a whole head yet.
    Open,
}

/// What the searched bytes end in.
#[derive(Clone, Copy, Debug, PartialEq, Eq, Hash)]
enum Line {
    /// There is no byte but line ends.
    Blank,
    /// A line that has a byte.
    Begun,
    /// The end of such a line.
    Ended,
    /// The end of such a line and a carriage return.
    Returned,
}

/// What a byte makes of the line, and whether a head may be judged anew there: where its first byte came that is no
/// line end, and at the end of each line without bytes after that.
fn step(line: Line, byte: u8) -> (Line, bool) {
    match (line, byte) {
        (Line::Blank, b'\r' | b'\n') => (Line::Blank, false),
        (Line::Blank, _) => (Line::Begun, true),
        (Line::Ended | Line::Returned, b'\n') => (Line::Ended, true),
        (_, b'\n') => (Line::Ended, false),
        (Line::Ended, b'\r') => (Line::Returned, false),
        _ => (Line::Begun, false),
    }
}

/// How far the end of a head was searched for, so that no byte is searched twice however a head comes.
#[derive(Clone, Copy, Debug)]
pub(crate) struct Search {
    searched: usize,
    line: Line,
}

impl Search {
    /// Nothing was searched yet.
    pub(crate) fn new() -> Search {
        Search {
            searched: 0,
            line: Line::Blank,
        }
    }

    /// Whether the head may be judged anew, by the bytes that were not searched yet. It stops behind the byte that
    /// says so.
    pub(crate) fn finds_place(&mut self, bytes: &[u8]) -> bool {
        for byte in bytes.iter().skip(self.searched) {
            let (line, found) = step(self.line, *byte);
            self.line = line;
            self.searched = self.searched.saturating_add(1);
            if found {
                return true;
            }
        }
        false
    }
}
