ghost use Rattle.std.specs.Prelude.{◌≡◌, [], ◌∷◌, ◌++◌, MatchOption};
ghost use Rattle.connections.specs.MemRecords.{record_of};

use dt_base::MemLink;
use std::marker::Model;

/// The links in memory that were handed back. Contracts see their records, in the order in which they were handed back.
///
/// Each stands in the room that it brought, so that taking one back takes no memory.
#[cycle(gone)]
#[derive(Drop)]
pub struct Gone {
    last: Last,
}

/// The last of them, with those before it.
#[cycle(gone)]
#[derive(Drop)]
enum Last {
    Nobody,
    Link(MemLink, u64, Box<Gone>),
}

impl Model for Gone {
    ghost use Rattle.std.specs.Prelude.{List, length};
    ghost use Rattle.std.specs.Coded.{coded_list};
    ghost use Rattle.connections.specs.Records.{LinkRecord, record_code};

    ghost Value = { List LinkRecord };

    ghost coded = { coded_list record_code };

    ghost use Rattle.connections.specs.Handed.{records};

    ghost view = { λ g. records g.last };

    ghost size = { length };

    ghost use Rattle.std.proofs.Common.{arith, length-append};

    ghost size_decreases = { λ a h. Prim.grind (arith, length-append) };
}

impl Gone {
    /// No links.
    pub(crate) fn new() -> Gone
        ensures { result ≡ [] }
    {
        Gone { last: Last::Nobody }
    }

    /// A further link behind those before, in this room, with its count of faults.
    pub(crate) fn with(before: Gone, link: MemLink, faults: u64, room: Box<Gone>) -> Gone
        ensures { result ≡ before ++ record_of link faults ∷ [] }
    {
        let mut room = room;
        *room = before;
        Gone {
            last: Last::Link(link, faults, room),
        }
    }

    /// The last link that was handed back, with its count of faults, and those before it.
    pub fn last(&self) -> Option<(&MemLink, u64, &Gone)>
        ensures { MatchOption result (self.now ≡ [])
            (λ p. self.now ≡ p.2.now ++ record_of p.0.now p.1 ∷ []) }
    {
        match &self.last {
            Last::Nobody => None,
            Last::Link(link, faults, before) => Some((link, *faults, before)),
        }
    }
}
