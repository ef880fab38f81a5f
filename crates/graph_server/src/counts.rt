//! What a worker counts.

ghost use Rattle.std.specs.Prelude.{◌≡◌, ◌+◌, ◌^◌, ◌<◌};
ghost use Rattle.graph_server.specs.Works.{broken_at, short_at};

use http_session::SessionEnd;

/// What a worker did.
#[derive(Clone, Copy, Debug, PartialEq, Eq)]
pub struct Work {
    /// The links that it took.
    pub links: u64,
    /// The turns that failed.
    pub faults: u64,
    /// The sessions that a fault of their link ended.
    pub broken: u64,
    /// The sessions that want of memory ended.
    pub short: u64,
}

impl Work {
    /// Counts a link, by why its session ended.
    pub(crate) fn count(&mut self, end: SessionEnd)
        requires links { self.old.links < 2 ^ 32 }
        requires broken { self.old.broken < 2 ^ 32 }
        requires short { self.old.short < 2 ^ 32 }
        ensures links { self.new.links ≡ self.old.links + 1 }
        ensures faults { self.new.faults ≡ self.old.faults }
        ensures broken { self.new.broken ≡ self.old.broken + broken_at end }
        ensures short { self.new.short ≡ self.old.short + short_at end }
    {
        self.links += 1;
        match end {
            SessionEnd::ReadFault | SessionEnd::WriteFault => self.broken += 1,
            SessionEnd::OutOfMemory => self.short += 1,
            SessionEnd::Closed | SessionEnd::Refused | SessionEnd::Full => {}
        }
    }
}
