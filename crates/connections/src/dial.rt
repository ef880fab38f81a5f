ghost use Rattle.std.specs.Prelude.{◌≡◌, ◌≢◌, ℕ, ◌≤◌, List, Option, Some, None, Err, IfSome, IfOk};
ghost use Rattle.dt_base.specs.Faults.{Rose};
ghost use Rattle.connections.specs.Records.{LinkRecord, Gains};
ghost use Rattle.connections.specs.declared.dial.DialEnd.TheVariants.{Failed};

use dt_base::Link;
use std::alloc::AllocError;
use thiserror::Error;

/// Why a dial gave no link.
#[derive(Clone, Copy, Debug, PartialEq, Eq, Hash, Error)]
pub enum DialEnd {
    /// The dial failed. Its count of faults rose.
    #[error("the dial failed")]
    Failed,
    /// There was no memory for the link.
    #[error("out of memory")]
    OutOfMemory,
}

impl From<AllocError> for DialEnd {
    ghost use Rattle.connections.specs.declared.dial.DialEnd.TheVariants.{OutOfMemory};

    ghost from_gives = { λ _ e. e ≡ OutOfMemory };

    fn from(_error: AllocError) -> DialEnd {
        DialEnd::OutOfMemory
    }
}

/// What makes links to servers.
///
/// `faults` counts the dials that failed, and `lost` rises with each link that was handed back after a fault of its own. A
/// dial in memory also tells what is `ahead`, which is the record of the link that it gives, or none where it fails, and the records
/// of the links that are `gone`, as they were when they were handed back; a network does not.
pub trait Dial {
    /// A connection that it gives.
    type Link: Link;

    ghost faults: { Self → ℕ };

    ghost lost: { Self → ℕ };

    ghost ahead: { Self → Option (Option LinkRecord) };

    ghost gone: { Self → Option (List LinkRecord) };

    /// Makes a link to a port of a host, which has no fault so far. It fails only where the count of faults rose.
    fn dial(&mut self, host: &str, port: u16) -> Result<Self::Link, DialEnd>
        ensures fresh { IfOk result (λ link. Self.Link.Source.faults link ≡ 0) }
        ensures given { IfOk result (λ link. IfSome (ahead self.old) (λ turn. turn ≡ Some (record {
          left = Self.Link.Source.left link;
          taken = Self.Link.Sink.taken link;
          faults = Self.Link.Source.faults link;
        }))) }
        ensures failed { result ≡ Err Failed → IfSome (ahead self.old) (λ turn. turn ≡ None) }
        ensures cause { result ≡ Err Failed → Rose (faults self.old) (faults self.new) }
        ensures count { faults self.old ≤ faults self.new }
        ensures lost { lost self.new ≡ lost self.old }
        ensures gone { gone self.new ≡ gone self.old };

    /// Takes a link back. It takes no memory.
    fn done(&mut self, link: Self::Link)
        ensures sound { Self.Link.Source.faults link ≡ 0 → lost self.new ≡ lost self.old }
        ensures broken { Self.Link.Source.faults link ≢ 0 → Rose (lost self.old) (lost self.new) }
        ensures lost { lost self.old ≤ lost self.new }
        ensures gone { Gains (gone self.old) (gone self.new) (record {
          left = Self.Link.Source.left link;
          taken = Self.Link.Sink.taken link;
          faults = Self.Link.Source.faults link;
        }) }
        ensures ahead { ahead self.new ≡ ahead self.old }
        ensures count { faults self.new ≡ faults self.old };
}
