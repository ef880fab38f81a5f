ghost use Rattle.std.specs.Prelude.{◌≡◌, ℕ, ◌≤◌, List, [], length, map, Option, Some, Err, IfSome, IfOk, All};
ghost use Rattle.dt_base.specs.Faults.{Rose};
ghost use Rattle.connections.specs.Records.{LinkRecord};
ghost use Rattle.connections.specs.declared.harbor.HarborEnd.TheVariants.{Failed};

use crate::Door;
use dt_base::List;
use std::alloc::AllocError;
use thiserror::Error;

/// Why a harbor gave no doors.
#[derive(Clone, Copy, Debug, PartialEq, Eq, Hash, Error)]
pub enum HarborEnd {
    /// The harbor failed. Its count of faults rose.
    #[error("the harbor failed")]
    Failed,
    /// There was no memory for the doors.
    #[error("out of memory")]
    OutOfMemory,
}

impl From<AllocError> for HarborEnd {
    ghost use Rattle.connections.specs.declared.harbor.HarborEnd.TheVariants.{OutOfMemory};

    ghost from_gives = { λ _ e. e ≡ OutOfMemory };

    fn from(_error: AllocError) -> HarborEnd {
        HarborEnd::OutOfMemory
    }
}

/// What opens doors at a port.
///
/// `faults` counts the failures so far. A harbor in memory tells what is `ahead` of each door that it gives where it is asked
/// for so many doors of so many turns; a network does not.
pub trait Harbor {
    /// A door that it gives.
    type Door: Door;

    ghost faults: { Self → ℕ };

    ghost ahead: { Self → ℕ → ℕ → Option (List (List (Option LinkRecord))) };

    /// Opens one door for each worker, with `each` turns. Nothing has happened at them so far. It fails only where the
    /// count of faults rose.
    fn open(&mut self, port: u16, workers: u32, each: u32) -> Result<List<Self::Door>, HarborEnd>
        ensures number { IfOk result (λ doors. length doors ≡ workers) }
        ensures left { IfOk result (All (λ door. Self.Door.left door ≡ each)) }
        ensures counts { IfOk result (All (λ door. Self.Door.faults door ≡ 0)) }
        ensures lost { IfOk result (All (λ door. Self.Door.lost door ≡ 0)) }
        ensures gone { IfOk result (All (λ door. IfSome (Self.Door.gone door) (λ links. links ≡ []))) }
        ensures ahead { IfOk result (λ doors. IfSome (ahead self.old workers each)
            (λ turns. map Self.Door.ahead doors ≡ map Some turns)) }
        ensures cause { result ≡ Err Failed → Rose (faults self.old) (faults self.new) }
        ensures count { faults self.old ≤ faults self.new };
}
