//! Why no records were read.

ghost use Rattle.std.specs.Prelude.{◌≡◌};
ghost use Rattle.model_read.specs.declared.end.LocalEnd.TheVariants.{OutOfMemory};

use dt_base::OutOfMemory;
use json_tree::Place;
use local_rules::LocalRule;
use thiserror::Error;

/// Why a document was not read (this project's own).
#[derive(Debug, Drop, Error)]
pub enum LocalEnd {
    /// The document breaks a local rule, and at this place it first breaks one: in preorder, and at one place in
    /// the order of the rules.
    #[error("a local rule is broken")]
    Fault { place: Place, rule: LocalRule },
    /// No memory was found, which says nothing of the document.
    #[error("out of memory")]
    OutOfMemory,
}

impl From<OutOfMemory> for LocalEnd {
    ghost from_gives = { λ _ e. e ≡ OutOfMemory };

    fn from(_error: OutOfMemory) -> LocalEnd {
        LocalEnd::OutOfMemory
    }
}
