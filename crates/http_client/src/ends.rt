use dt_base::OutOfMemory;
use thiserror::Error;

/// Why an ask has no reply.
#[derive(Clone, Copy, Debug, PartialEq, Eq, Hash, Error)]
pub enum AskEnd {
    /// The dial failed. Its count of faults rose, and nothing was asked.
    #[error("the dial failed")]
    DialFault,
    /// A read failed after the whole request was written. The count of links that were lost rose.
    #[error("the read failed")]
    ReadFault,
    /// A write failed, and a proper prefix of the request was written. The count of links that were lost rose.
    #[error("the write failed")]
    WriteFault,
    /// The whole request was written, and what came does not begin with a reply within the limits.
    #[error("no reply")]
    BadReply,
    /// There was no memory for the link, the request or the reply.
    #[error("out of memory")]
    OutOfMemory,
}

impl From<OutOfMemory> for AskEnd {
    ghost use Rattle.std.specs.Prelude.{◌≡◌};
    ghost use Rattle.http_client.specs.declared.ends.AskEnd.TheVariants.{OutOfMemory};

    ghost from_gives = { λ _ e. e ≡ OutOfMemory };

    fn from(_error: OutOfMemory) -> AskEnd {
        AskEnd::OutOfMemory
    }
}
