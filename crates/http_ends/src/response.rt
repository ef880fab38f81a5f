use dt_base::{List, OutOfMemory, Text};
use thiserror::Error;

/// A reply, as a server writes it and a client reads it.
#[derive(Debug, Drop)]
pub struct Response {
    pub status: u16,
    /// The value of the field `Allow`, the methods that a resource has (RFC 9110, section 10.2.1).
    pub allow: Option<Text>,
    pub body: List<u8>,
}

/// Why a message was not written whole.
#[derive(Clone, Copy, Debug, PartialEq, Eq, Hash, Error)]
pub enum SendEnd {
    /// A write failed. The sink's count of faults rose, and a proper prefix of the message was written.
    #[error("the write failed")]
    WriteFault,
    /// There was no memory for the message, and nothing was written.
    #[error("out of memory")]
    OutOfMemory,
}

impl From<OutOfMemory> for SendEnd {
    ghost use Rattle.std.specs.Prelude.{◌≡◌};
    ghost use Rattle.http_ends.specs.declared.response.SendEnd.TheVariants.{OutOfMemory};

    ghost from_gives = { λ _ e. e ≡ OutOfMemory };

    fn from(_error: OutOfMemory) -> SendEnd {
        SendEnd::OutOfMemory
    }
}

/// Why no reply was read.
#[derive(Clone, Copy, Debug, PartialEq, Eq, Hash, Error)]
pub enum ReplyEnd {
    /// The stream does not begin with a reply within the limits.
    #[error("no reply")]
    BadReply,
    /// A read failed. The source's count of faults rose.
    #[error("the read failed")]
    ReadFault,
    /// There was no memory for the reply.
    #[error("out of memory")]
    OutOfMemory,
}

impl From<OutOfMemory> for ReplyEnd {
    ghost use Rattle.std.specs.Prelude.{◌≡◌};
    ghost use Rattle.http_ends.specs.declared.response.ReplyEnd.TheVariants.{OutOfMemory};

    ghost from_gives = { λ _ e. e ≡ OutOfMemory };

    fn from(_error: OutOfMemory) -> ReplyEnd {
        ReplyEnd::OutOfMemory
    }
}
