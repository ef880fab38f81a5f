use dt_base::{List, OutOfMemory, Text};
use thiserror::Error;

/// A request that was read whole.
#[derive(Debug, Drop)]
pub struct Request {
    pub method: Text,
    /// The target up to the first `?`.
    pub path: Text,
    /// What follows the first `?`.
    pub query: Text,
    /// As many bytes as the head says, at most 4,194,304.
    pub body: List<u8>,
    /// Whether the connection is to be closed after the reply: the version is 1.0, or a field `Connection` has the
    /// word `close` (RFC 9112, section 9.6).
    pub close: bool,
}

/// Why no request was read.
#[derive(Clone, Copy, Debug, PartialEq, Eq, Hash, Error)]
pub enum HttpEnd {
    /// The stream is empty and has ended.
    #[error("the stream has ended")]
    Closed,
    /// The stream begins with no head within the limits.
    #[error("no request head")]
    BadHead,
    /// The head says more than 4,194,304 bytes of body.
    #[error("the body is too long")]
    BodyTooLong,
    /// The head has a field `Transfer-Encoding`.
    #[error("transfer codings are not read")]
    TransferCoding,
    /// The stream ends inside the body.
    #[error("the stream ended inside the body")]
    CutOff,
    /// A read failed. The source's count of faults rose.
    #[error("the read failed")]
    ReadFault,
    /// There was no memory for the message.
    #[error("out of memory")]
    OutOfMemory,
}

impl From<OutOfMemory> for HttpEnd {
    ghost use Rattle.std.specs.Prelude.{◌≡◌};
    ghost use Rattle.http_ends.specs.declared.request.HttpEnd.TheVariants.{OutOfMemory};

    ghost from_gives = { λ _ e. e ≡ OutOfMemory };

    fn from(_error: OutOfMemory) -> HttpEnd {
        HttpEnd::OutOfMemory
    }
}
