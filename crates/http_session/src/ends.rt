use thiserror::Error;

/// Why a session ended.
#[derive(Clone, Copy, Debug, PartialEq, Eq, Hash, Error)]
pub enum SessionEnd {
    /// The stream ended between requests, or a request that asked to close the connection was answered.
    #[error("the session is closed")]
    Closed,
    /// The stream has no further request that can be read, and the reply says so.
    #[error("the session ended with a refusal")]
    Refused,
    /// The 1,000,000th reply was written, and its request had not asked to close the connection.
    #[error("the session is full")]
    Full,
    /// A read failed. The source's count of faults rose.
    #[error("the read failed")]
    ReadFault,
    /// A write failed. The sink's count of faults rose, and a proper prefix of the last reply was written.
    #[error("the write failed")]
    WriteFault,
    /// No memory was found. The status 503 was written, but where the last request left an entry.
    #[error("out of memory")]
    OutOfMemory,
}
