ghost use Rattle.std.specs.Prelude.{◌≡◌};
ghost use Rattle.dtdl_cmd.specs.Answers.{status_number};

/// How a command ended.
#[derive(Clone, Copy, Debug, PartialEq, Eq, Hash)]
pub enum Status {
    /// The answer was written whole, or the counts of a graph that was made. A replay's stream ended between requests, or a
    /// request that asks to close the connection was answered. The reply to an ask is a success, and its body was written.
    Ok,
    /// The documents have a fault, and the line that names the first was written; or a replay wrote a closing refusal of a
    /// request that cannot be read; or the reply to an ask is no success, and its body was written.
    Refused,
    /// The words are no command that is built. The usage line was written.
    Usage,
    /// A read failed. The count of faults of the source or of the shelf rose, or the link of an ask was lost, and nothing was
    /// written, but the replies so far by a replay.
    ReadFault,
    /// A write failed. The sink's count of faults rose, and a proper prefix was written; or the link of an ask was lost, and
    /// nothing was written.
    WriteFault,
    /// There was no memory. Nothing was written, but the replies so far by a replay, and the status 503 where its last
    /// request changed nothing.
    OutOfMemory,
    /// The documents up to one, the canonical text or the body of an ask have more bytes than the limit. The line that says so was written.
    TooLong,
    /// A document is not there. The line with its number was written.
    Missing,
    /// A replay wrote its 1,000,000th reply, and the request had not asked to close the connection.
    SessionFull,
    /// The dial of an ask failed. Its count of faults rose, and nothing was written.
    DialFault,
    /// What an ask got does not begin with a reply within the limits. Nothing was written.
    BadReply,
}

impl Status {
    /// The exit status of the process.
    pub fn number(&self) -> u8
        ensures { result ≡ status_number self.now }
    {
        match self {
            Status::Ok => 0,
            Status::Refused => 1,
            Status::Usage => 2,
            Status::ReadFault => 3,
            Status::WriteFault => 4,
            Status::OutOfMemory => 5,
            Status::TooLong => 6,
            Status::Missing => 7,
            Status::SessionFull => 8,
            Status::DialFault => 10,
            Status::BadReply => 11,
        }
    }
}
