//! The command that answers a session of HTTP.

ghost use Rattle.std.specs.Prelude.{◌≡◌, ◌≤◌};
ghost use Rattle.dtdl_cmd.specs.Runs.{EndsReplay, exit_status};

use crate::status::Status;
use dt_base::{Sink, Source};
use graph_server::replay;
use http_session::SessionEnd;
use std::alloc::Global;

/// The status of a replay that ended so.
fn status_of(end: SessionEnd) -> Status
    ensures { result ≡ exit_status end }
{
    match end {
        SessionEnd::Closed => Status::Ok,
        SessionEnd::Refused => Status::Refused,
        SessionEnd::Full => Status::SessionFull,
        SessionEnd::ReadFault => Status::ReadFault,
        SessionEnd::WriteFault => Status::WriteFault,
        SessionEnd::OutOfMemory => Status::OutOfMemory,
    }
}

/// Answers the session of the input over a graph that is empty at first.
pub fn run_replay<S: Source, K: Sink>(alloc: Global, input: &mut S, output: &mut K) -> Status
    ensures ends { EndsReplay (record { before = S.left input.old; after = S.left input.new; faults_before = S.faults input.old; faults_after = S.faults input.new })
        (record { before = K.taken output.old; after = K.taken output.new; faults_before = K.faults output.old; faults_after = K.faults output.new }) result }
    ensures input_count { S.faults input.old ≤ S.faults input.new }
    ensures input_beside { S.aside input.new ≡ S.aside input.old }
    ensures output_count { K.faults output.old ≤ K.faults output.new }
    ensures output_beside { K.aside output.new ≡ K.aside output.old }
{
    status_of(replay(alloc, input, output))
}
