//! The command that makes a graph.

ghost use Rattle.std.specs.Prelude.{◌≡◌, ◌≤◌};
ghost use Rattle.dtdl_cmd.specs.Runs.{EndsMake};

use crate::making::make;
use crate::run::say;
use crate::status::Status;
use dt_base::{OutOfMemory, Sink};
use std::alloc::Global;

/// Makes a graph of so many rooms, and writes its counts.
pub fn run_make<K: Sink>(alloc: Global, rooms: u32, output: &mut K) -> Status
    requires few { rooms ≤ 20000 }
    ensures ends { EndsMake rooms (record { before = K.taken output.old; after = K.taken output.new; faults_before = K.faults output.old; faults_after = K.faults output.new }) result }
    ensures count { K.faults output.old ≤ K.faults output.new }
    ensures beside { K.aside output.new ≡ K.aside output.old }
{
    match make(alloc, rooms) {
        Ok(text) => say(output, Status::Ok, text.as_slice()),
        Err(OutOfMemory) => Status::OutOfMemory,
    }
}
