ghost use Rattle.std.specs.Prelude.{◌≡◌, ℕ, ◌<◌, ◌≤◌, length, take, drop, OnOk, OnErr};
ghost use Rattle.std.specs.Io.KnownBytes.{Appends};
ghost use Rattle.dt_base.specs.Faults.{Rose};

use crate::{Sink, WriteFault};

/// Writes all of `bytes`, the whole rest in each write. It takes no memory.
///
/// `WriteFault` comes only where the count of faults rose, and then a proper prefix of the bytes was written.
pub fn write_all<K: Sink>(sink: &mut K, bytes: &[u8]) -> Result<(), WriteFault>
    ensures whole { OnOk result (Appends (K.taken sink.old) (K.taken sink.new) bytes.now) }
    ensures part { OnErr result ((n : ℕ) × (n < length bytes.now) × Appends (K.taken sink.old) (K.taken sink.new) (take n bytes.now)) }
    ensures cause { OnErr result (Rose (K.faults sink.old) (K.faults sink.new)) }
    ensures count { K.faults sink.old ≤ K.faults sink.new }
    ensures beside { K.aside sink.new ≡ K.aside sink.old }
{
    let mut written = 0;
    'writing: while written < bytes.len() {
        match sink.write(&bytes[written..]) {
            Ok(count) => written += count,
            Err(_) => return Err(WriteFault),
        }
    }
    Ok(())
}
