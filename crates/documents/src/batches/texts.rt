//! The texts of batches.

ghost use Rattle.std.specs.Prelude.{◌≡◌, ◌≤◌, length, OnOk};
ghost use Rattle.documents.specs.batches.Batches.{batch_text};

use dt_base::OutOfMemory;

/// Puts the text of the batch between two positions into `room`, in place of what it held. Fails only for want of memory.
pub fn put_batch(room: &mut Vec<u8>, bytes: &[u8], at: usize, end: usize) -> Result<(), OutOfMemory>
    requires start { at ≤ end }
    requires within { end ≤ length bytes.now }
    ensures { OnOk result (room.new.items ≡ batch_text bytes.now at end) }
{
    room.clear();
    room.push(b'[')?;
    room.extend_from_slice(&bytes[at..end])?;
    if end < bytes.len() {
        room.push(b']')?;
    }
    Ok(())
}
