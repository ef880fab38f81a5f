//! Where a batch of elements likely ends.

ghost use Rattle.std.specs.Prelude.{◌≡◌, ◌<◌, ◌≤◌, length, slice_index, IfSome};

use crate::batches::ends::{LEAST, batch_end};
use memchr::memmem;

/// How many bytes at the front of a batch tell an element from what stands inside of one: white space, a brace and a first key.
const FRONT: usize = 24;

/// How far behind the least length of a batch such a front is looked for, so that texts without a second one are not searched to
/// their end for each batch.
const REACH: usize = 8 * LEAST;

/// The comma behind the least length of a batch that is followed by the same bytes as stand at its front.
fn comma_before_front(bytes: &[u8], at: usize) -> Option<usize>
    requires { at ≤ length bytes.now }
    ensures forward { IfSome result (λ end. at ≤ end) }
    ensures within { IfSome result (λ end. end < length bytes.now) }
    ensures comma { IfSome result (λ end. slice_index bytes.now end ≡ 44) }
{
    if bytes.len() - at < LEAST + FRONT {
        return None;
    }
    let from = at + LEAST;
    let reach = REACH.min(bytes.len() - from);
    let Some(before) = memmem::find(&bytes[from..from + reach], &bytes[at..at + FRONT]) else {
        return None;
    };
    let end = from + before - 1;
    if bytes[end] == b',' {
        return Some(end);
    }
    None
}

/// The position of a comma that likely stands behind a batch that begins at a position, or else what `batch_end` says. Lists that a
/// program wrote have elements that begin alike, each with the same white space, brace and first key: so the next one is found by
/// its first bytes, and what lies between is not passed over byte by byte. Something inside of an element may begin so too, and
/// then the comma stands behind no element, though the text is that of an array.
pub fn likely_end(bytes: &[u8], at: usize) -> usize
    requires { at ≤ length bytes.now }
    ensures forward { at ≤ result }
    ensures within { result ≤ length bytes.now }
    ensures comma { result < length bytes.now → slice_index bytes.now result ≡ 44 }
{
    match comma_before_front(bytes, at) {
        Some(end) => end,
        None => batch_end(bytes, at),
    }
}
