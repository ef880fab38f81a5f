//! Bytes that are spent.

ghost use Rattle.std.specs.Prelude.{◌≡◌, ◌+◌, ◌<◌, MatchOption};

/// What is left of so many bytes behind others; None exactly where the others are more.
pub(crate) fn spent(left: u64, bytes: u64) -> Option<u64>
    ensures { MatchOption result (left < bytes) (λ rest. rest + bytes ≡ left) }
{
    left.checked_sub(bytes)
}
