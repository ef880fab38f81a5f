//! One twin of a table.

use twin_value::Twin;

/// A twin, and the size that was given with it.
#[derive(Debug, Drop)]
pub struct Held {
    pub twin: Twin,
    pub bytes: u64,
}

/// No memory was found, or the number of the twins or the sum of their sizes would pass 64 bits. The twin comes back.
#[derive(Debug, Drop)]
pub struct PutEnd {
    pub back: Twin,
}
