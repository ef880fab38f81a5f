//! The twin that an ask brings.

use twin_value::Twin;

/// A twin that an ask brings, and how many bytes its text has.
#[derive(Debug, Drop)]
pub struct NewTwin {
    pub twin: Twin,
    pub bytes: u64,
}
