//! What an interface has with all that it inherits and with what its components consist of, and what of it is held.

mod contents;
mod found;
mod laws;
mod resolutions;
mod resolving;

pub use laws::{held_rest_right, held_stay_right, one_resolved, resolved_in_both, some_resolved};
pub use resolutions::{MOST_HELD, Resolutions};
pub use resolving::{ancestors, parts, resolve};
