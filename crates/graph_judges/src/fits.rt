//! Whether twins and relationships fit the models that there are.

mod ends;
mod links;
mod misfits;
mod names;
mod refused;
mod twins;

pub use ends::least_ill;
pub use misfits::least_misfit;
pub use twins::twin_fits;
