//! From documents to the interfaces that they declare together, or to the line that names their first fault. A document that
//! is a list is read batch by batch (`faultless`), and `batches` cuts its text.
#![tactic(auto)]

pub mod batches;
pub mod faultless;
mod judgement;
mod laws;
mod lines;
mod refusal;

pub use judgement::declared_by;
pub use laws::declaration_or_fault;
pub use refusal::Refusal;
